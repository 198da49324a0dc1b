// How far a request has come. It says when to hand a connection out, and nothing depends on its being right.
use std::str;

// The most bytes of a head that are waited for.
const MAX_HEAD: usize = 16_384;

// The most bytes of a body that are waited for.
const MAX_BODY: usize = 65_536;

// The field that announces how many bytes the body has.
const LENGTH: &[u8] = b"content-length:";

/// What was seen of a request. Each byte is looked at once, however few come at a time.
#[derive(Clone, Copy)]
pub(crate) struct Progress {
    // Bytes that came.
    count: usize,
    // Bytes behind which the next line feed is looked for.
    seen: usize,
    // Where the line begins that is not over yet; after the head, where the body does.
    line: usize,
    // Whether a line ended that is not empty.
    begun: bool,
    // Whether the head is over.
    over: bool,
    // The bytes of the body, as announced.
    body: usize,
}

impl Progress {
    /// Nothing came yet.
    pub(crate) fn new() -> Progress {
        Progress {
            count: 0,
            seen: 0,
            line: 0,
            begun: false,
            over: false,
            body: 0,
        }
    }

    /// Looks at all bytes that came, of which it has seen a front before.
    pub(crate) fn look(&mut self, bytes: &[u8]) {
        self.count = bytes.len();
        self.look_for_body(bytes.get(..MAX_HEAD).unwrap_or(bytes));
    }

    /// Whether what came may be a whole request: its head and the body that it announces, or more than a head may have.
    pub(crate) fn is_whole(&self) -> bool {
        if self.over {
            self.body <= self.count.saturating_sub(self.line)
        } else {
            MAX_HEAD <= self.count
        }
    }

    // Goes on to the end of the head, as far as it came.
    fn look_for_body(&mut self, head: &[u8]) {
        for _ in 0..MAX_HEAD {
            if self.over {
                return;
            }
            match line_end(head, self.seen) {
                Some(end) => self.end_line(head, end),
                None => {
                    self.seen = head.len();
                    return;
                }
            }
        }
    }

    // One more line, whose line feed is at `end`.
    fn end_line(&mut self, head: &[u8], end: usize) {
        let line = head.get(self.line..end).unwrap_or(&[]);
        let line = line.strip_suffix(b"\r").unwrap_or(line);
        if line.is_empty() {
            self.over = self.begun;
        } else {
            self.begun = true;
            self.body = announced(line).unwrap_or(self.body);
        }
        self.line = end.saturating_add(1);
        self.seen = self.line;
    }
}

// Where the next line feed is, from here on.
fn line_end(head: &[u8], from: usize) -> Option<usize> {
    let rest = head.get(from..)?;
    let place = rest.iter().position(|byte| *byte == b'\n')?;
    Some(from.saturating_add(place))
}

// The bytes of the body, where this line announces a number of them that is waited for.
fn announced(line: &[u8]) -> Option<usize> {
    let (name, value) = line.split_at_checked(LENGTH.len())?;
    if !name.eq_ignore_ascii_case(LENGTH) {
        return None;
    }
    let text = str::from_utf8(value.trim_ascii()).ok()?;
    let size = text.parse::<usize>().ok()?;
    if size <= MAX_BODY { Some(size) } else { None }
}
