// What the fields of a head say of the body.
ghost use Rattle.std.specs.Prelude.{◌≡◌, ◌≤◌, ℕ, List, length, map};
ghost use Rattle.httparse.specs.Spans.{IsHeaderWithin, header_bytes};
ghost use Rattle.std.specs.Prelude.{All};
ghost use Rattle.beldi_gateway.specs.Framing.{framed, framed_by, plain, read_length, same_name, with_length};

use beldi_value::read_number;
use httparse::spans::HeaderSpan;

/// What the Content-Length fields say.
#[derive(Clone, Copy)]
pub enum Length {
    /// There is none.
    Absent,
    /// There is one, of this number.
    Given(u64),
    /// There are several, or one that is no such number.
    Bad,
}

/// What the fields say of the body.
#[derive(Clone, Copy)]
pub struct Framing {
    /// Whether there is a Transfer-Encoding field.
    pub coded: bool,
    pub length: Length,
}

fn is_name(given: &[u8], name: &[u8]) -> bool
    ensures { result ≡ same_name given.now name.now }
{
    given.eq_ignore_ascii_case(name)
}

// One to nineteen digits.
fn read_length(value: &[u8]) -> Length
    ensures { result ≡ read_length value.now }
{
    if value.len() > 19 {
        return Length::Bad;
    }
    match read_number(value, u64::MAX) {
        Some(number) => Length::Given(number),
        None => Length::Bad,
    }
}

impl Framing {
    // With a Content-Length field more.
    fn with_length(self, value: &[u8]) -> Framing
        ensures { result ≡ with_length self value.now }
    {
        match self.length {
            Length::Absent => Framing {
                coded: self.coded,
                length: read_length(value),
            },
            _ => Framing {
                coded: self.coded,
                length: Length::Bad,
            },
        }
    }

    // With a field more.
    fn with(self, name: &[u8], value: &[u8]) -> Framing
        ensures { result ≡ framed self (name.now, value.now) }
    {
        if is_name(name, b"transfer-encoding") {
            return Framing {
                coded: true,
                length: self.length,
            };
        }
        if is_name(name, b"content-length") {
            return self.with_length(value);
        }
        self
    }
}

/// What these fields of a head say of the body.
pub fn framing_of(head: &[u8], spans: &[HeaderSpan]) -> Framing
    requires { All (IsHeaderWithin (length head.now)) spans.now }
    ensures { result ≡ framed_by plain (map (header_bytes head.now) spans.now) }
{
    let mut framing = Framing {
        coded: false,
        length: Length::Absent,
    };
    let mut rest = spans;
    while let [span, later @ ..] = rest {
        framing = framing.with(span.name.of(head), span.value.of(head));
        rest = later;
    }
    framing
}
