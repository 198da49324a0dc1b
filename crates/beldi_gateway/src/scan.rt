// Where a head ends.
ghost use Rattle.std.specs.Prelude.{◌≡◌, ◌≤◌, ◌<◌, ◌+◌, ◌^◌, length};
ghost use Rattle.beldi_gateway.specs.Scan.{passed, scan_on, start};

/// What came of the line that is being read.
#[derive(Clone, Copy)]
pub enum HeadLine {
    /// Nothing.
    Blank,
    /// One carriage return.
    Return,
    /// Something that makes it a line that is not empty.
    Text,
}

/// What was read of a head.
#[derive(Clone, Copy)]
pub struct Scan {
    /// Bytes up to the end of the head.
    pub size: u64,
    /// Lines that ended and are not empty.
    pub lines: u64,
    pub line: HeadLine,
    /// Whether the end of the head came.
    pub over: bool,
}

impl Scan {
    pub fn new() -> Scan
        ensures { result ≡ start }
    {
        Scan {
            size: 0,
            lines: 0,
            line: HeadLine::Blank,
            over: false,
        }
    }

    // One byte more, of a head that is not over.
    fn pass(self, byte: u8) -> Scan
        requires size { self.size < 2 ^ 63 }
        requires lines { self.lines < 2 ^ 63 }
        ensures { result ≡ passed self byte }
    {
        let size = self.size + 1;
        match (byte, self.line) {
            (b'\n', HeadLine::Text) => Scan {
                size,
                lines: self.lines + 1,
                line: HeadLine::Blank,
                over: false,
            },
            (b'\n', _) => Scan {
                size,
                lines: self.lines,
                line: HeadLine::Blank,
                over: self.lines > 0,
            },
            (b'\r', HeadLine::Blank) => Scan {
                size,
                lines: self.lines,
                line: HeadLine::Return,
                over: false,
            },
            _ => Scan {
                size,
                lines: self.lines,
                line: HeadLine::Text,
                over: false,
            },
        }
    }

    /// These bytes more, up to the end of the head.
    pub fn pass_all(self, bytes: &[u8]) -> Scan
        requires size { self.size + length bytes.now < 2 ^ 63 }
        requires lines { self.lines + length bytes.now < 2 ^ 63 }
        ensures scanned { result ≡ scan_on self bytes.now }
        ensures size { result.size ≤ self.size + length bytes.now }
        ensures lines { result.lines ≤ self.lines + length bytes.now }
    {
        let mut scan = self;
        let mut rest = bytes;
        while let [byte, later @ ..] = rest {
            if scan.over {
                return scan;
            }
            scan = scan.pass(*byte);
            rest = later;
        }
        scan
    }
}
