// A text cut at a byte.
ghost use Rattle.std.specs.Prelude.{◌≡◌, option_copied, ◌==◌};
ghost use Rattle.std.specs.List.{position};
ghost use Rattle.beldi_value.specs.ByteCut.{before, after};

fn place_of(bytes: &[u8], mark: u8) -> Option<usize>
    ensures { result ≡ position (λ b. b == mark) bytes.now }
{
    bytes.iter().position(|byte| *byte == mark)
}

/// What stands before the first `mark`, and what follows it where there is one.
pub fn cut_at(bytes: &[u8], mark: u8) -> (&[u8], Option<&[u8]>)
    ensures front { result.0.now ≡ before mark bytes.now }
    ensures rest { option_copied result.1 ≡ after mark bytes.now }
{
    match place_of(bytes, mark) {
        Some(at) => (&bytes[..at], Some(&bytes[at + 1..])),
        None => (bytes, None),
    }
}
