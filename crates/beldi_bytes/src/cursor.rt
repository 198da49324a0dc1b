// Bytes that are still to be read.
ghost use Rattle.std.specs.Prelude.{◌≡◌, length, IsUtf8};
ghost use Rattle.beldi_bytes.specs.Coding.{Reads, one, truth_bytes, Any};
ghost use Rattle.beldi_bytes.specs.KeyBytes.{two, four};
ghost use Rattle.beldi_bytes.specs.RowBytes.{eight, str_bytes};

use beldi_value::Str;
use std::alloc::{AllocError, Global};
use std::marker::Model;

/// Why nothing was read.
#[derive(Clone, Copy)]
pub(crate) enum ReadErr {
    /// No more memory.
    OutOfMemory,
    /// Nothing that is written has these bytes.
    Foreign,
}

impl From<AllocError> for ReadErr {
    ghost use Rattle.beldi_bytes.specs.declared.cursor.ReadErr.TheVariants.{OutOfMemory};

    ghost from_gives = { λ _ e. e ≡ OutOfMemory };

    fn from(_: AllocError) -> Self {
        ReadErr::OutOfMemory
    }
}

/// What was read. Where it was refused, the values that are named after the `;` are dropped, and the refusal is returned.
macro_rules! given {
    ($read:expr $(; $($owned:ident),+)?) => {
        match $read {
            Ok(value) => value,
            Err(why) => {
                $($(drop($owned);)+)?
                return Err(why);
            }
        }
    };
}

pub(crate) use given;

/// Bytes that are still to be read.
#[derive(Drop)]
pub(crate) struct Cursor<'a> {
    left: &'a [u8],
}

impl<'a> Model for Cursor<'a> {
    ghost use Rattle.std.specs.Prelude.{ℕ, List};

    ghost Value = { List ℕ };

    ghost view = { λ a. a.left.now };
}

impl<'a> Cursor<'a> {
    pub(crate) fn new(bytes: &'a [u8]) -> Cursor<'a>
        ensures { result ≡ bytes.now }
    {
        Cursor { left: bytes }
    }

    /// How many bytes are left.
    pub(crate) fn len(&self) -> usize
        ensures { result ≡ length self.now }
    {
        self.left.len()
    }

    /// A byte.
    pub(crate) fn byte(&mut self) -> Result<u8, ReadErr>
        ensures { Reads one Any self.old self.new result }
    {
        let left = self.left;
        if left.is_empty() {
            return Err(ReadErr::Foreign);
        }
        self.left = &left[1..];
        Ok(left[0])
    }

    /// A truth.
    pub(crate) fn truth(&mut self) -> Result<bool, ReadErr>
        ensures { Reads truth_bytes Any self.old self.new result }
    {
        match given!(self.byte()) {
            0 => Ok(false),
            1 => Ok(true),
            _ => Err(ReadErr::Foreign),
        }
    }

    /// A number in two bytes.
    pub(crate) fn two(&mut self) -> Result<u16, ReadErr>
        ensures { Reads two Any self.old self.new result }
    {
        let high = given!(self.byte());
        let low = given!(self.byte());
        Ok(u16::from(high) * 256 + u16::from(low))
    }

    /// A number in four bytes.
    pub(crate) fn four(&mut self) -> Result<u32, ReadErr>
        ensures { Reads four Any self.old self.new result }
    {
        let high = given!(self.two());
        let low = given!(self.two());
        Ok(u32::from(high) * 65536 + u32::from(low))
    }

    /// A number in eight bytes.
    pub(crate) fn eight(&mut self) -> Result<u64, ReadErr>
        ensures { Reads eight Any self.old self.new result }
    {
        let high = given!(self.four());
        let low = given!(self.four());
        Ok(u64::from(high) * 4_294_967_296 + u64::from(low))
    }

    /// A text, after its length.
    pub(crate) fn text(&mut self, alloc: Global) -> Result<Str, ReadErr>
        ensures { Reads str_bytes IsUtf8 self.old self.new result }
    {
        let count = given!(self.four()) as usize;
        let left = self.left;
        if left.len() < count {
            return Err(ReadErr::Foreign);
        }
        self.left = &left[count..];
        match Str::from_bytes(alloc, &left[..count])? {
            Some(text) => Ok(text),
            None => Err(ReadErr::Foreign),
        }
    }
}
