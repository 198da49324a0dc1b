// Values from JSON.
ghost use Rattle.std.specs.Prelude.{◌≡◌, ◌≤◌, Some, IfOk, IsTrue, MatchResult};
ghost use Rattle.serde_json.specs.View.{view};
ghost use Rattle.serde_json.specs.Data.{depth};
ghost use Rattle.beldi_value.specs.Limits.{is_within};
ghost use Rattle.beldi_value.specs.Number.{int_at};
ghost use Rattle.beldi_value.specs.ValueReading.{json_at, if_small, read_of, ReadsValue, Refuses};
ghost use Rattle.beldi_value.specs.Value.{datum_of};

use crate::convert::{ConvertErr, depth_of, value_from};
use crate::number::read_int;
use crate::or_drop;
use crate::text_buf::TextBuf;
use crate::value::Value;
use std::alloc::{AllocError, Global};
use thiserror::Error;

/// Why bytes were read as no value. Where several causes hold, the one that stands first here is told.
#[derive(Clone, Copy, Debug, PartialEq, Eq, Error)]
pub enum ValueErr {
    /// No more memory.
    #[error("out of memory")]
    OutOfMemory,
    /// `serde_json` does not read the bytes: they are no UTF-8 or no JSON, or a number is past the largest float.
    #[error("the text is not JSON")]
    NotJson,
    /// Lists and records nest more than 32 deep.
    #[error("the value nests more than 32 levels deep")]
    TooDeep,
    /// A number is no whole number of 64 bits with a sign; nor is `-0`.
    #[error("a number is no whole number of 64 bits")]
    NotInt,
    /// The canonical text has this many bytes, more than 4,096.
    #[error("the canonical text has {bytes} bytes, more than 4,096")]
    TooLarge { bytes: u64 },
}

impl From<AllocError> for ValueErr {
    ghost use Rattle.std.specs.Prelude.{◌≡◌};
    ghost use Rattle.beldi_value.specs.declared.read.ValueErr.TheVariants.{OutOfMemory};

    ghost from_gives = { λ _ e. e ≡ OutOfMemory };

    fn from(_: AllocError) -> Self {
        ValueErr::OutOfMemory
    }
}

// What `serde_json` reads.
fn json_of(alloc: Global, bytes: &[u8]) -> Result<serde_json::Value, ValueErr>
    ensures read { MatchResult result (λ j. json_at bytes.now ≡ Some (view j)) (λ e. Refuses (json_at bytes.now) e) }
    ensures nests { IfOk result (λ j. depth (view j) ≤ 127) }
{
    match serde_json::Value::from_slice(alloc, bytes) {
        Ok(json) => Ok(json),
        Err(error) if error.is_memory() => Err(ValueErr::OutOfMemory),
        Err(_) => Err(ValueErr::NotJson),
    }
}

// The number that the bytes are the text of.
fn int_read(bytes: &[u8], number: i64) -> Result<Value, ValueErr>
    requires { int_at bytes.now ≡ Some number }
    ensures read { ReadsValue (read_of bytes.now) result }
    ensures within { IfOk result (λ v. IsTrue (is_within (datum_of v))) }
{
    Ok(Value::Int(number))
}

impl Value {
    /// The value that the bytes are in JSON. In a record with a repeated key the last one counts.
    pub fn read_json(alloc: Global, bytes: &[u8]) -> Result<Value, ValueErr>
        ensures read { ReadsValue (read_of bytes.now) result }
        ensures within { IfOk result (λ v. IsTrue (is_within (datum_of v))) }
    {
        // Most values of scripts are numbers, which need no reader of JSON.
        if let Some(number) = read_int(bytes) {
            return int_read(bytes, number);
        }
        let json = match json_of(alloc, bytes) {
            Ok(json) => json,
            Err(why) => return Err(why),
        };
        if depth_of(&json) > 32 {
            drop(json);
            return Err(ValueErr::TooDeep);
        }
        let converted = value_from(alloc, &json);
        drop(json);
        match converted {
            Ok(value) => value.if_small(alloc),
            Err(ConvertErr::OutOfMemory) => Err(ValueErr::OutOfMemory),
            Err(ConvertErr::NotInt) => Err(ValueErr::NotInt),
        }
    }

    // The value, where its canonical text is not too long.
    fn if_small(self, alloc: Global) -> Result<Value, ValueErr>
        ensures { ReadsValue (if_small (datum_of self)) result }
    {
        if self.text_left(4096).is_some() {
            return Ok(self);
        }
        let mut text = TextBuf::new(alloc);
        or_drop!(self.write_json(alloc, &mut text); text, self);
        let bytes = text.len() as u64;
        drop(text);
        drop(self);
        Err(ValueErr::TooLarge { bytes })
    }
}
