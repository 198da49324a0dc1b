// A text that is written, seen as its bytes.
ghost use Rattle.std.specs.Prelude.{◌≡◌, [], ◌++◌, OnOk, OnErr, IfOk, length, string_bytes};
ghost use Rattle.std.specs.Bool.{◌==◌};
ghost use Rattle.std.specs.Fmt.{decimal};

use crate::text::Str;
use itoa::Buffer;
use std::alloc::{AllocError, Global};
use std::marker::Model;

/// A text in UTF-8 that is written piece by piece.
#[derive(Drop)]
pub struct TextBuf {
    text: String,
}

impl Model for TextBuf {
    ghost use Rattle.std.specs.Prelude.{ℕ, List, string_bytes};

    ghost Value = { List ℕ };

    ghost view = { λ a. string_bytes a.text };
}

impl TextBuf {
    /// The empty text.
    pub fn new(alloc: Global) -> TextBuf
        ensures { result ≡ [] }
    {
        TextBuf {
            text: String::new(alloc),
        }
    }

    /// This text.
    pub fn from_string(text: String) -> TextBuf
        ensures { result ≡ string_bytes text }
    {
        TextBuf { text }
    }

    /// A copy of this text.
    pub fn from_text(alloc: Global, text: &str) -> Result<TextBuf, AllocError>
        ensures { IfOk result (λ s. s ≡ text.now) }
    {
        Ok(TextBuf {
            text: String::from_str(alloc, text)?,
        })
    }

    /// The text again.
    pub fn into_string(self) -> String
        ensures { string_bytes result ≡ self }
    {
        self.text
    }

    /// The text, which stays as it is from now on.
    pub fn into_str(self) -> Result<Str, AllocError>
        ensures { IfOk result (λ s. s ≡ self) }
    {
        Str::from_string(self.text)
    }

    /// Appends a text.
    pub fn push_text(&mut self, text: &str) -> Result<(), AllocError>
        ensures ok { OnOk result (self.new ≡ self.old ++ text.now) }
        ensures err { OnErr result (self.new ≡ self.old) }
    {
        self.text.push_str(text)
    }

    /// Appends a number in decimal digits.
    pub fn push_number(&mut self, number: u64) -> Result<(), AllocError>
        ensures ok { OnOk result (self.new ≡ self.old ++ decimal number) }
        ensures err { OnErr result (self.new ≡ self.old) }
    {
        let mut buffer = Buffer::new();
        self.text.push_str(buffer.format(number))
    }

    /// Makes it empty, and keeps its memory.
    pub fn clear(&mut self)
        ensures { self.new ≡ [] }
    {
        self.text.clear();
    }

    /// Its bytes.
    pub fn as_bytes(&self) -> &[u8]
        ensures { result.now ≡ self.now }
    {
        self.text.as_bytes()
    }

    /// The text as a `str`.
    pub fn as_str(&self) -> &str
        ensures { result.now ≡ self.now }
    {
        self.text.as_str()
    }

    /// How many bytes it has.
    pub fn len(&self) -> usize
        ensures { result ≡ length self.now }
    {
        self.text.len()
    }

    /// Whether it has no bytes.
    pub fn is_empty(&self) -> bool
        ensures { result ≡ (length self.now == 0) }
    {
        self.text.is_empty()
    }
}
