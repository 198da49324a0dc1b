// A text that is kept, seen as its bytes.
ghost use Rattle.std.specs.Prelude.{◌≡◌, ℕ, List, IfOk, SomeIff, length, string_bytes};
ghost use Rattle.std.specs.Cmp.{partial_order_from_own_ties};
ghost use Rattle.std.specs.Cmp.Lexicographic.{slice_cmp};
ghost use Rattle.std.specs.Ordering.{nat_cmp, as_partial_cmp};
ghost use Rattle.std.specs.Bool.{◌==◌};
ghost use lib.Pointwise.{pointwise};
ghost use Rattle.std.proofs.Common.{rules};
ghost use Rattle.std.specs.Cmp.Rules.{comparing};

use std::alloc::{AllocError, Global};
use std::cmp::Ordering;
use std::marker::Model;
use std::rc::RcStr;

/// A text in UTF-8 that stays as it is. Its copies share its memory, so a copy takes none.
#[derive(Drop)]
pub struct Str {
    text: RcStr,
}

impl Model for Str {
    ghost use Rattle.std.specs.Prelude.{ℕ, List};
    ghost use Rattle.std.specs.Rc.{rc_str_bytes};

    ghost Value = { List ℕ };

    ghost view = { λ a. rc_str_bytes a.text };
}

impl Str {
    ghost use Rattle.std.specs.Str.{IsUtf8};

    /// This text.
    pub fn from_string(text: String) -> Result<Str, AllocError>
        ensures { IfOk result (λ s. s ≡ string_bytes text) }
    {
        Ok(Str {
            text: RcStr::from_string(text)?,
        })
    }

    /// A copy of this text.
    pub fn from_text(alloc: Global, text: &str) -> Result<Str, AllocError>
        ensures { IfOk result (λ s. s ≡ text.now) }
    {
        Ok(Str {
            text: RcStr::from_str(alloc, text)?,
        })
    }

    /// The text that these bytes are, where they are UTF-8.
    pub fn from_bytes(alloc: Global, bytes: &[u8]) -> Result<Option<Str>, AllocError>
        ensures { IfOk result (λ text. SomeIff text (IsUtf8 bytes.now) bytes.now) }
    {
        match str::from_utf8(bytes) {
            Ok(text) => Ok(Some(Str::from_text(alloc, text)?)),
            Err(_) => Ok(None),
        }
    }

    /// An equal text, in the same memory.
    pub fn copy(&self, alloc: Global) -> Result<Str, AllocError>
        ensures { IfOk result (λ s. s ≡ self.now) }
    {
        Ok(Str {
            text: self.text.clone()?,
        })
    }

    /// Its bytes.
    pub fn as_bytes(&self) -> &[u8]
        ensures { result.now ≡ self.now }
    {
        self.text.as_str().as_bytes()
    }

    /// The text as a `str`.
    pub fn as_str(&self) -> &str
        ensures { result.now ≡ self.now }
    {
        self.text.as_str()
    }

    /// How many bytes it has.
    pub fn len(&self) -> usize
        ensures { result ≡ length self.now }
    {
        self.text.len()
    }

    /// Whether it has no bytes.
    pub fn is_empty(&self) -> bool
        ensures { result ≡ (length self.now == 0) }
    {
        self.text.len() == 0
    }
}

impl PartialEq for Str {
    ghost eq = { pointwise ◌==◌ };

    ghost laws = { Prim.search (comparing, rules) };

    fn eq(&self, other: &Str) -> bool {
        self.text.as_str() == other.text.as_str()
    }
}

impl Eq for Str {
    ghost laws = { Prim.search (comparing, rules) };
}

impl Ord for Str {
    ghost cmp = { slice_cmp nat_cmp };

    ghost total = { Prim.search (comparing, rules) };

    ghost matches_partial_cmp = { Prim.search (comparing, rules) };

    ghost matches_eq = { Prim.search (comparing, rules) };

    fn cmp(&self, other: &Str) -> Ordering {
        self.text.as_str().cmp(other.text.as_str())
    }
}

impl PartialOrd for Str {
    ghost partial_cmp = { as_partial_cmp (slice_cmp nat_cmp) };

    ghost laws = { partial_order_from_own_ties (Prim.search (comparing, rules)) (Prim.search (comparing, rules)) };

    fn partial_cmp(&self, other: &Str) -> Option<Ordering> {
        Some(self.cmp(other))
    }
}
