// The name of a table or a function in a statement.
ghost use Rattle.std.specs.Prelude.{◌≡◌};

use beldi_value::Str;
use std::marker::Model;

/// The table or the function that a statement names: its text, and where it was found. Contracts see the text alone.
#[derive(Drop)]
pub struct Name {
    text: Str,
    /// 0 until it was found.
    pub(crate) place: usize,
}

impl Model for Name {
    ghost use Rattle.std.specs.Prelude.{ℕ, List};

    ghost Value = { List ℕ };

    ghost view = { λ a. a.text };
}

impl Name {
    /// This name, which was not found yet.
    pub fn new(text: Str) -> Name
        ensures { result ≡ text }
    {
        Name { text, place: 0 }
    }

    pub fn text(&self) -> &Str
        ensures { result.now ≡ self.now }
    {
        &self.text
    }
}
