// Values that lie apart.
ghost use Rattle.std.specs.Prelude.{◌≡◌, IfOk};
ghost use Rattle.std.specs.Borrow.{Lends, sem};
ghost use Rattle.beldi_value.specs.contracts.boxed.Boxed.{the_row};

use std::alloc::{AllocError, Global};
use std::marker::Model;

/// A value that lies apart: whoever hands on what has it moves a pointer. It is for what is large and rare in what is handed
/// on often.
#[derive(Drop)]
pub struct Boxed<T> {
    value: Box<T>,
}

impl<T> Model for Boxed<T> {
    ghost use Rattle.std.specs.Prelude.{◌≡◌};

    ghost Value = { T };

    ghost coded = { T.code };

    ghost view = { λ a. a.value.value };
}

impl<T: Drop> Boxed<T> {
    /// Sets a value apart.
    #[inline(always)]
    pub fn new(alloc: Global, value: T) -> Result<Boxed<T>, AllocError>
        ensures { IfOk result (λ a. a ≡ value) }
    {
        Ok(Boxed {
            value: Box::new(alloc, value)?,
        })
    }

    /// The value.
    pub fn get(&self) -> &T
        ensures { result.now ≡ self.entry.now }
    {
        &self.value
    }

    /// The value, to change it where it lies.
    pub fn get_mut(&mut self) -> &mut T
        ensures* writes_back { sem 𝓛 (Lends (the_row T.row) T.row self.entry result (λ w. w)) }
        ensures value { result.now ≡ self.old }
    {
        self.value.as_mut()
    }

    /// The value, which lies apart no more.
    #[inline(always)]
    pub fn into_inner(self) -> T
        ensures { result ≡ self }
    {
        Box::into_inner(self.value)
    }
}
