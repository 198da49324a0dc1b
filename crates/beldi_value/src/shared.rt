// Values in memory that copies share.
ghost use Rattle.std.specs.Prelude.{◌≡◌, IfOk};

use std::alloc::{AllocError, Global};
use std::marker::Model;
use std::rc::Rc;

/// A value that lies apart, in memory that its copies share. It is for what is large, rare, and never changed.
#[derive(Drop)]
pub struct Shared<T> {
    value: Rc<T>,
}

impl<T> Model for Shared<T> {
    ghost use Rattle.std.specs.Prelude.{◌≡◌};

    ghost Value = { T };

    ghost coded = { T.code };

    ghost view = { λ a. a.value.value };
}

impl<T: Drop> Shared<T> {
    /// Sets a value apart.
    pub fn new(alloc: Global, value: T) -> Result<Shared<T>, AllocError>
        ensures { IfOk result (λ a. a ≡ value) }
    {
        Ok(Shared {
            value: Rc::new(alloc, value)?,
        })
    }

    /// The value.
    pub fn get(&self) -> &T
        ensures { result.now ≡ self.entry.now }
    {
        self.value.as_ref()
    }

    /// An equal value. It takes no memory, and is refused where as many copies are there as can be counted.
    pub fn copy(&self) -> Result<Shared<T>, AllocError>
        ensures { IfOk result (λ a. a ≡ self.now) }
    {
        Ok(Shared {
            value: self.value.clone()?,
        })
    }
}
