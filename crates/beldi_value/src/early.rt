// Early returns whose drops are written.

/// What a call gave, as `?` gives it. Where it gave an error, the values that are named after the `;` are dropped, and the error
/// is returned. A drop that the compiler puts at an early return makes the proof of borrows many times larger than one that
/// is written.
#[macro_export]
macro_rules! or_drop {
    ($called:expr; $($owned:ident),+) => {
        match $called {
            Ok(value) => value,
            Err(error) => {
                $(drop($owned);)+
                return Err(error.into());
            }
        }
    };
}
