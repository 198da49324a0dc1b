// What a host with the invariant has.
ghost use Rattle.beldi_host.specs.HostInvariant.{FreshHaveOneAnswer, HasLegalBook, HasOneAnswerPerStep, HasInvariant, IsWhole, RowsLeftStand, RowsStand};

use crate::host::Host;
use beldi_row::Table;

/// Where the invariant holds of a host and its rows, its book is legal.
pub fn the_invariant_implies_legal<T: Table>(host: &Host<T>)
    ensures { HasInvariant host.now → HasLegalBook host.now }
{}

/// Where no log collector changed a row, and the invariant holds of a host and its rows, the rows stand for the run of its book.
pub fn whole_stands<T: Table>(host: &Host<T>)
    ensures { IsWhole host.now → RowsStand host.now }
{}

/// Where the invariant holds of a host and its rows, the rows that are left stand for the run of its book, but that of a transaction whose decision is
/// absent, and of its shadows, they tell only where its owner's row is there, and was not old.
pub fn the_invariant_implies_stands_less<T: Table>(host: &Host<T>)
    ensures { HasInvariant host.now → RowsLeftStand host.now }
{}

/// Where no log collector changed a row, and the invariant holds of a host and its rows, each step of an instance, also inside a transaction that is not decided
/// yet, has one answer, whichever run asks for it: the one that the rows hold.
pub fn whole_has_one_answer<T: Table>(host: &Host<T>)
    ensures { IsWhole host.now → HasOneAnswerPerStep host.now }
{}

/// Where the invariant holds of a host and its rows, each step of an instance whose row is there and was not old, and the row of its
/// transaction's owner with it, has one answer.
pub fn the_invariant_implies_one_answer_less<T: Table>(host: &Host<T>)
    ensures { HasInvariant host.now → FreshHaveOneAnswer host.now }
{}
