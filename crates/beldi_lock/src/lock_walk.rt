// The walk of a lock: one act a turn.
ghost use Rattle.std.specs.Prelude.{◌≡◌};
ghost use Rattle.beldi_lock.specs.Lock.{first_lock};

use crate::lock::{LockAt, LockGoes, lock_query, lock_told};
use beldi_query::{Query, QueryReplyRef, Walk};
use beldi_row::copy_owner;
use beldi_value::{Boxed, IdBuf, Owner, Place, Str, or_drop};
use std::alloc::{AllocError, Global};
use std::mem::replace;

/// What a turn of the walk of a lock says.
#[derive(Drop)]
pub enum LockOutput {
    /// The walk goes on.
    Going,
    /// The place has got the lock; `first` says that this act took it.
    Got { first: bool },
    /// The place died of the owner with this age, in this act or before.
    Died(IdBuf),
    /// This owner, another than the one who asks, has the item, and who asks waits for it.
    Held(Owner),
    /// No row can follow the item's last one, which is full.
    Worn,
}

/// A walk that takes the lock of an item once for a place, however many walks there are for it, or dies once. For a transaction it
/// first puts the row that says that the lock is asked for. Unless it says `Going` it stands where it stood.
#[derive(Drop)]
pub struct LockWalk {
    home: u16,
    table: u16,
    key: Str,
    place: Place,
    who: Owner,
    at: LockAt,
}

impl Walk for LockWalk {
    ghost use Rattle.beldi_lock.specs.Lock.{lock_asks, lock_next, lock_output};

    type Output = LockOutput;

    ghost asks = { lock_asks };

    ghost next = { lock_next };

    ghost output = { lock_output };

    fn ask(&self, alloc: Global) -> Result<Boxed<Query>, AllocError> {
        let place = self.place.copy(alloc)?;
        let who = or_drop!(copy_owner(&self.who, alloc); place);
        lock_query(
            alloc, self.home, self.table, &self.key, place, who, &self.at,
        )
    }

    fn resume(
        &mut self,
        alloc: Global,
        heard: QueryReplyRef<'_>,
    ) -> Result<LockOutput, AllocError> {
        match lock_told(alloc, &self.at, heard)? {
            LockGoes::On(at) => {
                self.stand(at);
                Ok(LockOutput::Going)
            }
            LockGoes::Stays => Ok(LockOutput::Going),
            LockGoes::Got { first } => Ok(LockOutput::Got { first }),
            LockGoes::Died(age) => Ok(LockOutput::Died(age)),
            LockGoes::Held(owner) => Ok(LockOutput::Held(owner)),
            LockGoes::Worn => Ok(LockOutput::Worn),
        }
    }
}

impl LockWalk {
    /// A walk for the lock of an item of the function `home`, which `who` asks for at `place`.
    pub fn new(home: u16, place: Place, who: Owner, table: u16, key: Str) -> LockWalk
        ensures { result ≡ first_lock home place who table key }
    {
        let at = LockAt::first(&who);
        LockWalk {
            home,
            table,
            key,
            place,
            who,
            at,
        }
    }

    // It stands here from now on.
    fn stand(&mut self, at: LockAt)
        ensures { self.new ≡ record self.old { at = at } }
    {
        drop(replace(&mut self.at, at));
    }
}
