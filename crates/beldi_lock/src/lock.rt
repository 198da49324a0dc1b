// What a lock asks of the rows of its item, and what follows from what is told.
ghost use Rattle.std.specs.Prelude.{◌≡◌, true, IfOk, OnErr};
ghost use Rattle.beldi_query.specs.Query.{query_reply_of, lends};
ghost use Rattle.beldi_lock.specs.Lock.{lock_first, lockset_key as lockset_key_of, asks_at, put_goes, note_goes, item_goes, lock_goes};

use beldi_daal::{CellOp, WriteAt, WriteGoes, cell_key, write_query, write_told};
use beldi_query::{Query, QueryReplyRef};
use beldi_row::{Act, ActReplyRef, Kind, Note, RowKey};
use beldi_value::{Boxed, IdBuf, IntentId, Owner, Place, Str, or_drop};
use std::alloc::{AllocError, Global};

/// Where a lock stands.
#[derive(Drop)]
pub enum LockAt {
    /// The row that says that the transaction, begun at this step, asks for the lock, is put next.
    Lockset(u32),
    /// The item is tried next.
    Item(WriteAt),
}

/// Where a lock goes.
#[derive(Drop)]
pub enum LockGoes {
    /// It goes on from here.
    On(LockAt),
    /// It stays where it stands.
    Stays,
    /// The place has got the lock; `first` says that this act took it.
    Got { first: bool },
    /// The place died of the owner with this age, in this act or before.
    Died(IdBuf),
    /// This owner, another than the one who asks, has the item, and who asks waits for it.
    Held(Owner),
    /// No row can follow the item's last one, which is full.
    Worn,
}

impl LockAt {
    /// Where a lock begins: for a transaction, with the row that says that it is asked for.
    pub fn first(who: &Owner) -> LockAt
        ensures { result ≡ lock_first who.now }
    {
        match who {
            Owner::Intent(_) => LockAt::Item(WriteAt::Try(0)),
            Owner::Tx(tx) => LockAt::Lockset(tx.begin),
        }
    }
}

/// The key of the row that says that an intent asked for the lock of an item of the function `home`, in the transaction begun at
/// the step `begin`.
pub fn lockset_key(home: u16, intent: IntentId, begin: u32, table: u16, key: Str) -> RowKey
    ensures { result ≡ lockset_key_of home intent begin table key }
{
    RowKey::new(
        home,
        Kind::Lockset {
            intent,
            begin,
            table,
            key,
        },
    )
}

/// What a lock asks for, of an item of the function `home`.
pub fn lock_query(
    alloc: Global,
    home: u16,
    table: u16,
    key: &Str,
    place: Place,
    who: Owner,
    at: &LockAt,
) -> Result<Boxed<Query>, AllocError>
    ensures { IfOk result (λ q. q ≡ asks_at home table key.now place who at.now) }
{
    match at {
        LockAt::Lockset(begin) => {
            drop(who);
            let key = or_drop!(key.copy(alloc); place);
            let row = lockset_key(home, place.intent, *begin, table, key);
            Query::act(alloc, row, Act::PutLockset)
        }
        LockAt::Item(at) => {
            let row = or_drop!(cell_key(alloc, home, table, key, 0); place, who);
            write_query(alloc, row, place, who, CellOp::Lock, at)
        }
    }
}

/// Where a lock goes after it was told. Out of memory only for what was lent.
pub fn lock_told(
    alloc: Global,
    at: &LockAt,
    heard: QueryReplyRef<'_>,
) -> Result<LockGoes, AllocError>
    ensures ok { IfOk result (λ g. g ≡ lock_goes at.now (query_reply_of heard.entry)) }
    ensures err { OnErr result (lends (query_reply_of heard.entry) ≡ true) }
{
    match at {
        LockAt::Lockset(_) => Ok(put_told(heard)),
        LockAt::Item(at) => Ok(item_told(write_told(alloc, Note::Got, at, heard)?)),
    }
}

// The item comes next once the row is there.
fn put_told(heard: QueryReplyRef<'_>) -> LockGoes
    ensures { result ≡ put_goes (query_reply_of heard.entry) }
{
    match heard {
        QueryReplyRef::Act(ActReplyRef::Added) | QueryReplyRef::Act(ActReplyRef::Present) => {
            LockGoes::On(LockAt::Item(WriteAt::Try(0)))
        }
        _ => LockGoes::Stays,
    }
}

// Where a lock goes from the item.
fn item_told(goes: WriteGoes) -> LockGoes
    ensures { result ≡ item_goes goes }
{
    match goes {
        WriteGoes::On(at) => LockGoes::On(LockAt::Item(at)),
        WriteGoes::Done { note, first } => note_told(note, first),
        WriteGoes::Stays | WriteGoes::NotOwner => LockGoes::Stays,
        WriteGoes::Held(owner) => LockGoes::Held(owner),
        WriteGoes::Worn => LockGoes::Worn,
    }
}

// What the note of the place says. The lock stays at a note of another kind, which no session leaves to a lock.
fn note_told(note: Note, first: bool) -> LockGoes
    ensures { result ≡ note_goes note first }
{
    match note {
        Note::Got => LockGoes::Got { first },
        Note::Died(age) => LockGoes::Died(age),
        Note::Wrote | Note::Cond(_) | Note::Freed => LockGoes::Stays,
    }
}
