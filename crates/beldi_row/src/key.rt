// The keys of rows, and their order.
ghost use Rattle.std.specs.Prelude.{◌≡◌, IfOk, refl};
ghost use Rattle.std.specs.Cmp.{partial_equiv_from_equiv, eq_by_cmp_equiv, partial_order_from_agreeing_total};
ghost use Rattle.std.specs.Ordering.{as_partial_cmp, eq_by_cmp};
ghost use Rattle.beldi_row.specs.Key.{kind_cmp, key_cmp, rank_of, ticket_of, key_ticket, least_key, kind_at, at_row};
ghost use Rattle.beldi_row.specs.KeyOrder.{kind_total, key_total};

use beldi_value::{IntentId, Owner, Place, Str, TxId};
use std::alloc::{AllocError, Global};
use std::cmp::Ordering;
use std::marker::Model;

/// What a row is about.
#[derive(Drop)]
pub enum Kind {
    /// The row of an intent: when it was issued, what it is to do, how it ended.
    Intent(IntentId),
    /// The value that a read at this place was given.
    ReadLog(Place),
    /// The call that was made at this place.
    Invoke(Place),
    /// A row of an item. The number of its first row is 0.
    Data {
        table: u16,
        key: Str,
        row: u32,
    },
    /// A row of a transaction's own copy of an item.
    Shadow {
        tx: TxId,
        table: u16,
        key: Str,
        row: u32,
    },
    /// An item that a transaction, begun by the intent at this step, asked the lock of.
    Lockset {
        intent: IntentId,
        begin: u32,
        table: u16,
        key: Str,
    },
}

impl Kind {
    // Its number in the order of kinds.
    fn rank(&self) -> u8
        ensures { result ≡ rank_of self.now }
    {
        match self {
            Kind::Intent(_) => 0,
            Kind::ReadLog(_) => 1,
            Kind::Invoke(_) => 2,
            Kind::Data { .. } => 3,
            Kind::Shadow { .. } => 4,
            Kind::Lockset { .. } => 5,
        }
    }

    /// An equal kind.
    pub fn copy(&self, alloc: Global) -> Result<Kind, AllocError>
        ensures { IfOk result (λ k. k ≡ self.now) }
    {
        match self {
            Kind::Intent(id) => Ok(Kind::Intent(id.copy(alloc)?)),
            Kind::ReadLog(place) => Ok(Kind::ReadLog(place.copy(alloc)?)),
            Kind::Invoke(place) => Ok(Kind::Invoke(place.copy(alloc)?)),
            Kind::Data { table, key, row } => Ok(Kind::Data {
                table: *table,
                key: key.copy(alloc)?,
                row: *row,
            }),
            Kind::Shadow {
                tx,
                table,
                key,
                row,
            } => Ok(Kind::Shadow {
                tx: copy_tx(tx, alloc)?,
                table: *table,
                key: key.copy(alloc)?,
                row: *row,
            }),
            Kind::Lockset {
                intent,
                begin,
                table,
                key,
            } => Ok(Kind::Lockset {
                intent: intent.copy(alloc)?,
                begin: *begin,
                table: *table,
                key: key.copy(alloc)?,
            }),
        }
    }

    // The ticket of the intent that it names, or 0 where it names none.
    fn ticket(&self) -> u32
        ensures { result ≡ ticket_of self.now }
    {
        match self {
            Kind::Intent(id) => id.ticket,
            Kind::ReadLog(place) | Kind::Invoke(place) => place.intent.ticket,
            Kind::Data { .. } => 0,
            Kind::Shadow { tx, .. } => tx.intent.ticket,
            Kind::Lockset { intent, .. } => intent.ticket,
        }
    }
}

// Sets the number of the row, where it has one.
fn set_row(kind: &mut Kind, number: u32)
    ensures { kind.new ≡ kind_at kind.old number }
{
    match kind {
        Kind::Data { row, .. } => *row = number,
        Kind::Shadow { row, .. } => *row = number,
        _ => {}
    }
}

/// An equal transaction.
#[inline(always)]
pub fn copy_tx(tx: &TxId, alloc: Global) -> Result<TxId, AllocError>
    ensures { IfOk result (λ t. t ≡ tx.now) }
{
    Ok(TxId {
        intent: tx.intent.copy(alloc)?,
        begin: tx.begin,
        func: tx.func,
    })
}

/// An equal owner.
pub fn copy_owner(owner: &Owner, alloc: Global) -> Result<Owner, AllocError>
    ensures { IfOk result (λ o. o ≡ owner.now) }
{
    match owner {
        Owner::Intent(id) => Ok(Owner::Intent(id.copy(alloc)?)),
        Owner::Tx(tx) => Ok(Owner::Tx(copy_tx(tx, alloc)?)),
    }
}

impl PartialEq for Kind {
    ghost eq = { eq_by_cmp kind_cmp };

    ghost laws = { partial_equiv_from_equiv (eq_by_cmp_equiv kind_total) };

    fn eq(&self, other: &Kind) -> bool {
        self.cmp(other).is_eq()
    }
}

impl Eq for Kind {
    ghost laws = { eq_by_cmp_equiv kind_total };
}

impl Ord for Kind {
    ghost cmp = { kind_cmp };

    ghost total = { kind_total };

    ghost matches_partial_cmp = { λ x y. refl };

    ghost matches_eq = { λ x y. refl };

    fn cmp(&self, other: &Kind) -> Ordering {
        match (self, other) {
            (Kind::Intent(a), Kind::Intent(b)) => a.cmp(b),
            (Kind::ReadLog(a), Kind::ReadLog(b)) | (Kind::Invoke(a), Kind::Invoke(b)) => {
                a.intent.cmp(&b.intent).then_with(|| a.step.cmp(&b.step))
            }
            (
                Kind::Data { table, key, row },
                Kind::Data {
                    table: that_table,
                    key: that_key,
                    row: that_row,
                },
            ) => table
                .cmp(that_table)
                .then_with(|| key.cmp(that_key).then_with(|| row.cmp(that_row))),
            (
                Kind::Shadow {
                    tx,
                    table,
                    key,
                    row,
                },
                Kind::Shadow {
                    tx: that_tx,
                    table: that_table,
                    key: that_key,
                    row: that_row,
                },
            ) => tx.intent.cmp(&that_tx.intent).then_with(|| tx.begin.cmp(&that_tx.begin).then_with(
                || tx.func.cmp(&that_tx.func).then_with(|| table
                    .cmp(that_table)
                    .then_with(|| key.cmp(that_key).then_with(|| row.cmp(that_row)))),
            )),
            (
                Kind::Lockset {
                    intent,
                    begin,
                    table,
                    key,
                },
                Kind::Lockset {
                    intent: that_intent,
                    begin: that_begin,
                    table: that_table,
                    key: that_key,
                },
            ) => intent.cmp(that_intent).then_with(|| begin
                .cmp(that_begin)
                .then_with(|| table.cmp(that_table).then_with(|| key.cmp(that_key)))),
            _ => self.rank().cmp(&other.rank()),
        }
    }
}

impl PartialOrd for Kind {
    ghost partial_cmp = { as_partial_cmp kind_cmp };

    ghost laws = { partial_order_from_agreeing_total kind_cmp kind_total (λ x y. refl) (λ x y. refl) };

    fn partial_cmp(&self, other: &Kind) -> Option<Ordering> {
        Some(self.cmp(other))
    }
}

// A number that depends on all bits of both.
fn mixed(sum: u64, part: u64) -> u64 {
    (sum ^ part)
        .wrapping_mul(0x9e37_79b9_7f4a_7c15)
        .rotate_left(29)
}

fn mixed_hops(sum: u64, id: &IntentId) -> u64 {
    let mut sum = sum;
    for step in id.hops.as_slice() {
        sum = mixed(sum, u64::from(*step));
    }
    sum
}

fn mixed_item(sum: u64, table: u16, key: &Str, row: u32) -> u64 {
    let mut sum = mixed(sum, u64::from(table) * (1 << 32) + u64::from(row));
    for byte in key.as_str().as_bytes() {
        sum = mixed(sum, u64::from(*byte));
    }
    sum
}

/// The key of a row: the home that it stands in, and what it is about. Home 0 is the host's own, and the function with
/// the number n has the home n. Keys are ordered by home, then by kind in the order of `Kind`, then by the fields. What
/// most keys differ in is one number, so that two are compared at once.
#[derive(Drop)]
pub struct RowKey {
    // the home, the number of the kind and the ticket, one after another
    front: u64,
    home: u16,
    kind: Kind,
}

impl Model for RowKey {
    ghost use Rattle.std.specs.Prelude.{◌≡◌};
    ghost use Rattle.std.specs.Coded.{codes};
    ghost use Rattle.std.specs.Prelude.{◌<◌, ◌^◌};
    ghost use Rattle.beldi_row.specs.Key.{RowKey, front_of, ticket_of};
    ghost use Rattle.beldi_row.specs.contracts.key.Kind as about;

    ghost Value = { RowKey };

    ghost coded = { Prim.hlevel (codes, about.the_row.coded) };

    ghost view = { λ a. record { home = a.home; kind = a.kind } };

    ghost invariant = { λ a. (a.front ≡ front_of a.home a.kind) × (ticket_of a.kind < 2 ^ 32) };
}

impl RowKey {
    /// The key of a row in this home, of this kind.
    pub fn new(home: u16, kind: Kind) -> RowKey
        ensures { result ≡ record { home = home; kind = kind } }
    {
        let front = (u64::from(home) * 256 + u64::from(kind.rank())) * (1 << 32);
        RowKey {
            front: front + u64::from(kind.ticket()),
            home,
            kind,
        }
    }

    /// The least of all keys: the intent of ticket 0 in home 0. No row has it.
    pub fn least() -> RowKey
        ensures { result ≡ least_key }
    {
        RowKey::new(0, Kind::Intent(IntentId::root(0)))
    }

    /// The home that the row stands in.
    pub fn home(&self) -> u16
        ensures { result ≡ self.now.home }
    {
        self.home
    }

    /// What the row is about.
    pub fn kind(&self) -> &Kind
        ensures { result.now ≡ self.now.kind }
    {
        &self.kind
    }

    /// An equal key.
    pub fn copy(&self, alloc: Global) -> Result<RowKey, AllocError>
        ensures { IfOk result (λ k. k ≡ self.now) }
    {
        Ok(RowKey {
            front: self.front,
            home: self.home,
            kind: self.kind.copy(alloc)?,
        })
    }

    /// The key of the row of the same item with this number. The key of any other row stays as it is.
    pub fn at_row(self, row: u32) -> RowKey
        ensures { result ≡ at_row self row }
    {
        let mut key = self;
        set_row(&mut key.kind, row);
        key
    }

    /// A number that equal keys have alike and others seldom, so that a table may look there first. Nothing is proved of it.
    pub fn spread(&self) -> u64 {
        let front = mixed(0, self.front);
        match &self.kind {
            Kind::Intent(id) => mixed_hops(front, id),
            Kind::ReadLog(place) | Kind::Invoke(place) => {
                mixed(mixed_hops(front, &place.intent), u64::from(place.step))
            }
            Kind::Data { table, key, row } => mixed_item(front, *table, key, *row),
            Kind::Shadow {
                tx,
                table,
                key,
                row,
            } => mixed_item(mixed_hops(front, &tx.intent), *table, key, *row),
            Kind::Lockset {
                intent,
                begin,
                table,
                key,
            } => mixed_item(mixed_hops(front, intent), *table, key, *begin),
        }
    }

    /// The ticket of the intent that the key names; 0 of an item's row, which names none.
    pub fn ticket(&self) -> u32
        ensures { result ≡ key_ticket self.now }
    {
        self.kind.ticket()
    }
}

impl PartialEq for RowKey {
    ghost eq = { eq_by_cmp key_cmp };

    ghost laws = { partial_equiv_from_equiv (eq_by_cmp_equiv key_total) };

    fn eq(&self, other: &RowKey) -> bool {
        self.cmp(other).is_eq()
    }
}

impl Eq for RowKey {
    ghost laws = { eq_by_cmp_equiv key_total };
}

impl Ord for RowKey {
    ghost cmp = { key_cmp };

    ghost total = { key_total };

    ghost matches_partial_cmp = { λ x y. refl };

    ghost matches_eq = { λ x y. refl };

    #[inline(always)]
    fn cmp(&self, other: &RowKey) -> Ordering {
        match self.front.cmp(&other.front) {
            Ordering::Equal => self.kind.cmp(&other.kind),
            unlike => unlike,
        }
    }
}

impl PartialOrd for RowKey {
    ghost partial_cmp = { as_partial_cmp key_cmp };

    ghost laws = { partial_order_from_agreeing_total key_cmp key_total (λ x y. refl) (λ x y. refl) };

    fn partial_cmp(&self, other: &RowKey) -> Option<Ordering> {
        Some(self.cmp(other))
    }
}
