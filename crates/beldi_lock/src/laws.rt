// The laws of the walk.
ghost use Rattle.beldi_lock.specs.Locked.{LocksAreByTheRow, LocksStand};
ghost use Rattle.beldi_lock.specs.Lockset.{LocksetsBegin, LocksetsFollow};

/// What a walk says of the lock is what the rows of its item hold, and it leaves all other rows as they are. For a transaction it
/// first puts the row that says that the lock is asked for.
pub fn a_lock_is_by_the_row()
    ensures { LocksAreByTheRow }
{}

/// The first lock or death of a place stands: every later walk for it is told the same, since no act takes away the note of a place
/// (`notes_of_a_chain_stay` of `beldi_chain`).
pub fn what_came_stands()
    ensures { LocksStand }
{}

/// Without an item `lockset_next` finds the first row from the least key of the transaction on: it gives its item, and none exactly
/// where that row is absent or no row of this intent and begin. It changes nothing, and is never refused as `Full`.
pub fn the_first_lockset_is_found()
    ensures { LocksetsBegin }
{}

/// After an item `lockset_next` finds the row after that of the item.
pub fn the_next_lockset_is_found()
    ensures { LocksetsFollow }
{}
