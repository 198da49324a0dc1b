// The laws of linked rows.
ghost use Rattle.beldi_links.specs.LinkLaws.{ContentIs, TailIs, NotedIsNoted, NoneIsNoted, RowIsSet, LastRowIsSet};
ghost use Rattle.beldi_links.specs.LinkLaws.{EntriesKeepLinks, MakingChangesNothing, MakingKeepsLinks, LinkingChangesNothing, LinkingKeepsLinks, FirstRowIsLinked};
ghost use Rattle.beldi_links.specs.LinkLaws.{LinkedIsSeen, NextIsRead, ReadsBegin, ReadersKeep, OneItemGrows, OthersGrow};
ghost use Rattle.beldi_links.specs.LinkLaws.{KeepsSteps, WalksEnd, MeetingsGoOn, LastIsLast, PassedGoesOn, WalksBegin, NextIsSeen, FullIsSeen, SpareIsMade, SpareIsSeen};
ghost use Rattle.beldi_links.specs.LinkLaws.{MeetingsStay, GrownAreFrozen, OthersKeep, OneRowGrows, MakingGrows};

/// What a chain holds is what its last row does, behind the notes of the rows before it.
pub fn content_is_by_its_last_row()
    ensures { ContentIs }
{}

/// The last row of a chain of linked rows is the one that they name.
pub fn tail_is_the_last_row()
    ensures { TailIs }
{}

/// The note that a place has in a row on the way is its note in the chain, where no row below has one.
pub fn notes_on_the_way_are_the_chains()
    ensures { NotedIsNoted }
{}

/// A place has no note in the chain where the last row has none of it, and a walk for it passed all rows below.
pub fn places_without_notes_are_in_no_row()
    ensures { NoneIsNoted }
{}

/// Where a row of an item is set, or goes, all others of the item stay as they are.
pub fn one_row_is_set()
    ensures { RowIsSet }
{}

/// Where the last row is set, and none follows it, the chain holds what that row does now, behind the notes that were before it.
pub fn last_row_is_what_the_chain_holds()
    ensures { LastRowIsSet }
{}

/// Where the last row has room, and gets an entry of a place that has no note in the chain, the rows stay linked.
pub fn entries_keep_links()
    ensures { EntriesKeepLinks }
{}

/// Whatever is made or set past the last row, the chain holds what it held.
pub fn making_changes_nothing()
    ensures { MakingChangesNothing }
{}

/// The rows stay linked where one is made that is to follow the last, which is full: empty, with its value and its owner.
pub fn making_keeps_links()
    ensures { MakingKeepsLinks }
{}

/// The chain holds what it held where that row is linked, which is the last one then.
pub fn linking_changes_nothing()
    ensures { LinkingChangesNothing }
{}

/// The rows stay linked then.
pub fn linking_keeps_links()
    ensures { LinkingKeepsLinks }
{}

/// A first row that is made where there is none is linked, and all rows grow.
pub fn first_row_is_linked()
    ensures { FirstRowIsLinked }
{}

/// A way from row to row stays where rows with a next do.
pub fn ways_stay()
    ensures { KeepsSteps }
{}

/// Where a walk stands leads to the last row.
pub fn walks_end()
    ensures { WalksEnd }
{}

/// So does the row that is next.
pub fn meetings_go_on()
    ensures { MeetingsGoOn }
{}

/// A row where a walk stands, and which has no next, is the last one.
pub fn last_is_last()
    ensures { LastIsLast }
{}

/// A walk that goes on to the next of a row, which has no note of its place, has passed all rows below that: none stands between the two.
pub fn passed_goes_on()
    ensures { PassedGoesOn }
{}

/// At the first row a walk sees what it has to see, also where there is none.
pub fn walks_begin()
    ensures { WalksBegin }
{}

/// So does one that goes on to the next of a row, which has no note of its place; and the row of that number is there.
pub fn next_is_seen()
    ensures { NextIsSeen }
{}

/// One that was told that a row is full, with its value and its owner, sees what it has to see to make the row after that.
pub fn full_row_is_seen()
    ensures { FullIsSeen }
{}

/// Where a walk was told that a row is full, and there is none of the next number, that row is the last; and one that the walk makes then, with
/// the value and the owner that it was told, is to follow it.
pub fn spare_is_made()
    ensures { SpareIsMade }
{}

/// Where there is one of the next number, the walk sees what it has to see to link it.
pub fn spare_is_seen()
    ensures { SpareIsSeen }
{}

/// Where the row before that one has a next, the walk sees what it has to see at that next.
pub fn linked_row_is_seen()
    ensures { LinkedIsSeen }
{}

/// A walk that only reads sees at the first row what it has to see, also where there is none.
pub fn reads_begin()
    ensures { ReadsBegin }
{}

/// So it does at the next of a row.
pub fn next_is_read()
    ensures { NextIsRead }
{}

/// A walk stands where it stood, whatever is done to rows that have no next.
pub fn meetings_stay()
    ensures { MeetingsStay }
{}

/// Where rows grow, those with a next stay as they are.
pub fn grown_rows_with_a_next_stay()
    ensures { GrownAreFrozen }
{}

/// What a walk sees, at each of its stages, it sees after whatever lets the rows grow.
pub fn others_keep_what_is_seen()
    ensures { OthersKeep }
{}

/// And so does what a walk sees that only reads.
pub fn readers_keep_what_is_seen()
    ensures { ReadersKeep }
{}

/// Rows grow where one of them does and the others stay.
pub fn one_row_grows()
    ensures { OneRowGrows }
{}

/// They do where one is made that is to follow the last row: none was past that.
pub fn making_grows()
    ensures { MakingGrows }
{}

/// The rows of all items grow where those of one do, and all other rows stay.
pub fn items_grow_where_one_does()
    ensures { OneItemGrows }
{}

/// They grow where a row changed that is of no item.
pub fn items_grow_beside_other_rows()
    ensures { OthersGrow }
{}
