// The laws of the log collector.
ghost use Rattle.beldi_prune.specs.PruneLaws.{CollectorsKeepTheInvariant, OnlyRecyclableRowsAreToGo, TurnsSayWhatTheyDid, NewestStays, RowsArePassedInOrder, TablesAreTurned};
ghost use Rattle.beldi_prune.specs.Marks.{OnlyProvedRowsAreToBeMarked, OnlyMarkedRowsAreLedPast, OnlyPassedRowsAreToDangle};

/// A row that a collector has begun lies past its cursor. It is the row of an intent, but of no root of the newest ticket, or a row
/// that an intent left beside its own, or a row of an item that is not its first; of the same item it looks only at rows below that.
/// So it is at first, as the newest ticket rises, and after each turn.
pub fn a_collector_keeps_its_invariant()
    ensures { CollectorsKeepTheInvariant }
{}

/// A row that an intent left is to go only where the turn before looked at the intent's row, and found none, or a finish more
/// than a life ago by the moment of that look.
pub fn only_recyclable_rows_are_to_go()
    ensures { OnlyRecyclableRowsAreToGo }
{}

/// A row of an item is to be marked only where it was found to be a cell that has a next and is not marked, and then each turn
/// looked at the intent of one of its entries, one after another, and found none, or a finish more than a life ago by the moment
/// of that look. No entry is of an intent that is not looked at so.
pub fn only_proved_rows_are_to_be_marked()
    ensures { OnlyProvedRowsAreToBeMarked }
{}

/// A row is to be led past only where it was found to be marked, or was marked, and the row that came after it then is the one to lead
/// to. From the first row of the item on each turn looks at a row and then at the one that this leads to, as long as that is below;
/// a row of them is to lead past only where it was seen to lead to the marked one.
pub fn only_marked_rows_are_led_past()
    ensures { OnlyMarkedRowsAreLedPast }
{}

/// A row of an item is to be left adrift only where the turn before saw a row below that is the last or leads past it, or led
/// that row past it.
pub fn only_passed_rows_are_to_dangle()
    ensures { OnlyPassedRowsAreToDangle }
{}

/// `Removed` says that the row which was to go was there, and went, and of an intent's row that it was old, and of an item's that it
/// was adrift for more than a life. `Marked`, `Skipped` and `Dangled` say which cell of an item was set to what. Otherwise all rows
/// stay. `Round` says that no row follows the cursor.
pub fn a_turn_outputs_what_it_did()
    ensures { TurnsSayWhatTheyDid }
{}

/// The row of the newest ticket stays.
pub fn the_newest_ticket_stays()
    ensures { NewestStays }
{}

/// Each row that a turn is at lies past the cursor, and the cursor is set to it once the collector is done with it: so a round
/// passes a key once. Where no row is left, the collector stands before all rows.
pub fn rows_are_passed_in_order()
    ensures { RowsArePassedInOrder }
{}

/// Over every table that tells its rows a turn goes as these laws say. After an error the rows are as before and a row that was
/// begun is begun anew; `Full` never comes.
pub fn a_turn_goes_so_over_tables()
    ensures { TablesAreTurned }
{}
