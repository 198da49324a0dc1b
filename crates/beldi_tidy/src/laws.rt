// The laws of sweeps over the rows of a host with the invariant.
ghost use Rattle.beldi_tidy.specs.{Sweeping.SweepsAsPromised, Sweeping.ThreeSweepsTidy, Tidy.IdleAreOld, Tidy.IdleEndOnce, Tidy.RowsAreSound};

/// The rows of a host with the invariant are sound, whatever log collectors did.
pub fn rows_are_sound()
    ensures { RowsAreSound }
{}

/// Once all intents are idle, each row that an intent left, and each entry of an item, is of one that is gone, or old.
pub fn idle_rows_are_old()
    ensures { IdleAreOld }
{}

/// One row of an item has no next then: none was made that is not linked.
pub fn idle_items_end_once()
    ensures { IdleEndOnce }
{}

/// A sweep of a host with the invariant keeps its promises: it ends with the turn after at most eleven for each row and one for each row of its item,
/// and where its collector had begun a row, what is left of that one's. Once all intents are idle, and where it began before all rows,
/// it leaves trimmed rows; and of trimmed ones, of which each that is adrift is so for more than a life, tidy ones.
pub fn sweeps_are_as_promised()
    ensures { SweepsAsPromised }
{}

/// So three sweeps of one log collector leave tidy rows, wherever it stood, where the third begins more than a life after the second:
/// of an item at most its first row and its last, and of intents at most those of the newest ticket.
pub fn three_sweeps_tidy()
    ensures { ThreeSweepsTidy }
{}
