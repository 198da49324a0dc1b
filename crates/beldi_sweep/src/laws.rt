// The laws of sweeps.
ghost use Rattle.beldi_sweep.specs.{SweepLaws.OldIsOldLater, SweepLaws.OldStaysOld, SweepLaws.SweepsTidy, SweepLaws.SweepsTrim, Rounds.OrderedStayOrdered, Rounds.RoundsEnd, Rounds.SoundAreOrdered};

/// A sweep that begins before all rows, when all intents are old, leaves no row that an intent left and no row of an intent but that
/// of the newest ticket; and of an item its first row, its last, and rows that are adrift.
pub fn a_sweep_trims()
    ensures { SweepsTrim }
{}

/// The next one, a life later, leaves none that is adrift.
pub fn a_sweep_tidies()
    ensures { SweepsTidy }
{}

/// Whatever the rows are, a round takes one turn, and for each row at most eleven and one for each row of its item; where its collector
/// has begun a row, for that one more for each intent that is left to be looked at, two, and one for each row of its item.
pub fn a_round_ends()
    ensures { RoundsEnd }
{}

/// The rows are to be ordered for it, as sound rows are, and as they stay in each turn of a collector.
pub fn ordered_rows_stay_ordered()
    ensures { SoundAreOrdered × OrderedStayOrdered }
{}

/// What is old stays so in each turn of a collector, and later on.
pub fn what_is_old_stays_old()
    ensures { OldStaysOld × OldIsOldLater }
{}
