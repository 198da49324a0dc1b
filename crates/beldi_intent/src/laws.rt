// The laws of intents.
ghost use Rattle.beldi_intent.specs.Intent.{BodiesAreSetOnce, CalleesArePutOnce, FinishesAreSetOnce, IntentsAreTold, IntentsStay, OutcomesAreSetOnce, RootsArePutOnce};

/// `issue` adds the row of a root, without a body, exactly where no row was.
pub fn a_root_is_put_once()
    ensures { RootsArePutOnce }
{}

/// `register` adds the row of a callee, with its body, exactly where no row was, and tells the one that was there.
pub fn a_callee_is_put_once()
    ensures { CalleesArePutOnce }
{}

/// `look` tells an intent, none exactly where there is no row, and all rows stay.
pub fn an_intent_is_told()
    ensures { IntentsAreTold }
{}

/// `bind` sets the body of an intent that has none. Where it answers otherwise, all rows stay.
pub fn a_body_is_set_once()
    ensures { BodiesAreSetOnce }
{}

/// `end` sets the outcome of an intent that has none. Where it answers `Already`, the intent had one, and where it answers
/// `Gone`, there is none; then all rows stay.
pub fn an_outcome_is_set_once()
    ensures { OutcomesAreSetOnce }
{}

/// `stamp` sets the finish of an intent that has none. Where it answers `Already`, the intent had one, and where it answers
/// `Gone`, there is none; then all rows stay.
pub fn a_finish_is_set_once()
    ensures { FinishesAreSetOnce }
{}

/// Whatever is asked of a table, but that a row is removed, an intent that was put stays, with its body, its outcome and its finish.
pub fn an_intent_stays()
    ensures { IntentsStay }
{}
