// All of it together.
ghost use Rattle.beldi_upkeep.specs.Upkeep.{BeginsUpkept, KeepsUpkeep};

/// A host that nothing has happened to keeps all of it, over a table without rows.
pub fn begins_upkept()
    ensures { BeginsUpkept }
{}

/// Every event keeps it, whatever it came to, also out of memory.
pub fn an_event_keeps_upkeep()
    ensures { KeepsUpkeep }
{}
