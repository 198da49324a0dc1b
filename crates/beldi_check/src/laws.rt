// What follows from the definitions alone.
ghost use Rattle.beldi_check.specs.CallGraph.{ReachesByPaths};
ghost use Rattle.beldi_check.specs.Keeps.{AcceptsExactly};

/// A function reaches another one, as the rules on cycles and on transactions have it, exactly where there is a path of calls.
pub fn reaches_by_paths()
    ensures { ReachesByPaths }
{}

/// A deployment is accepted exactly where each rule holds at each function, table and statement.
pub fn accepts_exactly()
    ensures { AcceptsExactly }
{}
