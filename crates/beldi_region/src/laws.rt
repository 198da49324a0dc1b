// The law of acts on tables over regions.
ghost use Rattle.beldi_region.specs.RegionTable.{ActsAlike};

/// What an act tells, and the rows after it, are a function of the rows, the act, the moment and the room: two tables that have
/// these alike answer alike, wherever their rows lie.
pub fn acts_are_alike()
    ensures { ActsAlike }
{}
