// The laws of the walks.
ghost use Rattle.beldi_daal.specs.Logged.{WritesAreLogged, ReadsAreContents};

/// A turn of the walk of an operation leaves every item as it is, but for that operation. `Done` says that the place has its
/// note, and `first` that this turn made it: so a place has one effect, however many walks there are for it. `Held` and
/// `NotOwner` say what bars the operation.
pub fn a_chain_is_a_logged_cell()
    ensures { WritesAreLogged }
{}

/// What the walk of a read says is what its item holds: its value, or the owner that is in the way.
pub fn a_read_gives_the_content()
    ensures { ReadsAreContents }
{}
