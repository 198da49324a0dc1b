// The laws of the walks.
ghost use Rattle.beldi_shadow.specs.Shadowed.{ShadowsAreLogged, ShadowsReadTheirOwn};

/// A turn of a write leaves every row but the shadow's as it is, and of the shadow all but the operation. `Noted` tells the note
/// that the place has: so a place has one effect, however many walks there are for it.
pub fn a_shadow_is_a_logged_cell()
    ensures { ShadowsAreLogged }
{}

/// What a read says is what the shadow holds, and nothing where the transaction has no shadow of the item.
pub fn a_shadow_reads_its_own()
    ensures { ShadowsReadTheirOwn }
{}
