//! The walks over a transaction's own copies of items, its shadows, for calls. It stands on `beldi_daal`, whose parts runs use over
//! the key of a shadow (`shadow_key`).
//! Its definitions: `specs/Shadow` (what the walks ask, and what follows from what they are told) and `specs/Shadowed` (that what
//! they say is so of the shadow).
//!
//! Proved:
//! - The walks ask, go and say as the definitions do, whatever they are told (`Walk` of `beldi_query`); unless a walk goes on, it
//!   stands where it stood.
//! - Laws: where the shadow's rows are linked, nobody owns it, and a walk sees what it has to where it stands, a turn of a write leaves all rows but its own as they are, and the shadow
//!   but for its own operation's effect, of which a place has one, however many walks there are for it; `Noted` tells the
//!   note that the place has (`a_shadow_is_a_logged_cell`). A read changes nothing, is never refused as `Full`, and gives the
//!   shadow's value, or none where the transaction has no shadow of the item (`a_shadow_reads_its_own`). `Worn` leaves the shadow as it is.
//!
//! Files:
//! - Code (`src/`): `shadow` the walks over a transaction's own copies of items, for calls; `laws`.
//! - Lemmas (`proofs/`): `Shadowed`.
#![tactic(auto)]

mod laws;
mod shadow;

pub use laws::{a_shadow_is_a_logged_cell, a_shadow_reads_its_own};
pub use shadow::{ShadowOutput, ShadowRead, ShadowWrite};
