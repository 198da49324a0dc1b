//! Settling: which event a host is given next so that all that can end ends, and what follows of its answer. It is a machine that knows no
//! table: the next event is a function of where it stands and of which runs live, and where it stands then one of the answer. It stands on
//! the step of the host (`beldi_step`).
//! Its definitions: `specs/Settle` (the machine) and `specs/Settles` (its events, one after another, over rows that are told; and where,
//! with no event, the intent collector passes over rows that are of no open intent, `skips`).
//!
//! Proved: the code of each part of the machine is its definition. What is proved of its events stands in `beldi_bound`: how many turns it
//! counts, and what its ends say.
//!
//! Files (`src/`): `machine` where a settling stands, and where it goes.
#![tactic(auto)]

mod machine;

pub use machine::{
    At, Next, Settled, Standing, Waits, begun, first_at, go_on, on_ic_reply, on_turn_reply, strode,
    unparked,
};
