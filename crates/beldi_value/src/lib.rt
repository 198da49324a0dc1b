//! Values, the ids of intents and their order, and the texts of both, written and read. It stands on `serde_json`, and on
//! `json` for the definitions of what that writes. Its own definitions: `specs/Datum` (what a value stands for),
//! `specs/Json` (the canonical text), `specs/ValueReading` (the value that bytes are, or why they are none), `specs/Convert` (the
//! value that JSON is), `specs/Limits` (how deep a value nests and how long its text is), `specs/Formed` (what of a datum
//! the types of values keep), `specs/RecordParts` (fields of records, elements of lists), `specs/Passes` (how a value stands to an
//! operand), `specs/Id` (the order of ids), `specs/IdAt` (the id that a text is), `specs/ByteCut` (a text cut at a byte),
//! `specs/Number` (numbers in decimal), `specs/ValueText` (the texts of ids, places, owners and outcomes), `specs/ValueLaws` (what
//! holds of them). `proofs/Maps` has lemmas on maps that the crates above cite.
//!
//! Proved:
//! - Copies are equal; `Value::is_same` is equality.
//! - The texts of values, ids, places, owners and outcomes are those of the definitions (`Value::write_json`,
//!   `IntentId::write`, `Place::write`, `Owner::write`, `Outcome::write`).
//! - Numbers are read exactly (`number_at`, `numeral_at`, `int_at` of `read_number`, `read_numeral`, `read_int`).
//! - `Value::read_json` gives the value that the bytes are in JSON, or the first cause in its order why they are none:
//!   each cause exactly where it holds (`read`, by `read_of`); what it gives is within the limits, 32 levels and 4,096
//!   bytes of canonical text (`within`), and the canonical text of a value within them is read as that value again
//!   (`text_is_read_again`).
//! - `IntentId::read` reads just the texts of ids (`ReadsId`); an id has one text, and no other is read as it
//!   (`id_text_is_exact`).
//! - `Value::passes` is equality, or the order of two whole numbers or two texts (`passes`); `Value::is_within` tests
//!   the limits without memory.
//! - Parts of lists and records are those of the definitions (`Values::at`, `push`, `Rec::get`, `set`).
//! - `older` is the order of ages (`is_older`), which is total (`ages_are_ordered`); a whole number has one text, and
//!   no other text is read as it, and so has a number without a sign or zeros in front (`int_text_is_exact`,
//!   `numeral_text_is_exact`).
//!
//! Files:
//! - Code (`src/`): `value` values; `early` an early return whose drops are written; `boxed` a value behind a pointer, `shared` one in
//!   memory that copies share, both seen as themselves; `text` a text that is kept, `text_buf` one that is written; `list` lists of small numbers; `limits` how deep and how long a value is; `parts`
//!   fields and elements; `rel` relations; `read` and `convert` from JSON, `canonical` to JSON; `id` ids of intents, and `hops` what leads to them from a root;
//!   `read_id`; `id_buf` an id in room that was made before; `place` places and owners; `outcome` how an instance ends;
//!   `number` reading numbers; `cut` a text at a byte; `write` the other texts; `laws`.
//! - Further definitions (`specs/`): `ValueFalls` each value in a list or a record is smaller than the list or the record;
//!   `Injective` values that stand for one datum are one value; `Same` whether two values are equal, as a test; `Hops` hops, wherever they lie; `Value` the value that a `Value` stands for.
//! - Lemmas (`proofs/`): `Ages`, `Ints`, `Numbers`; `JsonText`, `Converting`, `Within`, `ReadAgain` JSON; `IdTexts`,
//!   `Slashes`, `Marks` ids and cuts; `Fields`, `Results`; `Maps` maps that entries make, also for the crates above;
//!   `Callees` ids of callees.
#![tactic(auto)]

mod boxed;
mod canonical;
mod convert;
mod cut;
mod early;
mod hops;
mod id;
mod id_buf;
mod laws;
mod limits;
mod list;
mod number;
mod outcome;
mod parts;
mod place;
mod read;
mod read_id;
mod rel;
mod shared;
mod text;
mod text_buf;
mod value;
mod write;

pub use boxed::Boxed;
pub use cut::cut_at;
pub use hops::Hops;
pub use id::{IntentId, older};
pub use id_buf::IdBuf;
pub use laws::{
    ages_are_ordered, id_text_is_exact, int_text_is_exact, numeral_text_is_exact,
    text_is_read_again,
};
pub use list::{ByteList, Items, Moments, Values32};
pub use number::{read_int, read_number, read_numeral};
pub use outcome::{Cause, Code, Outcome, copy_holder};
pub use place::{Caller, Owner, Place, TxId};
pub use read::ValueErr;
pub use read_id::IdErr;
pub use rel::Rel;
pub use shared::Shared;
pub use std::alloc::AllocError as OutOfMemory;
pub use text::Str;
pub use text_buf::TextBuf;
pub use value::{Rec, Value, Values};
