//! The bytes of keys and of rows, by which a table keeps its rows outside. It stands on `beldi_row`. Its definitions:
//! `specs/KeyBytes` (the bytes of a key, part by part), `specs/RowBytes` (the bytes of a row), `specs/Coding` (what is written behind
//! bytes, and what is read off their front), `specs/BytesReading` (what is read of values, and the moments of rows).
//!
//! The bytes: numbers stand with the greatest byte first, in as many bytes as their type has; a whole number of a value after
//! whether it is below 0. What may be there stands after a byte, as does each kind of key, row, value, outcome, owner or note. In a
//! key a text ends with two bytes 0, and the hops of an id with one; in a row texts, lists, records and logs stand after their
//! length, in four bytes. Fields stand in the order in which they are declared.
//!
//! Proved:
//! - The bytes of two keys compare in dictionary order as the keys do (`bytes_are_ordered_as_keys`), and keys with the same bytes
//!   are one (`no_two_keys_have_the_same_bytes`). So are rows (`no_two_rows_have_the_same_bytes`). These hold for all keys and rows,
//!   whatever their numbers and lengths.
//! - `write_key` and `write_row` give just these bytes (`bytes`), and tell that the key or the row is as its types keep it (`real`): ids
//!   have at most 63 hops, logs at most eight entries, texts are UTF-8, whole numbers have 64 bits, keys of records rise (`IsKey`,
//!   `IsRow`). A text or a list of 2^32 parts or more is refused as out of memory.
//! - `read_key` gives the key that has the bytes, and none only where no such key has them (`ReadsKey`). `read_row` gives the row that has
//!   the bytes and whose moments are at most 2^62 (`IsInTime`), and none only where no such row has them (`ReadsRow`).
//! - So what was written is read again as it was (`a_written_key_is_read_again`, `a_written_row_is_read_again`); of rows those alone whose
//!   moments are at most 2^62, which are all that a host has. `write_row` does not ask, and another row is not read
//!   (`a_late_row_is_not_read`).
//!
//! Not proved: that a value which nests very deep is read within the stack. Reading a record takes time as the square of the number of its
//! fields (`Rec::set`), and all else as the length of the bytes.
//!
//! Files:
//! - Code (`src/`): `number_out` numbers and texts, `key_out` ids and keys, `value_out`, `part_out` outcomes, owners and logs, `row_out`
//!   rows, all written; `cursor` bytes that are still to be read, with numbers and texts; `key_in`, `value_in`, `part_in`, `row_in` the
//!   same parts, read; `laws`.
//! - Lemmas (`proofs/`): `Ordered` the order of keys, part by part, `RowExact` parts of rows with the same bytes are one, `Again` what was
//!   written is read again, these three also for the crates above; `Exact` parts of keys with the same bytes are one; `Refused` where a
//!   part is refused, so is the whole; `Midway` lists that are read item by item, `Texts` hops and texts of keys so, `ByteLists` lists, logs and
//!   records so; `Tagged` and `Values` what stands behind the number of a kind.
#![tactic(auto)]

mod cursor;
mod key_in;
mod key_out;
mod laws;
mod number_out;
mod part_in;
mod part_out;
mod row_in;
mod row_out;
mod value_in;
mod value_out;

pub use key_in::read_key;
pub use key_out::write_key;
pub use laws::{
    a_late_row_is_not_read, a_written_key_is_read_again, a_written_row_is_read_again,
    bytes_are_ordered_as_keys, no_two_keys_have_the_same_bytes, no_two_rows_have_the_same_bytes,
};
pub use row_in::read_row;
pub use row_out::write_row;
