//! The book: the entries of a session's run, in the order in which they were made, and their text, written and read. It
//! stands on `beldi_value` and `beldi_tree`, and on `thiserror`; on `json` and `serde_json` only for lemmas on the text of
//! values. Its definitions: `specs/Book` (what contracts see of a book), `specs/LinearOrder` (the order in which its entries took
//! effect; what that order keeps is said in `beldi_plain_laws`), `specs/ReadPlaces` (the same order, place by place), `specs/BookText`
//! (the lines), `specs/EntryLine` (which line is the text of which entry, and which text that of which book), `specs/EntryWords` (the
//! parts that a line is read by), `specs/BookLaws` (what holds of a book's text).
//!
//! Proved:
//! - `Book::push` adds the entry at the end (`entries`), within the room that `Book::reserve` made (`room`, `spare`).
//! - `Book::linear` gives the entries in the order in which they took effect, each read where it was made (`linear`),
//!   and `changes` counts those that are no reads.
//! - The texts of entries, of the book and of the lines of listings are those of the definitions (`ok`, `err` of
//!   `Entry::write`, `Book::write`, `write_item`).
//! - `Book::read` reads just the texts of books whose ids, numbers and values are within their limits, and else names the
//!   first line that is the text of no entry (`ReadsBook`). Where the names of the functions are words and differ, a book
//!   that was written is read as it was (`book_is_read_again`); a text that is no book's is refused (`nothing_else_is_read`);
//!   the bad line is one, and a text that has one is no book's (`bad_line_is_first`).
//!
//! Files:
//! - Code (`src/`): `entry`, `book`, `item` a line of a listing; `order` the order in time; `reading` a line of a text;
//!   `laws`.
//! - Lemmas (`proofs/`): `Orders`, `ReadPlaces` the linear order; `Books`, `Cuts`, `LineFeeds`, `Starts`, `Others` what is read
//!   of a line and a text; `Again` what was written is read again.
#![tactic(auto)]

mod book;
mod entry;
mod item;
mod laws;
mod order;
mod reading;

pub use book::{Book, BookErr};
pub use entry::Entry;
pub use item::write_item;
pub use laws::{bad_line_is_first, book_is_read_again, nothing_else_is_read};
