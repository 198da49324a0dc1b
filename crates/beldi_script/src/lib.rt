//! The lines of a script: a script's text cut into lines, what a line says, and the text of a line.
//! It stands on `beldi_value` (numbers, ids and values) and `beldi_check` (a deployment that was checked, whose functions a line
//! can name).
//! Its definitions: `specs/LineCut` (a text cut into lines), `specs/ScriptWords` (the words of a line, and the lines of numbers),
//! `specs/ScriptLine` (what a line says, or why it is refused), `specs/Forms` (the forms in which lines are written) and `specs/ScriptText` (the
//! text of a line, and that it is read again).
//!
//! Proved:
//! - `read_line` reads just the lines that have one of the forms, and tells the first cause in its order why a line
//!   has none (`Reads (line_at ..)`). A text is read as a line just where it has one of the line's forms (`lines_have_forms`).
//! - `write_line` writes a line (`ok`, `err`), and where the names of the functions are words and differ, a line that
//!   was written, within the limits of its form, is read as it was (`line_is_read_again`).
//! - `cut_line` takes the first line off a text that is not empty (`lines`, `shorter`); lines without newlines in
//!   them, nor a carriage return at their end, that are put after one another are cut into just these
//!   (`lines_are_cut`).
//!
//! Files:
//! - Code (`src/`): `cut` lines; `words` the words of a line; `reading`, `writing` what a line says, and its text; `line`;
//!   `laws`.
//! - Lemmas (`proofs/`): `ScriptLines`, `Parted`, `Names`; `ReadAgain` a line that was written; `Formed` the
//!   forms, both ways.
#![tactic(auto)]

mod cut;
mod laws;
mod line;
mod reading;
mod words;
mod writing;

pub use cut::cut_line;
pub use laws::{line_is_read_again, lines_are_cut, lines_have_forms};
pub use line::{Line, ScriptErr};
pub use reading::read_line;
pub use writing::write_line;
