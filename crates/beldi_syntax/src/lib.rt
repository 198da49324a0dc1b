//! The reader of deployments: from a text to its functions and the place where the script begins.
//! It stands on `beldi_value` (numbers and texts), `beldi_tree` (what a deployment is) and `serde_json` (what a text says).
//! Its definitions: `specs/Lexer` (tokens on bytes), `specs/Phrase` (what is read off the front of the tokens, or the line
//! and the cause of a refusal), `specs/Operators`, `specs/Expressions`, `specs/Statements` and `specs/Deployments` (the
//! grammar, phrase by phrase, and what a text is read as), `specs/Grammar` (the grammar as a relation: a table of rules, each
//! with what it makes of what its symbols stand for, and which token breaks which limit) and `specs/SourceText` (what a text holds
//! by that grammar, and why one is refused).
//!
//! Proved:
//! - `read_deployment` reads just the texts of the grammar, as the deployment that they say, refuses the others with
//!   the line and the cause of the definition, and finds where the script begins (`ReadsText (parsed_at ..)`).
//! - That definition reads phrase by phrase. It reads exactly what a text holds by the grammar: the deployment that its tokens
//!   are by the rules, where none of them breaks a limit, and the script after a blank line's rest (`reads_the_grammar`).
//! - It refuses exactly where the grammar has a cause, the first one in the text: bytes that are not UTF-8, or too many; a token
//!   with which no deployment goes on; a number outside the limits of its place, a token in more than 64 open levels, a text
//!   that is too long, of two causes at one token the first in this order; a line of `script` that is not blank
//!   (`refuses_first`).
//!
//! Files:
//! - Code (`src/`): `lexer`, `token` from bytes to tokens; `tokens` those that are left, and the phrases of one token;
//!   `operators`, `expressions`, `statements`, `deployments` the grammar, a function a phrase; `reading` a text; `refusal`;
//!   `laws`.
//! - Lemmas (`proofs/`): `Pieces`, `Repeated` pieces and phrases that go on; `Lookahead` which token decides which rule;
//!   `Fill`, `Deep` that every symbol goes on, and the first token of a level too many; `Sound`, `Terms`, `Commands` phrases
//!   as runs over the grammar; `First` what is read and refused of tokens, `Texts` of a text.
#![tactic(auto)]

mod deployments;
mod expressions;
mod laws;
mod lexer;
mod operators;
mod reading;
mod refusal;
mod statements;
mod token;
mod tokens;

pub use laws::{reads_the_grammar, refuses_first};
pub use reading::{Parsed, read_deployment};
pub use refusal::{SyntaxErr, What};
