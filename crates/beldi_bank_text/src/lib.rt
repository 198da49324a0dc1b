//! The text of the bank (`beldi_generator`), the deployment that it is read as (`beldi_bank`), and what a session (`beldi_session`)
//! carries out of generated work. It has no code. Its definitions: `specs/BankText`.
//!
//! Proved:
//! - With any script below it, the text is read as the bank, and the script begins in its sixth line (`the_text_is_the_bank`).
//! - A generated source is accepted as the bank (`generated_is_the_bank`). Where no line of its script is refused, the script
//!   carries out events, of which each request is for a transfer, and settlings, and then the last listings (`generated_is_work`).
//!
//! Lemmas (`proofs/`): `TextWords` tokens of bytes below 128; `Read` the text, read; `TextLines` the lines of generated work; `Transfers`
//! what such a line is read as; `Actions` what is carried out.
#![tactic(auto)]

mod laws;

pub use laws::{generated_is_the_bank, generated_is_work, the_text_is_the_bank};
