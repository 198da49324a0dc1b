//! A bank as a deployment, with one function that moves an amount from one account to another, and what every run of transfers
//! keeps. It has no code. It stands on the plain machine, and takes from `beldi_plain_laws` that a transaction is a list of moves. Its
//! definitions: `specs/Bank` (the bank, and what a transfer is), `specs/BankLaws` (balanced items).
//!
//! Proved:
//! - In the run of a book whose roots are transfers each item is an account of the bank and a whole number of 64 bits, and
//!   together they are a hundred times as many as there are items (`transfers_keep_the_sum`).
//!
//! Files:
//! - Code (`src/`): `laws` one function a law, with no body.
//! - Lemmas (`proofs/`): `Values` what the expressions of a transfer come to; `Effects` what its statements want; `Sums`,
//!   `Balance` the sum of items where one is set, and where a transfer sets two; `BankFlows` a transfer answer by answer;
//!   `BankKept` what each entry keeps; `BankRuns` the run of a book.
#![tactic(auto)]

mod laws;

pub use laws::transfers_keep_the_sum;
