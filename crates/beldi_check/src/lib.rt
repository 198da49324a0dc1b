//! The checks of a deployment: what a host asks of one before it runs it. It stands on `beldi_tree`.
//! Its definitions: `specs/Site` (the statements of a body, and where each stands), `specs/CallGraph` (which function leads to
//! which), `specs/Rules` (the first place that breaks each rule, and the first of all) and `specs/Keeps` (the same rules, said
//! of each function, table and statement).
//!
//! Proved:
//! - `check` accepts a deployment just where no rule is broken, and else names the first place that breaks the first
//!   rule that is broken (`Refuses (first_offence ..)`). What is accepted is the same deployment, with the names in its
//!   statements found (`find_names` of `beldi_tree`).
//! - It is accepted exactly where each rule holds at each function, table and statement (`accepts_exactly`); one function
//!   reaches another exactly where there is a path from it (`reaches_by_paths`).
//! - `Checked` keeps that it was checked (`checked`), and `func` finds a function by its name.
//!
//! Files:
//! - Code (`src/`): `site` the statements of a body, and where each stands; `listed`, `calls` which function leads to which;
//!   `rules` the first place that breaks a rule; `accept` the checks in their order, and a deployment that passed; `why`;
//!   `laws`.
//! - Lemmas (`proofs/`): `Firsts` the first offence, one part after another; `Grids`, `Paths` a path from function to
//!   function; `Keeps`.
#![tactic(auto)]

mod accept;
mod calls;
mod laws;
mod listed;
mod rules;
mod site;
mod why;

pub use accept::{Checked, check};
pub use laws::{accepts_exactly, reaches_by_paths};
pub use why::{CheckErr, Why};
