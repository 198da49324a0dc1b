//! Tests of walks over a table, most of which the program makes as parts of its runs alone. It has no other code.
#![tactic(auto)]

#[cfg(test)]
mod linked;
#[cfg(test)]
mod prunes;
#[cfg(test)]
mod regions;
#[cfg(test)]
mod transactions;
#[cfg(test)]
mod walks;
