//! Tests of calls that the program does not make, each where memory is ample: that it is not, no contract rules out. And tests of what the
//! adapters do over TCP and the real clock. It has no other code. Walks are tested in `beldi_query_trials`, the program in `beldi_main`.
#![tactic(auto)]

#[cfg(test)]
mod calls;
#[cfg(test)]
mod gateway;
#[cfg(test)]
mod regions;
#[cfg(test)]
mod transactions;
