//! Which command the words of a command line ask for. It stands on `beldi_value` (texts, numbers) and `clap`, which reads the words.
//! Its definitions: `specs/CommandLine` (the grammar `run | check | serve --port P --requests M | gen SEED N`, in its own words) and
//! `specs/Parser` (the command that `clap` is given, and what is read off its matches).
//!
//! Proved:
//! - `read_command` gives just the command that the words ask for, and none where they are outside the grammar
//!   (`c ≡ command_of words.now`): no words, words after `run` or `check`, any other word, a flag, `--`, and calls for help.
//! - `serve` takes its two options in either order, each once, as two words or as one with `=`. Their numbers, and those of `gen`, are
//!   decimal, without leading zeros, and within their bounds.
//! - What follows `gen` is read by hand. For all other words this follows from what `clap` says of the command that it is given,
//!   `commands`: where none of the words is `--`, it refuses only words that ask for no command, and else the subcommand that it met,
//!   with the values of its options, is what they ask for (`proofs/Asked`). By hand the words are only looked through for `--`, since
//!   `clap` takes `run --` for `run`, and the values are read as numbers.
//!
//! Files:
//! - Code (`src/`): `command` the commands; `reading` which one the words ask for; `parser` the grammar, as `clap` is given
//!   it, and what its matches say.
//! - Lemmas (`proofs/`): `Asked` that `clap` takes just the words of a command, and meets it; `Serving` the words after `serve`, from
//!   one place to the next; `Options` what one of them is; `Pairs` what the two values ask for; `Refused` what `clap` refuses;
//!   `Entered` that it keeps the words after a name; `Answered` what its answer says.
#![tactic(auto)]

mod command;
mod parser;
mod reading;

pub use command::Command;
pub use reading::read_command;
