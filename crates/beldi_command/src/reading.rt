// The words, read by the parser.
ghost use Rattle.std.specs.Prelude.{◌≡◌, IfOk, false, map};
ghost use Rattle.beldi_command.specs.CommandLine.{command_of, gen_of, gen_with, named_of};
ghost use Rattle.beldi_command.specs.Parser.{has_divider};

use crate::command::Command;
use crate::parser::{command_met, parser};
use beldi_value::{OutOfMemory, Str, read_numeral};
use clap::error::ErrorKind;
use std::alloc::Global;

fn has_divider(words: &[Str]) -> bool
    ensures { result ≡ has_divider words.now }
{
    words.iter().any(|word| word.as_str() == "--")
}

fn texts_of(alloc: Global, words: &[Str]) -> Result<Vec<&str>, OutOfMemory>
    ensures { IfOk result (λ texts. map (λ t. t.now) texts.items ≡ words.now) }
{
    let mut texts = Vec::with_capacity(alloc, words.len())?;
    for word in words {
        texts.push(word.as_str())?;
    }
    Ok(texts)
}

// Generated work, by the words for its seed and for how many requests it has.
fn gen_of(seed: &Str, requests: &Str) -> Option<Command>
    ensures { result ≡ gen_of seed.now requests.now }
{
    match (
        read_numeral(seed.as_bytes(), 2_147_483_647),
        read_numeral(requests.as_bytes(), 1000),
    ) {
        (_, Some(0)) => None,
        (Some(seed), Some(requests)) => Some(Command::Gen {
            seed: seed as u32,
            requests: requests as u32,
        }),
        _ => None,
    }
}

fn gen_with(words: &[Str]) -> Option<Command>
    ensures { result ≡ gen_with words.now }
{
    match words {
        [seed, requests] => gen_of(seed, requests),
        _ => None,
    }
}

// What `clap` makes of texts.
fn parse(alloc: Global, texts: &[&str]) -> Result<Option<Command>, OutOfMemory>
    requires { has_divider (map (λ t. t.now) texts.now) ≡ false }
    ensures { IfOk result (λ c. c ≡ named_of (map (λ t. t.now) texts.now)) }
{
    match parser(alloc)?.try_get_matches_from(texts) {
        Ok(matches) => {
            let command = command_met(&matches);
            drop(matches);
            Ok(command)
        }
        Err(error) => {
            let kind = error.kind();
            drop(error);
            match kind {
                ErrorKind::OutOfMemory => Err(OutOfMemory),
                _ => Ok(None),
            }
        }
    }
}

// The command of words that `clap` reads, a name first.
#[tactic(auto, using(crate::proofs::Pairs::divided))]
fn read_named(alloc: Global, words: &[Str]) -> Result<Option<Command>, OutOfMemory>
    ensures { IfOk result (λ c. c ≡ named_of words.now) }
{
    // `clap` would take `run --` for `run`.
    if has_divider(words) {
        return Ok(None);
    }
    let texts = texts_of(alloc, words)?;
    let command = parse(alloc, texts.as_slice());
    drop(texts);
    command
}

/// The command that these words, those after the program's name, ask for; none where they are outside the grammar
/// `run | check | serve --port P --requests M | gen SEED N`. Out of memory, nothing is said of them.
pub fn read_command(alloc: Global, words: &[Str]) -> Result<Option<Command>, OutOfMemory>
    ensures { IfOk result (λ c. c ≡ command_of words.now) }
{
    match words {
        [name, rest @ ..] if name.as_str() == "gen" => Ok(gen_with(rest)),
        _ => read_named(alloc, words),
    }
}
