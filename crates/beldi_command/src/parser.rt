// The grammar as `clap` is told of it, and what its matches say.
ghost use Rattle.std.specs.Prelude.{◌≡◌, IfOk, false, codes, option_and_then};
ghost use Rattle.clap.specs.declared.builder.command.Command.TheViews.{out-Command as fields_of};
ghost use Rattle.clap.specs.Words.{app_of, first_value, found_of, rule_of, subcommand_rows_of};
ghost use Rattle.beldi_command.specs.CommandLine.{serve_of};
ghost use Rattle.beldi_command.specs.Parser.{beldi, command_met, commands, serve, serve_given, wanted, with_plain, with_serve};

use crate::command::Command;
use beldi_value::{OutOfMemory, read_numeral};
use clap::{Arg, ArgMatches};
use std::alloc::Global;

// The command above the others. A subcommand takes its settings.
fn program<'a>(alloc: Global) -> clap::Command<'a>
    ensures { app_of result ≡ beldi }
{
    clap::Command::new(alloc, "beldi")
        .no_binary_name(true)
        .disable_help_flag(true)
        .disable_version_flag(true)
        .disable_help_subcommand(true)
        .subcommand_required(true)
}

// An option that is wanted, with one value.
fn wanted<'a>(alloc: Global, name: &'a str) -> Arg<'a>
    ensures rule { rule_of result ≡ wanted name.entry.now }
    ensures own { result.global ≡ false }
{
    Arg::new(alloc, name).long(name).required(true)
}

// To serve takes both options.
fn serve<'a>(alloc: Global) -> Result<clap::Command<'a>, OutOfMemory>
    ensures app { IfOk result (λ c. app_of c ≡ serve) }
    ensures local { IfOk result (λ c. (fields_of c).has_globals ≡ false) }
{
    clap::Command::new(alloc, "serve")
        .arg(wanted(alloc, "port"))?
        .arg(wanted(alloc, "requests"))
}

// The program with the command that serves.
fn with_serve<'a>(alloc: Global) -> Result<clap::Command<'a>, OutOfMemory>
    ensures { IfOk result (λ c. app_of c ≡ with_serve) }
{
    let serve = serve(alloc)?;
    program(alloc).subcommand(serve)
}

// .. and with the two that take no words.
fn with_plain<'a>(
    alloc: Global,
    program: clap::Command<'a>,
) -> Result<clap::Command<'a>, OutOfMemory>
    ensures { IfOk result (λ c. app_of c ≡ with_plain (app_of program.entry)) }
{
    program
        .subcommand(clap::Command::new(alloc, "run"))?
        .subcommand(clap::Command::new(alloc, "check"))
}

pub fn parser<'a>(alloc: Global) -> Result<clap::Command<'a>, OutOfMemory>
    ensures { IfOk result (λ c. app_of c ≡ commands) }
{
    with_plain(alloc, with_serve(alloc)?)
}

// To serve, by the words for the port and for how many connections.
fn serve_of(port: &str, requests: &str) -> Option<Command>
    ensures { result ≡ serve_of port.now requests.now }
{
    match (
        read_numeral(port.as_bytes(), 65_535),
        read_numeral(requests.as_bytes(), 1_000_000),
    ) {
        (Some(0), _) | (_, Some(0)) => None,
        (Some(port), Some(requests)) => Some(Command::Serve {
            port: port as u16,
            requests: requests as u32,
        }),
        _ => None,
    }
}

// .. by the options that were met.
fn serve_given(matches: &ArgMatches<'_>) -> Option<Command>
    ensures { result ≡ serve_given (first_value (found_of matches.now) (codes "port")) (first_value (found_of matches.now) (codes "requests")) }
{
    match (matches.get_str("port"), matches.get_str("requests")) {
        (Some(port), Some(requests)) => serve_of(port, requests),
        _ => None,
    }
}

// The command by the subcommand that was met.
pub fn command_met(matches: &ArgMatches<'_>) -> Option<Command>
    ensures { result ≡ option_and_then command_met (subcommand_rows_of matches.now) }
{
    match matches.subcommand() {
        Some(("run", _)) => Some(Command::Run),
        Some(("check", _)) => Some(Command::Check),
        Some(("serve", options)) => serve_given(options),
        _ => None,
    }
}
