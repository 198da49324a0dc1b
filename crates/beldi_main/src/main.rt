//! The program over the real streams, a table in memory (`RegionTable`) or in a file, a link over TCP and the system's clock. What it
//! does is `top` of `beldi_program`.
//! Its tests show what no clause can: what is written where a read, a write or a call of the table or the link fails, what clients
//! of a service over the link in memory are answered, and how sessions go on over a table that is handed on.
#![tactic(auto)]

#[cfg(test)]
mod tests;

use beldi_file::{KeptFile, KeptLink, KeptSink, SharedBlobs};
use beldi_outside::{Link, ReadyLink, Sink, StdSink, StdSource, WallClock};
use beldi_program::top;
use beldi_region::RegionTable;
use beldi_row::Table;
use beldi_sqlrows::BlobRows;
use beldi_sqltable::RowTable;
use beldi_value::Str;
use sqlite::Alter;
use std::cell::RefCell;
use std::process::ExitCode;
use std::{env, io, mem};

// The words after the program's name; none where they cannot be had.
fn words(rt: &HostRuntime) -> io::Result<Vec<Str>> {
    let mut words = Vec::new(rt.alloc());
    for word in env::args(rt)?.skip(1) {
        words.push(Str::from_string(word)?)?;
    }
    Ok(words)
}

// Carries out what the words ask for, with the real source and clock.
fn carry_out<T: Table, K: Sink, N: Link>(
    rt: &HostRuntime,
    words: &[Str],
    table: T,
    sink: &mut K,
    link: &mut N,
) -> (u8, T) {
    let mut source = StdSource::new(rt.reader());
    let mut clock = WallClock::since_1970(rt);
    top(
        rt.alloc(),
        words,
        &mut source,
        sink,
        table,
        link,
        &mut clock,
    )
}

// The same over a table in memory.
fn over_memory(rt: &HostRuntime, words: &[Str]) -> u8 {
    let alloc = rt.alloc();
    let mut sink = StdSink::new(io::writer(rt));
    let mut link = ReadyLink::new(alloc, rt, rt.stderr());
    let (status, table) = carry_out(rt, words, RegionTable::new(alloc), &mut sink, &mut link);
    // The process ends: the rows are not given back one by one.
    mem::forget(table);
    link.finish();
    status
}

// The same over the rows of a file.
fn over_rows<S: Alter + Drop, N: Link>(
    rt: &HostRuntime,
    words: &[Str],
    file: &RefCell<KeptFile<S>>,
    link: &mut N,
) -> u8 {
    let alloc = rt.alloc();
    let mut sink = KeptSink::new(StdSink::new(io::writer(rt)), file);
    let mut link = KeptLink::new(link, file);
    let rows = BlobRows::over(alloc, SharedBlobs::new(file));
    let (status, table) = carry_out(rt, words, RowTable::over(alloc, rows), &mut sink, &mut link);
    drop(table);
    status
}

// The same, with the real link.
fn over_link<S: Alter + Drop>(rt: &HostRuntime, words: &[Str], file: &RefCell<KeptFile<S>>) -> u8 {
    let mut link = ReadyLink::new(rt.alloc(), rt, rt.stderr());
    let status = over_rows(rt, words, file, &mut link);
    link.finish();
    status
}

// The same over the file at this path. What is told is kept there before.
fn over_file(rt: &HostRuntime, path: &str, words: &[Str]) -> u8 {
    let Ok(file) = KeptFile::open(rt, path) else {
        return 1;
    };
    let file = RefCell::new(file);
    let status = over_link(rt, words, &file);
    // What was told is kept already; where the log cannot be copied into the file, it stays beside it.
    let _closed = file.into_inner().close();
    status
}

// The same over a file, where the first word is `--db` and a path follows.
fn over(rt: &HostRuntime, words: &[Str]) -> u8 {
    if words.len() >= 2 && words[0].as_str() == "--db" {
        over_file(rt, words[1].as_str(), &words[2..])
    } else {
        over_memory(rt, words)
    }
}

fn main(rt: HostRuntime) -> ExitCode {
    match words(&rt) {
        Ok(words) => ExitCode::from(over(&rt, words.as_slice())),
        Err(_) => ExitCode::from(1),
    }
}
