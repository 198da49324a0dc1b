// What is told of a session of generated work.
ghost use Rattle.std.specs.Prelude.{◌≡◌, ◌++◌, IfOk, OnOk, pos, string_bytes};
ghost use Rattle.beldi_script.specs.LineCut.{lines_of};
ghost use Rattle.beldi_generator.specs.Summary.{begins, counted, entries_text, is_unread, item_front, last_word, listed, numbered, past, settling_in, summary_text, summed, tells_settling, totals_text, value_in};

use beldi_script::cut_line;
use beldi_value::{TextBuf, cut_at, read_int};
use std::alloc::{AllocError, Global};

// What follows the first line that is this.
fn past<'a>(text: &'a [u8], head: &[u8]) -> &'a [u8]
    ensures { lines_of result.now ≡ past head.now (lines_of text.now) }
{
    let mut rest = text;
    while !rest.is_empty() {
        let (line, more) = cut_line(rest);
        rest = more;
        if line == head {
            return rest;
        }
    }
    rest
}

// How many lines begin so.
fn count(text: &[u8], front: &[u8]) -> usize
    ensures { result ≡ counted 0 front.now (lines_of text.now) }
{
    let mut count = 0;
    let mut rest = text;
    while !rest.is_empty() {
        let (line, more) = cut_line(rest);
        if line.starts_with(front) {
            count += 1;
        }
        rest = more;
    }
    count
}

fn tells_settling(line: &[u8]) -> bool
    ensures { result ≡ tells_settling line.now }
{
    line.starts_with(b"settled ")
        || line.starts_with(b"unsettled ")
        || line.starts_with(b"stuck ")
        || line.starts_with(b"spent ")
}

// The first line that tells how a settling ended.
fn settling_in(text: &[u8]) -> &[u8]
    ensures { result.now ≡ settling_in (lines_of text.now) }
{
    let mut rest = text;
    while !rest.is_empty() {
        let (line, more) = cut_line(rest);
        if tells_settling(line) {
            return line;
        }
        rest = more;
    }
    &[]
}

// What follows the last space of a line, or all of it.
fn last_word(line: &[u8]) -> &[u8]
    ensures { result.now ≡ last_word line.now }
{
    let mut word = line;
    while let (_, Some(rest)) = cut_at(word, b' ') {
        word = rest;
    }
    word
}

// The whole number of a listed item, which ends its line.
fn value_in(line: &[u8]) -> i64
    ensures { result ≡ value_in line.now }
{
    match read_int(last_word(line)) {
        Some(number) => number,
        None => 0,
    }
}

// How many lines at the front list an item.
fn count_listed(text: &[u8]) -> usize
    ensures { result ≡ listed 0 (lines_of text.now) }
{
    let mut count = 0;
    let mut rest = text;
    while !rest.is_empty() {
        let (line, more) = cut_line(rest);
        if !line.starts_with(b"bank ") {
            return count;
        }
        count += 1;
        rest = more;
    }
    count
}

// The sum of what the listed items have.
fn sum(text: &[u8]) -> i64
    ensures { result ≡ summed (pos 0) (lines_of text.now) }
{
    let mut sum = 0i64;
    let mut rest = text;
    while !rest.is_empty() {
        let (line, more) = cut_line(rest);
        if !line.starts_with(b"bank ") {
            return sum;
        }
        sum = sum.wrapping_add(value_in(line));
        rest = more;
    }
    sum
}

fn is_unread(text: &[u8]) -> bool
    ensures { result ≡ is_unread (lines_of text.now) }
{
    if text.is_empty() {
        return false;
    }
    let (line, _) = cut_line(text);
    line == b"dropped".as_slice()
}

fn write_numbered(word: &str, number: u64, out: &mut TextBuf) -> Result<(), AllocError>
    ensures { OnOk result (out.new ≡ out.old ++ numbered word.now number) }
{
    out.push_text(word)?;
    out.push_number(number)?;
    out.push_text("\n")
}

// The entries of transactions, after how many requests there were.
fn write_entries(requests: u32, book: &[u8], out: &mut TextBuf) -> Result<(), AllocError>
    ensures { OnOk result (out.new ≡ out.old ++ entries_text requests (lines_of book.now)) }
{
    write_numbered("requests ", u64::from(requests), out)?;
    write_numbered("committed ", count(book, b"tx ") as u64, out)?;
    write_numbered("aborted ", count(book, b"try ") as u64, out)
}

// How many items are listed, and their sum; or that they could not be read.
fn write_totals(alloc: Global, tables: &[u8]) -> Result<String, AllocError>
    ensures { IfOk result (λ t. string_bytes t ≡ totals_text (lines_of tables.now)) }
{
    if is_unread(tables) {
        return String::from_str(alloc, "dropped\n");
    }
    let keys = count_listed(tables);
    let sum = sum(tables);
    format!(in alloc; "keys {keys}\nsum {sum}\n")
}

/// What is told of generated work with so many requests, by the text of its session: how many transactions committed and
/// aborted, how the settling ended, how many items are listed, and the sum of their values; one line in place of the last two
/// where the table failed as it was to be listed.
pub fn summarise(alloc: Global, requests: u32, text: &[u8]) -> Result<Vec<u8>, AllocError>
    ensures { IfOk result (λ v. v.items ≡ summary_text requests text.now) }
{
    let mut summary = Vec::new(alloc);
    let mut entries = TextBuf::new(alloc);
    write_entries(requests, past(text, b"== book"), &mut entries)?;
    summary.extend_from_slice(entries.as_bytes())?;
    summary.extend_from_slice(settling_in(text))?;
    summary.extend_from_slice(b"\n")?;
    let totals = write_totals(alloc, past(text, b"== tables"))?;
    summary.extend_from_slice(totals.as_bytes())?;
    Ok(summary)
}
