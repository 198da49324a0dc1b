// The words of a line, and the lines that have no other words than numbers.
ghost use Rattle.std.specs.Prelude.{◌≡◌, ◌≤◌, option_map, option_copied, MatchOption};
ghost use Rattle.std.specs.List.{list_all};
ghost use Rattle.beldi_value.specs.Number.{numeral_at};
ghost use Rattle.beldi_tree.specs.Bindings.{is_name};
ghost use Rattle.beldi_script.specs.ScriptWords.{is_space, is_blank as is_blank_line, is_comment, has_no_space, name_at, small_at, collector_at, count_at, times_at, budget_at, turn_at, gc_at, sweep_at, alone, numbered, counted};

use crate::line::Line;
use beldi_value::{cut_at, read_numeral};

fn is_space(byte: u8) -> bool
    ensures { result ≡ is_space byte }
{
    byte == b' ' || byte == b'\t'
}

fn is_comment(line: &[u8]) -> bool
    ensures { result ≡ is_comment line.now }
{
    match line {
        [b'#', ..] => true,
        _ => false,
    }
}

fn is_white(line: &[u8]) -> bool
    ensures { result ≡ list_all is_space line.now }
{
    line.iter().all(|byte| is_space(*byte))
}

pub fn is_blank(line: &[u8]) -> bool
    ensures { result ≡ is_blank_line line.now }
{
    is_comment(line) || is_white(line)
}

pub fn is_word(word: &[u8], name: &str) -> bool
    ensures { result ≡ is_name word.now name.now }
{
    word == name.as_bytes()
}

fn has_no_space(word: &[u8]) -> bool
    ensures { result ≡ has_no_space word.now }
{
    word.iter().all(|byte| *byte != b' ')
}

pub fn read_name(word: &[u8]) -> Option<&str>
    ensures { option_map (λ s. s.now) result ≡ name_at word.now }
{
    if word.is_empty() || !has_no_space(word) {
        return None;
    }
    match str::from_utf8(word) {
        Ok(name) => Some(name),
        Err(_) => None,
    }
}

pub fn read_small(word: &[u8]) -> Option<u32>
    ensures { result ≡ small_at word.now }
{
    match read_numeral(word, 0xffff_ffff) {
        Some(number) => Some(number as u32),
        None => None,
    }
}

fn read_collector(word: &[u8]) -> Option<u8>
    ensures { result ≡ collector_at word.now }
{
    match read_numeral(word, 7) {
        Some(number) => Some(number as u8),
        None => None,
    }
}

fn read_count(word: &[u8], most: u64) -> Option<u64>
    ensures count { result ≡ count_at most word.now }
    ensures small { MatchOption result (Unit {0}) (λ n. n ≤ most) }
{
    match read_numeral(word, most) {
        Some(0) | None => None,
        Some(number) => Some(number),
    }
}

fn read_turns(word: &[u8]) -> Option<u32>
    ensures { result ≡ count_at 1000 word.now }
{
    match read_count(word, 1000) {
        Some(number) => Some(number as u32),
        None => None,
    }
}

fn read_times(word: Option<&[u8]>) -> Option<u32>
    ensures { result ≡ times_at (option_copied word.entry) }
{
    match word {
        Some(word) => read_turns(word),
        None => Some(1),
    }
}

fn read_budget(word: &[u8]) -> Option<u64>
    ensures { result ≡ budget_at word.now }
{
    read_count(word, 4_000_000_000)
}

fn read_turn(words: &[u8]) -> Option<Line>
    ensures { result ≡ turn_at words.now }
{
    let (run, times) = cut_at(words, b' ');
    Some(Line::Turn {
        run: read_small(run)?,
        times: read_times(times)?,
    })
}

fn read_gc(words: &[u8]) -> Option<Line>
    ensures { result ≡ gc_at words.now }
{
    let (k, times) = cut_at(words, b' ');
    Some(Line::Gc {
        k: read_collector(k)?,
        times: read_times(times)?,
    })
}

fn read_sweep(words: &[u8]) -> Option<Line>
    ensures { result ≡ sweep_at words.now }
{
    let (k, budget) = cut_at(words, b' ');
    let budget = budget?;
    Some(Line::Sweep {
        k: read_collector(k)?,
        budget: read_budget(budget)?,
    })
}

// A line of one word.
pub fn read_alone(word: &[u8]) -> Option<Line>
    ensures { result ≡ alone word.now }
{
    if is_word(word, "ticket") {
        Some(Line::Ticket)
    } else if is_word(word, "ic") {
        Some(Line::Ic { times: 1 })
    } else if is_word(word, "halt") {
        Some(Line::Halt)
    } else if is_word(word, "rows") {
        Some(Line::Rows)
    } else if is_word(word, "tables") {
        Some(Line::Tables)
    } else if is_word(word, "book") {
        Some(Line::Book)
    } else {
        None
    }
}

// A line of a word and one number.
fn read_numbered(word: &[u8], number: &[u8]) -> Option<Line>
    ensures { result ≡ numbered word.now number.now }
{
    if is_word(word, "lost") {
        Some(Line::Lost {
            run: read_small(number)?,
        })
    } else if is_word(word, "crash") {
        Some(Line::Crash {
            run: read_small(number)?,
        })
    } else if is_word(word, "ic") {
        Some(Line::Ic {
            times: read_turns(number)?,
        })
    } else if is_word(word, "settle") {
        Some(Line::Settle {
            budget: read_budget(number)?,
        })
    } else if is_word(word, "tick") {
        Some(Line::Tick {
            by: read_numeral(number, 4_294_967_297)?,
        })
    } else if is_word(word, "reply") {
        Some(Line::Reply {
            ticket: read_small(number)?,
        })
    } else {
        None
    }
}

// A line of a word and numbers.
pub fn read_counted(word: &[u8], words: &[u8]) -> Option<Line>
    ensures { result ≡ counted word.now words.now }
{
    if is_word(word, "turn") {
        read_turn(words)
    } else if is_word(word, "gc") {
        read_gc(words)
    } else if is_word(word, "sweep") {
        read_sweep(words)
    } else {
        read_numbered(word, words)
    }
}
