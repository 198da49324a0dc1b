// The book.
ghost use Rattle.std.specs.Prelude.{◌≡◌, ◌+◌, ◌-◌, ◌≤◌, ◌<◌, ◌++◌, ◌∷◌, [], ℕ, suc, ◌^◌, min, length, slice_get, option_copied, OnOk, OnErr, IfOk, string_bytes};
ghost use Rattle.beldi_book.specs.BookText.{book_text};
ghost use Rattle.beldi_book.specs.LinearOrder.{count_changes, linear};
ghost use Rattle.beldi_book.specs.EntryLine.{ReadsBook};
ghost use Rattle.beldi_book.specs.declared.book.BookErr.TheVariants.{BadEntry};

use crate::entry::Entry;
use crate::order::in_order;
use crate::reading::read_entry;
use beldi_tree::Deployment;
use beldi_value::{TextBuf, cut_at, or_drop};
use std::alloc::{AllocError, Global};
use std::marker::Model;
use thiserror::Error;

/// Why a text is read as no book.
#[derive(Clone, Copy, Debug, PartialEq, Eq, Error)]
pub enum BookErr {
    /// No more memory.
    #[error("out of memory")]
    OutOfMemory,
    /// The line of this number, from 1, is the first that is the text of no entry within the limits, or that lacks its
    /// line feed, which `write` puts at the end of the last line too. Past 32 bits the number stays.
    #[error("line {line} of the book is no entry")]
    BadEntry { line: u32 },
}

impl From<AllocError> for BookErr {
    ghost use Rattle.std.specs.Prelude.{◌≡◌};
    ghost use Rattle.beldi_book.specs.declared.book.BookErr.TheVariants.{OutOfMemory};

    ghost from_gives = { λ _ e. e ≡ OutOfMemory };

    fn from(_: AllocError) -> BookErr {
        BookErr::OutOfMemory
    }
}

/// A list of entries. Contracts see them, and how many more it has room for.
#[derive(Drop)]
pub struct Book {
    entries: Vec<Entry>,
    changes: u64,
}

impl Model for Book {
    ghost use Rattle.std.specs.Prelude.{◌≡◌, ◌-◌, vec_len, vec_capacity};
    ghost use Rattle.std.specs.Coded.{codes};
    ghost use Rattle.beldi_book.specs.contracts.entry.Entry as entry;
    ghost use Rattle.beldi_book.specs.Book.{Entries};
    ghost use Rattle.beldi_book.specs.LinearOrder.{count_changes};

    ghost Value = { Entries };

    ghost coded = { Prim.hlevel (codes, entry.the_row.coded) };

    ghost view = { λ a. record { entries = a.entries.items; spare = vec_capacity a.entries - vec_len a.entries } };

    ghost invariant = { λ a. a.changes ≡ count_changes a.entries.items };
}

impl Book {
    /// A book with no entry.
    pub fn new(alloc: Global) -> Book
        ensures { result.entries ≡ [] }
    {
        Book {
            entries: Vec::new(alloc),
            changes: 0,
        }
    }

    /// Makes room for one entry more.
    pub fn reserve(&mut self) -> Result<(), AllocError>
        ensures room { OnOk result (1 ≤ self.new.spare) }
        ensures entries { self.new.entries ≡ self.old.entries }
    {
        self.entries.reserve(1)
    }

    /// Appends an entry, for which there is room.
    pub fn push(&mut self, entry: Entry)
        requires { 1 ≤ self.old.spare }
        ensures entries { self.new.entries ≡ self.old.entries ++ entry ∷ [] }
        ensures spare { self.old.spare ≡ self.new.spare + 1 }
    {
        self.changes += u64::from(entry.is_change());
        self.entries.push_reserved(entry);
    }

    /// How many entries it has.
    pub fn len(&self) -> u64
        ensures { result ≡ length self.now.entries }
    {
        self.entries.len() as u64
    }

    /// How many changes it has: entries that are no reads.
    pub fn changes(&self) -> u64
        ensures { result ≡ count_changes self.now.entries }
    {
        self.changes
    }

    /// The entry of this number, from 0.
    pub fn get(&self, at: u64) -> Option<&Entry>
        ensures { option_copied result ≡ slice_get self.now.entries at }
    {
        self.entries.get(at as usize)
    }

    /// The entries in the order in which they took effect: each read stands where it was made. It takes time by the
    /// number of entries.
    pub fn linear(&self, alloc: Global) -> Result<Book, AllocError>
        ensures { IfOk result (λ b. b.entries ≡ linear self.now.entries) }
    {
        Ok(Book {
            entries: in_order(alloc, self.entries.as_slice())?,
            changes: self.changes,
        })
    }

    /// Appends a line for each entry, each with its line feed. Of entries within their limits `read` reads it again.
    pub fn write(
        &self,
        alloc: Global,
        code: &Deployment,
        out: &mut TextBuf,
    ) -> Result<(), AllocError>
        ensures ok { OnOk result (out.new ≡ out.old ++ book_text code.now self.now.entries) }
        ensures err { OnErr result (out.new ≡ out.old) }
    {
        let mut text = TextBuf::new(alloc);
        for entry in &self.entries {
            entry.write(alloc, code, &mut text)?;
            text.push_text("\n")?;
        }
        out.push_text(text.as_str())
    }

    /// The book whose text this is: a line for each entry, as `write` gives it, of entries whose ids, numbers and values
    /// are within their limits. Nothing else is read.
    pub fn read(alloc: Global, text: &[u8], code: &Deployment) -> Result<Book, BookErr>
        ensures { ReadsBook code.now text.now result }
    {
        let mut book = Book::new(alloc);
        let mut rest = text;
        while !rest.is_empty() {
            let (line, more) = cut_at(rest, b'\n');
            let Some(more) = more else {
                return Err(book.bad_line())
            };
            match read_entry(alloc, code, line) {
                Ok(Some(entry)) => match book.append(entry) {
                    Ok(()) => (),
                    Err(_) => return Err(BookErr::OutOfMemory),
                },
                Ok(None) => return Err(book.bad_line()),
                Err(_) => return Err(BookErr::OutOfMemory),
            }
            rest = more;
        }
        Ok(book)
    }

    fn append(&mut self, entry: Entry) -> Result<(), AllocError>
        ensures { OnOk result (self.new.entries ≡ self.old.entries ++ entry ∷ []) }
    {
        or_drop!(self.reserve(); entry);
        self.push(entry);
        Ok(())
    }

    // The line after those of the entries is refused.
    fn bad_line(&self) -> BookErr
        ensures { result ≡ BadEntry (min (suc (length self.now.entries)) (2 ^ 32 - 1)) }
    {
        let count = self.len();
        BookErr::BadEntry {
            line: if count < 0xffff_ffff {
                count as u32 + 1
            } else {
                0xffff_ffff
            },
        }
    }
}
