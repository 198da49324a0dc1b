// Laws of a book's text.
ghost use Rattle.beldi_book.specs.BookLaws.{BookIsReadAgain, NothingElseIsRead, BadLineIsFirst};

/// A book that was written is read as it was, where the names of the functions are words and differ, and its entries are
/// within their limits.
pub fn book_is_read_again()
    ensures { BookIsReadAgain }
{}

/// What `write` gives of no such book is not read.
pub fn nothing_else_is_read()
    ensures { NothingElseIsRead }
{}

/// A text has one bad line at most, and with one it is that of no book.
pub fn bad_line_is_first()
    ensures { BadLineIsFirst }
{}
