// How an effect is entered in a book.

/// How an effect is entered in a book.
#[derive(Clone, Copy, Debug, PartialEq, Eq)]
pub enum Kind {
    Read,
    Change,
    /// It is part of a transaction, which is entered whole.
    Inside,
    /// It is not carried out: the id has 63 hops, and what it calls has none.
    Unbuilt,
}
