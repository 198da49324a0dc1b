// The law of the rows after a key.
ghost use Rattle.beldi_row.specs.Table.{NextRowIsLeast};

/// The row that `Table::next` gives is the one with the least greater key: no row has a key between. Where it gives none, no
/// row has a greater key.
pub fn next_row_is_least()
    ensures { NextRowIsLeast }
{}
