// What the listing of balanced items tells.
ghost use Rattle.beldi_bank_lines.specs.BankLines.{BalancedItemsAreListed};

/// The listing of balanced items has a line for each, and above a book, however it reads, the totals that are told are how many
/// lines there are and a hundred times as much, in 64 bits.
pub fn balanced_items_are_listed()
    ensures { BalancedItemsAreListed }
{}
