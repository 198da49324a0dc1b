// What every run of transfers keeps.
ghost use Rattle.beldi_bank.specs.BankLaws.{TransfersKeepTheSum};

/// In the run of a book whose roots are transfers each item is an account of the bank and a whole number of 64 bits, and together
/// they are a hundred times as many as there are items.
pub fn transfers_keep_the_sum()
    ensures { TransfersKeepTheSum }
{}
