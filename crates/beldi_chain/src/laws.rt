// The law of chains.
ghost use Rattle.beldi_chain.specs.ChainLaws.{NotesStay};

/// No act but one that may remove its row, on whatever row, takes away the note that a place has in a chain: so a place that got a
/// lock has that note also after the lock was given back.
pub fn notes_of_a_chain_stay()
    ensures { NotesStay }
{}
