// What the table's rows tell of the run of the book.
ghost use Rattle.beldi_kept.specs.StandsLess.{KeptAnswers, KeptListing, KeptStand, StandsLater};

/// The table's rows stand for the run of the book; but of a transaction whose decision is absent, and of its shadows, they tell only where its
/// owner's row is there, and its finish was not old when somebody went last.
pub fn rows_that_are_left_stand()
    ensures { KeptStand }
{}

/// Their listing is that of the run of the book.
pub fn rows_that_are_left_list_the_run()
    ensures { KeptListing }
{}

/// Of an intent whose row is there, and whose finish was not old then, each answer is the one that the table's rows hold; of one that was called
/// in a transaction, where this is so of the owner too.
pub fn fresh_intents_have_one_answer()
    ensures { KeptAnswers }
{}

/// What rows tell by a moment they tell by each later one.
pub fn rows_stand_by_later_moments()
    ensures { StandsLater }
{}
