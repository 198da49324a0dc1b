// What is told over the table's rows is so in the run of the book.
ghost use Rattle.beldi_kept.specs.KeptReplies.{KeptAreLegal, KeptFirstOutcomes, KeptInstances, KeptOutcomes, KeptReplies};

use crate::an_answer_is_of_kept_rows;

/// The book is legal.
pub fn books_are_legal_still()
    ensures { KeptAreLegal }
{}

/// An outcome that is told is that of the root in the run of the book.
pub fn replies_are_outcomes_still()
    ensures { KeptReplies }
{
    an_answer_is_of_kept_rows();
}

/// An outcome that a root gets by an event is told by it, unless the answer was lost.
pub fn first_outcomes_are_told_still()
    ensures { KeptFirstOutcomes }
{
    an_answer_is_of_kept_rows();
}

/// What was made goes on.
pub fn instances_go_on_still()
    ensures { KeptInstances }
{
    an_answer_is_of_kept_rows();
}

/// An outcome that a root has stays.
pub fn outcomes_stay_still()
    ensures { KeptOutcomes }
{
    an_answer_is_of_kept_rows();
}
