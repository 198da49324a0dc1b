// What a step leaves for the machines that are kept.
use beldi_lang::Answer;
use beldi_value::IntentId;

#[derive(Drop)]
pub enum Next {
    /// The instance has this answer.
    Answered(Answer),
    /// It stands where it stood.
    Stays,
    /// It has ended.
    Ended,
    /// It has ended, and who waits for it has this answer.
    Tells(IntentId, Answer),
}
