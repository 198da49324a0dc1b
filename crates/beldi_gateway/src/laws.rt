// Laws of an exchange.
ghost use Rattle.beldi_gateway.specs.GatewayLaws.{BytesComeToOne, HasOneAnswer, PathsHaveForms, QuestionsAreWritten};

use crate::desk::Desk;

/// A path is for an endpoint just where it is UTF-8 and has the endpoint's form: `/call/` with a function and a ticket for a call.
pub fn paths_have_forms()
    ensures { PathsHaveForms }
{}

/// A request asks a question just where its path and its body are of the question's text: a call's path has the function's name and
/// the ticket in decimal, with no zero in front.
pub fn questions_are_written()
    ensures { QuestionsAreWritten }
{}

/// The same bytes come to one question for the desk, or to one refusal.
pub fn bytes_come_to_one()
    ensures { BytesComeToOne }
{}

/// Where the same bytes are taken, and the desk stands alike, the response is the same refusal, or the desk was asked the same question:
/// so a desk that says one thing to a question gives one response.
pub fn an_exchange_has_one_answer<D: Desk>()
    ensures { HasOneAnswer D.funcs D.keeps }
{}
