// How the effect of an instance is entered in a book, and whether it is carried out.
ghost use Rattle.std.specs.Prelude.{◌≡◌, is_none};
ghost use Rattle.beldi_plain.specs.Plain.{kind_of as kind_of_effect};
ghost use Rattle.beldi_executor.specs.Answers.{bar_as, bar_made};

use beldi_lang::Effect;
use beldi_plain::Kind;
use beldi_value::IntentId;

/// How an effect is entered in a book.
pub fn kind_of(id: &IntentId, effect: &Effect) -> Kind
    ensures { result ≡ kind_of_effect id.now effect.now }
{
    match effect {
        Effect::Read { .. } => Kind::Read,
        Effect::Write { .. }
        | Effect::CondWrite { .. }
        | Effect::Lock { .. }
        | Effect::Unlock { .. }
        | Effect::Return(_) => Kind::Change,
        Effect::Call { .. } | Effect::Async { .. } if id.has_callees() => Kind::Change,
        Effect::Call { .. } | Effect::Async { .. } => Kind::Unbuilt,
        Effect::Begin | Effect::End { .. } | Effect::Abort => Kind::Inside,
    }
}

/// Whether an effect of this kind is carried out.
pub fn is_made(kind: Kind) -> bool
    ensures { result ≡ is_none (bar_made kind) }
{
    match kind {
        Kind::Read | Kind::Change => true,
        Kind::Inside | Kind::Unbuilt => false,
    }
}

/// Whether it is entered as a read, or else as a change, as `reads` says.
pub fn is_entered(kind: Kind, reads: bool) -> bool
    ensures { result ≡ is_none (bar_as reads kind) }
{
    match kind {
        Kind::Read => reads,
        Kind::Change => !reads,
        Kind::Inside | Kind::Unbuilt => false,
    }
}
