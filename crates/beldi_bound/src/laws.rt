// The laws of settling.
ghost use Rattle.beldi_bound.specs.Ends.{IntentsAreAsked, SettlesAsPromised};

use beldi_upkeep::no_first_turn_is_over;

/// A settling keeps its promises: its turns are at most the work, its ends say what is so, and with a budget above the work what can end
/// ends.
pub fn settlings_are_as_promised()
    ensures { SettlesAsPromised }
{
    no_first_turn_is_over();
}

/// Where the rows have the invariant, the answers that they hold for an intent are a list, so each intent has its cost.
pub fn intents_are_asked()
    ensures { IntentsAreAsked }
{}
