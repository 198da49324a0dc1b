// The laws of the intent collector.
ghost use Rattle.beldi_collect.specs.Cursor.{NextIntentIsTold, NoIntentIsJumped};

/// A turn tells of the row after the cursor: `Unended` an intent which has this body and has not ended, before which the cursor
/// stays, and whose key is kept; `Passed` any other row, past which it is set; `Round` that there is none. The rows are as before.
pub fn the_next_intent_is_told()
    ensures { NextIntentIsTold }
{}

/// Past a row the cursor is set before every intent that follows.
pub fn no_intent_is_jumped()
    ensures { NoIntentIsJumped }
{}
