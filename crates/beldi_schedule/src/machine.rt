// Where a settling stands, and where it goes.
ghost use Rattle.std.specs.Prelude.{◌≡◌, ◌+◌, ◌<◌, ◌≤◌, ◌++◌, ◌∷◌, [], IfOk, OnOk};
ghost use Rattle.beldi_schedule.specs.Settle.{HasTurns, away, begun, counted, counts, end_of, ends_round, first_at, go_on, on_ic_reply, is_empty, is_turned_away, is_waiting, parked, round_over, strode, on_turn_reply, unparked};
ghost use Rattle.beldi_schedule.specs.declared.machine.Standing.TheVariants.{Working};

use beldi_step::EventReply;
use std::alloc::{AllocError, Global};
use std::marker::Model;

/// Runs that wait, each with what its last turn was answered.
#[derive(Drop)]
pub struct Waits {
    runs: Vec<(u64, EventReply)>,
}

impl Model for Waits {
    ghost use Rattle.std.specs.Prelude.{ℕ, List};
    ghost use Rattle.std.specs.Coded.{codes, coded_ℕ};
    ghost use Rattle.beldi_step.specs.contracts.event.EventReply as seen;
    ghost use Rattle.beldi_step.specs.declared.event.EventReply.{EventReply};

    ghost Value = { List (ℕ × EventReply) };

    ghost coded = { Prim.hlevel (codes, coded_ℕ, seen.the_row.coded) };

    ghost view = { λ a. a.runs.items };
}

/// Where a settling stands.
#[derive(Drop)]
pub struct At {
    /// How many turns were counted.
    pub turns: u64,
    /// The live runs up to this number wait.
    pub past: u64,
    /// Those that wait.
    pub waiting: Waits,
    /// A turn was counted since they were all given turns.
    pub moved: bool,
    /// The intent collector goes round; then, whether it started a run.
    pub round: Option<bool>,
}

/// How a settling ends, with the turns that were counted.
#[derive(Drop)]
pub enum Settled {
    /// No run is live.
    All(u64),
    /// The budget is used up.
    Unsettled(u64),
    /// An event was answered so.
    Spent(u64),
    /// An event was answered so.
    Shut(u64),
    /// All live runs wait.
    Stuck { turns: u64, waiting: Waits },
}

/// A settling goes on, or is over.
#[derive(Drop)]
pub enum Standing {
    Working(At),
    Over(Settled),
}

/// What a settling does next.
#[derive(Drop)]
pub enum Next {
    /// It gives a run a turn.
    Turn(At, u64),
    /// It gives the intent collector one.
    Collect(At),
    /// It sets the intent collector before all rows.
    Reset(At),
}

impl Waits {
    fn new(alloc: Global) -> Waits
        ensures { result ≡ [] }
    {
        Waits {
            runs: Vec::new(alloc),
        }
    }

    /// No run waits.
    pub fn is_empty(&self) -> bool
        ensures { result ≡ is_empty self.now }
    {
        self.runs.is_empty()
    }

    /// The runs that wait, in the order of their numbers, each with its last answer.
    pub fn as_slice(&self) -> &[(u64, EventReply)]
        ensures { result.now ≡ self.entry.now }
    {
        self.runs.as_slice()
    }

    fn push(&mut self, run: u64, seen: EventReply) -> Result<(), AllocError>
        ensures { OnOk result (self.new ≡ self.old ++ (run, seen) ∷ []) }
    {
        match self.runs.push((run, seen)) {
            Ok(()) => Ok(()),
            Err(_) => Err(AllocError),
        }
    }

    fn cleared(mut self) -> Waits
        ensures { result ≡ [] }
    {
        self.runs.clear();
        self
    }
}

/// Where a settling begins.
pub fn first_at(alloc: Global) -> At
    ensures { result ≡ first_at }
{
    At {
        turns: 0,
        past: 0,
        waiting: Waits::new(alloc),
        moved: false,
        round: None,
    }
}

/// It is over where the budget is used up.
pub fn go_on(budget: u64, at: At) -> Standing
    ensures next { result ≡ go_on budget at }
    ensures turns { HasTurns budget result }
{
    if budget <= at.turns {
        Standing::Over(Settled::Unsettled(at.turns))
    } else {
        Standing::Working(at)
    }
}

/// No run is taken to wait.
pub fn unparked(at: At) -> At
    ensures { result ≡ unparked at }
{
    At {
        turns: at.turns,
        past: 0,
        waiting: at.waiting.cleared(),
        moved: false,
        round: at.round,
    }
}

/// The intent collector stands before all rows, and goes round.
pub fn begun(at: At) -> At
    ensures { result ≡ begun at }
{
    At {
        round: Some(false),
        ..at
    }
}

// The run stays where it stands.
fn is_waiting(seen: &EventReply) -> bool
    ensures { result ≡ is_waiting seen.now }
{
    match seen {
        EventReply::Held(_)
        | EventReply::NotYet(_)
        | EventReply::Full { .. }
        | EventReply::Worn
        | EventReply::Crowded => true,
        _ => false,
    }
}

/// A run was given so many turns, each of which is counted.
pub fn strode(budget: u64, at: At, turns: u64) -> Standing
    requires { at.turns + turns ≤ budget }
    ensures next { result ≡ go_on budget (strode at turns) }
    ensures turns { HasTurns budget result }
{
    go_on(
        budget,
        At {
            turns: at.turns + turns,
            moved: true,
            ..at
        },
    )
}

fn counted(budget: u64, at: At) -> Standing
    requires { at.turns < budget }
    ensures { result ≡ counted budget at }
{
    strode(budget, at, 1)
}

fn parked(mut at: At, run: u64, seen: EventReply) -> Result<Standing, AllocError>
    ensures { IfOk result (λ s. s ≡ Working (parked at run seen)) }
{
    match at.waiting.push(run, seen) {
        Ok(()) => {
            at.past = run;
            Ok(Standing::Working(at))
        }
        Err(why) => Err(why),
    }
}

// The host takes no event, or none but a halt.
fn is_turned_away(seen: &EventReply) -> bool
    ensures { result ≡ is_turned_away seen.now }
{
    match seen {
        EventReply::Spent | EventReply::Shut => true,
        _ => false,
    }
}

fn away(turns: u64, seen: &EventReply) -> Settled
    ensures { result ≡ away turns seen.now }
{
    match seen {
        EventReply::Shut => Settled::Shut(turns),
        _ => Settled::Spent(turns),
    }
}

/// A run was given a turn: it is counted, unless the run waits.
pub fn on_turn_reply(
    budget: u64,
    at: At,
    run: u64,
    seen: EventReply,
) -> Result<Standing, AllocError>
    requires { at.turns < budget }
    ensures heard { IfOk result (λ s. s ≡ on_turn_reply budget at run seen) }
    ensures turns { IfOk result (λ s. HasTurns budget s) }
{
    if is_turned_away(&seen) {
        Ok(Standing::Over(away(at.turns, &seen)))
    } else if is_waiting(&seen) {
        parked(at, run, seen)
    } else {
        Ok(counted(budget, at))
    }
}

fn ends_round(seen: &EventReply) -> bool
    ensures { result ≡ ends_round seen.now }
{
    match seen {
        EventReply::Round | EventReply::Crowded => true,
        _ => false,
    }
}

fn counts(seen: &EventReply) -> bool
    ensures { result ≡ counts seen.now }
{
    match seen {
        EventReply::Launched { .. } | EventReply::Dropped => true,
        _ => false,
    }
}

// Nobody goes on.
fn end_of(at: At, live: Option<u64>) -> Settled
    ensures { result ≡ end_of at live }
{
    match live {
        None => Settled::All(at.turns),
        Some(_) => Settled::Stuck {
            turns: at.turns,
            waiting: at.waiting,
        },
    }
}

// The intent collector has gone round.
fn round_over(at: At, live: Option<u64>) -> Standing
    ensures { result ≡ round_over live at at.round }
{
    match at.round {
        Some(true) => Standing::Working(At { round: None, ..at }),
        _ => Standing::Over(end_of(at, live)),
    }
}

/// The intent collector was given a turn; `live` is the least live run after it.
pub fn on_ic_reply(budget: u64, at: At, seen: &EventReply, live: Option<u64>) -> Standing
    requires { at.turns < budget }
    ensures heard { result ≡ on_ic_reply budget live at seen.now }
    ensures turns { HasTurns budget result }
{
    if is_turned_away(seen) {
        Standing::Over(away(at.turns, seen))
    } else if ends_round(seen) {
        round_over(at, live)
    } else if counts(seen) {
        counted(
            budget,
            At {
                round: Some(true),
                ..at
            },
        )
    } else {
        Standing::Working(at)
    }
}
