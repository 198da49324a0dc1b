// A transaction of an instance as one step, with all that it calls. What it sets is set in place, and whom it calls is made there; both are
// taken back where they are not to stay.
ghost use Rattle.std.specs.Prelude.{◌≡◌, ◌≤◌, ◌<◌, ◌&&◌, ◌+◌, ℕ, length, None, Some, true, not, is_some, IfOk, OnErr, option_copied, ◌++◌, ◌∷◌, [], false};
ghost use Rattle.std.specs.FinMap as map;
ghost use Rattle.beldi_value.specs.Id.{child_of, has_callees};
ghost use Rattle.beldi_value.specs.declared.place.TxId.{TxId};
ghost use Rattle.beldi_lang.specs.Wants.{wants_answer};
ghost use Rattle.beldi_lang.specs.Machine.{begun};
ghost use Rattle.beldi_lang.specs.Callee.{answer_of};
ghost use Rattle.beldi_executor.specs.declared.draft.Draft.{Draft};
ghost use Rattle.beldi_lang.specs.declared.effect.Effect.TheVariants as effect;
ghost use Rattle.beldi_lang.specs.declared.effect.Answer.TheVariants as answer;
ghost use Rattle.beldi_executor.specs.Answers.{IsReady};
ghost use Rattle.beldi_plain.specs.Plain.{Instance, PlainState, with_instance};
ghost use Rattle.beldi_plain.specs.Transaction.{enough, aborted, new_member, is_owner as is_owner_of, dies_at, fault_by, falls_by, ends_on, abort_on, is_holder as is_holder_of};
ghost use Rattle.beldi_executor.specs.Undo.{AllHaveRoom, all_back};
ghost use Rattle.beldi_executor.specs.TransactionInPlace.{IsDraft, GoesOn, Gave, Moved, WentOn, IsCallee, Left, Comes, CommittedSo, AbortedSo, most, visible, going, after, all_gone, can_move as can_move_by, is_stop as is_stop_at, ends as ends_by, over_at, no_end as no_end_of};

use crate::draft::{Actor, Draft, Members};
use crate::instance::Instance;
use crate::plain::{Bar, PlainErr};
use crate::state::State;
use crate::undo::Undo;
use beldi_lang::{Answer, Deployment, Effect, Machine};
use beldi_value::{Boxed, Caller, Cause, IntentId, Outcome, Place, TxId, Value, older, or_drop};
use std::alloc::{AllocError, Global};

// Whether the active one stands where an abort stops.
fn is_stop(stop: Option<&Place>, active: &Actor) -> bool
    ensures { result ≡ is_stop_at (option_copied stop.entry) active.now }
{
    match stop {
        Some(place) => place.intent.cmp(&active.id).is_eq() && place.step == active.machine.steps(),
        None => false,
    }
}

impl State {
    /// The transaction of an instance that stands at its begin, up to its end with commit.
    pub fn commit_tx(
        &mut self,
        alloc: Global,
        code: &Deployment,
        id: IntentId,
        machine: Machine,
    ) -> Result<Actor, PlainErr>
        requires { IsReady code.now self.old id machine × (machine.effect ≡ effect.Begin) }
        ensures { (q : Instance) → map.get self.old.made id ≡ Some q → CommittedSo code.now self.old id q self.new result }
    {
        let active = self.actor(id, machine);
        let mut draft = match Draft::new(alloc, &active) {
            Ok(draft) => draft,
            Err(_) => {
                drop(active);
                return Err(PlainErr::OutOfMemory);
            }
        };
        let active = match self.commit(alloc, code, active, &mut draft) {
            Ok(active) => active,
            Err(why) => {
                self.reset(draft);
                return Err(why);
            }
        };
        self.keep(draft);
        Ok(active)
    }

    /// The transaction of an instance that stands at its begin, up to the place where it aborts.
    pub fn abort_tx(
        &mut self,
        alloc: Global,
        code: &Deployment,
        id: IntentId,
        machine: Machine,
        place: &Place,
        holder: Option<&IntentId>,
    ) -> Result<Actor, PlainErr>
        requires { IsReady code.now self.old id machine × (machine.effect ≡ effect.Begin) }
        ensures { (q : Instance) → map.get self.old.made id ≡ Some q → AbortedSo code.now self.old id q place.now (option_copied holder.entry) self.new result }
    {
        let older = self.is_holder(&id, holder);
        let active = self.actor(id, machine);
        let mut draft = match Draft::new(alloc, &active) {
            Ok(draft) => draft,
            Err(_) => {
                drop(active);
                return Err(PlainErr::OutOfMemory);
            }
        };
        let active = match self.abort(alloc, code, active, place, holder, &mut draft) {
            Ok(active) => active,
            Err(why) => {
                self.reset(draft);
                return Err(why);
            }
        };
        if !older {
            drop(active);
            self.reset(draft);
            return Err(PlainErr::NotEnabled(Bar::NotOlder));
        }
        let Draft { undo, members, .. } = draft;
        self.undo(undo, members);
        Ok(active)
    }

    // Whether the holder, if any, was made and is older.
    fn is_holder(&self, id: &IntentId, holder: Option<&IntentId>) -> bool
        ensures { result ≡ is_holder_of self.now id.now (option_copied holder.entry) }
    {
        match holder {
            Some(holder) => self.made.get(holder).is_some() && older(holder, id),
            None => true,
        }
    }

    // Who goes on with this machine.
    fn actor(&self, id: IntentId, machine: Machine) -> Actor
        ensures { (q : Instance) → map.get self.now.made id ≡ Some q → result ≡ record { id = id; func = q.func; machine = machine } }
    {
        let func = self.func_of(&id);
        Actor { id, func, machine }
    }

    // The function of an instance.
    fn func_of(&self, id: &IntentId) -> u16
        ensures { (q : Instance) → map.get self.now.made id.now ≡ Some q → result ≡ q.func }
    {
        match self.made.get(id) {
            Some(instance) => instance.func(),
            None => 0,
        }
    }

    // What was set stays.
    fn keep(&mut self, draft: Draft)
        ensures { self.new ≡ visible self.old draft.undo }
    {
        let Draft { undo, .. } = draft;
        undo.keep(&mut self.items);
    }

    // What was set is put back, and those that were made are there no more.
    fn undo(&mut self, undo: Undo, members: Members)
        requires { AllHaveRoom self.old.items undo }
        ensures { self.new ≡ record { items = all_back self.old.items undo; made = all_gone self.old.made members } }
    {
        undo.restore(&mut self.items);
        members.forget(&mut self.made);
    }

    // Everything is as it was before the transaction.
    fn reset(&mut self, draft: Draft)
        requires { AllHaveRoom self.old.items draft.undo }
        ensures { (t : TxId) (p : PlainState) (q : Instance) → IsDraft t p q self.old draft → t.begin ≡ length q.answers → self.new ≡ p }
    {
        let Draft {
            tx,
            undo,
            members,
            ..
        } = draft;
        self.undo(undo, members);
        self.made.cut(&tx.intent, tx.begin);
    }

    // From the begin to the end with commit.
    fn commit(
        &mut self,
        alloc: Global,
        code: &Deployment,
        active: Actor,
        draft: &mut Draft,
    ) -> Result<Actor, PlainErr>
        ensures { (t : TxId) (p : PlainState) (q x : Instance) → GoesOn code.now t p q self.old draft.old active → active.machine.effect ≡ effect.Begin → map.get self.old.made active.id ≡ Some x → Comes code.now t p q draft.new (ends_on code.now enough t true (after self.old draft.old active x answer.Done)) (no_end_of true) self.new result }
    {
        let active = match self.go_on(alloc, code, active, Answer::Done, None, draft) {
            Ok(active) => active,
            Err(_) => return Err(PlainErr::OutOfMemory),
        };
        self.finish(alloc, code, active, true, draft)
    }

    // From the begin to the end without commit, by way of this place.
    fn abort(
        &mut self,
        alloc: Global,
        code: &Deployment,
        active: Actor,
        place: &Place,
        holder: Option<&IntentId>,
        draft: &mut Draft,
    ) -> Result<Actor, PlainErr>
        ensures { (t : TxId) (p : PlainState) (q x : Instance) → GoesOn code.now t p q self.old draft.old active → active.machine.effect ≡ effect.Begin → map.get self.old.made active.id ≡ Some x → Comes code.now t p q draft.new (abort_on code.now enough t place.now (option_copied holder.entry) (after self.old draft.old active x answer.Done)) (no_end_of false) self.new result }
    {
        let active = match self.go_on(alloc, code, active, Answer::Done, Some(place), draft) {
            Ok(active) => active,
            Err(_) => return Err(PlainErr::OutOfMemory),
        };
        if !is_stop(Some(place), &active) {
            drop(active);
            return Err(PlainErr::NotEnabled(Bar::NoPlace));
        }
        self.fall(alloc, code, active, holder, draft)
    }

    // At its place: the effect is aborted, and the transaction goes on to its end; or a fault led there.
    fn fall(
        &mut self,
        alloc: Global,
        code: &Deployment,
        active: Actor,
        holder: Option<&IntentId>,
        draft: &mut Draft,
    ) -> Result<Actor, PlainErr>
        ensures { (t : TxId) (p : PlainState) (q x : Instance) (left : ℕ) → most ≤ left → GoesOn code.now t p q self.old draft.old active → map.get self.old.made active.id ≡ Some x → Comes code.now t p q draft.new (falls_by (ends_on code.now left t false) t (visible self.old draft.old.undo) active.id x (option_copied holder.entry) active.machine.effect) (no_end_of false) self.new result }
    {
        if !dies(active.machine.wants(), holder) {
            return self.fault(alloc, code, active, holder, draft);
        }
        let cause = match cause_of(alloc, &active, holder) {
            Ok(cause) => cause,
            Err(_) => {
                drop(active);
                return Err(PlainErr::OutOfMemory);
            }
        };
        let active = match self.go_on(alloc, code, active, Answer::Aborted(cause), None, draft) {
            Ok(active) => active,
            Err(_) => return Err(PlainErr::OutOfMemory),
        };
        self.finish(alloc, code, active, false, draft)
    }

    // The end without commit that a fault led to.
    fn fault(
        &mut self,
        alloc: Global,
        code: &Deployment,
        active: Actor,
        holder: Option<&IntentId>,
        draft: &Draft,
    ) -> Result<Actor, PlainErr>
        ensures { (t : TxId) (p : PlainState) (q x : Instance) → GoesOn code.now t p q self.old draft.now active → map.get self.old.made active.id ≡ Some x → dies_at (option_copied holder.entry) active.machine.effect ≡ false → Comes code.now t p q draft.now (fault_by t (visible self.old draft.now.undo) active.id x (option_copied holder.entry) active.machine.effect) (no_end_of false) self.new result }
    {
        match holder {
            Some(_) => {
                drop(active);
                Err(PlainErr::NotEnabled(Bar::NoPlace))
            }
            None => self.finish(alloc, code, active, false, draft),
        }
    }

    // The owner's end, with commit or without, is done.
    fn finish(
        &mut self,
        alloc: Global,
        code: &Deployment,
        active: Actor,
        commit: bool,
        draft: &Draft,
    ) -> Result<Actor, PlainErr>
        ensures { (t : TxId) (p : PlainState) (q x : Instance) → GoesOn code.now t p q self.old draft.now active → map.get self.old.made active.id ≡ Some x → Comes code.now t p q draft.now (over_at t commit (visible self.old draft.now.undo) active.id x active.machine.effect) (no_end_of commit) self.new result }
    {
        if !is_over(draft, &active, commit) {
            drop(active);
            return Err(PlainErr::NotEnabled(no_end(commit)));
        }
        let active = self.give(alloc, code, active, Answer::Done)?;
        Ok(active)
    }

    // The active one is answered, and the transaction goes on as far as it does.
    fn go_on(
        &mut self,
        alloc: Global,
        code: &Deployment,
        active: Actor,
        answer: Answer,
        stop: Option<&Place>,
        draft: &mut Draft,
    ) -> Result<Actor, AllocError>
        ensures { (t : TxId) (p : PlainState) (q x : Instance) (start : ℕ) → most ≤ start → GoesOn code.now t p q self.old draft.old active → wants_answer active.machine.effect ≡ true → map.get self.old.made active.id ≡ Some x → WentOn code.now t p q (option_copied stop.entry) (after self.old draft.old active x answer) start self.new draft.new result }
    {
        let active = match self.give(alloc, code, active, answer) {
            Ok(active) => active,
            Err(error) => return Err(error),
        };
        self.go(alloc, code, active, stop, draft)
    }

    // Move after move, up to where it stops or no move is left. So many moves leave answers that no memory holds.
    fn go(
        &mut self,
        alloc: Global,
        code: &Deployment,
        active: Actor,
        stop: Option<&Place>,
        draft: &mut Draft,
    ) -> Result<Actor, AllocError>
        ensures { (t : TxId) (p : PlainState) (q : Instance) (start : ℕ) → most ≤ start → GoesOn code.now t p q self.old draft.old active → WentOn code.now t p q (option_copied stop.entry) (going self.old draft.old active) start self.new draft.new result }
    {
        let mut active = active;
        for turn in 0..u64::MAX {
            if is_stop(stop, &active) {
                return Ok(active);
            }
            let moves = match self.can_move(alloc, &active, draft) {
                Ok(moves) => moves,
                Err(error) => {
                    drop(active);
                    return Err(error);
                }
            };
            if !moves {
                return Ok(active);
            }
            active = match self.make_move(alloc, code, active, draft) {
                Ok(next) => next,
                Err(error) => return Err(error),
            };
        }
        drop(active);
        Err(AllocError)
    }

    // Whether the one at the active has a move.
    fn can_move(&self, alloc: Global, active: &Actor, draft: &Draft) -> Result<bool, AllocError>
        ensures { IfOk result (λ b. b ≡ can_move_by draft.now.tx self.now.made active.now.id active.now.machine.steps active.now.machine.effect) }
    {
        match active.machine.wants() {
            Effect::Read { .. } | Effect::Write { .. } | Effect::CondWrite { .. } => Ok(true),
            Effect::Call { .. } => self.can_call(alloc, active),
            Effect::Return(_) => Ok(!is_owner(draft, active)),
            _ => Ok(false),
        }
    }

    // Whether what it calls is to be made.
    fn can_call(&self, alloc: Global, active: &Actor) -> Result<bool, AllocError>
        ensures { IfOk result (λ b. b ≡ (has_callees active.now.id && not (is_some (map.get self.now.made (child_of active.now.id active.now.machine.steps))))) }
    {
        if !active.id.has_callees() {
            return Ok(false);
        }
        Ok(
            !self
                .made
                .has_callee(alloc, &active.id, active.machine.steps())?,
        )
    }

    // A move of the one at the active, and who is at the active after it.
    fn make_move(
        &mut self,
        alloc: Global,
        code: &Deployment,
        active: Actor,
        draft: &mut Draft,
    ) -> Result<Actor, AllocError>
        requires { can_move_by draft.old.tx self.old.made active.id active.machine.steps active.machine.effect ≡ true }
        ensures { (t : TxId) (p : PlainState) (q : Instance) → GoesOn code.now t p q self.old draft.old active → Moved code.now t p q self.old draft.old active self.new draft.new result }
    {
        match active.machine.wants() {
            Effect::Call { func, args } => {
                match self.enter(alloc, code, &active, *func, args, draft) {
                    Ok(callee) => wait(active, callee, draft),
                    Err(error) => {
                        drop(active);
                        Err(error)
                    }
                }
            }
            Effect::Return(outcome) => match draft.waiting.pop() {
                Some(caller) => {
                    let left = self.leave(alloc, code, &active.id, outcome, caller);
                    drop(active);
                    left
                }
                None => Ok(active),
            },
            effect => match draft.undo.make(alloc, &mut self.items, active.func, effect) {
                Ok(Some(answer)) => self.give(alloc, code, active, answer),
                Ok(None) => Ok(active),
                Err(error) => {
                    drop(active);
                    Err(error)
                }
            },
        }
    }

    // The callee of the one at the active is made, within the transaction.
    fn enter(
        &mut self,
        alloc: Global,
        code: &Deployment,
        active: &Actor,
        func: u16,
        args: &Value,
        draft: &mut Draft,
    ) -> Result<Actor, AllocError>
        requires { length active.now.id.hops < 63 }
        ensures ok { IfOk result (λ b. (self.new ≡ with_instance self.old (child_of active.now.id active.now.machine.steps) (new_member draft.old.tx func args.now (record { place = record { intent = active.now.id; step = active.now.machine.steps }; func = active.now.func; waits = true }))) × (draft.new ≡ record draft.old { members = draft.old.members ++ (child_of active.now.id active.now.machine.steps) ∷ [] }) × (b ≡ record { id = (child_of active.now.id active.now.machine.steps); func = func; machine = begun code.now func args.now true })) }
        ensures err { OnErr result ((self.new ≡ self.old) × (draft.new ≡ draft.old)) }
    {
        let member = member_of(alloc, active, func, args, &draft.tx)?;
        let id = or_drop!(active.id.child(alloc, active.machine.steps()); member);
        let machine = or_drop!(begin(alloc, code, func, args); member, id);
        or_drop!(draft.members.make(alloc, &mut self.made, &id, member); id, machine);
        Ok(Actor { id, func, machine })
    }

    // The callee of this id ends, and its caller is answered and goes on.
    fn leave(
        &mut self,
        alloc: Global,
        code: &Deployment,
        id: &IntentId,
        outcome: &Outcome,
        caller: Actor,
    ) -> Result<Actor, AllocError>
        ensures { (t : TxId) (p : PlainState) (q x : Instance) (h : Draft) → GoesOn code.now t p q self.old h caller → IsCallee self.old h.members id.now x caller → Left code.now t p q self.old h id.now x outcome.now caller self.new result }
    {
        let (ended, answer) = match told(alloc, outcome) {
            Ok(both) => both,
            Err(error) => {
                drop(caller);
                return Err(error);
            }
        };
        let caller = match self.give(alloc, code, caller, answer) {
            Ok(caller) => caller,
            Err(error) => {
                drop(ended);
                return Err(error);
            }
        };
        self.made.end(id, ended);
        Ok(caller)
    }

    // The active one is answered, and its machine goes on.
    fn give(
        &mut self,
        alloc: Global,
        code: &Deployment,
        active: Actor,
        answer: Answer,
    ) -> Result<Actor, AllocError>
        ensures { (t : TxId) (p : PlainState) (q : Instance) (h : Draft) → GoesOn code.now t p q self.old h active → wants_answer active.machine.effect ≡ true → Gave code.now t p q self.old h active answer self.new result }
    {
        match self.made.answer_with(alloc, &active.id, &answer) {
            Ok(()) => (),
            Err(error) => {
                drop(active);
                drop(answer);
                return Err(error);
            }
        }
        active.resume(alloc, code, answer)
    }
}

// The instance that the one at the active calls, within this transaction.
fn member_of(
    alloc: Global,
    active: &Actor,
    func: u16,
    args: &Value,
    tx: &TxId,
) -> Result<Instance, AllocError>
    ensures { IfOk result (λ i. i ≡ new_member tx.now func args.now (record { place = record { intent = active.now.id; step = active.now.machine.steps }; func = active.now.func; waits = true })) }
{
    let caller = Caller {
        place: place_of(alloc, active)?,
        func: active.func,
        waits: true,
    };
    let within = TxId {
        intent: or_drop!(tx.intent.copy(alloc); caller),
        begin: tx.begin,
        func: tx.func,
    };
    let args = or_drop!(args.copy(alloc); caller, within);
    Ok(Instance::member(alloc, func, args, caller, within))
}

// The machine of a function that is called within a transaction.
fn begin(alloc: Global, code: &Deployment, func: u16, args: &Value) -> Result<Machine, AllocError>
    ensures { IfOk result (λ m. m ≡ begun code.now func args.now true) }
{
    let args = args.copy(alloc)?;
    Machine::new(alloc, code, func, args, true)
}

// Where the one at the active stands.
fn place_of(alloc: Global, active: &Actor) -> Result<Place, AllocError>
    ensures { IfOk result (λ p. p ≡ record { intent = active.now.id; step = active.now.machine.steps }) }
{
    Ok(Place {
        intent: active.id.copy(alloc)?,
        step: active.machine.steps(),
    })
}

// The caller waits, and its callee is at the active.
fn wait(caller: Actor, callee: Actor, draft: &mut Draft) -> Result<Actor, AllocError>
    ensures ok { IfOk result (λ b. (b ≡ callee) × (draft.new ≡ record draft.old { waiting = caller ∷ draft.old.waiting })) }
    ensures err { OnErr result (draft.new ≡ draft.old) }
{
    match draft.waiting.push(caller) {
        Ok(()) => Ok(callee),
        Err(error) => {
            drop(callee);
            Err(error)
        }
    }
}

// An outcome, and the answer to its call.
fn told(alloc: Global, outcome: &Outcome) -> Result<(Outcome, Answer), AllocError>
    ensures { IfOk result (λ b. (b.0 ≡ outcome.now) × (b.1 ≡ answer_of outcome.now)) }
{
    let ended = outcome.copy(alloc)?;
    let given = or_drop!(outcome.copy(alloc); ended);
    Ok((ended, Answer::of_callee(given)))
}

fn is_owner(draft: &Draft, active: &Actor) -> bool
    ensures { result ≡ is_owner_of draft.now.tx active.now.id }
{
    draft.tx.intent.cmp(&active.id).is_eq()
}

// Whether it is the owner, and stands at its end with commit or without.
fn is_over(draft: &Draft, active: &Actor, commit: bool) -> bool
    ensures { result ≡ (is_owner_of draft.now.tx active.now.id && ends_by commit active.now.machine.effect) }
{
    is_owner(draft, active) && ends(active.machine.wants(), commit)
}

fn ends(effect: &Effect, commit: bool) -> bool
    ensures { result ≡ ends_by commit effect.now }
{
    match effect {
        Effect::End { commit: commits } => *commits == commit,
        _ => false,
    }
}

fn no_end(commit: bool) -> Bar
    ensures { result ≡ no_end_of commit }
{
    if commit { Bar::NoEnd } else { Bar::NoPlace }
}

// Whether an effect is aborted, by itself or by who holds its item.
fn dies(effect: &Effect, holder: Option<&IntentId>) -> bool
    ensures { result ≡ dies_at (option_copied holder.entry) effect.now }
{
    match holder {
        Some(_) => matches!(
            effect,
            Effect::Read { .. } | Effect::Write { .. } | Effect::CondWrite { .. }
        ),
        None => matches!(effect, Effect::Abort),
    }
}

// Why the one at the active is aborted.
fn cause_of(alloc: Global, active: &Actor, holder: Option<&IntentId>) -> Result<Cause, AllocError>
    ensures { IfOk result (λ c. c ≡ record { place = record { intent = active.now.id; step = active.now.machine.steps }; holder = option_copied holder.entry }) }
{
    let place = Boxed::new(alloc, place_of(alloc, active)?)?;
    let holder = or_drop!(copy_holder(alloc, holder); place);
    Ok(Cause { place, holder })
}

fn copy_holder(
    alloc: Global,
    holder: Option<&IntentId>,
) -> Result<Option<Boxed<IntentId>>, AllocError>
    ensures { IfOk result (λ o. o ≡ option_copied holder.entry) }
{
    match holder {
        Some(holder) => Ok(Some(Boxed::new(alloc, holder.copy(alloc)?)?)),
        None => Ok(None),
    }
}
