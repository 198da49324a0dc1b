// The statements of a body, from the place where it waited for an answer, up to the next effect.
ghost use Rattle.std.specs.Prelude.{◌≡◌, [], IfOk};
ghost use Rattle.beldi_tree.specs.Names.{func_at};
ghost use Rattle.beldi_lang.specs.BodyRuns.{From, run_body as run_body_of, inside_part, head, inner, choice, loop as loop_of, transact as transact_of, run as run_of};
ghost use Rattle.beldi_tree.specs.Expr.{term_of};
ghost use Rattle.beldi_tree.specs.Statement.{command_of};
ghost use Rattle.beldi_lang.specs.AnswersLeft.{told, block_in};

use crate::effect::Answer;
use crate::request::answered;
use crate::run::{close, left, turned};
use crate::scope::Scope;
use crate::state::{Exit, Frame, Part, Place, State, Went};
use beldi_tree::{Block, Deployment, Expr, Form, Stmt};
use std::alloc::{AllocError, Global};

impl Scope<'_> {
    // A statement, from the place where it waited for this answer.
    #[cycle(resume)]
    fn resume(
        self,
        stmt: &Stmt,
        place: Place,
        answer: Answer,
        state: &mut State,
    ) -> Result<Went, AllocError>
        ensures { IfOk result (λ w. told w state.new ≡ run_of self.entry.code.now self.entry.tables.now (command_of stmt.now) (From place answer) state.old []) }
    {
        match &stmt.form {
            Form::Transaction { block, aborted } => {
                self.resume_transaction(block, aborted, place, answer, state)
            }
            Form::If {
                test,
                block,
                otherwise,
            } => self.resume_choice(test, block, otherwise, place, answer, state),
            Form::Repeat { times, block } => {
                self.resume_loop(*times, block, place, answer, state)
            }
            _ => answered(self.alloc, stmt, answer, state),
        }
    }

    // The block, as this part of its statement, from the place in the statement of this number.
    #[cycle(resume)]
    fn resume_block(
        self,
        block: &Block,
        part: Part,
        index: usize,
        place: Place,
        answer: Answer,
        state: &mut State,
    ) -> Result<Went, AllocError>
        ensures { IfOk result (λ w. told w state.new ≡ inside_part part (block_in self.entry block.now index (From place answer) state.old [])) }
    {
        let stmts = block.as_slice();
        if index < stmts.len() {
            let went = self.resume(&stmts[index], place, answer, state)?;
            if let Some(went) = left(went, part, index)? {
                return Ok(went);
            }
            return self.run_block(block, part, index + 1, state);
        }
        drop(place);
        drop(answer);
        Ok(Went::Leaves(Exit::Completes))
    }

    #[cycle(resume)]
    fn resume_choice(
        self,
        test: &Expr,
        first: &Block,
        second: &Block,
        place: Place,
        answer: Answer,
        state: &mut State,
    ) -> Result<Went, AllocError>
        ensures { IfOk result (λ w. told w state.new ≡ choice (block_in self.entry first.now) (block_in self.entry second.now) (term_of test.now) (head (From place answer)) (inner (From place answer)) state.old []) }
    {
        let mut place = place;
        let frame = place.pop();
        match frame {
            Some(
                Frame::In {
                    part: Part::First,
                    index,
                },
            ) => {
                drop(frame);
                self.resume_block(first, Part::First, index, place, answer, state)
            }
            Some(
                Frame::In {
                    part: Part::Second,
                    index,
                },
            ) => {
                drop(frame);
                self.resume_block(second, Part::Second, index, place, answer, state)
            }
            _ => {
                drop(frame);
                drop(place);
                drop(answer);
                self.by_test(test, first, second, state)
            }
        }
    }

    #[cycle(resume)]
    fn resume_loop(
        self,
        times: u32,
        block: &Block,
        place: Place,
        answer: Answer,
        state: &mut State,
    ) -> Result<Went, AllocError>
        ensures { IfOk result (λ w. told w state.new ≡ loop_of (block_in self.entry block.now) times (head (From place answer)) (inner (From place answer)) state.old []) }
    {
        let mut place = place;
        let frame = place.pop();
        match frame {
            Some(
                Frame::In {
                    part: Part::Turn(left),
                    index,
                },
            ) => {
                drop(frame);
                let part = Part::Turn(left);
                let went = self.resume_block(block, part, index, place, answer, state)?;
                match turned(went) {
                    Some(went) => Ok(went),
                    None => self.turns(left, block, state),
                }
            }
            _ => {
                drop(frame);
                drop(place);
                drop(answer);
                self.turns(times, block, state)
            }
        }
    }

    #[cycle(resume)]
    fn resume_transaction(
        self,
        first: &Block,
        second: &Block,
        place: Place,
        answer: Answer,
        state: &mut State,
    ) -> Result<Went, AllocError>
        ensures { IfOk result (λ w. told w state.new ≡ transact_of (block_in self.entry first.now) (block_in self.entry second.now) (head (From place answer)) (inner (From place answer)) state.old []) }
    {
        let mut place = place;
        let frame = place.pop();
        match frame {
            None => {
                drop(frame);
                drop(place);
                drop(answer);
                self.open(first, state)
            }
            Some(Frame::Ending(exit)) => {
                drop(place);
                drop(answer);
                self.end(second, exit, state)
            }
            Some(Frame::In { part, index }) => {
                drop(frame);
                match part {
                    Part::First => self.resume_block(first, part, index, place, answer, state),
                    Part::Second => self.resume_block(second, part, index, place, answer, state),
                    Part::Inside => close(
                        self.alloc,
                        self.resume_block(first, part, index, place, answer, state)?,
                    ),
                    Part::Turn(_) => {
                        drop(place);
                        drop(answer);
                        self.enter(first, state)
                    }
                }
            }
        }
    }
}

/// The statements of the function of this number, from the place where they waited for this answer.
pub(crate) fn resume_body(
    alloc: Global,
    code: &Deployment,
    func: u16,
    place: Place,
    answer: Answer,
    state: &mut State,
) -> Result<Went, AllocError>
    ensures { IfOk result (λ w. told w state.new ≡ run_body_of code.now (func_at code.now func) (From place answer) state.old []) }
{
    match code.func_at(func) {
        Some(func) => {
            let scope = Scope::new(alloc, code, &func.tables);
            let mut place = place;
            let frame = place.pop();
            match frame {
                Some(Frame::In { part: _, index }) => {
                    drop(frame);
                    scope.resume_block(&func.body, Part::First, index, place, answer, state)
                }
                _ => {
                    drop(frame);
                    drop(place);
                    drop(answer);
                    scope.run_block(&func.body, Part::First, 0, state)
                }
            }
        }
        None => {
            drop(place);
            drop(answer);
            Ok(Went::Leaves(Exit::Completes))
        }
    }
}
