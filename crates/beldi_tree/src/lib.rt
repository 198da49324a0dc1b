//! The tree of a deployment: its functions, their tables, statements and expressions, and the values of the expressions.
//! It stands on `beldi_value`. Its definitions: `specs/Term` and `specs/StatementCommand` (what an expression and a statement stand
//! for, by `specs/Expr` and `specs/Statement`), `specs/Names` (what names mean), `specs/Evaluate` (the value of an expression
//! or its fault, by recursion on the expression) and `specs/OperatorSteps` (the same along a chain of operators).
//!
//! Proved:
//! - `evaluate` gives the value of an expression, or its first fault: the definition by recursion on the syntax, with
//!   every operator, its faults in the order of evaluation, and the limits of results (`Evaluates (value_at ..)`);
//!   `key_at` gives a cell's key, a text of at most 256 bytes.
//! - `Funcs::place` and `TableHeads::place` give the first place of a name (`func_place`, `table_place`),
//!   and `place_of` the same of a name in a statement, which is not searched where `find_names` found it;
//!   `Deployment::func_at` the function of a number (`func_at`), and `write_func` its name or, where there is none of
//!   it, the number (`ok`, `err`).
//!
//! Files:
//! - Code (`src/`): `deployment` functions, statements and expressions, and what names mean; `name` a name in a statement,
//!   with the place where it was found; `find` finds them, once; `block` statements one after another; `parts` the parts of
//!   expressions, and chains of operators; `evaluation` the value of an expression; `operators` what each makes of values;
//!   `cow` a value that is lent or made; `fault`; `variables`, and `many` those beyond the first ones.
//! - Further definitions (`specs/`): `DistinctNames` things of which no two have one name; `Bindings` names and their values; `TreeFalls`
//!   each part of an expression is smaller than the expression, and each part of a statement than the statement; `CowValue` the
//!   value of an expression, lent or made.
//! - Lemmas (`proofs/`): `Evaluated` an evaluation part by part; `Lookups` entries in front of a map; `Copies`; `Aparts`.
#![tactic(auto)]

mod block;
mod cow;
mod deployment;
mod evaluation;
mod fault;
mod find;
mod many;
mod name;
mod operators;
mod parts;
mod variables;

pub use block::Block;
pub use deployment::{Deployment, Expr, Form, Func, Funcs, Op, Step, Stmt, TableHead, TableHeads};
pub use evaluation::{evaluate, key_at};
pub use fault::EvalErr;
pub use name::Name;
pub use operators::truth;
pub use parts::{Chain, Exprs, Members};
pub use variables::Variables;
