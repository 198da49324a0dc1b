// The grammar of statements. `depth` is how many levels of nesting a block or an expression in the phrase may open.
ghost use Rattle.std.specs.Prelude.{◌≡◌, length};
ghost use Rattle.beldi_tree.specs.Expr.{term_of};
ghost use Rattle.beldi_tree.specs.StatementCommand.{abort, break};
ghost use Rattle.beldi_tree.specs.Statement.{command_of};
ghost use Rattle.beldi_syntax.specs.Phrase.{Reads, ReadsAs};
ghost use Rattle.beldi_syntax.specs.Expressions.{part, expr_at};
ghost use Rattle.beldi_syntax.specs.Statements.{cell, relation, set_of, read_of, write_of, condition, condwrite_of, call_of, async_of, lock_of, unlock_of, return_of, word_of, otherwise, if_of, repeat_of, transaction_of, on_item, plain, stmt_of, stmt, stmts, braced, no_block, block_at};

use crate::operators::Level;
use crate::refusal::{SyntaxErr, What};
use crate::tokens::Tokens;
use beldi_tree::{Block, Expr, Form, Name, Stmt};
use beldi_value::{Rel, or_drop};
use std::alloc::Global;

impl Tokens {
    // This sign and an expression.
    fn value(&mut self, alloc: Global, depth: u32, sign: &str) -> Result<Expr, SyntaxErr>
        ensures { ReadsAs term_of (part (expr_at depth) sign.now self.old) result self.new }
    {
        self.take(sign)?;
        self.expr(alloc, depth)
    }

    // `NAME[expr]`
    fn cell(&mut self, alloc: Global, depth: u32) -> Result<(Name, Expr), SyntaxErr>
        ensures { ReadsAs (λ c. (c.0, term_of c.1)) (cell (expr_at depth) self.old) result self.new }
    {
        let table = Name::new(self.name()?);
        let key = or_drop!(self.value(alloc, depth, "["); table);
        or_drop!(self.take("]"); table, key);
        Ok((table, key))
    }

    // Passes over a relation.
    fn pass_relation(&mut self) -> Result<Rel, SyntaxErr>
        ensures { Reads (relation self.old) result self.new }
    {
        match self.relation() {
            Some(rel) => {
                self.pass();
                Ok(rel)
            }
            None => Err(self.refusal(What::Syntax)),
        }
    }

    fn set(&mut self, alloc: Global, depth: u32, line: u32) -> Result<Stmt, SyntaxErr>
        ensures { ReadsAs command_of (set_of (expr_at depth) line self.old) result self.new }
    {
        let name = self.name()?;
        let value = or_drop!(self.value(alloc, depth, "="); name);
        or_drop!(self.take(";"); name, value);
        Ok(Stmt {
            line,
            form: Form::Set { name, value },
        })
    }

    fn read(&mut self, alloc: Global, depth: u32, line: u32) -> Result<Stmt, SyntaxErr>
        ensures { ReadsAs command_of (read_of (expr_at depth) line self.old) result self.new }
    {
        let name = self.name()?;
        or_drop!(self.take("="); name);
        let (table, key) = or_drop!(self.cell(alloc, depth); name);
        or_drop!(self.take(";"); name, table, key);
        Ok(Stmt {
            line,
            form: Form::Read { name, table, key },
        })
    }

    fn write(&mut self, alloc: Global, depth: u32, line: u32) -> Result<Stmt, SyntaxErr>
        ensures { ReadsAs command_of (write_of (expr_at depth) line self.old) result self.new }
    {
        let (table, key) = self.cell(alloc, depth)?;
        let value = or_drop!(self.value(alloc, depth, "="); table, key);
        or_drop!(self.take(";"); table, key, value);
        Ok(Stmt {
            line,
            form: Form::Write { table, key, value },
        })
    }

    // `REL sum then expr;`
    fn condition(&mut self, alloc: Global, depth: u32) -> Result<(Rel, (Expr, Expr)), SyntaxErr>
        ensures { ReadsAs (λ w. (w.0, (term_of w.1.0, term_of w.1.1))) (condition (expr_at depth) self.old) result self.new }
    {
        let rel = self.pass_relation()?;
        let operand = self.chain(alloc, depth, Level::Sum)?;
        let value = or_drop!(self.value(alloc, depth, "then"); operand);
        or_drop!(self.take(";"); operand, value);
        Ok((rel, (operand, value)))
    }

    fn condwrite(&mut self, alloc: Global, depth: u32, line: u32) -> Result<Stmt, SyntaxErr>
        ensures { ReadsAs command_of (condwrite_of (expr_at depth) line self.old) result self.new }
    {
        let name = self.name()?;
        or_drop!(self.take("="); name);
        let (table, key) = or_drop!(self.cell(alloc, depth); name);
        let (rel, (operand, value)) = or_drop!(self.condition(alloc, depth); name, table, key);
        Ok(Stmt {
            line,
            form: Form::CondWrite {
                name,
                table,
                key,
                rel,
                operand,
                value,
            },
        })
    }

    fn call_stmt(&mut self, alloc: Global, depth: u32, line: u32) -> Result<Stmt, SyntaxErr>
        ensures { ReadsAs command_of (call_of (expr_at depth) line self.old) result self.new }
    {
        let name = self.name()?;
        or_drop!(self.take("="); name);
        let func = Name::new(or_drop!(self.name(); name));
        let args = or_drop!(self.argument(alloc, depth); name, func);
        or_drop!(self.take(";"); name, func, args);
        Ok(Stmt {
            line,
            form: Form::Call { name, func, args },
        })
    }

    fn async_stmt(&mut self, alloc: Global, depth: u32, line: u32) -> Result<Stmt, SyntaxErr>
        ensures { ReadsAs command_of (async_of (expr_at depth) line self.old) result self.new }
    {
        let func = Name::new(self.name()?);
        let args = or_drop!(self.argument(alloc, depth); func);
        or_drop!(self.take(";"); func, args);
        Ok(Stmt {
            line,
            form: Form::Async { func, args },
        })
    }

    fn lock(&mut self, alloc: Global, depth: u32, line: u32) -> Result<Stmt, SyntaxErr>
        ensures { ReadsAs command_of (lock_of (expr_at depth) line self.old) result self.new }
    {
        let (table, key) = self.cell(alloc, depth)?;
        or_drop!(self.take(";"); table, key);
        Ok(Stmt {
            line,
            form: Form::Lock { table, key },
        })
    }

    fn unlock(&mut self, alloc: Global, depth: u32, line: u32) -> Result<Stmt, SyntaxErr>
        ensures { ReadsAs command_of (unlock_of (expr_at depth) line self.old) result self.new }
    {
        let (table, key) = self.cell(alloc, depth)?;
        or_drop!(self.take(";"); table, key);
        Ok(Stmt {
            line,
            form: Form::Unlock { table, key },
        })
    }

    fn return_stmt(&mut self, alloc: Global, depth: u32, line: u32) -> Result<Stmt, SyntaxErr>
        ensures { ReadsAs command_of (return_of (expr_at depth) line self.old) result self.new }
    {
        let value = self.expr(alloc, depth)?;
        or_drop!(self.take(";"); value);
        Ok(Stmt {
            line,
            form: Form::Return(value),
        })
    }

    // Statements on items.
    fn on_item(&mut self, alloc: Global, depth: u32, line: u32) -> Result<Stmt, SyntaxErr>
        ensures { ReadsAs command_of (on_item (expr_at depth) line self.old) result self.new }
    {
        if self.next_is("read") {
            self.pass();
            self.read(alloc, depth, line)
        } else if self.next_is("write") {
            self.pass();
            self.write(alloc, depth, line)
        } else if self.next_is("condwrite") {
            self.pass();
            self.condwrite(alloc, depth, line)
        } else if self.next_is("lock") {
            self.pass();
            self.lock(alloc, depth, line)
        } else if self.next_is("unlock") {
            self.pass();
            self.unlock(alloc, depth, line)
        } else {
            Err(self.refusal(What::Syntax))
        }
    }

    // `abort;`, after the word.
    fn abort(&mut self, line: u32) -> Result<Stmt, SyntaxErr>
        ensures { ReadsAs command_of (word_of (abort line) self.old) result self.new }
    {
        self.take(";")?;
        Ok(Stmt {
            line,
            form: Form::Abort,
        })
    }

    // `break;`, after the word.
    fn break_stmt(&mut self, line: u32) -> Result<Stmt, SyntaxErr>
        ensures { ReadsAs command_of (word_of (break line) self.old) result self.new }
    {
        self.take(";")?;
        Ok(Stmt {
            line,
            form: Form::Break,
        })
    }

    // Statements with no block in them.
    fn plain(&mut self, alloc: Global, depth: u32, line: u32) -> Result<Stmt, SyntaxErr>
        ensures { ReadsAs command_of (plain (expr_at depth) line self.old) result self.new }
    {
        if self.next_is("set") {
            self.pass();
            self.set(alloc, depth, line)
        } else if self.next_is("call") {
            self.pass();
            self.call_stmt(alloc, depth, line)
        } else if self.next_is("async") {
            self.pass();
            self.async_stmt(alloc, depth, line)
        } else if self.next_is("return") {
            self.pass();
            self.return_stmt(alloc, depth, line)
        } else if self.next_is("abort") {
            self.pass();
            self.abort(line)
        } else if self.next_is("break") {
            self.pass();
            self.break_stmt(line)
        } else {
            self.on_item(alloc, depth, line)
        }
    }

    #[cycle(statements)]
    fn stmt(&mut self, alloc: Global, depth: u32) -> Result<Stmt, SyntaxErr>
        ensures { ReadsAs command_of (stmt (expr_at depth) (block_at depth) self.old) result self.new }
    {
        let line = self.line();
        if self.next_is("if") {
            self.pass();
            self.if_stmt(alloc, depth, line)
        } else if self.next_is("repeat") {
            self.pass();
            self.repeat(alloc, depth, line)
        } else if self.next_is("transaction") {
            self.pass();
            self.transaction(alloc, depth, line)
        } else {
            self.plain(alloc, depth, line)
        }
    }

    #[cycle(statements)]
    fn if_stmt(&mut self, alloc: Global, depth: u32, line: u32) -> Result<Stmt, SyntaxErr>
        ensures { ReadsAs command_of (if_of (expr_at depth) (block_at depth) line self.old) result self.new }
    {
        let test = self.expr(alloc, depth)?;
        let block = or_drop!(self.block(alloc, depth); test);
        let otherwise = or_drop!(self.otherwise(alloc, depth); test, block);
        Ok(Stmt {
            line,
            form: Form::If {
                test,
                block,
                otherwise,
            },
        })
    }

    // What `else` stands before, if it is there.
    #[cycle(statements)]
    fn otherwise(&mut self, alloc: Global, depth: u32) -> Result<Block, SyntaxErr>
        ensures { Reads (otherwise (block_at depth) self.old) result self.new }
    {
        if self.next_is("else") {
            self.pass();
            self.block(alloc, depth)
        } else {
            Ok(Block::new(alloc))
        }
    }

    #[cycle(statements)]
    fn repeat(&mut self, alloc: Global, depth: u32, line: u32) -> Result<Stmt, SyntaxErr>
        ensures { ReadsAs command_of (repeat_of (block_at depth) line self.old) result self.new }
    {
        let times = self.number(0, 1000)? as u32;
        let block = self.block(alloc, depth)?;
        Ok(Stmt {
            line,
            form: Form::Repeat { times, block },
        })
    }

    #[cycle(statements)]
    fn transaction(&mut self, alloc: Global, depth: u32, line: u32) -> Result<Stmt, SyntaxErr>
        ensures { ReadsAs command_of (transaction_of (block_at depth) line self.old) result self.new }
    {
        let block = self.block(alloc, depth)?;
        or_drop!(self.take("aborted"); block);
        let aborted = or_drop!(self.block(alloc, depth); block);
        Ok(Stmt {
            line,
            form: Form::Transaction { block, aborted },
        })
    }

    /// Statements up to `}`.
    #[cycle(statements)]
    pub(crate) fn stmts(&mut self, alloc: Global, depth: u32) -> Result<Block, SyntaxErr>
        ensures { Reads (stmts (expr_at depth) (block_at depth) self.old) result self.new }
    {
        let mut block = Block::new(alloc);
        for _turn in 0..self.len() {
            if self.next_is("}") {
                return Ok(block);
            }
            match self.stmt(alloc, depth) {
                Ok(stmt) => match block.push(stmt) {
                    Ok(()) => (),
                    Err(_) => {
                        drop(block);
                        return Err(SyntaxErr::OutOfMemory);
                    }
                },
                Err(why) => {
                    drop(block);
                    return Err(why);
                }
            }
        }
        Ok(block)
    }

    // The refusal where no level is left for a block.
    fn no_block(&self) -> Result<Block, SyntaxErr>
        ensures { Reads (no_block self.now) result self.now }
    {
        if self.next_is("{") {
            Err(self.refusal(What::TooDeep))
        } else {
            Err(self.refusal(What::Syntax))
        }
    }

    #[cycle(statements)]
    fn block(&mut self, alloc: Global, depth: u32) -> Result<Block, SyntaxErr>
        ensures { Reads (block_at depth self.old) result self.new }
    {
        match depth.checked_sub(1) {
            Some(depth) => self.braced(alloc, depth),
            None => self.no_block(),
        }
    }

    #[cycle(statements)]
    fn braced(&mut self, alloc: Global, depth: u32) -> Result<Block, SyntaxErr>
        ensures { Reads (braced (stmts (expr_at depth) (block_at depth)) self.old) result self.new }
    {
        self.take("{")?;
        let block = self.stmts(alloc, depth)?;
        or_drop!(self.take("}"); block);
        Ok(block)
    }
}
