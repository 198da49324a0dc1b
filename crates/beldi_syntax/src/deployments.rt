// The grammar of deployments.
ghost use Rattle.std.specs.Prelude.{◌≡◌, length};
ghost use Rattle.beldi_syntax.specs.Phrase.{Reads};
ghost use Rattle.beldi_syntax.specs.Deployments.{table_of, tables, head, body, function_of, functions, life, room_of, room, the_end, deployment};

use crate::refusal::{SyntaxErr, What};
use crate::tokens::Tokens;
use beldi_tree::{Block, Deployment, Func, Funcs, TableHead, TableHeads};
use beldi_value::{Str, or_drop};
use std::alloc::Global;

/// How many levels of blocks and expressions may be open at once.
const MOST_DEPTH: u32 = 64;

/// The longest life, in ticks.
const MOST_LIFE: u64 = 1 << 32;

/// How many rows the table may have, at most and where the text says nothing.
const MOST_ROOM: u64 = 65_536;

impl Tokens {
    // `NAME;`, which follows `table` in this line.
    fn table(&mut self, line: u32) -> Result<TableHead, SyntaxErr>
        ensures { Reads (table_of line self.old) result self.new }
    {
        let name = self.name()?;
        or_drop!(self.take(";"); name);
        Ok(TableHead { name, line })
    }

    fn tables(&mut self, alloc: Global) -> Result<TableHeads, SyntaxErr>
        ensures { Reads (tables self.old) result self.new }
    {
        let mut tables = TableHeads::new(alloc);
        for _turn in 0..self.len() {
            if !self.next_is("table") {
                return Ok(tables);
            }
            let line = self.line();
            self.pass();
            match self.table(line) {
                Ok(table) => match tables.push(table) {
                    Ok(()) => (),
                    Err(_) => {
                        drop(tables);
                        return Err(SyntaxErr::OutOfMemory);
                    }
                },
                Err(why) => {
                    drop(tables);
                    return Err(why);
                }
            }
        }
        Ok(tables)
    }

    // `F(X)`
    fn head(&mut self) -> Result<(Str, Str), SyntaxErr>
        ensures { Reads (head self.old) result self.new }
    {
        let name = self.name()?;
        or_drop!(self.take("("); name);
        let param = or_drop!(self.name(); name);
        or_drop!(self.take(")"); name, param);
        Ok((name, param))
    }

    // The tables and the statements of a function.
    fn body(&mut self, alloc: Global) -> Result<(TableHeads, Block), SyntaxErr>
        ensures { Reads (body self.old) result self.new }
    {
        self.take("{")?;
        let tables = self.tables(alloc)?;
        let block = or_drop!(self.stmts(alloc, MOST_DEPTH); tables);
        or_drop!(self.take("}"); tables, block);
        Ok((tables, block))
    }

    // What follows `function` in this line.
    fn function(&mut self, alloc: Global, line: u32) -> Result<Func, SyntaxErr>
        ensures { Reads (function_of line self.old) result self.new }
    {
        let (name, param) = self.head()?;
        let (tables, body) = or_drop!(self.body(alloc); name, param);
        Ok(Func {
            name,
            param,
            tables,
            body,
            line,
        })
    }

    fn functions(&mut self, alloc: Global) -> Result<Funcs, SyntaxErr>
        ensures { Reads (functions self.old) result self.new }
    {
        let mut funcs = Funcs::new(alloc);
        for _turn in 0..self.len() {
            if !self.next_is("function") {
                return Ok(funcs);
            }
            let line = self.line();
            self.pass();
            match self.function(alloc, line) {
                Ok(func) => match funcs.push(func) {
                    Ok(()) => (),
                    Err(_) => {
                        drop(funcs);
                        return Err(SyntaxErr::OutOfMemory);
                    }
                },
                Err(why) => {
                    drop(funcs);
                    return Err(why);
                }
            }
        }
        Ok(funcs)
    }

    // `life N;`
    fn life(&mut self) -> Result<u64, SyntaxErr>
        ensures { Reads (life self.old) result self.new }
    {
        self.take("life")?;
        let life = self.number(1, MOST_LIFE)?;
        self.take(";")?;
        Ok(life)
    }

    // `N;`, which follows `room`.
    fn room_of(&mut self) -> Result<u32, SyntaxErr>
        ensures { Reads (room_of self.old) result self.new }
    {
        let room = self.number(1, MOST_ROOM)?;
        self.take(";")?;
        Ok(room as u32)
    }

    // `room N;`, which may be left out.
    fn room(&mut self) -> Result<u32, SyntaxErr>
        ensures { Reads (room self.old) result self.new }
    {
        if self.next_is("room") {
            self.pass();
            self.room_of()
        } else {
            Ok(MOST_ROOM as u32)
        }
    }

    // The token `script`, or the end of the text.
    fn the_end(&mut self) -> Result<(), SyntaxErr>
        ensures { Reads (the_end self.old) result self.new }
    {
        if self.next_is("script") || self.is_end() {
            self.pass();
            Ok(())
        } else {
            Err(self.refusal(What::Syntax))
        }
    }

    /// A deployment, and the end of its tokens.
    pub(crate) fn deployment(&mut self, alloc: Global) -> Result<Deployment, SyntaxErr>
        ensures { Reads (deployment self.old) result self.new }
    {
        let life = self.life()?;
        let room = self.room()?;
        let funcs = self.functions(alloc)?;
        or_drop!(self.the_end(); funcs);
        Ok(Deployment { life, room, funcs })
    }
}
