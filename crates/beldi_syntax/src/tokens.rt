// Tokens that are still to be read.
ghost use Rattle.std.specs.Prelude.{◌≡◌, ◌++◌, ◌∷◌, [], length, drop, OnOk, OnErr};
ghost use Rattle.std.specs.List.{list_any};
ghost use Rattle.beldi_syntax.specs.declared.refusal.SyntaxErr.TheVariants.{Refused};
ghost use Rattle.beldi_syntax.specs.Phrase.{is_end, next_is, is_name, is_number, is_past_numbers, is_text, line_of, after_first, count_of, take, name, number, text, Reads};

use crate::refusal::{SyntaxErr, What};
use crate::token::{Lexeme, Token};
use beldi_value::Str;
use std::alloc::{AllocError, Global};
use std::collections::VecDeque;
use std::marker::Model;

/// The greatest number.
const MOST_NUMBER: u64 = 9_223_372_036_854_775_807;

/// Tokens that are still to be read.
#[derive(Drop)]
pub(crate) struct Tokens {
    items: VecDeque<Lexeme>,
}

impl Model for Tokens {
    ghost use Rattle.std.specs.Prelude.{List};
    ghost use Rattle.beldi_syntax.specs.declared.token.Lexeme.{Lexeme};

    ghost Value = { List Lexeme };

    ghost view = { λ a. a.items.items };
}

impl Tokens {
    pub(crate) fn new(alloc: Global) -> Tokens
        ensures { result ≡ [] }
    {
        Tokens {
            items: VecDeque::new(alloc),
        }
    }

    pub(crate) fn push(&mut self, lexeme: Lexeme) -> Result<(), AllocError>
        ensures ok { OnOk result (self.new ≡ self.old ++ lexeme ∷ []) }
        ensures err { OnErr result (self.new ≡ self.old) }
    {
        self.items.push_back(lexeme)?;
        Ok(())
    }

    pub(crate) fn len(&self) -> usize
        ensures { result ≡ length self.now }
    {
        self.items.len()
    }

    /// The line of the next token.
    pub(crate) fn line(&self) -> u32
        ensures { result ≡ line_of self.now }
    {
        match self.items.front() {
            Some(lexeme) => lexeme.line,
            None => 0,
        }
    }

    pub(crate) fn next_is(&self, sign: &str) -> bool
        ensures { result ≡ next_is sign.now self.now }
    {
        match self.items.front() {
            Some(
                Lexeme {
                    token: Token::Sign(word),
                    ..
                },
            ) => word.as_str() == sign,
            _ => false,
        }
    }

    pub(crate) fn is_name(&self) -> bool
        ensures { result ≡ is_name self.now }
    {
        match self.items.front() {
            Some(
                Lexeme {
                    token: Token::Name(_),
                    ..
                },
            ) => true,
            _ => false,
        }
    }

    pub(crate) fn is_text(&self) -> bool
        ensures { result ≡ is_text self.now }
    {
        match self.items.front() {
            Some(
                Lexeme {
                    token: Token::Text(_),
                    ..
                },
            ) => true,
            _ => false,
        }
    }

    pub(crate) fn is_number(&self) -> bool
        ensures { result ≡ is_number self.now }
    {
        match self.items.front() {
            Some(
                Lexeme {
                    token: Token::Number(_),
                    ..
                },
            ) => true,
            _ => false,
        }
    }

    /// Whether the next token is a number past 9,223,372,036,854,775,807.
    pub(crate) fn is_past_numbers(&self) -> bool
        ensures { result ≡ is_past_numbers self.now }
    {
        match self.items.front() {
            Some(
                Lexeme {
                    token: Token::Number(number),
                    ..
                },
            ) => number.is_none_or(|number| number > MOST_NUMBER),
            _ => false,
        }
    }

    pub(crate) fn is_end(&self) -> bool
        ensures { result ≡ is_end self.now }
    {
        match self.items.front() {
            Some(
                Lexeme {
                    token: Token::End,
                    ..
                },
            ) => true,
            _ => false,
        }
    }

    /// Whether the next token is one of these signs.
    pub(crate) fn next_is_of(&self, signs: &[&str]) -> bool
        ensures { result ≡ list_any (λ w. next_is w.now self.now) signs.now }
    {
        signs.iter().any(|sign| self.next_is(sign))
    }

    /// Passes over the next token.
    pub(crate) fn pass(&mut self)
        ensures { self.new ≡ after_first self.old }
    {
        let passed = self.items.pop_front();
        drop(passed);
    }

    /// Passes over this sign as often as it stands there, and tells how often.
    pub(crate) fn pass_all(&mut self, sign: &str) -> usize
        ensures count { result ≡ count_of sign.now self.old }
        ensures rest { self.new ≡ drop result self.old }
    {
        let mut count = 0;
        for _turn in 0..self.len() {
            if !self.next_is(sign) {
                return count;
            }
            self.pass();
            count += 1;
        }
        count
    }

    /// The refusal of the next token.
    pub(crate) fn refusal(&self, what: What) -> SyntaxErr
        ensures { result ≡ Refused (line_of self.now) what }
    {
        SyntaxErr::Refused {
            line: self.line(),
            what,
        }
    }

    /// Passes over this sign.
    pub(crate) fn take(&mut self, sign: &str) -> Result<(), SyntaxErr>
        ensures { Reads (take sign.now self.old) result self.new }
    {
        if self.next_is(sign) {
            self.pass();
            Ok(())
        } else {
            Err(self.refusal(What::Syntax))
        }
    }

    /// A name.
    pub(crate) fn name(&mut self) -> Result<Str, SyntaxErr>
        ensures { Reads (name self.old) result self.new }
    {
        let refusal = self.refusal(What::Syntax);
        match self.items.pop_front() {
            Some(
                Lexeme {
                    token: Token::Name(name),
                    ..
                },
            ) => Ok(name),
            _ => Err(refusal),
        }
    }

    /// A text.
    pub(crate) fn text(&mut self) -> Result<Str, SyntaxErr>
        ensures { Reads (text self.old) result self.new }
    {
        let syntax = self.refusal(What::Syntax);
        let large = self.refusal(What::TooLarge);
        match self.items.pop_front() {
            Some(
                Lexeme {
                    token: Token::Text(Some(text)),
                    ..
                },
            ) => Ok(text),
            Some(
                Lexeme {
                    token: Token::Text(None),
                    ..
                },
            ) => Err(large),
            _ => Err(syntax),
        }
    }

    /// A number within these limits.
    pub(crate) fn number(&mut self, least: u64, most: u64) -> Result<u64, SyntaxErr>
        ensures { Reads (number least most self.old) result self.new }
    {
        let syntax = self.refusal(What::Syntax);
        let outside = self.refusal(What::Number);
        let passed = self.items.pop_front();
        let read = match &passed {
            Some(
                Lexeme {
                    token: Token::Number(Some(number)),
                    ..
                },
            ) if least <= *number && *number <= most => Ok(*number),
            Some(
                Lexeme {
                    token: Token::Number(_),
                    ..
                },
            ) => Err(outside),
            _ => Err(syntax),
        };
        drop(passed);
        read
    }
}
