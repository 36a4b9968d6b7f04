//! A cursor over the tokens of a text, seen as the lexemes that are left.

ghost use Rattle.std.specs.Prelude.{◌≡◌, ◌<◌, cond, OnOk, ◌≤◌, [], ◌∷◌, ◌↔◌, IsTrue, length, drop, slice_get, All};
ghost use Rattle.lrc_lex.specs.Longest.{IsTokenOf};
ghost use Rattle.lrc_parse.specs.Kinds.{has, starts};
ghost use Rattle.lrc_parse.specs.Reading.{read_fixed};
ghost use Rattle.lrc_reader.specs.Lexeme as spec;
ghost use Rattle.lrc_reader.specs.Lexeme.{kind, number};
ghost use Rattle.lrc_reader.specs.Reading as reading;
ghost use Rattle.lrc_reader.specs.Gives.{Gives};

use crate::fault::{Limit, Stop};
use crate::lexeme::{Lexeme, Mark, kind_of, lexeme_of, mark_at, number_of};
use lrc_base::{NameText, Path};
use lrc_lex::Token;
use std::alloc::Global;
use std::marker::Model;

/// The tokens that are left of a text.
#[derive(Drop)]
pub struct Cursor<'a> {
    text: &'a [u8],
    tokens: &'a [Token],
    /// The mark that the first of them is, if it is one.
    mark: Option<Mark>,
}

impl<'a> Model for Cursor<'a> {
    ghost use Rattle.std.specs.Prelude.{List, All};
    ghost use Rattle.lrc_lex.specs.Longest.{IsTokenOf};
    ghost use Rattle.lrc_reader.specs.declared.lexeme.Lexeme.{Lexeme};

    ghost Value = { List Lexeme };

    ghost use Rattle.std.specs.Prelude.{◌≡◌};
    ghost use Rattle.lrc_reader.specs.Lexeme.{lexemes, next_mark};

    ghost view = { λ c. lexemes c.text.now c.tokens.now };

    ghost invariant = { λ c. All (IsTokenOf c.text.now) c.tokens.now × (c.mark ≡ next_mark c.text.now c.tokens.now) };
}

/// The mark that the first of these tokens is, if it is one.
fn first_mark(text: &[u8], tokens: &[Token]) -> Option<Mark>
    requires { All (IsTokenOf text.now) tokens.now }
    ensures { result ≡ spec.next_mark text.now tokens.now }
{
    match tokens {
        [first, ..] => mark_at(text, *first),
        [] => None,
    }
}

/// Whether the set has the kind.
fn has(kinds: &[u8], wanted: u8) -> bool
    ensures { result ≡ has kinds.now wanted }
{
    let mut rest = kinds;
    while let [first, behind @ ..] = rest {
        if *first == wanted {
            return true;
        }
        rest = behind;
    }
    false
}

impl<'a> Cursor<'a> {
    /// At the first of these tokens.
    pub fn new(text: &'a [u8], tokens: &'a [Token]) -> Cursor<'a>
        requires { All (IsTokenOf text.now) tokens.now }
        ensures { result ≡ spec.lexemes text.now tokens.now }
    {
        Cursor {
            text,
            tokens,
            mark: first_mark(text, tokens),
        }
    }

    /// The next lexeme, which stays; None at the end.
    pub fn peek(&self) -> Option<Lexeme<'a>>
        ensures { result ≡ slice_get self.now 0 }
    {
        let token = self.tokens.first()?;
        Some(lexeme_of(self.text, *token, self.mark))
    }

    /// Goes past the next lexeme, if there is one.
    pub fn advance(&mut self)
        ensures { self.new ≡ drop 1 self.old }
    {
        if let [_, rest @ ..] = self.tokens {
            self.tokens = rest;
            self.mark = first_mark(self.text, rest);
        }
    }

    /// How many lexemes are left.
    pub fn left(&self) -> usize
        ensures { result ≡ length self.now }
    {
        self.tokens.len()
    }

    /// Whether the next lexeme is of one of these kinds.
    pub fn sees_one_of(&self, kinds: &[u8]) -> bool
        ensures { result ≡ starts kind kinds.now self.now }
    {
        match self.tokens.first() {
            Some(first) => has(kinds, kind_of(first.class, self.mark)),
            None => false,
        }
    }

    /// Whether the next lexeme is this mark.
    pub fn sees(&self, mark: Mark) -> bool
        ensures { result ≡ starts kind (number mark ∷ []) self.now }
    {
        self.sees_one_of(&[number_of(mark)])
    }

    /// That there is room behind `count` of them, at most `most`, for another that begins with one
    /// of these kinds.
    #[tactic(auto, unfolding(crate::specs::Reading::read_room), using(crate::proofs::Next::room_left, crate::proofs::Next::room_passed, crate::proofs::Next::room_other))]
    pub fn room(&self, count: usize, most: usize, kinds: &[u8], limit: Limit) -> Result<(), Stop>
        ensures gives { Gives result self.now (reading.read_room count most kinds.now limit self.now) }
        ensures within { OnOk result (count < most) }
    {
        if count < most {
            Ok(())
        } else if self.sees_one_of(kinds) {
            Err(Stop::LimitReached(limit))
        } else {
            Err(Stop::Expected)
        }
    }

    /// Why what begins with one of these kinds may not come next, where nothing may stand deeper.
    #[tactic(auto, unfolding(lrc_parse::specs::Reading::read_nothing))]
    pub fn too_deep(&self, kinds: &[u8]) -> Stop
        ensures { result ≡ cond (starts kind kinds.now self.now) Stop.NestedTooDeep Stop.Expected }
    {
        if self.sees_one_of(kinds) {
            Stop::NestedTooDeep
        } else {
            Stop::Expected
        }
    }

    /// Goes past this mark.
    #[tactic(auto, using(crate::proofs::Next::fixed_took, crate::proofs::Next::fixed_stops))]
    pub fn expect(&mut self, mark: Mark) -> Result<(), Stop>
        ensures { Gives result self.new (read_fixed kind (number mark) self.old) }
    {
        if !self.sees(mark) {
            return Err(Stop::Expected);
        }
        self.advance();
        Ok(())
    }

    /// Goes past a word, and answers its name.
    #[tactic(auto, unfolding(crate::specs::Reading::read_word), using(crate::proofs::Next::one_took, crate::proofs::Next::one_end, crate::proofs::Next::one_other))]
    pub fn word(&mut self) -> Result<NameText, Stop>
        ensures { Gives result self.new (reading.read_word self.old) }
    {
        let Some(lexeme) = self.peek() else {
            return Err(Stop::Expected);
        };
        let Some(name) = lexeme.name() else {
            return Err(Stop::Expected);
        };
        self.advance();
        Ok(name)
    }

    /// Goes past a path, and answers the place that it names.
    #[tactic(auto, unfolding(crate::specs::Reading::read_path), using(crate::proofs::Next::one_took, crate::proofs::Next::one_end, crate::proofs::Next::one_other))]
    pub fn path(&mut self, alloc: Global) -> Result<Path, Stop>
        ensures { Gives result self.new (reading.read_path self.old) }
    {
        let Some(Lexeme::Path(text)) = self.peek() else {
            return Err(Stop::Expected);
        };
        let path = text.path(alloc)?;
        self.advance();
        Ok(path)
    }

    /// Goes past a natural of value 1.
    #[tactic(auto, unfolding(crate::specs::Reading::read_one_number), using(crate::proofs::Next::one_took, crate::proofs::Next::one_end, crate::proofs::Next::one_other))]
    pub fn one(&mut self) -> Result<(), Stop>
        ensures { Gives result self.new (reading.read_one_number self.old) }
    {
        let Some(lexeme) = self.peek() else {
            return Err(Stop::Expected);
        };
        let Some(one) = lexeme.one() else {
            return Err(Stop::Expected);
        };
        self.advance();
        Ok(one)
    }

    /// Goes past a natural, and answers its value.
    #[tactic(auto, unfolding(crate::specs::Reading::read_count), using(crate::proofs::Next::one_took, crate::proofs::Next::one_end, crate::proofs::Next::one_other))]
    pub fn count(&mut self) -> Result<u64, Stop>
        ensures { Gives result self.new (reading.read_count self.old) }
    {
        let Some(lexeme) = self.peek() else {
            return Err(Stop::Expected);
        };
        let Some(count) = lexeme.count() else {
            return Err(Stop::Expected);
        };
        self.advance();
        Ok(count)
    }
}
