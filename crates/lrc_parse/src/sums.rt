ghost use Rattle.std.specs.Prelude.{◌≡◌, ◌++◌, ◌∷◌, ◌↔◌, ℕ, List, []};
ghost use Rattle.lrc_parse.specs.Reading.{Cause, took, stops};
ghost use Rattle.lrc_parse.specs.Faults.{Begins, Caused};
ghost use Rattle.lrc_parse.specs.Sums.{kind_of, sum_shape, IsSum, reads_sum, deeper};

use crate::grammar::{Grammar, LimitedGrammar, Token};
use crate::laws::one_value;
use crate::stops::{left_place, stop_place, whole_text_within};

/// A sign of a sum: a number, `+`, `(` or `)`.
#[derive(Debug, Clone, Copy)]
pub enum Sign {
    Number(u8),
    Plus,
    Open,
    Close,
}

impl Token for Sign {
    ghost kind = { kind_of };
}

/// Sums modulo 256 whose brackets stand at most `DEPTH` deep within one another.
pub struct Sums<const DEPTH: u32>;

impl<const DEPTH: u32> Grammar for Sums<DEPTH> {
    type Token = Sign;

    type Value = u8;

    ghost shape = { sum_shape };

    ghost sentences = { IsSum DEPTH };

    ghost reading = { reads_sum DEPTH };
}

impl<const DEPTH: u32> LimitedGrammar for Sums<DEPTH> {
    type Token = Sign;

    type Value = u8;

    type Limits = u32;

    ghost shape = { sum_shape };

    ghost wider = { deeper };

    ghost sentences = { IsSum };

    ghost reading = { reads_sum };

    ghost limits = { DEPTH };
}

/// Signs are a sum with a value exactly where they are read to their end with that value, and they
/// are one with one value at most. Where the reading stops or leaves a sign, that sign is the first
/// with which no sum begins, or with which one begins whose brackets stand deeper.
pub fn sum_read_exactly<const DEPTH: u32>()
    ensures whole { (u : List Sign) (x : ℕ) → (reads_sum DEPTH u ≡ took x []) ↔ IsSum DEPTH u x }
    ensures one { (u : List Sign) (x y : ℕ) → IsSum DEPTH u x → IsSum DEPTH u y → x ≡ y }
    ensures stop { (c : Cause) (u r : List Sign) → reads_sum DEPTH u ≡ stops c r →
        (p : List Sign) × (u ≡ p ++ r) × Caused IsSum DEPTH c p r }
    ensures left { (u r : List Sign) (t : Sign) (x : ℕ) → reads_sum DEPTH u ≡ took x (t ∷ r) →
        (p : List Sign) × (u ≡ p ++ t ∷ r) × IsSum DEPTH p x × ¬ Begins IsSum (p ++ t ∷ []) }
{
    whole_text_within::<Sign, Sums<DEPTH>>();
    one_value::<Sign, Sums<DEPTH>>();
    stop_place::<Sign, Sums<DEPTH>>();
    left_place::<Sign, Sums<DEPTH>>();
}
