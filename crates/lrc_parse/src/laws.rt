ghost use Rattle.std.specs.Prelude.{◌≡◌, ◌↔◌, ◌<◌, ◌∷◌, false, List, [], length};
ghost use Rattle.lrc_parse.specs.Reading.{Cause, took, stops};
ghost use Rattle.lrc_parse.specs.Exact.{Exact};

use crate::grammar::{Grammar, Token};

/// A whole text is read to its end with a value exactly where it is a sentence with that value.
pub fn whole_text<T: Token, G: Grammar<Token = T>>()
    requires { Exact T.kind G.shape G.sentences G.reading }
    ensures { (u : List T) (x : G.Value) → (G.reading u ≡ took x []) ↔ G.sentences u x }
{}

/// A text stands for one value at most.
pub fn one_value<T: Token, G: Grammar<Token = T>>()
    requires { Exact T.kind G.shape G.sentences G.reading }
    ensures { (u : List T) (x y : G.Value) → G.sentences u x → G.sentences u y → x ≡ y }
{}

/// Where the reading stops, the text is no sentence.
pub fn stopped<T: Token, G: Grammar<Token = T>>()
    requires { Exact T.kind G.shape G.sentences G.reading }
    ensures { (u r : List T) (c : Cause) (x : G.Value) → G.reading u ≡ stops c r → ¬ G.sentences u x }
{}

/// Where the reading leaves a token, the text is no sentence.
pub fn left_over<T: Token, G: Grammar<Token = T>>()
    requires { Exact T.kind G.shape G.sentences G.reading }
    ensures { (u r : List T) (t : T) (x y : G.Value) → G.reading u ≡ took y (t ∷ r) → ¬ G.sentences u x }
{}

/// What is read of a language without the empty sentence is a token or more.
pub fn takes_a_token<T: Token, G: Grammar<Token = T>>()
    requires exact { Exact T.kind G.shape G.sentences G.reading }
    requires some { G.shape.empty ≡ false }
    ensures { (u r : List T) (x : G.Value) → G.reading u ≡ took x r → length r < length u }
{}
