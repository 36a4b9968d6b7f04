ghost use Rattle.std.specs.Prelude.{◌≡◌, ◌∷◌, ℕ, true, false, List, [], Bool, Option, Some};
ghost use Rattle.lrc_parse.specs.Kinds.{has, disjoint};
ghost use Rattle.lrc_parse.specs.Language.{Empty, One, Of, Then, Either, Optional, Within, Fixed, Skip, Ends};
ghost use Rattle.lrc_parse.specs.Reading.{Cause, read_empty, read_one, read_of, read_then, read_fixed, read_skip, read_ends, read_either, read_optional, read_within};
ghost use Rattle.lrc_parse.specs.Exact.{Exact, shape_one, shape_empty, shape_then, shape_either, shape_skip, shape_ends};

use crate::grammar::{Grammar, Token};

/// The reading of one token that has a value is exact.
pub fn one_token<T: Token, A>()
    ensures { (kinds : List ℕ) (value : T → Option A) → ((t : T) (x : A) → value t ≡ Some x → has kinds (T.kind t) ≡ true) → Exact T.kind (shape_one kinds) (One value) (read_one value) }
{}

/// The reading of one token of a kind is exact.
pub fn fixed_token<T: Token>()
    ensures { (k : ℕ) → Exact T.kind (shape_one (k ∷ [])) (Fixed T.kind k) (read_fixed T.kind k) }
{}

/// The reading of the empty sentence is exact.
pub fn no_token<T: Token, A>()
    ensures { (a : A) → Exact T.kind shape_empty (Empty a) (read_empty a) }
{}

/// The reading of what a function makes of each value is exact.
pub fn mapped<T: Token, B, G: Grammar<Token = T>>()
    requires { Exact T.kind G.shape G.sentences G.reading }
    ensures { (f : G.Value → B) → Exact T.kind G.shape (Of f G.sentences) (read_of f G.reading) }
{}

/// The reading of one and then the other is exact.
pub fn sequence<T: Token, G: Grammar<Token = T>, H: Grammar<Token = T>>()
    requires first { Exact T.kind G.shape G.sentences G.reading }
    requires second { Exact T.kind H.shape H.sentences H.reading }
    requires disjoint { disjoint G.shape.more H.shape.first ≡ true }
    ensures { Exact T.kind (shape_then G.shape H.shape) (Then G.sentences H.sentences) (read_then G.reading H.reading) }
{}

/// The reading behind a token of a kind is exact.
pub fn behind_token<T: Token, G: Grammar<Token = T>>()
    requires { Exact T.kind G.shape G.sentences G.reading }
    ensures { (k : ℕ) → Exact T.kind (shape_skip k G.shape) (Skip T.kind k G.sentences) (read_skip T.kind k G.reading) }
{}

/// The reading before a token of a kind is exact.
pub fn before_token<T: Token, G: Grammar<Token = T>>()
    requires { Exact T.kind G.shape G.sentences G.reading }
    ensures { (k : ℕ) → disjoint G.shape.more (k ∷ []) ≡ true → Exact T.kind (shape_ends G.shape k) (Ends T.kind G.sentences k) (read_ends T.kind G.reading k) }
{}

/// The reading of the one or the other, by the next token, is exact.
pub fn choice<T: Token, A, G: Grammar<Token = T, Value = A>, H: Grammar<Token = T, Value = A>>()
    requires first { Exact T.kind G.shape G.sentences G.reading }
    requires second { Exact T.kind H.shape H.sentences H.reading }
    requires disjoint { disjoint G.shape.first H.shape.first ≡ true }
    requires some { G.shape.empty ≡ false }
    ensures { Exact T.kind (shape_either G.shape H.shape) (Either G.sentences H.sentences) (read_either T.kind G.shape.first G.reading H.reading) }
{}

/// The reading of one or none is exact.
pub fn optional<T: Token, G: Grammar<Token = T>>()
    requires exact { Exact T.kind G.shape G.sentences G.reading }
    requires some { G.shape.empty ≡ false }
    ensures { Exact T.kind (shape_either G.shape shape_empty) (Optional G.sentences) (read_optional T.kind G.shape.first G.reading) }
{}

/// The reading of one where there is room for it is exact.
pub fn with_room<T: Token, G: Grammar<Token = T>>()
    requires { Exact T.kind G.shape G.sentences G.reading }
    ensures { (room : Bool) (cause : Cause) → Exact T.kind G.shape (Within room G.sentences) (read_within T.kind room G.shape.first cause G.reading) }
{}
