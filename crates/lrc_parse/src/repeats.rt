ghost use Rattle.std.specs.Prelude.{◌≡◌, ◌≤◌, ◌∷◌, ℕ, true, false, []};
ghost use Rattle.lrc_parse.specs.Kinds.{disjoint};
ghost use Rattle.lrc_parse.specs.Language.{Many, Most, Folded, Chain, Separated};
ghost use Rattle.lrc_parse.specs.Reading.{Cause, read_many, read_most, read_separated, read_separated_most, read_folded_most, read_chain};
ghost use Rattle.lrc_parse.specs.Exact.{Exact, shape_then, shape_skip, shape_many};

use crate::grammar::{Grammar, Token};

/// The reading of any number of items is exact.
pub fn repeated<T: Token, G: Grammar<Token = T>>()
    requires exact { Exact T.kind G.shape G.sentences G.reading }
    requires some { G.shape.empty ≡ false }
    requires disjoint { disjoint G.shape.more G.shape.first ≡ true }
    ensures { Exact T.kind (shape_many G.shape) (Many G.sentences) (read_many T.kind G.shape.first G.reading []) }
{}

/// The reading of any number of items up to a limit is exact.
pub fn repeated_most<T: Token, G: Grammar<Token = T>>()
    requires exact { Exact T.kind G.shape G.sentences G.reading }
    requires some { G.shape.empty ≡ false }
    requires disjoint { disjoint G.shape.more G.shape.first ≡ true }
    ensures { (n : ℕ) (cause : Cause) → Exact T.kind (shape_many G.shape) (Most n (Many G.sentences)) (read_most T.kind n G.shape.first cause G.reading []) }
{}

/// The reading of items with a token of a kind between each two is exact.
pub fn separated<T: Token, G: Grammar<Token = T>>()
    requires { Exact T.kind G.shape G.sentences G.reading }
    ensures { (k : ℕ) → disjoint G.shape.more (k ∷ []) ≡ true → Exact T.kind (shape_then G.shape (shape_many (shape_skip k G.shape))) (Separated T.kind k G.sentences) (read_separated T.kind k G.reading) }
{}

/// The reading of items with a token of a kind between each two, up to a limit, is exact.
pub fn separated_most<T: Token, G: Grammar<Token = T>>()
    requires { Exact T.kind G.shape G.sentences G.reading }
    ensures { (k n : ℕ) (cause : Cause) → 1 ≤ n → disjoint G.shape.more (k ∷ []) ≡ true → Exact T.kind (shape_then G.shape (shape_many (shape_skip k G.shape))) (Most n (Separated T.kind k G.sentences)) (read_separated_most T.kind k n G.shape.first cause G.reading) }
{}

/// The reading of such items that are joined from the left is exact.
pub fn folded_most<T: Token, G: Grammar<Token = T>>()
    requires { Exact T.kind G.shape G.sentences G.reading }
    ensures { (k n : ℕ) (cause : Cause) (f : G.Value → G.Value → G.Value) → 1 ≤ n → disjoint G.shape.more (k ∷ []) ≡ true → Exact T.kind (shape_then G.shape (shape_many (shape_skip k G.shape))) (Folded f (Most n (Separated T.kind k G.sentences))) (read_folded_most T.kind k n G.shape.first cause f G.reading) }
{}

/// The reading of a first value and then items that are joined from the left is exact.
pub fn chain<T: Token, G: Grammar<Token = T>, H: Grammar<Token = T>>()
    requires first { Exact T.kind G.shape G.sentences G.reading }
    requires second { Exact T.kind H.shape H.sentences H.reading }
    requires some { H.shape.empty ≡ false }
    requires disjoint { disjoint H.shape.more H.shape.first ≡ true }
    requires behind { disjoint G.shape.more H.shape.first ≡ true }
    ensures { (f : G.Value → H.Value → G.Value) → Exact T.kind (shape_then G.shape (shape_many H.shape)) (Chain f G.sentences H.sentences) (read_chain T.kind f G.reading H.shape.first H.reading) }
{}
