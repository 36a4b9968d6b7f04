ghost use Rattle.std.specs.Prelude.{◌≡◌, ◌++◌, ◌∷◌, ◌↔◌, List, []};
ghost use Rattle.lrc_parse.specs.Reading.{Cause, took, stops};
ghost use Rattle.lrc_parse.specs.Faults.{Begins, Caused, Full, Widening};

use crate::grammar::{LimitedGrammar, Token};

/// A whole text is read to its end with a value exactly where it is a sentence within the limits.
pub fn whole_text_within<T: Token, G: LimitedGrammar<Token = T>>()
    requires { Full T.kind G.wider G.shape G.sentences G.reading G.limits }
    ensures { (u : List T) (x : G.Value) → (G.reading G.limits u ≡ took x []) ↔ G.sentences G.limits u x }
{}

/// Where the reading stops, a sentence begins with the tokens before the stop. Where another token
/// is expected, no sentence within any limits goes on with the next one, and at the end none has
/// ended. Where a limit is passed, one goes on with the next token, and none within the limits.
pub fn stop_place<T: Token, G: LimitedGrammar<Token = T>>()
    requires wide { Widening G.wider }
    requires full { Full T.kind G.wider G.shape G.sentences G.reading G.limits }
    ensures { (c : Cause) (u r : List T) → G.reading G.limits u ≡ stops c r →
        (p : List T) × (u ≡ p ++ r) × Caused G.sentences G.limits c p r }
{}

/// Where a token is left, a sentence has ended before it, and no sentence goes on with it.
pub fn left_place<T: Token, G: LimitedGrammar<Token = T>>()
    requires wide { Widening G.wider }
    requires full { Full T.kind G.wider G.shape G.sentences G.reading G.limits }
    ensures { (u r : List T) (t : T) (x : G.Value) → G.reading G.limits u ≡ took x (t ∷ r) →
        (p : List T) × (u ≡ p ++ t ∷ r) × G.sentences G.limits p x × ¬ Begins G.sentences (p ++ t ∷ []) }
{}
