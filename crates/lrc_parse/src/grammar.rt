ghost use Rattle.std.specs.Prelude.{ℕ, List};
ghost use Rattle.lrc_parse.specs.Reading.{Reading};
ghost use Rattle.lrc_parse.specs.Exact.{Shape};

/// A token, which has a kind.
pub trait Token {
    ghost kind: { Self → ℕ };
}

/// A language and a reading of it.
pub trait Grammar {
    type Token: Token;

    type Value;

    ghost shape: { Shape };

    ghost sentences: { List Self.Token → Self.Value → Type 0 };

    ghost reading: { List Self.Token → Reading Self.Token Self.Value };
}

/// A language within limits, which may be widened, and a reading of it within each limits.
pub trait LimitedGrammar {
    type Token: Token;

    type Value;

    type Limits;

    ghost shape: { Shape };

    ghost wider: { Self.Limits → Self.Limits → Type 0 };

    ghost sentences: { Self.Limits → List Self.Token → Self.Value → Type 0 };

    ghost reading: { Self.Limits → List Self.Token → Reading Self.Token Self.Value };

    ghost limits: { Self.Limits };
}
