use lrc_store::Meaning;

/// A meaning that gives each call's own cell, but for nil, as its result.
#[derive(Drop)]
pub struct Itself;

impl Meaning for Itself {
    ghost use Rattle.std.specs.Prelude.{[], ◌≡◌, ◌≢◌};
    ghost use Rattle.lrc_store.specs.Cells.{nil};
    ghost use Rattle.std.proofs.Common.{sym, ◌∙◌, arith};

    ghost allows = { λ _ call outcome. (call ≡ outcome) × (call ≢ nil) };

    ghost reach = { λ _ _ _. [] };

    ghost single = { λ _ call one other h k. sym h.0 ∙ k.0 };

    ghost filled = { λ _ call outcome h. (h.1, λ e. h.1 (h.0 ∙ e)) };

    ghost closed = { λ _ call outcome h. (λ c. omega (arith, c.1), λ cell c. absurd (omega (arith, c.1))) };
}
