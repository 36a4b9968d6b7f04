ghost use Rattle.std.specs.Prelude.{◌≡◌, ◌≢◌, List, [], Contains};
ghost use Rattle.lrc_store.specs.Cells.{CellTree, nil, IsClosed};

/// What the remembered calls of a store mean. It has no call that runs.
pub trait Meaning {
    // The cell of a call and that of its result may be remembered as a pair.
    ghost allows: { Self → CellTree → CellTree → Type 0 };

    // The cells that a call and its result reach.
    ghost reach: { Self → CellTree → CellTree → List CellTree };

    // A call has at most one result.
    ghost single: { (meaning : Self) (call one other : CellTree) → allows meaning call one → allows meaning call other → one ≡ other };

    // Neither a call nor its result is nil.
    ghost filled: { (meaning : Self) (call outcome : CellTree) → allows meaning call outcome → (call ≢ nil) × (outcome ≢ nil) };

    // The reach leaves out nil, and holds with each cell all its parts.
    ghost closed: { (meaning : Self) (call outcome : CellTree) → allows meaning call outcome → (¬ Contains (reach meaning call outcome) nil) × IsClosed (reach meaning call outcome) };
}

/// A meaning that allows no pair.
#[derive(Debug, Drop)]
pub struct NoMeaning;

impl Meaning for NoMeaning {
    ghost use Rattle.std.specs.Prelude.{[]};

    ghost allows = { λ _ _ _. ⊥ };

    ghost reach = { λ _ _ _. [] };

    ghost single = { λ _ _ _ _ never _. absurd never };

    ghost filled = { λ _ _ _ never. absurd never };

    ghost closed = { λ _ _ _ never. absurd never };
}
