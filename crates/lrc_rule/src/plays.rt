//! What each step tells the pass that makes it.
ghost use Rattle.std.specs.Prelude.{ℕ};
ghost use Rattle.std.specs.Prelude.{[]};
ghost use Rattle.lrc_store.specs.Cells.{CellTree, nil};
ghost use Rattle.lrc_rule.specs.Memo.{Relation, Reach};
ghost use Rattle.lrc_rule.specs.Views.{spent};
ghost use Rattle.lrc_rule.specs.Steps.{loaded, sought, stored, exchanged, recalled, remembered, cleared, left_of, right_of, both};

use crate::views::Viewed;
use atomic_table::{Join, Play, Split};
use std::marker::{Brand, PhantomData};

/// The cell that a pass seeks, which the proof of a call picks.
pub trait Sought {
    ghost cell: { CellTree };
}

impl Sought for Brand {
    ghost cell = { nil };
}

/// How many rows go to a new pass, which the proof of a call picks.
pub trait Amount {
    ghost amount: { ℕ };
}

impl Amount for Brand {
    ghost amount = { 0 };
}

/// Loads a word.
pub struct Load;

impl Play<(), Viewed> for Load {
    ghost then = { loaded };
}

/// Loads the bucket at which a cell is sought, and notes that it is absent where the bucket is empty.
pub struct Seek<C> {
    cell: PhantomData<C>,
}

impl<C: Sought> Play<(), Viewed> for Seek<C> {
    ghost then = { sought C.cell };
}

/// Stores a word of the pass's next row.
pub struct Draft;

impl Play<(), Viewed> for Draft {
    ghost then = { stored };
}

/// Exchanges an empty bucket for the pass's next row.
pub struct Publish;

impl Play<(), Viewed> for Publish {
    ghost then = { exchanged };
}

/// What the memo words of a table mean, which the proof of a call picks.
pub trait Sense {
    ghost allows: { Relation };

    ghost reach: { Reach };
}

impl Sense for Brand {
    ghost allows = { λ _ _. ⊥ };

    ghost reach = { λ _ _. [] };
}

/// Loads a memo word.
pub struct LoadMemo<W> {
    sense: PhantomData<W>,
}

impl<W: Sense> Play<(), Viewed> for LoadMemo<W> {
    ghost then = { recalled W.allows W.reach };
}

/// Stores a pair of a call and its result in a memo word.
pub struct StoreMemo;

impl Play<(), Viewed> for StoreMemo {
    ghost then = { remembered };
}

/// Stores 0 in a memo word.
pub struct ClearMemo;

impl Play<(), Viewed> for ClearMemo {
    ghost then = { cleared };
}

/// Gives the last rows of a pass to a new pass.
pub struct Cut<A> {
    amount: PhantomData<A>,
}

impl<A: Amount> Split<Viewed> for Cut<A> {
    ghost left = { left_of A.amount };

    ghost right = { right_of A.amount };
}

/// Takes in what another pass knows.
pub struct Meet;

impl Join<Viewed> for Meet {
    ghost both = { both };

    ghost spent = { spent };
}
