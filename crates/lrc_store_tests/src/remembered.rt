//! What the tests of both stores share: a meaning, and calls that are made over any store.

ghost use Rattle.std.specs.Prelude.{◌≡◌, IfOk, IsTrue};
ghost use Rattle.lrc_store.specs.Cells.{number};
ghost use Rattle.lrc_store.specs.Standing.{Stands};

use lrc_store::{Full, Handle, Meaning, Recall, Store};

/// A meaning that gives each call's own cell, but for nil, as its result.
#[derive(Drop)]
pub struct OwnCell;

impl Meaning for OwnCell {
    ghost use Rattle.std.specs.Prelude.{[], ◌≡◌, ◌≢◌};
    ghost use Rattle.lrc_store.specs.Cells.{nil};
    ghost use Rattle.std.proofs.Common.{sym, ◌∙◌, arith};

    ghost allows = { λ _ call outcome. (call ≡ outcome) × (call ≢ nil) };

    ghost reach = { λ _ _ _. [] };

    ghost single = { λ _ call one other h k. sym h.0 ∙ k.0 };

    ghost filled = { λ _ call outcome h. (h.1, λ e. h.1 (h.0 ∙ e)) };

    ghost closed = { λ _ call outcome h. (λ c. omega (arith, c.1), λ cell c. absurd (omega (arith, c.1))) };
}

/// Whether the pair of 1 and 1, put twice, has one handle, over any store.
pub fn is_shared<S: Store>(store: &mut S) -> Result<bool, Full>
    ensures { IfOk result (λ shared. IsTrue shared) }
{
    let one = store.int(1)?;
    let first = store.cell(3, one, one)?;
    let again = store.cell(3, one, one)?;
    Ok(store.same(first, again))
}

/// The handles of two numbers, over any store.
pub fn two_numbers<S: Store>(store: &mut S, one: i64, other: i64) -> Result<(Handle, Handle), Full>
    ensures one { IfOk result (λ handles. Stands (S.state store.new) handles.0.0 (number one)) }
    ensures other { IfOk result (λ handles. Stands (S.state store.new) handles.1.0 (number other)) }
{
    let first = store.int(one)?;
    let second = store.int(other)?;
    Ok((first, second))
}

/// Whether this handle was found.
pub fn is_found(answer: Recall, handle: Handle) -> bool {
    match answer {
        Recall::Found(found) => found == handle,
        Recall::Missed(_) => false,
    }
}

/// Whether nothing was found, and this word stood there.
pub fn is_missed(answer: Recall, word: u64) -> bool {
    match answer {
        Recall::Found(_) => false,
        Recall::Missed(missed) => missed == word,
    }
}
