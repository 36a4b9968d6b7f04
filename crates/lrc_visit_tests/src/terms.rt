//! Terms by their items.

ghost use Rattle.std.specs.Prelude.{◌≡◌, ◌≤◌, ◌*◌, [], ◌∷◌, IfOk};
ghost use Rattle.lrc_base.specs.Terms.{forest};
ghost use Rattle.lrc_meaning.specs.Tree.{tree, tree_height};

use lrc_base::{Memory, Term, TermBuild, TermItem};
use lrc_code::Handles;
use std::alloc::Global;
use std::test::Fail;

/// The term of these items.
#[tactic(auto, using(lrc_base::proofs::ItemLemmas::forest_none, lrc_base::proofs::ItemLemmas::forest_next, lrc_base::proofs::ItemLemmas::forest_all))]
pub(crate) fn term_of(alloc: Global, items: &[TermItem]) -> Result<Term, Fail>
    ensures { IfOk result (λ term. forest items.now ≡ term ∷ []) }
{
    let mut build = TermBuild::new(alloc);
    'items: for item in items {
        build.add(*item).ok().ok_or("an item")?;
    }
    Ok(build.finish().ok_or("no term")?)
}

/// A stack with room for the parts of the term.
#[tactic(auto, using(lrc_meaning::proofs::HeightLemmas::height_agrees))]
pub(crate) fn stack_for(alloc: Global, term: &Term) -> Result<Handles, Memory>
    ensures levels { IfOk result (λ stack. 8 * tree_height (tree term.now) ≤ stack.room) }
    ensures some { IfOk result (λ stack. 1 ≤ stack.room) }
{
    Handles::with_room(alloc, 8 * term.height() as usize + 1)
}
