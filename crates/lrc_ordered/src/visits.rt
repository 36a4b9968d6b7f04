ghost use Rattle.std.specs.Prelude.{◌≡◌, ℕ, ◌+◌, ◌*◌, ◌<◌, ◌≤◌, ◌↔◌, List, length, slice_index, IsTrue};
ghost use Rattle.lrc_base.specs.declared.grammar.Given as base;
ghost use Rattle.lrc_meaning.specs.Grammar as meaning;
ghost use Rattle.lrc_graph.specs.Pairs.{Has, IsTransitive};
ghost use Rattle.lrc_order_meaning.specs.Ordered.{IsAcyclic};
ghost use Rattle.lrc_ordered.specs.Numbered.{AreNumbered, IsTableOf, AreSets, IsLeft, left};

use crate::turns::fill_set;
use lrc_base::Attr;
use lrc_graph::Relation;

/// Puts the attributes of a sort in sets in turn, from the last visit back, until each stands in one.
/// The answer is the number of visits.
pub fn fill_sets(sets: &mut [u32], attrs: &[Attr], sort: &Relation) -> u32
    requires few { length attrs.now < 1024 }
    requires attributes { sort.now.points ≡ length attrs.now }
    requires sets { length sets.old ≡ length attrs.now }
    requires empty { (a : ℕ) → slice_index sets.old a ≡ 0 }
    requires transitive { IsTransitive (Has sort.now) }
    requires acyclic { IsAcyclic (Has sort.now) }
    ensures count { length sets.new ≡ length sets.old }
    ensures few { result ≤ length attrs.now + 1 }
    ensures within { (a : ℕ) → slice_index sets.new a ≤ 2 * result }
    ensures sets { (g : meaning.Grammar) (given : List base.Given) (s : ℕ) → IsTableOf g given s attrs.now sort.now → AreSets g given s result sets.new }
{
    fill_visit(sets, attrs, sort, 0);
    let mut visits = 1;
    'visits: while is_left(sets) {
        fill_visit(sets, attrs, sort, visits);
        visits += 1;
    }
    visits
}

/// Whether some attribute stands in no set.
fn is_left(sets: &[u32]) -> bool
    ensures { IsTrue result ↔ IsLeft sets.now }
{
    'attributes: for attr in 0..sets.len() {
        if sets[attr] == 0 {
            return true;
        }
    }
    false
}

/// Fills the two sets of a visit behind which there are so many.
fn fill_visit(sets: &mut [u32], attrs: &[Attr], sort: &Relation, later: u32)
    requires few { later < 2048 }
    requires attributes { sort.now.points ≡ length attrs.now }
    requires sets { length sets.old ≡ length attrs.now }
    ensures count { length sets.new ≡ length sets.old }
    ensures within { ((a : ℕ) → slice_index sets.old a ≤ 2 * later) → (a : ℕ) → slice_index sets.new a ≤ 2 * later + 2 }
    ensures numbered { (g : meaning.Grammar) (given : List base.Given) (s : ℕ) → IsTableOf g given s attrs.now sort.now
        → AreNumbered g given s (2 * later) sets.old → AreNumbered g given s (2 * later + 2) sets.new }
    ensures fewer { IsTransitive (Has sort.now) → IsAcyclic (Has sort.now) → IsLeft sets.old → left sets.new < left sets.old }
{
    fill_set(sets, attrs, sort, false, 2 * later + 1);
    fill_set(sets, attrs, sort, true, 2 * later + 2);
}
