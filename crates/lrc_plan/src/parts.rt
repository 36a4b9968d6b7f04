ghost use Rattle.std.specs.Prelude.{◌≡◌, ◌&&◌, ◌==◌, slice_index};
ghost use Rattle.lrc_graph.specs.Pairs.{paired};
ghost use Rattle.lrc_plan_meaning.specs.Items.{visits_of, visit_of, comes_before, is_of};

use lrc_base::Attr;
use lrc_graph::Relation;
use lrc_order_meaning::Partition;
use sqlite_items::at;

/// How many visits a sort has; 0 where there is no such sort.
pub fn visits_of(parts: &[Partition], sort: u32) -> u32
    ensures { result ≡ visits_of parts.now sort }
{
    match at(parts, sort as usize) {
        Some(found) => found.visits,
        None => 0,
    }
}

/// The visit of an attribute of a sort; 0 where there is none.
#[tactic(auto, using(crate::proofs::AtLemmas::past_default))]
fn visit_of(parts: &[Partition], sort: u32, attr: u32) -> u32
    ensures { result ≡ visit_of parts.now sort attr }
{
    match at(parts, sort as usize) {
        Some(found) => number_at(found.visit_of.as_slice(), attr),
        None => 0,
    }
}

/// The number at an index; 0 past the end.
#[tactic(auto, using(crate::proofs::AtLemmas::past_default))]
fn number_at(numbers: &[u32], index: u32) -> u32
    ensures { result ≡ slice_index numbers.now index }
{
    match at(numbers, index as usize) {
        Some(number) => *number,
        None => 0,
    }
}

/// Whether the first of two attributes of a sort comes before the second.
pub fn comes_before(parts: &[Partition], sort: u32, first: u32, then: u32) -> bool
    ensures { result ≡ comes_before parts.now sort first then }
{
    match at(parts, sort as usize) {
        Some(found) => is_paired(&found.before, first, then),
        None => false,
    }
}

/// Whether a relation pairs two points; it pairs none that is not there.
fn is_paired(relation: &Relation, a: u32, b: u32) -> bool
    ensures { result ≡ paired relation.now a b }
{
    let points = relation.points();
    a < points && b < points && relation.has(a, b)
}

/// Whether an attribute is of a direction; one that is not there is of none.
fn is_of(attrs: &[Attr], inherited: bool, attr: u32) -> bool
    ensures { result ≡ is_of attrs.now inherited attr }
{
    match at(attrs, attr as usize) {
        Some(found) => found.inherited == inherited,
        None => false,
    }
}

/// A block of a sort's partition: the inherited attributes that a visit takes, or the synthesised ones
/// that it gives.
#[derive(Debug, Clone, Copy)]
pub struct Block {
    pub sort: u32,
    /// Counted from 1.
    pub visit: u32,
    /// Whether it is what the visit takes.
    pub inherited: bool,
}

impl Block {
    /// Whether an attribute of its sort, which has these attributes, is in the block.
    pub fn has(self, parts: &[Partition], attrs: &[Attr], attr: u32) -> bool
        ensures { result ≡ (is_of attrs.now self.inherited attr && (visit_of parts.now self.sort attr == self.visit)) }
    {
        is_of(attrs, self.inherited, attr) && visit_of(parts, self.sort, attr) == self.visit
    }
}
