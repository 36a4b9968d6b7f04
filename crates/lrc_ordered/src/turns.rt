ghost use Rattle.std.specs.Prelude.{◌≡◌, ℕ, ◌<◌, ◌↔◌, length, IsTrue};
ghost use Rattle.lrc_ordered.specs.Turns.{IsNext, IsWaiting, IsFilled};

use lrc_base::Attr;
use lrc_graph::Relation;

/// Whether an attribute is the next of its direction: each that comes after it stands in a set
/// already, or is of the direction too.
pub fn is_next(attrs: &[Attr], sort: &Relation, sets: &[u32], inherited: bool, attr: u32) -> bool
    requires attributes { sort.now.points ≡ length attrs.now }
    requires sets { length sets.now ≡ length attrs.now }
    requires attribute { attr < length attrs.now }
    ensures { IsTrue result ↔ IsNext attrs.now sort.now sets.now inherited attr }
{
    if attrs[attr as usize].inherited != inherited {
        return false;
    }
    'attributes: for after in 0..sort.points() {
        if waits(attrs, sort, sets, inherited, attr, after) {
            return false;
        }
    }
    true
}

/// Whether the second attribute comes after the first, stands in no set, and is of the other
/// direction.
fn waits(
    attrs: &[Attr],
    sort: &Relation,
    sets: &[u32],
    inherited: bool,
    attr: u32,
    after: u32,
) -> bool
    requires attributes { sort.now.points ≡ length attrs.now }
    requires sets { length sets.now ≡ length attrs.now }
    requires both { (attr < length attrs.now) × (after < length attrs.now) }
    ensures { IsTrue result ↔ IsWaiting attrs.now sort.now sets.now inherited attr after }
{
    sort.has(attr, after)
        && sets[after as usize] == 0
        && attrs[after as usize].inherited != inherited
}

/// Puts each attribute that stands in no set and is the next of its direction into this set.
pub fn fill_set(sets: &mut [u32], attrs: &[Attr], sort: &Relation, inherited: bool, set: u32)
    requires attributes { sort.now.points ≡ length attrs.now }
    requires sets { length sets.old ≡ length attrs.now }
    requires set { 0 < set }
    ensures count { length sets.new ≡ length sets.old }
    ensures filled { (a : ℕ) → a < length attrs.now → IsFilled attrs.now sort.now sets.old sets.new inherited set a }
{
    'attributes: for attr in 0..sort.points() {
        if sets[attr as usize] == 0 && is_next(attrs, sort, sets, inherited, attr) {
            sets[attr as usize] = set;
        }
    }
}
