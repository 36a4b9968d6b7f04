ghost use Rattle.std.specs.Prelude.{◌≡◌, ℕ, ◌+◌, ◌<◌, ◌≤◌, ◌⊎◌, All, [], length, slice_index_or};
ghost use Rattle.lrc_graph.specs.Pairs.{Pairs, Has};
ghost use Rattle.lrc_ordered.specs.Tables.{Gathered, GatheredAll, JoinedAt, JoinedAmong, JoinedIn, FitsIn, table_at};

use lrc_base::List;
use lrc_graph::Relation;
use lrc_order_meaning::Place;

/// Pairs two attributes of a sort where a production's relation pairs their occurrences at a place
/// that starts there. The answer is whether the pair was new.
fn gather_pair(sort: &mut Relation, relation: &Relation, start: u32, first: u32, then: u32) -> bool
    requires few { relation.now.points < 1024 }
    requires within { start + sort.old.points ≤ relation.now.points }
    requires attributes { (first < sort.old.points) × (then < sort.old.points) }
    ensures { Gathered sort.old sort.new result (λ x y. (x ≡ first) × (y ≡ then) × JoinedAt sort.old.points relation.now start x y) }
{
    let is_new = relation.has(start + first, start + then) && !sort.has(first, then);
    if is_new {
        sort.add(first, then);
    }
    is_new
}

/// The same for one attribute and each of the sort.
fn gather_row(sort: &mut Relation, relation: &Relation, start: u32, first: u32) -> bool
    requires few { relation.now.points < 1024 }
    requires within { start + sort.old.points ≤ relation.now.points }
    requires attribute { first < sort.old.points }
    ensures { Gathered sort.old sort.new result (λ x y. (x ≡ first) × JoinedAt sort.old.points relation.now start x y) }
{
    let mut found = false;
    'attributes: for then in 0..sort.points() {
        found |= gather_pair(sort, relation, start, first, then);
    }
    found
}

/// The same for each two attributes of the sort.
fn gather_place(sort: &mut Relation, relation: &Relation, start: u32) -> bool
    requires few { relation.now.points < 1024 }
    requires within { start + sort.old.points ≤ relation.now.points }
    ensures { Gathered sort.old sort.new result (JoinedAt sort.old.points relation.now start) }
{
    let mut found = false;
    'attributes: for first in 0..sort.points() {
        found |= gather_row(sort, relation, start, first);
    }
    found
}

/// The same at each place of a production, for the relation of each place's sort.
fn gather_places(sorts: &mut [Relation], relation: &Relation, places: &[Place]) -> bool
    requires few { relation.now.points < 1024 }
    requires within { All (FitsIn sorts.old relation.now.points) places.now }
    ensures { GatheredAll sorts.old sorts.new result (JoinedAmong sorts.old relation.now places.now) }
{
    let mut found = false;
    'places: for place in places {
        found |= gather_place(&mut sorts[place.sort as usize], relation, place.start);
    }
    found
}

/// The same in each production. The answer is whether a pair was new.
pub fn gather(sorts: &mut [Relation], relations: &[Relation], places: &[List<Place>]) -> bool
    requires productions { length places.now ≡ length relations.now }
    requires few { All (λ (r : Pairs). r.points < 1024) relations.now }
    requires within { (i : ℕ) → i < length relations.now → All (FitsIn sorts.old (table_at relations.now i).points) (slice_index_or places.now i []) }
    ensures { GatheredAll sorts.old sorts.new result (JoinedIn sorts.old relations.now places.now) }
{
    let mut found = false;
    'productions: for production in 0..relations.len() {
        found |= gather_places(sorts, &relations[production], places[production].as_slice());
    }
    found
}
