ghost use Rattle.std.specs.Prelude.{◌≡◌, ℕ, ◌+◌, ◌<◌, ◌≤◌, ◌⊎◌, All, [], length, slice_index_or};
ghost use Rattle.lrc_graph.specs.Pairs.{Pairs, Has, IsTransitive};
ghost use Rattle.lrc_ordered.specs.Tables.{Closed, HandedAt, HandedAmong, FitsIn, table_at};

use lrc_base::List;
use lrc_graph::Relation;
use lrc_order_meaning::Place;

/// Pairs the occurrences of two attributes of a sort at a place that starts there, where the sort's
/// relation pairs them, and closes the production's relation again.
fn spread_pair(relation: &mut Relation, sort: &Relation, start: u32, first: u32, then: u32)
    requires few { relation.old.points < 1024 }
    requires within { start + sort.now.points ≤ relation.old.points }
    requires attributes { (first < sort.now.points) × (then < sort.now.points) }
    requires closed { IsTransitive (Has relation.old) }
    ensures { Closed relation.old relation.new (λ x y. (x ≡ start + first) × (y ≡ start + then) × Has sort.now first then) }
{
    if sort.has(first, then) {
        relation.close_more(start + first, start + then);
    }
}

/// The same for one attribute and each of the sort.
fn spread_row(relation: &mut Relation, sort: &Relation, start: u32, first: u32)
    requires few { relation.old.points < 1024 }
    requires within { start + sort.now.points ≤ relation.old.points }
    requires attribute { first < sort.now.points }
    requires closed { IsTransitive (Has relation.old) }
    ensures { Closed relation.old relation.new (λ x y. (then : ℕ) × (then < sort.now.points) × (x ≡ start + first) × (y ≡ start + then) × Has sort.now first then) }
{
    'attributes: for then in 0..sort.points() {
        spread_pair(relation, sort, start, first, then);
    }
}

/// The same for each two attributes of the sort.
pub fn spread_place(relation: &mut Relation, sort: &Relation, start: u32)
    requires few { relation.old.points < 1024 }
    requires within { start + sort.now.points ≤ relation.old.points }
    requires closed { IsTransitive (Has relation.old) }
    ensures { Closed relation.old relation.new (HandedAt sort.now start) }
{
    'attributes: for first in 0..sort.points() {
        spread_row(relation, sort, start, first);
    }
}

/// The same at each place of the production.
fn spread_places(relation: &mut Relation, sorts: &[Relation], places: &[Place])
    requires few { relation.old.points < 1024 }
    requires within { All (FitsIn sorts.now relation.old.points) places.now }
    requires closed { IsTransitive (Has relation.old) }
    ensures { Closed relation.old relation.new (HandedAmong sorts.now places.now) }
{
    'places: for place in places {
        spread_place(relation, &sorts[place.sort as usize], place.start);
    }
}

/// The same in each production.
pub fn spread(relations: &mut [Relation], sorts: &[Relation], places: &[List<Place>])
    requires productions { length places.now ≡ length relations.old }
    requires few { All (λ (r : Pairs). r.points < 1024) relations.old }
    requires within { (i : ℕ) → i < length relations.old → All (FitsIn sorts.now (table_at relations.old i).points) (slice_index_or places.now i []) }
    requires closed { All (λ (r : Pairs). IsTransitive (Has r)) relations.old }
    ensures number { length relations.new ≡ length relations.old }
    ensures closed { (i : ℕ) → i < length relations.old → Closed (table_at relations.old i) (table_at relations.new i) (HandedAmong sorts.now (slice_index_or places.now i [])) }
{
    'productions: for production in 0..relations.len() {
        spread_places(
            &mut relations[production],
            sorts,
            places[production].as_slice(),
        );
    }
}
