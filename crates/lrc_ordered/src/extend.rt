ghost use Rattle.std.specs.Prelude.{◌≡◌, ℕ, ◌<◌, All, [], length, slice_index_or};
ghost use Rattle.lrc_graph.specs.Pairs.{Pairs, Has, IsTransitive};
ghost use Rattle.lrc_ordered.specs.Setup.{orders_of};
ghost use Rattle.lrc_ordered.specs.Tables.{Closed, HandedAmong, FitsIn, table_at};

use crate::spread::spread_place;
use lrc_base::List;
use lrc_graph::Relation;
use lrc_order_meaning::{Partition, Place};

/// Pairs the occurrences of two attributes at each place of a production, where its sort's order pairs
/// the attributes, and closes the production's relation again.
fn extend_places(relation: &mut Relation, sorts: &[Partition], places: &[Place])
    requires few { relation.old.points < 1024 }
    requires within { All (FitsIn (orders_of sorts.now) relation.old.points) places.now }
    requires closed { IsTransitive (Has relation.old) }
    ensures { Closed relation.old relation.new (HandedAmong (orders_of sorts.now) places.now) }
{
    'places: for place in places {
        spread_place(relation, &sorts[place.sort as usize].before, place.start);
    }
}

/// The same in each production.
fn extend(relations: &mut [Relation], sorts: &[Partition], places: &[List<Place>])
    requires productions { length places.now ≡ length relations.old }
    requires few { All (λ (r : Pairs). r.points < 1024) relations.old }
    requires within { (i : ℕ) → i < length relations.old → All (FitsIn (orders_of sorts.now) (table_at relations.old i).points) (slice_index_or places.now i []) }
    requires closed { All (λ (r : Pairs). IsTransitive (Has r)) relations.old }
    ensures number { length relations.new ≡ length relations.old }
    ensures closed { (i : ℕ) → i < length relations.old → Closed (table_at relations.old i) (table_at relations.new i) (HandedAmong (orders_of sorts.now) (slice_index_or places.now i [])) }
{
    'productions: for production in 0..relations.len() {
        extend_places(
            &mut relations[production],
            sorts,
            places[production].as_slice(),
        );
    }
}

/// Tables of productions with the order of each sort at each of its places.
pub fn extended(
    mut relations: Vec<Relation>,
    sorts: &[Partition],
    places: &[List<Place>],
) -> Vec<Relation>
    requires productions { length places.now ≡ length relations.items }
    requires few { All (λ (r : Pairs). r.points < 1024) relations.items }
    requires within { (i : ℕ) → i < length relations.items → All (FitsIn (orders_of sorts.now) (table_at relations.items i).points) (slice_index_or places.now i []) }
    requires closed { All (λ (r : Pairs). IsTransitive (Has r)) relations.items }
    ensures number { length result.items ≡ length relations.items }
    ensures closed { (i : ℕ) → i < length relations.items → Closed (table_at relations.items i) (table_at result.items i) (HandedAmong (orders_of sorts.now) (slice_index_or places.now i [])) }
{
    extend(&mut relations, sorts, places);
    relations
}
