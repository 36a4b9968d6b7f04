ghost use Rattle.std.specs.Prelude.{◌≡◌, IsTrue, map, IfOk};
ghost use Rattle.lrc_plan_meaning.specs.declared.Bound as sequence;
ghost use Rattle.lrc_plan_meaning.specs.Items.{visits_of};
ghost use Rattle.lrc_plan.specs.ItemSets.{holds, HasRoomFor};
ghost use Rattle.lrc_plan.specs.Gaining.{shape_of};

use crate::item_set::ItemSet;
use crate::parts::visits_of;
use crate::site::Site;
use lrc_base::{List, Memory};
use lrc_order_meaning::{Partition, Place};
use std::alloc::Global;

/// How many occurrences a production has, and how many visits each of its symbols.
#[derive(Debug, Drop)]
pub struct Shape {
    pub occurrences: u32,
    pub visits: List<u32>,
}

impl Shape {
    /// The shape of a production. The error is want of memory.
    pub fn of(alloc: Global, site: &Site<'_>) -> Result<Shape, Memory>
        ensures { IfOk result (λ shape. shape ≡ shape_of site.now.sorts.now site.now.parts.now site.now.production.now) }
    {
        Ok(Shape {
            occurrences: site.signature.occurrences.len() as u32,
            visits: visits_of_each(alloc, site.parts, site.symbols())?,
        })
    }

    /// The empty set of the production's items. The error is want of memory.
    pub fn empty_set(&self, alloc: Global) -> Result<ItemSet, Memory>
        ensures empty { IfOk result (λ s. (x : sequence.Bound) → ¬ IsTrue (holds s x)) }
        ensures room { IfOk result (λ s. HasRoomFor s self.now.occurrences self.now.visits) }
    {
        ItemSet::new(alloc, self.occurrences as usize, self.visits.as_slice())
    }
}

/// How many visits each symbol has.
fn visits_of_each(
    alloc: Global,
    parts: &[Partition],
    symbols: &[Place],
) -> Result<List<u32>, Memory>
    ensures { IfOk result (λ visits. visits ≡ map (λ place. visits_of parts.now place.sort) symbols.now) }
{
    let mut visits = List::new(alloc);
    'symbols: for symbol in symbols {
        visits.push(visits_of(parts, symbol.sort))?;
    }
    Ok(visits)
}
