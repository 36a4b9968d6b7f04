ghost use Rattle.std.specs.Prelude.{◌≡◌, ◌+◌, ◌<◌, ◌↔◌, ◌++◌, All, Contains, IsTrue, true, false, length, map, flat_map, IfOk};
ghost use Rattle.lrc_plan_meaning.specs.declared.Step as sequence_step;
ghost use Rattle.lrc_plan_meaning.specs.Plans.{step_of};
ghost use Rattle.lrc_plan_meaning.specs.Sequences.{segments_of};
ghost use Rattle.lrc_plan.specs.ItemSets.{IsSetOf};
ghost use Rattle.lrc_plan.specs.Gaining.{shape_of, IsIn, gained_by, used_by, AreSetsOf};

use crate::item_set::ItemSet;
use crate::parts::visits_of;
use crate::segments::insert_values;
use crate::shape::Shape;
use crate::site::Site;
use lrc_base::{List, Memory};
use lrc_plan_meaning::Step;
use std::alloc::Global;

/// What becomes available in a visit of the left side with these steps: what it takes, and what they
/// make.
fn gained(
    alloc: Global,
    site: &Site<'_>,
    shape: &Shape,
    visit: u32,
    steps: &[Step],
) -> Result<ItemSet, Memory>
    requires shape { shape.now ≡ shape_of site.now.sorts.now site.now.parts.now site.now.production.now }
    requires makes { All (λ (s : sequence_step.Step). All (IsIn shape.now) s.makes) steps.now }
    ensures { IfOk result (λ set. IsSetOf set (gained_by site.now.sorts.now site.now.parts.now site.now.production.now.left visit steps.now)) }
{
    let mut set = shape.empty_set(alloc)?;
    insert_values(alloc, &mut set, site, visit, true)?;
    'steps: for step in steps {
        set.insert_all(step.makes.as_slice());
    }
    Ok(set)
}

/// What is used in it: what the steps need, and what it gives.
fn used(
    alloc: Global,
    site: &Site<'_>,
    shape: &Shape,
    visit: u32,
    steps: &[Step],
) -> Result<ItemSet, Memory>
    requires shape { shape.now ≡ shape_of site.now.sorts.now site.now.parts.now site.now.production.now }
    requires needs { All (λ (s : sequence_step.Step). All (IsIn shape.now) s.needs) steps.now }
    ensures { IfOk result (λ set. IsSetOf set (used_by site.now.sorts.now site.now.parts.now site.now.production.now.left visit steps.now)) }
{
    let mut set = shape.empty_set(alloc)?;
    'steps: for step in steps {
        set.insert_all(step.needs.as_slice());
    }
    insert_values(alloc, &mut set, site, visit, false)?;
    Ok(set)
}

/// What becomes available in each visit of the left side of a production with this shape and these
/// segments.
pub fn all_gained(
    alloc: Global,
    site: &Site<'_>,
    shape: &Shape,
    segments: &[List<Step>],
) -> Result<Vec<ItemSet>, Memory>
    requires shape { shape.now ≡ shape_of site.now.sorts.now site.now.parts.now site.now.production.now }
    requires segments { segments.now ≡ map (map (step_of site.now.sorts.now site.now.parts.now site.now.production.now)) (segments_of site.now.sorts.now site.now.parts.now site.now.production.now) }
    ensures { IfOk result (λ sets. AreSetsOf (gained_by site.now.sorts.now site.now.parts.now site.now.production.now.left) segments.now sets.items) }
{
    let mut sets = Vec::new(alloc);
    'visits: for earlier in 0..visits_of(site.parts, site.production.left) {
        let steps = segments[earlier as usize].as_slice();
        sets.push(gained(alloc, site, shape, earlier + 1, steps)?)?;
    }
    Ok(sets)
}

/// What is used in each visit of the left side of a production with this shape and these segments.
pub fn all_used(
    alloc: Global,
    site: &Site<'_>,
    shape: &Shape,
    segments: &[List<Step>],
) -> Result<Vec<ItemSet>, Memory>
    requires shape { shape.now ≡ shape_of site.now.sorts.now site.now.parts.now site.now.production.now }
    requires segments { segments.now ≡ map (map (step_of site.now.sorts.now site.now.parts.now site.now.production.now)) (segments_of site.now.sorts.now site.now.parts.now site.now.production.now) }
    ensures { IfOk result (λ sets. AreSetsOf (used_by site.now.sorts.now site.now.parts.now site.now.production.now.left) segments.now sets.items) }
{
    let mut sets = Vec::new(alloc);
    'visits: for earlier in 0..visits_of(site.parts, site.production.left) {
        let steps = segments[earlier as usize].as_slice();
        sets.push(used(alloc, site, shape, earlier + 1, steps)?)?;
    }
    Ok(sets)
}
