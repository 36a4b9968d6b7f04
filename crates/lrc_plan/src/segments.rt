ghost use Rattle.std.specs.Prelude.{◌≡◌, ◌↔◌, ◌⊎◌, All, Contains, IsTrue, map, IfOk, OnOk};
ghost use Rattle.lrc_plan_meaning.specs.declared.Bound as sequence;
ghost use Rattle.lrc_plan_meaning.specs.Items.{values_of_visit};
ghost use Rattle.lrc_plan_meaning.specs.Plans.{step_of};
ghost use Rattle.lrc_plan_meaning.specs.Sequences.{actions_of, segments_of};
ghost use Rattle.lrc_plan.specs.Gaining.{shape_of};
ghost use Rattle.lrc_plan.specs.ItemSets.{holds, HasRoom};
ghost use Rattle.lrc_plan.specs.Waiting.{waiting_of};

use crate::greedy::segment;
use crate::item_set::ItemSet;
use crate::parts::{Block, visits_of};
use crate::shape::Shape;
use crate::site::Site;
use crate::visits::push_values;
use crate::waiting::Waiting;
use lrc_base::{List, Memory};
use lrc_plan_meaning::Step;
use std::alloc::Global;

/// Puts the values of the left side's attributes that a visit takes, which are inherited, or gives, which
/// are not, into a set.
pub fn insert_values(
    alloc: Global,
    set: &mut ItemSet,
    site: &Site<'_>,
    visit: u32,
    inherited: bool,
) -> Result<(), Memory>
    requires { All (HasRoom set.old) (values_of_visit site.now.sorts.now site.now.parts.now inherited site.now.production.now.left 0 visit) }
    ensures items { OnOk result ((x : sequence.Bound) → IsTrue (holds set.new x) ↔ (IsTrue (holds set.old x) ⊎ Contains (values_of_visit site.now.sorts.now site.now.parts.now inherited site.now.production.now.left 0 visit) x)) }
    ensures room { OnOk result ((x : sequence.Bound) → HasRoom set.old x → HasRoom set.new x) }
{
    let block = Block {
        sort: site.production.left,
        visit,
        inherited,
    };
    let mut items = List::new(alloc);
    push_values(&mut items, site, block, 0)?;
    set.insert_all(items.as_slice());
    Ok(())
}

/// The segments of a production of this shape, by these actions.
pub fn segments(
    alloc: Global,
    site: &Site<'_>,
    shape: &Shape,
    mut left: Vec<Waiting>,
) -> Result<List<List<Step>>, Memory>
    requires shape { shape.now ≡ shape_of site.now.sorts.now site.now.parts.now site.now.production.now }
    requires actions { left.items ≡ map (waiting_of site.now.sorts.now site.now.parts.now site.now.production.now) (actions_of site.now.sorts.now site.now.parts.now site.now.production.now) }
    ensures { IfOk result (λ steps. steps ≡ map (map (step_of site.now.sorts.now site.now.parts.now site.now.production.now)) (segments_of site.now.sorts.now site.now.parts.now site.now.production.now)) }
{
    let mut available = shape.empty_set(alloc)?;
    let mut segments = List::new(alloc);
    'visits: for earlier in 0..visits_of(site.parts, site.production.left) {
        insert_values(alloc, &mut available, site, earlier + 1, true)?;
        segments.push(segment(alloc, &mut left, &mut available)?)?;
    }
    Ok(segments)
}
