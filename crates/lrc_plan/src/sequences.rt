ghost use Rattle.std.specs.Prelude.{◌≡◌, Contains, map, IfOk};
ghost use Rattle.lrc_meaning.specs.Signature.{signature_of};
ghost use Rattle.lrc_plan_meaning.specs.declared.Step as sequence;
ghost use Rattle.lrc_plan_meaning.specs.Plans.{step_of, bindings_of, sequences_of};
ghost use Rattle.lrc_plan_meaning.specs.Sequences.{segments_of};
ghost use Rattle.lrc_plan.specs.Gaining.{shape_of};

use crate::bindings::{all_items, bindings};
use crate::gaining::{all_gained, all_used};
use crate::segments::segments;
use crate::shape::Shape;
use crate::site::Site;
use crate::waiting::waiting_actions;
use lrc_base::{List, Memory, Production, Signature};
use lrc_grammar::Grammar;
use lrc_order_meaning::Partition;
use lrc_ordered::places_of;
use lrc_plan_meaning::{Action, Bound, Sequences, Step};
use std::alloc::Global;

/// The actions of a segment's steps.
fn actions(alloc: Global, steps: &[Step]) -> Result<List<Action>, Memory>
    ensures { IfOk result (λ actions. actions ≡ map (λ (s : sequence.Step). s.action) steps.now) }
{
    let mut actions = List::new(alloc);
    'steps: for step in steps {
        actions.push(step.action)?;
    }
    Ok(actions)
}

/// The actions of segments.
fn all_actions(alloc: Global, segments: &[List<Step>]) -> Result<List<List<Action>>, Memory>
    ensures { IfOk result (λ lists. lists ≡ map (map (λ (s : sequence.Step). s.action)) segments.now) }
{
    let mut lists = List::new(alloc);
    'segments: for steps in segments {
        lists.push(actions(alloc, steps.as_slice())?)?;
    }
    Ok(lists)
}

/// The bindings of a production with this shape and these segments.
fn all_bindings(
    alloc: Global,
    site: &Site<'_>,
    shape: &Shape,
    segments: &[List<Step>],
) -> Result<List<List<List<Bound>>>, Memory>
    requires shape { shape.now ≡ shape_of site.now.sorts.now site.now.parts.now site.now.production.now }
    requires segments { segments.now ≡ map (map (step_of site.now.sorts.now site.now.parts.now site.now.production.now)) (segments_of site.now.sorts.now site.now.parts.now site.now.production.now) }
    ensures { IfOk result (λ bindings. bindings ≡ bindings_of site.now.sorts.now site.now.parts.now site.now.production.now) }
{
    let items = all_items(alloc, shape.occurrences, shape.visits.as_slice())?;
    let gained = all_gained(alloc, site, shape, segments)?;
    let used = all_used(alloc, site, shape, segments)?;
    bindings(alloc, items.as_slice(), &gained, &used)
}

/// The visit sequences and bindings of the production of a site.
fn sequences_at(alloc: Global, site: &Site<'_>) -> Result<Sequences, Memory>
    ensures { IfOk result (λ found. found ≡ sequences_of site.now.sorts.now site.now.parts.now site.now.production.now) }
{
    let shape = Shape::of(alloc, site)?;
    let waiting = waiting_actions(alloc, site)?;
    let steps = segments(alloc, site, &shape, waiting)?;
    let bindings = all_bindings(alloc, site, &shape, steps.as_slice())?;
    Ok(Sequences {
        symbols: List::from_slice(alloc, site.symbols())?,
        actions: all_actions(alloc, steps.as_slice())?,
        steps,
        bindings,
    })
}

/// The visit sequences and bindings of a production of the grammar with this signature.
///
/// # Errors
///
/// Want of memory.
pub fn sequences(
    alloc: Global,
    grammar: &Grammar,
    parts: &[Partition],
    production: &Production,
    signature: &Signature,
) -> Result<Sequences, Memory>
    requires there { Contains grammar.now.prods production.now }
    requires signature { signature.now ≡ signature_of grammar.now.sorts production.now }
    ensures { IfOk result (λ found. found ≡ sequences_of grammar.now.sorts parts.now production.now) }
{
    let places = places_of(alloc, production, signature)?;
    let site = Site {
        sorts: grammar.sorts.as_slice(),
        parts,
        production,
        signature,
        places: places.as_slice(),
    };
    sequences_at(alloc, &site)
}
