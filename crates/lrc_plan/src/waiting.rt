ghost use Rattle.std.specs.Prelude.{◌≡◌, ◌<◌, ◌^◌, ◌++◌, ◌∷◌, [], length, map, filter, flat_map, IfOk, OnOk};
ghost use Rattle.std.specs.List.{range_with_len};
ghost use Rattle.lrc_meaning.specs.Grammar.{occurrences_of};
ghost use Rattle.lrc_meaning.specs.Signature.{role_of};
ghost use Rattle.lrc_order_meaning.specs.Needs.{symbols_of, equation_needs};
ghost use Rattle.lrc_plan_meaning.specs.declared.Action.TheVariants as a;
ghost use Rattle.lrc_plan_meaning.specs.declared.Bound.TheVariants as b;
ghost use Rattle.lrc_plan_meaning.specs.Sequences.{is_defined, visits_at, actions_of};
ghost use Rattle.lrc_plan.specs.Waiting.{waiting_of, waiting_evaluation};

use crate::pairs::{extended, firsts};
use crate::parts::visits_of;
use crate::site::Site;
use crate::visits::{given_back, taken};
use lrc_base::{List, Memory, Occurrence, Production};
use lrc_order_meaning::Need;
use lrc_ordered::push_equation_needs;
use lrc_plan_meaning::{Action, Bound, Step};
use std::alloc::Global;

/// An action that was not done yet.
#[derive(Debug, Drop)]
pub struct Waiting {
    pub step: Step,
    /// The items without which it is not ready.
    pub awaits: List<Bound>,
    /// How many of them, from the front, were found available.
    pub checked: usize,
}

/// The evaluation of an occurrence.
fn evaluation(
    alloc: Global,
    occurrence: u32,
    needs: &[Bound],
    awaits: &[Bound],
) -> Result<Waiting, Memory>
    ensures { IfOk result (λ w. w ≡ record { step = record { action = a.Eval occurrence; needs = needs.now; makes = b.Value occurrence ∷ [] }; awaits = awaits.now; checked = 0 }) }
{
    let mut makes = List::new(alloc);
    makes.push(Bound::Value(occurrence))?;
    Ok(Waiting {
        step: Step {
            action: Action::Eval(occurrence),
            needs: List::from_slice(alloc, needs)?,
            makes,
        },
        awaits: List::from_slice(alloc, awaits)?,
        checked: 0,
    })
}

/// What equations read, each with the equation's target.
fn equation_needs(alloc: Global, production: &Production) -> Result<List<Need>, Memory>
    ensures { IfOk result (λ needs. needs ≡ flat_map equation_needs production.now.equations) }
{
    let mut needs = List::new(alloc);
    push_equation_needs(&mut needs, production.equations.as_slice())?;
    Ok(needs)
}

/// Puts the evaluations of the occurrences that are defined behind the others.
fn push_evaluations(
    alloc: Global,
    waiting: &mut Vec<Waiting>,
    occurrences: &[Occurrence],
    needs: &[List<Bound>],
    awaits: &[List<Bound>],
) -> Result<(), Memory>
    requires few { length occurrences.now < 2 ^ 32 }
    requires lists { (length needs.now ≡ length occurrences.now) × (length awaits.now ≡ length occurrences.now) }
    ensures { OnOk result (waiting.new.items ≡ waiting.old.items ++ map (waiting_evaluation needs.now awaits.now) (filter (is_defined (map role_of occurrences.now)) (range_with_len 0 (length occurrences.now)))) }
{
    'occurrences: for number in 0..occurrences.len() {
        if occurrences[number].is_defined {
            let (needs, awaits) = (needs[number].as_slice(), awaits[number].as_slice());
            waiting.push(evaluation(alloc, number as u32, needs, awaits)?)?;
        }
    }
    Ok(())
}

/// The evaluations of a production.
fn evaluations(alloc: Global, site: &Site<'_>) -> Result<Vec<Waiting>, Memory>
    ensures { IfOk result (λ waiting. waiting.items ≡ map (λ o. waiting_of site.now.sorts.now site.now.parts.now site.now.production.now (a.Eval o)) (filter (is_defined (occurrences_of site.now.sorts.now site.now.production.now)) (range_with_len 0 (length (occurrences_of site.now.sorts.now site.now.production.now))))) }
{
    let occurrences = site.signature.occurrences.as_slice();
    let read = equation_needs(alloc, site.production)?;
    let needs = firsts(alloc, read.as_slice(), occurrences.len())?;
    let pairs = extended(alloc, site)?;
    let awaits = firsts(alloc, pairs.as_slice(), occurrences.len())?;
    let mut waiting = Vec::new(alloc);
    push_evaluations(alloc, &mut waiting, occurrences, &needs, &awaits)?;
    Ok(waiting)
}

/// A visit of a symbol.
fn waiting_visit(alloc: Global, site: &Site<'_>, symbol: u32, visit: u32) -> Result<Waiting, Memory>
    requires { symbol < length (symbols_of site.now.sorts.now site.now.production.now) }
    ensures { IfOk result (λ w. w ≡ waiting_of site.now.sorts.now site.now.parts.now site.now.production.now (a.Visit symbol visit)) }
{
    let needs = taken(alloc, site, symbol, visit)?;
    let awaits = List::from_slice(alloc, needs.as_slice())?;
    let makes = given_back(alloc, site, symbol, visit)?;
    Ok(Waiting {
        step: Step {
            action: Action::Visit(symbol, visit),
            needs,
            makes,
        },
        awaits,
        checked: 0,
    })
}

/// Puts all visits of a symbol behind the others.
fn push_visits(
    alloc: Global,
    waiting: &mut Vec<Waiting>,
    site: &Site<'_>,
    symbol: u32,
) -> Result<(), Memory>
    requires { symbol < length (symbols_of site.now.sorts.now site.now.production.now) }
    ensures { OnOk result (waiting.new.items ≡ waiting.old.items ++ map (waiting_of site.now.sorts.now site.now.parts.now site.now.production.now) (visits_at site.now.sorts.now site.now.parts.now site.now.production.now symbol)) }
{
    'visits: for earlier in 0..visits_of(site.parts, site.symbol(symbol).sort) {
        waiting.push(waiting_visit(alloc, site, symbol, earlier + 1)?)?;
    }
    Ok(())
}

/// Puts all visits of all symbols behind the others.
fn push_all_visits(alloc: Global, waiting: &mut Vec<Waiting>, site: &Site<'_>) -> Result<(), Memory>
    ensures { OnOk result (waiting.new.items ≡ waiting.old.items ++ flat_map (λ s. map (waiting_of site.now.sorts.now site.now.parts.now site.now.production.now) (visits_at site.now.sorts.now site.now.parts.now site.now.production.now s)) (range_with_len 0 (length (symbols_of site.now.sorts.now site.now.production.now)))) }
{
    'symbols: for symbol in 0..site.symbols().len() as u32 {
        push_visits(alloc, waiting, site, symbol)?;
    }
    Ok(())
}

/// All actions of a production, the least first.
pub fn waiting_actions(alloc: Global, site: &Site<'_>) -> Result<Vec<Waiting>, Memory>
    ensures { IfOk result (λ waiting. waiting.items ≡ map (waiting_of site.now.sorts.now site.now.parts.now site.now.production.now) (actions_of site.now.sorts.now site.now.parts.now site.now.production.now)) }
{
    let mut waiting = evaluations(alloc, site)?;
    push_all_visits(alloc, &mut waiting, site)?;
    Ok(waiting)
}
