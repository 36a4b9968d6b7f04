ghost use Rattle.std.specs.Prelude.{◌≡◌, ◌+◌, ◌<◌, ◌≤◌, Some, length, map, slice_get, IfOk, IfSome};
ghost use Rattle.lrc_meaning.specs.Grammar.{occurrences_of};
ghost use Rattle.lrc_plan_meaning.specs.Items.{visits_of};
ghost use Rattle.lrc_plan.specs.Planned.{IsVisit};
ghost use Rattle.lrc_functions.specs.Functions.{function_of, functions_of};
ghost use Rattle.lrc_functions.specs.Numbers.{rows_from, symbol_visits, item_count};

use crate::function::Function;
use crate::numbers::Numbers;
use crate::scene::Scene;
use lrc_base::{AllocError, List, Memory, Production};
use lrc_plan::{Block, Plan, visits_of};
use std::alloc::Global;

/// The visit functions of a plan, and how many items each production has. It owns the plan.
#[derive(Debug, Drop)]
pub struct Functions {
    pub plan: Plan,
    /// By production, and then by visit.
    pub productions: List<List<Function>>,
    /// How many items each production has, by its number.
    pub counts: List<u32>,
    pub ghost made: { productions ≡ map (functions_of plan.grammar.sorts plan.parts.sorts) plan.grammar.prods },
    pub ghost counted: { counts ≡ map (item_count plan.grammar.sorts plan.parts.sorts) plan.grammar.prods },
}

/// How many visits each symbol has.
fn symbol_visits(alloc: Global, plan: &Plan, number: u32) -> Result<List<u32>, Memory>
    requires { number < length plan.now.grammar.prods }
    ensures { IfOk result (λ visits. IfSome (slice_get plan.now.grammar.prods number) (λ p. visits ≡ symbol_visits plan.now.grammar.sorts plan.now.parts.sorts p)) }
{
    let symbols = plan.sequences(number).symbols.as_slice();
    let mut visits = List::new(alloc);
    'symbols: for place in symbols {
        visits.push(visits_of(plan.parts.sorts(), place.sort))?;
    }
    Ok(visits)
}

/// The function of a visit of a production.
fn function(alloc: Global, scene: &Scene<'_>, visit: u32) -> Result<Function, Memory>
    requires first { 1 ≤ visit }
    requires last { visit ≤ visits_of scene.now.parts.now scene.now.production.now.left }
    ensures { IfOk result (λ function. function ≡ function_of scene.now.sorts.now scene.now.parts.now scene.now.production.now visit) }
{
    let left = scene.production.left;
    let takes = Block {
        sort: left,
        visit,
        inherited: true,
    };
    let gives = Block {
        sort: left,
        visit,
        inherited: false,
    };
    let actions = scene.plan.actions(scene.number, visit);
    Ok(Function {
        inherited: scene.values(alloc, takes, 0)?,
        earlier: scene.handed_in(alloc, visit)?,
        operations: scene.operations(alloc, actions.as_slice())?,
        synthesised: scene.values(alloc, gives, 0)?,
        later: scene.handed_on(alloc, visit, visits_of(scene.parts, left))?,
    })
}

/// The functions of all visits of a production.
fn functions_of(alloc: Global, scene: &Scene<'_>) -> Result<List<Function>, Memory>
    ensures { IfOk result (λ functions. functions ≡ functions_of scene.now.sorts.now scene.now.parts.now scene.now.production.now) }
{
    let mut functions = List::new(alloc);
    'visits: for before in 0..visits_of(scene.parts, scene.production.left) {
        functions.push(function(alloc, scene, before + 1)?)?;
    }
    Ok(functions)
}

/// The number of occurrences; want of memory where no list is as long.
fn count(occurrences: usize) -> Result<u32, Memory>
    ensures { IfOk result (λ n. n ≡ occurrences) }
{
    u32::try_from(occurrences).ok().ok_or(AllocError)
}

/// The numbers of the items of a production of a plan, and how many items it has.
fn numbers_of(
    alloc: Global,
    plan: &Plan,
    number: u32,
    production: &Production,
) -> Result<(Numbers, u32), Memory>
    requires { slice_get plan.now.grammar.prods number ≡ Some production.now }
    ensures numbers { IfOk result (λ found. found.0 ≡ rows_from (length (occurrences_of plan.now.grammar.sorts production.now)) (symbol_visits plan.now.grammar.sorts plan.now.parts.sorts production.now)) }
    ensures count { IfOk result (λ found. found.1 ≡ item_count plan.now.grammar.sorts plan.now.parts.sorts production.now) }
{
    let visits = symbol_visits(alloc, plan, number)?;
    let occurrences = count(plan.grammar.signature(number).occurrences.len())?;
    Numbers::new(alloc, occurrences, visits.as_slice())
}

/// The functions of a production of a plan, and how many items it has.
fn production_functions(
    alloc: Global,
    plan: &Plan,
    number: u32,
    production: &Production,
) -> Result<(List<Function>, u32), Memory>
    requires { slice_get plan.now.grammar.prods number ≡ Some production.now }
    ensures functions { IfOk result (λ found. found.0 ≡ functions_of plan.now.grammar.sorts plan.now.parts.sorts production.now) }
    ensures count { IfOk result (λ found. found.1 ≡ item_count plan.now.grammar.sorts plan.now.parts.sorts production.now) }
{
    let (numbers, count) = numbers_of(alloc, plan, number, production)?;
    let scene = Scene {
        plan,
        sorts: plan.grammar.sorts.as_slice(),
        parts: plan.parts.sorts(),
        number,
        production,
        numbers,
    };
    Ok((functions_of(alloc, &scene)?, count))
}

impl Functions {
    /// The visit functions of a plan.
    ///
    /// # Errors
    ///
    /// Want of memory.
    pub fn new(alloc: Global, plan: Plan) -> Result<Functions, Memory>
        ensures { IfOk result (λ functions. functions.plan ≡ plan) }
    {
        let mut productions = List::new(alloc);
        let mut counts = List::new(alloc);
        'productions: for (number, production) in plan.grammar.prods.as_slice().iter().enumerate() {
            let (functions, count) = production_functions(alloc, &plan, number as u32, production)?;
            productions.push(functions)?;
            counts.push(count)?;
        }
        Ok(Functions {
            plan,
            productions,
            counts,
        })
    }

    /// The plan.
    pub fn plan(&self) -> &Plan
        ensures { result.now ≡ self.now.plan }
    {
        &self.plan
    }

    /// The function of a visit, counted from 1, of a production's left side.
    pub fn function(&self, production: u32, visit: u32) -> &Function
        requires production { production < length self.now.plan.grammar.prods }
        requires visit { IfSome (slice_get self.now.plan.grammar.prods production) (λ p. IsVisit self.now.plan.parts p visit) }
        ensures { IfSome (slice_get self.now.plan.grammar.prods production) (λ p. result.now ≡ function_of self.now.plan.grammar.sorts self.now.plan.parts.sorts p visit) }
    {
        &self.productions.as_slice()[production as usize].as_slice()[visit as usize - 1]
    }
}
