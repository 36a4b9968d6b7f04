ghost use Rattle.std.specs.Prelude.{◌≡◌, [], IfOk, IfErr};
ghost use Rattle.lrc_grammar.specs.Grammar.{grammar_of};
ghost use Rattle.lrc_ordered.specs.Faults.{IsOrderFault};
ghost use Rattle.lrc_cli.specs.Causes.{IsPlaced, IsNamed, IsCycleAt, IsUnordered};
ghost use Rattle.lrc_cli.specs.Headline.{IsOrderedBy};

use lrc_failures::{Cycle, Failure};
use lrc_grammar::Grammar;
use lrc_ordered::{OrderFault, ordered};
use lrc_plan::{Plan, plan};
use std::alloc::Global;

/// The cycle at an occurrence of a production, by their names.
fn cycle_at(grammar: &Grammar, is_extended: bool, production: u32, occurrence: u32) -> Cycle
    requires { IsPlaced (grammar_of grammar.now) production occurrence }
    ensures named { IsNamed (grammar_of grammar.now) production occurrence result }
    ensures kind { result.is_extended ≡ is_extended }
{
    let found = &grammar.signature(production).occurrences.as_slice()[occurrence as usize];
    Cycle {
        is_extended,
        production: grammar.prods.as_slice()[production as usize].name,
        owner: found.owner,
        occurrence: found.name,
    }
}

/// That the grammar is not ordered, with the cycle at an occurrence of a production.
fn not_ordered(grammar: &Grammar, is_extended: bool, production: u32, occurrence: u32) -> Failure
    requires { IsCycleAt is_extended (grammar_of grammar.now) production occurrence }
    ensures { IsUnordered (grammar_of grammar.now) result }
{
    Failure::NotOrdered(cycle_at(grammar, is_extended, production, occurrence))
}

/// What a fault of the ordered test is to the program.
fn failure_of(grammar: &Grammar, fault: OrderFault) -> Failure
    requires { IsOrderFault (grammar_of grammar.now) [] fault }
    ensures { IsUnordered (grammar_of grammar.now) result }
{
    match fault {
        OrderFault::Induced {
            production,
            occurrence,
        } => not_ordered(grammar, false, production, occurrence),
        OrderFault::Extended {
            production,
            occurrence,
        } => not_ordered(grammar, true, production, occurrence),
        OrderFault::Memory => Failure::Memory,
    }
}

/// The plan of a grammar.
///
/// # Errors
///
/// That the grammar is not ordered, and want of memory.
pub fn plan_of(alloc: Global, grammar: &Grammar) -> Result<Plan, Failure>
    ensures grammar { IfOk result (λ plan. grammar_of plan.grammar ≡ grammar_of grammar.now) }
    ensures parts { IfOk result (λ plan. IsOrderedBy (grammar_of grammar.now) plan.parts) }
    ensures fault { IfErr result (IsUnordered (grammar_of grammar.now)) }
{
    let copy = grammar.copy(alloc)?;
    match ordered(alloc, grammar) {
        Ok(parts) => Ok(plan(alloc, copy, parts)?),
        Err(fault) => Err(failure_of(grammar, fault)),
    }
}
