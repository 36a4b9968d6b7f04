ghost use Rattle.std.specs.Prelude.{◌≡◌, Contains, IfOk};
ghost use Rattle.lrc_base.specs.declared.grammar.Production as base;
ghost use Rattle.lrc_grammar.specs.Grammar.{grammar_of};
ghost use Rattle.lrc_order_meaning.specs.Ordered.{HasOrder};
ghost use Rattle.lrc_plan_meaning.specs.Sound.{IsSound};

use crate::sequenced::Plan;
use lrc_base::Memory;
use lrc_grammar::Grammar;
use lrc_ordered::Partitions;
use std::alloc::Global;

/// The plan of a grammar that is ordered with the pairs that its partitions keep. It is sound: in each
/// visit of a production's left side each action finds what it needs among what the visit is called with
/// and what the actions before it made; at its end its synthesised attributes and all that it hands on
/// are there; and every occurrence to be defined is evaluated and every visit of every symbol is made,
/// each of them once.
///
/// # Errors
///
/// Want of memory.
pub fn plan(alloc: Global, grammar: Grammar, parts: Partitions) -> Result<Plan, Memory>
    requires { HasOrder (grammar_of grammar) parts }
    ensures grammar { IfOk result (λ plan. plan.grammar ≡ grammar) }
    ensures parts { IfOk result (λ plan. plan.parts ≡ parts) }
    ensures sound { (p : base.Production) → Contains grammar.prods p → IsSound grammar.sorts parts.sorts p }
{
    Plan::new(alloc, grammar, parts)
}
