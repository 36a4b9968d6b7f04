ghost use Rattle.std.specs.Prelude.{◌≡◌, ◌<◌, length, map, slice_get, IfOk, IfSome};
ghost use Rattle.lrc_grammar.specs.Grammar.{grammar_of};
ghost use Rattle.lrc_order_meaning.specs.Ordered.{HasOrder};
ghost use Rattle.lrc_plan_meaning.specs.Bindings.{binding};
ghost use Rattle.lrc_plan_meaning.specs.Plans.{sequences_of};
ghost use Rattle.lrc_plan_meaning.specs.Sequences.{segment};
ghost use Rattle.lrc_plan.specs.Planned.{IsVisit};

use crate::sequences::sequences;
use lrc_base::{List, Memory};
use lrc_grammar::Grammar;
use lrc_order_meaning::Partition;
use lrc_ordered::Partitions;
use lrc_plan_meaning::{Action, Bound, Sequences};
use std::alloc::Global;

/// Visit sequences and bindings of each production of a grammar, which is ordered with the pairs that its
/// partitions keep. It owns the grammar and its partitions.
#[derive(Debug, Drop)]
pub struct Plan {
    pub grammar: Grammar,
    pub parts: Partitions,
    /// By production.
    pub productions: List<Sequences>,
    pub ghost ordered: { ∥ HasOrder (grammar_of grammar) parts ∥₁ },
    pub ghost made: { productions ≡ map (sequences_of grammar.sorts parts.sorts) grammar.prods },
}

impl Plan {
    /// The plan of an ordered grammar with these partitions.
    pub(crate) fn new(alloc: Global, grammar: Grammar, parts: Partitions) -> Result<Plan, Memory>
        requires { HasOrder (grammar_of grammar) parts }
        ensures grammar { IfOk result (λ plan. plan.grammar ≡ grammar) }
        ensures parts { IfOk result (λ plan. plan.parts ≡ parts) }
    {
        let productions = all_sequences(alloc, &grammar, parts.sorts())?;
        Ok(Plan {
            grammar,
            parts,
            productions,
        })
    }

    /// The grammar.
    pub fn grammar(&self) -> &Grammar
        ensures { result.now ≡ self.now.grammar }
    {
        &self.grammar
    }

    /// Its partitions, with the pairs that were given.
    pub fn parts(&self) -> &Partitions
        ensures value { result.now ≡ self.now.parts }
        ensures ordered { ∥ HasOrder (grammar_of self.now.grammar) result.now ∥₁ }
    {
        &self.parts
    }

    /// All that is kept of a production: its symbols, and its segments and bindings with what each
    /// action needs and makes.
    pub fn sequences(&self, production: u32) -> &Sequences
        requires { production < length self.now.grammar.prods }
        ensures { IfSome (slice_get self.now.grammar.prods production) (λ p. result.now ≡ sequences_of self.now.grammar.sorts self.now.parts.sorts p) }
    {
        &self.productions.as_slice()[production as usize]
    }

    /// The actions of a visit, counted from 1, of a production's left side.
    pub fn actions(&self, production: u32, visit: u32) -> &List<Action>
        requires production { production < length self.now.grammar.prods }
        requires visit { IfSome (slice_get self.now.grammar.prods production) (λ p. IsVisit self.now.parts p visit) }
        ensures { IfSome (slice_get self.now.grammar.prods production) (λ p. result.now ≡ segment self.now.grammar.sorts self.now.parts.sorts p visit) }
    {
        &self.sequences(production).actions.as_slice()[visit as usize - 1]
    }

    /// What a visit of a production's left side hands on to a later one.
    pub fn binding(&self, production: u32, from: u32, to: u32) -> &List<Bound>
        requires production { production < length self.now.grammar.prods }
        requires from { IfSome (slice_get self.now.grammar.prods production) (λ p. IsVisit self.now.parts p from) }
        requires to { IfSome (slice_get self.now.grammar.prods production) (λ p. IsVisit self.now.parts p to) }
        requires later { from < to }
        ensures { IfSome (slice_get self.now.grammar.prods production) (λ p. result.now ≡ binding self.now.grammar.sorts self.now.parts.sorts p from to) }
    {
        let later = self.sequences(production).bindings.as_slice()[from as usize - 1].as_slice();
        &later[(to - from) as usize - 1]
    }
}

/// The sequences of all productions of a grammar.
fn all_sequences(
    alloc: Global,
    grammar: &Grammar,
    parts: &[Partition],
) -> Result<List<Sequences>, Memory>
    ensures { IfOk result (λ all. all ≡ map (sequences_of grammar.now.sorts parts.now) grammar.now.prods) }
{
    let mut all = List::new(alloc);
    let signatures = grammar.signatures.as_slice();
    'productions: for (number, production) in grammar.prods.as_slice().iter().enumerate() {
        all.push(sequences(alloc, grammar, parts, production, &signatures[number])?)?;
    }
    Ok(all)
}
