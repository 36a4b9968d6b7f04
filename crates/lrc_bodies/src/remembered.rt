ghost use Rattle.std.specs.Prelude.{◌≡◌, IfOk};
ghost use Rattle.lrc_grammar.specs.Grammar.{grammar_of};

use lrc_base::Memory;
use lrc_grammar::Grammar;
use lrc_ordered::Partitions;
use lrc_plan::Plan;
use lrc_store::Meaning;
use std::alloc::Global;

/// What the remembered calls of visits mean: a pair of a call and a result may be remembered exactly
/// where the plain visit of the call has that result, with fuel for the result's height, and both are
/// spelled; and they reach all that the visit meets. It has a grammar and partitions of its own.
#[derive(Debug, Drop)]
pub struct VisitMeaning {
    pub grammar: Grammar,
    pub parts: Partitions,
}

impl Meaning for VisitMeaning {
    ghost use Rattle.lrc_grammar.specs.Grammar.{grammar_of};
    ghost use Rattle.lrc_call_meaning.specs.Meaning as calls;
    ghost use Rattle.lrc_cell_laws.proofs.MeaningLemmas as laws;

    ghost allows = { λ m call outcome. calls.Allows (grammar_of m.grammar) m.parts.sorts call outcome };

    ghost reach = { λ m call outcome. calls.reached_by (grammar_of m.grammar) m.parts.sorts call outcome };

    ghost single = { λ m call one other. laws.single (grammar_of m.grammar) m.parts.sorts call one other };

    ghost filled = { λ m call outcome. laws.filled (grammar_of m.grammar) m.parts.sorts call outcome };

    ghost closed = { λ m call outcome. laws.closed (grammar_of m.grammar) m.parts.sorts call outcome };
}

impl VisitMeaning {
    /// The meaning of the visits of a plan.
    ///
    /// # Errors
    ///
    /// Want of memory.
    pub fn new(alloc: Global, plan: &Plan) -> Result<VisitMeaning, Memory>
        ensures grammar { IfOk result (λ meaning. grammar_of meaning.grammar ≡ grammar_of plan.now.grammar) }
        ensures parts { IfOk result (λ meaning. meaning.parts ≡ plan.now.parts) }
    {
        Ok(VisitMeaning {
            grammar: plan.grammar().copy(alloc)?,
            parts: plan.parts().copy(alloc)?,
        })
    }
}
