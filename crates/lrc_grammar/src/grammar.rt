ghost use Rattle.std.specs.Prelude.{◌≡◌, ◌<◌, length, map, slice_get, IsTrue, IfSome, IfOk};
ghost use Rattle.lrc_meaning.specs.Grammar.{is_well_formed};
ghost use Rattle.lrc_meaning.specs.Limits.{IsWithinLimits};
ghost use Rattle.lrc_meaning.specs.Signature.{signature_of};

use crate::copies::{copied_productions, copied_signatures, copied_sorts};
use crate::signature::signatures_of;
use lrc_base::{List, Memory, Production, Signature, Sort};
use std::alloc::Global;

/// A well-formed grammar within the limits: sorts, productions, the number of the start sort, and the
/// signatures of the productions. Sorts, productions, children and attributes are numbered from 0 in
/// order of declaration.
#[derive(Debug, Drop)]
pub struct Grammar {
    pub sorts: List<Sort>,
    pub prods: List<Production>,
    pub start: u32,
    /// By production.
    pub signatures: List<Signature>,
    pub ghost ok: { IsTrue (is_well_formed (record { sorts = sorts; prods = prods; start = start })) },
    pub ghost few: { IsWithinLimits (record { sorts = sorts; prods = prods; start = start }) },
    pub ghost signed: { signatures ≡ map (signature_of sorts) prods },
}

impl Grammar {
    ghost use Rattle.lrc_grammar.specs.Grammar.{grammar_of};

    /// The grammar of these parts, with the signature of each production.
    ///
    /// # Errors
    ///
    /// Want of memory.
    pub fn of(
        alloc: Global,
        sorts: List<Sort>,
        prods: List<Production>,
        start: u32,
    ) -> Result<Grammar, Memory>
        requires ok { IsTrue (is_well_formed (record { sorts = sorts; prods = prods; start = start })) }
        requires few { IsWithinLimits (record { sorts = sorts; prods = prods; start = start }) }
        ensures { IfOk result (λ g. grammar_of g ≡ record { sorts = sorts; prods = prods; start = start }) }
    {
        let signatures = signatures_of(alloc, sorts.as_slice(), prods.as_slice())?;
        Ok(Grammar {
            sorts,
            prods,
            start,
            signatures,
        })
    }

    /// The signature of a production.
    pub fn signature(&self, production: u32) -> &Signature
        requires { production < length self.now.prods }
        ensures { IfSome (slice_get self.now.prods production) (λ p. result.now ≡ signature_of self.now.sorts p) }
    {
        &self.signatures.as_slice()[production as usize]
    }

    /// An equal grammar, with memory of its own.
    ///
    /// # Errors
    ///
    /// Want of memory.
    pub fn copy(&self, alloc: Global) -> Result<Grammar, Memory>
        ensures { IfOk result (λ copy. grammar_of copy ≡ grammar_of self.now) }
    {
        let sorts = copied_sorts(alloc, self.sorts.as_slice())?;
        let prods = copied_productions(alloc, self.prods.as_slice())?;
        let signatures = copied_signatures(alloc, self.signatures.as_slice())?;
        Ok(Grammar {
            sorts,
            prods,
            start: self.start,
            signatures,
        })
    }
}
