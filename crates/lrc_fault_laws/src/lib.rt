//! A grammar as it is written has no fault exactly where each of its names has a number and the
//! grammar by numbers is well formed: the definitions of faults, of naming and of well-formed
//! grammars agree.
//!
//! The function here does nothing; its contract is the law, in `specs/Laws.antt`.
#![tactic(auto)]

ghost use Rattle.lrc_base.specs.declared.raw.RawGrammar.{RawGrammar};
ghost use Rattle.lrc_fault_laws.specs.Laws.{NoFaultIsNamed, NamedHasNoFault};

/// Without a fault the grammar is named, and what it is named is well formed; and a grammar whose
/// names have numbers by which it is well formed has no fault.
pub fn no_fault_is_well_formed()
    ensures named { (raw : RawGrammar) → NoFaultIsNamed raw }
    ensures no_fault { (raw : RawGrammar) → NamedHasNoFault raw }
{}
