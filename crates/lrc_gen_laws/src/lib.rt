//! Laws of generated jobs: each is accepted, and their grammar is ordered. Each function does nothing,
//! and carries a law as its contract.
#![tactic(auto)]

ghost use Rattle.std.specs.Prelude.{ℕ, []};
ghost use Rattle.lrc_order_meaning.specs.Ordered.{IsOrdered};
ghost use Rattle.lrc_gen.specs.Generated.{generated};
ghost use Rattle.lrc_gen_laws.specs.LetsGrammar.{lets_grammar};
ghost use Rattle.lrc_gen_laws.specs.Accepted.{IsAccepted};

/// A generated job is accepted, whatever its seed, its number of nodes and its number of sessions: its
/// grammar has no fault, and it has so many sessions, each with a tree of the start sort and with puts
/// of terms that are found.
pub fn generated_job_is_accepted()
    ensures { (seed nodes sessions : ℕ) → IsAccepted (generated seed nodes sessions) sessions }
{}

/// The grammar of generated jobs is ordered as it stands, with no pairs that are given.
pub fn generated_grammar_is_ordered()
    ensures { IsOrdered lets_grammar [] }
{}
