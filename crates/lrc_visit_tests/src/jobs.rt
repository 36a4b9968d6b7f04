//! Grammars, visit functions and sessions of the texts of jobs.

ghost use Rattle.std.specs.Prelude.{◌≡◌, ◌≤◌, ◌^◌, ℕ, List, IfOk, IfSome, IsTrue};
ghost use Rattle.std.specs.List.{list_all};
ghost use Rattle.lrc_base.specs.declared.grammar.Production.{Production};
ghost use Rattle.lrc_job.specs.Fitting.{script_fits};
ghost use Rattle.lrc_plain.specs.Plain.{meaning_of};
ghost use Rattle.lrc_bodies.specs.Bodies.{IsMeaningOf};

use lrc_base::{List, Script};
use lrc_bodies::VisitMeaning;
use lrc_functions::Functions;
use lrc_grammar::Grammar;
use lrc_job::{Accepted, accept};
use lrc_ordered::ordered;
use lrc_plain::PlainStore;
use lrc_plan::plan;
use lrc_reader::read_job;
use std::alloc::Global;
use std::test::Fail;

/// The visit functions of a job's grammar, and its sessions, whose terms fit.
#[derive(Drop)]
pub(crate) struct Scene {
    pub functions: Functions,
    pub sessions: List<Script>,
    pub ghost fitting: { IsTrue (list_all (script_fits functions.plan.grammar.prods functions.plan.grammar.start) sessions) },
}

/// The grammar and the sessions of a job.
pub(crate) fn accepted(alloc: Global, text: &[u8]) -> Result<Accepted, Fail> {
    let job = read_job(alloc, text)?;
    Ok(accept(alloc, &job)?)
}

/// The visit functions of a grammar.
fn functions_of(alloc: Global, grammar: Grammar) -> Result<Functions, Fail>
    ensures { IfOk result (λ functions. functions.plan.grammar ≡ grammar) }
{
    let parts = ordered(alloc, &grammar)?;
    let plan = plan(alloc, grammar, parts)?;
    Ok(Functions::new(alloc, plan)?)
}

/// The visit functions and the sessions of a job.
pub(crate) fn scene_of(alloc: Global, text: &[u8]) -> Result<Scene, Fail> {
    let Accepted { grammar, sessions } = accepted(alloc, text)?;
    let functions = functions_of(alloc, grammar)?;
    Ok(Scene {
        functions,
        sessions,
    })
}

/// The only session among these.
pub(crate) fn only(sessions: &[Script]) -> Option<&Script>
    ensures { (prods : List Production) (start : ℕ) → IsTrue (list_all (script_fits prods start) sessions.now) → IfSome result (λ script. IsTrue (script_fits prods start script.now)) }
{
    let [script] = sessions else {
        return None;
    };
    Some(script)
}

/// A store of so many rows for the visits of these functions.
pub(crate) fn store_for(
    alloc: Global,
    functions: &Functions,
    rows: u32,
) -> Result<PlainStore<VisitMeaning>, Fail>
    requires some { 1 ≤ rows }
    requires limit { rows ≤ 2 ^ 24 }
    ensures { IfOk result (λ store. IsMeaningOf functions.now (meaning_of store)) }
{
    let meaning = VisitMeaning::new(alloc, functions.plan())?;
    Ok(PlainStore::with_meaning(alloc, meaning, rows)?)
}
