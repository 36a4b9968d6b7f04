ghost use Rattle.std.specs.Prelude.{◌≡◌, IfOk};
ghost use Rattle.lrc_gen.specs.Generated.{generated};

use crate::draws::Draws;
use crate::lets::lets;
use crate::sessions::draw_sessions;
use crate::terms::draw_term;
use lrc_base::{Job, Memory};
use std::alloc::Global;

/// The generated job of a seed: a grammar of sums and of names that are bound, and so many sessions on one
/// tree, whose root has a tree of so many nodes below it. Each session has four edits, which put a number
/// at a place.
///
/// The numbers are any; a tree of no nodes is drawn as one of one node. The stack does not grow with them.
///
/// # Errors
///
/// Want of memory.
pub fn gen_job(alloc: Global, seed: u32, nodes: u32, sessions: u32) -> Result<Job, Memory>
    ensures job { IfOk result (λ job. job ≡ generated seed nodes sessions) }
{
    let grammar = lets(alloc)?;
    let mut draws = Draws { state: seed };
    let tree = draw_term(alloc, &mut draws, nodes)?;
    let sessions = draw_sessions(alloc, &mut draws, nodes, &tree, sessions)?;
    Ok(Job { grammar, sessions })
}
