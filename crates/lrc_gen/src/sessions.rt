ghost use Rattle.std.specs.Prelude.{◌≡◌, IfOk, OnOk};
ghost use Rattle.lrc_gen.specs.Drawing.{row};
ghost use Rattle.lrc_gen.specs.Generated.{path, put, session};

use crate::draws::Draws;
use crate::terms::{copy_term, number_term};
use lrc_base::{List, Memory, Path, RawEdit, RawScript, RawTerm};
use std::alloc::Global;

/// The edits of each session.
const EDITS: u32 = 4;

/// A path from the root to its child, and so many steps on.
fn draw_path(alloc: Global, draws: &mut Draws, count: u32) -> Result<Path, Memory>
    ensures value { IfOk result (λ drawn. drawn ≡ (path count draws.old.state).0) }
    ensures state { OnOk result (draws.new.state ≡ (path count draws.old.state).1) }
{
    let mut steps = List::new(alloc);
    steps.push(0)?;
    for _step in 0..count {
        steps.push(draws.draw(2) as u8)?;
    }
    Ok(Path { steps })
}

/// An edit that puts a number at a place; the path is longer where the tree has many nodes.
fn draw_put(alloc: Global, draws: &mut Draws, nodes: u32) -> Result<RawEdit, Memory>
    ensures value { IfOk result (λ edit. edit ≡ (put nodes draws.old.state).0) }
    ensures state { OnOk result (draws.new.state ≡ (put nodes draws.old.state).1) }
{
    let further = if nodes < 100 { 0 } else { 4 };
    let count = draws.draw(4) + further;
    let path = draw_path(alloc, draws, count)?;
    let term = number_term(alloc, draws.draw(100))?;
    Ok(RawEdit::Put(path, term))
}

/// The edits of a session.
fn draw_edits(alloc: Global, draws: &mut Draws, nodes: u32) -> Result<List<RawEdit>, Memory>
    ensures value { IfOk result (λ edits. edits ≡ (row 4 (put nodes) draws.old.state).0) }
    ensures state { OnOk result (draws.new.state ≡ (row 4 (put nodes) draws.old.state).1) }
{
    let mut edits = List::new(alloc);
    for _edit in 0..EDITS {
        edits.push(draw_put(alloc, draws, nodes)?)?;
    }
    Ok(edits)
}

/// A session on a copy of the tree.
fn draw_session(
    alloc: Global,
    draws: &mut Draws,
    nodes: u32,
    tree: &RawTerm,
) -> Result<RawScript, Memory>
    ensures value { IfOk result (λ script. script ≡ (session nodes tree.now draws.old.state).0) }
    ensures state { OnOk result (draws.new.state ≡ (session nodes tree.now draws.old.state).1) }
{
    let edits = draw_edits(alloc, draws, nodes)?;
    let tree = copy_term(alloc, tree)?;
    Ok(RawScript { tree, edits })
}

/// So many sessions on copies of the tree.
///
/// # Errors
///
/// Want of memory.
pub fn draw_sessions(
    alloc: Global,
    draws: &mut Draws,
    nodes: u32,
    tree: &RawTerm,
    count: u32,
) -> Result<List<RawScript>, Memory>
    ensures value { IfOk result (λ scripts. scripts ≡ (row count (session nodes tree.now) draws.old.state).0) }
    ensures state { OnOk result (draws.new.state ≡ (row count (session nodes tree.now) draws.old.state).1) }
{
    let mut scripts = List::new(alloc);
    for _session in 0..count {
        scripts.push(draw_session(alloc, draws, nodes, tree)?)?;
    }
    Ok(scripts)
}
