ghost use Rattle.std.specs.Prelude.{◌≡◌, ◌≤◌, ◌∷◌, [], length, IfOk, OnOk};
ghost use Rattle.lrc_base.specs.RawTerms.{raw_grown, raw_wanted};
ghost use Rattle.lrc_gen.specs.Tasks.{needs, Performs};
ghost use Rattle.lrc_gen.specs.Generated.{root, num, tree};

use crate::draws::Draws;
use crate::names::name;
use crate::tasks::{Task, number_item, part};
use lrc_base::{AllocError, BuildFault, Memory, RawTerm, RawTermBuild, RawTermItem};
use std::alloc::Global;

/// Adds an item whose children are there.
fn add(build: &mut RawTermBuild, item: RawTermItem) -> Result<(), Memory>
    requires { raw_wanted item ≤ length build.old }
    ensures { OnOk result (build.new ≡ raw_grown build.old item) }
{
    match build.add(item) {
        Ok(()) => Ok(()),
        Err(BuildFault::Memory) => Err(AllocError),
        Err(BuildFault::TooFew) => unreachable!(),
    }
}

/// The one term that was made.
fn finish(build: RawTermBuild) -> RawTerm
    requires { length build ≡ 1 }
    ensures { build ≡ result ∷ [] }
{
    match build.finish() {
        Some(term) => term,
        None => unreachable!(),
    }
}

/// The term `Num` of this number.
///
/// # Errors
///
/// Want of memory.
pub fn number_term(alloc: Global, number: u32) -> Result<RawTerm, Memory>
    ensures { IfOk result (λ term. term ≡ num number) }
{
    let mut build = RawTermBuild::new(alloc);
    add(&mut build, number_item(number))?;
    add(&mut build, RawTermItem::Node(name(b"Num"), 1))?;
    Ok(finish(build))
}

/// An equal term, with memory of its own.
///
/// # Errors
///
/// Want of memory.
pub fn copy_term(alloc: Global, term: &RawTerm) -> Result<RawTerm, Memory>
    ensures { IfOk result (λ copy. copy ≡ term.now) }
{
    let mut build = RawTermBuild::new(alloc);
    for item in term.items().as_slice() {
        add(&mut build, *item)?;
    }
    Ok(finish(build))
}

/// Does a task, or leaves it to others.
fn perform(
    tasks: &mut Vec<Task>,
    build: &mut RawTermBuild,
    draws: &mut Draws,
    task: Task,
) -> Result<(), Memory>
    requires { needs task ≤ length build.old }
    ensures { OnOk result (Performs task tasks.old.items (build.old, draws.old.state) tasks.new.items (build.new, draws.new.state)) }
{
    match task {
        Task::Tree(nodes) => part(tasks, draws, nodes),
        Task::Item(item) => add(build, item),
    }
}

/// `Root` of a tree of so many nodes, with the draws that it takes.
///
/// # Errors
///
/// Want of memory.
pub fn draw_term(alloc: Global, draws: &mut Draws, nodes: u32) -> Result<RawTerm, Memory>
    ensures value { IfOk result (λ term. term ≡ root (tree nodes draws.old.state).0) }
    ensures state { OnOk result (draws.new.state ≡ (tree nodes draws.old.state).1) }
{
    let root = Task::Item(RawTermItem::Node(name(b"Root"), 1));
    let mut tasks = vec![in alloc; root, Task::Tree(nodes)]?;
    let mut build = RawTermBuild::new(alloc);
    while let Some(task) = tasks.pop() {
        perform(&mut tasks, &mut build, draws, task)?;
    }
    Ok(finish(build))
}
