ghost use Rattle.std.specs.Prelude.{◌≡◌, ◌+◌, ◌*◌, ◌≤◌, ◌∷◌, [], ◌++◌, pos, OnOk};
ghost use Rattle.lrc_base.specs.declared.item.RawTermItem.TheVariants as item;
ghost use Rattle.lrc_gen.specs.declared.tasks.Task.TheVariants as task;
ghost use Rattle.lrc_gen.specs.Generated.{leaf, neg_leaf, fork, left_nodes, right_nodes, tree};
ghost use Rattle.lrc_gen.specs.Tasks.{Parts};

use crate::draws::Draws;
use crate::names::name;
use lrc_base::{Memory, NameText, RawTermItem};

/// What is still to be done for a tree.
#[derive(Debug, Clone, Copy)]
pub enum Task {
    /// A tree of so many nodes is made, with the draws that this takes.
    Tree(u32),
    /// An item is added, whose children have been.
    Item(RawTermItem),
}

/// The leaf of a number.
pub fn number_item(number: u32) -> RawTermItem
    ensures { result ≡ item.Int (pos number) }
{
    RawTermItem::Int(i64::from(number))
}

/// Puts a node of one child on the tasks, and the child, which is a leaf.
fn push_over(tasks: &mut Vec<Task>, production: NameText, child: RawTermItem) -> Result<(), Memory>
    ensures { OnOk result (tasks.new.items ≡ tasks.old.items ++ task.Item (item.Node production 1) ∷ task.Item child ∷ []) }
{
    tasks.extend_from_slice(&[
        Task::Item(RawTermItem::Node(production, 1)),
        Task::Item(child),
    ])
}

/// Parts a leaf into its child and its node.
fn part_leaf(tasks: &mut Vec<Task>, draws: &mut Draws) -> Result<(), Memory>
    ensures { OnOk result (Parts leaf 3 tasks.old.items draws.old.state tasks.new.items draws.new.state) }
{
    if draws.draw(4) == 0 {
        let variable = RawTermItem::Name(draws.letter());
        push_over(tasks, name(b"Var"), variable)
    } else {
        let number = number_item(draws.draw(100));
        push_over(tasks, name(b"Num"), number)
    }
}

/// Parts a negation into a leaf and its node.
fn part_neg(tasks: &mut Vec<Task>, draws: &mut Draws) -> Result<(), Memory>
    ensures { OnOk result (Parts neg_leaf 15 tasks.old.items draws.old.state tasks.new.items draws.new.state) }
{
    tasks.push(Task::Item(RawTermItem::Node(name(b"Neg"), 1)))?;
    part_leaf(tasks, draws)
}

/// Parts a `Let` or a sum of so many nodes into its two trees and its node.
fn part_fork(tasks: &mut Vec<Task>, draws: &mut Draws, nodes: u32) -> Result<(), Memory>
    requires { 3 ≤ nodes }
    ensures { OnOk result (Parts (fork (tree (left_nodes nodes)) (tree (right_nodes nodes))) (6 * nodes + 3) tasks.old.items draws.old.state tasks.new.items draws.new.state) }
{
    let left = (nodes - 1) / 2;
    let right = nodes - 1 - left;
    if draws.draw(4) == 0 {
        let variable = RawTermItem::Name(draws.letter());
        tasks.extend_from_slice(&[
            Task::Item(RawTermItem::Node(name(b"Let"), 3)),
            Task::Tree(right),
            Task::Tree(left),
            Task::Item(variable),
        ])
    } else {
        tasks.extend_from_slice(&[
            Task::Item(RawTermItem::Node(name(b"Add"), 2)),
            Task::Tree(right),
            Task::Tree(left),
        ])
    }
}

/// Parts a tree of so many nodes into smaller ones and its node; one of at most one node is a leaf.
///
/// # Errors
///
/// Want of memory.
pub fn part(tasks: &mut Vec<Task>, draws: &mut Draws, nodes: u32) -> Result<(), Memory>
    ensures { OnOk result (Parts (tree nodes) (6 * nodes + 3) tasks.old.items draws.old.state tasks.new.items draws.new.state) }
{
    if nodes < 2 {
        part_leaf(tasks, draws)
    } else if nodes < 3 {
        part_neg(tasks, draws)
    } else {
        part_fork(tasks, draws, nodes)
    }
}
