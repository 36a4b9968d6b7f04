ghost use Rattle.std.specs.Prelude.{◌≡◌, ℕ, ◌<◌, ◌≤◌, List, [], All, length, map, IfOk, OnOk, MatchOption};
ghost use Rattle.lrc_base.specs.declared.grammar.Sort as base_sort;
ghost use Rattle.lrc_base.specs.declared.grammar.Production as base_production;
ghost use Rattle.lrc_order_meaning.specs.declared.Partition as order;
ghost use Rattle.lrc_plan_meaning.specs.declared.Bound as sequence;
ghost use Rattle.lrc_plan_meaning.specs.Sequences.{State, greedy};
ghost use Rattle.lrc_plan.specs.ItemSets.{HasRoom};
ghost use Rattle.lrc_plan.specs.Running.{unchecked, IsChecked, is_ready_in, IsFirst, PassesNone, IsLeft, StandsFor};

use crate::item_set::ItemSet;
use crate::waiting::Waiting;
use lrc_base::{List, Memory};
use lrc_plan_meaning::Step;
use std::alloc::Global;

/// Whether all that the action awaits is available. Only items that were not looked at yet are.
fn is_ready(waiting: &mut Waiting, available: &ItemSet) -> bool
    requires { IsChecked available.now waiting.old }
    ensures same { unchecked waiting.new ≡ unchecked waiting.old }
    ensures checked { IsChecked available.now waiting.new }
    ensures ready { result ≡ is_ready_in available.now waiting.old }
{
    'awaits: while waiting.checked < waiting.awaits.len() {
        if !available.has(waiting.awaits.as_slice()[waiting.checked]) {
            return false;
        }
        waiting.checked += 1;
    }
    true
}

/// The first action that is ready.
fn first_ready(left: &mut Vec<Waiting>, available: &ItemSet) -> Option<usize>
    requires { All (IsChecked available.now) left.old.items }
    ensures same { map unchecked left.new.items ≡ map unchecked left.old.items }
    ensures checked { All (IsChecked available.now) left.new.items }
    ensures first { MatchOption result (PassesNone (is_ready_in available.now) left.new.items) (IsFirst (is_ready_in available.now) left.new.items) }
{
    'actions: for index in 0..left.len() {
        if is_ready(&mut left[index], available) {
            return Some(index);
        }
    }
    None
}

/// The steps of a segment: the least ready action is done until none is ready.
pub fn segment(
    alloc: Global,
    left: &mut Vec<Waiting>,
    available: &mut ItemSet,
) -> Result<List<Step>, Memory>
    requires { IsLeft available.old left.old.items }
    ensures left { OnOk result (IsLeft available.new left.new.items) }
    ensures room { OnOk result ((x : sequence.Bound) → HasRoom available.old x → HasRoom available.new x) }
    ensures steps { IfOk result (λ steps. (sorts : List base_sort.Sort) (parts : List order.Partition) (p : base_production.Production) (s : State) → StandsFor sorts parts p left.old.items available.old [] s → StandsFor sorts parts p left.new.items available.new steps (greedy sorts parts p (length s.left) s)) }
{
    let mut steps = List::new(alloc);
    'actions: while let Some(index) = first_ready(left, available) {
        let waiting = left.remove(index);
        available.insert_all(waiting.step.makes.as_slice());
        steps.push(waiting.step)?;
    }
    Ok(steps)
}
