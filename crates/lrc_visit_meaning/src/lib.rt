//! The plain visit: what a visit of a tree computes, over plain values and with so much fuel. A
//! definition, in `specs/`, with which running visits are compared, and worked examples of it as laws.
#![tactic(auto)]

ghost use Rattle.std.specs.Prelude.{◌≡◌, ℕ, List, [], ◌∷◌, Some, None, pos};
ghost use Rattle.lrc_meaning.specs.Tree.{Tree, int};
ghost use Rattle.lrc_meaning.specs.Examples.{declarations, two_declarations};
ghost use Rattle.lrc_plan_meaning.specs.Examples.{partitions};
ghost use Rattle.lrc_visit_meaning.specs.Values.{value, Data, no_data, data_row, root_call};
ghost use Rattle.lrc_visit_meaning.specs.Visits.{plain_visit};
ghost use Rattle.lrc_visit_meaning.specs.Examples.{endless, endless_partitions, loop, one, call_of_one, number_result, second_item, second_call};
ghost use Rattle.lrc_visit_meaning.specs.Laws.{NoCallHasNone};

/// `Top(Decl(1, Decl(2, None())))`: both declarations are bad, which takes two visits of each, with a
/// binding from the first to the second, and fuel for four nodes.
pub fn two_declarations_are_bad()
    ensures { plain_visit declarations partitions 4 (root_call two_declarations) ≡ Some (number_result 4 2) }
{}

/// In the endless grammar `One()` has the value 1, by one visit of height 1. The visit of `Loop()`
/// visits `Loop()` again, which its nonterminal attribute attaches, so that no fuel is enough.
pub fn endless_expansion()
    ensures one { plain_visit endless endless_partitions 1 (root_call one) ≡ Some (number_result 1 1) }
    ensures endless { (fuel : ℕ) → plain_visit endless endless_partitions fuel (root_call loop) ≡ None }
{}

/// What does not have the form of a call has no result, whatever the fuel. So it is with visit 0 of
/// `One()`, and with visit 2, since its sort has one visit; with its visit, where a value is inherited or
/// a binding handed in; and with the second visit of a declaration, where its binding, which has two
/// items, has one.
pub fn what_is_no_call_has_no_result()
    ensures always { NoCallHasNone }
    ensures before_the_first { (fuel : ℕ) (inherited : List Tree) (bindings : List Data) → plain_visit endless endless_partitions fuel (call_of_one 0 inherited bindings) ≡ None }
    ensures behind_the_last { (fuel : ℕ) (inherited : List Tree) (bindings : List Data) → plain_visit endless endless_partitions fuel (call_of_one 2 inherited bindings) ≡ None }
    ensures inherited { (fuel : ℕ) → plain_visit endless endless_partitions fuel (call_of_one 1 (one ∷ []) []) ≡ None }
    ensures bound { (fuel : ℕ) → plain_visit endless endless_partitions fuel (call_of_one 1 [] (no_data ∷ [])) ≡ None }
    ensures short { (fuel : ℕ) → plain_visit declarations partitions fuel (second_call second_item (data_row (value (int (pos 20)) ∷ []))) ≡ None }
{}
