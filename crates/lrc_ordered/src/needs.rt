ghost use Rattle.std.specs.Prelude.{◌≡◌, ◌+◌, ◌<◌, ◌≤◌, ◌^◌, ◌++◌, length, map, flat_map, IfOk, OnOk, All};
ghost use Rattle.lrc_meaning.specs.Expression.{expression, expression_row};
ghost use Rattle.lrc_meaning.specs.Grammar.{attrs_of_sort, occurrences_of};
ghost use Rattle.lrc_order_meaning.specs.Needs.{need, reads, reads_of_each, equation_needs, tree_needs, needs_of, places_of};
ghost use Rattle.std.specs.List.{range_with_len};
ghost use Rattle.lrc_order_meaning.specs.declared.Place as order;

use lrc_base::{Equation, Expr, List, Memory, Production, Sort};
use lrc_grammar::attrs_of_sort;
use lrc_order_meaning::{Need, Place};
use std::alloc::Global;

/// Puts a need of each occurrence that an expression reads behind the others.
#[cycle(reads)]
fn push_reads(needs: &mut List<Need>, expr: &Expr, target: u32) -> Result<(), Memory>
    ensures { OnOk result (needs.new ≡ needs.old ++ map (λ o. need o target) (reads (expression expr.now))) }
{
    match expr {
        Expr::Int(_) | Expr::Bool(_) | Expr::Name(_) | Expr::Leaf(_) => Ok(()),
        Expr::Occ(first) => {
            needs.push(Need {
                first: *first,
                then: target,
            })?;
            Ok(())
        }
        Expr::Op(_, left, right) => {
            push_reads(needs, left.get(), target)?;
            push_reads(needs, right.get(), target)?;
            Ok(())
        }
        Expr::If(condition, yes, no) => {
            push_reads(needs, condition.get(), target)?;
            push_reads(needs, yes.get(), target)?;
            push_reads(needs, no.get(), target)?;
            Ok(())
        }
        Expr::Make(_, args) => {
            push_reads_of_each(needs, args.as_slice(), target)?;
            Ok(())
        }
    }
}

#[cycle(reads)]
fn push_reads_of_each(needs: &mut List<Need>, args: &[Expr], target: u32) -> Result<(), Memory>
    ensures { OnOk result (needs.new ≡ needs.old ++ map (λ o. need o target) (reads_of_each (expression_row (map expression args.now)))) }
{
    for arg in args {
        push_reads(needs, arg, target)?;
    }
    Ok(())
}

/// Puts the needs of equations behind the others.
///
/// # Errors
///
/// Want of memory.
pub fn push_equation_needs(needs: &mut List<Need>, equations: &[Equation]) -> Result<(), Memory>
    ensures { OnOk result (needs.new ≡ needs.old ++ flat_map equation_needs equations.now) }
{
    for equation in equations {
        push_reads(needs, &equation.expr, equation.target)?;
    }
    Ok(())
}

/// Puts a need of one occurrence by each of some in a row behind the others.
#[tactic(auto, using(crate::proofs::NeedLemmas::row_more))]
fn push_row(needs: &mut List<Need>, first: u32, start: u32, count: u32) -> Result<(), Memory>
    requires { start + count < 2 ^ 32 }
    ensures { OnOk result (needs.new ≡ needs.old ++ map (need first) (range_with_len start count)) }
{
    for then in start..start + count {
        needs.push(Need { first, then })?;
    }
    Ok(())
}

/// Puts the needs of the attributes at a place behind the others: those at a nonterminal attribute
/// need its value.
fn push_tree_needs(needs: &mut List<Need>, sorts: &[Sort], place: Place) -> Result<(), Memory>
    requires { place.start + length (attrs_of_sort sorts.now place.sort) < 2 ^ 32 }
    ensures { OnOk result (needs.new ≡ needs.old ++ tree_needs sorts.now place) }
{
    match place.tree {
        Some(tree) => {
            let count = attrs_of_sort(sorts, place.sort).len() as u32;
            push_row(needs, tree, place.start, count)
        }
        None => Ok(()),
    }
}

/// Puts the needs of nonterminal attributes' trees behind the others.
fn push_trees_needs(needs: &mut List<Need>, sorts: &[Sort], places: &[Place]) -> Result<(), Memory>
    requires { All (λ (place : order.Place). place.start + length (attrs_of_sort sorts.now place.sort) < 2 ^ 32) places.now }
    ensures { OnOk result (needs.new ≡ needs.old ++ flat_map (tree_needs sorts.now) places.now) }
{
    for place in places {
        push_tree_needs(needs, sorts, *place)?;
    }
    Ok(())
}

/// The direct dependencies of a production with these places.
///
/// # Errors
///
/// Want of memory.
pub fn needs_of(
    alloc: Global,
    sorts: &[Sort],
    production: &Production,
    places: &[Place],
) -> Result<List<Need>, Memory>
    requires few { length (occurrences_of sorts.now production.now) < 2 ^ 32 }
    requires places { places.now ≡ places_of sorts.now production.now }
    ensures { IfOk result (λ needs. needs ≡ needs_of sorts.now production.now) }
{
    let mut needs = List::new(alloc);
    push_equation_needs(&mut needs, production.equations.as_slice())?;
    push_trees_needs(&mut needs, sorts, places)?;
    Ok(needs)
}
