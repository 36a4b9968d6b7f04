ghost use Rattle.std.specs.Prelude.{◌≡◌, ◌<◌, ◌≤◌, ◌↔◌, ◌^◌, ℕ, true, false, length, All, MatchOption, IfOk};
ghost use Rattle.std.specs.List.{list_all};
ghost use Rattle.lrc_base.specs.declared.grammar.Production.{Production};
ghost use Rattle.lrc_syntax.specs.Trees.{HasTree, IsFirstWithout, has_sort, has_kind, has_kid, IsClosed, Makes};

use lrc_base::{Kid, Kind, List, Memory, Production};
use sqlite_items::at;
use std::alloc::Global;

/// Whether the sort of this number is among those that are found.
fn has_sort(found: &[bool], sort: u32) -> bool
    ensures { result ≡ has_sort found.now sort }
{
    match at(found, sort as usize) {
        Some(is_found) => *is_found,
        None => false,
    }
}

/// Whether the kind is no sort, or a sort that is found.
fn has_kind(found: &[bool], kind: Kind) -> bool
    ensures { result ≡ has_kind found.now kind }
{
    match kind {
        Kind::Int | Kind::Bool | Kind::Name => true,
        Kind::Sort(sort) => has_sort(found, sort),
    }
}

fn has_kids(found: &[bool], kids: &[Kid]) -> bool
    ensures { result ≡ list_all (has_kid found.now) kids.now }
{
    for kid in kids {
        if !has_kind(found, kid.kind) {
            return false;
        }
    }
    true
}

/// A sort that isn't found yet, and of which a production makes a tree of those that are.
fn next_sort(prods: &[Production], found: &[bool]) -> Option<u32>
    ensures { MatchOption result (IsClosed prods.now found.now) (λ sort. (has_sort found.now sort ≡ false) × Makes prods.now found.now sort) }
{
    for production in prods {
        if !has_sort(found, production.left) && has_kids(found, production.kids.as_slice()) {
            return Some(production.left);
        }
    }
    None
}

/// By sort whether there is a tree of it.
fn sorts_with_trees(alloc: Global, prods: &[Production], sorts: usize) -> Result<Vec<bool>, Memory>
    requires { All (λ (q : Production). q.left < sorts) prods.now }
    ensures count { IfOk result (λ found. length found.items ≡ sorts) }
    ensures trees { IfOk result (λ found. (s : ℕ) → (has_sort found.items s ≡ true) ↔ HasTree prods.now s) }
{
    let mut found = vec![in alloc; false; sorts]?;
    while let Some(sort) = next_sort(prods, &found) {
        found[sort as usize] = true;
    }
    Ok(found)
}

/// The first sort of which there is no tree.
///
/// # Errors
///
/// Want of memory.
pub fn first_without_tree(
    alloc: Global,
    prods: &[Production],
    sorts: usize,
) -> Result<Option<u32>, Memory>
    requires few { sorts < 2 ^ 32 }
    requires lefts { All (λ (q : Production). q.left < sorts) prods.now }
    ensures { IfOk result (λ first. MatchOption first ((s : ℕ) → s < sorts → HasTree prods.now s) (IsFirstWithout prods.now sorts)) }
{
    let found = sorts_with_trees(alloc, prods, sorts)?;
    for sort in 0..sorts {
        if !found[sort] {
            return Ok(Some(sort as u32));
        }
    }
    Ok(None)
}
