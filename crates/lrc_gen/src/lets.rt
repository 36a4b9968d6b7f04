ghost use Rattle.std.specs.Prelude.{◌≡◌, ◌++◌, IfOk, OnOk};
ghost use Rattle.lrc_gen.specs.Lets as spec;

use crate::names::name;
use crate::parts::{inh, of_sort, syn};
use crate::prods::{
    add_prod, bind_prod, empty_prod, let_prod, neg_prod, num_prod, root_prod, var_prod,
};
use lrc_base::{List, Memory, RawGrammar, RawKind, RawProd, RawSort};
use std::alloc::Global;

#[tactic(auto, unfolding(crate::specs::Lets::prog_sort))]
fn prog_sort(alloc: Global) -> Result<RawSort, Memory>
    ensures { IfOk result (λ sort. sort ≡ spec.prog_sort) }
{
    let mut attrs = List::new(alloc);
    attrs.push(syn(b"val", RawKind::Int))?;
    Ok(RawSort {
        name: name(b"Prog"),
        attrs,
    })
}

#[tactic(auto, unfolding(crate::specs::Lets::exp_sort))]
fn exp_sort(alloc: Global) -> Result<RawSort, Memory>
    ensures { IfOk result (λ sort. sort ≡ spec.exp_sort) }
{
    let mut attrs = List::new(alloc);
    attrs.push(inh(b"env", of_sort(b"Env")))?;
    attrs.push(syn(b"val", RawKind::Int))?;
    Ok(RawSort {
        name: name(b"Exp"),
        attrs,
    })
}

#[tactic(auto, unfolding(crate::specs::Lets::env_sort))]
fn env_sort(alloc: Global) -> Result<RawSort, Memory>
    ensures { IfOk result (λ sort. sort ≡ spec.env_sort) }
{
    let mut attrs = List::new(alloc);
    attrs.push(inh(b"key", RawKind::Name))?;
    attrs.push(syn(b"found", RawKind::Int))?;
    Ok(RawSort {
        name: name(b"Env"),
        attrs,
    })
}

#[tactic(auto, unfolding(crate::specs::Lets::sorts))]
fn sorts(alloc: Global) -> Result<List<RawSort>, Memory>
    ensures { IfOk result (λ sorts. sorts ≡ spec.sorts) }
{
    let mut sorts = List::new(alloc);
    sorts.push(prog_sort(alloc)?)?;
    sorts.push(exp_sort(alloc)?)?;
    sorts.push(env_sort(alloc)?)?;
    Ok(sorts)
}

#[tactic(auto, unfolding(crate::specs::Lets::tree_prods))]
/// The productions of trees of the sorts `Prog` and `Exp`.
fn add_tree_prods(alloc: Global, prods: &mut List<RawProd>) -> Result<(), Memory>
    ensures { OnOk result (prods.new ≡ prods.old ++ spec.tree_prods) }
{
    prods.push(root_prod(alloc)?)?;
    prods.push(num_prod(alloc)?)?;
    prods.push(var_prod(alloc)?)?;
    prods.push(add_prod(alloc)?)?;
    prods.push(neg_prod(alloc)?)?;
    Ok(prods.push(let_prod(alloc)?)?)
}

#[tactic(auto, unfolding(crate::specs::Lets::prods))]
fn prods(alloc: Global) -> Result<List<RawProd>, Memory>
    ensures { IfOk result (λ prods. prods ≡ spec.prods) }
{
    let mut prods = List::new(alloc);
    add_tree_prods(alloc, &mut prods)?;
    prods.push(empty_prod(alloc)?)?;
    prods.push(bind_prod(alloc)?)?;
    Ok(prods)
}

#[tactic(auto, unfolding(crate::specs::Lets::lets))]
/// The grammar of generated jobs: sums, negations, and names that are bound by `let`.
///
/// # Errors
///
/// Want of memory.
pub fn lets(alloc: Global) -> Result<RawGrammar, Memory>
    ensures { IfOk result (λ grammar. grammar ≡ spec.lets) }
{
    let sorts = sorts(alloc)?;
    let prods = prods(alloc)?;
    Ok(RawGrammar {
        sorts,
        prods,
        start: name(b"Prog"),
    })
}
