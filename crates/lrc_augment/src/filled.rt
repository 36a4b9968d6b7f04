ghost use Rattle.std.specs.Prelude.{◌≡◌, map, reverse, IfOk};
ghost use Rattle.lrc_augment.specs.Filled.{symbols, copies, filled_production, filled};
ghost use Rattle.lrc_fault_meaning.specs.Faults.{attrs_named};

use crate::attrs::attrs_named;
use crate::copies::copies_of;
use crate::symbols::symbols_of;
use lrc_base::{List, Memory, RawGrammar, RawItem, RawProd, RawSort};
use std::alloc::Global;

fn copies_for(alloc: Global, sorts: &[RawSort], prod: &RawProd) -> Result<List<RawItem>, Memory>
    ensures { IfOk result (λ made. made ≡ copies prod.now.items (attrs_named sorts.now prod.now.left) (symbols sorts.now prod.now)) }
{
    let symbols = symbols_of(alloc, sorts, prod)?;
    let left = attrs_named(sorts, prod.left);
    copies_of(alloc, prod.items.as_slice(), left, symbols.as_slice())
}

/// The production with its copies behind its own items.
fn filled_production(alloc: Global, sorts: &[RawSort], mut prod: RawProd) -> Result<RawProd, Memory>
    ensures { IfOk result (λ p. p ≡ filled_production sorts.now prod) }
{
    let copies = copies_for(alloc, sorts, &prod)?;
    prod.items.append(copies)?;
    Ok(prod)
}

/// The productions with their copies, the last first.
fn filled_backwards(
    alloc: Global,
    sorts: &[RawSort],
    mut prods: List<RawProd>,
) -> Result<List<RawProd>, Memory>
    ensures { IfOk result (λ done. reverse done ≡ map (filled_production sorts.now) prods) }
{
    let mut done = List::new(alloc);
    while let Some(prod) = prods.pop() {
        let prod = filled_production(alloc, sorts, prod)?;
        done.push(prod)?;
    }
    Ok(done)
}

fn reversed(alloc: Global, mut prods: List<RawProd>) -> Result<List<RawProd>, Memory>
    ensures { IfOk result (λ done. done ≡ reverse prods) }
{
    let mut done = List::new(alloc);
    while let Some(prod) = prods.pop() {
        done.push(prod)?;
    }
    Ok(done)
}

/// The grammar with copies behind the own items of its productions: `c.a = a` for each inherited
/// attribute of a symbol without an item, where the left side has an inherited attribute of its name
/// and kind; and then `a = c.a` for each synthesised attribute of the left side without an item,
/// where one symbol alone has a synthesised attribute of its name and kind.
///
/// # Errors
///
/// Want of memory.
pub fn augment(alloc: Global, grammar: RawGrammar) -> Result<RawGrammar, Memory>
    ensures filled { IfOk result (λ g. g ≡ filled grammar) }
{
    let RawGrammar {
        sorts,
        prods,
        start,
    } = grammar;
    let backwards = filled_backwards(alloc, sorts.as_slice(), prods)?;
    let prods = reversed(alloc, backwards)?;
    Ok(RawGrammar {
        sorts,
        prods,
        start,
    })
}
