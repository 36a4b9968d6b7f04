ghost use Rattle.std.specs.Prelude.{◌≡◌, ◌+◌, ◌<◌, ◌≤◌, ◌^◌, ◌++◌, [], length, map, flat_map, cond, Option, None, IfOk, OnOk, All};
ghost use Rattle.std.specs.List.{range_with_len};
ghost use Rattle.lrc_base.specs.declared.limits.TheConstants.{ATTRIBUTE_LIMIT};
ghost use Rattle.lrc_base.specs.declared.grammar.Sort as base-sort;
ghost use Rattle.lrc_meaning.specs.Limits.{IsFew};
ghost use Rattle.lrc_base.specs.declared.signature.Origin.TheVariants as origin;
ghost use Rattle.lrc_meaning.specs.Signature.{left_attribute, symbol_attribute, attribute, kid_attributes, extra_attributes, signed_occurrences, signed_symbol, signed_kids, signed_extras, signed_symbols, equation_of, signature_of};

use crate::attributes::{attrs_of, attrs_of_sort};
use lrc_base::{
    Attr, Equation, Extra, Kid, Kind, List, Memory, NameText, Occurrence, Origin, Production,
    Signature, Sort, Symbol,
};
use std::alloc::Global;

/// An attribute of the left side: its equations read what is inherited and define what is synthesised.
fn left_attribute(attr: &Attr) -> Occurrence
    ensures { result ≡ left_attribute attr.now }
{
    Occurrence {
        owner: None,
        name: attr.name,
        kind: attr.kind,
        is_defined: !attr.inherited,
        is_read: attr.inherited,
    }
}

/// An attribute of a symbol: what is inherited is defined, what is synthesised is read.
fn symbol_attribute(symbol: NameText, attr: &Attr) -> Occurrence
    ensures { result ≡ symbol_attribute symbol attr.now }
{
    Occurrence {
        owner: Some(symbol),
        name: attr.name,
        kind: attr.kind,
        is_defined: attr.inherited,
        is_read: !attr.inherited,
    }
}

/// An attribute of the left side, where there is no owner, or of a symbol.
fn attribute(owner: &Option<NameText>, attr: &Attr) -> Occurrence
    ensures { result ≡ attribute owner.now attr.now }
{
    match owner {
        None => left_attribute(attr),
        Some(symbol) => symbol_attribute(*symbol, attr),
    }
}

/// Puts the attributes of the left side, where there is no owner, or of a symbol behind the others.
fn push_attributes(
    all: &mut List<Occurrence>,
    owner: Option<NameText>,
    attrs: &[Attr],
) -> Result<(), Memory>
    ensures { OnOk result (all.new ≡ all.old ++ map (attribute owner) attrs.now) }
{
    for attr in attrs {
        let occurrence = attribute(&owner, attr);
        all.push(occurrence)?;
    }
    Ok(())
}

/// Puts a symbol of this kind behind the others; a leaf is no symbol.
fn push_symbol(
    symbols: &mut List<Symbol>,
    name: NameText,
    kind: Kind,
    origin: Origin,
    start: u32,
) -> Result<(), Memory>
    ensures { OnOk result (symbols.new ≡ symbols.old ++ signed_symbol name kind origin start) }
{
    match kind {
        Kind::Int | Kind::Bool | Kind::Name => Ok(()),
        Kind::Sort(sort) => symbols.push(Symbol {
            name,
            sort,
            origin,
            start,
        }),
    }
}

/// Puts the symbol of the child of this number, and its attributes, behind the others; a leaf has none.
#[tactic(auto, using(crate::proofs::SignatureLemmas::kid_steps))]
fn push_kid(
    all: &mut List<Occurrence>,
    symbols: &mut List<Symbol>,
    sorts: &[Sort],
    kid: &Kid,
    number: u32,
) -> Result<(), Memory>
    requires { length all.old < 2 ^ 32 }
    ensures occurrences { OnOk result (all.new ≡ all.old ++ kid_attributes sorts.now kid.now) }
    ensures symbols { OnOk result (symbols.new ≡ symbols.old ++ signed_symbol kid.now.name kid.now.kind (origin.Child number) (length all.old)) }
{
    let start = all.len() as u32;
    push_symbol(symbols, kid.name, kid.kind, Origin::Child(number), start)?;
    push_attributes(all, Some(kid.name), attrs_of(sorts, kid.kind))
}

/// Puts the children's attributes and symbols behind the others.
#[tactic(auto, using(crate::proofs::SignatureLemmas::kid_steps))]
fn push_kids(
    all: &mut List<Occurrence>,
    symbols: &mut List<Symbol>,
    sorts: &[Sort],
    kids: &[Kid],
) -> Result<(), Memory>
    requires few { length all.old + length (flat_map (kid_attributes sorts.now) kids.now) < 2 ^ 32 }
    requires few_kids { length kids.now < 2 ^ 32 }
    ensures occurrences { OnOk result (all.new ≡ all.old ++ flat_map (kid_attributes sorts.now) kids.now) }
    ensures symbols { OnOk result (symbols.new ≡ symbols.old ++ signed_kids sorts.now (length all.old) 0 kids.now) }
{
    for (number, kid) in kids.iter().enumerate() {
        push_kid(all, symbols, sorts, kid, number as u32)?;
    }
    Ok(())
}

/// Puts the value of a local or a nonterminal attribute, and the symbol of the latter with its
/// attributes, behind the others.
#[tactic(auto, using(crate::proofs::SignatureLemmas::extra_steps))]
fn push_extra(
    all: &mut List<Occurrence>,
    symbols: &mut List<Symbol>,
    sorts: &[Sort],
    extra: &Extra,
) -> Result<(), Memory>
    requires { length all.old + length (extra_attributes sorts.now extra.now) < 2 ^ 32 }
    ensures occurrences { OnOk result (all.new ≡ all.old ++ extra_attributes sorts.now extra.now) }
    ensures symbols { OnOk result (symbols.new ≡ symbols.old ++ cond extra.now.attached (signed_symbol extra.now.name extra.now.kind (origin.Value (length all.old)) (length all.old + 1)) []) }
{
    let value = all.len() as u32;
    all.push(Occurrence {
        owner: None,
        name: extra.name,
        kind: extra.kind,
        is_defined: true,
        is_read: true,
    })?;
    if extra.attached {
        push_symbol(
            symbols,
            extra.name,
            extra.kind,
            Origin::Value(value),
            value + 1,
        )?;
        push_attributes(all, Some(extra.name), attrs_of(sorts, extra.kind))?;
    }
    Ok(())
}

/// Puts the values and the symbols of locals and nonterminal attributes behind the others.
#[tactic(auto, using(crate::proofs::SignatureLemmas::extra_steps))]
fn push_extras(
    all: &mut List<Occurrence>,
    symbols: &mut List<Symbol>,
    sorts: &[Sort],
    extras: &[Extra],
) -> Result<(), Memory>
    requires { length all.old + length (flat_map (extra_attributes sorts.now) extras.now) < 2 ^ 32 }
    ensures occurrences { OnOk result (all.new ≡ all.old ++ flat_map (extra_attributes sorts.now) extras.now) }
    ensures symbols { OnOk result (symbols.new ≡ symbols.old ++ signed_extras sorts.now (length all.old) extras.now) }
{
    for extra in extras {
        push_extra(all, symbols, sorts, extra)?;
    }
    Ok(())
}

/// As many occurrences without an equation.
#[tactic(auto, using(crate::proofs::SignatureLemmas::equation_steps))]
fn no_equations(alloc: Global, count: usize) -> Result<List<Option<usize>>, Memory>
    ensures { IfOk result (λ none. none ≡ map (λ o. None) (range_with_len 0 count)) }
{
    let mut none = List::new(alloc);
    for _occurrence in 0..count {
        none.push(None)?;
    }
    Ok(none)
}

/// For each of so many occurrences the number of the first equation that defines it.
#[tactic(auto, using(crate::proofs::SignatureLemmas::equation_steps))]
fn equations_of(
    alloc: Global,
    equations: &[Equation],
    count: usize,
) -> Result<List<Option<usize>>, Memory>
    ensures { IfOk result (λ found. found ≡ map (equation_of equations.now) (range_with_len 0 count)) }
{
    let mut found = no_equations(alloc, count)?;
    for number in (0..equations.len()).rev() {
        let target = equations[number].target as usize;
        if target < found.len() {
            found.set(target, Some(number));
        }
    }
    Ok(found)
}

/// The occurrences and the symbols of a left side with these children, locals and nonterminal
/// attributes, each by number.
///
/// # Errors
///
/// Want of memory.
#[tactic(auto, using(crate::proofs::SignatureLemmas::signed_lengths))]
pub fn occurrences_and_symbols(
    alloc: Global,
    sorts: &[Sort],
    left: u32,
    kids: &[Kid],
    extras: &[Extra],
) -> Result<(List<Occurrence>, List<Symbol>), Memory>
    requires few { length (signed_occurrences sorts.now left kids.now extras.now) < 2 ^ 32 }
    requires few_kids { length kids.now < 2 ^ 32 }
    ensures occurrences { IfOk result (λ it. it.0 ≡ signed_occurrences sorts.now left kids.now extras.now) }
    ensures symbols { IfOk result (λ it. it.1 ≡ signed_symbols sorts.now left kids.now extras.now) }
{
    let mut occurrences = List::new(alloc);
    let mut symbols = List::new(alloc);
    push_attributes(&mut occurrences, None, attrs_of_sort(sorts, left))?;
    push_kids(&mut occurrences, &mut symbols, sorts, kids)?;
    push_extras(&mut occurrences, &mut symbols, sorts, extras)?;
    Ok((occurrences, symbols))
}

/// The signature of a production.
///
/// # Errors
///
/// Want of memory.
pub fn signature_of(
    alloc: Global,
    sorts: &[Sort],
    production: &Production,
) -> Result<Signature, Memory>
    requires few { length (signed_occurrences sorts.now production.now.left production.now.kids production.now.extras) < 2 ^ 32 }
    requires few_kids { length production.now.kids < 2 ^ 32 }
    ensures { IfOk result (λ signature. signature ≡ signature_of sorts.now production.now) }
{
    let kids = production.kids.as_slice();
    let extras = production.extras.as_slice();
    let (occurrences, symbols) = occurrences_and_symbols(
        alloc,
        sorts,
        production.left,
        kids,
        extras,
    )?;
    let equations = equations_of(alloc, production.equations.as_slice(), occurrences.len())?;
    Ok(Signature {
        occurrences,
        equations,
        symbols,
    })
}

/// The signature of each production of a grammar that keeps the limits.
///
/// # Errors
///
/// Want of memory.
#[tactic(auto, using(crate::proofs::SignatureLemmas::few_at))]
pub fn signatures_of(
    alloc: Global,
    sorts: &[Sort],
    prods: &[Production],
) -> Result<List<Signature>, Memory>
    requires attributes { All (λ (s : base-sort.Sort). length s.attrs ≤ ATTRIBUTE_LIMIT) sorts.now }
    requires parts { All IsFew prods.now }
    ensures { IfOk result (λ all. all ≡ map (signature_of sorts.now) prods.now) }
{
    let mut all = List::new(alloc);
    for production in prods {
        all.push(signature_of(alloc, sorts, production)?)?;
    }
    Ok(all)
}
