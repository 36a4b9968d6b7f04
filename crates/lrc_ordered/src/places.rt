ghost use Rattle.std.specs.Prelude.{◌≡◌, ◌++◌, ◌∷◌, List, map, IfOk, OnOk};
ghost use Rattle.lrc_base.specs.declared.grammar.Sort as base;
ghost use Rattle.lrc_meaning.specs.Signature.{signature_of};
ghost use Rattle.lrc_order_meaning.specs.Needs.{places_of};
ghost use Rattle.lrc_order_meaning.specs.Signed.{tree_at, place_of};

use lrc_base::{List, Memory, Origin, Production, Signature, Symbol};
use lrc_order_meaning::Place;
use std::alloc::Global;

/// The occurrence whose value is a symbol's tree; None where the tree is a child.
fn tree_at(origin: Origin) -> Option<u32>
    ensures { result ≡ tree_at origin }
{
    match origin {
        Origin::Child(_) => None,
        Origin::Value(occurrence) => Some(occurrence),
    }
}

/// The place of a symbol.
fn place_of(symbol: &Symbol) -> Place
    ensures { result ≡ place_of symbol.now }
{
    Place {
        sort: symbol.sort,
        start: symbol.start,
        tree: tree_at(symbol.origin),
    }
}

/// Puts the places of symbols behind the others.
fn push_places(places: &mut List<Place>, symbols: &[Symbol]) -> Result<(), Memory>
    ensures { OnOk result (places.new ≡ places.old ++ map place_of symbols.now) }
{
    for symbol in symbols {
        places.push(place_of(symbol))?;
    }
    Ok(())
}

/// The places of sorts in a production with this signature: the left side, then the symbols.
///
/// # Errors
///
/// Want of memory.
#[tactic(auto, using(crate::proofs::PlaceLemmas::signed_places_of))]
pub fn places_of(
    alloc: Global,
    production: &Production,
    signature: &Signature,
) -> Result<List<Place>, Memory>
    ensures { (sorts : List base.Sort) → signature.now ≡ signature_of sorts production.now → IfOk result (λ places. places ≡ places_of sorts production.now) }
{
    let mut places = List::new(alloc);
    places.push(Place {
        sort: production.left,
        start: 0,
        tree: None,
    })?;
    push_places(&mut places, signature.symbols.as_slice())?;
    Ok(places)
}
