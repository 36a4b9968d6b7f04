ghost use Rattle.std.specs.Prelude.{◌≡◌, ◌++◌, codes, map, IfOk};
ghost use Rattle.lrc_base.specs.declared.signature.Symbol as base;
ghost use Rattle.lrc_plan.specs.Text.{occurrence_name, occurrence_names, symbol_names};

use lrc_base::{Bytes, List, Memory, Occurrence, Signature, Symbol};
use std::alloc::Global;

/// How the occurrences and the symbols of a production print, by number.
#[derive(Debug, Drop)]
pub struct Names {
    pub occurrences: List<Bytes>,
    pub symbols: List<Bytes>,
}

/// `symbol.name`
fn dotted(alloc: Global, symbol: &[u8], name: &[u8]) -> Result<Bytes, Memory>
    ensures { IfOk result (λ text. text ≡ symbol.now ++ (codes "." ++ name.now)) }
{
    let mut text = Vec::from_slice(alloc, symbol)?;
    text.extend_from_slice(b".")?;
    text.extend_from_slice(name)?;
    Ok(List::from_vec(text))
}

/// How an occurrence prints: an attribute of a symbol behind the symbol's name.
fn occurrence_name(alloc: Global, occurrence: &Occurrence) -> Result<Bytes, Memory>
    ensures { IfOk result (λ text. text ≡ occurrence_name occurrence.now) }
{
    match &occurrence.owner {
        Some(symbol) => dotted(alloc, symbol.bytes(), occurrence.name.bytes()),
        None => List::from_slice(alloc, occurrence.name.bytes()),
    }
}

fn occurrence_names(alloc: Global, occurrences: &[Occurrence]) -> Result<List<Bytes>, Memory>
    ensures { IfOk result (λ names. names ≡ map occurrence_name occurrences.now) }
{
    let mut names = List::new(alloc);
    'occurrences: for occurrence in occurrences {
        names.push(occurrence_name(alloc, occurrence)?)?;
    }
    Ok(names)
}

fn symbol_names(alloc: Global, symbols: &[Symbol]) -> Result<List<Bytes>, Memory>
    ensures { IfOk result (λ names. names ≡ map (λ (s : base.Symbol). s.name) symbols.now) }
{
    let mut names = List::new(alloc);
    'symbols: for symbol in symbols {
        names.push(List::from_slice(alloc, symbol.name.bytes())?)?;
    }
    Ok(names)
}

/// How the occurrences and the symbols of a production with this signature print.
pub fn names_of(alloc: Global, signature: &Signature) -> Result<Names, Memory>
    ensures { IfOk result (λ names. names ≡ record { occurrences = occurrence_names signature.now; symbols = symbol_names signature.now }) }
{
    let occurrences = occurrence_names(alloc, signature.occurrences.as_slice())?;
    Ok(Names {
        occurrences,
        symbols: symbol_names(alloc, signature.symbols.as_slice())?,
    })
}
