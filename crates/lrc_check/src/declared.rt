ghost use Rattle.std.specs.Prelude.{◌≡◌, map, flat_map, find, bytes_eq, IfOk};
ghost use Rattle.std.specs.Option.{option_copied};
ghost use Rattle.lrc_base.specs.declared.raw.RawItem.{RawItem};
ghost use Rattle.lrc_fault_meaning.specs.Faults.{declared_by, declared_name};
ghost use Rattle.lrc_check.specs.Declares.{declaration};

use lrc_base::{List, Memory, NameText, RawItem, RawKind};
use std::alloc::Global;

/// A local value with its kind, or a nonterminal attribute with its sort.
#[derive(Debug, Clone, Copy)]
pub enum Declared {
    Local(NameText, RawKind),
    Attached(NameText, NameText),
}

impl Declared {
    fn name(&self) -> NameText
        ensures { result ≡ declared_name (declaration self.now) }
    {
        match self {
            Declared::Local(name, _) | Declared::Attached(name, _) => *name,
        }
    }
}

/// The locals and nonterminal attributes of a production, in order of declaration.
///
/// # Errors
///
/// Want of memory.
pub fn declared_by(alloc: Global, items: &[RawItem]) -> Result<List<Declared>, Memory>
    ensures { IfOk result (λ declared. map declaration declared ≡ flat_map declared_by items.now) }
{
    let mut declared = List::new(alloc);
    for item in items {
        match item {
            RawItem::Local(name, kind, _) => declared.push(Declared::Local(*name, *kind))?,
            RawItem::Attach(name, sort, _) => declared.push(Declared::Attached(*name, *sort))?,
            RawItem::Own(_, _) | RawItem::OfKid(_, _, _) | RawItem::Pattern(_) => {}
        }
    }
    Ok(declared)
}

/// The first local or nonterminal attribute of this name.
pub fn declared_named(declared: &[Declared], name: NameText) -> Option<&Declared>
    ensures { option_copied result ≡ find (λ (d : Declared). bytes_eq (declared_name (declaration d)) name) declared.now }
{
    declared.iter().find(|one| one.name() == name)
}
