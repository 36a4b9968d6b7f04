ghost use Rattle.std.specs.Prelude.{◌≡◌, ◌≢◌, ◌-◌, ◌≤◌, ◌++◌, [], ◌∷◌, Ok, Err, length, map, take, All, IfOk, IfErr, OnOk};
ghost use Rattle.lrc_base.specs.Terms.{grown, wanted};
ghost use Rattle.lrc_base.specs.RawTerms.{raw_forest, raw_wanted, RawFits};
ghost use Rattle.lrc_meaning.specs.Limits.{IsFew};
ghost use Rattle.lrc_meaning.specs.Tree.{tree};
ghost use Rattle.lrc_job.specs.declared.term_fault.TermFault.TheVariants as variant;
ghost use Rattle.lrc_job.specs.Resolved.{each_ok, resolved};
ghost use Rattle.lrc_job.specs.Found.{found_with, AreKinds};

use crate::kinds::production_over;
use crate::term_fault::TermFault;
use lrc_base::limits::PRODUCTION_LIMIT;
use lrc_base::{BuildFault, Kind, Memory, NameText, Production, RawTermItem, TermBuild, TermItem};
use std::alloc::Global;

/// The terms that are found so far and that no node has taken yet.
#[derive(Debug, Drop)]
pub struct Found {
    pub build: TermBuild,
    /// Of each of the terms.
    pub kinds: Vec<Kind>,
}

/// Takes the last `count` kinds, and puts this one in their place.
fn put_over(kinds: &mut Vec<Kind>, count: usize, kind: Kind) -> Result<(), Memory>
    requires { count ≤ length kinds.old.items }
    ensures { OnOk result (kinds.new.items ≡ take (length kinds.old.items - count) kinds.old.items ++ kind ∷ []) }
{
    let left = kinds.len() - count;
    kinds.truncate(left);
    kinds.push(kind)?;
    Ok(())
}

impl Found {
    fn new(alloc: Global) -> Found
        ensures terms { result.build ≡ [] }
        ensures kinds { result.kinds.items ≡ [] }
    {
        Found {
            build: TermBuild::new(alloc),
            kinds: Vec::new(alloc),
        }
    }

    /// Adds an item, which takes some of the last terms and makes one of this kind.
    fn push(&mut self, item: TermItem, kind: Kind) -> Result<(), TermFault>
        requires room { wanted item ≤ length self.old.build }
        requires same { length self.old.kinds.items ≡ length self.old.build }
        ensures terms { OnOk result (self.new.build ≡ grown self.old.build item) }
        ensures kinds { OnOk result (self.new.kinds.items ≡ take (length self.old.kinds.items - wanted item) self.old.kinds.items ++ kind ∷ []) }
        ensures memory { IfErr result (λ f. f ≡ variant.Memory) }
    {
        match self.build.add(item) {
            Ok(()) => {}
            Err(BuildFault::Memory) => return Err(TermFault::Memory),
            Err(BuildFault::TooFew) => unreachable!(),
        }
        put_over(&mut self.kinds, item.wanted() as usize, kind)?;
        Ok(())
    }

    /// Adds a node over the last `count` terms.
    fn add_node(
        &mut self,
        prods: &[Production],
        name: NameText,
        count: u32,
    ) -> Result<(), TermFault>
        requires prods { length prods.now ≤ PRODUCTION_LIMIT }
        requires parts { All IsFew prods.now }
        requires kinds { AreKinds prods.now (map tree self.old.build) self.old.kinds.items }
        requires room { count ≤ length self.old.build }
        ensures found { OnOk result (found_with prods.now (map tree self.old.build) (RawTermItem.Node name count) ≡ Ok (map tree self.new.build)) }
        ensures fault { IfErr result (λ f. f ≢ variant.Memory → found_with prods.now (map tree self.old.build) (RawTermItem.Node name count) ≡ Err f) }
        ensures kinds { OnOk result (AreKinds prods.now (map tree self.new.build) self.new.kinds.items) }
    {
        let first = self.kinds.len() - count as usize;
        let (number, kind) = production_over(prods, name, &self.kinds[first..])?;
        self.push(TermItem::Node(number, count), kind)
    }

    /// Adds a leaf, or a node over the last terms.
    fn add(&mut self, prods: &[Production], item: RawTermItem) -> Result<(), TermFault>
        requires prods { length prods.now ≤ PRODUCTION_LIMIT }
        requires parts { All IsFew prods.now }
        requires kinds { AreKinds prods.now (map tree self.old.build) self.old.kinds.items }
        requires room { raw_wanted item ≤ length self.old.build }
        ensures found { OnOk result (found_with prods.now (map tree self.old.build) item ≡ Ok (map tree self.new.build)) }
        ensures fault { IfErr result (λ f. f ≢ variant.Memory → found_with prods.now (map tree self.old.build) item ≡ Err f) }
        ensures kinds { OnOk result (AreKinds prods.now (map tree self.new.build) self.new.kinds.items) }
    {
        match item {
            RawTermItem::Int(value) => self.push(TermItem::Int(value), Kind::Int),
            RawTermItem::Bool(value) => self.push(TermItem::Bool(value), Kind::Bool),
            RawTermItem::Name(name) => self.push(TermItem::Name(name), Kind::Name),
            RawTermItem::Node(name, count) => self.add_node(prods, name, count),
        }
    }
}

/// The terms that items make, with their kinds, or the first fault.
pub fn found_of(
    alloc: Global,
    prods: &[Production],
    items: &[RawTermItem],
) -> Result<Found, TermFault>
    requires prods { length prods.now ≤ PRODUCTION_LIMIT }
    requires parts { All IsFew prods.now }
    requires fits { RawFits items.now }
    ensures found { IfOk result (λ f. each_ok (map (resolved prods.now) (raw_forest items.now)) ≡ Ok (map tree f.build)) }
    ensures fault { IfErr result (λ f. f ≢ variant.Memory → each_ok (map (resolved prods.now) (raw_forest items.now)) ≡ Err f) }
    ensures kinds { IfOk result (λ f. AreKinds prods.now (map tree f.build) f.kinds.items) }
{
    let mut found = Found::new(alloc);
    for item in items {
        found.add(prods, *item)?;
    }
    Ok(found)
}
