ghost use Rattle.std.specs.Prelude.{◌≡◌, ◌≢◌, ◌<◌, ◌≤◌, ◌↔◌, Err, [], ◌∷◌, length, OnOk, OnErr, MatchOption};
ghost use Rattle.lrc_base.specs.Terms.{grown, higher, wanted};
ghost use Rattle.lrc_base.specs.declared.build_fault.BuildFault.TheVariants.{TooFew};

use crate::build_fault::BuildFault;
use crate::heights::join;
use crate::item::TermItem;
use crate::term::Term;
use sqlite_items::Items;
use std::alloc::{AllocError, Global};
use std::marker::Model;

/// A term that is being made. Contracts see it as the list of the terms that no node has taken yet.
#[derive(Debug, Drop)]
pub struct TermBuild {
    items: Items<TermItem>,
    /// Of each term that no node has taken yet.
    heights: Vec<u32>,
}

impl Model for TermBuild {
    ghost use Rattle.std.specs.Prelude.{List};
    ghost use Rattle.std.specs.Coded.{codes, coded_list};
    ghost use Rattle.lrc_base.specs.contracts.term.TermTree as e;
    ghost use Rattle.lrc_base.specs.declared.term.TermTree.{TermTree};

    ghost Value = { List TermTree };

    ghost coded = { coded_list (Prim.hlevel (codes, e.the_row.coded)) };

    ghost use Rattle.lrc_base.specs.Terms.{forest};
    ghost use Rattle.lrc_base.specs.Flat.{HasHeights};

    ghost view = { λ b. forest b.items };

    ghost invariant = { λ b. HasHeights b.items b.heights.items };
}

/// Adds the height of an item to those of the terms that no node has taken yet.
fn rise(heights: &mut Vec<u32>, item: TermItem) -> Result<(), AllocError>
    requires { wanted item ≤ length heights.old.items }
    ensures risen { OnOk result (heights.new.items ≡ higher item heights.old.items) }
    ensures unchanged { OnErr result (heights.new.items ≡ heights.old.items) }
{
    match item {
        TermItem::Int(_) | TermItem::Bool(_) | TermItem::Name(_) => Ok(heights.push(0)?),
        TermItem::Node(_, kids) => join(heights, kids as usize),
    }
}

impl TermBuild {
    /// No items.
    pub fn new(alloc: Global) -> TermBuild
        ensures { result ≡ [] }
    {
        TermBuild {
            items: Items::new(alloc),
            heights: Vec::new(alloc),
        }
    }

    /// Adds a leaf, or a node over the last of the terms that no node has taken yet. The time is linear in
    /// the children.
    ///
    /// # Errors
    ///
    /// `TooFew` where the node has more children than there are such terms, and want of memory; then
    /// nothing is added.
    pub fn add(&mut self, item: TermItem) -> Result<(), BuildFault>
        ensures grown { OnOk result (self.new ≡ grown self.old item) }
        ensures too_few { (result ≡ Err TooFew) ↔ (length self.old < wanted item) }
        ensures unchanged { OnErr result (self.new ≡ self.old) }
    {
        if self.heights.len() < item.wanted() as usize {
            return Err(BuildFault::TooFew);
        }
        self.items.push(item)?;
        if rise(&mut self.heights, item).is_err() {
            self.items.pop();
            return Err(BuildFault::Memory);
        }
        Ok(())
    }

    /// The term, where there is just one that no node has taken.
    pub fn finish(self) -> Option<Term>
        ensures { MatchOption result (length self ≢ 1) (λ term. self ≡ term ∷ []) }
    {
        let TermBuild { items, heights } = self;
        if heights.len() == 1 {
            return Some(Term::of(items, heights[0]));
        }
        None
    }
}
