ghost use Rattle.std.specs.Prelude.{◌≡◌, ◌≢◌, ◌<◌, ◌↔◌, Err, [], ◌∷◌, length, OnOk, OnErr, MatchOption};
ghost use Rattle.lrc_base.specs.RawTerms.{raw_forest, raw_grown, raw_wanted, RawFits};
ghost use Rattle.lrc_base.specs.RawFlat.{IsOneRaw};
ghost use Rattle.lrc_base.specs.declared.build_fault.BuildFault.TheVariants.{TooFew};

use crate::build_fault::BuildFault;
use crate::item::RawTermItem;
use crate::name::NameText;
use sqlite_items::Items;
use std::alloc::Global;
use std::marker::Model;

/// A term as it is written: what contracts see of a [`RawTerm`]. No code makes one.
#[derive(Debug, Drop)]
pub enum RawTermTree {
    Int(i64),
    Bool(bool),
    Name(NameText),
    /// The name of a production, and its children.
    Node(NameText, Items<RawTermTree>),
}

/// A term as it is written, as one list of its nodes and leaves: children before their node, from left
/// to right. Contracts see it as the [`RawTermTree`] that they make.
///
/// It is made by a [`RawTermBuild`].
#[derive(Debug, Drop)]
pub struct RawTerm {
    items: Items<RawTermItem>,
}

impl Model for RawTerm {
    ghost use Rattle.std.specs.Coded.{codes};
    ghost use Rattle.lrc_base.specs.contracts.raw_term.RawTermTree as e;
    ghost use Rattle.lrc_base.specs.declared.raw_term.RawTermTree.{RawTermTree};

    ghost Value = { RawTermTree };

    ghost coded = { Prim.hlevel (codes, e.the_row.coded) };

    ghost use Rattle.lrc_base.specs.RawTerms.{raw_forest, first_raw_tree};
    ghost use Rattle.lrc_base.specs.RawFlat.{IsOneRaw};

    ghost view = { λ t. first_raw_tree (raw_forest t.items) };

    ghost invariant = { λ t. IsOneRaw t.items };
}

impl RawTerm {
    /// The nodes and leaves, children before their node, from left to right.
    pub fn items(&self) -> &Items<RawTermItem>
        ensures trees { raw_forest result.now ≡ self.now ∷ [] }
        ensures fits { RawFits result.now }
    {
        &self.items
    }
}

/// A term as it is written that is being made. Contracts see it as the list of the terms that no node has
/// taken yet.
#[derive(Debug, Drop)]
pub struct RawTermBuild {
    items: Items<RawTermItem>,
    /// How many terms no node has taken yet.
    waiting: usize,
}

impl Model for RawTermBuild {
    ghost use Rattle.std.specs.Prelude.{List};
    ghost use Rattle.std.specs.Coded.{codes, coded_list};
    ghost use Rattle.lrc_base.specs.contracts.raw_term.RawTermTree as e;
    ghost use Rattle.lrc_base.specs.declared.raw_term.RawTermTree.{RawTermTree};

    ghost Value = { List RawTermTree };

    ghost coded = { coded_list (Prim.hlevel (codes, e.the_row.coded)) };

    ghost use Rattle.lrc_base.specs.RawTerms.{raw_forest};
    ghost use Rattle.lrc_base.specs.RawFlat.{HasWaiting};

    ghost view = { λ b. raw_forest b.items };

    ghost invariant = { λ b. HasWaiting b.items b.waiting };
}

impl RawTermBuild {
    /// No items.
    pub fn new(alloc: Global) -> RawTermBuild
        ensures { result ≡ [] }
    {
        RawTermBuild {
            items: Items::new(alloc),
            waiting: 0,
        }
    }

    /// Adds a leaf, or a node over the last of the terms that no node has taken yet.
    ///
    /// # Errors
    ///
    /// `TooFew` where the node has more children than there are such terms, and want of memory; then
    /// nothing is added.
    pub fn add(&mut self, item: RawTermItem) -> Result<(), BuildFault>
        ensures grown { OnOk result (self.new ≡ raw_grown self.old item) }
        ensures too_few { (result ≡ Err TooFew) ↔ (length self.old < raw_wanted item) }
        ensures unchanged { OnErr result (self.new ≡ self.old) }
    {
        let wanted = item.wanted() as usize;
        if self.waiting < wanted {
            return Err(BuildFault::TooFew);
        }
        let left = self.waiting - wanted;
        let waiting = left.checked_add(1).ok_or(BuildFault::Memory)?;
        self.items.push(item)?;
        self.waiting = waiting;
        Ok(())
    }

    /// The term, where there is just one that no node has taken.
    pub fn finish(self) -> Option<RawTerm>
        ensures { MatchOption result (length self ≢ 1) (λ term. self ≡ term ∷ []) }
    {
        let RawTermBuild { items, waiting } = self;
        if waiting == 1 {
            return Some(RawTerm { items });
        }
        None
    }
}
