ghost use Rattle.std.specs.Prelude.{◌≡◌, ◌∷◌, [], IfOk};
ghost use Rattle.lrc_base.specs.Terms.{forest, Fits, height_of};
ghost use Rattle.lrc_base.specs.Flat.{IsOne};

use crate::item::TermItem;
use crate::name::NameText;
use sqlite_items::Items;
use std::alloc::{AllocError, Global};
use std::marker::Model;

/// A tree over the productions of a grammar, or a leaf: what contracts see of a [`Term`]. No code makes one.
#[derive(Debug, Drop)]
pub enum TermTree {
    Int(i64),
    Bool(bool),
    Name(NameText),
    /// The number of a production, and its children.
    Node(u32, Items<TermTree>),
}

/// A tree over the productions of a grammar, or a leaf, as one list of its nodes and leaves: children
/// before their node, from left to right. Contracts see it as the [`TermTree`] that they make.
///
/// It is made by a [`TermBuild`](crate::TermBuild).
#[derive(Debug, Drop)]
pub struct Term {
    items: Items<TermItem>,
    height: u32,
}

impl Model for Term {
    ghost use Rattle.std.specs.Coded.{codes};
    ghost use Rattle.lrc_base.specs.contracts.term.TermTree as e;
    ghost use Rattle.lrc_base.specs.declared.term.TermTree.{TermTree};

    ghost Value = { TermTree };

    ghost coded = { Prim.hlevel (codes, e.the_row.coded) };

    ghost use Rattle.lrc_base.specs.Terms.{forest, first_tree};
    ghost use Rattle.lrc_base.specs.Flat.{IsOne};

    ghost view = { λ t. first_tree (forest t.items) };

    ghost invariant = { λ t. IsOne t.items t.height };
}

impl Term {
    /// The term of these items, which make one tree of this height.
    pub(crate) fn of(items: Items<TermItem>, height: u32) -> Term
        requires { IsOne items height }
        ensures { forest items ≡ result ∷ [] }
    {
        Term { items, height }
    }

    /// The nodes and leaves, children before their node, from left to right.
    pub fn items(&self) -> &Items<TermItem>
        ensures trees { forest result.now ≡ self.now ∷ [] }
        ensures fits { Fits result.now }
    {
        &self.items
    }

    /// The number of nodes on the longest path; 0 of a leaf.
    pub fn height(&self) -> u32
        ensures { result ≡ height_of self.now }
    {
        self.height
    }

    /// An equal term, with memory of its own.
    ///
    /// # Errors
    ///
    /// Want of memory.
    pub fn copy(&self, alloc: Global) -> Result<Term, AllocError>
        ensures { IfOk result (λ copy. copy ≡ self.now) }
    {
        let items = Items::from_slice(alloc, self.items.as_slice())?;
        Ok(Term {
            items,
            height: self.height,
        })
    }
}
