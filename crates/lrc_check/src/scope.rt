ghost use Rattle.std.specs.Prelude.{◌≡◌, None, Some, cond, map, flat_map, find, bytes_eq, option_map, MatchResult};
ghost use Rattle.std.specs.Option.{option_copied};
ghost use Rattle.lrc_base.specs.declared.raw.RawProd.{RawProd};
ghost use Rattle.lrc_fault_meaning.specs.Faults.{attrs_named, declared_by, kid_means, declared_means, means, symbol_sort, is_nothing, fault, unknown, not_normal};
ghost use Rattle.lrc_check.specs.Declares.{declaration};
ghost use Rattle.lrc_check.specs.Meaning.{meaning, means_among};
ghost use Rattle.lrc_check.specs.Verdict.{answered};

use crate::declared::{Declared, declared_named};
use crate::fault::{GrammarFault, GrammarKind};
use crate::names::{attr_named, attrs_named, kid_named, prod_named};
use lrc_base::{NameText, RawAttr, RawGrammar, RawItem, RawKid, RawKind, RawProd, RawSort};
use std::marker::Model;

/// What a name means in a production.
#[derive(Debug, Drop)]
pub enum Means {
    Nothing,
    LeftAttr(RawAttr),
    /// A child that is no tree.
    Leaf(RawKind),
    /// A child of this sort.
    Symbol(NameText),
    /// A local value.
    Value(RawKind),
    /// A nonterminal attribute of this sort.
    Tree(NameText),
}

/// A production of a grammar, with its left attributes and what it declares.
#[derive(Debug, Drop)]
pub struct Scope<'a> {
    grammar: &'a RawGrammar,
    prod: &'a RawProd,
    left: &'a [RawAttr],
    declared: &'a [Declared],
}

impl<'a> Model for Scope<'a> {
    ghost use Rattle.lrc_check.specs.Within as within;
    ghost use Rattle.lrc_base.specs.contracts.raw.RawExpr as e;
    ghost use Rattle.std.specs.Coded.{codes};

    ghost Value = { within.Within };

    ghost coded = { Prim.hlevel (codes, e.the_row.coded) };

    ghost view = { λ s. record { grammar = s.grammar.now; prod = s.prod.now } };

    ghost invariant = { λ s. within.AreNamesOf s.grammar.now s.prod.now s.left.now s.declared.now };
}

fn kid_means(kid: &RawKid) -> Means
    ensures { meaning result ≡ kid_means kid.now kid.now.kind }
{
    match kid.kind {
        RawKind::Named(sort) => Means::Symbol(sort),
        kind => Means::Leaf(kind),
    }
}

fn declared_means(declared: &Declared) -> Means
    ensures { meaning result ≡ declared_means (Some (declaration declared.now)) }
{
    match declared {
        Declared::Local(_, kind) => Means::Value(*kind),
        Declared::Attached(_, sort) => Means::Tree(*sort),
    }
}

/// What the name means among left attributes, children, and locals and nonterminal attributes.
fn means_among(left: &[RawAttr], kids: &[RawKid], declared: &[Declared], name: NameText) -> Means
    ensures { meaning result ≡ means_among left.now kids.now declared.now name }
{
    if let Some(attr) = attr_named(left, name) {
        return Means::LeftAttr(RawAttr {
            name: attr.name,
            inherited: attr.inherited,
            kind: attr.kind,
        });
    }
    if let Some(kid) = kid_named(kids, name) {
        return kid_means(kid);
    }
    match declared_named(declared, name) {
        Some(declared) => declared_means(declared),
        None => Means::Nothing,
    }
}

impl<'a> Scope<'a> {
    /// The production, where these are the locals and nonterminal attributes that it declares.
    pub fn new(grammar: &'a RawGrammar, prod: &'a RawProd, declared: &'a [Declared]) -> Scope<'a>
        requires { map declaration declared.now ≡ flat_map declared_by prod.now.items }
        ensures { result ≡ record { grammar = grammar.now; prod = prod.now } }
    {
        Scope {
            grammar,
            prod,
            left: attrs_named(grammar.sorts.as_slice(), prod.left),
            declared,
        }
    }

    /// The sorts of the grammar.
    pub fn sorts(&self) -> &[RawSort]
        ensures { result.now ≡ self.now.grammar.sorts }
    {
        self.grammar.sorts.as_slice()
    }

    /// The productions of the grammar.
    pub fn prods(&self) -> &[RawProd]
        ensures { result.now ≡ self.now.grammar.prods }
    {
        self.grammar.prods.as_slice()
    }

    pub fn prod(&self) -> &RawProd
        ensures { result.now ≡ self.now.prod }
    {
        self.prod
    }

    /// The attributes of the left sort.
    pub fn left(&self) -> &[RawAttr]
        ensures { result.now ≡ attrs_named self.now.grammar.sorts self.now.prod.left }
    {
        self.left
    }

    /// The locals and nonterminal attributes, in order of declaration.
    pub fn declared(&self) -> &[Declared]
        ensures { map declaration result.now ≡ flat_map declared_by self.now.prod.items }
    {
        self.declared
    }

    /// The name of the production.
    pub fn place(&self) -> NameText
        ensures { result ≡ self.now.prod.name }
    {
        self.prod.name
    }

    /// What the name means in the production.
    pub fn means(&self, name: NameText) -> Means
        ensures { meaning result ≡ means self.now.grammar.sorts self.now.prod name }
    {
        means_among(self.left, self.prod.kids.as_slice(), self.declared, name)
    }
}
