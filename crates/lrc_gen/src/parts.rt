ghost use Rattle.std.specs.Prelude.{◌≡◌, ◌∷◌, [], IsTrue, IfOk};
ghost use Rattle.lrc_base.specs.declared.raw.RawKind.TheVariants as k;
ghost use Rattle.lrc_base.specs.declared.raw.RawPiece.TheVariants as p;
ghost use Rattle.lrc_base.specs.declared.raw.RawExpr.TheVariants as x;
ghost use Rattle.lrc_base.specs.declared.raw.RawItem.TheVariants as i;
ghost use Rattle.lrc_gen.specs.Names.{is_name};
ghost use Rattle.lrc_gen.specs.Lets as spec;

use crate::names::name;
use lrc_base::{
    Boxed, Bytes, List, Memory, Op, RawAttr, RawExpr, RawItem, RawKid, RawKind, RawPiece,
};
use std::alloc::Global;

/// An inherited attribute.
pub fn inh(attr: &[u8], kind: RawKind) -> RawAttr
    requires { IsTrue (is_name attr.now) }
    ensures { result ≡ spec.inh attr.now kind }
{
    RawAttr {
        name: name(attr),
        inherited: true,
        kind,
    }
}

/// A synthesised attribute.
pub fn syn(attr: &[u8], kind: RawKind) -> RawAttr
    requires { IsTrue (is_name attr.now) }
    ensures { result ≡ spec.syn attr.now kind }
{
    RawAttr {
        name: name(attr),
        inherited: false,
        kind,
    }
}

/// The kind of a sort.
pub fn of_sort(sort: &[u8]) -> RawKind
    requires { IsTrue (is_name sort.now) }
    ensures { result ≡ spec.of_sort sort.now }
{
    RawKind::Named(name(sort))
}

/// A child.
pub fn kid(kid: &[u8], kind: RawKind) -> RawKid
    requires { IsTrue (is_name kid.now) }
    ensures { result ≡ spec.kid kid.now kind }
{
    RawKid {
        name: name(kid),
        kind,
    }
}

/// A piece of a pattern that prints a child.
pub fn printed(kid: &[u8]) -> RawPiece
    requires { IsTrue (is_name kid.now) }
    ensures { result ≡ p.Kid kid.now }
{
    RawPiece::Kid(name(kid))
}

/// A piece of a pattern that prints these bytes.
pub fn text(alloc: Global, bytes: &[u8]) -> Result<RawPiece, Memory>
    ensures { IfOk result (λ piece. piece ≡ p.Text bytes.now) }
{
    Ok(RawPiece::Text(Bytes::from_slice(alloc, bytes)?))
}

/// The pattern of one child.
pub fn pattern_of(alloc: Global, kid: &[u8]) -> Result<RawItem, Memory>
    requires { IsTrue (is_name kid.now) }
    ensures { IfOk result (λ item. item ≡ i.Pattern (p.Kid kid.now ∷ [])) }
{
    let mut pieces = List::new(alloc);
    pieces.push(printed(kid))?;
    Ok(RawItem::Pattern(pieces))
}

/// A value by its name.
pub fn one(value: &[u8]) -> RawExpr
    requires { IsTrue (is_name value.now) }
    ensures { result ≡ x.One value.now }
{
    RawExpr::One(name(value))
}

/// An attribute of a symbol.
pub fn two(symbol: &[u8], attr: &[u8]) -> RawExpr
    requires symbol { IsTrue (is_name symbol.now) }
    requires attr { IsTrue (is_name attr.now) }
    ensures { result ≡ x.Two symbol.now attr.now }
{
    RawExpr::Two(name(symbol), name(attr))
}

/// An operator between two expressions.
pub fn op(alloc: Global, op: Op, left: RawExpr, right: RawExpr) -> Result<RawExpr, Memory>
    ensures { IfOk result (λ expr. expr ≡ x.Op op left right) }
{
    let left = Boxed::new(alloc, left)?;
    let right = Boxed::new(alloc, right)?;
    Ok(RawExpr::Op(op, left, right))
}

/// An equation of an attribute of the left side.
pub fn own(attr: &[u8], expr: RawExpr) -> RawItem
    requires { IsTrue (is_name attr.now) }
    ensures { result ≡ i.Own attr.now expr }
{
    RawItem::Own(name(attr), expr)
}

/// An equation of an attribute of a symbol.
pub fn of_kid(symbol: &[u8], attr: &[u8], expr: RawExpr) -> RawItem
    requires symbol { IsTrue (is_name symbol.now) }
    requires attr { IsTrue (is_name attr.now) }
    ensures { result ≡ i.OfKid symbol.now attr.now expr }
{
    RawItem::OfKid(name(symbol), name(attr), expr)
}

/// The equation by which the environment is handed on to a child.
pub fn hands_on(kid: &[u8]) -> RawItem
    requires { IsTrue (is_name kid.now) }
    ensures { result ≡ spec.hands_on kid.now }
{
    of_kid(kid, b"env", one(b"env"))
}
