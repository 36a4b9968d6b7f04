ghost use Rattle.std.specs.Prelude.{◌≡◌, [], Some, None, flat_map};
ghost use Rattle.std.specs.List.{list_any};
ghost use Rattle.lrc_fault_meaning.specs.Faults.{means, is_nothing, symbol_sort, has_target, equation_faults, own_equation, attr_equation, symbol_equation, piece_faults, item_faults, each_after};
ghost use Rattle.lrc_check.specs.Verdict.{verdict};
ghost use Rattle.lrc_check.specs.Declares.{is_equation_of};

use crate::expr::check_expr;
use crate::fault::{GrammarFault, GrammarKind};
use crate::names::has_kid;
use crate::reading::{attr_in_sort, symbol_sort};
use crate::scope::{Means, Scope};
use crate::target::Target;
use lrc_base::{NameText, RawExpr, RawItem, RawKind, RawPiece, RawProd};

fn is_equation_of(item: &RawItem, target: &Target) -> bool
    ensures { result ≡ is_equation_of target.now item.now }
{
    match item {
        RawItem::Own(name, _) => target.is(None, *name),
        RawItem::OfKid(owner, name, _) => target.is(Some(*owner), *name),
        RawItem::Local(_, _, _) | RawItem::Attach(_, _, _) | RawItem::Pattern(_) => false,
    }
}

fn any_equation_of(items: &[RawItem], target: &Target) -> bool
    ensures { result ≡ list_any (is_equation_of target.now) items.now }
{
    items.iter().any(|item| is_equation_of(item, target))
}

/// Whether one of the items is an equation of this target.
pub fn has_target(items: &[RawItem], target: &Target) -> bool
    ensures { result ≡ has_target items.now target.now }
{
    any_equation_of(items, target)
}

/// An equation behind the items before it, whose target is of this kind.
fn check_equation(
    scope: &Scope<'_>,
    before: &[RawItem],
    target: &Target,
    kind: RawKind,
    expr: &RawExpr,
) -> Result<(), GrammarFault>
    ensures { result ≡ verdict (equation_faults scope.now.grammar scope.now.prod before.now target.now kind expr.now) }
{
    if has_target(before, target) {
        return Err(GrammarFault::at(GrammarKind::DoubleEquation, scope.place(), target));
    }
    check_expr(scope, target, kind, expr)
}

/// The equation of a name alone, which is a synthesised left attribute.
fn check_own(
    scope: &Scope<'_>,
    before: &[RawItem],
    name: NameText,
    expr: &RawExpr,
) -> Result<(), GrammarFault>
    ensures { result ≡ verdict (own_equation scope.now.grammar scope.now.prod before.now name expr.now (means scope.now.grammar.sorts scope.now.prod name)) }
{
    match &scope.means(name) {
        Means::Nothing => Err(GrammarFault::new(GrammarKind::Unknown, scope.place(), name)),
        Means::LeftAttr(attr) if !attr.inherited => {
            let target = Target { owner: None, name };
            check_equation(scope, before, &target, attr.kind, expr)
        }
        Means::LeftAttr(_) | Means::Leaf(_) | Means::Symbol(_) | Means::Value(_) | Means::Tree(_) =>
            Err(GrammarFault::new(GrammarKind::NotNormal, scope.place(), name)),
    }
}

/// The equation of an attribute of a symbol, which is inherited.
fn check_of_symbol(
    scope: &Scope<'_>,
    before: &[RawItem],
    owner: NameText,
    name: NameText,
    expr: &RawExpr,
) -> Result<(), GrammarFault>
    ensures { let meant = means scope.now.grammar.sorts scope.now.prod owner in
        result ≡ verdict (symbol_equation scope.now.grammar scope.now.prod before.now owner name expr.now (is_nothing meant) (symbol_sort meant)) }
{
    let sort = symbol_sort(scope, owner)?;
    match attr_in_sort(scope.sorts(), sort, name) {
        None => Err(GrammarFault::of(GrammarKind::Unknown, scope.place(), owner, name)),
        Some(attr) if attr.inherited => {
            let target = Target {
                owner: Some(owner),
                name,
            };
            check_equation(scope, before, &target, attr.kind, expr)
        }
        Some(_) => Err(GrammarFault::of(GrammarKind::NotNormal, scope.place(), owner, name)),
    }
}

fn check_piece(prod: &RawProd, piece: &RawPiece) -> Result<(), GrammarFault>
    ensures { result ≡ verdict (piece_faults prod.now piece.now) }
{
    match piece {
        RawPiece::Kid(name) if !has_kid(prod.kids.as_slice(), *name) => {
            Err(GrammarFault::new(GrammarKind::Unknown, prod.name, *name))
        }
        RawPiece::Kid(_) | RawPiece::Text(_) => Ok(()),
    }
}

fn check_pieces(prod: &RawProd, pieces: &[RawPiece]) -> Result<(), GrammarFault>
    ensures { result ≡ verdict (flat_map (piece_faults prod.now) pieces.now) }
{
    for piece in pieces {
        if let Err(fault) = check_piece(prod, piece) {
            return Err(fault);
        }
    }
    Ok(())
}

/// An item behind those before it.
fn check_item(scope: &Scope<'_>, before: &[RawItem], item: &RawItem) -> Result<(), GrammarFault>
    ensures { result ≡ verdict (item_faults scope.now.grammar scope.now.prod before.now item.now) }
{
    match item {
        RawItem::Local(name, kind, expr) => {
            let target = Target {
                owner: None,
                name: *name,
            };
            check_expr(scope, &target, *kind, expr)
        }
        RawItem::Attach(name, sort, expr) => {
            let target = Target {
                owner: None,
                name: *name,
            };
            check_expr(scope, &target, RawKind::Named(*sort), expr)
        }
        RawItem::Own(name, expr) => check_own(scope, before, *name, expr),
        RawItem::OfKid(owner, name, expr) => check_of_symbol(scope, before, *owner, *name, expr),
        RawItem::Pattern(pieces) => check_pieces(scope.prod(), pieces.as_slice()),
    }
}

/// The items of the production in order.
pub fn check_items(scope: &Scope<'_>) -> Result<(), GrammarFault>
    ensures { result ≡ verdict (each_after (item_faults scope.now.grammar scope.now.prod) [] scope.now.prod.items) }
{
    let items = scope.prod().items.as_slice();
    for (i, item) in items.iter().enumerate() {
        if let Err(fault) = check_item(scope, &items[..i], item) {
            return Err(fault);
        }
    }
    Ok(())
}
