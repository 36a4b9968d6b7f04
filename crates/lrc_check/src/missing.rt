ghost use Rattle.std.specs.Prelude.{◌≡◌, flat_map};
ghost use Rattle.lrc_fault_meaning.specs.Faults.{missing_target, missing_of_left, missing_of_symbol, missing_of_kid, missing_of_declared, missing};
ghost use Rattle.lrc_check.specs.declared.declared.Declared.{Declared};
ghost use Rattle.lrc_check.specs.Declares.{declaration};
ghost use Rattle.lrc_check.specs.Verdict.{verdict};

use crate::declared::Declared;
use crate::equations::has_target;
use crate::fault::{GrammarFault, GrammarKind};
use crate::names::attrs_named;
use crate::scope::Scope;
use crate::target::Target;
use lrc_base::{NameText, RawAttr, RawKid, RawKind, RawProd, RawSort};

/// A target has an equation where it is to be defined.
fn check_target(prod: &RawProd, is_defined: bool, target: &Target) -> Result<(), GrammarFault>
    ensures { result ≡ verdict (missing_target prod.now is_defined target.now) }
{
    if is_defined && !has_target(prod.items.as_slice(), target) {
        return Err(GrammarFault::at(GrammarKind::MissingEquation, prod.name, target));
    }
    Ok(())
}

/// An attribute of the left side, which is to be defined where it is synthesised.
fn check_left_attr(prod: &RawProd, attr: &RawAttr) -> Result<(), GrammarFault>
    ensures { result ≡ verdict (missing_of_left prod.now attr.now) }
{
    let target = Target {
        owner: None,
        name: attr.name,
    };
    check_target(prod, !attr.inherited, &target)
}

fn check_left(prod: &RawProd, attrs: &[RawAttr]) -> Result<(), GrammarFault>
    ensures { result ≡ verdict (flat_map (missing_of_left prod.now) attrs.now) }
{
    for attr in attrs {
        if let Err(fault) = check_left_attr(prod, attr) {
            return Err(fault);
        }
    }
    Ok(())
}

/// An attribute of a symbol, which is to be defined where it is inherited.
fn check_symbol_attr(prod: &RawProd, owner: NameText, attr: &RawAttr) -> Result<(), GrammarFault>
    ensures { result ≡ verdict (missing_of_symbol prod.now owner attr.now) }
{
    let target = Target {
        owner: Some(owner),
        name: attr.name,
    };
    check_target(prod, attr.inherited, &target)
}

fn check_symbol(prod: &RawProd, owner: NameText, attrs: &[RawAttr]) -> Result<(), GrammarFault>
    ensures { result ≡ verdict (flat_map (missing_of_symbol prod.now owner) attrs.now) }
{
    for attr in attrs {
        if let Err(fault) = check_symbol_attr(prod, owner, attr) {
            return Err(fault);
        }
    }
    Ok(())
}

fn check_kid(sorts: &[RawSort], prod: &RawProd, kid: &RawKid) -> Result<(), GrammarFault>
    ensures { result ≡ verdict (missing_of_kid sorts.now prod.now kid.now) }
{
    match kid.kind {
        RawKind::Named(sort) => check_symbol(prod, kid.name, attrs_named(sorts, sort)),
        RawKind::Int | RawKind::Bool | RawKind::Name => Ok(()),
    }
}

fn check_kids(sorts: &[RawSort], prod: &RawProd, kids: &[RawKid]) -> Result<(), GrammarFault>
    ensures { result ≡ verdict (flat_map (missing_of_kid sorts.now prod.now) kids.now) }
{
    for kid in kids {
        if let Err(fault) = check_kid(sorts, prod, kid) {
            return Err(fault);
        }
    }
    Ok(())
}

fn check_declared(
    sorts: &[RawSort],
    prod: &RawProd,
    declared: &Declared,
) -> Result<(), GrammarFault>
    ensures { result ≡ verdict (missing_of_declared sorts.now prod.now (declaration declared.now)) }
{
    match declared {
        Declared::Attached(name, sort) => check_symbol(prod, *name, attrs_named(sorts, *sort)),
        Declared::Local(_, _) => Ok(()),
    }
}

fn check_all_declared(
    sorts: &[RawSort],
    prod: &RawProd,
    declared: &[Declared],
) -> Result<(), GrammarFault>
    ensures { result ≡ verdict (flat_map (λ (d : Declared). missing_of_declared sorts.now prod.now (declaration d)) declared.now) }
{
    for one in declared {
        if let Err(fault) = check_declared(sorts, prod, one) {
            return Err(fault);
        }
    }
    Ok(())
}

/// Each occurrence to be defined has an equation: of the left side, of the children, and of the
/// nonterminal attributes.
#[tactic(auto, using(crate::proofs::ListLemmas::verdicts))]
pub fn check_missing(scope: &Scope<'_>) -> Result<(), GrammarFault>
    ensures { result ≡ verdict (missing scope.now.grammar.sorts scope.now.prod) }
{
    let prod = scope.prod();
    if let Err(fault) = check_left(prod, scope.left()) {
        return Err(fault);
    }
    if let Err(fault) = check_kids(scope.sorts(), prod, prod.kids.as_slice()) {
        return Err(fault);
    }
    check_all_declared(scope.sorts(), prod, scope.declared())
}
