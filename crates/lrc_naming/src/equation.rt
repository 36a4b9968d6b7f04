ghost use Rattle.lrc_meaning.specs.Naming.{named_target, named_equation, named_equations};
ghost use Rattle.lrc_naming.specs.Counted.{IsCounted};
ghost use Rattle.lrc_naming.specs.Names.{Names, NamesPart};

use crate::expr::named_expr;
use crate::fault::NamingFault;
use crate::occurrence::occurrence_number;
use crate::scope::Scope;
use lrc_base::{Equation, List, NameText, RawExpr, RawItem};
use std::alloc::Global;

/// An equation of what is called so.
fn named_target(
    alloc: Global,
    scope: &Scope<'_>,
    owner: Option<NameText>,
    name: NameText,
    raw: &RawExpr,
) -> Result<Equation, NamingFault>
    requires { IsCounted scope.now }
    ensures { Names result (named_target scope.now owner name raw.now) }
{
    let target = occurrence_number(scope.occurrences, owner, name).ok_or(NamingFault::Unnamed)?;
    let expr = named_expr(alloc, scope, raw)?;
    Ok(Equation { target, expr })
}

/// The equation that an item is; None where it is a pattern.
fn named_equation(
    alloc: Global,
    scope: &Scope<'_>,
    item: &RawItem,
) -> Result<Option<Equation>, NamingFault>
    requires { IsCounted scope.now }
    ensures { NamesPart result (named_equation scope.now item.now) }
{
    match item {
        RawItem::Local(name, _, raw) | RawItem::Attach(name, _, raw) | RawItem::Own(name, raw) => {
            Ok(Some(named_target(alloc, scope, None, *name, raw)?))
        }
        RawItem::OfKid(owner, name, raw) => {
            Ok(Some(named_target(alloc, scope, Some(*owner), *name, raw)?))
        }
        RawItem::Pattern(_) => Ok(None),
    }
}

/// The equations that are written, in order.
///
/// # Errors
///
/// `Unnamed` where a name is unknown. Want of memory.
pub fn named_equations(
    alloc: Global,
    scope: &Scope<'_>,
    items: &[RawItem],
) -> Result<List<Equation>, NamingFault>
    requires { IsCounted scope.now }
    ensures { Names result (named_equations scope.now items.now) }
{
    let mut named = List::new(alloc);
    for item in items {
        if let Some(equation) = named_equation(alloc, scope, item)? {
            named.push(equation)?;
        }
    }
    Ok(named)
}
