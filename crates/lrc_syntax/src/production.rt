ghost use Rattle.std.specs.Prelude.{◌≡◌, ◌≢◌, ◌↔◌, IsTrue, IfOk, IfErr};
ghost use Rattle.lrc_syntax.specs.Spelling.{AreParts};
ghost use Rattle.lrc_syntax.specs.Faults.{IsReady, IsRight, IsFaultOf, AreTerminals, HasBadPattern, MissesSomeChild};
ghost use Rattle.lrc_syntax.specs.declared.fault.ProductionFault.TheVariants as variant;

use crate::bare::are_bare;
use crate::children::misses_child;
use crate::fault::ProductionFault;
use crate::part::Part;
use crate::parts::{pattern_parts, plain_parts};
use lrc_base::{List, Production};
use std::alloc::Global;

/// Whether some child doesn't stand exactly once in the production's pattern.
fn misses_some_child(production: &Production) -> bool
    ensures { IsTrue result ↔ MissesSomeChild production.now }
{
    match &production.pattern {
        Some(pieces) => misses_child(pieces.as_slice(), production.kids.len()),
        None => false,
    }
}

/// The parts of a production by its pattern, or by its name and children where it has none.
fn written_parts(alloc: Global, production: &Production) -> Result<List<Part>, ProductionFault>
    requires { IsReady production.now }
    ensures parts { IfOk result (λ parts. AreParts production.now parts) }
    ensures terminals { IfOk result (λ parts. AreTerminals parts) }
    ensures right { IfOk result (λ _. ¬ HasBadPattern production.now) }
    ensures bad { IfErr result (λ fault. fault ≢ variant.Memory → (fault ≡ variant.BadPattern) × HasBadPattern production.now) }
{
    let kids = production.kids.as_slice();
    match &production.pattern {
        Some(pieces) => pattern_parts(alloc, kids, pieces.as_slice()),
        None => Ok(plain_parts(alloc, production.name, kids)?),
    }
}

/// The parts of the spelling of a production's trees.
///
/// # Errors
///
/// The first fault of the production. Want of memory.
pub fn production_parts(
    alloc: Global,
    production: &Production,
) -> Result<List<Part>, ProductionFault>
    requires { IsReady production.now }
    ensures parts { IfOk result (λ parts. AreParts production.now parts) }
    ensures terminals { IfOk result (λ parts. AreTerminals parts) }
    ensures right { IfOk result (λ _. IsRight production.now) }
    ensures fault { IfErr result (IsFaultOf production.now) }
{
    let parts = written_parts(alloc, production)?;
    if misses_some_child(production) {
        return Err(ProductionFault::Kids);
    }
    if are_bare(production.kids.as_slice(), parts.as_slice()) {
        return Err(ProductionFault::Bare);
    }
    Ok(parts)
}
