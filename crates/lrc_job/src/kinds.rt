ghost use Rattle.std.specs.Prelude.{◌≡◌, ◌≤◌, ◌<◌, ◌^◌, length, All};
ghost use Rattle.lrc_meaning.specs.Limits.{IsFew};
ghost use Rattle.lrc_meaning.specs.Naming.{production_number};
ghost use Rattle.lrc_job.specs.Found.{first_unlike_kind, production_over, IsOver};

use crate::term_fault::TermFault;
use lrc_base::limits::{CHILD_LIMIT, PRODUCTION_LIMIT};
use lrc_base::{Kid, Kind, NameText, Production};
use lrc_grammar::same_kind;
use lrc_naming::production_number;

/// The number of the first kind that is another than its child's.
fn first_unlike(kinds: &[Kind], kids: &[Kid]) -> Option<u32>
    requires number { length kinds.now ≡ length kids.now }
    requires few { length kids.now ≤ CHILD_LIMIT }
    ensures { result ≡ first_unlike_kind 0 kinds.now kids.now }
{
    for i in 0..kinds.len() {
        if !same_kind(kinds[i], kids[i].kind) {
            return Some(i as u32);
        }
    }
    None
}

/// The number of the production of this name, for a node over terms of these kinds, and the node's kind:
/// the sort on the production's left side.
///
/// # Errors
///
/// No production has the name; else the number of its children differs; else a child has another kind,
/// the first such.
pub fn production_over(
    prods: &[Production],
    name: NameText,
    kinds: &[Kind],
) -> Result<(u32, Kind), TermFault>
    requires prods { length prods.now ≤ PRODUCTION_LIMIT }
    requires parts { All IsFew prods.now }
    ensures { IsOver prods.now (production_over prods.now name (production_number prods.now name) kinds.now) result }
{
    let Some(number) = production_number(prods, name) else {
        return Err(TermFault::UnknownProduction(name));
    };
    let production = &prods[number as usize];
    let kids = production.kids.as_slice();
    if kinds.len() != kids.len() {
        return Err(TermFault::Arity(name));
    }
    match first_unlike(kinds, kids) {
        Some(kid) => Err(TermFault::KidKind(name, kid)),
        None => Ok((number, Kind::Sort(production.left))),
    }
}
