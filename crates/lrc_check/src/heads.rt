ghost use Rattle.std.specs.Prelude.{◌≡◌, ◌++◌, []};
ghost use Rattle.lrc_fault_meaning.specs.Faults.{is_among, attr_names, kid_names, kid_faults, head_faults, each_after};
ghost use Rattle.lrc_check.specs.Verdict.{verdict};

use crate::fault::{GrammarFault, GrammarKind};
use crate::kind::check_kind;
use crate::names::{attrs_named, has_attr, has_kid, has_prod, is_sort_known};
use lrc_base::{NameText, RawKid, RawProd, RawSort};

/// Whether a left attribute or one of these children has the name.
#[tactic(auto, using(crate::proofs::ListLemmas::amongs))]
fn is_taken(sorts: &[RawSort], prod: &RawProd, before: &[RawKid], name: NameText) -> bool
    ensures { result ≡ is_among (attr_names sorts.now prod.now.left ++ kid_names before.now) name }
{
    has_attr(attrs_named(sorts, prod.left), name) || has_kid(before, name)
}

/// A child behind those before it: its name is new in the production, and its kind is known.
fn check_kid(
    sorts: &[RawSort],
    prod: &RawProd,
    before: &[RawKid],
    kid: &RawKid,
) -> Result<(), GrammarFault>
    ensures { result ≡ verdict (kid_faults sorts.now prod.now before.now kid.now) }
{
    if is_taken(sorts, prod, before, kid.name) {
        return Err(GrammarFault::new(GrammarKind::Twice, prod.name, kid.name));
    }
    check_kind(sorts, prod.name, kid.kind)
}

fn check_kids(sorts: &[RawSort], prod: &RawProd) -> Result<(), GrammarFault>
    ensures { result ≡ verdict (each_after (kid_faults sorts.now prod.now) [] prod.now.kids) }
{
    let kids = prod.kids.as_slice();
    for (i, kid) in kids.iter().enumerate() {
        if let Err(fault) = check_kid(sorts, prod, &kids[..i], kid) {
            return Err(fault);
        }
    }
    Ok(())
}

/// The head of a production behind those before it: its name is new, and its left sort and its
/// children are right.
fn check_head(sorts: &[RawSort], before: &[RawProd], prod: &RawProd) -> Result<(), GrammarFault>
    ensures { result ≡ verdict (head_faults sorts.now before.now prod.now) }
{
    if has_prod(before, prod.name) {
        return Err(GrammarFault::new(GrammarKind::Twice, prod.name, prod.name));
    }
    if !is_sort_known(sorts, prod.left) {
        return Err(GrammarFault::new(GrammarKind::Unknown, prod.name, prod.left));
    }
    check_kids(sorts, prod)
}

/// The heads of productions in order.
pub fn check_heads(sorts: &[RawSort], prods: &[RawProd]) -> Result<(), GrammarFault>
    ensures { result ≡ verdict (each_after (head_faults sorts.now) [] prods.now) }
{
    for (i, prod) in prods.iter().enumerate() {
        if let Err(fault) = check_head(sorts, &prods[..i], prod) {
            return Err(fault);
        }
    }
    Ok(())
}
