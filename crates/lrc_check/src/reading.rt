ghost use Rattle.std.specs.Prelude.{◌≡◌, None, Some, cond, find, bytes_eq, MatchResult};
ghost use Rattle.std.specs.Option.{option_copied};
ghost use Rattle.lrc_fault_meaning.specs.Faults.{means, symbol_sort, is_nothing, fault, unknown, not_normal, attr_in_sort, read_alone, read_attr, read_of};
ghost use Rattle.lrc_check.specs.Verdict.{answered, Finds};

use crate::fault::{GrammarFault, GrammarKind};
use crate::names::{attr_named, attrs_named};
use crate::scope::{Means, Scope};
use lrc_base::{NameText, RawAttr, RawKind, RawSort};

/// The first attribute of this name in the sort of that name.
pub fn attr_in_sort(sorts: &[RawSort], sort: NameText, name: NameText) -> Option<&RawAttr>
    ensures { option_copied result ≡ attr_in_sort sorts.now sort name }
{
    attr_named(attrs_named(sorts, sort), name)
}

/// The sort of the symbol of this name, which is a child that is a tree, or a nonterminal attribute.
pub fn symbol_sort(scope: &Scope<'_>, name: NameText) -> Result<NameText, GrammarFault>
    ensures { MatchResult result
        (λ sort. symbol_sort (means scope.now.grammar.sorts scope.now.prod name) ≡ Some sort)
        (λ f. let meant = means scope.now.grammar.sorts scope.now.prod name in (symbol_sort meant ≡ None) × (f ≡ answered (fault (cond (is_nothing meant) unknown not_normal) scope.now.prod.name name))) }
{
    match scope.means(name) {
        Means::Symbol(sort) | Means::Tree(sort) => Ok(sort),
        Means::Nothing => Err(GrammarFault::new(GrammarKind::Unknown, scope.place(), name)),
        Means::LeftAttr(_) | Means::Leaf(_) | Means::Value(_) => {
            Err(GrammarFault::new(GrammarKind::NotNormal, scope.place(), name))
        }
    }
}

/// The kind of what is read by a name alone: an inherited left attribute, a leaf, a local, or a
/// nonterminal attribute's tree.
pub fn read_alone(scope: &Scope<'_>, name: NameText) -> Result<RawKind, GrammarFault>
    ensures { Finds (read_alone scope.now.prod.name name (means scope.now.grammar.sorts scope.now.prod name)) result }
{
    match &scope.means(name) {
        Means::LeftAttr(attr) if attr.inherited => Ok(attr.kind),
        Means::Leaf(kind) | Means::Value(kind) => Ok(*kind),
        Means::Tree(sort) => Ok(RawKind::Named(*sort)),
        Means::Nothing => Err(GrammarFault::new(GrammarKind::Unknown, scope.place(), name)),
        Means::LeftAttr(_) | Means::Symbol(_) => {
            Err(GrammarFault::new(GrammarKind::NotNormal, scope.place(), name))
        }
    }
}

/// The kind of an attribute of a symbol that is read, which is synthesised.
fn read_attr(
    place: NameText,
    owner: NameText,
    name: NameText,
    attr: Option<&RawAttr>,
) -> Result<RawKind, GrammarFault>
    ensures { Finds (read_attr place owner name (option_copied attr.entry)) result }
{
    match attr {
        None => Err(GrammarFault::of(GrammarKind::Unknown, place, owner, name)),
        Some(attr) if attr.inherited => {
            Err(GrammarFault::of(GrammarKind::NotNormal, place, owner, name))
        }
        Some(attr) => Ok(attr.kind),
    }
}

/// The kind of the attribute of a symbol that is read.
pub fn read_of(scope: &Scope<'_>, owner: NameText, name: NameText) -> Result<RawKind, GrammarFault>
    ensures { let meant = means scope.now.grammar.sorts scope.now.prod owner in
        Finds (read_of scope.now.grammar.sorts scope.now.prod.name owner name (is_nothing meant) (symbol_sort meant)) result }
{
    let sort = symbol_sort(scope, owner)?;
    let attr = attr_in_sort(scope.sorts(), sort, name);
    read_attr(scope.place(), owner, name, attr)
}
