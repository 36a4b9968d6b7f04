ghost use Rattle.std.specs.Prelude.{◌≡◌, Some, None, cond, option_copied};
ghost use Rattle.lrc_meaning.specs.Text.{production_name, pattern_of};
ghost use Rattle.lrc_unparse.specs.Styles.{mark, pattern_in, pieces_of};

use lrc_base::{Piece, Production};

/// How trees are printed.
#[derive(Debug, Clone, Copy, PartialEq, Eq)]
pub(crate) enum Style {
    /// As values: each node with its production's name, and a name behind a `'`.
    Value,
    /// As trees: each node by its production's pattern, where there is one, and a name as it is.
    Tree,
}

/// What stands before a name.
pub(crate) fn mark_of(style: Style) -> &'static [u8]
    ensures { result.now ≡ mark style }
{
    match style {
        Style::Value => b"'",
        Style::Tree => b"",
    }
}

/// The name of the production of this number; no bytes where there is none.
pub(crate) fn name_of(prods: &[Production], production: u32) -> &[u8]
    ensures { result.now ≡ production_name prods.now production }
{
    match prods.get(production as usize) {
        Some(production) => production.name.bytes(),
        None => &[],
    }
}

/// The pattern of the production of this number.
fn pattern_of(prods: &[Production], production: u32) -> Option<&[Piece]>
    ensures { option_copied result ≡ pattern_of prods.now production }
{
    match &prods.get(production as usize)?.pattern {
        Some(pieces) => Some(pieces.as_slice()),
        None => None,
    }
}

/// The pieces of the pattern of the production of this number; none where there is no pattern.
pub(crate) fn pieces(prods: &[Production], production: u32) -> &[Piece]
    ensures { result.now ≡ pieces_of prods.now production }
{
    match pattern_of(prods, production) {
        Some(pieces) => pieces,
        None => &[],
    }
}

/// Whether the nodes of the production of this number are printed by its pattern.
pub(crate) fn has_pattern(prods: &[Production], production: u32, style: Style) -> bool
    ensures { pattern_in style prods.now production ≡ cond result (Some (pieces_of prods.now production)) None }
{
    match style {
        Style::Value => false,
        Style::Tree => pattern_of(prods, production).is_some(),
    }
}
