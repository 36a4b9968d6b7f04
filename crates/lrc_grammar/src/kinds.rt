ghost use Rattle.std.specs.Prelude.{◌≡◌};
ghost use Rattle.lrc_meaning.specs.Tree.{is_sort, same_kind};

use lrc_base::Kind;

/// Whether the kind is a sort.
pub fn is_sort(kind: Kind) -> bool
    ensures { result ≡ is_sort kind }
{
    match kind {
        Kind::Int | Kind::Bool | Kind::Name => false,
        Kind::Sort(_) => true,
    }
}

/// Whether the two kinds are one.
pub fn same_kind(a: Kind, b: Kind) -> bool
    ensures { result ≡ same_kind a b }
{
    a == b
}
