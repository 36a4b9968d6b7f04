ghost use Rattle.std.specs.Prelude.{◌≡◌, ◌==◌, not, ◌&&◌, length};
ghost use Rattle.std.specs.List.{list_all};
ghost use Rattle.lrc_syntax.specs.Faults.{is_child_part, is_sort_kid, are_bare};

use crate::part::Part;
use lrc_base::Kid;
use lrc_grammar::is_sort;

fn are_children(parts: &[Part]) -> bool
    ensures { result ≡ list_all is_child_part parts.now }
{
    for part in parts {
        if let Part::Token(_) = part {
            return false;
        }
    }
    true
}

fn are_sorts(kids: &[Kid]) -> bool
    ensures { result ≡ list_all is_sort_kid kids.now }
{
    for kid in kids {
        if !is_sort(kid.kind) {
            return false;
        }
    }
    true
}

/// Whether the parts have no token, none of the children is a leaf, and they aren't exactly one.
pub fn are_bare(kids: &[Kid], parts: &[Part]) -> bool
    ensures { result ≡ are_bare kids.now parts.now }
{
    are_children(parts) && are_sorts(kids) && kids.len() != 1
}
