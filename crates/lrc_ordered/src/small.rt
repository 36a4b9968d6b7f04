ghost use Rattle.std.specs.Prelude.{◌↔◌, All, IsTrue};
ghost use Rattle.lrc_order_meaning.specs.Ordered.{IsGivenThere};
ghost use Rattle.lrc_ordered.specs.Small.{FewIsSmall};

use lrc_base::{Given, Sort};
use lrc_grammar::{Grammar, attrs_of_sort};

/// Whether each given pair is of attributes of a sort of the grammar.
pub fn are_given_there(grammar: &Grammar, given: &[Given]) -> bool
    ensures { IsTrue result ↔ All (IsGivenThere grammar.now.sorts) given.now }
{
    for pair in given {
        if !is_given_there(grammar.sorts.as_slice(), *pair) {
            return false;
        }
    }
    true
}

fn is_given_there(sorts: &[Sort], pair: Given) -> bool
    ensures { IsTrue result ↔ IsGivenThere sorts.now pair }
{
    let count = attrs_of_sort(sorts, pair.sort).len();
    (pair.sort as usize) < sorts.len()
        && (pair.first as usize) < count
        && (pair.then as usize) < count
}

/// A grammar within the limits is small enough for the tables of the test.
pub fn few_is_small()
    ensures { FewIsSmall }
{}
