ghost use Rattle.std.specs.Prelude.{◌≡◌, ◌≤◌, length};
ghost use Rattle.lrc_meaning.specs.Grammar.{attrs_of_sort};
ghost use Rattle.lrc_augment.specs.Orders.{sort_number, attr_number, or_unknown, pair_of, pairs_of, Answers};

use crate::fault::OrderLineFault;
use crate::order::RawOrder;
use lrc_base::limits::{ATTRIBUTE_LIMIT, SORT_LIMIT};
use lrc_base::{Attr, Given, List, NameText, Sort};
use lrc_grammar::{Grammar, attrs_of_sort};
use std::alloc::Global;

fn sort_place(sorts: &[Sort], name: NameText) -> Option<usize>
    ensures { result ≡ sort_number sorts.now name }
{
    sorts.iter().position(|sort| sort.name == name)
}

/// The number of the first sort of this name.
fn sort_number(sorts: &[Sort], name: NameText) -> Result<u32, OrderLineFault>
    requires { length sorts.now ≤ SORT_LIMIT }
    ensures { Answers (or_unknown name (sort_number sorts.now name)) result }
{
    match sort_place(sorts, name) {
        Some(place) => Ok(place as u32),
        None => Err(OrderLineFault::Unknown(name)),
    }
}

fn attr_place(attrs: &[Attr], name: NameText) -> Option<usize>
    ensures { result ≡ attr_number attrs.now name }
{
    attrs.iter().position(|attr| attr.name == name)
}

/// The number of the first attribute of this name.
fn attr_number(attrs: &[Attr], name: NameText) -> Result<u32, OrderLineFault>
    requires { length attrs.now ≤ ATTRIBUTE_LIMIT }
    ensures { Answers (or_unknown name (attr_number attrs.now name)) result }
{
    match attr_place(attrs, name) {
        Some(place) => Ok(place as u32),
        None => Err(OrderLineFault::Unknown(name)),
    }
}

/// The pair that an order line names.
fn pair_of(grammar: &Grammar, line: &RawOrder) -> Result<Given, OrderLineFault>
    ensures { Answers (pair_of grammar.now.sorts line.now) result }
{
    let sorts = grammar.sorts.as_slice();
    let sort = sort_number(sorts, line.sort)?;
    let attrs = attrs_of_sort(sorts, sort);
    let first = attr_number(attrs, line.first)?;
    let then = attr_number(attrs, line.then)?;
    Ok(Given { sort, first, then })
}

/// The pairs that order lines name, in order.
///
/// # Errors
///
/// `Unknown` at the first line whose sort, first attribute or second attribute, in this order, names
/// none. Want of memory.
pub fn given(
    alloc: Global,
    grammar: &Grammar,
    orders: &[RawOrder],
) -> Result<List<Given>, OrderLineFault>
    ensures { Answers (pairs_of grammar.now.sorts orders.now) result }
{
    let mut pairs = List::new(alloc);
    for line in orders {
        let pair = pair_of(grammar, line)?;
        pairs.push(pair)?;
    }
    Ok(pairs)
}
