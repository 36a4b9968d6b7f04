//! The ordered test with pairs that are given, and what partitions tell of visits.

use crate::grammars::checked;
use crate::jobs::DECLARATIONS;
use lrc_base::{Given, List};
use lrc_ordered::{OrderFault, Partitions, are_given_there, ordered, ordered_with};
use std::alloc::Global;
use std::test::Fail;

/// Two places of `X`, each of which needs an attribute of the other; `U` stands nowhere.
const UNUSED: &[u8] = b"lrc 1
sort R { syn r: Int; }
sort X { inh a: Int; inh b: Int; syn c: Int; syn d: Int; }
sort U { syn u: Int; }
prod T: R (x: X, y: X) { x.a = 0; x.b = y.d; y.a = x.c; y.b = 0; r = x.d + y.c; }
prod L: X () { c = a; d = b; }
start R;
";

fn has_visits(found: &Partitions, sort: usize, visits: u32, visit_of: &[u32]) -> bool {
    match found.sorts().get(sort) {
        Some(partition) => {
            partition.visits == visits && *partition.visit_of.as_slice() == *visit_of
        }
        None => false,
    }
}

#[test]
fn items_have_two_visits(rt: HostRuntime) -> Result<(), Fail> {
    let grammar = checked(rt.alloc(), DECLARATIONS)?;
    let found = ordered(rt.alloc(), &grammar)?;
    assert!(rt; has_visits(&found, 1, 2, &[1, 2, 2]));
    let copy = found.copy(rt.alloc())?;
    assert!(rt; has_visits(&copy, 1, 2, &[1, 2, 2]));
    Ok(())
}

/// The partitions that keep these pairs, or the cycle.
fn ordered_so(alloc: Global, pairs: &[Given]) -> Result<Result<Partitions, OrderFault>, Fail> {
    let grammar = checked(alloc, UNUSED)?;
    let given = List::from_slice(alloc, pairs)?;
    if !are_given_there(&grammar, given.as_slice()) {
        return Err("not there".into());
    }
    Ok(ordered_with(alloc, &grammar, &given))
}

#[test]
fn no_pair_leaves_a_cycle(rt: HostRuntime) -> Result<(), Fail> {
    let cycle = OrderFault::Extended {
        production: 0,
        occurrence: 2,
    };
    assert!(rt; ordered_so(rt.alloc(), &[])?.err() == Some(cycle));
    Ok(())
}

/// How often a sort of three attributes or more is visited, in which visit its second attribute is, and
/// whether its third comes before that.
fn read_off(found: &Partitions, sort: u32) -> Option<(u32, u32, bool)> {
    let partition = found.sorts().get(sort as usize)?;
    if partition.visit_of.len() < 3 || partition.before.points() < 3 {
        return None;
    }
    let visits = found.visits(sort);
    let visit = found.visit_of(sort, 1);
    Some((visits, visit, found.before(sort, 2, 1)))
}

/// That `c` comes before `b` is given; the pair of the sort that stands nowhere has no effect.
#[test]
fn a_given_pair_makes_it_ordered(rt: HostRuntime) -> Result<(), Fail> {
    let pair = Given {
        sort: 1,
        first: 2,
        then: 1,
    };
    let nowhere = Given {
        sort: 2,
        first: 0,
        then: 0,
    };
    let found = ordered_so(rt.alloc(), &[pair, nowhere])??;
    assert!(rt; has_visits(&found, 1, 2, &[1, 2, 1, 2]));
    assert_eq!(rt; read_off(&found, 1), Some((2, 2, true)));
    Ok(())
}
