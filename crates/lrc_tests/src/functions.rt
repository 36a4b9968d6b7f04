//! The visit functions of a plan.

use crate::grammars::checked;
use crate::jobs::DECLARATIONS;
use lrc_base::List;
use lrc_functions::{Function, Functions, Operation};
use lrc_ordered::ordered;
use lrc_plan::plan;
use std::alloc::Global;
use std::test::Fail;

/// The visit functions of the grammar of a job.
fn functions_of(alloc: Global, text: &[u8]) -> Result<Functions, Fail> {
    let grammar = checked(alloc, text)?;
    let parts = ordered(alloc, &grammar)?;
    Ok(Functions::new(alloc, plan(alloc, grammar, parts)?)?)
}

/// The function of a visit, counted from 0, of a production.
fn function_of(functions: &Functions, production: usize, visit: usize) -> Option<&Function> {
    functions
        .productions
        .as_slice()
        .get(production)?
        .as_slice()
        .get(visit)
}

/// What an operation evaluates, or makes a visit of, with what it takes and gives there.
fn shown(operation: &Operation) -> (u32, u32, usize, usize) {
    match operation {
        Operation::Eval(occurrence, _) => (0, *occurrence, 0, 0),
        Operation::Visit(callee) => (
            callee.visit,
            callee.sort,
            callee.earlier.len(),
            callee.later.len(),
        ),
    }
}

/// Whether there is one list, and it is this one.
fn is_alone(lists: &List<List<u32>>, wanted: &[u32]) -> bool {
    match lists.as_slice() {
        [only] => *only.as_slice() == *wanted,
        _ => false,
    }
}

/// A declaration evaluates its local, visits the rest, and evaluates the sum, and hands on its local and
/// the binding of the rest, whose numbers are 6 and 7.
#[test]
fn a_declaration_hands_on_two_items(rt: HostRuntime) -> Result<(), Fail> {
    let functions = functions_of(rt.alloc(), DECLARATIONS)?;
    let first = function_of(&functions, 2, 0).ok_or("no first visit")?;
    let mut done = Vec::new(rt.alloc());
    for operation in first.operations.as_slice() {
        done.push(shown(operation))?;
    }
    let wanted = [(0, 6, 0, 0), (1, 1, 0, 1), (0, 0, 0, 0)];
    assert_eq!(rt; done.as_slice(), wanted.as_slice());
    assert!(rt; is_alone(&first.later, &[6, 7]));
    let second = function_of(&functions, 2, 1).ok_or("no second visit")?;
    assert!(rt; is_alone(&second.earlier, &[6, 7]));
    assert_eq!(rt; functions.counts.as_slice(), [5, 3, 8].as_slice());
    Ok(())
}
