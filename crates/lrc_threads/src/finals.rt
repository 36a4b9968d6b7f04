//! The finals of sessions, by the handles of their last trees.
ghost use Rattle.std.specs.Prelude.{◌≡◌, ◌≤◌, length, IfOk};
ghost use Rattle.lrc_threads.specs.Finals.{is_handle, first_handle, final_handle, final_handles};

use lrc_base::{List, Memory};
use lrc_store::Handle;
use std::alloc::Global;

/// Whether the last tree has this handle.
fn is_handle(last: Option<Handle>, sought: Handle) -> bool
    ensures { result ≡ is_handle sought last }
{
    match last {
        Some(handle) => sought.0 == handle.0,
        None => false,
    }
}

/// The number of the first of at most 64 sessions, from 1, whose last tree has this handle; one more
/// than there are where none has.
fn first_with(lasts: &[Option<Handle>], sought: Handle) -> u32
    requires { length lasts.now ≤ 64 }
    ensures { result ≡ first_handle sought 1 lasts.now }
{
    let mut number = 1;
    for last in lasts {
        if is_handle(*last, sought) {
            return number;
        }
        number += 1;
    }
    number
}

/// The final of a session with this last tree, among at most 64 sessions.
fn final_of(lasts: &[Option<Handle>], last: Option<Handle>) -> Option<u32>
    requires { length lasts.now ≤ 64 }
    ensures { result ≡ final_handle lasts.now last }
{
    match last {
        Some(sought) => Some(first_with(lasts, sought)),
        None => None,
    }
}

/// The finals of at most 64 sessions with these last trees.
///
/// # Errors
///
/// Want of memory.
pub(crate) fn finals_of(
    alloc: Global,
    lasts: &[Option<Handle>],
) -> Result<List<Option<u32>>, Memory>
    requires { length lasts.now ≤ 64 }
    ensures { IfOk result (λ finals. finals ≡ final_handles lasts.now) }
{
    let mut finals = List::new(alloc);
    for last in lasts {
        finals.push(final_of(lasts, *last))?;
    }
    Ok(finals)
}
