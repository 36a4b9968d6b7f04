ghost use Rattle.std.specs.Prelude.{◌≡◌, ◌≤◌, ℕ, length, Contains, IfOk};
ghost use Rattle.lrc_machine.specs.Machine.{HaveRoom};
ghost use Rattle.lrc_bodies.specs.Bodies.{HasRoom, stack_room};

use crate::mark::Mark;
use lrc_base::Memory;
use lrc_base::limits::CHILD_LIMIT;
use lrc_code::Handles;
use lrc_eval::Val;
use lrc_frames::Body;
use lrc_functions::Functions;
use lrc_machine::Levels;
use lrc_store::Handle;
use std::alloc::Global;

/// The frames and marks of the visits that run within one another: a visit with fuel n + 1 has those of
/// number n. Beside them there is the stack by which terms are put that are no higher than there are
/// levels. All their memory is taken when they are made.
#[derive(Debug, Drop)]
pub struct Frames {
    pub levels: Levels<Vec<Val>, Mark>,
    pub stack: Handles,
}

/// The greatest of some numbers, or 0.
fn greatest(counts: &[u32]) -> u32
    ensures { (n : ℕ) → Contains counts.now n → n ≤ result }
{
    let mut most = 0;
    'counts: for count in counts {
        if *count > most {
            most = *count;
        }
    }
    most
}

/// A mark of no body.
fn no_mark() -> Mark {
    Mark {
        call: Handle::NIL,
        body: Body {
            production: 0,
            visit: 0,
            tree: Handle::NIL,
        },
        at: 0,
        height: 0,
    }
}

/// The room that a term of so many levels needs on a stack: at most `CHILD_LIMIT` handles for each, and
/// one at least.
fn stack_room(depth: u32) -> usize
    ensures { result ≡ stack_room depth }
{
    (CHILD_LIMIT * depth as usize).max(1)
}

impl Frames {
    /// Frames for visits of so many levels, each with room for the items of each production of the plan,
    /// and a stack with room for terms of so many levels.
    ///
    /// # Errors
    ///
    /// Want of memory.
    pub fn new(alloc: Global, functions: &Functions, depth: u32) -> Result<Frames, Memory>
        ensures frames { IfOk result (λ made. length made.levels.frames.items ≡ depth) }
        ensures marks { IfOk result (λ made. length made.levels.marks.items ≡ depth) }
        ensures rooms { IfOk result (λ made. HaveRoom (λ frame. HasRoom functions.now.counts frame.items) made.levels.frames.items) }
        ensures stack { IfOk result (λ made. made.stack.room ≡ stack_room depth) }
    {
        let width = greatest(functions.counts.as_slice()) as usize;
        let mut frames = Vec::new(alloc);
        'levels: for _level in 0..depth {
            frames.push(vec![in alloc; Val::Unset; width]?)?;
        }
        let marks = vec![in alloc; no_mark(); depth as usize]?;
        let stack = Handles::with_room(alloc, stack_room(depth))?;
        Ok(Frames {
            levels: Levels { frames, marks },
            stack,
        })
    }
}
