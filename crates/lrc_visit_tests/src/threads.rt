//! The sessions of a job over one table: that two run at once, what they share, and which last trees are equal.
//!
//! The opening of `Add(Num(1), Num(2))` takes 21 rows, and each of the puts 13 more. What one session has made,
//! another need not make.

ghost use Rattle.std.specs.Prelude.{◌≤◌, length};

use crate::jobs::{only, scene_of};
use lrc_run::{Gate, OpenGate, run_solo};
use lrc_store::Store;
use lrc_threads::{Outs, Sizes, run_sessions};
use std::sync::atomic::{AtomicU64, Ordering};
use std::test::Fail;

/// How often a session looks whether the other one has come.
const LOOKS: u32 = 100_000_000;

const SIZES: Sizes = Sizes {
    rows: 100,
    memo: 16,
    depth: 500,
};

const TWO: &[u8] = b"lrc 1
sort Exp { syn val: Int; }
prod Num: Exp (n: Int) { val = n; }
prod Add: Exp (l: Exp, r: Exp) { val = l.val + r.val; }
start Exp;
session on Add(Num(1), Num(2)) { put /0 Num(5); }
session on Add(Num(1), Num(2)) { put /0 Num(6); }
";

const THREE: &[u8] = b"lrc 1
sort Exp { syn val: Int; }
prod Num: Exp (n: Int) { val = n; }
prod Add: Exp (l: Exp, r: Exp) { val = l.val + r.val; }
start Exp;
session on Add(Num(1), Num(2)) { put /0 Num(5); }
session on Add(Num(1), Num(2)) { put /0 Num(5); }
session on Add(Num(1), Num(2)) { put /0 Num(6); }
";

const TWOFOLD: &[u8] = b"lrc 1
sort Exp { syn val: Int; }
prod Num: Exp (n: Int) { val = n; }
prod Add: Exp (l: Exp, r: Exp) { val = l.val + r.val; }
start Exp;
session on Add(Add(Num(1), Num(2)), Add(Num(1), Num(2))) { put /1 Num(3); }
";

/// Two sessions that wait for each other before their openings.
#[derive(Drop)]
struct Meeting {
    first: AtomicU64,
    second: AtomicU64,
    gave_up: AtomicU64,
}

impl Meeting {
    fn new() -> Meeting {
        Meeting {
            first: AtomicU64::new(0),
            second: AtomicU64::new(0),
            gave_up: AtomicU64::new(0),
        }
    }
}

impl Gate for Meeting {
    fn pass(&self, session: u32, edit: u32) {
        if edit > 0 {
            return;
        }
        let (own, other) = match session {
            1 => (&self.first, &self.second),
            _ => (&self.second, &self.first),
        };
        own.store(1, Ordering::SeqCst);
        for _ in 0..LOOKS {
            if other.load(Ordering::SeqCst) == 1 {
                return;
            }
        }
        self.gave_up.fetch_add(1, Ordering::SeqCst);
    }
}

/// How many cells all sessions have made by their last lines.
fn cells(outs: &Outs) -> u64 {
    let mut sum = 0u64;
    for lines in outs.sessions.as_slice() {
        if let Some(line) = lines.as_slice().last() {
            sum = sum.saturating_add(u64::from(line.cells));
        }
    }
    sum
}

/// Each session has come to its opening before the other one is opened, which no single thread can do.
#[test]
fn two_sessions_run_at_once(rt: HostRuntime) -> Result<(), Fail> {
    let scene = scene_of(rt.alloc(), TWO)?;
    let sessions = scene.sessions.as_slice();
    if sessions.len() != 2 {
        return Err("there are not two sessions".into());
    }
    let meeting = Meeting::new();
    let outs = run_sessions(&rt, rt.alloc(), &scene.functions, sessions, SIZES, &meeting)?;
    let wanted = [Some(1), Some(2)];
    assert_eq!(rt; outs.finals.as_slice(), wanted.as_slice());
    assert_eq!(rt; meeting.gave_up.load(Ordering::SeqCst), 0);
    Ok(())
}

/// However the threads take turns, each cell is made once; in tables of their own they would make 34 each.
#[test]
fn three_sessions_make_47_cells(rt: HostRuntime) -> Result<(), Fail> {
    let scene = scene_of(rt.alloc(), THREE)?;
    let sessions = scene.sessions.as_slice();
    if sessions.len() != 3 {
        return Err("there are not three sessions".into());
    }
    let outs = run_sessions(
        &rt,
        rt.alloc(),
        &scene.functions,
        sessions,
        SIZES,
        &OpenGate,
    )?;
    let wanted = [Some(1), Some(1), Some(3)];
    assert_eq!(rt; outs.finals.as_slice(), wanted.as_slice());
    assert_eq!(rt; cells(&outs), 47);
    Ok(())
}

/// The store that is handed back has made the cells of all that was met, and remembers each call that was
/// missed.
#[test]
fn a_run_alone_hands_its_store_back(rt: HostRuntime) -> Result<(), Fail> {
    let scene = scene_of(rt.alloc(), TWOFOLD)?;
    let script = only(scene.sessions.as_slice()).ok_or("there is not one session")?;
    let (out, mut store) = run_solo(rt.alloc(), &scene.functions, script, 1000, 500)?;
    assert_eq!(rt; out.lines.len(), 2);
    assert_eq!(rt; store.published(), 36);
    assert_eq!(rt; store.missed(), 6);
    Ok(())
}
