ghost use Rattle.std.specs.Prelude.{◌≡◌, ◌≤◌, ◌<◌, ◌^◌, length, IfOk, IfErr};
ghost use Rattle.lrc_visit_meaning.specs.Values.{Call};
ghost use Rattle.lrc_store.specs.Words.{Gains};
ghost use Rattle.lrc_machine.specs.Counts.{IsCellOf, Counted};
ghost use Rattle.lrc_machine.specs.Machine.{HasLevels, Stops};
ghost use Rattle.lrc_machine.specs.Levels.{slots_of};

use crate::bodies::Bodies;
use crate::turns::{Levels, Step, Stop, Turn, next};
use lrc_store::{Handle, Store};

/// The result of a call with so much fuel. Its body, and those of the visits that are made for it, run
/// on levels below the fuel, of which there have to be as many. No memory is taken.
///
/// Where the memo is told and whole, just the calls that are made are remembered besides those before,
/// and each of them that was not has missed once.
///
/// # Errors
///
/// Deep, only where the call has no result with this fuel, and Full, only where all rows are used and
/// a cell of what the call meets is in none.
pub fn run<St: Store, B: Bodies<St>>(
    bodies: &B,
    store: &mut St,
    levels: &mut Levels<B::Frame, B::Mark>,
    call: Handle,
    fuel: u32,
) -> Result<Handle, Stop>
    requires meaning { B.means bodies.now (St.meaning store.old) }
    requires call { (c : Call) × B.asks bodies.now (St.state store.old) c call.0 }
    requires levels { HasLevels (B.fits bodies.now) (slots_of levels.old) fuel }
    ensures levels { HasLevels (B.fits bodies.now) (slots_of levels.new) fuel }
    ensures gains { (c : Call) → B.asks bodies.now (St.state store.old) c call.0 → Gains (St.state store.old) (St.state store.new) (B.meets bodies.now fuel c) }
    ensures gives { (c : Call) → B.asks bodies.now (St.state store.old) c call.0 → IfOk result (λ given. B.gives bodies.now (St.state store.new) fuel c given.0) }
    ensures stops { (c : Call) → B.asks bodies.now (St.state store.old) c call.0 → IfErr result (Stops (St.state store.new) (B.meets bodies.now fuel c) (B.lacks bodies.now fuel c)) }
    ensures wholes { B.whole bodies.now (St.state store.old).memo → B.whole bodies.now (St.state store.new).memo }
    ensures counted { (c : Call) → B.asks bodies.now (St.state store.old) c call.0 → B.whole bodies.now (St.state store.old).memo → IfOk result (λ _. Counted (St.state store.old) (St.state store.new) (IsCellOf (B.form bodies.now) (B.calls bodies.now fuel c))) }
    ensures same_meaning { St.meaning store.new ≡ St.meaning store.old }
{
    // So the count of misses is known to fit 64 bits.
    let _ = store.missed();
    let mut turn = Turn {
        level: fuel,
        step: Step::Open(call),
    };
    'turns: loop {
        if let Step::Answer(given) = turn.step {
            if turn.level == fuel {
                return Ok(given);
            }
        }
        turn = match next(bodies, store, levels, turn) {
            Ok(turn) => turn,
            Err(stop) => return Err(stop),
        };
    }
}
