ghost use Rattle.std.specs.Prelude.{◌≡◌, ℕ, ◌-◌, ◌^◌, ◌<◌, ◌≤◌, Option, List, length, take, IfOk, OnOk, OnErr};
ghost use Rattle.std.specs.Io.KnownBytes.{Keeps, Appends};
ghost use Rattle.lrc_outside.specs.Count.{Rose};
ghost use Rattle.lrc_outside.specs.Known.{AppendsPart};

use crate::source::Failed;

/// Takes bytes, piece by piece.
pub trait Sink {
    // The bytes that the sink holds, where it tells them.
    ghost held: { Self → Option (List ℕ) };

    // How many faults there were.
    ghost faults: { Self → ℕ };

    /// Appends the first bytes of `piece` and returns how many, at least 1.
    ///
    /// # Errors
    ///
    /// `Failed` where none could be appended. The bytes that are held stay, and the count of
    /// faults has risen.
    fn put(&mut self, piece: &[u8]) -> Result<usize, Failed>
        requires { 0 < length piece.now }
        ensures some { IfOk result (λ n. 1 ≤ n) }
        ensures within { IfOk result (λ n. n ≤ length piece.now) }
        ensures appended { IfOk result (λ n.
            Appends (held self.old) (held self.new) (take n piece.now)) }
        ensures kept { OnErr result (Keeps (held self.old) (held self.new)) }
        ensures rose { OnErr result (Rose (faults self.old) (faults self.new)) }
        ensures never_falls { faults self.old ≤ faults self.new };

    // A count has a last value, 18446744073709551615, at which it stays.
    ghost at_most: { (sink : Self) → faults sink ≤ 2 ^ 64 - 1 };
}

/// Appends all the bytes.
///
/// # Errors
///
/// `Failed` where the sink failed. A part of the bytes, from their front, may then have been
/// appended.
pub fn put_all<O: Sink>(out: &mut O, bytes: &[u8]) -> Result<(), Failed>
    ensures all { OnOk result (Appends (O.held out.old) (O.held out.new) bytes.now) }
    ensures part { OnErr result (AppendsPart (O.held out.old) (O.held out.new) bytes.now) }
    ensures rose { OnErr result (Rose (O.faults out.old) (O.faults out.new)) }
    ensures never_falls { O.faults out.old ≤ O.faults out.new }
{
    let mut at = 0;
    while at < bytes.len() {
        at += out.put(&bytes[at..])?;
    }
    Ok(())
}
