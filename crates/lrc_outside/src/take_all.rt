ghost use Rattle.std.specs.Prelude.{◌≡◌, ◌<◌, ◌≤◌, length, IfOk, OnErr};
ghost use Rattle.std.specs.Io.KnownBytes.{Consumes, IsAtEnd};
ghost use Rattle.lrc_outside.specs.Count.{Rose};
ghost use Rattle.lrc_outside.specs.Known.{TakesUpTo, LosesUpTo};

use crate::source::{Failed, Source};
use lrc_base::{Bytes, List, Memory};
use std::alloc::Global;

/// How many bytes are read at a time, at most.
const BLOCK: usize = 65536;

/// Why bytes could not be read whole.
#[derive(Clone, Copy, Debug, PartialEq, Eq)]
pub enum TakeFault {
    /// The source failed.
    Failed,
    /// Want of memory.
    Memory,
}

impl From<Failed> for TakeFault {
    ghost use Rattle.lrc_outside.specs.declared.take_all.TakeFault.{TakeFault};

    ghost from_gives = { λ _ fault. fault ≡ TakeFault.Failed };

    fn from(_failed: Failed) -> TakeFault {
        TakeFault::Failed
    }
}

impl From<Memory> for TakeFault {
    ghost use Rattle.lrc_outside.specs.declared.take_all.TakeFault.{TakeFault};

    ghost from_gives = { λ _ fault. fault ≡ TakeFault.Memory };

    fn from(_memory: Memory) -> TakeFault {
        TakeFault::Memory
    }
}

/// All the bytes that the source has left, or the first `limit` of them where it has more.
///
/// # Errors
///
/// `Failed` where the source failed, and `Memory`. Some bytes are then lost.
pub fn take_up_to<S: Source>(
    alloc: Global,
    source: &mut S,
    limit: usize,
) -> Result<Bytes, TakeFault>
    ensures taken { IfOk result (TakesUpTo limit (S.left source.old) (S.left source.new)) }
    ensures limit { IfOk result (λ bytes. length bytes ≤ limit) }
    ensures end { IfOk result (λ bytes. length bytes < limit → IsAtEnd (S.left source.new)) }
    ensures lost { OnErr result (LosesUpTo limit (S.left source.old) (S.left source.new)) }
    ensures rose { result ≡ Err TakeFault.Failed →
        Rose (S.faults source.old) (S.faults source.new) }
    ensures never_falls { S.faults source.old ≤ S.faults source.new }
{
    let mut buffer = vec![in alloc; 0; BLOCK.min(limit)]?;
    let block = buffer.as_mut_slice();
    let mut bytes = Vec::new(alloc);
    while bytes.len() < limit {
        let room = block.len().min(limit - bytes.len());
        let n = source.take(&mut block[..room])?;
        if n == 0 {
            break;
        }
        bytes.extend_from_slice(&block[..n])?;
    }
    Ok(List::from_vec(bytes))
}
