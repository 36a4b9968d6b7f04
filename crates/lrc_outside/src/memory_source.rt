ghost use Rattle.std.specs.Prelude.{◌≡◌, ◌++◌, ◌≤◌, ◌↔◌, Some, length, take, drop, min, IsErr, IfOk, OnErr, Contains};
ghost use Rattle.lrc_outside.specs.Count.{next_count, capped, capped_at_most};

use crate::source::{Failed, Source};
use lrc_base::{Bytes, List, Memory};
use std::alloc::Global;
use std::marker::Model;

/// A source of bytes in memory, of which chosen calls fail.
///
/// Contracts see it as what is left, how many bytes a call gives at most, the numbers of the calls
/// that fail, and how many calls and faults there were.
#[derive(Debug, Drop)]
pub struct MemorySource {
    bytes: Bytes,
    at: usize,
    step: usize,
    fails: List<u64>,
    calls: u64,
    faults: u64,
}

impl Model for MemorySource {
    ghost use Rattle.std.specs.Prelude.{◌≤◌, length, drop};
    ghost use Rattle.lrc_outside.specs.Memory.{Input};

    ghost Value = { Input };

    ghost view = { λ s. record {
      left = drop s.at s.bytes;
      step = s.step;
      fails = s.fails;
      calls = s.calls;
      faults = s.faults;
    } };

    ghost invariant = { λ s. (s.at ≤ length s.bytes) × (1 ≤ s.step) };
}

impl MemorySource {
    /// A source of these bytes, which gives at most `step` at a call. The calls are numbered from
    /// 0, and those whose numbers stand in `fails` fail.
    pub fn new(alloc: Global, bytes: &[u8], step: usize, fails: &[u64]) -> Result<Self, Memory>
        requires { 1 ≤ step }
        ensures { IfOk result (λ source.
            source ≡ record {
              left = bytes.now;
              step = step;
              fails = fails.now;
              calls = 0;
              faults = 0;
            }) }
    {
        Ok(MemorySource {
            bytes: List::from_slice(alloc, bytes)?,
            at: 0,
            step,
            fails: List::from_slice(alloc, fails)?,
            calls: 0,
            faults: 0,
        })
    }
}

impl Source for MemorySource {
    ghost left = { λ source. Some source.left };

    ghost faults = { λ source. capped source.faults };

    ghost at_most = { λ source. capped_at_most source.faults };

    fn take(&mut self, buf: &mut [u8]) -> Result<usize, Failed>
        ensures step { 1 ≤ self.old.step }

        // Which calls fail, and that such a call moves nothing.
        ensures fails { IsErr result ↔ Contains self.old.fails self.old.calls }
        ensures counted { OnErr result (self.new ≡ record self.old {
          calls = next_count self.old.calls;
          faults = next_count self.old.faults;
        }) }
        ensures untouched { OnErr result (buf.new ≡ buf.old) }

        // How many bytes another call moves, and which.
        ensures count { IfOk result (λ n.
            n ≡ min (min self.old.step (length buf.old)) (length self.old.left)) }
        ensures copied { IfOk result (λ n. buf.new ≡ take n self.old.left ++ drop n buf.old) }
        ensures moved { IfOk result (λ n. self.new ≡ record self.old {
          left = drop n self.old.left;
          calls = next_count self.old.calls;
        }) }
    {
        let call = self.calls;
        self.calls = call.saturating_add(1);
        if self.fails.as_slice().contains(&call) {
            self.faults = self.faults.saturating_add(1);
            return Err(Failed);
        }
        let left = &self.bytes.as_slice()[self.at..];
        let n = self.step.min(buf.len()).min(left.len());
        buf[..n].copy_from_slice(&left[..n]);
        self.at += n;
        Ok(n)
    }
}
