ghost use Rattle.std.specs.Prelude.{◌≡◌, [], ◌++◌, ◌-◌, ◌≤◌, ◌⊎◌, ◌↔◌, Some, length, take, min, IsErr, IfOk, OnErr, Contains};
ghost use Rattle.lrc_outside.specs.Count.{next_count, capped, capped_at_most};

use crate::sink::Sink;
use crate::source::Failed;
use lrc_base::{List, Memory};
use std::alloc::Global;
use std::marker::Model;

/// A sink in memory with limited room, of which chosen calls fail.
///
/// Contracts see it as the bytes that it holds, how many it holds at most, how many a call takes at
/// most, the numbers of the calls that fail, and how many calls and faults there were.
#[derive(Debug, Drop)]
pub struct MemorySink {
    bytes: Vec<u8>,
    len: usize,
    step: usize,
    fails: List<u64>,
    calls: u64,
    faults: u64,
}

impl Model for MemorySink {
    ghost use Rattle.std.specs.Prelude.{◌≤◌, length, take};
    ghost use Rattle.lrc_outside.specs.Memory.{Output};

    ghost Value = { Output };

    ghost view = { λ s. record {
      held = take s.len s.bytes.items;
      room = length s.bytes.items;
      step = s.step;
      fails = s.fails;
      calls = s.calls;
      faults = s.faults;
    } };

    ghost invariant = { λ s. (s.len ≤ length s.bytes.items) × (1 ≤ s.step) };
}

impl MemorySink {
    /// An empty sink for `room` bytes, which takes at most `step` at a call. The calls are numbered
    /// from 0, and those whose numbers stand in `fails` fail.
    pub fn new(alloc: Global, room: usize, step: usize, fails: &[u64]) -> Result<Self, Memory>
        requires { 1 ≤ step }
        ensures { IfOk result (λ sink.
            sink ≡ record {
              held = [];
              room = room;
              step = step;
              fails = fails.now;
              calls = 0;
              faults = 0;
            }) }
    {
        Ok(MemorySink {
            bytes: vec![in alloc; 0; room]?,
            len: 0,
            step,
            fails: List::from_slice(alloc, fails)?,
            calls: 0,
            faults: 0,
        })
    }

    /// The bytes that it holds.
    pub fn held(&self) -> &[u8]
        ensures { result.now ≡ self.now.held }
    {
        &self.bytes[..self.len]
    }
}

impl Sink for MemorySink {
    ghost held = { λ sink. Some sink.held };

    ghost faults = { λ sink. capped sink.faults };

    ghost at_most = { λ sink. capped_at_most sink.faults };

    fn put(&mut self, piece: &[u8]) -> Result<usize, Failed>
        ensures step { 1 ≤ self.old.step }
        ensures room { length self.old.held ≤ self.old.room }

        // Which calls fail, and that such a call takes nothing.
        ensures fails { IsErr result ↔
            (Contains self.old.fails self.old.calls ⊎ (length self.old.held ≡ self.old.room)) }
        ensures counted { OnErr result (self.new ≡ record self.old {
          calls = next_count self.old.calls;
          faults = next_count self.old.faults;
        }) }

        // How many bytes another call takes.
        ensures count { IfOk result (λ n.
            n ≡ min (min self.old.step (length piece.now)) (self.old.room - length self.old.held)) }
        ensures taken { IfOk result (λ n. self.new ≡ record self.old {
          held = self.old.held ++ take n piece.now;
          calls = next_count self.old.calls;
        }) }
    {
        let call = self.calls;
        self.calls = call.saturating_add(1);
        let room = self.bytes.len() - self.len;
        if room == 0 || self.fails.as_slice().contains(&call) {
            self.faults = self.faults.saturating_add(1);
            return Err(Failed);
        }
        let n = self.step.min(piece.len()).min(room);
        self.bytes[self.len..self.len + n].copy_from_slice(&piece[..n]);
        self.len += n;
        Ok(n)
    }
}
