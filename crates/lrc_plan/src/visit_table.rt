ghost use Rattle.std.specs.Prelude.{◌≡◌, ℕ, ◌+◌, ◌<◌, ◌≤◌, IfOk, [], length, replicate, slice_index_or, slice_set, false, true};

use lrc_base::{List, Memory};
use sqlite_items::at;
use std::alloc::Global;
use std::marker::Model;

/// A flag for each two visits of a symbol, by the earlier and then the later; visit 0 has flags too.
#[derive(Debug, Drop)]
pub struct VisitTable {
    rows: Vec<List<bool>>,
}

impl Model for VisitTable {
    ghost use Rattle.std.specs.Prelude.{List, Bool};

    ghost Value = { List (List Bool) };

    ghost view = { λ t. t.rows.items };
}

impl VisitTable {
    /// The table of so many visits, with no flag set. The error is want of memory.
    pub fn new(alloc: Global, visits: u32) -> Result<VisitTable, Memory>
        ensures { IfOk result (λ t. t ≡ replicate (visits + 1) (replicate (visits + 1) false)) }
    {
        let count = visits as usize + 1;
        let mut rows = Vec::new(alloc);
        'visits: for _row in 0..count {
            rows.push(List::from_vec(vec![in alloc; false; count]?))?;
        }
        Ok(VisitTable { rows })
    }

    /// Whether the flag of two visits is set. Of visits that are not there none is.
    #[tactic(auto, using(crate::proofs::AtLemmas::past_default))]
    pub fn has(&self, from: u32, to: u32) -> bool
        ensures { result ≡ slice_index_or (slice_index_or self.now from []) to false }
    {
        match at(&self.rows, from as usize) {
            Some(row) => match at(row.as_slice(), to as usize) {
                Some(flag) => *flag,
                None => false,
            },
            None => false,
        }
    }

    /// Sets the flag of two visits.
    pub fn set(&mut self, from: u32, to: u32)
        requires { to < length (slice_index_or self.old from []) }
        ensures { self.new ≡ slice_set self.old from (slice_set (slice_index_or self.old from []) to true) }
    {
        self.rows[from as usize].set(to as usize, true);
    }
}
