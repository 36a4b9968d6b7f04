ghost use Rattle.std.specs.Prelude.{◌≡◌, ◌+◌, ◌-◌, ◌++◌, ◌∷◌, List, [], map, slice_index, slice_index_or, IfOk, OnOk};
ghost use Rattle.lrc_plan_meaning.specs.declared.Bound as sequence;
ghost use Rattle.lrc_functions.specs.Numbers.{binding_count, row_from, rows_from, end_from, number_in};

use lrc_base::{AllocError, List, Memory};
use lrc_plan::Bound;
use sqlite_items::at;
use std::alloc::Global;
use std::marker::Model;

/// The numbers of the items of a production: values by occurrence, then the bindings of each symbol, by
/// the earlier visit, then the later.
#[derive(Debug, Drop)]
pub(crate) struct Numbers {
    /// For each symbol the numbers of the first bindings from each of its visits.
    rows: List<List<u32>>,
}

impl Model for Numbers {
    ghost use Rattle.std.specs.Prelude.{ℕ, List};

    ghost Value = { List (List ℕ) };

    ghost view = { λ n. n.rows };
}

/// The sum; want of memory where no list is as long.
pub(crate) fn sum(left: u32, right: u32) -> Result<u32, Memory>
    ensures { IfOk result (λ n. n ≡ left + right) }
{
    left.checked_add(right).ok_or(AllocError)
}

/// The numbers of the first bindings from each visit of a symbol, where they start at this number, and
/// the number behind its last binding.
fn row_from(alloc: Global, start: u32, visits: u32) -> Result<(List<u32>, u32), Memory>
    ensures { IfOk result (λ found. (found.0 ≡ row_from start visits) × (found.1 ≡ start + binding_count visits)) }
{
    let mut row = List::new(alloc);
    let mut next = start;
    'visits: for later in (0..visits).rev() {
        row.push(next)?;
        next = sum(next, later)?;
    }
    Ok((row, next))
}

impl Numbers {
    /// The numbers of the items of a production with so many occurrences, whose symbols have so many
    /// visits, and how many items there are.
    pub(crate) fn new(
        alloc: Global,
        occurrences: u32,
        visits: &[u32],
    ) -> Result<(Numbers, u32), Memory>
        ensures numbers { IfOk result (λ found. found.0 ≡ rows_from occurrences visits.now) }
        ensures count { IfOk result (λ found. found.1 ≡ end_from occurrences visits.now) }
    {
        let mut rows = List::new(alloc);
        let mut next = occurrences;
        'symbols: for count in visits {
            let (row, end) = row_from(alloc, next, *count)?;
            rows.push(row)?;
            next = end;
        }
        Ok((Numbers { rows }, next))
    }

    /// The numbers of the first bindings of a symbol; none where there is no such symbol.
    #[tactic(auto, using(lrc_plan::proofs::AtLemmas::past_default))]
    fn row(&self, symbol: u32) -> &[u32]
        ensures { result.now ≡ slice_index_or self.now symbol [] }
    {
        match at(self.rows.as_slice(), symbol as usize) {
            Some(row) => row.as_slice(),
            None => &[],
        }
    }

    /// The number of the first binding of a symbol from one of its visits; 0 where there is none.
    #[tactic(auto, using(lrc_plan::proofs::AtLemmas::past_default))]
    fn first_of(&self, symbol: u32, from: u32) -> u32
        ensures { result ≡ slice_index (slice_index_or self.now symbol []) (from - 1) }
    {
        match at(self.row(symbol), from.saturating_sub(1) as usize) {
            Some(first) => *first,
            None => 0,
        }
    }

    /// The number of an item.
    pub(crate) fn of(&self, item: Bound) -> Result<u32, Memory>
        ensures { IfOk result (λ n. n ≡ number_in self.now item) }
    {
        match item {
            Bound::Value(occurrence) => Ok(occurrence),
            Bound::Kid(symbol, from, to) => {
                let behind = to.saturating_sub(from).saturating_sub(1);
                sum(self.first_of(symbol, from), behind)
            }
        }
    }

    /// The numbers of items.
    pub(crate) fn of_all(&self, alloc: Global, items: &[Bound]) -> Result<List<u32>, Memory>
        ensures { IfOk result (λ numbers. numbers ≡ map (number_in self.now) items.now) }
    {
        let mut numbers = List::new(alloc);
        'items: for item in items {
            numbers.push(self.of(*item)?)?;
        }
        Ok(numbers)
    }

    /// The numbers of the items of lists.
    pub(crate) fn of_each(
        &self,
        alloc: Global,
        lists: &[List<Bound>],
    ) -> Result<List<List<u32>>, Memory>
        ensures { IfOk result (λ numbers. numbers ≡ map (map (number_in self.now)) lists.now) }
    {
        let mut numbers = List::new(alloc);
        'lists: for items in lists {
            numbers.push(self.of_all(alloc, items.as_slice())?)?;
        }
        Ok(numbers)
    }
}
