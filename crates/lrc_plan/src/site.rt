ghost use Rattle.std.specs.Prelude.{◌≡◌, ◌+◌, ◌<◌, ◌^◌, All, length};
ghost use Rattle.lrc_meaning.specs.Grammar.{attrs_of_sort, occurrences_of};
ghost use Rattle.lrc_meaning.specs.Signature.{signature_of};
ghost use Rattle.lrc_order_meaning.specs.Needs.{needs_of, places_of, symbols_of};
ghost use Rattle.lrc_ordered.specs.Setup.{IsNeedBelow};
ghost use Rattle.lrc_plan_meaning.specs.Items.{symbol_at};
ghost use Rattle.lrc_plan.specs.Sites.{IsBehindTree};

use lrc_base::{Production, Signature, Sort};
use lrc_order_meaning::{Partition, Place};

/// A production of a grammar, with the grammar's sorts and their partitions, its signature, and the places
/// of its left side and of each symbol.
#[derive(Debug, Drop)]
pub struct Site<'a> {
    pub sorts: &'a [Sort],
    pub parts: &'a [Partition],
    pub production: &'a Production,
    pub signature: &'a Signature,
    /// The left side's, then the symbols' by number.
    pub places: &'a [Place],
    ghost signed: { signature.now ≡ signature_of sorts.now production.now },
    ghost placed: { places.now ≡ places_of sorts.now production.now },
    ghost few: { length (occurrences_of sorts.now production.now) < 2 ^ 32 },
    ghost few_symbols: { length (symbols_of sorts.now production.now) < 2 ^ 32 },
    ghost behind: { All IsBehindTree (places_of sorts.now production.now) },
    ghost below: { All (IsNeedBelow (length (occurrences_of sorts.now production.now))) (needs_of sorts.now production.now) },
}

impl<'a> Site<'a> {
    /// The places of the symbols, by number.
    pub fn symbols(&self) -> &'a [Place]
        ensures { result.now ≡ symbols_of self.now.sorts.now self.now.production.now }
    {
        &self.places[1..]
    }

    /// The place of the symbol of this number.
    pub fn symbol(&self, number: u32) -> Place
        requires { number < length (symbols_of self.now.sorts.now self.now.production.now) }
        ensures place { result ≡ symbol_at self.now.sorts.now self.now.production.now number }
        ensures within { result.start + length (attrs_of_sort self.now.sorts.now result.sort) < 2 ^ 32 }
    {
        self.symbols()[number as usize]
    }
}
