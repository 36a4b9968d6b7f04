//! A grammar: its sorts, its productions and its start.

ghost use Rattle.std.specs.Prelude.{[]};
ghost use Rattle.lrc_reader.specs.Gives.{Gives, GivesAs};
ghost use Rattle.lrc_reader.specs.Reading as reading;

use crate::cursor::Cursor;
use crate::fault::{Limit, Stop};
use crate::first::{PRODUCTIONS, SORTS};
use crate::lexeme::Mark;
use crate::production::production;
use crate::sort::sort;
use lrc_base::limits::{PRODUCTION_LIMIT, SORT_LIMIT};
use lrc_base::{List, NameText, RawGrammar, RawProd, RawSort};
use std::alloc::Global;

/// One sort more, if there may be one more.
#[tactic(auto, unfolding(crate::specs::Reading::read_another_sort))]
fn another_sort(
    alloc: Global,
    cursor: &mut Cursor<'_>,
    sorts: &mut List<RawSort>,
) -> Result<(), Stop>
    ensures { GivesAs (λ _. sorts.new) result cursor.new (reading.read_another_sort 0 sorts.old cursor.old) }
{
    cursor.room(sorts.len(), SORT_LIMIT, &SORTS, Limit::Sorts)?;
    sorts.push(sort(alloc, cursor)?)?;
    Ok(())
}

/// The sorts of a grammar.
#[tactic(auto, using(crate::proofs::Shorter::sort_turn, crate::proofs::Shorter::sort_stops, crate::proofs::Shorter::sort_end, crate::proofs::Shorter::sort_shorter))]
fn sorts(alloc: Global, cursor: &mut Cursor<'_>) -> Result<List<RawSort>, Stop>
    ensures { Gives result cursor.new (reading.read_sorts 0 [] cursor.old) }
{
    let mut sorts = List::new(alloc);
    'more: while cursor.sees(Mark::Sort) {
        another_sort(alloc, cursor, &mut sorts)?;
    }
    Ok(sorts)
}

/// One production more, if there may be one more.
#[tactic(auto, unfolding(crate::specs::Reading::read_another_prod))]
fn another_production(
    alloc: Global,
    cursor: &mut Cursor<'_>,
    productions: &mut List<RawProd>,
) -> Result<(), Stop>
    ensures { GivesAs (λ _. productions.new) result cursor.new (reading.read_another_prod 0 productions.old cursor.old) }
{
    cursor.room(
        productions.len(),
        PRODUCTION_LIMIT,
        &PRODUCTIONS,
        Limit::Productions,
    )?;
    productions.push(production(alloc, cursor)?)?;
    Ok(())
}

/// The productions of a grammar.
#[tactic(auto, using(crate::proofs::Shorter::prod_turn, crate::proofs::Shorter::prod_stops, crate::proofs::Shorter::prod_end, crate::proofs::Shorter::prod_shorter))]
fn productions(alloc: Global, cursor: &mut Cursor<'_>) -> Result<List<RawProd>, Stop>
    ensures { Gives result cursor.new (reading.read_prods 0 [] cursor.old) }
{
    let mut productions = List::new(alloc);
    'more: while cursor.sees(Mark::Prod) {
        another_production(alloc, cursor, &mut productions)?;
    }
    Ok(productions)
}

/// The start sort of a grammar.
#[tactic(auto, unfolding(crate::specs::Reading::read_start))]
fn start(cursor: &mut Cursor<'_>) -> Result<NameText, Stop>
    ensures { Gives result cursor.new (reading.read_start cursor.old) }
{
    cursor.expect(Mark::Start)?;
    let name = cursor.word()?;
    cursor.expect(Mark::Semicolon)?;
    Ok(name)
}

/// A grammar.
#[tactic(auto, unfolding(crate::specs::Reading::read_grammar))]
pub fn grammar(alloc: Global, cursor: &mut Cursor<'_>) -> Result<RawGrammar, Stop>
    ensures { Gives result cursor.new (reading.read_grammar 0 cursor.old) }
{
    let sorts = sorts(alloc, cursor)?;
    let prods = productions(alloc, cursor)?;
    let start = start(cursor)?;
    Ok(RawGrammar {
        sorts,
        prods,
        start,
    })
}
