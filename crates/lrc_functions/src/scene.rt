ghost use Rattle.std.specs.Prelude.{◌≡◌, ◌+◌, ◌-◌, ◌<◌, ◌≤◌, ◌^◌, Some, None, length, map, slice_get, slice_index_or, IfOk};
ghost use Rattle.std.specs.List.{range_with_len};
ghost use Rattle.lrc_meaning.specs.Grammar.{occurrences_of};
ghost use Rattle.lrc_meaning.specs.Signature.{signature_of};
ghost use Rattle.lrc_plan_meaning.specs.declared.Bound.TheVariants as b;
ghost use Rattle.lrc_plan_meaning.specs.Items.{symbol_at, visits_of};
ghost use Rattle.lrc_plan_meaning.specs.Bindings.{binding};
ghost use Rattle.lrc_functions.specs.Numbers.{rows_from, symbol_visits, number};
ghost use Rattle.lrc_functions.specs.Functions.{values_from, numbers, origin_of, callee_of, operation_of};

use crate::function::{Callee, Operation};
use crate::numbers::{Numbers, sum};
use lrc_base::{List, Memory, Origin, Production, Sort};
use lrc_grammar::attrs_of_sort;
use lrc_order_meaning::{Partition, Place};
use lrc_plan::{Action, Block, Bound, Plan, visits_of};
use sqlite_items::at;
use std::alloc::Global;

/// A production of a plan, with the numbers of its items.
#[derive(Debug, Drop)]
pub(crate) struct Scene<'a> {
    pub plan: &'a Plan,
    pub sorts: &'a [Sort],
    pub parts: &'a [Partition],
    /// The production's number, and the production.
    pub number: u32,
    pub production: &'a Production,
    pub numbers: Numbers,
    pub ghost sorts_are: { sorts.now ≡ plan.now.grammar.sorts },
    pub ghost parts_are: { parts.now ≡ plan.now.parts.sorts },
    pub ghost there: { slice_get plan.now.grammar.prods number ≡ Some production.now },
    pub ghost numbered: { numbers ≡ rows_from (length (occurrences_of sorts.now production.now)) (symbol_visits sorts.now parts.now production.now) },
}

impl<'a> Scene<'a> {
    /// The occurrences of a block's attributes, where those of its sort start at this one.
    pub(crate) fn values(
        &self,
        alloc: Global,
        block: Block,
        start: u32,
    ) -> Result<List<u32>, Memory>
        ensures { IfOk result (λ values. values ≡ values_from self.now.sorts.now self.now.parts.now block.inherited block.sort start block.visit) }
    {
        let attrs = attrs_of_sort(self.sorts, block.sort);
        let mut values = List::new(alloc);
        'attributes: for attr in 0..attrs.len() as u32 {
            if block.has(self.parts, attrs, attr) {
                values.push(sum(start, attr)?)?;
            }
        }
        Ok(values)
    }

    /// The place of a symbol, or of the left side where there is no such symbol.
    #[tactic(auto, using(lrc_plan::proofs::AtLemmas::past_default))]
    fn symbol(&self, symbol: u32) -> Place
        ensures { result ≡ symbol_at self.now.sorts.now self.now.production.now symbol }
    {
        let symbols = self.plan.sequences(self.number).symbols.as_slice();
        match at(symbols, symbol as usize) {
            Some(place) => *place,
            None => Place {
                sort: self.production.left,
                start: 0,
                tree: None,
            },
        }
    }

    /// Where the tree of a symbol stands.
    fn origin(&self, symbol: u32) -> Origin
        ensures { result ≡ origin_of self.now.sorts.now self.now.parts.now self.now.production.now symbol }
    {
        let symbols = self.plan.grammar.signature(self.number).symbols.as_slice();
        match at(symbols, symbol as usize) {
            Some(found) => found.origin,
            None => Origin::Child(0),
        }
    }

    /// The number of the equation that defines an occurrence.
    #[tactic(auto, using(lrc_plan::proofs::AtLemmas::past_default))]
    fn equation(&self, occurrence: u32) -> Option<usize>
        ensures { result ≡ slice_index_or (signature_of self.now.sorts.now self.now.production.now).equations occurrence None }
    {
        let equations = self
            .plan
            .grammar
            .signature(self.number)
            .equations
            .as_slice();
        match at(equations, occurrence as usize) {
            Some(equation) => *equation,
            None => None,
        }
    }

    /// The numbers of a symbol's bindings from its visits before this one to it.
    fn earlier(&self, alloc: Global, symbol: u32, visit: u32) -> Result<List<u32>, Memory>
        ensures { IfOk result (λ numbers. numbers ≡ map (λ u. number self.now.sorts.now self.now.parts.now self.now.production.now (b.Kid symbol u visit)) (range_with_len 1 (visit - 1))) }
    {
        let mut numbers = List::new(alloc);
        'visits: for from in 1..visit {
            numbers.push(self.numbers.of(Bound::Kid(symbol, from, visit))?)?;
        }
        Ok(numbers)
    }

    /// The numbers of the bindings of a symbol that has so many visits from this one to those after it.
    fn later(
        &self,
        alloc: Global,
        symbol: u32,
        visit: u32,
        visits: u32,
    ) -> Result<List<u32>, Memory>
        ensures { IfOk result (λ numbers. numbers ≡ map (λ w. number self.now.sorts.now self.now.parts.now self.now.production.now (b.Kid symbol visit w)) (range_with_len (visit + 1) (visits - visit))) }
    {
        let mut numbers = List::new(alloc);
        'visits: for before in visit..visits {
            numbers.push(self.numbers.of(Bound::Kid(symbol, visit, before + 1))?)?;
        }
        Ok(numbers)
    }

    /// A visit of a symbol.
    fn callee(&self, alloc: Global, symbol: u32, visit: u32) -> Result<Callee, Memory>
        ensures { IfOk result (λ callee. callee ≡ callee_of self.now.sorts.now self.now.parts.now self.now.production.now symbol visit) }
    {
        let place = self.symbol(symbol);
        let takes = Block {
            sort: place.sort,
            visit,
            inherited: true,
        };
        let gives = Block {
            sort: place.sort,
            visit,
            inherited: false,
        };
        let visits = visits_of(self.parts, place.sort);
        Ok(Callee {
            visit,
            sort: place.sort,
            tree: self.origin(symbol),
            inherited: self.values(alloc, takes, place.start)?,
            earlier: self.earlier(alloc, symbol, visit)?,
            synthesised: self.values(alloc, gives, place.start)?,
            later: self.later(alloc, symbol, visit, visits)?,
        })
    }

    /// What an action of a plan does.
    fn operation(&self, alloc: Global, action: Action) -> Result<Operation, Memory>
        ensures { IfOk result (λ operation. operation ≡ operation_of self.now.sorts.now self.now.parts.now self.now.production.now action) }
    {
        match action {
            Action::Eval(occurrence) => {
                Ok(Operation::Eval(occurrence, self.equation(occurrence)))
            }
            Action::Visit(symbol, visit) => {
                Ok(Operation::Visit(self.callee(alloc, symbol, visit)?))
            }
        }
    }

    /// What the actions of a segment do.
    pub(crate) fn operations(
        &self,
        alloc: Global,
        actions: &[Action],
    ) -> Result<List<Operation>, Memory>
        ensures { IfOk result (λ operations. operations ≡ map (operation_of self.now.sorts.now self.now.parts.now self.now.production.now) actions.now) }
    {
        let mut operations = List::new(alloc);
        'actions: for action in actions {
            operations.push(self.operation(alloc, *action)?)?;
        }
        Ok(operations)
    }

    /// What is in the bindings to a visit of the left side from those before it.
    pub(crate) fn handed_in(&self, alloc: Global, visit: u32) -> Result<List<List<u32>>, Memory>
        requires { visit ≤ visits_of self.now.parts.now self.now.production.now.left }
        ensures { IfOk result (λ lists. lists ≡ map (λ u. numbers self.now.sorts.now self.now.parts.now self.now.production.now (binding self.now.sorts.now self.now.parts.now self.now.production.now u visit)) (range_with_len 1 (visit - 1))) }
    {
        let mut lists = List::new(alloc);
        'visits: for from in 1..visit {
            let items = self.plan.binding(self.number, from, visit);
            lists.push(self.numbers.of_all(alloc, items.as_slice())?)?;
        }
        Ok(lists)
    }

    /// What is in the bindings from a visit of the left side, which has so many, to those after it.
    pub(crate) fn handed_on(
        &self,
        alloc: Global,
        visit: u32,
        visits: u32,
    ) -> Result<List<List<u32>>, Memory>
        requires first { 1 ≤ visit }
        requires visits { visits ≡ visits_of self.now.parts.now self.now.production.now.left }
        ensures { IfOk result (λ lists. lists ≡ map (λ w. numbers self.now.sorts.now self.now.parts.now self.now.production.now (binding self.now.sorts.now self.now.parts.now self.now.production.now visit w)) (range_with_len (visit + 1) (visits - visit))) }
    {
        let mut lists = List::new(alloc);
        'visits: for before in visit..visits {
            let items = self.plan.binding(self.number, visit, before + 1);
            lists.push(self.numbers.of_all(alloc, items.as_slice())?)?;
        }
        Ok(lists)
    }
}
