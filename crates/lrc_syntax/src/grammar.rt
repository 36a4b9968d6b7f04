ghost use Rattle.std.specs.Prelude.{◌≡◌, ◌≤◌, ◌<◌, length, All, IfOk, IfErr};
ghost use Rattle.lrc_base.specs.declared.grammar.Production.{Production};
ghost use Rattle.lrc_grammar.specs.Grammar.{grammar_of};
ghost use Rattle.lrc_syntax.specs.Spelling.{AreSpelled};
ghost use Rattle.lrc_syntax.specs.Faults.{IsReady, IsRight, AreTerminals, IsLegible};
ghost use Rattle.lrc_syntax.specs.Syntax.{numbered, IsFirstAmong, IsFirst, IsSyntaxOf};

use crate::fault::{ProductionFault, SyntaxFault};
use crate::part::{Part, Syntax};
use crate::production::production_parts;
use crate::trees::first_without_tree;
use lrc_base::limits::PRODUCTION_LIMIT;
use lrc_base::{List, Production};
use lrc_grammar::Grammar;
use std::alloc::Global;

/// The fault of the production of this number.
fn numbered(fault: ProductionFault, number: u32) -> SyntaxFault
    ensures { result ≡ numbered fault number }
{
    match fault {
        ProductionFault::BadPattern => SyntaxFault::BadPattern(number),
        ProductionFault::Kids => SyntaxFault::Kids(number),
        ProductionFault::Bare => SyntaxFault::Bare(number),
        ProductionFault::Memory => SyntaxFault::Memory,
    }
}

/// The parts of each production.
fn all_parts(alloc: Global, prods: &[Production]) -> Result<List<List<Part>>, SyntaxFault>
    requires ready { All IsReady prods.now }
    requires few { length prods.now ≤ PRODUCTION_LIMIT }
    ensures parts { IfOk result (λ parts. AreSpelled prods.now parts) }
    ensures terminals { IfOk result (λ parts. All AreTerminals parts) }
    ensures right { IfOk result (λ _. All IsRight prods.now) }
    ensures fault { IfErr result (IsFirstAmong prods.now) }
{
    let mut all = List::new(alloc);
    for number in 0..prods.len() {
        match production_parts(alloc, &prods[number]) {
            Ok(parts) => all.push(parts)?,
            Err(fault) => return Err(numbered(fault, number as u32)),
        }
    }
    Ok(all)
}

/// The concrete syntax of a grammar.
///
/// # Errors
///
/// The first fault: of the productions in order, in each its pattern, its children, and that it is
/// bare; and else the first sort of which there is no tree. Want of memory.
pub fn syntax(alloc: Global, grammar: &Grammar) -> Result<Syntax, SyntaxFault>
    requires { All IsLegible grammar.now.prods }
    ensures ok { IfOk result (IsSyntaxOf (grammar_of grammar.now)) }
    ensures fault { IfErr result (IsFirst (grammar_of grammar.now)) }
{
    let prods = grammar.prods.as_slice();
    let productions = all_parts(alloc, prods)?;
    match first_without_tree(alloc, prods, grammar.sorts.len())? {
        Some(sort) => Err(SyntaxFault::NoTree(sort)),
        None => Ok(Syntax { productions }),
    }
}
