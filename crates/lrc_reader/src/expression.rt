//! The expressions that equations compute. Each function counts the nodes of the equation so far, and
//! answers its expression in a box, so that the functions take little of the stack.

ghost use Rattle.std.specs.Prelude.{◌≡◌, ◌<◌, IfOk, OnOk};
ghost use Rattle.lrc_reader.specs.Gives.{Gives, GivesAs};
ghost use Rattle.lrc_reader.specs.Grammar as grammar;
ghost use Rattle.lrc_reader.specs.Reading as reading;

use crate::cursor::Cursor;
use crate::fault::{Limit, Stop};
use crate::first::{COMPARISONS, CONDITIONALS, EXPRESSIONS, LITERALS, PLUS, TIMES, WORDS};
use crate::lexeme::{Lexeme, Mark};
use lrc_base::limits::{LEVEL_LIMIT, NODE_LIMIT};
use lrc_base::{Boxed, List, Memory, NameText, Op, RawExpr};
use std::alloc::Global;

/// What a literal is as an expression.
fn literal_value(lexeme: &Lexeme<'_>) -> Option<RawExpr>
    ensures { result ≡ grammar.literal_expr lexeme.now }
{
    match lexeme {
        Lexeme::Natural(value) | Lexeme::Negative(value) => Some(RawExpr::Int(*value)),
        Lexeme::Name(name) => Some(RawExpr::Name(*name)),
        Lexeme::Mark(Mark::True) => Some(RawExpr::Bool(true)),
        Lexeme::Mark(Mark::False) => Some(RawExpr::Bool(false)),
        _ => None,
    }
}

/// A literal.
#[tactic(auto, unfolding(crate::specs::Reading::read_literal), using(crate::proofs::Next::one_took, crate::proofs::Next::one_end, crate::proofs::Next::one_other))]
fn literal(
    alloc: Global,
    cursor: &mut Cursor<'_>,
    nodes: &mut usize,
) -> Result<Boxed<RawExpr>, Stop>
    ensures { GivesAs (λ x. (x, nodes.new)) result cursor.new (reading.read_literal 0 nodes.old cursor.old) }
{
    cursor.room(*nodes, NODE_LIMIT, &LITERALS, Limit::Nodes)?;
    let Some(lexeme) = cursor.peek() else {
        return Err(Stop::Expected);
    };
    let Some(value) = literal_value(&lexeme) else {
        return Err(Stop::Expected);
    };
    cursor.advance();
    *nodes += 1;
    Ok(Boxed::new(alloc, value)?)
}

/// The word with which a node begins.
#[tactic(auto, unfolding(crate::specs::Reading::read_name))]
fn name(cursor: &mut Cursor<'_>, nodes: usize) -> Result<NameText, Stop>
    ensures gives { Gives result cursor.new (reading.read_name 0 nodes cursor.old) }
    ensures within { OnOk result (nodes < NODE_LIMIT) }
{
    cursor.room(nodes, NODE_LIMIT, &WORDS, Limit::Nodes)?;
    cursor.word()
}

/// The `if` of a conditional.
#[tactic(auto, unfolding(crate::specs::Reading::read_if_mark))]
fn if_mark(cursor: &mut Cursor<'_>, nodes: usize) -> Result<(), Stop>
    ensures gives { Gives result cursor.new (reading.read_if_mark 0 nodes cursor.old) }
    ensures within { OnOk result (nodes < NODE_LIMIT) }
{
    cursor.room(nodes, NODE_LIMIT, &CONDITIONALS, Limit::Nodes)?;
    cursor.expect(Mark::If)
}

/// The operator of a product.
#[tactic(auto, unfolding(crate::specs::Reading::read_times), using(crate::proofs::Next::one_took, crate::proofs::Next::one_end, crate::proofs::Next::one_other))]
fn times(cursor: &mut Cursor<'_>, nodes: usize) -> Result<Op, Stop>
    ensures gives { Gives result cursor.new (reading.read_times 0 nodes cursor.old) }
    ensures within { OnOk result (nodes < NODE_LIMIT) }
{
    cursor.room(nodes, NODE_LIMIT, &TIMES, Limit::Nodes)?;
    let operator = match cursor.peek() {
        Some(Lexeme::Mark(Mark::Star)) => Op::Mul,
        _ => return Err(Stop::Expected),
    };
    cursor.advance();
    Ok(operator)
}

/// The operator of a sum.
#[tactic(auto, unfolding(crate::specs::Reading::read_plus), using(crate::proofs::Next::one_took, crate::proofs::Next::one_end, crate::proofs::Next::one_other))]
fn plus(cursor: &mut Cursor<'_>, nodes: usize) -> Result<Op, Stop>
    ensures gives { Gives result cursor.new (reading.read_plus 0 nodes cursor.old) }
    ensures within { OnOk result (nodes < NODE_LIMIT) }
{
    cursor.room(nodes, NODE_LIMIT, &PLUS, Limit::Nodes)?;
    let operator = match cursor.peek() {
        Some(Lexeme::Mark(Mark::Plus)) => Op::Add,
        Some(Lexeme::Mark(Mark::Minus)) => Op::Sub,
        _ => return Err(Stop::Expected),
    };
    cursor.advance();
    Ok(operator)
}

/// The operator of a comparison.
#[tactic(auto, unfolding(crate::specs::Reading::read_comparison), using(crate::proofs::Next::one_took, crate::proofs::Next::one_end, crate::proofs::Next::one_other))]
fn comparison_mark(cursor: &mut Cursor<'_>, nodes: usize) -> Result<Op, Stop>
    ensures gives { Gives result cursor.new (reading.read_comparison 0 nodes cursor.old) }
    ensures within { OnOk result (nodes < NODE_LIMIT) }
{
    cursor.room(nodes, NODE_LIMIT, &COMPARISONS, Limit::Nodes)?;
    let operator = match cursor.peek() {
        Some(Lexeme::Mark(Mark::SameAs)) => Op::Equal,
        Some(Lexeme::Mark(Mark::Less)) => Op::Less,
        _ => return Err(Stop::Expected),
    };
    cursor.advance();
    Ok(operator)
}

/// An attribute of a symbol.
#[tactic(auto, unfolding(crate::specs::Reading::read_two))]
fn attribute(
    alloc: Global,
    cursor: &mut Cursor<'_>,
    symbol: NameText,
    nodes: usize,
) -> Result<Boxed<RawExpr>, Stop>
    ensures { GivesAs (λ x. (x, nodes)) result cursor.new (reading.read_two symbol nodes cursor.old) }
{
    cursor.expect(Mark::Dot)?;
    let attribute = cursor.word()?;
    Ok(Boxed::new(alloc, RawExpr::Two(symbol, attribute))?)
}

/// An operation.
fn operation(
    alloc: Global,
    operator: Op,
    left: Boxed<RawExpr>,
    right: Boxed<RawExpr>,
) -> Result<Boxed<RawExpr>, Memory>
    ensures { IfOk result (λ x. x ≡ RawExpr.Op operator left right) }
{
    Boxed::new(alloc, RawExpr::Op(operator, left, right))
}

/// A choice by a condition.
fn choice(
    alloc: Global,
    condition: Boxed<RawExpr>,
    then_part: Boxed<RawExpr>,
    else_part: Boxed<RawExpr>,
) -> Result<Boxed<RawExpr>, Memory>
    ensures { IfOk result (λ x. x ≡ RawExpr.If condition then_part else_part) }
{
    Boxed::new(alloc, RawExpr::If(condition, then_part, else_part))
}

/// An expression in brackets.
#[cycle(expression)]
#[tactic(auto, unfolding(crate::specs::Reading::read_brackets))]
fn brackets(
    alloc: Global,
    cursor: &mut Cursor<'_>,
    levels: usize,
    nodes: &mut usize,
) -> Result<Boxed<RawExpr>, Stop>
    ensures { GivesAs (λ x. (x, nodes.new)) result cursor.new (reading.read_brackets 0 (reading.read_expr_at 0 levels) nodes.old cursor.old) }
{
    cursor.expect(Mark::LeftParen)?;
    let inner = expression_at(alloc, cursor, levels, nodes)?;
    cursor.expect(Mark::RightParen)?;
    Ok(inner)
}

/// One argument more.
#[cycle(expression)]
#[tactic(auto, unfolding(crate::specs::Reading::read_push_argument))]
fn push_argument(
    alloc: Global,
    cursor: &mut Cursor<'_>,
    levels: usize,
    arguments: &mut List<RawExpr>,
    nodes: &mut usize,
) -> Result<(), Stop>
    ensures { GivesAs (λ _. (arguments.new, nodes.new)) result cursor.new (reading.read_push_argument 0 (reading.read_expr_at 0 levels) (arguments.old, nodes.old) cursor.old) }
{
    let argument = expression_at(alloc, cursor, levels, nodes)?;
    arguments.push(argument.into_inner())?;
    Ok(())
}

/// One argument more behind a comma.
#[cycle(expression)]
#[tactic(auto, unfolding(crate::specs::Reading::read_argument))]
fn another_argument(
    alloc: Global,
    cursor: &mut Cursor<'_>,
    levels: usize,
    arguments: &mut List<RawExpr>,
    nodes: &mut usize,
) -> Result<(), Stop>
    ensures { GivesAs (λ _. (arguments.new, nodes.new)) result cursor.new (reading.read_argument 0 (reading.read_expr_at 0 levels) (arguments.old, nodes.old) cursor.old) }
{
    cursor.expect(Mark::Comma)?;
    push_argument(alloc, cursor, levels, arguments, nodes)
}

/// One argument or more, with commas between.
#[cycle(expression)]
#[tactic(auto, unfolding(crate::specs::Reading::read_arguments), using(crate::proofs::Shorter::argument_turn, crate::proofs::Shorter::argument_stops, crate::proofs::Shorter::argument_end, crate::proofs::Shorter::argument_shorter))]
fn some_arguments(
    alloc: Global,
    cursor: &mut Cursor<'_>,
    levels: usize,
    nodes: &mut usize,
) -> Result<List<RawExpr>, Stop>
    ensures { GivesAs (λ xs. (xs, nodes.new)) result cursor.new (reading.read_arguments 0 (reading.read_expr_at 0 levels) nodes.old cursor.old) }
{
    let mut arguments = List::new(alloc);
    push_argument(alloc, cursor, levels, &mut arguments, nodes)?;
    'more: while cursor.sees(Mark::Comma) {
        another_argument(alloc, cursor, levels, &mut arguments, nodes)?;
    }
    Ok(arguments)
}

/// Any number of arguments.
#[cycle(expression)]
#[tactic(auto, unfolding(crate::specs::Reading::read_any_arguments, lrc_parse::specs::Reading::read_either))]
fn any_arguments(
    alloc: Global,
    cursor: &mut Cursor<'_>,
    levels: usize,
    nodes: &mut usize,
) -> Result<List<RawExpr>, Stop>
    ensures { GivesAs (λ xs. (xs, nodes.new)) result cursor.new (reading.read_any_arguments 0 (reading.read_expr_at 0 levels) nodes.old cursor.old) }
{
    if cursor.sees_one_of(&EXPRESSIONS) {
        return some_arguments(alloc, cursor, levels, nodes);
    }
    Ok(List::new(alloc))
}

/// The arguments of a production, in parentheses.
#[cycle(expression)]
#[tactic(auto, unfolding(crate::specs::Reading::read_make))]
fn tree(
    alloc: Global,
    cursor: &mut Cursor<'_>,
    levels: usize,
    production: NameText,
    nodes: &mut usize,
) -> Result<Boxed<RawExpr>, Stop>
    ensures { GivesAs (λ x. (x, nodes.new)) result cursor.new (reading.read_make 0 (reading.read_expr_at 0 levels) production nodes.old cursor.old) }
{
    cursor.expect(Mark::LeftParen)?;
    let arguments = any_arguments(alloc, cursor, levels, nodes)?;
    cursor.expect(Mark::RightParen)?;
    Ok(Boxed::new(alloc, RawExpr::Make(production, arguments))?)
}

/// A name, an attribute of what it names, or a tree of a production.
#[cycle(expression)]
#[tactic(auto, unfolding(crate::specs::Reading::read_named, lrc_parse::specs::Reading::read_either))]
fn named(
    alloc: Global,
    cursor: &mut Cursor<'_>,
    levels: usize,
    nodes: &mut usize,
) -> Result<Boxed<RawExpr>, Stop>
    ensures { GivesAs (λ x. (x, nodes.new)) result cursor.new (reading.read_named 0 (reading.read_expr_at 0 levels) nodes.old cursor.old) }
{
    let name = name(cursor, *nodes)?;
    *nodes += 1;
    if cursor.sees(Mark::LeftParen) {
        return tree(alloc, cursor, levels, name, nodes);
    }
    if cursor.sees(Mark::Dot) {
        return attribute(alloc, cursor, name, *nodes);
    }
    Ok(Boxed::new(alloc, RawExpr::One(name))?)
}

/// A literal, an expression in brackets or what a name begins.
#[cycle(expression)]
#[tactic(auto, unfolding(crate::specs::Reading::read_atom, lrc_parse::specs::Reading::read_either))]
fn atom(
    alloc: Global,
    cursor: &mut Cursor<'_>,
    levels: usize,
    nodes: &mut usize,
) -> Result<Boxed<RawExpr>, Stop>
    ensures { GivesAs (λ x. (x, nodes.new)) result cursor.new (reading.read_atom 0 (reading.read_expr_at 0 levels) nodes.old cursor.old) }
{
    if cursor.sees_one_of(&LITERALS) {
        return literal(alloc, cursor, nodes);
    }
    if cursor.sees(Mark::LeftParen) {
        return brackets(alloc, cursor, levels, nodes);
    }
    named(alloc, cursor, levels, nodes)
}

/// One factor more of a product.
#[cycle(expression)]
#[tactic(auto, unfolding(crate::specs::Reading::read_factor))]
fn factor(
    alloc: Global,
    cursor: &mut Cursor<'_>,
    levels: usize,
    left: Boxed<RawExpr>,
    nodes: &mut usize,
) -> Result<Boxed<RawExpr>, Stop>
    ensures { GivesAs (λ x. (x, nodes.new)) result cursor.new (reading.read_factor 0 (reading.read_expr_at 0 levels) (left, nodes.old) cursor.old) }
{
    let operator = times(cursor, *nodes)?;
    *nodes += 1;
    let right = atom(alloc, cursor, levels, nodes)?;
    Ok(operation(alloc, operator, left, right)?)
}

/// Atoms with `*` between, which join from the left.
#[cycle(expression)]
#[tactic(auto, unfolding(crate::specs::Reading::read_product), using(crate::proofs::Shorter::factor_turn, crate::proofs::Shorter::factor_stops, crate::proofs::Shorter::factor_end, crate::proofs::Shorter::factor_shorter))]
fn product(
    alloc: Global,
    cursor: &mut Cursor<'_>,
    levels: usize,
    nodes: &mut usize,
) -> Result<Boxed<RawExpr>, Stop>
    ensures { GivesAs (λ x. (x, nodes.new)) result cursor.new (reading.read_product 0 (reading.read_expr_at 0 levels) nodes.old cursor.old) }
{
    let mut product = atom(alloc, cursor, levels, nodes)?;
    'more: while cursor.sees_one_of(&TIMES) {
        product = factor(alloc, cursor, levels, product, nodes)?;
    }
    Ok(product)
}

/// One addend more of a sum.
#[cycle(expression)]
#[tactic(auto, unfolding(crate::specs::Reading::read_addend))]
fn addend(
    alloc: Global,
    cursor: &mut Cursor<'_>,
    levels: usize,
    left: Boxed<RawExpr>,
    nodes: &mut usize,
) -> Result<Boxed<RawExpr>, Stop>
    ensures { GivesAs (λ x. (x, nodes.new)) result cursor.new (reading.read_addend 0 (reading.read_expr_at 0 levels) (left, nodes.old) cursor.old) }
{
    let operator = plus(cursor, *nodes)?;
    *nodes += 1;
    let right = product(alloc, cursor, levels, nodes)?;
    Ok(operation(alloc, operator, left, right)?)
}

/// Products with `+` or `-` between, which join from the left.
#[cycle(expression)]
#[tactic(auto, unfolding(crate::specs::Reading::read_sum), using(crate::proofs::Shorter::addend_turn, crate::proofs::Shorter::addend_stops, crate::proofs::Shorter::addend_end, crate::proofs::Shorter::addend_shorter))]
fn sum(
    alloc: Global,
    cursor: &mut Cursor<'_>,
    levels: usize,
    nodes: &mut usize,
) -> Result<Boxed<RawExpr>, Stop>
    ensures { GivesAs (λ x. (x, nodes.new)) result cursor.new (reading.read_sum 0 (reading.read_expr_at 0 levels) nodes.old cursor.old) }
{
    let mut sum = product(alloc, cursor, levels, nodes)?;
    'more: while cursor.sees_one_of(&PLUS) {
        sum = addend(alloc, cursor, levels, sum, nodes)?;
    }
    Ok(sum)
}

/// A comparison with a sum, whose left operand was read.
#[cycle(expression)]
#[tactic(auto, unfolding(crate::specs::Reading::read_compared))]
fn compared(
    alloc: Global,
    cursor: &mut Cursor<'_>,
    levels: usize,
    left: Boxed<RawExpr>,
    nodes: &mut usize,
) -> Result<Boxed<RawExpr>, Stop>
    ensures { GivesAs (λ x. (x, nodes.new)) result cursor.new (reading.read_compared 0 (reading.read_expr_at 0 levels) (left, nodes.old) cursor.old) }
{
    let operator = comparison_mark(cursor, *nodes)?;
    *nodes += 1;
    let right = sum(alloc, cursor, levels, nodes)?;
    Ok(operation(alloc, operator, left, right)?)
}

/// A sum, or a comparison of two.
#[cycle(expression)]
#[tactic(auto, unfolding(crate::specs::Reading::read_compare, lrc_parse::specs::Reading::read_either))]
fn comparison(
    alloc: Global,
    cursor: &mut Cursor<'_>,
    levels: usize,
    nodes: &mut usize,
) -> Result<Boxed<RawExpr>, Stop>
    ensures { GivesAs (λ x. (x, nodes.new)) result cursor.new (reading.read_compare 0 (reading.read_expr_at 0 levels) nodes.old cursor.old) }
{
    let left = sum(alloc, cursor, levels, nodes)?;
    if cursor.sees_one_of(&COMPARISONS) {
        return compared(alloc, cursor, levels, left, nodes);
    }
    Ok(left)
}

/// A conditional.
#[cycle(expression)]
#[tactic(auto, unfolding(crate::specs::Reading::read_if))]
fn conditional(
    alloc: Global,
    cursor: &mut Cursor<'_>,
    levels: usize,
    nodes: &mut usize,
) -> Result<Boxed<RawExpr>, Stop>
    ensures { GivesAs (λ x. (x, nodes.new)) result cursor.new (reading.read_if 0 (reading.read_expr_at 0 levels) nodes.old cursor.old) }
{
    if_mark(cursor, *nodes)?;
    *nodes += 1;
    let condition = expression_at(alloc, cursor, levels, nodes)?;
    cursor.expect(Mark::Then)?;
    let then_part = expression_at(alloc, cursor, levels, nodes)?;
    cursor.expect(Mark::Else)?;
    let else_part = expression_at(alloc, cursor, levels, nodes)?;
    Ok(choice(alloc, condition, then_part, else_part)?)
}

/// An expression with at most `levels` within one another, itself included.
#[cycle(expression)]
#[tactic(auto, unfolding(crate::specs::Reading::read_expr_at, crate::specs::Reading::read_expr_over, lrc_parse::specs::Reading::read_levels, lrc_parse::specs::Reading::read_either, lrc_parse::specs::Reading::read_nothing))]
fn expression_at(
    alloc: Global,
    cursor: &mut Cursor<'_>,
    levels: usize,
    nodes: &mut usize,
) -> Result<Boxed<RawExpr>, Stop>
    ensures { GivesAs (λ x. (x, nodes.new)) result cursor.new (reading.read_expr_at 0 levels nodes.old cursor.old) }
{
    if levels == 0 {
        return Err(cursor.too_deep(&EXPRESSIONS));
    }
    if cursor.sees(Mark::If) {
        return conditional(alloc, cursor, levels - 1, nodes);
    }
    comparison(alloc, cursor, levels - 1, nodes)
}

/// The expression of an equation.
#[tactic(auto, unfolding(crate::specs::Reading::read_expr))]
pub fn expression(alloc: Global, cursor: &mut Cursor<'_>) -> Result<RawExpr, Stop>
    ensures { Gives result cursor.new (reading.read_expr 0 cursor.old) }
{
    let mut nodes = 0;
    let value = expression_at(alloc, cursor, LEVEL_LIMIT, &mut nodes)?;
    Ok(value.into_inner())
}
