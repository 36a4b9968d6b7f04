ghost use Rattle.std.specs.Prelude.{◌≡◌, IfOk};

use lrc_base::{
    Attr, Boxed, Equation, Expr, Extra, Kid, List, Memory, Piece, Production, Signature, Sort,
};
use std::alloc::Global;

fn copied_attrs(alloc: Global, attrs: &[Attr]) -> Result<List<Attr>, Memory>
    ensures { IfOk result (λ copy. copy ≡ attrs.now) }
{
    let mut copies = Vec::with_capacity(alloc, attrs.len())?;
    for attr in attrs {
        copies.push(Attr {
            name: attr.name,
            inherited: attr.inherited,
            kind: attr.kind,
        })?;
    }
    Ok(List::from_vec(copies))
}

/// Equal sorts, with memory of their own.
pub fn copied_sorts(alloc: Global, sorts: &[Sort]) -> Result<List<Sort>, Memory>
    ensures { IfOk result (λ copy. copy ≡ sorts.now) }
{
    let mut copies = Vec::with_capacity(alloc, sorts.len())?;
    for sort in sorts {
        let attrs = copied_attrs(alloc, sort.attrs.as_slice())?;
        copies.push(Sort {
            name: sort.name,
            attrs,
        })?;
    }
    Ok(List::from_vec(copies))
}

fn copied_kids(alloc: Global, kids: &[Kid]) -> Result<List<Kid>, Memory>
    ensures { IfOk result (λ copy. copy ≡ kids.now) }
{
    let mut copies = Vec::with_capacity(alloc, kids.len())?;
    for kid in kids {
        copies.push(Kid {
            name: kid.name,
            kind: kid.kind,
        })?;
    }
    Ok(List::from_vec(copies))
}

fn copied_extras(alloc: Global, extras: &[Extra]) -> Result<List<Extra>, Memory>
    ensures { IfOk result (λ copy. copy ≡ extras.now) }
{
    let mut copies = Vec::with_capacity(alloc, extras.len())?;
    for extra in extras {
        copies.push(Extra {
            name: extra.name,
            attached: extra.attached,
            kind: extra.kind,
        })?;
    }
    Ok(List::from_vec(copies))
}

/// An equal expression, with memory of its own.
#[cycle(copy)]
fn copied_expr(alloc: Global, expr: &Expr) -> Result<Expr, Memory>
    ensures { IfOk result (λ copy. copy ≡ expr.now) }
{
    match expr {
        Expr::Int(value) => Ok(Expr::Int(*value)),
        Expr::Bool(value) => Ok(Expr::Bool(*value)),
        Expr::Name(name) => Ok(Expr::Name(*name)),
        Expr::Occ(number) => Ok(Expr::Occ(*number)),
        Expr::Leaf(number) => Ok(Expr::Leaf(*number)),
        Expr::Op(op, left, right) => {
            let left = copied_boxed(alloc, left)?;
            Ok(Expr::Op(*op, left, copied_boxed(alloc, right)?))
        }
        Expr::If(condition, then, other) => {
            let condition = copied_boxed(alloc, condition)?;
            let then = copied_boxed(alloc, then)?;
            Ok(Expr::If(condition, then, copied_boxed(alloc, other)?))
        }
        Expr::Make(number, args) => Ok(Expr::Make(*number, copied_exprs(alloc, args.as_slice())?)),
    }
}

#[cycle(copy)]
fn copied_boxed(alloc: Global, expr: &Boxed<Expr>) -> Result<Boxed<Expr>, Memory>
    ensures { IfOk result (λ copy. copy ≡ expr.now) }
{
    Boxed::new(alloc, copied_expr(alloc, expr.get())?)
}

#[cycle(copy)]
fn copied_exprs(alloc: Global, exprs: &[Expr]) -> Result<List<Expr>, Memory>
    ensures { IfOk result (λ copy. copy ≡ exprs.now) }
{
    let mut copies = Vec::with_capacity(alloc, exprs.len())?;
    for expr in exprs {
        copies.push(copied_expr(alloc, expr)?)?;
    }
    Ok(List::from_vec(copies))
}

fn copied_equations(alloc: Global, equations: &[Equation]) -> Result<List<Equation>, Memory>
    ensures { IfOk result (λ copy. copy ≡ equations.now) }
{
    let mut copies = Vec::with_capacity(alloc, equations.len())?;
    for equation in equations {
        let expr = copied_expr(alloc, &equation.expr)?;
        copies.push(Equation {
            target: equation.target,
            expr,
        })?;
    }
    Ok(List::from_vec(copies))
}

fn copied_piece(alloc: Global, piece: &Piece) -> Result<Piece, Memory>
    ensures { IfOk result (λ copy. copy ≡ piece.now) }
{
    match piece {
        Piece::Text(bytes) => Ok(Piece::Text(List::from_slice(alloc, bytes.as_slice())?)),
        Piece::Kid(number) => Ok(Piece::Kid(*number)),
    }
}

fn copied_pieces(alloc: Global, pieces: &[Piece]) -> Result<List<Piece>, Memory>
    ensures { IfOk result (λ copy. copy ≡ pieces.now) }
{
    let mut copies = Vec::with_capacity(alloc, pieces.len())?;
    for piece in pieces {
        copies.push(copied_piece(alloc, piece)?)?;
    }
    Ok(List::from_vec(copies))
}

fn copied_pattern(
    alloc: Global,
    pattern: &Option<List<Piece>>,
) -> Result<Option<List<Piece>>, Memory>
    ensures { IfOk result (λ copy. copy ≡ pattern.now) }
{
    match pattern {
        Some(pieces) => Ok(Some(copied_pieces(alloc, pieces.as_slice())?)),
        None => Ok(None),
    }
}

fn copied_production(alloc: Global, production: &Production) -> Result<Production, Memory>
    ensures { IfOk result (λ copy. copy ≡ production.now) }
{
    let kids = copied_kids(alloc, production.kids.as_slice())?;
    let extras = copied_extras(alloc, production.extras.as_slice())?;
    let equations = copied_equations(alloc, production.equations.as_slice())?;
    let pattern = copied_pattern(alloc, &production.pattern)?;
    Ok(Production {
        name: production.name,
        left: production.left,
        kids,
        extras,
        equations,
        pattern,
    })
}

/// Equal productions, with memory of their own.
pub fn copied_productions(alloc: Global, prods: &[Production]) -> Result<List<Production>, Memory>
    ensures { IfOk result (λ copy. copy ≡ prods.now) }
{
    let mut copies = Vec::with_capacity(alloc, prods.len())?;
    for production in prods {
        copies.push(copied_production(alloc, production)?)?;
    }
    Ok(List::from_vec(copies))
}

fn copied_signature(alloc: Global, signature: &Signature) -> Result<Signature, Memory>
    ensures { IfOk result (λ copy. copy ≡ signature.now) }
{
    let occurrences = List::from_slice(alloc, signature.occurrences.as_slice())?;
    let equations = List::from_slice(alloc, signature.equations.as_slice())?;
    Ok(Signature {
        occurrences,
        equations,
        symbols: List::from_slice(alloc, signature.symbols.as_slice())?,
    })
}

/// Equal signatures, with memory of their own.
pub fn copied_signatures(alloc: Global, signatures: &[Signature]) -> Result<List<Signature>, Memory>
    ensures { IfOk result (λ copy. copy ≡ signatures.now) }
{
    let mut copies = Vec::with_capacity(alloc, signatures.len())?;
    for signature in signatures {
        copies.push(copied_signature(alloc, signature)?)?;
    }
    Ok(List::from_vec(copies))
}
