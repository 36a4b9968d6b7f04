ghost use Rattle.std.specs.Prelude.{◌≡◌, IfOk};
ghost use Rattle.lrc_gen.specs.Lets as spec;

use crate::names::name;
use crate::parts::{hands_on, kid, of_kid, of_sort, one, op, own, pattern_of, printed, text, two};
use lrc_base::{Boxed, List, Memory, Op, RawExpr, RawItem, RawKid, RawKind, RawProd};
use std::alloc::Global;

#[tactic(auto, unfolding(crate::specs::Lets::root_items))]
fn root_items(alloc: Global) -> Result<List<RawItem>, Memory>
    ensures { IfOk result (λ items. items ≡ spec.root_items) }
{
    let mut items = List::new(alloc);
    let empty = RawExpr::Make(name(b"Empty"), List::new(alloc));
    items.push(of_kid(b"e", b"env", empty))?;
    items.push(own(b"val", two(b"e", b"val")))?;
    items.push(pattern_of(alloc, b"e")?)?;
    Ok(items)
}

#[tactic(auto, unfolding(crate::specs::Lets::root_prod))]
/// `prod Root: Prog (e: Exp) { e.env = Empty(); val = e.val; text e; }`
pub fn root_prod(alloc: Global) -> Result<RawProd, Memory>
    ensures { IfOk result (λ prod. prod ≡ spec.root_prod) }
{
    let mut kids = List::new(alloc);
    kids.push(kid(b"e", of_sort(b"Exp")))?;
    let items = root_items(alloc)?;
    Ok(RawProd {
        name: name(b"Root"),
        left: name(b"Prog"),
        kids,
        items,
    })
}

#[tactic(auto, unfolding(crate::specs::Lets::num_items))]
fn num_items(alloc: Global) -> Result<List<RawItem>, Memory>
    ensures { IfOk result (λ items. items ≡ spec.num_items) }
{
    let mut items = List::new(alloc);
    items.push(own(b"val", one(b"n")))?;
    items.push(pattern_of(alloc, b"n")?)?;
    Ok(items)
}

#[tactic(auto, unfolding(crate::specs::Lets::num_prod))]
/// `prod Num: Exp (n: Int) { val = n; text n; }`
pub fn num_prod(alloc: Global) -> Result<RawProd, Memory>
    ensures { IfOk result (λ prod. prod ≡ spec.num_prod) }
{
    let mut kids = List::new(alloc);
    kids.push(kid(b"n", RawKind::Int))?;
    let items = num_items(alloc)?;
    Ok(RawProd {
        name: name(b"Num"),
        left: name(b"Exp"),
        kids,
        items,
    })
}

#[tactic(auto, unfolding(crate::specs::Lets::var_items))]
fn var_items(alloc: Global) -> Result<List<RawItem>, Memory>
    ensures { IfOk result (λ items. items ≡ spec.var_items) }
{
    let mut items = List::new(alloc);
    items.push(RawItem::Attach(name(b"look"), name(b"Env"), one(b"env")))?;
    items.push(of_kid(b"look", b"key", one(b"x")))?;
    items.push(own(b"val", two(b"look", b"found")))?;
    items.push(pattern_of(alloc, b"x")?)?;
    Ok(items)
}

#[tactic(auto, unfolding(crate::specs::Lets::var_prod))]
/// `prod Var: Exp (x: Name) { attach look: Env = env; look.key = x; val = look.found; text x; }`
pub fn var_prod(alloc: Global) -> Result<RawProd, Memory>
    ensures { IfOk result (λ prod. prod ≡ spec.var_prod) }
{
    let mut kids = List::new(alloc);
    kids.push(kid(b"x", RawKind::Name))?;
    let items = var_items(alloc)?;
    Ok(RawProd {
        name: name(b"Var"),
        left: name(b"Exp"),
        kids,
        items,
    })
}

#[tactic(auto, unfolding(crate::specs::Lets::add_pattern))]
fn add_pattern(alloc: Global) -> Result<RawItem, Memory>
    ensures { IfOk result (λ item. item ≡ spec.add_pattern) }
{
    let mut pieces = List::new(alloc);
    pieces.push(text(alloc, b"(")?)?;
    pieces.push(printed(b"l"))?;
    pieces.push(text(alloc, b" + ")?)?;
    pieces.push(printed(b"r"))?;
    pieces.push(text(alloc, b")")?)?;
    Ok(RawItem::Pattern(pieces))
}

#[tactic(auto, unfolding(crate::specs::Lets::add_items))]
fn add_items(alloc: Global) -> Result<List<RawItem>, Memory>
    ensures { IfOk result (λ items. items ≡ spec.add_items) }
{
    let mut items = List::new(alloc);
    items.push(hands_on(b"l"))?;
    items.push(hands_on(b"r"))?;
    let sum = op(alloc, Op::Add, two(b"l", b"val"), two(b"r", b"val"))?;
    items.push(own(b"val", sum))?;
    items.push(add_pattern(alloc)?)?;
    Ok(items)
}

#[tactic(auto, unfolding(crate::specs::Lets::add_prod))]
/// `prod Add: Exp (l: Exp, r: Exp) { l.env = env; r.env = env; val = l.val + r.val; text "(" l " + " r ")"; }`
pub fn add_prod(alloc: Global) -> Result<RawProd, Memory>
    ensures { IfOk result (λ prod. prod ≡ spec.add_prod) }
{
    let mut kids = List::new(alloc);
    kids.push(kid(b"l", of_sort(b"Exp")))?;
    kids.push(kid(b"r", of_sort(b"Exp")))?;
    let items = add_items(alloc)?;
    Ok(RawProd {
        name: name(b"Add"),
        left: name(b"Exp"),
        kids,
        items,
    })
}

#[tactic(auto, unfolding(crate::specs::Lets::neg_pattern))]
fn neg_pattern(alloc: Global) -> Result<RawItem, Memory>
    ensures { IfOk result (λ item. item ≡ spec.neg_pattern) }
{
    let mut pieces = List::new(alloc);
    pieces.push(text(alloc, b"-")?)?;
    pieces.push(printed(b"e"))?;
    Ok(RawItem::Pattern(pieces))
}

#[tactic(auto, unfolding(crate::specs::Lets::neg_items))]
fn neg_items(alloc: Global) -> Result<List<RawItem>, Memory>
    ensures { IfOk result (λ items. items ≡ spec.neg_items) }
{
    let mut items = List::new(alloc);
    items.push(hands_on(b"e"))?;
    let difference = op(alloc, Op::Sub, RawExpr::Int(0), two(b"e", b"val"))?;
    items.push(own(b"val", difference))?;
    items.push(neg_pattern(alloc)?)?;
    Ok(items)
}

#[tactic(auto, unfolding(crate::specs::Lets::neg_prod))]
/// `prod Neg: Exp (e: Exp) { e.env = env; val = 0 - e.val; text "-" e; }`
pub fn neg_prod(alloc: Global) -> Result<RawProd, Memory>
    ensures { IfOk result (λ prod. prod ≡ spec.neg_prod) }
{
    let mut kids = List::new(alloc);
    kids.push(kid(b"e", of_sort(b"Exp")))?;
    let items = neg_items(alloc)?;
    Ok(RawProd {
        name: name(b"Neg"),
        left: name(b"Exp"),
        kids,
        items,
    })
}

#[tactic(auto, unfolding(crate::specs::Lets::let_pattern))]
fn let_pattern(alloc: Global) -> Result<RawItem, Memory>
    ensures { IfOk result (λ item. item ≡ spec.let_pattern) }
{
    let mut pieces = List::new(alloc);
    pieces.push(text(alloc, b"let ")?)?;
    pieces.push(printed(b"x"))?;
    pieces.push(text(alloc, b" = ")?)?;
    pieces.push(printed(b"e"))?;
    pieces.push(text(alloc, b" in ")?)?;
    pieces.push(printed(b"b"))?;
    Ok(RawItem::Pattern(pieces))
}

#[tactic(auto, unfolding(crate::specs::Lets::bound))]
/// The environment with one name more.
fn bound(alloc: Global) -> Result<RawExpr, Memory>
    ensures { IfOk result (λ expr. expr ≡ spec.bound) }
{
    let mut args = List::new(alloc);
    args.push(one(b"x"))?;
    args.push(two(b"e", b"val"))?;
    args.push(one(b"env"))?;
    Ok(RawExpr::Make(name(b"Bind"), args))
}

#[tactic(auto, unfolding(crate::specs::Lets::let_items))]
fn let_items(alloc: Global) -> Result<List<RawItem>, Memory>
    ensures { IfOk result (λ items. items ≡ spec.let_items) }
{
    let mut items = List::new(alloc);
    items.push(hands_on(b"e"))?;
    items.push(of_kid(b"b", b"env", bound(alloc)?))?;
    items.push(own(b"val", two(b"b", b"val")))?;
    items.push(let_pattern(alloc)?)?;
    Ok(items)
}

#[tactic(auto, unfolding(crate::specs::Lets::let_prod))]
/// `prod Let: Exp (x: Name, e: Exp, b: Exp) { e.env = env; b.env = Bind(x, e.val, env); val = b.val; text "let " x " = " e " in " b; }`
pub fn let_prod(alloc: Global) -> Result<RawProd, Memory>
    ensures { IfOk result (λ prod. prod ≡ spec.let_prod) }
{
    let mut kids = List::new(alloc);
    kids.push(kid(b"x", RawKind::Name))?;
    kids.push(kid(b"e", of_sort(b"Exp")))?;
    kids.push(kid(b"b", of_sort(b"Exp")))?;
    let items = let_items(alloc)?;
    Ok(RawProd {
        name: name(b"Let"),
        left: name(b"Exp"),
        kids,
        items,
    })
}

#[tactic(auto, unfolding(crate::specs::Lets::empty_prod))]
/// `prod Empty: Env () { found = 0; }`
pub fn empty_prod(alloc: Global) -> Result<RawProd, Memory>
    ensures { IfOk result (λ prod. prod ≡ spec.empty_prod) }
{
    let mut items = List::new(alloc);
    items.push(own(b"found", RawExpr::Int(0)))?;
    Ok(RawProd {
        name: name(b"Empty"),
        left: name(b"Env"),
        kids: List::new(alloc),
        items,
    })
}

#[tactic(auto, unfolding(crate::specs::Lets::found))]
/// The value that is found: that of the nearest name that equals the key.
fn found(alloc: Global) -> Result<RawExpr, Memory>
    ensures { IfOk result (λ expr. expr ≡ spec.found) }
{
    let condition = Boxed::new(alloc, op(alloc, Op::Equal, one(b"k"), one(b"key"))?)?;
    let here = Boxed::new(alloc, one(b"v"))?;
    let further = Boxed::new(alloc, two(b"rest", b"found"))?;
    Ok(RawExpr::If(condition, here, further))
}

#[tactic(auto, unfolding(crate::specs::Lets::bind_items))]
fn bind_items(alloc: Global) -> Result<List<RawItem>, Memory>
    ensures { IfOk result (λ items. items ≡ spec.bind_items) }
{
    let mut items = List::new(alloc);
    items.push(of_kid(b"rest", b"key", one(b"key")))?;
    items.push(own(b"found", found(alloc)?))?;
    Ok(items)
}

#[tactic(auto, unfolding(crate::specs::Lets::bind_prod))]
/// `prod Bind: Env (k: Name, v: Int, rest: Env) { rest.key = key; found = if k == key then v else rest.found; }`
pub fn bind_prod(alloc: Global) -> Result<RawProd, Memory>
    ensures { IfOk result (λ prod. prod ≡ spec.bind_prod) }
{
    let mut kids = List::new(alloc);
    kids.push(kid(b"k", RawKind::Name))?;
    kids.push(kid(b"v", RawKind::Int))?;
    kids.push(kid(b"rest", of_sort(b"Env")))?;
    let items = bind_items(alloc)?;
    Ok(RawProd {
        name: name(b"Bind"),
        left: name(b"Env"),
        kids,
        items,
    })
}
