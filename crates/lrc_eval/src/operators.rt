ghost use Rattle.std.specs.Prelude.{◌≡◌, Some};
ghost use Rattle.lrc_meaning.specs.Tree.{Tree, int, same_tree};
ghost use Rattle.lrc_meaning.specs.Expression.{operated, int_in};
ghost use Rattle.lrc_store.specs.Standing.{Standing};
ghost use Rattle.lrc_eval.specs.Values.{Means, IsMeant, Finds};

use crate::values::Val;
use lrc_base::Op;
use lrc_store::{Handle, Store};

/// The number that a value is.
fn number_of(value: Val) -> Option<i64>
    ensures { (s : Standing) (t : Tree) → Means s value t → result ≡ int_in t }
{
    match value {
        Val::Int(number) => Some(number),
        Val::Bool(_) | Val::Ref(_) | Val::Unset => None,
    }
}

/// What an operator gives of two numbers, which wrap at 64 bits.
fn calculated(op: Op, left: i64, right: i64) -> Val
    ensures { (s : Standing) → Finds s (operated op (int left) (int right)) (Some result) }
{
    match op {
        Op::Add => Val::Int(left.wrapping_add(right)),
        Op::Sub => Val::Int(left.wrapping_sub(right)),
        Op::Mul => Val::Int(left.wrapping_mul(right)),
        Op::Equal => Val::Bool(left == right),
        Op::Less => Val::Bool(left < right),
    }
}

/// Whether a value is the name or the tree of this handle.
fn is_handle<St: Store>(store: &St, value: Val, handle: Handle) -> bool
    requires { (x : Tree) × (y : Tree) × IsMeant (St.state store.now) value x × IsMeant (St.state store.now) (Val.Ref handle) y }
    ensures { (x y : Tree) → IsMeant (St.state store.now) value x → IsMeant (St.state store.now) (Val.Ref handle) y → result ≡ same_tree x y }
{
    match value {
        Val::Ref(other) => store.same(other, handle),
        Val::Int(_) | Val::Bool(_) | Val::Unset => false,
    }
}

/// Whether two values are equal: those of two kinds never are.
fn are_equal<St: Store>(store: &St, left: Val, right: Val) -> bool
    requires { (x : Tree) × (y : Tree) × IsMeant (St.state store.now) left x × IsMeant (St.state store.now) right y }
    ensures { (x y : Tree) → IsMeant (St.state store.now) left x → IsMeant (St.state store.now) right y → result ≡ same_tree x y }
{
    match right {
        Val::Int(number) => left == Val::Int(number),
        Val::Bool(b) => left == Val::Bool(b),
        Val::Ref(handle) => is_handle(store, left, handle),
        Val::Unset => false,
    }
}

/// What an operator gives of two values; none where it takes numbers and one of them is none.
pub(crate) fn operated<St: Store>(store: &St, op: Op, left: Val, right: Val) -> Option<Val>
    requires { (x : Tree) × (y : Tree) × IsMeant (St.state store.now) left x × IsMeant (St.state store.now) right y }
    ensures { (x y : Tree) → IsMeant (St.state store.now) left x → IsMeant (St.state store.now) right y → Finds (St.state store.now) (operated op x y) result }
{
    match op {
        Op::Equal => Some(Val::Bool(are_equal(store, left, right))),
        Op::Add | Op::Sub | Op::Mul | Op::Less => {
            Some(calculated(op, number_of(left)?, number_of(right)?))
        }
    }
}
