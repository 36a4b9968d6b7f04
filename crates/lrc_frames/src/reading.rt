ghost use Rattle.std.specs.Prelude.{◌≡◌};
ghost use Rattle.lrc_plan_meaning.specs.declared.Bound.{Bound};
ghost use Rattle.lrc_visit_meaning.specs.Values.{Datum, value_in, binding_in};
ghost use Rattle.lrc_store.specs.Standing.{Stands};
ghost use Rattle.lrc_store.specs.Words.{Reads};
ghost use Rattle.lrc_call_meaning.specs.Forms.{datum_cell};
ghost use Rattle.lrc_call_meaning.specs.Spelled.{IsSpelledDatum};
ghost use Rattle.lrc_eval.specs.Values.{IsMeant};
ghost use Rattle.lrc_frames.specs.Frames.{MeansBinding, Shows};
ghost use Rattle.lrc_frames.specs.Lists.{is_binding, IsReadAs};

use lrc_eval::{Val, value_of_handle};
use lrc_store::{Cell, Handle, Store};

/// The tag of an item before a list.
const LIST: u32 = 4;

/// How the items of a list are read.
#[derive(Debug, Clone, Copy, PartialEq, Eq)]
pub(crate) enum Reading {
    /// Each is a value.
    Values,
    /// Each is a binding.
    Bindings,
    /// Each goes to an occurrence where its number is below this one, and else to a binding; it may be
    /// of the other sort.
    Either(usize),
}

/// Whether an item of a binding is a binding itself, and no value, by one look at it.
fn is_binding<St: Store>(store: &mut St, item: Handle) -> bool
    requires { (d : Datum) × Stands (St.state store.old) item.0 (datum_cell d) × IsSpelledDatum d }
    ensures is { (d : Datum) → Stands (St.state store.old) item.0 (datum_cell d) → IsSpelledDatum d → result ≡ is_binding d }
    ensures reads { Reads (St.state store.old) (St.state store.new) }
    ensures same_meaning { St.meaning store.new ≡ St.meaning store.old }
{
    match store.look(item) {
        Cell::Nil => true,
        Cell::Number(_) => false,
        Cell::Pair(tag, _, _) => tag == LIST,
    }
}

/// The value in an item of a binding, which is `false` where the item is a binding itself.
fn value_in<St: Store>(store: &mut St, item: Handle) -> Val
    requires { (d : Datum) × Stands (St.state store.old) item.0 (datum_cell d) × IsSpelledDatum d }
    ensures meant { (d : Datum) → Stands (St.state store.old) item.0 (datum_cell d) → IsSpelledDatum d → IsMeant (St.state store.new) result (value_in d) }
    ensures reads { Reads (St.state store.old) (St.state store.new) }
    ensures same_meaning { St.meaning store.new ≡ St.meaning store.old }
{
    if is_binding(store, item) {
        Val::Bool(false)
    } else {
        value_of_handle(store, item)
    }
}

/// The binding in an item of a binding, which has nothing where the item is a value.
fn binding_in<St: Store>(store: &mut St, item: Handle) -> Val
    requires { (d : Datum) × Stands (St.state store.old) item.0 (datum_cell d) × IsSpelledDatum d }
    ensures means { (d : Datum) → Stands (St.state store.old) item.0 (datum_cell d) → IsSpelledDatum d → MeansBinding (St.state store.new) result (binding_in d) }
    ensures reads { Reads (St.state store.old) (St.state store.new) }
    ensures same_meaning { St.meaning store.new ≡ St.meaning store.old }
{
    let _ = store.published();
    if is_binding(store, item) {
        Val::Ref(item)
    } else {
        Val::Ref(Handle::NIL)
    }
}

/// The value for an item that goes to this number.
pub(crate) fn read<St: Store>(store: &mut St, reading: Reading, number: u32, item: Handle) -> Val
    requires { (x : Bound) × (d : Datum) × IsReadAs reading number x d × Stands (St.state store.old) item.0 (datum_cell d) × IsSpelledDatum d }
    ensures shows { (x : Bound) (d : Datum) → IsReadAs reading number x d → Stands (St.state store.old) item.0 (datum_cell d) → IsSpelledDatum d → Shows (St.state store.new) result x d }
    ensures reads { Reads (St.state store.old) (St.state store.new) }
    ensures same_meaning { St.meaning store.new ≡ St.meaning store.old }
{
    match reading {
        Reading::Values => value_of_handle(store, item),
        Reading::Bindings => Val::Ref(item),
        Reading::Either(occurrences) => {
            if (number as usize) < occurrences {
                value_in(store, item)
            } else {
                binding_in(store, item)
            }
        }
    }
}
