ghost use Rattle.std.specs.Prelude.{◌≡◌, ◌<◌, ◌^◌, [], ◌∷◌, ◌++◌, List, length, codes, IfOk, OnOk};
ghost use Rattle.std.specs.List.{AllByRecursion};
ghost use Rattle.lrc_meaning.specs.Tree.{Tree};
ghost use Rattle.lrc_meaning.specs.Grammar.{attrs_of_sort};
ghost use Rattle.lrc_meaning.specs.Editing as answer;
ghost use Rattle.lrc_meaning.specs.Text.{named_values, synthesised_attrs};
ghost use Rattle.lrc_store.specs.Standing.{Stands};
ghost use Rattle.lrc_store.specs.Words.{Reads};
ghost use Rattle.lrc_call_meaning.specs.Forms.{values_cell};
ghost use Rattle.lrc_call_meaning.specs.Spelled.{IsSpelled};
ghost use Rattle.lrc_session.specs.Sessions.{grammar, IsOpen};
ghost use Rattle.lrc_run.specs.Lines.{IsLine, first_number};
ghost use Rattle.lrc_run.specs.Values.{Begins, Pushes, HasCountsOf};

use crate::reply::{Line, Outcome};
use lrc_base::{Attr, Bytes, Memory};
use lrc_functions::Functions;
use lrc_grammar::{Grammar, attrs_of_sort};
use lrc_session::Session;
use lrc_store::{Cell, Handle, Store};
use lrc_unparse::value_text;
use std::alloc::Global;

/// The first value of a list and the list of the others; None where the list is empty.
fn first_value<St: Store>(store: &mut St, values: Handle) -> Option<(Handle, Handle)>
    requires { (vs : List Tree) × Stands (St.state store.old) values.0 (values_cell vs) }
    ensures begins { (vs : List Tree) → Stands (St.state store.old) values.0 (values_cell vs) → Begins (St.state store.new) vs result }
    ensures reads { Reads (St.state store.old) (St.state store.new) }
    ensures same_meaning { St.meaning store.new ≡ St.meaning store.old }
{
    match store.look(values) {
        Cell::Pair(_, first, rest) => Some((first, rest)),
        Cell::Nil | Cell::Number(_) => None,
    }
}

/// Appends ` name=text`.
fn push_named(text: &mut Vec<u8>, name: &[u8], value: &[u8]) -> Result<(), Memory>
    ensures { OnOk result (text.new.items ≡ text.old.items ++ (codes " " ++ (name.now ++ (codes "=" ++ value.now)))) }
{
    text.extend_from_slice(b" ")?;
    text.extend_from_slice(name)?;
    text.extend_from_slice(b"=")?;
    text.extend_from_slice(value)?;
    Ok(())
}

/// Appends ` name=value` of the first value of a list, and gives the list of the others; None where the
/// list is empty.
fn push_first<St: Store>(
    alloc: Global,
    store: &mut St,
    grammar: &Grammar,
    attr: &Attr,
    values: Handle,
    text: &mut Vec<u8>,
) -> Result<Option<Handle>, Memory>
    requires { (vs : List Tree) × AllByRecursion IsSpelled vs × Stands (St.state store.old) values.0 (values_cell vs) }
    ensures pushes { (vs : List Tree) → AllByRecursion IsSpelled vs → Stands (St.state store.old) values.0 (values_cell vs) → IfOk result (λ rest. Pushes grammar.now.prods (St.state store.new) attr.now vs text.old.items text.new.items rest) }
    ensures reads { Reads (St.state store.old) (St.state store.new) }
    ensures same_meaning { St.meaning store.new ≡ St.meaning store.old }
{
    let Some((first, rest)) = first_value(store, values) else {
        return Ok(None);
    };
    let value = value_text(alloc, store, grammar, first)?;
    push_named(text, attr.name.bytes(), value.as_slice())?;
    Ok(Some(rest))
}

/// Appends ` name=value` for each of the attributes that is synthesised, as far as there are values.
fn push_values<St: Store>(
    alloc: Global,
    store: &mut St,
    grammar: &Grammar,
    attrs: &[Attr],
    values: Handle,
    text: &mut Vec<u8>,
) -> Result<(), Memory>
    requires { (vs : List Tree) × AllByRecursion IsSpelled vs × Stands (St.state store.old) values.0 (values_cell vs) }
    ensures text { (vs : List Tree) → AllByRecursion IsSpelled vs → Stands (St.state store.old) values.0 (values_cell vs) → OnOk result (text.new.items ≡ text.old.items ++ named_values grammar.now.prods (synthesised_attrs attrs.now) vs) }
    ensures reads { Reads (St.state store.old) (St.state store.new) }
    ensures same_meaning { St.meaning store.new ≡ St.meaning store.old }
{
    let mut left = values;
    for attr in attrs {
        if attr.inherited {
            continue;
        }
        match push_first(alloc, store, grammar, attr, left, text)? {
            Some(rest) => left = rest,
            None => return Ok(()),
        }
    }
    Ok(())
}

/// ` name=value` for each synthesised attribute of the start sort, as far as there are values.
fn values_text<St: Store>(
    alloc: Global,
    store: &mut St,
    grammar: &Grammar,
    values: Handle,
) -> Result<Bytes, Memory>
    requires { (vs : List Tree) × AllByRecursion IsSpelled vs × Stands (St.state store.old) values.0 (values_cell vs) }
    ensures text { (vs : List Tree) → AllByRecursion IsSpelled vs → Stands (St.state store.old) values.0 (values_cell vs) → IfOk result (λ text. text ≡ named_values grammar.now.prods (synthesised_attrs (attrs_of_sort grammar.now.sorts grammar.now.start)) vs) }
    ensures reads { Reads (St.state store.old) (St.state store.new) }
    ensures same_meaning { St.meaning store.new ≡ St.meaning store.old }
{
    let mut text = Vec::new(alloc);
    let attrs = attrs_of_sort(grammar.sorts.as_slice(), grammar.start);
    push_values(alloc, store, grammar, attrs, values, &mut text)?;
    Ok(Bytes::from_vec(text))
}

/// The first value of a list, where it is a number; else 0.
fn first_number<St: Store>(store: &mut St, values: Handle) -> i64
    requires { (vs : List Tree) × Stands (St.state store.old) values.0 (values_cell vs) }
    ensures number { (vs : List Tree) → Stands (St.state store.old) values.0 (values_cell vs) → result ≡ first_number vs }
    ensures reads { Reads (St.state store.old) (St.state store.new) }
    ensures same_meaning { St.meaning store.new ≡ St.meaning store.old }
{
    let Some((first, _rest)) = first_value(store, values) else {
        return 0;
    };
    match store.look(first) {
        Cell::Number(number) => number,
        Cell::Nil | Cell::Pair(..) => 0,
    }
}

/// How many cells the store made.
fn made<St: Store>(store: &St) -> u32
    ensures count { result ≡ length (St.state store.now).made }
    ensures small { length (St.state store.now).made < 2 ^ 32 }
{
    store.published()
}

/// The line of a session's values, with the counts of the bodies that ran for its tree and of the cells
/// that the store made.
pub(crate) fn values_line<St: Store>(
    alloc: Global,
    store: &mut St,
    functions: &Functions,
    session: &Session,
) -> Result<Line, Memory>
    requires { (t : Tree) × (vs : List Tree) × IsOpen functions.now (St.state store.old) session.now t vs }
    ensures line { (t : Tree) (vs : List Tree) → IsOpen functions.now (St.state store.old) session.now t vs → IfOk result (λ line. IsLine (grammar functions.now) (answer.values vs) line) }
    ensures counts { IfOk result (λ line. HasCountsOf (St.state store.new) session.now line) }
    ensures reads { Reads (St.state store.old) (St.state store.new) }
    ensures same_meaning { St.meaning store.new ≡ St.meaning store.old }
{
    let body = values_text(alloc, store, &functions.plan.grammar, session.values())?;
    Ok(Line {
        outcome: Outcome::Values,
        first: first_number(store, session.values()),
        body,
        bodies: session.runs(),
        cells: made(store),
    })
}
