ghost use Rattle.std.specs.Prelude.{◌≡◌, ◌+◌, ◌<◌, ◌^◌, ◌++◌, codes, decimal, length, map, flat_map, IfOk, OnOk};
ghost use Rattle.std.specs.List.{range_with_len};
ghost use Rattle.lrc_grammar.specs.Grammar.{grammar_of};
ghost use Rattle.lrc_meaning.specs.Text.{line_feed};
ghost use Rattle.lrc_plan.specs.Text.{name_at, action_text, bound_text, more_actions, actions_text, more_bounds, bounds_text, segment_line, segment_lines, binding_line, later_lines, binding_lines, sequences_lines, production_lines, plan_text};

use crate::names::{Names, names_of};
use crate::sequenced::Plan;
use itoa::Buffer;
use lrc_base::{Bytes, List, Memory, Production, Signature};
use lrc_plan_meaning::{Action, Bound, Sequences};
use sqlite_items::at;
use std::alloc::Global;

/// Appends a number in decimal.
pub fn push_number(text: &mut Vec<u8>, number: usize) -> Result<(), Memory>
    ensures { OnOk result (text.new.items ≡ text.old.items ++ decimal number) }
{
    let mut buffer = Buffer::new();
    text.extend_from_slice(buffer.format(number).as_bytes())?;
    Ok(())
}

/// Appends the name of this number; nothing where there is none.
#[tactic(auto, using(crate::proofs::AtLemmas::past_default))]
pub fn push_name(text: &mut Vec<u8>, names: &[Bytes], number: u32) -> Result<(), Memory>
    ensures { OnOk result (text.new.items ≡ text.old.items ++ name_at names.now number) }
{
    text.extend_from_slice(name(names, number))?;
    Ok(())
}

/// The name of this number; nothing where there is none.
#[tactic(auto, using(crate::proofs::AtLemmas::past_default))]
fn name(names: &[Bytes], number: u32) -> &[u8]
    ensures { result.now ≡ name_at names.now number }
{
    match at(names, number as usize) {
        Some(name) => name.as_slice(),
        None => &[],
    }
}

/// Appends `eval OCC` or `visit SYMBOL J`.
fn push_action(text: &mut Vec<u8>, names: &Names, action: Action) -> Result<(), Memory>
    ensures { OnOk result (text.new.items ≡ text.old.items ++ action_text names.now.occurrences names.now.symbols action) }
{
    match action {
        Action::Eval(occurrence) => {
            text.extend_from_slice(b"eval ")?;
            push_name(text, names.occurrences.as_slice(), occurrence)
        }
        Action::Visit(symbol, visit) => {
            text.extend_from_slice(b"visit ")?;
            push_name(text, names.symbols.as_slice(), symbol)?;
            text.extend_from_slice(b" ")?;
            push_number(text, visit as usize)
        }
    }
}

/// Appends `OCC` or `SYMBOL I J`.
fn push_bound(text: &mut Vec<u8>, names: &Names, item: Bound) -> Result<(), Memory>
    ensures { OnOk result (text.new.items ≡ text.old.items ++ bound_text names.now.occurrences names.now.symbols item) }
{
    match item {
        Bound::Value(occurrence) => push_name(text, names.occurrences.as_slice(), occurrence),
        Bound::Kid(symbol, from, to) => {
            push_name(text, names.symbols.as_slice(), symbol)?;
            text.extend_from_slice(b" ")?;
            push_number(text, from as usize)?;
            text.extend_from_slice(b" ")?;
            push_number(text, to as usize)
        }
    }
}

/// Appends actions, each behind `; `.
fn push_more_actions(text: &mut Vec<u8>, names: &Names, actions: &[Action]) -> Result<(), Memory>
    ensures { OnOk result (text.new.items ≡ text.old.items ++ more_actions names.now.occurrences names.now.symbols actions.now) }
{
    'actions: for action in actions {
        text.extend_from_slice(b"; ")?;
        push_action(text, names, *action)?;
    }
    Ok(())
}

/// Appends actions, the first behind a space and the others behind `; `.
fn push_actions(text: &mut Vec<u8>, names: &Names, actions: &[Action]) -> Result<(), Memory>
    ensures { OnOk result (text.new.items ≡ text.old.items ++ actions_text names.now.occurrences names.now.symbols actions.now) }
{
    if let [first, rest @ ..] = actions {
        text.extend_from_slice(b" ")?;
        push_action(text, names, *first)?;
        push_more_actions(text, names, rest)?;
    }
    Ok(())
}

/// Appends items, each behind `; `.
fn push_more_bounds(text: &mut Vec<u8>, names: &Names, items: &[Bound]) -> Result<(), Memory>
    ensures { OnOk result (text.new.items ≡ text.old.items ++ more_bounds names.now.occurrences names.now.symbols items.now) }
{
    'items: for item in items {
        text.extend_from_slice(b"; ")?;
        push_bound(text, names, *item)?;
    }
    Ok(())
}

/// Appends items, the first behind a space and the others behind `; `.
fn push_bounds(text: &mut Vec<u8>, names: &Names, items: &[Bound]) -> Result<(), Memory>
    ensures { OnOk result (text.new.items ≡ text.old.items ++ bounds_text names.now.occurrences names.now.symbols items.now) }
{
    if let [first, rest @ ..] = items {
        text.extend_from_slice(b" ")?;
        push_bound(text, names, *first)?;
        push_more_bounds(text, names, rest)?;
    }
    Ok(())
}

/// Appends `  V: ` and the actions of visit V.
fn push_segment(
    text: &mut Vec<u8>,
    names: &Names,
    visit: usize,
    actions: &[Action],
) -> Result<(), Memory>
    ensures { OnOk result (text.new.items ≡ text.old.items ++ segment_line names.now.occurrences names.now.symbols visit actions.now) }
{
    text.extend_from_slice(b"  ")?;
    push_number(text, visit)?;
    text.extend_from_slice(b":")?;
    push_actions(text, names, actions)?;
    text.extend_from_slice(b"\n")?;
    Ok(())
}

/// Appends the lines of segments.
fn push_segments(text: &mut Vec<u8>, names: &Names, segments: &[List<Action>]) -> Result<(), Memory>
    ensures { OnOk result (text.new.items ≡ text.old.items ++ segment_lines names.now.occurrences names.now.symbols segments.now) }
{
    'segments: for earlier in 0..segments.len() {
        push_segment(text, names, earlier + 1, segments[earlier].as_slice())?;
    }
    Ok(())
}

/// Appends `  bind V W: ` and the items of the binding from visit V to visit W.
fn push_binding(
    text: &mut Vec<u8>,
    names: &Names,
    from: usize,
    to: usize,
    items: &[Bound],
) -> Result<(), Memory>
    ensures { OnOk result (text.new.items ≡ text.old.items ++ binding_line names.now.occurrences names.now.symbols from to items.now) }
{
    text.extend_from_slice(b"  bind ")?;
    push_number(text, from)?;
    text.extend_from_slice(b" ")?;
    push_number(text, to)?;
    text.extend_from_slice(b":")?;
    push_bounds(text, names, items)?;
    text.extend_from_slice(b"\n")?;
    Ok(())
}

/// Appends the lines of the bindings from a visit.
fn push_later(
    text: &mut Vec<u8>,
    names: &Names,
    from: usize,
    later: &[List<Bound>],
) -> Result<(), Memory>
    requires { from < 2 ^ 63 }
    ensures { OnOk result (text.new.items ≡ text.old.items ++ later_lines names.now.occurrences names.now.symbols from later.now) }
{
    'visits: for number in 0..later.len() {
        let items = later[number].as_slice();
        push_binding(text, names, from, from + number + 1, items)?;
    }
    Ok(())
}

/// Appends the lines of all bindings.
fn push_bindings(
    text: &mut Vec<u8>,
    names: &Names,
    bindings: &[List<List<Bound>>],
) -> Result<(), Memory>
    ensures { OnOk result (text.new.items ≡ text.old.items ++ binding_lines names.now.occurrences names.now.symbols bindings.now) }
{
    'visits: for earlier in 0..bindings.len() {
        push_later(text, names, earlier + 1, bindings[earlier].as_slice())?;
    }
    Ok(())
}

/// Appends the lines of a production's segments and bindings.
fn push_sequences(text: &mut Vec<u8>, names: &Names, found: &Sequences) -> Result<(), Memory>
    ensures { OnOk result (text.new.items ≡ text.old.items ++ sequences_lines names.now.occurrences names.now.symbols found.now) }
{
    push_segments(text, names, found.actions.as_slice())?;
    push_bindings(text, names, found.bindings.as_slice())
}

/// Appends `prod NAME`, and the lines of a production's segments and bindings.
fn push_production(
    alloc: Global,
    text: &mut Vec<u8>,
    signature: &Signature,
    production: &Production,
    found: &Sequences,
) -> Result<(), Memory>
    ensures { OnOk result (text.new.items ≡ text.old.items ++ production_lines signature.now production.now found.now) }
{
    let names = names_of(alloc, signature)?;
    text.extend_from_slice(b"prod ")?;
    text.extend_from_slice(production.name.bytes())?;
    text.extend_from_slice(b"\n")?;
    push_sequences(text, &names, found)
}

/// The text of a plan: for each production its name, the actions of each visit of its left side, and
/// what each hands on to each later one.
///
/// # Errors
///
/// Want of memory.
pub fn plan_text(alloc: Global, plan: &Plan) -> Result<Bytes, Memory>
    ensures { IfOk result (λ text. text ≡ plan_text (grammar_of plan.now.grammar) plan.now.parts.sorts) }
{
    let mut text = Vec::new(alloc);
    let signatures = plan.grammar().signatures.as_slice();
    let productions = plan.grammar().prods.as_slice();
    let all = plan.productions.as_slice();
    'productions: for number in 0..productions.len() {
        let (signature, production) = (&signatures[number], &productions[number]);
        push_production(alloc, &mut text, signature, production, &all[number])?;
    }
    Ok(List::from_vec(text))
}
