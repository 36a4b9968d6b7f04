ghost use Rattle.std.specs.Prelude.{◌≡◌, ◌+◌, ◌<◌, ◌≤◌, ◌^◌, ◌++◌, codes, length, map, flat_map, true, false, IfOk, OnOk};
ghost use Rattle.std.specs.List.{range_with_len};
ghost use Rattle.lrc_grammar.specs.Grammar.{grammar_of};
ghost use Rattle.lrc_meaning.specs.Grammar.{attrs_of_sort};
ghost use Rattle.lrc_plan_meaning.specs.Items.{attrs_of_visit, visits_of};
ghost use Rattle.lrc_plan.specs.Text.{comma_joined, attr_name, visit_names, visit_text, sort_text, parts_text};

use crate::parts::{Block, visits_of};
use crate::sequenced::Plan;
use lrc_base::{Attr, Bytes, List, Memory, Sort};
use lrc_grammar::attrs_of_sort;
use lrc_order_meaning::Partition;
use std::alloc::Global;

/// The attributes of a block of a sort's partition.
fn attrs_of_block(
    alloc: Global,
    sorts: &[Sort],
    parts: &[Partition],
    block: Block,
) -> Result<List<u32>, Memory>
    requires { length (attrs_of_sort sorts.now block.sort) < 2 ^ 32 }
    ensures { IfOk result (λ found. found ≡ attrs_of_visit sorts.now parts.now block.inherited block.sort block.visit) }
{
    let attrs = attrs_of_sort(sorts, block.sort);
    let mut found = List::new(alloc);
    'attributes: for attr in 0..attrs.len() as u32 {
        if block.has(parts, attrs, attr) {
            found.push(attr)?;
        }
    }
    Ok(found)
}

/// Appends the name of an attribute.
fn push_attr(text: &mut Vec<u8>, attrs: &[Attr], attr: u32) -> Result<(), Memory>
    ensures { OnOk result (text.new.items ≡ text.old.items ++ attr_name attrs.now attr) }
{
    if let Some(found) = attrs.get(attr as usize) {
        text.extend_from_slice(found.name.bytes())?;
    }
    Ok(())
}

/// Appends names of attributes, each behind a comma.
fn push_more(text: &mut Vec<u8>, attrs: &[Attr], numbers: &[u32]) -> Result<(), Memory>
    ensures { OnOk result (text.new.items ≡ text.old.items ++ flat_map (λ y. codes "," ++ attr_name attrs.now y) numbers.now) }
{
    'attributes: for number in numbers {
        text.extend_from_slice(b",")?;
        push_attr(text, attrs, *number)?;
    }
    Ok(())
}

/// Appends names of attributes with a comma between them.
fn push_joined(text: &mut Vec<u8>, attrs: &[Attr], numbers: &[u32]) -> Result<(), Memory>
    ensures { OnOk result (text.new.items ≡ text.old.items ++ comma_joined attrs.now numbers.now) }
{
    if let [first, rest @ ..] = numbers {
        push_attr(text, attrs, *first)?;
        push_more(text, attrs, rest)?;
    }
    Ok(())
}

/// Appends the names of a block's attributes with a comma between them.
fn push_block(alloc: Global, text: &mut Vec<u8>, plan: &Plan, block: Block) -> Result<(), Memory>
    ensures { OnOk result (text.new.items ≡ text.old.items ++ visit_names plan.now.grammar.sorts plan.now.parts.sorts block.sort block.visit block.inherited) }
{
    let sorts = plan.grammar().sorts.as_slice();
    let numbers = attrs_of_block(alloc, sorts, plan.parts().sorts(), block)?;
    push_joined(text, attrs_of_sort(sorts, block.sort), numbers.as_slice())
}

/// Appends ` [`, the names that the visit takes, `>`, those that it gives, and `]`.
fn push_visit(
    alloc: Global,
    text: &mut Vec<u8>,
    plan: &Plan,
    sort: u32,
    visit: u32,
) -> Result<(), Memory>
    ensures { OnOk result (text.new.items ≡ text.old.items ++ visit_text plan.now.grammar.sorts plan.now.parts.sorts sort visit) }
{
    let takes = Block {
        sort,
        visit,
        inherited: true,
    };
    let gives = Block {
        sort,
        visit,
        inherited: false,
    };
    text.extend_from_slice(b" [")?;
    push_block(alloc, text, plan, takes)?;
    text.extend_from_slice(b">")?;
    push_block(alloc, text, plan, gives)?;
    text.extend_from_slice(b"]")?;
    Ok(())
}

/// Appends the visits of a sort.
fn push_visits(alloc: Global, text: &mut Vec<u8>, plan: &Plan, sort: u32) -> Result<(), Memory>
    ensures { OnOk result (text.new.items ≡ text.old.items ++ flat_map (visit_text plan.now.grammar.sorts plan.now.parts.sorts sort) (range_with_len 1 (visits_of plan.now.parts.sorts sort))) }
{
    'visits: for earlier in 0..visits_of(plan.parts().sorts(), sort) {
        push_visit(alloc, text, plan, sort, earlier + 1)?;
    }
    Ok(())
}

/// Appends a sort's name and its visits.
fn push_sort(alloc: Global, text: &mut Vec<u8>, plan: &Plan, sort: usize) -> Result<(), Memory>
    requires { sort < length plan.now.grammar.sorts }
    ensures { OnOk result (text.new.items ≡ text.old.items ++ sort_text plan.now.grammar.sorts plan.now.parts.sorts sort) }
{
    text.extend_from_slice(plan.grammar().sorts.as_slice()[sort].name.bytes())?;
    push_visits(alloc, text, plan, sort as u32)?;
    text.extend_from_slice(b"\n")?;
    Ok(())
}

/// The text of a plan's partitions: for each sort its name, and for each visit the attributes that it
/// takes and gives.
///
/// # Errors
///
/// Want of memory.
pub fn parts_text(alloc: Global, plan: &Plan) -> Result<Bytes, Memory>
    ensures { IfOk result (λ text. text ≡ parts_text (grammar_of plan.now.grammar) plan.now.parts.sorts) }
{
    let mut text = Vec::new(alloc);
    'sorts: for sort in 0..plan.grammar().sorts.len() {
        push_sort(alloc, &mut text, plan, sort)?;
    }
    Ok(List::from_vec(text))
}
