ghost use Rattle.std.specs.Prelude.{◌≡◌, IsTrue, IfOk, map};
ghost use Rattle.std.specs.List.{list_all};
ghost use Rattle.lrc_meaning.specs.Editing.{change};
ghost use Rattle.lrc_job.specs.Fitting.{edit_fits};
ghost use Rattle.lrc_job.specs.Job.{change_of, changes_of, Agrees};

use crate::fault::AcceptFault;
use crate::terms::term_at;
use lrc_base::{Edit, List, Memory, Path, RawEdit};
use lrc_grammar::Grammar;
use std::alloc::Global;

fn copied_path(alloc: Global, path: &Path) -> Result<Path, Memory>
    ensures { IfOk result (λ copy. copy ≡ path.now) }
{
    let steps = List::from_slice(alloc, path.steps.as_slice())?;
    Ok(Path { steps })
}

/// The edit of this number of a session.
fn edit_of(
    alloc: Global,
    grammar: &Grammar,
    session: u32,
    edit: u32,
    raw: &RawEdit,
) -> Result<Edit, AcceptFault>
    ensures found { Agrees change (change_of grammar.now.prods session edit raw.now) result }
    ensures fitting { IfOk result (λ made. IsTrue (edit_fits grammar.now.prods made)) }
{
    match raw {
        RawEdit::Put(path, raw) => {
            let (kind, term) = term_at(alloc, grammar, session, edit, raw)?;
            Ok(Edit::Put(copied_path(alloc, path)?, kind, term))
        }
        RawEdit::Copy(from, to) => {
            let from = copied_path(alloc, from)?;
            Ok(Edit::Copy(from, copied_path(alloc, to)?))
        }
        RawEdit::Show => Ok(Edit::Show),
        RawEdit::Forget(place) => Ok(Edit::Forget(*place)),
    }
}

/// The edits of a session, numbered from 1.
pub fn edits_of(
    alloc: Global,
    grammar: &Grammar,
    session: u32,
    raw: &[RawEdit],
) -> Result<List<Edit>, AcceptFault>
    ensures found { Agrees (map change) (changes_of grammar.now.prods session 1 raw.now) result }
    ensures fitting { IfOk result (λ made. IsTrue (list_all (edit_fits grammar.now.prods) made)) }
{
    let mut edits = List::new(alloc);
    let mut number = 1_u32;
    for edit in raw {
        let made = edit_of(alloc, grammar, session, number, edit)?;
        edits.push(made)?;
        number = number.saturating_add(1);
    }
    Ok(edits)
}
