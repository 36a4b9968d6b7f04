ghost use Rattle.std.specs.Prelude.{◌≡◌, ◌≤◌, OnOk, OnErr, ◌∷◌, [], codes, decimal};
ghost use Rattle.lrc_failures.specs.Pieces.{joined};
ghost use Rattle.lrc_failures.specs.Gains.{Gains};
ghost use Rattle.lrc_failures.specs.Lines.{line_of, line_feed, alone, of_job, at_place, lex_parts, too_many, text_parts, wrong_in, grammar_parts, term_parts, accept_parts, cycle_words, cycle_parts};

use crate::failure::{Cycle, Failure};
use crate::pieces::{Piece, put_pieces};
use lrc_check::{GrammarFault, GrammarKind};
use lrc_job::{AcceptFault, TermFault};
use lrc_lex::LexFault;
use lrc_outside::{Failed, Sink};
use lrc_reader::{JobFault, Limit};

const USAGE: &[u8] =
    b"usage: lrc run|solo|check|plan|gen [--rows N] [--memo N] [--depth N] [--seed N] [--nodes N] [--sessions N]";

fn put_alone<E: Sink>(err: &mut E, words: &[u8]) -> Result<(), Failed>
    ensures { Gains (E.held err.old) (E.held err.new) (E.faults err.old) (E.faults err.new) result (joined (alone words.now)) }
{
    put_pieces(err, &[Piece::Text(words), Piece::Text(b"\n")])
}

fn put_of_job<E: Sink>(err: &mut E, words: &[u8]) -> Result<(), Failed>
    ensures { Gains (E.held err.old) (E.held err.new) (E.faults err.old) (E.faults err.new) result (joined (of_job words.now)) }
{
    put_pieces(
        err,
        &[
            Piece::Text(b"lrc: job: "),
            Piece::Text(words),
            Piece::Text(b"\n"),
        ],
    )
}

fn put_at_place<E: Sink>(err: &mut E, words: &[u8], at: u32) -> Result<(), Failed>
    ensures { Gains (E.held err.old) (E.held err.new) (E.faults err.old) (E.faults err.new) result (joined (at_place words.now at)) }
{
    put_pieces(
        err,
        &[
            Piece::Text(b"lrc: job: "),
            Piece::Text(words),
            Piece::Text(b" at "),
            Piece::Number(at),
            Piece::Text(b"\n"),
        ],
    )
}

fn put_lex<E: Sink>(err: &mut E, fault: LexFault) -> Result<(), Failed>
    ensures { Gains (E.held err.old) (E.held err.new) (E.faults err.old) (E.faults err.new) result (joined (lex_parts fault)) }
{
    match fault {
        LexFault::NotUtf8 { at } => put_at_place(err, b"not UTF-8", at),
        LexFault::BadChar { at } => put_at_place(err, b"bad character", at),
        LexFault::NumberRange { at } => put_at_place(err, b"number out of range", at),
        LexFault::NameLong { at } => put_at_place(err, b"name too long", at),
        LexFault::Memory => put_alone(err, b"lrc: no memory"),
    }
}

fn too_many(limit: Limit) -> &'static [u8]
    ensures { result.now ≡ too_many limit }
{
    match limit {
        Limit::Sorts => b"too many sorts",
        Limit::Attributes => b"too many attributes",
        Limit::Productions => b"too many productions",
        Limit::Children => b"too many children",
        Limit::Locals => b"too many locals",
        Limit::Nodes => b"too many nodes",
        Limit::Sessions => b"too many sessions",
        Limit::Edits => b"too many edits",
    }
}

fn put_text<E: Sink>(err: &mut E, fault: &JobFault) -> Result<(), Failed>
    ensures { Gains (E.held err.old) (E.held err.new) (E.faults err.old) (E.faults err.new) result (joined (text_parts fault.now)) }
{
    match fault {
        JobFault::TooLong => put_of_job(err, b"longer than 16777216 bytes"),
        JobFault::Lex(fault) => put_lex(err, *fault),
        JobFault::Expected { at } => put_at_place(err, b"unexpected", *at),
        JobFault::LimitReached { at, limit } => put_at_place(err, too_many(*limit), *at),
        JobFault::NestedTooDeep { at } => put_at_place(err, b"nested too deep", *at),
        JobFault::Memory => put_alone(err, b"lrc: no memory"),
    }
}

fn wrong_in(kind: GrammarKind) -> &'static [u8]
    ensures { result.now ≡ wrong_in kind }
{
    match kind {
        GrammarKind::Twice => b"twice in ",
        GrammarKind::Unknown => b"unknown in ",
        GrammarKind::MissingEquation => b"missing equation in ",
        GrammarKind::DoubleEquation => b"double equation in ",
        GrammarKind::NotNormal => b"not normal in ",
        GrammarKind::WrongKind => b"wrong kind in ",
        GrammarKind::StartInherits => b"start inherits in ",
        GrammarKind::Memory => b"no memory in ",
    }
}

fn put_grammar<E: Sink>(err: &mut E, fault: &GrammarFault) -> Result<(), Failed>
    ensures { Gains (E.held err.old) (E.held err.new) (E.faults err.old) (E.faults err.new) result (joined (grammar_parts fault.now)) }
{
    let job = Piece::Text(b"lrc: job: ");
    let wrong = Piece::Text(wrong_in(fault.kind));
    let place = Piece::Name(&fault.place);
    let colon = Piece::Text(b": ");
    let name = Piece::Name(&fault.name);
    let end = Piece::Text(b"\n");
    match &fault.owner {
        None => put_pieces(err, &[job, wrong, place, colon, name, end]),
        Some(owner) => {
            let owner = Piece::Name(owner);
            let dot = Piece::Text(b".");
            put_pieces(err, &[job, wrong, place, colon, owner, dot, name, end])
        }
    }
}

fn put_term<E: Sink>(err: &mut E, session: u32, edit: u32, fault: &TermFault) -> Result<(), Failed>
    ensures { Gains (E.held err.old) (E.held err.new) (E.faults err.old) (E.faults err.new) result (joined (term_parts session edit fault.now)) }
{
    let job = Piece::Text(b"lrc: job: session ");
    let session = Piece::Number(session);
    let edit_word = Piece::Text(b" edit ");
    let edit = Piece::Number(edit);
    let end = Piece::Text(b"\n");
    match fault {
        TermFault::UnknownProduction(production) => {
            let unknown = Piece::Text(b": unknown production ");
            let production = Piece::Name(production);
            put_pieces(
                err,
                &[job, session, edit_word, edit, unknown, production, end],
            )
        }
        TermFault::Arity(production) => {
            let wrong = Piece::Text(b": wrong number of children of ");
            let production = Piece::Name(production);
            put_pieces(
                err,
                &[job, session, edit_word, edit, wrong, production, end],
            )
        }
        TermFault::KidKind(production, kid) => {
            let wrong = Piece::Text(b": wrong kind of child ");
            let kid = Piece::Number(*kid);
            let of = Piece::Text(b" of ");
            let production = Piece::Name(production);
            put_pieces(
                err,
                &[
                    job, session, edit_word, edit, wrong, kid, of, production, end,
                ],
            )
        }
        TermFault::Memory => {
            let memory = Piece::Text(b": no memory");
            put_pieces(err, &[job, session, edit_word, edit, memory, end])
        }
    }
}

fn put_accept<E: Sink>(err: &mut E, fault: &AcceptFault) -> Result<(), Failed>
    ensures { Gains (E.held err.old) (E.held err.new) (E.faults err.old) (E.faults err.new) result (joined (accept_parts fault.now)) }
{
    match fault {
        AcceptFault::Grammar(fault) => put_grammar(err, fault),
        AcceptFault::Term {
            session,
            edit,
            fault,
        } => put_term(err, *session, *edit, fault),
        AcceptFault::NotStart { session } => {
            let job = Piece::Text(b"lrc: job: session ");
            let session = Piece::Number(*session);
            let start = Piece::Text(b": not the start sort");
            put_pieces(err, &[job, session, start, Piece::Text(b"\n")])
        }
        AcceptFault::Memory => put_alone(err, b"lrc: no memory"),
    }
}

fn cycle_words(is_extended: bool) -> &'static [u8]
    ensures { result.now ≡ cycle_words is_extended }
{
    if is_extended {
        b"lrc: not ordered: extended "
    } else {
        b"lrc: not ordered: induced "
    }
}

fn put_cycle<E: Sink>(err: &mut E, cycle: &Cycle) -> Result<(), Failed>
    ensures { Gains (E.held err.old) (E.held err.new) (E.faults err.old) (E.faults err.new) result (joined (cycle_parts cycle.now)) }
{
    let words = Piece::Text(cycle_words(cycle.is_extended));
    let production = Piece::Name(&cycle.production);
    let space = Piece::Text(b" ");
    let occurrence = Piece::Name(&cycle.occurrence);
    let end = Piece::Text(b"\n");
    match &cycle.owner {
        None => put_pieces(err, &[words, production, space, occurrence, end]),
        Some(owner) => {
            let owner = Piece::Name(owner);
            let dot = Piece::Text(b".");
            put_pieces(
                err,
                &[words, production, space, owner, dot, occurrence, end],
            )
        }
    }
}

/// Prints the line of a fault. It takes no memory.
///
/// # Errors
///
/// `Failed` where the sink failed. A part of the line, from its front, may then have been printed.
pub fn put_line<E: Sink>(err: &mut E, failure: &Failure) -> Result<(), Failed>
    ensures { Gains (E.held err.old) (E.held err.new) (E.faults err.old) (E.faults err.new) result (line_of failure.now) }
{
    match failure {
        Failure::Usage => put_alone(err, USAGE),
        Failure::Read => put_alone(err, b"lrc: read fault"),
        Failure::Write => put_alone(err, b"lrc: write fault"),
        Failure::Text(fault) => put_text(err, fault),
        Failure::Accept(fault) => put_accept(err, fault),
        Failure::TooManyRows => put_of_job(err, b"too many rows"),
        Failure::NotOneSession => put_of_job(err, b"solo wants one session"),
        Failure::NotOrdered(cycle) => put_cycle(err, cycle),
        Failure::Memory => put_alone(err, b"lrc: no memory"),
    }
}
