ghost use Rattle.std.specs.Prelude.{◌≡◌, [], ◌∷◌, false, MatchOption, IfOk, IfErr};
ghost use Rattle.lrc_parse.specs.Kinds.{starts};
ghost use Rattle.lrc_parse.specs.Reading.{stops};
ghost use Rattle.lrc_parse.specs.Sums.{Gives, IsFault, IsSum, cause_of, kind_of, reads_atom_at, reads_brackets, reads_inside, reads_sum};

use crate::sums::Sign;

/// Why the reading of a sum stops.
#[derive(Debug, Clone, Copy)]
pub enum Why {
    /// Another sign, or the end, is expected.
    Expected,
    /// The next sign begins a sum that would be nested too deep.
    TooDeep,
}

/// Why the reading of a sum stops, and the signs that are left there.
#[derive(Drop)]
pub struct Stop<'a> {
    pub why: Why,
    pub left: &'a [Sign],
}

/// The value modulo 256 of signs that are a sum whose brackets stand at most `depth` deep within one
/// another.
///
/// # Errors
/// The first sign with which no sum begins, or the end where none has ended; or the first sign with
/// which only sums begin whose brackets stand deeper.
#[tactic(auto, using(crate::proofs::SumVerdict::sum_verdict))]
pub fn value_of_sum(signs: &[Sign], depth: u32) -> Result<u8, Stop<'_>>
    ensures value { IfOk result (λ x. IsSum depth signs.now x) }
    ensures fault { IfErr result (λ s. IsFault depth (cause_of s.why) signs.now s.left.now) }
{
    let (value, left) = read_sum(signs, depth)?;
    if left.is_empty() {
        Ok(value)
    } else {
        Err(Stop {
            why: Why::Expected,
            left,
        })
    }
}

/// Reads a sum whose brackets stand at most `depth` deep within one another: its value modulo 256
/// and the signs behind it.
///
/// # Errors
/// A stop, where another sign is expected or a bracket would stand too deep.
#[cycle(sum)]
#[tactic(auto, using(crate::proofs::SumSteps::sum_steps, crate::proofs::SumProofs::atom_shorter))]
pub fn read_sum(signs: &[Sign], depth: u32) -> Result<(u8, &[Sign]), Stop<'_>>
    ensures { Gives (reads_sum depth signs.now) result }
{
    let (mut total, mut rest) = read_atom(signs, depth)?;
    while let Some(behind) = behind_plus(rest) {
        let (next, left) = read_atom(behind, depth)?;
        total = total.wrapping_add(next);
        rest = left;
    }
    Ok((total, rest))
}

#[cycle(sum)]
#[tactic(auto, using(crate::proofs::SumSteps::sum_steps))]
fn read_atom(signs: &[Sign], depth: u32) -> Result<(u8, &[Sign]), Stop<'_>>
    ensures { Gives (reads_atom_at depth signs.now) result }
{
    match next_sign(signs) {
        Some((Sign::Number(number), rest)) => Ok((number, rest)),
        Some((Sign::Open, rest)) => read_brackets(rest, depth),
        _ => Err(Stop {
            why: Why::Expected,
            left: signs,
        }),
    }
}

/// What stands in brackets, whose opening one was read.
#[cycle(sum)]
#[tactic(auto, using(crate::proofs::SumSteps::sum_steps))]
fn read_brackets(signs: &[Sign], depth: u32) -> Result<(u8, &[Sign]), Stop<'_>>
    ensures { Gives (reads_brackets depth signs.now) result }
{
    if depth == 0 {
        return Err(no_room(signs));
    }
    let (value, left) = read_sum(signs, depth - 1)?;
    match next_sign(left) {
        Some((Sign::Close, behind)) => Ok((value, behind)),
        _ => Err(Stop {
            why: Why::Expected,
            left,
        }),
    }
}

/// The first sign and those behind it.
fn next_sign(signs: &[Sign]) -> Option<(Sign, &[Sign])>
    ensures { MatchOption result (signs.now ≡ []) (λ p. signs.now ≡ p.0 ∷ p.1.now) }
{
    let (first, rest) = signs.split_first()?;
    Some((*first, rest))
}

/// The signs behind a plus, if one is first.
fn behind_plus(signs: &[Sign]) -> Option<&[Sign]>
    ensures { MatchOption result (starts kind_of (1 ∷ []) signs.now ≡ false) (λ behind. signs.now ≡ Sign.Plus ∷ behind.now) }
{
    match next_sign(signs) {
        Some((Sign::Plus, behind)) => Some(behind),
        _ => None,
    }
}

/// What is wrong with these signs where nothing more may stand in brackets.
#[tactic(auto, using(crate::proofs::SumSteps::sum_steps, crate::proofs::SumProofs::atom_shorter))]
fn no_room(signs: &[Sign]) -> Stop<'_>
    ensures { reads_inside 0 signs.now ≡ stops (cause_of result.why) result.left.now }
{
    let why = match signs {
        [Sign::Number(_) | Sign::Open, ..] => Why::TooDeep,
        _ => Why::Expected,
    };
    Stop { why, left: signs }
}
