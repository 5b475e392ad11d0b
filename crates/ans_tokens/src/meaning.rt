//! What a sequence means, by its letter.

ghost use Rattle.std.specs.Prelude.{◌≡◌, ◌≢◌, ◌↔◌, IsTrue, ℕ, map, Ok, Err, MatchResult, IfErr, IfOk, true, false};
ghost use Rattle.ans_model.specs.Sequence.Spelling.{Number};
ghost use Rattle.ans_model.specs.Sequence.TokenKind.{TokenKind, EraseLine, Place};
ghost use Rattle.ans_model.specs.Sequence.Meaning.{
  meaning,
  move,
  place,
  colours,
  is_just,
  is_marked,
  only_if,
  wrap_or_mode,
};
ghost use Rattle.ans_model.specs.Inside.ShownKind.{shown_kind};
ghost use Rattle.ans_model.specs.declared.mark.Mark.TheVariants.{Unmarked};
ghost use Rattle.ans_tokens.specs.PlainSequence.{Means, TakesNumbersAlone, plain_sequence};

use crate::mark::has_mark;
use ans_model::fault::Cause;
use ans_model::kind::Kind;
use ans_model::limits::MAX_PARAMETERS;
use ans_model::mark::Mark;
use arrayvec::ArrayVec;

/// The distance of a move: of no number, and of 0, it is 1 (profile). Where there are more numbers
/// than one, the cause is `WrongParameters`.
pub fn distance(numbers: &[u8]) -> Result<u8, Cause>
    ensures { MatchResult result
        (λ n. (by : ℕ → TokenKind) → move by (map Number numbers.now) ≡ Ok (by n))
        (λ cause. (by : ℕ → TokenKind) → move by (map Number numbers.now) ≡ Err cause) }
{
    match numbers {
        [] => Ok(1),
        [n] => Ok((*n).max(1)),
        _ => Err(Cause::WrongParameters),
    }
}

/// The row and the column of a place, counted from 1: where one is missing, and of 0, it is 1
/// (profile). Where there are more numbers than two, the cause is `WrongParameters`.
pub fn place(numbers: &[u8]) -> Result<(u8, u8), Cause>
    ensures { MatchResult result
        (λ at. place (map Number numbers.now) ≡ Ok (Place at.0 at.1))
        (λ cause. place (map Number numbers.now) ≡ Err cause) }
{
    match numbers {
        [] => Ok((1, 1)),
        [row] => Ok(((*row).max(1), 1)),
        [row, column] => Ok(((*row).max(1), (*column).max(1))),
        _ => Err(Cause::WrongParameters),
    }
}

/// Whether the number is the only one.
pub fn is_just(n: u8, numbers: &[u8]) -> bool
    ensures { result ≡ is_just n (map Number numbers.now) }
{
    match numbers {
        [k] => *k == n,
        _ => false,
    }
}

/// The colours of a list, of which the empty one stands for a 0.
fn colours(mut numbers: ArrayVec<u8, MAX_PARAMETERS>) -> Kind
    ensures { shown_kind result ≡ colours (map Number numbers.items) }
{
    if numbers.is_empty() {
        numbers.push(0);
    }
    Kind::Colours(numbers)
}

fn only_if(taken: bool, kind: Kind) -> Result<Kind, Cause>
    ensures { Means result (only_if taken (shown_kind kind)) }
{
    if taken {
        Ok(kind)
    } else {
        Err(Cause::WrongParameters)
    }
}

/// The numbers of a sequence whose letter takes neither a mark nor a string.
fn plain_numbers(mark: Mark, numbers: &[u8], quoted: bool) -> Result<&[u8], Cause>
    ensures plain { IfOk result (λ alone. (alone.now ≡ numbers.now)
        × (is_marked mark ≡ false) × (quoted ≡ false)) }
    ensures refused { IfErr result (λ cause. (letter : ℕ) → TakesNumbersAlone letter
        → meaning (plain_sequence mark numbers.now quoted letter) ≡ Err cause) }
{
    if has_mark(mark) {
        return Err(Cause::UnknownSequence);
    }
    if quoted {
        return Err(Cause::WrongParameters);
    }
    Ok(numbers)
}

fn wrap_or_mode(mark: Mark, numbers: &[u8], quoted: bool, on: bool) -> Result<Kind, Cause>
    ensures meant { IfOk result (λ kind. (quoted ≡ false)
        × (wrap_or_mode (plain_sequence mark numbers.now false 0) on ≡ shown_kind kind)) }
    ensures refused { IfErr result (λ cause. (quoted ≡ true) × (cause ≡ Cause.WrongParameters)) }
{
    if quoted {
        return Err(Cause::WrongParameters);
    }
    if has_mark(mark) && is_just(7, numbers) {
        Ok(Kind::Wrap(on))
    } else {
        Ok(Kind::Mode)
    }
}

fn takes_numbers_alone(letter: u8) -> bool
    ensures { IsTrue result ↔ TakesNumbersAlone letter }
{
    matches!(
        letter,
        b'A'..=b'D' | b'H' | b'f' | b'J' | b'K' | b's' | b'u' | b'm' | b'n'
    )
}

/// The meaning of a letter that takes only numbers, with neither a mark nor a string: any letter but `m`. If it is
/// refused, the cause is `UnknownSequence` or `WrongParameters`.
#[inline(always)]
#[tactic(auto, using(crate::proofs::PlainSequences::no_string))]
pub(crate) fn letter_meant(letter: u8, numbers: &[u8]) -> Result<Kind, Cause>
    ensures meant { IfOk result (λ kind. meaning (plain_sequence Unmarked numbers.now false letter)
        ≡ Ok (shown_kind kind)) }
    ensures refused { IfErr result (λ cause. letter ≢ 0x6D → TakesNumbersAlone letter
        → meaning (plain_sequence Unmarked numbers.now false letter) ≡ Err cause) }
{
    match letter {
        b'A' => Ok(Kind::Up(distance(numbers)?)),
        b'B' => Ok(Kind::Down(distance(numbers)?)),
        b'C' => Ok(Kind::Forward(distance(numbers)?)),
        b'D' => Ok(Kind::Backward(distance(numbers)?)),
        b'H' | b'f' => {
            let (row, column) = place(numbers)?;
            Ok(Kind::Place(row, column))
        }
        b'J' => only_if(is_just(2, numbers), Kind::Clear),
        b'K' => only_if(numbers.is_empty() || is_just(0, numbers), Kind::EraseLine),
        b's' => only_if(numbers.is_empty(), Kind::Save),
        b'u' => only_if(numbers.is_empty(), Kind::Restore),
        b'n' => only_if(is_just(6, numbers), Kind::Ask),
        _ => Err(Cause::UnknownSequence),
    }
}

/// What a sequence means: its mark, a number for each member, whether a string was among them, and
/// its letter. Where it is refused, the cause is `UnknownSequence` or `WrongParameters`.
#[inline(always)]
#[tactic(auto, using(crate::proofs::PlainSequences::no_string))]
pub(crate) fn kind_meant(
    mark: Mark,
    numbers: ArrayVec<u8, MAX_PARAMETERS>,
    quoted: bool,
    letter: u8,
) -> Result<Kind, Cause>
    ensures { Means result (meaning (plain_sequence mark numbers.items quoted letter)) }
{
    let plain = plain_numbers(mark, &numbers, quoted);
    match letter {
        b'm' => {
            plain?;
            Ok(colours(numbers))
        }
        b'h' => wrap_or_mode(mark, &numbers, quoted, true),
        b'l' => wrap_or_mode(mark, &numbers, quoted, false),
        b'p' if !has_mark(mark) => Ok(Kind::Keys),
        _ if takes_numbers_alone(letter) => letter_meant(letter, plain?),
        _ => Err(Cause::UnknownSequence),
    }
}
