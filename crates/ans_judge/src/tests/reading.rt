//! A reader of the tests' own: which token some bytes begin with. It shares no code with the
//! scanner. It sees all the bytes at once and keeps nothing.

use ans_model::fault::Cause;
use ans_model::kind::Kind;
use ans_model::limits::MAX_PARAMETERS;
use arrayvec::ArrayVec;

/// What bytes begin with.
#[derive(Drop)]
pub enum Front<'a> {
    /// This token, with the bytes after it.
    Token(Kind, &'a [u8]),
    /// No whole token: each byte belongs to a sequence that is not finished.
    Unfinished,
    /// A sequence that is refused for this cause.
    Refused(Cause),
}

/// Why no token is read.
#[derive(Drop)]
enum Stop {
    AtEnd,
    For(Cause),
}

/// A parameter of a sequence.
#[derive(Debug, Clone, Copy, PartialEq, Eq, Default)]
enum Member {
    #[default]
    Omitted,
    Number(u8),
    Text,
}

/// What the bytes begin with. There is at least one.
pub fn read_front(bytes: &[u8]) -> Front<'_> {
    match bytes.split_first() {
        None => Front::Unfinished,
        Some((0x1B, after)) => match sequence(after) {
            Ok((kind, rest)) => Front::Token(kind, rest),
            Err(Stop::AtEnd) => Front::Unfinished,
            Err(Stop::For(cause)) => Front::Refused(cause),
        },
        Some((byte, rest)) => Front::Token(kind_of_byte(*byte), rest),
    }
}

/// The token that a byte outside sequences is.
fn kind_of_byte(byte: u8) -> Kind {
    match byte {
        7 => Kind::Bell,
        8 => Kind::BackSpace,
        9 => Kind::Tab,
        10 => Kind::LineFeed,
        13 => Kind::CarriageReturn,
        _ => Kind::Glyph(byte),
    }
}

/// The token that the bytes after an ESC spell, with the bytes after it.
fn sequence(bytes: &[u8]) -> Result<(Kind, &[u8]), Stop> {
    let after = match bytes.split_first() {
        None => return Err(Stop::AtEnd),
        Some((b'[', after)) => after,
        Some(_) => return Err(Stop::For(Cause::BrokenSequence)),
    };
    let (marked, mut rest) = match after.split_first() {
        Some((b'=' | b'?', rest)) => (true, rest),
        _ => (false, after),
    };
    let mut members = ArrayVec::<Member, MAX_PARAMETERS>::new();
    for _ in 0..MAX_PARAMETERS {
        let (member, after_member) = read_member(rest)?;
        let _ = members.try_push(member);
        match after_member.split_first() {
            None => return Err(Stop::AtEnd),
            Some((b';', next)) => rest = next,
            Some((letter, next)) if letter.is_ascii_alphabetic() => {
                return match meaning(marked, &members, *letter) {
                    Ok(kind) => Ok((kind, next)),
                    Err(cause) => Err(Stop::For(cause)),
                };
            }
            Some(_) => return Err(Stop::For(Cause::BrokenSequence)),
        }
    }
    Err(Stop::For(Cause::TooManyParameters))
}

/// The member that the bytes begin with, with the bytes after it.
fn read_member(bytes: &[u8]) -> Result<(Member, &[u8]), Stop> {
    match bytes.split_first() {
        Some((quote, text)) if *quote == b'"' || *quote == b'\'' => after_text(*quote, text),
        Some((b'0'..=b'9', _)) => number(bytes),
        _ => Ok((Member::Omitted, bytes)),
    }
}

/// A string up to its quote, with the bytes after it.
fn after_text(quote: u8, text: &[u8]) -> Result<(Member, &[u8]), Stop> {
    for i in 0..text.len() {
        if text[i] == quote {
            return Ok((Member::Text, &text[i + 1..]));
        }
    }
    Err(Stop::AtEnd)
}

/// The number that the bytes begin with, with the bytes after it.
fn number(bytes: &[u8]) -> Result<(Member, &[u8]), Stop> {
    let mut value: u8 = 0;
    for i in 0..bytes.len() {
        let digit = match bytes[i] {
            b @ b'0'..=b'9' => b - b'0',
            _ => return Ok((Member::Number(value), &bytes[i..])),
        };
        match value
            .checked_mul(10)
            .and_then(|tens| tens.checked_add(digit))
        {
            Some(next) => value = next,
            None => return Err(Stop::For(Cause::NumberTooLarge)),
        }
    }
    Err(Stop::AtEnd)
}

/// What a mark, members and a letter mean. The lines are tried from the top.
fn meaning(marked: bool, members: &[Member], letter: u8) -> Result<Kind, Cause> {
    let list = match members {
        [Member::Omitted] => &[],
        _ => members,
    };
    let is_mode = letter == b'h' || letter == b'l';
    if !b"ABCDHfJKsumhlpn".contains(&letter) || marked && !is_mode {
        return Err(Cause::UnknownSequence);
    }
    if letter != b'p' && list.contains(&Member::Text) {
        return Err(Cause::WrongParameters);
    }
    match (letter, list) {
        (b'A', [] | [_]) => Ok(Kind::Up(count(list, 0))),
        (b'B', [] | [_]) => Ok(Kind::Down(count(list, 0))),
        (b'C', [] | [_]) => Ok(Kind::Forward(count(list, 0))),
        (b'D', [] | [_]) => Ok(Kind::Backward(count(list, 0))),
        (b'H' | b'f', [] | [_] | [_, _]) => Ok(Kind::Place(count(list, 0), count(list, 1))),
        (b'J', [Member::Number(2)]) => Ok(Kind::Clear),
        (b'K', [] | [Member::Number(0)]) => Ok(Kind::EraseLine),
        (b's', []) => Ok(Kind::Save),
        (b'u', []) => Ok(Kind::Restore),
        (b'm', _) => Ok(Kind::Colours(colours(members))),
        (b'h' | b'l', [Member::Number(7)]) if marked => Ok(Kind::Wrap(letter == b'h')),
        (b'h' | b'l', _) => Ok(Kind::Mode),
        (b'p', _) => Ok(Kind::Keys),
        (b'n', [Member::Number(6)]) => Ok(Kind::Ask),
        _ => Err(Cause::WrongParameters),
    }
}

/// A member as a count: 1 where it is missing, omitted or 0.
fn count(members: &[Member], i: usize) -> u8 {
    match members.get(i) {
        Some(Member::Number(n)) => (*n).max(1),
        _ => 1,
    }
}

/// The members as colours: an omitted one is 0.
fn colours(members: &[Member]) -> ArrayVec<u8, MAX_PARAMETERS> {
    let mut colours = ArrayVec::new();
    for member in members {
        let colour = match member {
            Member::Number(n) => *n,
            _ => 0,
        };
        let _ = colours.try_push(colour);
    }
    colours
}
