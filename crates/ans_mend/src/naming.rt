//! One colour sequence that names the colours after its last 0.

ghost use Rattle.std.specs.Prelude.{◌≡◌, ◌+◌, ◌-◌, ◌≤◌, ◌<◌, ◌++◌, length, take, drop, false};
ghost use Rattle.ans_model.specs.Bytes.{longest_file};
ghost use Rattle.ans_players.specs.Names.{are_both};
ghost use Rattle.ans_kinds.specs.NamesShown.{shown_names};
ghost use Rattle.ans_mend.specs.NamedColours.{count_to_zero, ends_number, missing_numbers, named_text, put_by};
ghost use Rattle.ans_mend.specs.NamedColours.{through_numbers, way_of};

use ans_kinds::{Names, omits_number};

/// Where the names of a sequence are: in it, in one after it, or in one between it and what is left of it.
#[derive(Clone, Copy)]
pub enum Way {
    Within,
    After,
    Between,
}

/// How a sequence names colours. Its places are offsets in the sequence, in bytes.
#[derive(Clone, Copy)]
pub(crate) struct Naming {
    /// After its last 0.
    pub(crate) zero: usize,
    /// Where what stays after the names begins.
    pub(crate) rest: usize,
    pub(crate) put: &'static [u8],
}

/// The most bytes of a sequence that ansilove takes for one: 14 after ESC and `[`.
const LONGEST_SEQUENCE: usize = 16;

/// How many numbers there are up to the last 0.
pub(crate) fn count_to_zero(numbers: &[u8]) -> usize
    ensures { result ≡ count_to_zero numbers.now }
{
    let mut count = numbers.len();
    'numbers: while count > 0 && numbers[count - 1] != 0 {
        count -= 1;
    }
    count
}

fn ends_number(byte: u8) -> bool
    ensures { result ≡ ends_number byte }
{
    byte == b';' || byte == b'm'
}

/// How many bytes of a sequence there are up to and with that many numbers.
fn length_through(text: &[u8], count: usize) -> usize
    ensures length { result ≡ length (through_numbers count text.now) }
    ensures text { take result text.now ≡ through_numbers count text.now }
    ensures within { result ≤ length text.now }
{
    let mut left = count;
    let mut index = 0;
    'bytes: while index < text.len() {
        if ends_number(text[index]) {
            if left <= 1 {
                break;
            }
            left -= 1;
        }
        index += 1;
    }
    index
}

/// How many bytes the missing numbers have.
fn count_missing(named: Names) -> usize
    requires { are_both (shown_names named) ≡ false }
    ensures { result ≡ length (missing_numbers (shown_names named)) }
{
    if named.foreground || named.background {
        2
    } else {
        5
    }
}

fn way_of(text: &[u8], zero: usize, named: Names) -> Way
    requires missing { are_both (shown_names named) ≡ false }
    requires within { zero ≤ length text.now }
    requires limit { length text.now ≤ longest_file }
    ensures { result ≡ way_of (missing_numbers (shown_names named)) (take zero text.now) (drop zero text.now) }
{
    if !omits_number(text) && text.len() + 1 + count_missing(named) <= LONGEST_SEQUENCE {
        Way::Within
    } else if text.len() - zero <= 1 {
        Way::After
    } else {
        Way::Between
    }
}

fn text_put(way: Way, named: Names) -> &'static [u8]
    requires { are_both (shown_names named) ≡ false }
    ensures { result.now ≡ put_by way (missing_numbers (shown_names named)) }
{
    match (way, named.foreground, named.background) {
        (Way::Within, false, false) => b";37;40",
        (Way::Within, false, true) => b";37",
        (Way::Within, true, _) => b";40",
        (Way::After, false, false) => b"m\x1b[37;40",
        (Way::After, false, true) => b"m\x1b[37",
        (Way::After, true, _) => b"m\x1b[40",
        (Way::Between, false, false) => b"m\x1b[37;40m\x1b[",
        (Way::Between, false, true) => b"m\x1b[37m\x1b[",
        (Way::Between, true, _) => b"m\x1b[40m\x1b[",
    }
}

/// How a sequence with that many numbers up to its last 0 names the colours that are not named after it.
pub(crate) fn naming_of(text: &[u8], count: usize, named: Names) -> Naming
    requires missing { are_both (shown_names named) ≡ false }
    requires limit { length text.now ≤ longest_file }
    ensures order { result.zero ≤ result.rest }
    ensures within { result.rest ≤ length text.now }
    ensures few { length result.put.now ≤ 12 }
    ensures more { result.rest < result.zero + length result.put.now }
    ensures text { named_text (missing_numbers (shown_names named)) (through_numbers count text.now)
        (drop (length (through_numbers count text.now)) text.now)
        ≡ take result.zero text.now ++ (result.put.now ++ drop result.rest text.now) }
{
    let zero = length_through(text, count);
    let way = way_of(text, zero, named);
    let rest = match way {
        Way::Between => zero + 1,
        _ => zero,
    };
    Naming {
        zero,
        rest,
        put: text_put(way, named),
    }
}
