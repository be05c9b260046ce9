// Numbers and words read from a slice of bytes.
#![tactic(auto)]

ghost use Rattle.std.specs.Prelude.{◌≡◌, ◌==◌, ◌≤◌, length, position};
ghost use Rattle.meaning.specs.Reading.{run_from, digits_of};
ghost use Rattle.text.specs.Words.{word_of};
ghost use Rattle.text.specs.Answers.{read_as, stopped_at, NumberRead};
ghost use Rattle.text.specs.Number.{run_stop, digits_stop};

use widths::Width;

// The place of the first byte b.
pub fn find(s: &[u8], b: u8) -> Option<usize>
    ensures { result ≡ position (λ x. x == b) s.now }
{
    s.iter().position(|x| *x == b)
}

// The digits of a number are 1 to 7.
const MOST_DIGITS: usize = 7;

// The value of at most that many digits, or the place where reading stopped.
fn digit_run(digits: &[u8]) -> Result<usize, usize>
    requires { length digits.now ≤ 7 }
    ensures { (read_as result ≡ run_from 0 digits.now) × (stopped_at (length digits.now) result ≡ run_stop digits.now) }
{
    let mut v = 0;
    for (i, b) in digits.iter().enumerate() {
        if !b.is_ascii_digit() {
            return Err(i);
        }
        v = v * 10 + usize::from(*b - b'0');
    }
    Ok(v)
}

// The digits of a number, with no leading zero except in 0 itself.
#[tactic(auto, using(crate::proofs::Runs::digit_rules), unfolding(crate::specs::Number::digits_stop, meaning::specs::Reading::digits_of))]
fn read_digits(digits: &[u8]) -> Result<usize, usize>
    ensures { (read_as result ≡ digits_of digits.now) × (stopped_at (length digits.now) result ≡ digits_stop digits.now) }
{
    match digits {
        [] => Err(0),
        _ if MOST_DIGITS < digits.len() => Err(MOST_DIGITS),
        [b'0', rest @ ..] if !rest.is_empty() => Err(1),
        _ => digit_run(digits),
    }
}

// A number of section 2, or the place where reading stopped.
#[tactic(auto, using(crate::proofs::Numbers::number_rules))]
pub fn read_number(field: &[u8]) -> Result<i32, usize>
    ensures { NumberRead field.now result }
{
    match field {
        [b'-', digits @ ..] => match read_digits(digits) {
            Ok(v) if v == 0 => Err(1),
            Ok(v) => Ok(-i32::of(v)),
            Err(place) => Err(place + 1),
        },
        _ => Ok(i32::of(read_digits(field)?)),
    }
}

// The word of a line. One that is none of the three is a kind of line too: it is refused only after its numbers.
#[derive(Clone, Copy, PartialEq, Eq)]
pub enum Word {
    Events,
    Rule,
    Wish,
    Other,
}

#[tactic(auto, using(crate::proofs::Sames::same_is), unfolding(crate::specs::Words::word_of))]
pub fn read_word(field: &[u8]) -> Word
    ensures { result ≡ word_of field.now }
{
    if field == b"events".as_slice() {
        Word::Events
    } else if field == b"rule".as_slice() {
        Word::Rule
    } else if field == b"wish".as_slice() {
        Word::Wish
    } else {
        Word::Other
    }
}
