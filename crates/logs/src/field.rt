// Fields: what each kind of field may hold, and how it is read.
ghost use Rattle.std.specs.Prelude.{◌≡◌, ◌-◌, ◌<◌, ◌≤◌, false, length, IfSome, MatchOption, slice_index};
ghost use Rattle.std.specs.Char.{is_ascii_digit};
ghost use Rattle.logs.specs.Numerals.{most_digits};
ghost use Rattle.logs.specs.Tokens.{front};
ghost use Rattle.logs.specs.Fields.{spells, admits};
ghost use Rattle.logs.specs.Values.{Along, Said, Closed};

use crate::parsed::Parsed;
use crate::token::is_end;
use rankings::MOST_WEIGHT;

// k and the bounds of a region are read as measures are.
#[derive(Clone, Copy)]
pub(crate) enum FieldKind {
    Letter,
    Number,
    Measure,
    Weight,
}

// The most digits of a number.
const MOST_DIGITS: usize = 10;

// The letters of the two rankings. A letter stands among the numbers of its line as its byte; an enum of the two would be
// turned into a number and back.
pub(crate) const SUM_LETTER: u8 = b'S';

const LARGEST_LETTER: u8 = b'W';

// The digit that the byte is, if it is one: a single test tells. Inline, since the walk of a line is hot.
#[inline(always)]
fn digit_of(b: u8) -> Option<u32>
    ensures { MatchOption result (is_ascii_digit b ≡ false) (λ digit. (48 ≤ b) × (b ≤ 57) × (digit ≡ b - 48)) }
{
    let digit = (b as u32).wrapping_sub(48);
    if digit <= 9 { Some(digit) } else { None }
}

// Digits, as a number, and how many they are.
#[derive(Clone, Copy)]
struct Digits {
    number: u64,
    len: usize,
}

// The digits at the front of the text, as far as they go, and no more than a number has. The bytes are
// walked once, by a loop: it ends at the first other byte, and a chain would count and add apart.
fn read_digits(text: &[u8]) -> Digits
    ensures read { Along text.now result.number result.len }
    ensures most { result.len ≤ most_digits }
    ensures stops { result.len < most_digits → result.len < length text.now → is_ascii_digit (slice_index text.now result.len) ≡ false }
{
    let most = MOST_DIGITS.min(text.len());
    let mut number = 0;
    for (i, b) in text[..most].iter().enumerate() {
        let Some(digit) = digit_of(*b) else {
            return Digits { number, len: i };
        };
        number = 10 * number + digit as u64;
    }
    Digits { number, len: most }
}

// The number at the front of the text, of 1 to 10 digits, with no 0 in front of another digit.
fn read_number(text: &[u8]) -> Option<Parsed<'_, u64>>
    ensures { MatchOption result (spells FieldKind.Number (front text.now) ≡ false) (λ v. Said FieldKind.Number text.now v.value v.rest.now) }
{
    let Digits { number, len } = read_digits(text);
    let rest = &text[len..];
    if len == 0 || !is_end(rest) {
        return None;
    }
    if text[0] == b'0' && len > 1 {
        return None;
    }
    Some(Parsed {
        value: number,
        rest,
    })
}

// The letter at the front of the text.
fn read_letter(text: &[u8]) -> Option<Parsed<'_, u64>>
    ensures { MatchOption result (spells FieldKind.Letter (front text.now) ≡ false) (λ v. Said FieldKind.Letter text.now v.value v.rest.now) }
{
    match text {
        [letter, rest @ ..] if FieldKind::Letter.admits(*letter as u64) && is_end(rest) => {
            Some(Parsed {
                value: *letter as u64,
                rest,
            })
        }
        _ => None,
    }
}

impl FieldKind {
    // What the field at the front of the text says, and what is left of the text. None where the field is not written as
    // its kind asks.
    pub(crate) fn read<'a>(self, text: &'a [u8]) -> Option<Parsed<'a, u64>>
        ensures { MatchOption result (spells self (front text.now) ≡ false) (λ v. Said self text.now v.value v.rest.now) }
    {
        match self {
            FieldKind::Letter => read_letter(text),
            FieldKind::Number | FieldKind::Measure | FieldKind::Weight => read_number(text),
        }
    }

    // Takes a field off the front of the text, with the byte behind it. None where the field is not written as its kind
    // asks, its number is out of range, or the byte is not the one asked for. Inline, since the walk of a line is hot.
    #[inline(always)]
    pub(crate) fn take<'a>(self, text: &'a [u8], close: u8) -> Option<Parsed<'a, u64>>
        ensures { IfSome result (λ v. Closed self text.now close v.value v.rest.now) }
    {
        let field = self.read(text)?;
        match field.rest {
            [b, rest @ ..] if *b == close && self.admits(field.value) => Some(Parsed {
                value: field.value,
                rest,
            }),
            _ => None,
        }
    }

    // The number is in range for the kind.
    pub(crate) fn admits(self, n: u64) -> bool
        ensures { result ≡ admits self n }
    {
        match self {
            FieldKind::Letter => n == SUM_LETTER as u64 || n == LARGEST_LETTER as u64,
            FieldKind::Number => 0 < n && n <= u32::MAX as u64,
            FieldKind::Measure => n <= u16::MAX as u64,
            FieldKind::Weight => n <= MOST_WEIGHT as u64,
        }
    }
}
