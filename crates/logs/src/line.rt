// Lines: found at the front of a text, and read field by field.
ghost use Rattle.std.specs.Prelude.{◌≡◌, ℕ, ◌+◌, ◌<◌, ◌≤◌, length, drop, IfSome, None, Some, MatchOption, MatchResult};
ghost use Rattle.stations.specs.declared.fault.Code.TheVariants.{BadField, OutOfRange};
ghost use Rattle.stations.specs.Faults.{fault, verdict};
ghost use Rattle.logs.specs.Pieces.{line_end, lines_of, fields_of};
ghost use Rattle.logs.specs.Fields.{spells, admits};
ghost use Rattle.logs.specs.Checks.{field_fault, line_fault, numbers_of};
ghost use Rattle.logs.specs.Lines.{Free, Found, Unended};
ghost use Rattle.logs.specs.Walks.{Taken, first_fault};

use crate::field::FieldKind;
use crate::parsed::Parsed;
use crate::token::{Token, next_token};
use stations::{Code, Fault};

// A kind of line: the kinds of its fields.
#[derive(Clone, Copy)]
pub(crate) struct LineKind<const N: usize> {
    pub(crate) fields: [FieldKind; N],
    ghost few: { N ≤ 14 },
}

// The ranking's letter, k, the region's lows and highs, the weights.
pub(crate) const QUESTION_LINE: LineKind<14> = LineKind {
    fields: [
        FieldKind::Letter,
        FieldKind::Measure,
        FieldKind::Measure,
        FieldKind::Measure,
        FieldKind::Measure,
        FieldKind::Measure,
        FieldKind::Measure,
        FieldKind::Measure,
        FieldKind::Measure,
        FieldKind::Measure,
        FieldKind::Weight,
        FieldKind::Weight,
        FieldKind::Weight,
        FieldKind::Weight,
    ],
};

// A station's number and its measures.
pub(crate) const STATION_LINE: LineKind<5> = LineKind {
    fields: [
        FieldKind::Number,
        FieldKind::Measure,
        FieldKind::Measure,
        FieldKind::Measure,
        FieldKind::Measure,
    ],
};

// A line without its end, how many fields it has, and what is left behind its end.
#[derive(Clone, Copy)]
struct Line<'a> {
    bytes: &'a [u8],
    fields: usize,
    rest: &'a [u8],
}

// The line at the front of the text, cut by its tokens in one walk. None where no line end follows. Never inlined, so that both
// kinds of line share it.
#[inline(never)]
fn split_line(text: &[u8]) -> Option<Line<'_>>
    ensures { MatchOption result (Unended text.now) (λ line. (Found text.now line.bytes.now line.rest.now) × (line.fields ≡ length (fields_of line.bytes.now))) }
{
    let mut at = 0;
    let mut commas = 0;
    while let Some(token) = next_token(text, at) {
        match token {
            Token::Field(bytes, _) => at += bytes.len(),
            Token::Comma(_) => {
                commas += 1;
                at += 1;
            }
            Token::LineEnd(end) => {
                return Some(Line {
                    bytes: &text[..end],
                    fields: commas + 1,
                    rest: &text[end + 1..],
                });
            }
        }
    }
    None
}

// What is left behind the comma that comes first, or nothing behind the last field.
fn behind_comma(rest: &[u8]) -> &[u8]
    ensures { result.now ≡ drop 1 rest.now }
{
    match rest {
        [_, others @ ..] => others,
        [] => rest,
    }
}

// A line goes by its number in refusals alone, so the number is handed on beside the text and is no part of a line.
impl<const N: usize> LineKind<N> {
    // Why the field at a place, from 0, is refused. In a refusal fields are counted from 1.
    fn field_fault(&self, code: Code, line: u32, place: usize) -> Fault
        requires { place < N }
        ensures { result ≡ fault code line (place + 1) }
    {
        code.at(line, place as u32 + 1)
    }

    // What each field says. The line has as many fields as there are kinds.
    fn read_fields(&self, number: u32, line: &[u8]) -> Result<[u64; N], Fault>
        requires free { Free line_end line.now }
        requires fields { length (fields_of line.now) ≡ N }
        ensures { MatchResult result (λ ns. (field_fault spells BadField number 1 self.now.fields (fields_of line.now) ≡ None) × (ns ≡ numbers_of self.now.fields line.now)) (λ f. field_fault spells BadField number 1 self.now.fields (fields_of line.now) ≡ Some f) }
    {
        let mut numbers = [0; N];
        let mut rest = line;
        // By place, not zipped with `iter_mut`: a proof does not know what such a walk leaves in the numbers.
        for (place, kind) in self.fields.iter().enumerate() {
            let Some(field) = kind.read(rest) else {
                return Err(self.field_fault(Code::BadField, number, place));
            };
            numbers[place] = field.value;
            rest = behind_comma(field.rest);
        }
        Ok(numbers)
    }

    // Refuses the first number that is out of the range of its kind.
    fn check_ranges(&self, line: u32, numbers: &[u64; N]) -> Result<(), Fault>
        ensures { result ≡ verdict (field_fault admits OutOfRange line 1 self.now.fields numbers.now) }
    {
        let bad = self
            .fields
            .iter()
            .zip(numbers)
            .position(|(kind, n)| !kind.admits(*n));
        match bad {
            Some(place) => Err(self.field_fault(Code::OutOfRange, line, place)),
            None => Ok(()),
        }
    }

    // Takes the line off the front of the text in one walk. None where it is not as the kinds ask.
    fn walk_line<'a>(&self, text: &'a [u8]) -> Option<Parsed<'a, [u64; N]>>
        ensures { (number : ℕ) → IfSome result (λ line. Taken number self.now.fields text.now line.value line.rest.now) }
    {
        let (last, others) = self.fields.split_last()?;
        let mut numbers = [0; N];
        let mut rest = text;
        // By place, as in `read_fields`.
        for (place, kind) in others.iter().enumerate() {
            let field = kind.take(rest, b',')?;
            numbers[place] = field.value;
            rest = field.rest;
        }
        let field = last.take(rest, b'\n')?;
        numbers[others.len()] = field.value;
        Some(Parsed {
            value: numbers,
            rest: field.rest,
        })
    }

    // Looks for the first fault in checking order: how many fields, then how each is written, then what each says. Never
    // inlined, so that it costs the walk no registers.
    #[cold]
    #[inline(never)]
    fn read_line<'a>(&self, number: u32, text: &'a [u8]) -> Result<Parsed<'a, [u64; N]>, Fault>
        ensures { MatchResult result (λ line. Taken number self.now.fields text.now line.value line.rest.now) (λ f. first_fault number self.now.fields (lines_of text.now) ≡ Some f) }
    {
        let Some(line) = split_line(text) else {
            return Err(Code::BadField.at(number, 0));
        };
        if line.fields != N {
            return Err(Code::BadField.at(number, 0));
        }
        let numbers = self.read_fields(number, line.bytes)?;
        self.check_ranges(number, &numbers)?;
        Ok(Parsed {
            value: numbers,
            rest: line.rest,
        })
    }

    // Takes the line off the front of the text: what its fields say, or its first fault.
    pub(crate) fn take_line<'a>(
        &self,
        number: u32,
        text: &'a [u8],
    ) -> Result<Parsed<'a, [u64; N]>, Fault>
        ensures { MatchResult result (λ line. Taken number self.now.fields text.now line.value line.rest.now) (λ f. first_fault number self.now.fields (lines_of text.now) ≡ Some f) }
    {
        match self.walk_line(text) {
            Some(line) => Ok(line),
            None => self.read_line(number, text),
        }
    }
}
