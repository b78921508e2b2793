//! The two lower levels of the sheet reader: marks (which bytes a sheet may hold, and its lines) and forms (a line as a lease).
//! A form is read piece by piece: a call answers a piece's value and the text behind it. Which line it is, only the level above knows.
//! Main promise: a line is read as a lease exactly if it is that lease written out; all else is refused as a broken form.
#![tactic(auto)]

ghost use Rattle.std.specs.Prelude.{◌≡◌, ◌+◌, ◌*◌, ◌<◌, ◌≤◌, ◌==◌, length, position, Some, None, is_ok, is_some, IfOk, IfSome, MatchOption};
ghost use Rattle.form.specs.Cut.{cut_line, ended_text};
ghost use Rattle.form.specs.Form.{FormExact, extended_number, first_digit, group, is_closing_bracket, number, opening, rest_after};
ghost use Rattle.form.specs.Marks.{all_marks, first_line, mark_of, stops_line};
ghost use Rattle.form.specs.Reads.{line_by, Reads};
ghost use Rattle.std.specs.Option.{option_copied};

use refusal::{Level, Refusal, SheetRefusal};

/// The refusal of the mark level: a byte is no mark.
#[derive(Clone, Copy, Debug, PartialEq, Eq)]
pub struct MarkError;

/// The refusal of the form level: a text has not the form that is read.
#[derive(Clone, Copy, Debug, PartialEq, Eq)]
pub struct FormError;

/// Why a line is refused: the cause, and the level that found it.
#[derive(Clone, Copy, Debug, PartialEq, Eq)]
pub struct SheetFault {
    /// Why the line is refused.
    pub cause: Refusal,
    /// The level that found it.
    pub level: Level,
}

impl SheetFault {
    /// The refusal of the sheet whose line it is, counted from 1.
    pub fn at(self, line: usize) -> SheetRefusal
        ensures { result ≡ record { cause = self.cause; level = self.level; line = line } }
    {
        SheetRefusal {
            cause: self.cause,
            level: self.level,
            line,
        }
    }
}

impl From<MarkError> for SheetFault {
    ghost use Rattle.std.specs.Prelude.{◌≡◌};
    ghost use Rattle.refusal.specs.declared.Refusal.TheVariants.{MarkNotAllowed};
    ghost use Rattle.refusal.specs.declared.Level.TheVariants.{Marks};

    ghost from_gives = { λ _ fault. fault ≡ record { cause = MarkNotAllowed; level = Marks } };

    fn from(_error: MarkError) -> SheetFault {
        SheetFault {
            cause: Refusal::MarkNotAllowed,
            level: Level::Marks,
        }
    }
}

impl From<FormError> for SheetFault {
    ghost use Rattle.std.specs.Prelude.{◌≡◌};
    ghost use Rattle.refusal.specs.declared.Refusal.TheVariants.{FormBroken};
    ghost use Rattle.refusal.specs.declared.Level.TheVariants.{Forms};

    ghost from_gives = { λ _ fault. fault ≡ record { cause = FormBroken; level = Forms } };

    fn from(error: FormError) -> SheetFault {
        SheetFault {
            cause: Refusal::from(error),
            level: Level::Forms,
        }
    }
}

impl From<FormError> for Refusal {
    ghost use Rattle.std.specs.Prelude.{◌≡◌};
    ghost use Rattle.refusal.specs.declared.Refusal.TheVariants.{FormBroken};

    ghost from_gives = { λ _ cause. cause ≡ FormBroken };

    fn from(_error: FormError) -> Refusal {
        Refusal::FormBroken
    }
}

/// A kind of byte that a sheet may hold.
#[derive(Clone, Copy, Debug, PartialEq, Eq)]
pub enum Mark {
    /// An opening bracket.
    Open,
    /// A closing bracket.
    Close,
    /// A space.
    Blank,
    /// A decimal digit.
    Digit,
    /// A small letter.
    Letter,
    /// A newline.
    LineEnd,
}

impl Mark {
    /// Which mark a byte is; none for a byte that a sheet may not hold.
    // by literals and ranges, so that the match reads as the table of the marks; not `TryFrom`, since it is a line with such a byte that is
    // refused
    pub fn of(byte: u8) -> Option<Mark>
        ensures { result ≡ mark_of byte }
    {
        match byte {
            b'(' => Some(Mark::Open),
            b')' => Some(Mark::Close),
            b' ' => Some(Mark::Blank),
            b'0'..=b'9' => Some(Mark::Digit),
            b'a'..=b'z' => Some(Mark::Letter),
            b'\n' => Some(Mark::LineEnd),
            _ => None,
        }
    }
}

/// A group of slots as a line writes it.
#[derive(Clone, Copy, Debug, PartialEq, Eq)]
pub struct Group {
    /// The number of the first slot as it is written, 0 to 999; whether it is a slot's, the level above says.
    pub first: u16,
    /// The number of the last slot, likewise.
    pub last: u16,
}

// The place of the first newline.
fn newline(text: &[u8]) -> Option<usize>
    ensures value { result ≡ position (λ byte. byte == 10) text.now }
    ensures within { IfSome result (λ place. place < length text.now) }
{
    text.iter().position(|byte| *byte == b'\n')
}

/// The text up to its first newline, which is included, and what follows.
#[tactic(auto, using(crate::proofs::Cuts::cuts))]
pub fn cut_line(text: &[u8]) -> (&[u8], &[u8])
    ensures { (result.0.now, result.1.now) ≡ cut_line text.now }
{
    // by match, here and in `extended`: each arm answers a pair, and `map_or` would have one of them first and the other in a closure
    match newline(text) {
        Some(end) => (&text[..end + 1], &text[end + 1..]),
        None => (text, &[]),
    }
}

/// A line's text without the newline that ends it, if one does.
#[tactic(auto, using(crate::proofs::Cuts::text_ended))]
pub fn line_text(line: &[u8]) -> Option<&[u8]>
    ensures { option_copied result ≡ ended_text line.now }
{
    line.strip_suffix(b"\n")
}

// Whether the reading of a line stops at a byte: at a newline, and at a byte that is no mark.
fn stops(byte: u8) -> bool
    ensures { result ≡ stops_line byte }
{
    matches!(Mark::of(byte), None | Some(Mark::LineEnd))
}

// The place of the first byte at which the reading of a line stops.
fn line_stop(text: &[u8]) -> Option<usize>
    ensures value { result ≡ position stops_line text.now }
    ensures within { IfSome result (λ place. place < length text.now) }
{
    text.iter().position(|byte| stops(*byte))
}

/// The first line of what is left of a sheet, without its newline, and what follows the line; no line where no newline ends it.
#[tactic(auto, using(crate::proofs::Lines::first_stops))]
pub fn first_line(sheet: &[u8]) -> Result<(Option<&[u8]>, &[u8]), MarkError>
    ensures line { IfOk result (λ p. (line_by sheet.now (option_copied p.0), p.1.now) ≡ first_line sheet.now) }
    ensures marks { is_ok result ≡ all_marks (first_line sheet.now).0.text }
{
    // not by `cut_line`: its search for the newline goes on behind a byte that is no mark, however long the text is
    match line_stop(sheet) {
        Some(end) if sheet[end] == b'\n' => Ok((Some(&sheet[..end]), &sheet[end + 1..])),
        Some(_) => Err(MarkError),
        None => Ok((None, &[])),
    }
}

/// What follows a word.
pub fn word<'a>(text: &'a [u8], word: &[u8]) -> Result<&'a [u8], FormError>
    ensures { Reads (λ rest. rest.now) result (rest_after word.now text.now) }
{
    text.strip_prefix(word).ok_or(FormError)
}

// The decimal digit that the text begins with.
fn digit(text: &[u8]) -> Option<(u16, &[u8])>
    ensures { MatchOption result (first_digit text.now ≡ None) (λ p. (first_digit text.now ≡ Some (p.0, p.1.now)) × (p.0 < 10)) }
{
    match text {
        [digit @ b'0'..=b'9', rest @ ..] => Some((u16::from(*digit - b'0'), rest)),
        _ => None,
    }
}

// A number with one more digit, if one follows it.
fn extended(value: u16, text: &[u8]) -> (u16, &[u8])
    requires { value < 1000 }
    ensures { ((result.0, result.1.now) ≡ extended_number (value, text.now)) × (result.0 < 10 * value + 10) }
{
    match digit(text) {
        Some((digit, rest)) => (10 * value + digit, rest),
        None => (value, text),
    }
}

/// A number of one to three decimal digits with no needless zero, and what follows it.
pub fn number(text: &[u8]) -> Result<(u16, &[u8]), FormError>
    ensures value { Reads (λ p. (p.0, p.1.now)) result (number text.now) }
    ensures high { IfOk result (λ p. p.0 < 1000) }
{
    let (first, rest) = digit(text).ok_or(FormError)?;
    if first == 0 {
        return Ok((0, rest));
    }
    let (value, rest) = extended(first, rest);
    Ok(extended(value, rest))
}

/// A line's opening, up to the client's number, and what follows it.
pub fn read_client(text: &[u8]) -> Result<(u16, &[u8]), FormError>
    ensures value { Reads (λ p. (p.0, p.1.now)) result (opening text.now) }
    ensures high { IfOk result (λ p. p.0 < 1000) }
{
    number(word(text, b"(client ")?)
}

/// A group of slots, with the blank in front of it, and what follows it.
pub fn read_group(text: &[u8]) -> Result<(Group, &[u8]), FormError>
    ensures { Reads (λ p. (record { first = p.0.first; last = p.0.last }, p.1.now)) result (group text.now) }
{
    let (first, text) = number(word(text, b" (slots ")?)?;
    let (last, text) = number(word(text, b" ")?)?;
    let text = word(text, b")")?;
    Ok((Group { first, last }, text))
}

/// Whether just the closing bracket is left.
pub fn closes(text: &[u8]) -> bool
    ensures { result ≡ is_closing_bracket text.now }
{
    let bracket: &[u8] = b")";
    text == bracket
}

/// A text is read as a lease exactly if it is that lease written out.
pub fn forms_are_exact()
    ensures { FormExact }
{}
