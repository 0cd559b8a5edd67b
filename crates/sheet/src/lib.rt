// Sheets: texts of many declarations, a line each. The lines are read twice: once to see that each reads, how long the records are and that none
// repeats an earlier one, and once more to write; so a refusal leaves the lent buffer as it was, and no scratch holds the whole sheet.
#![tactic(auto)]

ghost use Rattle.std.specs.Prelude.{◌≡◌, ◌==◌, ◌≤◌, length, MatchResult};
ghost use Rattle.std.specs.List.{list_any};
ghost use Rattle.model.specs.Answer.{said, outcome, after};
ghost use Rattle.model.specs.Sheet.{line_feed, is_blank_line, sheet_output};
ghost use Rattle.sheet.specs.Lines.{line_length, SameLine, LineIs, AskedAt, LineRepeats, AskedRepeat, RepeatIs, AskedCount, CountIs, AskedLine, LineTaken, SurveyIs, LineWritten, LinesFit, LinesWritten, LinesRead, JudgeEnds, SheetEnds};

use layout::HEAD;
use model::{Answer, Call, Refusal, Refused};
use repeat::Notes;

// "text over 65,536 bytes"
const LONGEST_SHEET: usize = 65536;

// "The 40,960 bytes bind each declaration"
const LONGEST_RECORD: usize = 40960;

// The canonical text of a line has fewer bytes than twice the longest line.
const LONGEST_PRINTED: usize = 8192;

// How many bytes are looked at in one step for a line feed.
const BLOCK: usize = 16;

// Whether a line feed is among some bytes: no early exit, so that several are looked at in one step.
fn has_feed(t: &[u8]) -> bool
    ensures { result ≡ list_any (λ c. c == line_feed) t.now }
{
    t.iter().fold(false, |found, c| found | (*c == b'\n'))
}

// What is left of a text behind blocks without a line feed: a loop over what is left.
#[tactic(auto, using(crate::proofs::Feeds::passing))]
fn pass_blocks(text: &[u8]) -> &[u8]
    ensures { SameLine text.now result.now }
{
    let mut left = text;
    while BLOCK <= left.len() {
        if has_feed(&left[..BLOCK]) {
            return left;
        }
        left = &left[BLOCK..];
    }
    left
}

// The length of the line that a text begins with: blocks of it are passed first, since most lines are long.
fn line_length(text: &[u8]) -> usize
    ensures { (result ≡ line_length text.now) × (result ≤ length text.now) }
{
    let left = pass_blocks(text);
    let rest = left.iter().position(|c| *c == b'\n').unwrap_or(left.len());
    text.len() - left.len() + rest
}

// A line, and what stands behind its line feed.
#[derive(Clone, Copy, Debug, PartialEq, Eq)]
struct Line<'a> {
    bytes: &'a [u8],
    rest: &'a [u8],
}

#[tactic(auto, using(crate::proofs::Feeds::line_is))]
fn first_line(text: &[u8]) -> Line<'_>
    ensures { LineIs text.now result }
{
    let length = line_length(text);
    Line {
        bytes: &text[..length],
        rest: &text[text.len().min(length + 1)..],
    }
}

// "A line of blanks only is passed over, however long."
#[tactic(auto, using(crate::proofs::Feeds::blank_is))]
fn is_blank(line: &[u8]) -> bool
    ensures { result ≡ is_blank_line line.now }
{
    text::blanks(line) == line.len()
}

// Whether the line at a place repeats a record.
fn line_repeats(text: &[u8], at: usize, record: &[u8]) -> bool
    requires { AskedAt text.now at «record».now }
    ensures { LineRepeats text.now at «record».now result }
{
    let mut other = [0; LONGEST_RECORD];
    match declaration::read(Call::General, first_line(&text[at..]).bytes, &mut other) {
        Ok(length) => repeat::repeats(&other[..length], record),
        Err(_) => false,
    }
}

// What is known of the lines that were read: the fingerprints and places of up to 512 declarations, how long the records of all are together, the line
// of the 513th and that of the first repeat.
#[derive(Drop)]
struct Seen {
    notes: Notes,
    total: usize,
    crowded: Option<usize>,
    repeated: Option<usize>,
}

// The line of the first repeat, after one more declaration.
fn next_repeat(text: &[u8], line: usize, record: &[u8], print: u32, seen: &Seen) -> Option<usize>
    requires { AskedRepeat text.now «record».now print seen.now }
    ensures { RepeatIs text.now line «record».now print seen.now result }
{
    if seen.repeated.is_some() {
        return seen.repeated;
    }
    if seen
        .notes
        .repeats(print, |place| line_repeats(text, place, record))
    {
        Some(line)
    } else {
        None
    }
}

// One more declaration.
fn count(text: &[u8], at: usize, line: usize, record: &[u8], scratch: &mut [u8], seen: &mut Seen)
    requires { AskedCount text.now at line «record».now scratch.old seen.old }
    ensures { CountIs text.now at line «record».now scratch.old seen.old seen.new }
{
    seen.total += record.len();
    if seen.notes.is_full() {
        seen.crowded = seen.crowded.or(Some(line));
        return;
    }
    let print = repeat::fingerprint(record, scratch);
    seen.repeated = next_repeat(text, line, record, print, seen);
    seen.notes.push(print, at);
}

// One line.
fn take_line(
    text: &[u8],
    at: usize,
    bytes: &[u8],
    line: usize,
    record: &mut [u8],
    scratch: &mut [u8],
    seen: &mut Seen,
) -> Result<(), Refused>
    requires { AskedLine text.now at bytes.now line «record».old scratch.old seen.old }
    ensures { LineTaken text.now at bytes.now line «record».old scratch.old seen.old seen.new result }
{
    if is_blank(bytes) {
        return Ok(());
    }
    let length = declaration::read(Call::General, bytes, record)?;
    count(text, at, line, &record[..length], scratch, seen);
    Ok(())
}

// A refusal, and the line that it is of.
#[derive(Clone, Copy, Debug, PartialEq, Eq)]
struct RefusedLine {
    refused: Refused,
    line: usize,
}

// All lines, without their records.
fn survey(text: &[u8]) -> Result<Seen, RefusedLine>
    requires { length text.now ≤ 65536 }
    ensures { SurveyIs text.now result }
{
    let mut record = [0; LONGEST_RECORD];
    let mut scratch = [0; LONGEST_PRINTED];
    let mut seen = Seen {
        notes: Notes::new(),
        total: 0,
        crowded: None,
        repeated: None,
    };
    let mut left = text;
    let mut line = 1;
    while !left.is_empty() {
        let first = first_line(left);
        let at = text.len() - left.len();
        if let Err(refused) = take_line(
            text,
            at,
            first.bytes,
            line,
            &mut record,
            &mut scratch,
            &mut seen,
        ) {
            return Err(RefusedLine { refused, line });
        }
        left = first.rest;
        line += 1;
    }
    Ok(seen)
}

// Writes a line's record, and answers its length; nothing for a blank line.
#[tactic(auto, using(crate::proofs::Reading::writing))]
fn write_line(line: &[u8], out: &mut [u8]) -> usize
    ensures { LineWritten line.now out.old out.new result }
{
    if is_blank(line) {
        return 0;
    }
    declaration::read(Call::General, line, out).unwrap_or(0)
}

// The records of all lines, one behind the other.
fn write_lines(text: &[u8], out: &mut [u8]) -> usize
    requires { LinesFit text.now out.old }
    ensures { LinesWritten text.now out.old out.new result }
{
    let mut left = text;
    let mut n = 0;
    while !left.is_empty() {
        let first = first_line(left);
        n += write_line(first.bytes, &mut out[n..]);
        left = first.rest;
    }
    n
}

// The answer for lines that are all read: 22, 23, 20, or the record.
fn judge(text: &[u8], seen: &Seen, record: &mut [u8]) -> Result<usize, RefusedLine>
    requires { LinesRead text.now seen.now }
    ensures { JudgeEnds text.now «record».old «record».new result }
{
    if let Some(line) = seen.crowded {
        let refused = Refusal::TooManyDeclarations.into();
        return Err(RefusedLine { refused, line });
    }
    if let Some(line) = seen.repeated {
        let refused = Refusal::Repeated.into();
        return Err(RefusedLine { refused, line });
    }
    let length = HEAD + seen.total;
    if record.len() < length {
        let refused = Refusal::NoRoom.into();
        return Err(RefusedLine { refused, line: 0 });
    }
    layout::header(record, 0, length, layout::SHEET as u16);
    Ok(HEAD + write_lines(text, &mut record[HEAD..]))
}

fn sheet(text: &[u8], record: &mut [u8]) -> Result<usize, RefusedLine>
    ensures { SheetEnds (sheet_output text.now) «record».old «record».new result }
{
    if LONGEST_SHEET < text.len() {
        let refused = Refusal::SheetTooLong.into();
        return Err(RefusedLine { refused, line: 0 });
    }
    let seen = survey(text)?;
    judge(text, &seen, record)
}

// "A sheet text has one declaration a line, parted by line feeds, each read by the general call."
pub fn parse_sheet(text: &[u8], record: &mut [u8], line: &mut usize) -> Answer
    ensures says { said result ≡ outcome (length «record».old) (sheet_output text.now).output }
    ensures left { «record».new ≡ after «record».old (sheet_output text.now).output }
    ensures lined { line.new ≡ (sheet_output text.now).line }
{
    match sheet(text, record) {
        Ok(length) => {
            *line = 0;
            Ok(length)
        }
        Err(refused) => {
            *line = refused.line;
            Err(refused.refused)
        }
    }
}
