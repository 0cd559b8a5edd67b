// Sheet records that anyone may hand in: whether one is well formed, with the fingerprint and the place of each declaration; and the search for a
// function by its canonical text.
#![tactic(auto)]

ghost use Rattle.std.specs.Prelude.{◌≡◌, None, MatchOption};
ghost use Rattle.model.specs.Sheet.{decode_sheet};
ghost use Rattle.model.specs.Find.{find_output};
ghost use Rattle.repeat.specs.Pairs.{RecordOf};
ghost use Rattle.repeat.specs.Prints.{OneRecord};
ghost use Rattle.index.specs.Indexes.{AreRecords, PartIs, WholePrint, OneAt, ItsRecord, AskedAt, RepeatsAt, AskedNote, NoteIs, SheetNoted, IndexIs};
ghost use Rattle.index.specs.Searches.{AskedText, TextIs, NoFunction, IsFunction, SoughtIs};

use layout::{FUNCTION, SHEET};
use model::{Found, Missing, Refusal, Search};
use record::{Checked, Piece};
use repeat::Notes;

// A canonical text has fewer bytes than twice its record, which has at most 40,960. Most fit a smaller scratch, which is cleared in less time.
const LONGEST_TEXT: usize = 81920;

pub const USUAL_TEXT: usize = 8192;

// The records in a sheet's record, if bytes are one.
#[tactic(auto, using(crate::proofs::Parts::heads))]
fn records(sheet: &[u8]) -> Option<&[u8]>
    ensures { MatchOption result (decode_sheet sheet.now ≡ None) (λ r. AreRecords sheet.now r.now) }
{
    let piece = Piece::parse(sheet)?;
    if piece.kind != SHEET || !piece.rest.is_empty() {
        return None;
    }
    Some(piece.body)
}

// A declaration's record, and the bytes behind it.
#[derive(Clone, Copy, Debug, PartialEq, Eq)]
struct Part<'a> {
    record: &'a [u8],
    rest: &'a [u8],
}

// The well-formed declaration that bytes begin with.
fn first(left: &[u8]) -> Option<Part<'_>>
    ensures { PartIs left.now result }
{
    let rest = Piece::parse(left)?.rest;
    let record = &left[..left.len() - rest.len()];
    match record::check(record)? {
        Checked::Declared { .. } | Checked::Constructor { .. } => Some(Part { record, rest }),
        Checked::Field { .. } => None,
    }
}

// The fingerprint of a declaration whose text may have any length.
#[tactic(auto, using(crate::proofs::Places::printing))]
fn long_print(record: &[u8]) -> u32
    requires { OneRecord «record».now }
    ensures { WholePrint «record».now result }
{
    let mut text = [0; LONGEST_TEXT];
    repeat::fingerprint(record, &mut text)
}

// The fingerprint of a declaration. The scratch is used where it has room for any text of such a record.
#[tactic(auto, using(crate::proofs::Places::printing))]
pub fn print_of(record: &[u8], scratch: &mut [u8]) -> u32
    requires { OneRecord «record».now }
    ensures { WholePrint «record».now result }
{
    if scratch.len() / 2 < record.len() {
        return long_print(record);
    }
    repeat::fingerprint(record, scratch)
}

// The record of the declaration at a place of a sheet.
#[tactic(auto, using(crate::proofs::Places::placing))]
fn record_at(sheet: &[u8], at: usize) -> &[u8]
    requires { OneAt sheet.now at }
    ensures { ItsRecord sheet.now at result.now }
{
    let left = &sheet[at..];
    let rest = Piece::first(left).rest;
    &left[..left.len() - rest.len()]
}

// Whether the declaration at a place of a sheet repeats a record.
#[tactic(auto, using(crate::proofs::Places::placing))]
fn repeats_at(sheet: &[u8], at: usize, record: &[u8]) -> bool
    requires { AskedAt sheet.now at «record».now }
    ensures { RepeatsAt sheet.now at «record».now result }
{
    repeat::repeats(record_at(sheet, at), record)
}

// Notes a declaration and its place in a sheet; none where it is one too many, or repeats an earlier one.
#[tactic(auto, using(crate::proofs::Walking::noting))]
fn note(sheet: &[u8], at: usize, record: &[u8], scratch: &mut [u8], notes: &mut Notes) -> Option<()>
    requires { AskedNote sheet.now at «record».now notes.old }
    ensures { NoteIs sheet.now at «record».now notes.old notes.new result }
{
    if notes.is_full() {
        return None;
    }
    let print = print_of(record, scratch);
    if notes.repeats(print, |place| repeats_at(sheet, place, record)) {
        return None;
    }
    notes.push(print, at);
    Some(())
}

// The fingerprints and places of a sheet's declarations, if lent bytes are a well-formed sheet: "at most 512 well-formed declarations that 23 below
// wouldn't refuse".
pub fn index(sheet: &[u8]) -> Option<Notes>
    ensures { IndexIs sheet.now result }
{
    let mut left = records(sheet)?;
    let mut scratch = [0; USUAL_TEXT];
    let mut notes = Notes::new();
    // A walk over pieces: a loop (`record::Piece`).
    while !left.is_empty() {
        let part = first(left)?;
        note(
            sheet,
            sheet.len() - left.len(),
            part.record,
            &mut scratch,
            &mut notes,
        )?;
        left = part.rest;
    }
    Some(notes)
}

// Finding.

// Whether a declaration's canonical text is the one that is sought, where there is room for it.
fn line_is(record: &[u8], text: &[u8], line: &mut [u8]) -> bool
    requires { AskedText «record».now line.old }
    ensures { TextIs «record».now text.now result }
{
    match abi::canonical(record, line) {
        Ok(length) => &line[..length] == text,
        Err(_) => false,
    }
}

fn long_line_is(record: &[u8], text: &[u8]) -> bool
    requires { OneRecord «record».now }
    ensures { TextIs «record».now text.now result }
{
    let mut line = [0; LONGEST_TEXT];
    line_is(record, text, &mut line)
}

// A text of any length.
fn text_is(record: &[u8], text: &[u8]) -> bool
    requires { OneRecord «record».now }
    ensures { TextIs «record».now text.now result }
{
    if USUAL_TEXT / 2 < record.len() {
        return long_line_is(record, text);
    }
    let mut line = [0; USUAL_TEXT];
    line_is(record, text, &mut line)
}

// The same, where its fingerprint and that of the text are known: only equal ones are looked at.
#[tactic(auto, using(crate::proofs::Searching::seeking))]
fn is_sought(record: &[u8], known: u32, print: u32, text: &[u8]) -> bool
    requires { OneRecord «record».now }
    ensures { SoughtIs «record».now known print text.now result }
{
    known == print && text_is(record, text)
}

// "counting functions only": the record at a place of a sheet, if it is a function's.
fn function_at(sheet: &[u8], at: usize) -> Option<&[u8]>
    requires { OneAt sheet.now at }
    ensures { MatchOption result (NoFunction sheet.now at) (λ r. IsFunction sheet.now at r.now) }
{
    let record = record_at(sheet, at);
    let piece = Piece::first(record);
    if piece.kind == FUNCTION {
        Some(record)
    } else {
        None
    }
}

// The declarations of a sheet, one by one.
fn search(sheet: &[u8], text: &[u8], notes: &Notes) -> Search
    requires { SheetNoted sheet.now notes.now }
    ensures { result ≡ find_output sheet.now text.now }
{
    let print = repeat::print(text);
    let mut compared = 0;
    for (known, place) in notes.prints.as_slice().iter().zip(notes.places.as_slice()) {
        let Some(record) = function_at(sheet, *place) else {
            continue;
        };
        compared += 1;
        if is_sought(record, *known, print, text) {
            return Ok(Found {
                place: compared,
                compared,
            });
        }
    }
    Err(Missing {
        refusal: Refusal::NoSuchFunction,
        compared,
    })
}

// "answer the place of the function with that text, counting functions only from 1, and how many were compared"
pub fn find(sheet: &[u8], text: &[u8]) -> Search
    ensures { result ≡ find_output sheet.now text.now }
{
    let Some(notes) = index(sheet) else {
        return Err(Missing {
            refusal: Refusal::NotWellFormed,
            compared: 0,
        });
    };
    search(sheet, text, &notes)
}
