// Whole declarations written out: names, mark words and the walk through tuples. Kinds without names are written by abi's writers.
#![tactic(auto)]

ghost use Rattle.std.specs.Prelude.{◌≡◌, ◌+◌, ◌≤◌, length, take, drop};
ghost use Rattle.model.specs.Layout.{le_value};
ghost use Rattle.model.specs.Record.{decode};
ghost use Rattle.model.specs.Written.{mark_text, name_text};
ghost use Rattle.model.specs.Full.{mutability_text, anonymous_text, full_output};
ghost use Rattle.model.specs.Answer.{said, outcome, after};
ghost use Rattle.record.specs.Parts.{Headed};
ghost use Rattle.record.specs.Encoded.{SomeField, SomeKind};
ghost use Rattle.abi.specs.Writes.{Put};
ghost use Rattle.full.specs.Parts.{TupleIs, SomeList, ExtraFields, ExtraField, ExtraKind, FieldsRoom, FieldRoom, KindRoom, FieldsWrote, FieldWrote, KindWrote};
ghost use Rattle.full.specs.Lines.{filled, SomeListed, ListLong, SomeReturns, ReturnsLong, ReturnsRoom, ReturnsWrote, IsLine, LineLong, LineRoom, LineWrote, LineIs, LineOf, LineFits};

use layout::{HEAD, TUPLE};
use model::{Answer, Keyword, Mark, Refusal};
use record::{Checked, Measured, Piece};

// Mutabilities that have a word, and an anonymous event.
const PURE: usize = 0;

const VIEW: usize = 1;

const PAYABLE: usize = 3;

const ANONYMOUS: usize = 1;

// What stands before outputs.
const RETURNS: &[u8] = b" returns ";

// No line is so many times as long as its record.
const TIMES: usize = 2;

// Words.

// A space and the mark word, if any, by the number in front of a field's body.
fn mark_word(body: &[u8]) -> &'static [u8]
    requires { 2 ≤ length body.now }
    ensures same { result.now ≡ mark_text (le_value (take 2 body.now)) }
    ensures short { length result.now ≤ 9 }
{
    match Mark::try_from(layout::get2(body, 0)) {
        Ok(Mark::Indexed) => b" indexed",
        Ok(Mark::Calldata) => b" calldata",
        Ok(Mark::Memory) => b" memory",
        _ => b"",
    }
}

// "a space and the mutability word unless none is stated", by the number in front of a declaration's body.
fn mutability_word(record: &[u8]) -> &'static [u8]
    requires { 8 ≤ length «record».now }
    ensures { result.now ≡ mutability_text (le_value (take 2 (drop 6 «record».now))) }
{
    match layout::get2(record, HEAD) {
        PURE => b" pure",
        VIEW => b" view",
        PAYABLE => b" payable",
        _ => b"",
    }
}

// "` anonymous` where set", by the same number.
fn anonymous_word(record: &[u8]) -> &'static [u8]
    requires { 8 ≤ length «record».now }
    ensures { result.now ≡ anonymous_text (le_value (take 2 (drop 6 «record».now))) }
{
    match layout::get2(record, HEAD) {
        ANONYMOUS => b" anonymous",
        _ => b"",
    }
}

// The tuple that a kind begins with, if its base is one: the fields in it, and the suffixes behind it.
fn tuple(t: &[u8]) -> Option<Piece<'_>>
    requires { Headed t.now }
    ensures { TupleIs t.now result }
{
    let base = Piece::first(t);
    if base.kind == TUPLE { Some(base) } else { None }
}

// How long texts are.

// A space and a name, if any.
fn name_length(name: &[u8]) -> usize
    ensures same { result ≡ length (name_text name.now) }
    ensures short { result ≤ length name.now + 1 }
{
    if name.is_empty() { 0 } else { name.len() + 1 }
}

// What mark words and names take in the fields up to the end, in all their tuples.
#[cycle(extra_field_extra_fields_extra_kind)]
#[tactic(auto, using(crate::proofs::Measuring::measuring))]
fn extra_fields(b: &[u8]) -> usize
    requires { SomeList b.now }
    ensures { ExtraFields b.now result }
{
    let mut left = b;
    let mut n = 0;
    // A walk over pieces: a loop (`record::Piece`).
    while !left.is_empty() {
        let field = Piece::first(left);
        n += extra_field(field.body);
        left = field.rest;
    }
    n
}

// The same of one field, by its record's body.
#[cycle(extra_field_extra_fields_extra_kind)]
#[tactic(auto, using(crate::proofs::Measuring::measuring))]
fn extra_field(body: &[u8]) -> usize
    requires { SomeField body.now }
    ensures { ExtraField body.now result }
{
    let name = record::named(body);
    mark_word(body).len() + name_length(name.body) + extra_kind(name.rest)
}

// The same of a base and its suffixes.
#[cycle(extra_field_extra_fields_extra_kind)]
#[tactic(auto, using(crate::proofs::Measuring::measuring))]
fn extra_kind(t: &[u8]) -> usize
    requires { SomeKind t.now }
    ensures { ExtraKind t.now result }
{
    match tuple(t) {
        Some(base) => extra_fields(base.body),
        None => 0,
    }
}

// Each writer writes at the front of what it is lent, and answers how much.

// A space and a name, if any.
fn write_name(name: &[u8], out: &mut [u8]) -> usize
    requires { length (name_text name.now) ≤ length out.old }
    ensures { Put (name_text name.now) out.old out.new result }
{
    if name.is_empty() {
        return 0;
    }
    out[0] = b' ';
    1 + abi::write_word(&mut out[1..], name)
}

// A base and its suffixes: a tuple's components are written in full, its suffixes behind its bracket.
#[cycle(write_field_write_fields_write_kind)]
fn write_kind(t: &[u8], out: &mut [u8]) -> usize
    requires { KindRoom t.now out.old }
    ensures { KindWrote t.now out.old out.new result }
{
    let Some(base) = tuple(t) else {
        return abi::write_kind(t, out);
    };
    let n = write_fields(base.body, out);
    n + abi::write_suffixes(base.rest, &mut out[n..])
}

// "A field is its kind, then a space and its mark word if any, then a space and its name if any.", by its record's body.
#[cycle(write_field_write_fields_write_kind)]
fn write_field(body: &[u8], out: &mut [u8]) -> usize
    requires { FieldRoom body.now out.old }
    ensures { FieldWrote body.now out.old out.new result }
{
    let name = record::named(body);
    let kind = write_kind(name.rest, out);
    let mark = kind + abi::write_word(&mut out[kind..], mark_word(body));
    mark + write_name(name.body, &mut out[mark..])
}

// "fields are parted by `,`", in brackets: each with a comma before it, and a bracket in the place of the first.
#[cycle(write_field_write_fields_write_kind)]
fn write_fields(b: &[u8], out: &mut [u8]) -> usize
    requires { FieldsRoom b.now out.old }
    ensures { FieldsWrote b.now out.old out.new result }
{
    let mut left = b;
    let mut n = 0;
    // A walk over pieces: a loop (`record::Piece`).
    while !left.is_empty() {
        let field = Piece::first(left);
        out[n] = b',';
        n += 1 + write_field(field.body, &mut out[n + 1..]);
        left = field.rest;
    }
    let last = n.max(1);
    out[0] = b'(';
    out[last] = b')';
    last + 1
}

// Lines.

// A list, if there is any field in it.
fn filled(list: Option<Measured<'_>>) -> Option<Measured<'_>>
    ensures { result ≡ filled list.entry }
{
    list.filter(|list| !list.bytes.is_empty())
}

// A list in full.
fn list_length(list: Measured<'_>) -> usize
    requires { SomeListed list }
    ensures { ListLong list.entry result }
{
    list.text + extra_fields(list.bytes)
}

// " returns " and the outputs, if there are any.
fn returns_length(outputs: Option<Measured<'_>>) -> usize
    requires { SomeReturns outputs }
    ensures { ReturnsLong outputs.entry result }
{
    match outputs {
        Some(outputs) => RETURNS.len() + list_length(outputs),
        None => 0,
    }
}

// The same written.
fn write_returns(outputs: Option<Measured<'_>>, out: &mut [u8]) -> usize
    requires { ReturnsRoom outputs out.old }
    ensures { ReturnsWrote outputs.entry out.old out.new result }
{
    match outputs {
        Some(outputs) => {
            let n = abi::write_word(out, RETURNS);
            n + write_fields(outputs.bytes, &mut out[n..])
        }
        None => 0,
    }
}

// A line: a word in front, a name, a list, a word behind it, and the outputs, if there are any.
#[derive(Clone, Copy, Debug, PartialEq, Eq)]
struct Line<'a> {
    front: &'a [u8],
    name: &'a [u8],
    inputs: Measured<'a>,
    back: &'a [u8],
    outputs: Option<Measured<'a>>,
}

impl<'a> Line<'a> {
    // The line of a declaration's record.
    fn of(record: &'a [u8]) -> Option<Line<'a>>
        ensures { LineOf (decode «record».now) result }
    {
        match record::check(record)? {
            Checked::Declared {
                keyword: Keyword::Function,
                name,
                inputs,
                outputs,
            } => Some(Line {
                front: b"function ",
                name,
                inputs,
                back: mutability_word(record),
                outputs: filled(outputs),
            }),
            Checked::Declared {
                keyword: Keyword::Event,
                name,
                inputs,
                ..
            } => Some(Line {
                front: b"event ",
                name,
                inputs,
                back: anonymous_word(record),
                outputs: None,
            }),
            Checked::Declared {
                keyword: Keyword::Error,
                name,
                inputs,
                ..
            } => Some(Line {
                front: b"error ",
                name,
                inputs,
                back: b"",
                outputs: None,
            }),
            Checked::Constructor { inputs } => Some(Line {
                front: b"constructor",
                name: b"",
                inputs,
                back: mutability_word(record),
                outputs: None,
            }),
            _ => None,
        }
    }

    fn length(&self) -> usize
        requires { IsLine self.now }
        ensures { LineLong self.now result }
    {
        self.front.len()
            + self.name.len()
            + list_length(self.inputs)
            + self.back.len()
            + returns_length(self.outputs)
    }

    // Whether it fits a room. Most rooms are so long that it need not be measured.
    fn fits(&self, record: &[u8], room: usize) -> bool
        requires { LineIs (decode «record».now) self.now }
        ensures { LineFits (decode «record».now) self.now room result }
    {
        TIMES * record.len() <= room || self.length() <= room
    }

    fn write(&self, out: &mut [u8]) -> usize
        requires { LineRoom self.now out.old }
        ensures { LineWrote self.now out.old out.new result }
    {
        let mut n = abi::write_word(out, self.front);
        n += abi::write_word(&mut out[n..], self.name);
        n += write_fields(self.inputs.bytes, &mut out[n..]);
        n += abi::write_word(&mut out[n..], self.back);
        n + write_returns(self.outputs, &mut out[n..])
    }
}

// The call.

// "For any well-formed declaration write": 15 for anything else, a field's record among it.
pub fn full_text(record: &[u8], text: &mut [u8]) -> Answer
    ensures says { said result ≡ outcome (length text.old) (full_output «record».now) }
    ensures left { text.new ≡ after text.old (full_output «record».now) }
{
    let Some(line) = Line::of(record) else {
        return Err(Refusal::NotWellFormed.into());
    };
    if !line.fits(record, text.len()) {
        return Err(Refusal::NoRoom.into());
    }
    Ok(line.write(text))
}
