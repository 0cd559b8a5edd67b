// The lines that are written of a record: canonical text, signature and a field's kind; and the name in it.
#![tactic(auto)]

ghost use Rattle.std.specs.Prelude.{◌≡◌, ◌++◌, ◌≤◌, length, MatchResult};
ghost use Rattle.kinds.specs.Decimal.{decimal};
ghost use Rattle.model.specs.Layout.{le_value};
ghost use Rattle.record.specs.Texts.{elementary_from, suffix_from, suffixes_from};
ghost use Rattle.abi.specs.Writes.{number_word, lone_word, Put, Room, Wrote, KindRoom, KindWrote, BaseRoom, BaseWrote, FieldsRoom, FieldsWrote, LineRoom, LineWrote};
ghost use Rattle.model.specs.Answer.{writes, refuses, said, outcome, after};
ghost use Rattle.abi.specs.Lines.{Lined, LineEnds, Signed, SignatureEnds, Kinded, KindEnds, Declared, Undeclared};
ghost use Rattle.model.specs.Calls.{canonical_output, signature_output, kind_text_output, name_output};

use layout::{ADDRESS, BOOL, BYTES, FUNCTION_KIND, INT, SIZED, TUPLE, UINT};
use model::{Answer, Refusal};
use record::{Checked, Measured, NUMBER, Piece};

// The width of most integers.
const USUAL_WIDTH: usize = 256;

// Each writer writes at the front of what it is lent, and answers how much.

#[tactic(auto, using(crate::proofs::Puts::put_word))]
pub fn write_word(out: &mut [u8], word: &[u8]) -> usize
    requires { length word.now ≤ length out.old }
    ensures { Put word.now out.old out.new result }
{
    layout::copy(out, 0, word);
    word.len()
}

// A number in plain decimal.
pub fn write_decimal(out: &mut [u8], v: u64) -> usize
    requires { length (decimal v) ≤ length out.old }
    ensures { Put (decimal v) out.old out.new result }
{
    write_word(out, itoa::Buffer::new().format(v).as_bytes())
}

// The number of an elementary kind: most are the same.
fn write_number(out: &mut [u8], v: usize) -> usize
    requires { length (decimal v) ≤ length out.old }
    ensures { Put (decimal v) out.old out.new result }
{
    if v == USUAL_WIDTH {
        return write_word(out, b"256");
    }
    write_decimal(out, v as u64)
}

// Kinds.

// The words of elementary kinds with a number, and of the others.
#[tactic(auto, unfolding(crate::specs::Writes::number_word))]
fn write_number_word(kind: usize, out: &mut [u8]) -> usize
    requires { length (number_word kind) ≤ length out.old }
    ensures { Put (number_word kind) out.old out.new result }
{
    match kind {
        INT => write_word(out, b"int"),
        UINT => write_word(out, b"uint"),
        _ => write_word(out, b"bytes"),
    }
}

#[tactic(auto, unfolding(crate::specs::Writes::lone_word))]
fn write_lone_word(kind: usize, out: &mut [u8]) -> usize
    requires { length (lone_word kind) ≤ length out.old }
    ensures { Put (lone_word kind) out.old out.new result }
{
    match kind {
        ADDRESS => write_word(out, b"address"),
        BOOL => write_word(out, b"bool"),
        FUNCTION_KIND => write_word(out, b"function"),
        BYTES => write_word(out, b"bytes"),
        _ => write_word(out, b"string"),
    }
}

// An elementary kind with a number, by its record's kind and body.
fn write_numbered(kind: usize, body: &[u8], out: &mut [u8]) -> usize
    requires two { length body.now ≡ 2 }
    requires room { length (number_word kind ++ decimal (le_value body.now)) ≤ length out.old }
    ensures { Put (number_word kind ++ decimal (le_value body.now)) out.old out.new result }
{
    let n = write_number_word(kind, out);
    n + write_number(&mut out[n..], layout::get2(body, 0))
}

// An elementary kind, by its record's kind and body.
fn write_elementary(kind: usize, body: &[u8], out: &mut [u8]) -> usize
    requires { Room (elementary_from kind body.now) out.old }
    ensures { Wrote (elementary_from kind body.now) out.old out.new result }
{
    if body.len() == NUMBER {
        write_numbered(kind, body, out)
    } else {
        write_lone_word(kind, out)
    }
}

// A suffix, by its record's kind and body.
fn write_suffix(kind: usize, body: &[u8], out: &mut [u8]) -> usize
    requires { Room (suffix_from kind body.now) out.old }
    ensures { Wrote (suffix_from kind body.now) out.old out.new result }
{
    if kind == SIZED {
        out[0] = b'[';
        let n = 1 + write_decimal(&mut out[1..], layout::get8(body, 0));
        out[n] = b']';
        n + 1
    } else {
        write_word(out, b"[]")
    }
}

// The suffixes up to the end, innermost first.
pub fn write_suffixes(b: &[u8], out: &mut [u8]) -> usize
    requires { Room (suffixes_from b.now) out.old }
    ensures { Wrote (suffixes_from b.now) out.old out.new result }
{
    let mut left = b;
    let mut n = 0;
    // A walk over pieces: a loop (`record::Piece`).
    while !left.is_empty() {
        let suffix = Piece::first(left);
        n += write_suffix(suffix.kind, suffix.body, &mut out[n..]);
        left = suffix.rest;
    }
    n
}

// A base and its suffixes: "writing a kind goes down through its tuples".
#[cycle(write_base_write_fields_write_kind)]
pub fn write_kind(t: &[u8], out: &mut [u8]) -> usize
    requires { KindRoom t.now out.old }
    ensures { KindWrote t.now out.old out.new result }
{
    let base = Piece::first(t);
    let n = write_base(base.kind, base.body, out);
    n + write_suffixes(base.rest, &mut out[n..])
}

// A base, by its record's kind and body.
#[cycle(write_base_write_fields_write_kind)]
fn write_base(kind: usize, body: &[u8], out: &mut [u8]) -> usize
    requires { BaseRoom kind body.now out.old }
    ensures { BaseWrote kind body.now out.old out.new result }
{
    match kind {
        TUPLE => write_fields(body, out),
        _ => write_elementary(kind, body, out),
    }
}

// The kinds of the fields up to the end, in brackets: each with a comma before it, and a bracket in the place of the first.
#[cycle(write_base_write_fields_write_kind)]
fn write_fields(b: &[u8], out: &mut [u8]) -> usize
    requires { FieldsRoom b.now out.old }
    ensures { FieldsWrote b.now out.old out.new result }
{
    let mut left = b;
    let mut n = 0;
    // A walk over pieces: a loop (`record::Piece`).
    while !left.is_empty() {
        let field = Piece::first(left);
        let kind = record::named(field.body).rest;
        out[n] = b',';
        n += 1;
        n += write_kind(kind, &mut out[n..]);
        left = field.rest;
    }
    let last = n.max(1);
    out[0] = b'(';
    out[last] = b')';
    last + 1
}

// Lines.

// "Name, `(`, kinds parted by `,`, `)`"
pub fn write_line(name: &[u8], fields: &[u8], text: &mut [u8]) -> usize
    requires { LineRoom name.now fields.now text.old }
    ensures { LineWrote name.now fields.now text.old text.new result }
{
    let n = write_word(text, name);
    n + write_fields(fields, &mut text[n..])
}

fn line(name: &[u8], inputs: Measured<'_>, text: &mut [u8]) -> Answer
    requires { Lined name.now inputs }
    ensures { LineEnds name.now inputs.entry text.old text.new result }
{
    if text.len() < name.len() + inputs.text {
        return Err(Refusal::NoRoom.into());
    }
    Ok(write_line(name, inputs.bytes, text))
}

// "canonical text, `:`, and the outputs in brackets"
fn signature_line(
    name: &[u8],
    inputs: Measured<'_>,
    outputs: Measured<'_>,
    text: &mut [u8],
) -> Answer
    requires { Signed name.now inputs outputs }
    ensures { SignatureEnds name.now inputs.entry outputs.entry text.old text.new result }
{
    if text.len() < name.len() + inputs.text + b":".len() + outputs.text {
        return Err(Refusal::NoRoom.into());
    }
    let line = write_line(name, inputs.bytes, text);
    text[line] = b':';
    let n = line + 1;
    Ok(n + write_fields(outputs.bytes, &mut text[n..]))
}

fn kind_line(kind: Measured<'_>, text: &mut [u8]) -> Answer
    requires { Kinded kind }
    ensures { KindEnds kind.entry text.old text.new result }
{
    if text.len() < kind.text {
        return Err(Refusal::NoRoom.into());
    }
    Ok(write_kind(kind.bytes, text))
}

// The calls.

// What the record of a declaration says that has a name. Only a function has outputs.
#[derive(Clone, Copy, Debug, PartialEq, Eq)]
struct Named<'a> {
    name: &'a [u8],
    inputs: Measured<'a>,
    outputs: Option<Measured<'a>>,
}

fn declared(record: &[u8]) -> Result<Named<'_>, Refusal>
    ensures { MatchResult result (λ d. Declared «record».now d.name.now d.inputs d.outputs) (λ refusal. Undeclared «record».now refusal) }
{
    let Some(checked) = record::check(record) else {
        return Err(Refusal::NotWellFormed);
    };
    match checked {
        Checked::Declared {
            name,
            inputs,
            outputs,
            ..
        } => Ok(Named {
            name,
            inputs,
            outputs,
        }),
        Checked::Constructor { .. } => Err(Refusal::WrongSort),
        Checked::Field { .. } => Err(Refusal::NotWellFormed),
    }
}

// "Name, `(`, kinds parted by `,`, `)`"
pub fn canonical(record: &[u8], text: &mut [u8]) -> Answer
    ensures says { said result ≡ outcome (length text.old) (canonical_output «record».now) }
    ensures left { text.new ≡ after text.old (canonical_output «record».now) }
{
    let declared = declared(record)?;
    line(declared.name, declared.inputs, text)
}

// "The signature call writes canonical text, `:`, and the outputs in brackets."
pub fn signature(record: &[u8], text: &mut [u8]) -> Answer
    ensures says { said result ≡ outcome (length text.old) (signature_output «record».now) }
    ensures left { text.new ≡ after text.old (signature_output «record».now) }
{
    let declared = declared(record)?;
    match declared.outputs {
        Some(outputs) => signature_line(declared.name, declared.inputs, outputs, text),
        None => Err(Refusal::WrongSort.into()),
    }
}

// "The kind-text call writes a field record's kind."
pub fn kind_text(record: &[u8], text: &mut [u8]) -> Answer
    ensures says { said result ≡ outcome (length text.old) (kind_text_output «record».now) }
    ensures left { text.new ≡ after text.old (kind_text_output «record».now) }
{
    match record::check(record) {
        Some(Checked::Field { kind, .. }) => kind_line(kind, text),
        Some(Checked::Declared { .. }) => Err(Refusal::NotWellFormed.into()),
        Some(Checked::Constructor { .. }) => Err(Refusal::NotWellFormed.into()),
        None => Err(Refusal::NotWellFormed.into()),
    }
}

// "The name call hands back the name's own bytes within the record, of a declaration or field".
pub fn name(record: &[u8]) -> Result<&[u8], Refusal>
    ensures { MatchResult result (λ name. name_output «record».now ≡ writes name.now) (λ refusal. name_output «record».now ≡ refuses refusal 0) }
{
    match record::check(record) {
        Some(Checked::Declared { name, .. }) => Ok(name),
        Some(Checked::Field { name, .. }) => Ok(name),
        Some(Checked::Constructor { .. }) => Err(Refusal::WrongSort),
        None => Err(Refusal::NotWellFormed),
    }
}
