// Order 1's marks: what texts with `calldata` and `memory` are read as, and which marks and names a record may have. The file stdout has what the
// documents say of each. It was written by stdout.py, which has the rule of document 02 and knows nothing of this program.
#![tactic(auto)]

use arrayvec::ArrayVec;
use layout::{CONSTRUCTOR, ERROR, EVENT, FIELD, FUNCTION, LIST, NAME, TUPLE};
use model::Call;
use std::{fmt, io};

// "mutability, 2 bytes (0 pure, 1 view, 2 none stated, 3 payable)"
const NOT_STATED: u8 = 2;

// The marks that are tried: document 02's, and one more.
const MARKS: u8 = 5;

// No record here is longer, and no line.
const LONGEST: usize = 128;

// Where a field stands.
#[derive(Clone, Copy, Debug, PartialEq, Eq)]
enum Place {
    Inputs,
    Outputs,
    Constructor,
    Tuple,
    Event,
    Error,
    Alone,
}

impl fmt::Display for Place {
    fn fmt<W: fmt::Write>(&self, f: &mut fmt::Formatter<W>) -> fmt::Result {
        f.write_str(match self {
            Place::Inputs => "inputs",
            Place::Outputs => "outputs",
            Place::Constructor => "constructor",
            Place::Tuple => "tuple",
            Place::Event => "event",
            Place::Error => "error",
            Place::Alone => "alone",
        })
    }
}

// Records. What has no room is left out.

type Record = ArrayVec<u8, LONGEST>;

// A field with a mark, a name, and a kind whose records are given.
#[derive(Clone, Copy, Debug, PartialEq, Eq)]
struct Field<'a> {
    mark: u8,
    name: &'a [u8],
    kind: &'a [u8],
}

// A record of a kind around what `body` puts into it; none here has 256 bytes.
fn put_record<F: FnOnce(&mut Record)>(out: &mut Record, kind: usize, body: F)
    requires { F.IsAlwaysCallable body }
{
    let at = out.len();
    tables::put(out, &[0, 0, 0, 0, (kind % 256) as u8, 0]);
    body(out);
    let length = out.len().saturating_sub(at);
    if let Some(first) = out.as_mut_slice().get_mut(at) {
        *first = (length % 256) as u8;
    }
}

// Two shapes of one record each: what differs is the body.
fn put_name(out: &mut Record, name: &[u8]) {
    put_record(out, NAME, |out| tables::put(out, name));
}

fn put_field(out: &mut Record, field: Field) {
    put_record(out, FIELD, |out| {
        tables::put(out, &[field.mark, 0]);
        put_name(out, field.name);
        tables::put(out, field.kind);
    });
}

// A list of that field alone.
fn put_list(out: &mut Record, field: Field) {
    put_record(out, LIST, |out| put_field(out, field));
}

fn put_empty(out: &mut Record) {
    put_record(out, LIST, |_| ());
}

// A list of a field, unmarked and without a name, that is a tuple of that field alone.
fn put_grouped(out: &mut Record, field: Field) {
    let mut tuple = Record::new();
    put_record(&mut tuple, TUPLE, |out| put_field(out, field));
    put_list(
        out,
        Field {
            mark: 0,
            name: b"",
            kind: &tuple,
        },
    );
}

// A function `f` with lists that are given.
fn put_function<F: FnOnce(&mut Record)>(out: &mut Record, lists: F)
    requires { F.IsAlwaysCallable lists }
{
    put_record(out, FUNCTION, |out| {
        tables::put(out, &[NOT_STATED, 0]);
        put_name(out, b"f");
        lists(out);
    });
}

// The record that has the field at a place.
fn record_of(place: Place, field: Field) -> Record {
    let mut record = Record::new();
    let out = &mut record;
    match place {
        Place::Inputs => put_function(out, |out| {
            put_list(out, field);
            put_empty(out);
        }),
        Place::Outputs => put_function(out, |out| {
            put_empty(out);
            put_list(out, field);
        }),
        Place::Tuple => put_function(out, |out| {
            put_grouped(out, field);
            put_empty(out);
        }),
        Place::Constructor => put_record(out, CONSTRUCTOR, |out| {
            tables::put(out, &[NOT_STATED, 0]);
            put_list(out, field);
        }),
        Place::Event => put_record(out, EVENT, |out| {
            tables::put(out, &[0, 0]);
            put_name(out, b"e");
            put_list(out, field);
        }),
        Place::Error => put_record(out, ERROR, |out| {
            put_name(out, b"e");
            put_list(out, field);
        }),
        Place::Alone => put_field(out, field),
    }
    record
}

// Verdicts.

// The number of what the calls refuse a record for, 0 for nothing: the canonical call, and of a field the kind-text call; and the name call.
fn line_refusal(place: Place, record: &[u8]) -> u32 {
    let mut line = [0; LONGEST];
    let answer = match place {
        Place::Alone => abi::kind_text(record, &mut line),
        _ => abi::canonical(record, &mut line),
    };
    match answer {
        Ok(_) => 0,
        Err(refused) => refused.refusal.into(),
    }
}

fn name_refusal(record: &[u8]) -> u32 {
    match abi::name(record) {
        Ok(_) => 0,
        Err(refusal) => refusal.into(),
    }
}

// `y` where the record is well formed, `n` where it is not, and `c` for a well-formed constructor, of which there is neither line nor name.
fn verdict(place: Place, record: &[u8]) -> char {
    match (line_refusal(place, record), name_refusal(record)) {
        (0, 0) => 'y',
        (15, 15) => 'n',
        (16, 16) => 'c',
        _ => '?',
    }
}

// No name and three names, in a word of four letters.
fn try_names<P: Print>(rt: &P, place: Place, mark: u8, kind: &[u8]) -> io::Result<()> {
    print!(rt; " ")?;
    for name in [b"".as_slice(), b"a", b"memory", b"calldata"] {
        let letter = verdict(place, &record_of(place, Field { mark, name, kind }));
        print!(rt; "{letter}")?;
    }
    Ok(())
}

// Each mark, one word behind the other.
fn row<P: Print>(rt: &P, place: Place, text: &str, kind: &[u8]) -> io::Result<()> {
    print!(rt; "{place} {text}")?;
    for mark in 0..MARKS {
        try_names(rt, place, mark, kind)?;
    }
    print!(rt; "\n")
}

fn rows<P: Print>(rt: &P, place: Place) -> io::Result<()> {
    row(rt, place, "bool", b"\x06\0\0\0\x04\0")?;
    row(rt, place, "bytes32", b"\x08\0\0\0\x05\0\x20\0")?;
    row(rt, place, "string", b"\x06\0\0\0\x08\0")?;
    row(rt, place, "()", b"\x06\0\0\0\x09\0")?;
    row(rt, place, "bool[]", b"\x06\0\0\0\x04\0\x06\0\0\0\x0B\0")
}

// Texts.

// Prints every mark and name with which the record is the one that was read.
fn print_matches<P: Print>(rt: &P, place: Place, kind: &[u8], read: &[u8]) -> io::Result<()> {
    for mark in 0..MARKS {
        for name in ["", "a", "s", "memory", "calldata"] {
            let field = Field {
                mark,
                name: name.as_bytes(),
                kind,
            };
            if record_of(place, field).as_slice() == read {
                print!(rt; " {mark} \"{name}\"")?;
            }
        }
    }
    Ok(())
}

// What the general call reads of a text with one field, at a place and of a kind.
fn read<P: Print>(rt: &P, text: &[u8], place: Place, kind: &[u8]) -> io::Result<()> {
    let mut out = [0; LONGEST];
    tables::print_bytes(rt, text)?;
    match declaration::read(Call::General, text, &mut out) {
        Ok(length) => print_matches(rt, place, kind, out.get(..length).unwrap_or(b""))?,
        Err(refused) => tables::print_refused(rt, refused, b"")?,
    }
    print!(rt; "\n")
}

fn read_string<P: Print>(rt: &P, text: &[u8], place: Place) -> io::Result<()> {
    read(rt, text, place, b"\x06\0\0\0\x08\0")
}

// Both words in inputs, outputs and a constructor, with a name and without.
fn words<P: Print>(rt: &P) -> io::Result<()> {
    read_string(rt, b"function f(string memory)", Place::Inputs)?;
    read_string(rt, b"function f(string calldata a)", Place::Inputs)?;
    read_string(
        rt,
        b"function f() returns (string memory s)",
        Place::Outputs,
    )?;
    read_string(
        rt,
        b"function f() returns (string calldata)",
        Place::Outputs,
    )?;
    read_string(rt, b"constructor(string memory a)", Place::Constructor)?;
    read_string(rt, b"constructor(string calldata)", Place::Constructor)
}

// At every sort of kind that admits a data location.
fn kinds<P: Print>(rt: &P) -> io::Result<()> {
    read(
        rt,
        b"function f(bytes calldata)",
        Place::Inputs,
        b"\x06\0\0\0\x07\0",
    )?;
    read(
        rt,
        b"function f(function[1] memory)",
        Place::Inputs,
        b"\x06\0\0\0\x06\0\x0E\0\0\0\x0A\0\x01\0\0\0\0\0\0\0",
    )?;
    read(
        rt,
        b"function f((uint)memory)",
        Place::Inputs,
        b"\x1C\0\0\0\x09\0\x16\0\0\0\x10\0\0\0\x06\0\0\0\x11\0\x08\0\0\0\x02\0\0\x01",
    )?;
    read(
        rt,
        b"function f(() memory)",
        Place::Inputs,
        b"\x06\0\0\0\x09\0",
    )
}

// A place word behind another is a name, and so is one inside a tuple.
fn names<P: Print>(rt: &P) -> io::Result<()> {
    read_string(rt, b"function f(string memory memory)", Place::Inputs)?;
    read_string(rt, b"function f(string memory calldata)", Place::Inputs)?;
    read(
        rt,
        b"function f((string memory) calldata a)",
        Place::Inputs,
        b"\x20\0\0\0\x09\0\x1A\0\0\0\x10\0\0\0\x0C\0\0\0\x11\0memory\x06\0\0\0\x08\0",
    )
}

// At other kinds and in other lists it is a name at once.
fn elsewhere<P: Print>(rt: &P) -> io::Result<()> {
    read(
        rt,
        b"function f(uint memory)",
        Place::Inputs,
        b"\x08\0\0\0\x02\0\0\x01",
    )?;
    read(
        rt,
        b"function f(bytes32 calldata)",
        Place::Inputs,
        b"\x08\0\0\0\x05\0\x20\0",
    )?;
    read_string(rt, b"event e(string memory)", Place::Event)?;
    read_string(rt, b"error e(string calldata)", Place::Error)
}

// What is no name behind it is refused as before.
fn refused<P: Print>(rt: &P) -> io::Result<()> {
    read_string(rt, b"function f(address memory a)", Place::Inputs)?;
    read_string(rt, b"function f(string storage memory)", Place::Inputs)?;
    read_string(rt, b"function f(string memory 1)", Place::Inputs)
}

fn main(rt: HostRuntime) -> io::Result<()> {
    words(&rt)?;
    kinds(&rt)?;
    names(&rt)?;
    elsewhere(&rt)?;
    refused(&rt)?;
    for place in [
        Place::Inputs,
        Place::Outputs,
        Place::Constructor,
        Place::Tuple,
        Place::Event,
        Place::Error,
        Place::Alone,
    ] {
        rows(&rt, place)?;
    }
    Ok(())
}
