// The tables of document 02. Standard input has a row a line: a call, the room that it is lent (`-`: ample), and its input, in which `\` and two hex
// digits stand for a byte. Each row is printed with its answer, a sheet's with the line; the file stdout has what the tables say.
// A call on records is asked about the record that is read of the input, by the kind call for kind_text and by the general call else; full_kind is the
// full text call asked about a field's record.
#![tactic(auto)]

ghost use Rattle.std.specs.Prelude.{◌≤◌};

use arrayvec::ArrayVec;
use model::{Answer, Call};
use std::io;
use tables::FILL;

// No line is twice as long as its record.
const AMPLE: usize = 81920;

// As long as the longest record.
const RECORD: usize = 40960;

// One byte more than the longest text.
const TEXT: usize = 4097;

// The tables are shorter.
const INPUT: usize = 262144;

// What a lent line holds beforehand: no text here has so many lines.
const UNTOLD: usize = 99999;

// The room that a field says, and ample where it says none.
#[tactic(auto, using(tables::proofs::Limits::plain_within))]
fn room_of(field: &[u8]) -> usize
    ensures { result ≤ 81920 }
{
    text::plain(AMPLE as u64, field).map_or(AMPLE, |room| room as usize)
}

// The byte that an input begins with, and what is behind what says it.
fn next_byte(input: &[u8]) -> Option<(u8, &[u8])> {
    match input {
        [b'\\', high, low, rest @ ..] => match tables::byte_of(&[*high, *low]) {
            Some(byte) => Some((byte, rest)),
            None => Some((b'\\', &input[1..])),
        },
        [byte, rest @ ..] => Some((*byte, rest)),
        [] => None,
    }
}

// The bytes of an input, as many as there is room for.
fn unescape(input: &[u8]) -> ArrayVec<u8, TEXT> {
    let mut text = ArrayVec::<u8, TEXT>::new();
    let mut rest = input;
    for _ in 0..input.len() {
        let Some((byte, behind)) = next_byte(rest) else {
            break;
        };
        if text.try_push(byte).is_err() {
            break;
        }
        rest = behind;
    }
    text
}

// A call that reads.
fn show_read<P: Print, A: FnOnce(&mut [u8]) -> Answer>(
    rt: &P,
    room: usize,
    ask: A,
) -> io::Result<()>
    requires { A.IsAlwaysCallable ask }
{
    tables::show_answer::<AMPLE, _, _, _>(rt, room, ask, tables::print_hex)
}

// The calls that write of a record.
#[derive(Clone, Copy, Debug, PartialEq, Eq)]
enum Line {
    Canonical,
    Signature,
    Full,
    KindText,
}

impl Line {
    fn write(self, record: &[u8], out: &mut [u8]) -> Answer {
        match self {
            Line::Canonical => abi::canonical(record, out),
            Line::Signature => abi::signature(record, out),
            Line::Full => full::full_text(record, out),
            Line::KindText => abi::kind_text(record, out),
        }
    }
}

// What is written of a record that was read; where the text was refused, that refusal.
fn show_written<P: Print>(
    rt: &P,
    room: usize,
    read: Answer,
    record: &[u8],
    line: Line,
) -> io::Result<()> {
    match read {
        Ok(length) => {
            let record = record.get(..length).unwrap_or(b"");
            tables::show_answer::<AMPLE, _, _, _>(
                rt,
                room,
                |out| line.write(record, out),
                tables::print_bytes,
            )
        }
        Err(refused) => tables::print_refused(rt, refused, record),
    }
}

fn show_line<P: Print>(rt: &P, room: usize, text: &[u8], line: Line) -> io::Result<()> {
    let mut record = [FILL; RECORD];
    let read = declaration::read(Call::General, text, &mut record);
    show_written(rt, room, read, &record, line)
}

fn show_kind<P: Print>(rt: &P, room: usize, text: &[u8], line: Line) -> io::Result<()> {
    let mut record = [FILL; RECORD];
    let read = kind_call::parse_kind(text, &mut record);
    show_written(rt, room, read, &record, line)
}

fn show_sheet<P: Print>(rt: &P, room: usize, text: &[u8]) -> io::Result<()> {
    let mut line = UNTOLD;
    tables::show_answer::<AMPLE, _, _, _>(
        rt,
        room,
        |out| sheet::parse_sheet(text, out, &mut line),
        tables::print_hex,
    )?;
    print!(rt; " line {line}")
}

fn show<P: Print>(rt: &P, name: &[u8], room: usize, text: &[u8]) -> io::Result<()> {
    if let Some(call) = tables::call_of(name) {
        return show_read(rt, room, |out| declaration::read(call, text, out));
    }
    match name {
        b"kind" => show_read(rt, room, |out| kind_call::parse_kind(text, out)),
        b"canonical" => show_line(rt, room, text, Line::Canonical),
        b"signature" => show_line(rt, room, text, Line::Signature),
        b"full" => show_line(rt, room, text, Line::Full),
        b"kind_text" => show_kind(rt, room, text, Line::KindText),
        b"full_kind" => show_kind(rt, room, text, Line::Full),
        b"message" => tables::show_answer::<AMPLE, _, _, _>(
            rt,
            room,
            |out| message::message(Call::General, text, out),
            tables::print_bytes,
        ),
        b"sheet" => show_sheet(rt, room, text),
        _ => print!(rt; " no such call"),
    }
}

fn row<P: Print>(rt: &P, line: &[u8]) -> io::Result<()> {
    let text = unescape(tables::rest(line));
    tables::print_bytes(rt, line)?;
    print!(rt; " ->")?;
    show(
        rt,
        tables::field(line, 0),
        room_of(tables::field(line, 1)),
        &text,
    )?;
    print!(rt; "\n")
}

// Each program has a `main` of its own; what they share is in `tables`.
fn main(rt: HostRuntime) -> io::Result<()> {
    let input = tables::read_input::<INPUT>(&rt)?;
    tables::each_row(&rt, &input, |rt, line| row(rt, line))
}
