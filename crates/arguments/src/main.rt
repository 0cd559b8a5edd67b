// The tables of order 8. Standard input has a row a line: `heads`, the room that it is lent (`-`: ample), a declaration; or `data`, the data, a
// declaration. Each row is printed with the answer to the declaration's record; the file stdout has what the tables say.
// Data are parts with `,` between them: a number is a word, `x` and hex digits are those bytes, `z` and a number are so many zeros; `-` is none.
#![tactic(auto)]

ghost use Rattle.std.specs.Prelude.{◌≤◌};

use arrayvec::ArrayVec;
use model::{Answer, Call};
use std::io;
use std::io::Read;
use tables::FILL;

// As long as the longest record.
const RECORD: usize = 40960;

// What is written of heads is less than a quarter of the record.
const HEADS: usize = 10240;

// A word more than the longest data.
const DATA: usize = 65568;

// The bytes of a word, and those in front of the number in it.
const WORD: usize = 32;

const PADDING: usize = 24;

// As many zeros as there is ever room for; they are copied from here.
static ZEROS: [u8; DATA] = [0; DATA];

// The tables are shorter.
const INPUT: usize = 262144;

type Data = ArrayVec<u8, DATA>;

// How many bytes a field says, and the most where it says none or more.
#[tactic(auto, using(tables::proofs::Limits::plain_within))]
fn count_of(field: &[u8], most: usize) -> usize
    ensures { result ≤ most }
{
    text::plain(most as u64, field).map_or(most, |count| count as usize)
}

// Data. What has no room is left out.

fn push_zeros(data: &mut Data, count: usize) {
    tables::put(data, &ZEROS[..count.min(DATA)]);
}

// The word of a number.
fn push_word(data: &mut Data, v: u64) {
    push_zeros(data, PADDING);
    tables::put(data, &v.to_be_bytes());
}

// What a part says.
fn push_part(data: &mut Data, said: &[u8]) {
    match said {
        [] | [b'-', ..] => (),
        [b'x', hex @ ..] => tables::put_hex(data, hex),
        [b'z', count @ ..] => push_zeros(data, count_of(count, DATA)),
        _ => {
            if let Some(v) = text::plain(u64::MAX, said) {
                push_word(data, v);
            }
        }
    }
}

// What a field says.
fn push_data(data: &mut Data, said: &[u8]) {
    for part in said.split(|&byte| byte == b',') {
        push_part(data, part);
    }
}

// Answers.

fn show_heads<P: Print>(rt: &P, field: &[u8], record: &[u8]) -> io::Result<()> {
    tables::show_answer::<HEADS, _, _, _>(
        rt,
        count_of(field, HEADS),
        |out| calldata::heads(record, out),
        tables::print_hex,
    )
}

fn show_data<P: Print>(rt: &P, field: &[u8], record: &[u8]) -> io::Result<()> {
    let mut data = Data::new();
    push_data(&mut data, field);
    match calldata::check(record, &data) {
        Ok(length) => print!(rt; " ok {length}"),
        Err(refused) => tables::print_refused(rt, refused, b""),
    }
}

fn show<P: Print>(rt: &P, call: &[u8], field: &[u8], record: &[u8]) -> io::Result<()> {
    match call {
        b"heads" => show_heads(rt, field, record),
        b"data" => show_data(rt, field, record),
        _ => print!(rt; " no such call"),
    }
}

fn row<P: Print>(rt: &P, line: &[u8]) -> io::Result<()> {
    let mut buffer = [FILL; RECORD];
    let answer = declaration::read(Call::General, tables::rest(line), &mut buffer);
    tables::print_bytes(rt, line)?;
    print!(rt; " ->")?;
    match answer {
        Ok(length) => show(
            rt,
            tables::field(line, 0),
            tables::field(line, 1),
            buffer.get(..length).unwrap_or(b""),
        )?,
        Err(refused) => tables::print_refused(rt, refused, &buffer)?,
    }
    print!(rt; "\n")
}

// Each program has a `main` of its own; what they share is in `tables`. The input is read where it stays: one so long is not moved.
fn main(rt: HostRuntime) -> io::Result<()> {
    let mut input = ArrayVec::<u8, INPUT>::new();
    io::copy(&mut rt.reader().take(INPUT as u64), &mut input)?;
    tables::each_row(&rt, &input, |rt, line| row(rt, line))
}
