// What the test programs share: the input and its rows, bytes in hex, the calls by their names, answers printed, and whether a lent buffer was left alone.
#![tactic(auto)]

ghost use Rattle.std.specs.Prelude.{IfSome, ◌≡◌, ◌-◌, ◌≤◌, ◌<◌, ◌^◌, ◌++◌, take, length};
ghost use Rattle.model.specs.Answer.{said, outcome, after};
ghost use Rattle.model.specs.KindText.{lookup};
ghost use Rattle.tables.specs.Hex.{digit_value, byte_value, bytes_value};
ghost use Rattle.tables.specs.Asked.{asked_output, call_names, asked_named};

use arrayvec::ArrayVec;
use model::{Answer, Call, Refused};
use std::io::Read;
use std::{fmt, io};

// What a lent buffer holds beforehand.
pub const FILL: u8 = 0xA5;

// Printing.

pub fn print_hex<P: Print>(rt: &P, bytes: &[u8]) -> io::Result<()> {
    for byte in bytes {
        print!(rt; "{byte:02x}")?;
    }
    Ok(())
}

pub fn print_bytes<P: Print>(rt: &P, bytes: &[u8]) -> io::Result<()> {
    rt.write_all(bytes)
}

// Whether the bytes behind what was written are those that the buffer held beforehand.
pub fn print_damage<P: Print>(rt: &P, rest: &[u8]) -> io::Result<()> {
    if rest.iter().any(|&byte| byte != FILL) {
        print!(rt; " damaged")?;
    }
    Ok(())
}

pub fn print_refused<P: Print>(rt: &P, refused: Refused, buffer: &[u8]) -> io::Result<()> {
    let number = u32::from(refused.refusal);
    let position = refused.position;
    print!(rt; " no {number} {position}")?;
    print_damage(rt, buffer)
}

// An answer, and what the call wrote as `show` prints it.
fn print_answer<P: Print, F: Fn(&P, &[u8]) -> io::Result<()>>(
    rt: &P,
    answer: Answer,
    buffer: &[u8],
    show: F,
) -> io::Result<()>
    requires { F.IsAlwaysCallable show }
{
    let length = match answer {
        Ok(length) => length,
        Err(refused) => return print_refused(rt, refused, buffer),
    };
    print!(rt; " ok {length}")?;
    if length <= buffer.len() {
        print!(rt; " ")?;
        show(rt, &buffer[..length])?;
        print_damage(rt, &buffer[length..])?;
    }
    Ok(())
}

// The answer of a call that is lent the first bytes of a buffer.
pub fn show_answer<
    const N: usize,
    P: Print,
    A: FnOnce(&mut [u8]) -> Answer,
    F: Fn(&P, &[u8]) -> io::Result<()>,
>(rt: &P, room: usize, ask: A, show: F) -> io::Result<()>
    requires asks { A.IsAlwaysCallable ask }
    requires shows { F.IsAlwaysCallable show }
    requires fits { N < 2 ^ 63 }
{
    let mut buffer = [FILL; N];
    let answer = ask(&mut buffer[..room.min(N)]);
    print_answer(rt, answer, &buffer, show)
}

// Reading.

// The input, as far as there is room for it.
pub fn read_input<const N: usize>(rt: &impl Input) -> io::Result<ArrayVec<u8, N>> {
    let mut input = ArrayVec::<u8, N>::new();
    io::copy(&mut rt.reader().take(N as u64), &mut input)?;
    Ok(input)
}

// What has no room is left out.
pub fn put<const N: usize>(out: &mut ArrayVec<u8, N>, bytes: &[u8])
    ensures { out.new.items ≡ out.old.items ++ take (N - length out.old.items) bytes.now }
{
    let fitting = bytes.len().min(out.remaining_capacity());
    let _ = out.try_extend_from_slice(&bytes[..fitting]);
}

// Rows.

// Runs `show` on each line of an input. The last may end without a line feed.
pub fn each_row<P: Print, F: Fn(&P, &[u8]) -> io::Result<()>>(
    rt: &P,
    input: &[u8],
    show: F,
) -> io::Result<()>
    requires { F.IsAlwaysCallable show }
{
    for line in input.split_inclusive(|&byte| byte == b'\n') {
        show(rt, line.strip_suffix(b"\n").unwrap_or(line))?;
    }
    Ok(())
}

// The field with a number, from 0; empty where there is none.
pub fn field<'a>(row: &'a [u8], number: usize) -> &'a [u8] {
    row.split(|&byte| byte == b' ').nth(number).unwrap_or(b"")
}

// What stands behind the first two fields; empty where there are no more.
pub fn rest<'a>(row: &'a [u8]) -> &'a [u8] {
    row.splitn(3, |&byte| byte == b' ').nth(2).unwrap_or(b"")
}

// Asking.

// The calls that read a text: neither case is a missing one.
#[derive(Clone, Copy, Debug, PartialEq, Eq)]
pub enum Asked {
    Declaration(Call),
    Kind,
}

impl fmt::Display for Asked {
    fn fmt<W: fmt::Write>(&self, f: &mut fmt::Formatter<W>) -> fmt::Result {
        f.write_str(match self {
            Asked::Declaration(Call::General) => "general",
            Asked::Declaration(Call::Function) => "function",
            Asked::Declaration(Call::Constructor) => "constructor",
            Asked::Declaration(Call::Event) => "event",
            Asked::Declaration(Call::Error) => "error",
            Asked::Kind => "kind",
        })
    }
}

pub fn ask(asked: Asked, text: &[u8], out: &mut [u8]) -> Answer
    ensures says { said result ≡ outcome (length out.old) (asked_output asked text.now) }
    ensures left { out.new ≡ after out.old (asked_output asked text.now) }
{
    match asked {
        Asked::Declaration(call) => declaration::read(call, text, out),
        Asked::Kind => kind_call::parse_kind(text, out),
    }
}

// The reading call of declarations that has a name.
pub fn call_of(name: &[u8]) -> Option<Call>
    ensures { result ≡ lookup call_names name.now }
{
    match name {
        b"general" => Some(Call::General),
        b"function" => Some(Call::Function),
        b"constructor" => Some(Call::Constructor),
        b"event" => Some(Call::Event),
        b"error" => Some(Call::Error),
        _ => None,
    }
}

pub fn asked_by(name: &[u8]) -> Option<Asked>
    ensures { result ≡ asked_named name.now }
{
    if name == b"kind".as_slice() {
        return Some(Asked::Kind);
    }
    call_of(name).map(Asked::Declaration)
}

// Hex: the library reads digits of characters alone.

fn digit(c: u8) -> Option<u8>
    ensures small { IfSome result (λ d. d ≤ 15) }
    ensures same { result ≡ digit_value c }
{
    match c {
        b'0'..=b'9' => Some(c - b'0'),
        b'a'..=b'f' => Some(c - b'a' + 10),
        _ => None,
    }
}

// The byte that two hex digits stand for.
pub fn byte_of(hex: &[u8]) -> Option<u8>
    ensures { result ≡ byte_value hex.now }
{
    match hex {
        [high, low] => Some(16 * digit(*high)? + digit(*low)?),
        _ => None,
    }
}

// Puts the bytes of hex digits, up to what is no byte, or as many as there is room for.
pub fn put_hex<const N: usize>(out: &mut ArrayVec<u8, N>, hex: &[u8])
    ensures { out.new.items ≡ out.old.items ++ take (N - length out.old.items) (bytes_value hex.now) }
{
    for pair in hex.chunks(2) {
        let Some(byte) = byte_of(pair) else {
            break;
        };
        if out.try_push(byte).is_err() {
            break;
        }
    }
}
