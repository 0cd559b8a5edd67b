// Document 01's edges, one line each: the call, the text, and the answer. The file stdout has what document 01 says of each, and of `string memory`
// and `external` what orders 1 and 2 say.
#![tactic(auto)]

use arrayvec::ArrayVec;
use model::{Answer, Call};
use std::{fmt, io};
use tables::{Asked, FILL};

// A long text is shown by its beginning.
const LONG: usize = 80;

const BEGINNING: usize = 8;

// Room for every answer here.
const AMPLE: usize = 2048;

// And for every line.
const LINE: usize = 128;

// What most calls on records are lent.
const LINE_ROOM: usize = 64;

const GENERAL: Asked = Asked::Declaration(Call::General);

const FUNCTION: Asked = Asked::Declaration(Call::Function);

const CONSTRUCTOR: Asked = Asked::Declaration(Call::Constructor);

const EVENT: Asked = Asked::Declaration(Call::Event);

const ERROR: Asked = Asked::Declaration(Call::Error);

const KIND: Asked = Asked::Kind;

// Printable bytes as they are, any other as `\x` and two digits.
fn print_characters<P: Print>(rt: &P, text: &[u8]) -> io::Result<()> {
    for &byte in text {
        match byte {
            b' '..=b'~' => tables::print_bytes(rt, &[byte])?,
            _ => print!(rt; "\\x{byte:02x}")?,
        }
    }
    Ok(())
}

// In quotes; of a long text the beginning, and its length.
fn print_text<P: Print>(rt: &P, text: &[u8]) -> io::Result<()> {
    print!(rt; " \"")?;
    if text.len() <= LONG {
        print_characters(rt, text)?;
        print!(rt; "\"")
    } else {
        let length = text.len();
        print_characters(rt, &text[..BEGINNING])?;
        print!(rt; "...\" of {length}")
    }
}

// A call that is lent enough.
fn row<P: Print>(rt: &P, asked: Asked, text: &[u8]) -> io::Result<()> {
    print!(rt; "{asked}")?;
    print_text(rt, text)?;
    tables::show_answer::<AMPLE, _, _, _>(
        rt,
        AMPLE,
        |out| tables::ask(asked, text, out),
        tables::print_hex,
    )?;
    print!(rt; "\n")
}

// A call that is lent so many bytes of a buffer that reaches further.
fn row_in<P: Print>(rt: &P, room: usize, asked: Asked, text: &[u8]) -> io::Result<()> {
    print!(rt; "{asked}")?;
    print_text(rt, text)?;
    print!(rt; " in {room}")?;
    tables::show_answer::<LINE, _, _, _>(
        rt,
        room,
        |out| tables::ask(asked, text, out),
        tables::print_hex,
    )?;
    print!(rt; "\n")
}

// The edges of kinds that the proved table does not have, and two suffixes in their order.
fn kinds<P: Print>(rt: &P) -> io::Result<()> {
    row(rt, KIND, b"uint0")?;
    row(rt, KIND, b"bytes1")?;
    row(rt, KIND, b"bytes0")?;
    row(rt, KIND, b"uint[0]")?;
    row(rt, KIND, b"uint[2][]")?;
    row(rt, KIND, b"(uint)")
}

// Each refusal of the kind call but 20, at its edge where it has one.
fn kind_refusals<P: Print>(rt: &P) -> io::Result<()> {
    let longest = [b'a'; 4096];
    let too_long = [b'a'; 4097];
    row(rt, KIND, &longest)?;
    row(rt, KIND, &too_long)?;
    row(rt, KIND, b"uint8\xFF")?;
    row(rt, KIND, b"int7")?;
    row(rt, KIND, b"uint ")?;
    row(rt, KIND, b"bytes+")?;
    row(rt, KIND, b"uin")?;
    row(rt, KIND, b" uint")?;
    let deepest = [b'('; 32];
    let too_deep = [b'('; 33];
    row(rt, KIND, &deepest)?;
    row(rt, KIND, &too_deep)
}

// Which refusal comes first where two hold.
fn kind_order<P: Print>(rt: &P) -> io::Result<()> {
    let neither = [0xFF; 4097];
    row(rt, KIND, &neither)?;
    row(rt, KIND, b"(\xFF")?;
    row_in(rt, 0, KIND, b"uint0")
}

// Room that is short, that fits and that is left over.
fn in_rooms<P: Print>(rt: &P, rooms: [usize; 4], asked: Asked, text: &[u8]) -> io::Result<()> {
    for room in rooms {
        row_in(rt, room, asked, text)?;
    }
    Ok(())
}

fn kind_room<P: Print>(rt: &P) -> io::Result<()> {
    in_rooms(rt, [0, 25, 26, 27], KIND, b"string[]")
}

// The edges of declarations that the proved table does not have.
fn declarations<P: Print>(rt: &P) -> io::Result<()> {
    row(rt, FUNCTION, b"")?;
    row(rt, FUNCTION, b" function f()")?;
    row(rt, GENERAL, b"functionf()")?;
    row(rt, GENERAL, b"function f(uint")?;
    row(rt, GENERAL, b"function f();;")?;
    row(rt, GENERAL, b"function f() external")?;
    row(
        rt,
        GENERAL,
        b"error e((((((((((((((((((((((((((((((((()))))))))))))))))))))))))))))))))",
    )?;
    row(
        rt,
        GENERAL,
        b"error e(((((((((((((((((((((((((((((((((())))))))))))))))))))))))))))))))))",
    )
}

// One of each sort.
fn sorts<P: Print>(rt: &P) -> io::Result<()> {
    row(rt, GENERAL, b"function f(uint a)")?;
    row(rt, CONSTRUCTOR, b"constructor() payable")?;
    row(rt, EVENT, b"event E(uint indexed a) anonymous")?;
    row(rt, ERROR, b"error e(uint[2][] a)")
}

// "Errors that lie near"
fn near<P: Print>(rt: &P) -> io::Result<()> {
    row(rt, GENERAL, b"function f((uin) a)")?;
    row(rt, GENERAL, b"function  ")?;
    row(rt, GENERAL, b"function f(string memory)")
}

// The other refusals of the reading calls but 20, and which comes first.
fn refusals<P: Print>(rt: &P) -> io::Result<()> {
    let too_long = [b'a'; 4097];
    let neither = [0xFF; 4097];
    row(rt, GENERAL, b"function f uint")?;
    row(rt, GENERAL, b"f()")?;
    row(rt, ERROR, b"function f()")?;
    row(rt, GENERAL, &too_long)?;
    row(rt, GENERAL, &neither)?;
    row(rt, GENERAL, b"function f(\xFF")?;
    row(rt, GENERAL, b"\xFF")?;
    row_in(rt, 0, GENERAL, b"functionf()")
}

fn room<P: Print>(rt: &P) -> io::Result<()> {
    in_rooms(rt, [0, 26, 27, 28], GENERAL, b"function f()")
}

// 32 tuples that nest are read in every list, and a 33rd is not, also behind a sibling.
fn nesting<P: Print>(rt: &P) -> io::Result<()> {
    deep(rt, FUNCTION, b"function f(", b")")?;
    deep(rt, FUNCTION, b"function f() returns (", b")")?;
    deep(rt, CONSTRUCTOR, b"constructor(", b")")?;
    deep(rt, EVENT, b"event E(", b")")?;
    deep(rt, ERROR, b"error e(", b")")?;
    deep(rt, GENERAL, b"error e((bool),", b")")
}

// "A field that fails, unless by refusal 10, ends the list there": one that failed before wins, and `(` inside a run never counts.
fn nesting_first<P: Print>(rt: &P) -> io::Result<()> {
    deep(rt, GENERAL, b"error e(uin,", b")")?;
    deep(rt, GENERAL, b"error e(uin", b")")
}

// Between a beginning and an end, 32 and 33 tuples.
fn deep<P: Print>(rt: &P, asked: Asked, before: &[u8], after: &[u8]) -> io::Result<()> {
    row_deep(rt, asked, before, 32, after)?;
    row_deep(rt, asked, before, 33, after)
}

// The answer alone, and of an acceptance the length.
fn row_deep<P: Print>(
    rt: &P,
    asked: Asked,
    before: &[u8],
    tuples: usize,
    after: &[u8],
) -> io::Result<()> {
    let text = write_deep(before, tuples, after);
    print!(rt; "{asked} \"")?;
    print_characters(rt, before)?;
    print!(rt; "\" {tuples} \"")?;
    print_characters(rt, after)?;
    print!(rt; "\"")?;
    let mut buffer = [FILL; AMPLE];
    match tables::ask(asked, &text, &mut buffer) {
        Ok(length) => {
            print!(rt; " ok {length}")?;
            tables::print_damage(rt, buffer.get(length..).unwrap_or(b""))?;
        }
        Err(refused) => tables::print_refused(rt, refused, &buffer)?,
    }
    print!(rt; "\n")
}

fn write_deep(before: &[u8], tuples: usize, after: &[u8]) -> ArrayVec<u8, LINE> {
    let mut text = ArrayVec::<u8, LINE>::new();
    tables::put(&mut text, before);
    for _ in 0..tuples {
        tables::put(&mut text, b"(");
    }
    for _ in 0..tuples {
        tables::put(&mut text, b")");
    }
    tables::put(&mut text, after);
    text
}

// The calls on a record.
#[derive(Clone, Copy, Debug, PartialEq, Eq)]
enum Line {
    Canonical,
    Signature,
    KindText,
}

impl fmt::Display for Line {
    fn fmt<W: fmt::Write>(&self, f: &mut fmt::Formatter<W>) -> fmt::Result {
        f.write_str(match self {
            Line::Canonical => "canonical",
            Line::Signature => "signature",
            Line::KindText => "kind text",
        })
    }
}

impl Line {
    fn write(self, record: &[u8], out: &mut [u8]) -> Answer {
        match self {
            Line::Canonical => abi::canonical(record, out),
            Line::Signature => abi::signature(record, out),
            Line::KindText => abi::kind_text(record, out),
        }
    }
}

fn show_line<P: Print>(rt: &P, room: usize, line: Line, record: &[u8]) -> io::Result<()> {
    tables::show_answer::<LINE, _, _, _>(
        rt,
        room,
        |out| line.write(record, out),
        |rt, text| print_characters(rt, text),
    )?;
    print!(rt; "\n")
}

fn line_row<P: Print>(rt: &P, line: Line, record: &[u8]) -> io::Result<()> {
    print!(rt; "  {line}")?;
    show_line(rt, LINE_ROOM, line, record)
}

fn line_row_in<P: Print>(rt: &P, room: usize, line: Line, record: &[u8]) -> io::Result<()> {
    print!(rt; "  {line} in {room}")?;
    show_line(rt, room, line, record)
}

fn name_row<P: Print>(rt: &P, record: &[u8]) -> io::Result<()> {
    let (number, name) = match abi::name(record) {
        Ok(name) => (0, name),
        Err(refusal) => (u32::from(refusal), &record[..0]),
    };
    print!(rt; "  name {number} \"")?;
    print_characters(rt, name)?;
    print!(rt; "\"\n")
}

// Every call on one record.
fn lines_of<P: Print>(rt: &P, record: &[u8]) -> io::Result<()> {
    line_row(rt, Line::Canonical, record)?;
    line_row(rt, Line::Signature, record)?;
    line_row(rt, Line::KindText, record)?;
    name_row(rt, record)
}

// Every call on the record that is read of a text.
fn lines<P: Print>(rt: &P, asked: Asked, text: &[u8]) -> io::Result<()> {
    print!(rt; "{asked}")?;
    print_text(rt, text)?;
    print!(rt; "\n")?;
    let mut buffer = [FILL; AMPLE];
    match tables::ask(asked, text, &mut buffer) {
        Ok(length) => lines_of(rt, buffer.get(..length).unwrap_or(b"")),
        Err(_) => print!(rt; "  none\n"),
    }
}

// Records of each sort. A fixed suffix of 14 bytes may have a text of 22.
fn record_sorts<P: Print>(rt: &P) -> io::Result<()> {
    lines(
        rt,
        GENERAL,
        b"function f(uint a, (bool, bytes32[2])[] memory b) returns (int8)",
    )?;
    lines(rt, GENERAL, b"constructor(uint a)")?;
    lines(rt, GENERAL, b"event E(uint indexed a)")?;
    lines(rt, GENERAL, b"error e()")?;
    lines(rt, KIND, b"uint[18446744073709551615]")
}

// Bytes that are no record: none, document 01's record cut short, with a byte behind it, with its length field one too small, and with its one
// field marked `indexed`, which only an event's may be.
fn record_not<P: Print>(rt: &P) -> io::Result<()> {
    lines_of(rt, b"")?;
    let mut worked =
        *b"\x32\0\0\0\x20\0\x02\0\x07\0\0\0\x11\0\x66\x1D\0\0\0\x12\0\x17\0\0\0\x10\0\0\0\x07\0\0\0\x11\0\x61\x08\0\0\0\x02\0\0\x01\x06\0\0\0\x12\0\0";
    lines_of(rt, &worked[..50])?;
    lines_of(rt, &worked[..49])?;
    lines_of(rt, &worked)?;
    worked[0] = 0x31;
    lines_of(rt, &worked[..50])?;
    worked[0] = 0x32;
    worked[27] = 1;
    lines_of(rt, &worked[..50])
}

// Room for a line that is short, that fits and that is left over.
fn record_room<P: Print>(rt: &P) -> io::Result<()> {
    let record = b"\x1B\0\0\0\x20\0\x02\0\x07\0\0\0\x11\0\x66\x06\0\0\0\x12\0\x06\0\0\0\x12\0";
    line_row_in(rt, 0, Line::Canonical, record)?;
    line_row_in(rt, 2, Line::Canonical, record)?;
    line_row_in(rt, 3, Line::Canonical, record)?;
    line_row_in(rt, 4, Line::Canonical, record)?;
    line_row_in(rt, 5, Line::Signature, record)?;
    line_row_in(rt, 6, Line::Signature, record)?;
    line_row_in(rt, 0, Line::KindText, record)
}

// The message call, for a reading call of declarations.
fn message_row<P: Print>(rt: &P, call: Call, text: &[u8], room: usize) -> io::Result<()> {
    let asked = Asked::Declaration(call);
    print!(rt; "message {asked}")?;
    print_text(rt, text)?;
    tables::show_answer::<LINE, _, _, _>(
        rt,
        room,
        |out| message::message(call, text, out),
        |rt, text| print_characters(rt, text),
    )?;
    print!(rt; "\n")
}

// Document 01's message, 5 naming the keyword, escapes, a character that ten bytes would cut on either side, and where nothing is written.
fn messages<P: Print>(rt: &P) -> io::Result<()> {
    let too_long = [b'a'; 4097];
    message_row(rt, Call::General, b"function ()", 128)?;
    message_row(rt, Call::Event, b"error e()", 128)?;
    message_row(rt, Call::General, b"error e\0\x1B\"\\\x7F", 128)?;
    message_row(
        rt,
        Call::General,
        b"error e\xE2\x82\xAC\xE2\x82\xAC\xE2\x82\xAC\xE2\x82\xAC",
        128,
    )?;
    message_row(
        rt,
        Call::General,
        b"error e()\xE3\x80\x80\xE3\x80\x80\xE3\x80\x80\xE3\x80\x80x",
        128,
    )?;
    message_row(rt, Call::General, b"function f()", 128)?;
    message_row(rt, Call::General, &too_long, 128)?;
    message_row(rt, Call::General, b"\xFF", 128)?;
    message_row(rt, Call::General, b"function ()", 49)?;
    message_row(rt, Call::General, b"function ()", 48)
}

fn main(rt: HostRuntime) -> io::Result<()> {
    kinds(&rt)?;
    kind_refusals(&rt)?;
    kind_order(&rt)?;
    kind_room(&rt)?;
    declarations(&rt)?;
    sorts(&rt)?;
    near(&rt)?;
    refusals(&rt)?;
    room(&rt)?;
    nesting(&rt)?;
    nesting_first(&rt)?;
    record_sorts(&rt)?;
    record_not(&rt)?;
    record_room(&rt)?;
    messages(&rt)
}
