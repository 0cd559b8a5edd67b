// Replays the Rust original's answers through the calls. Standard input is the fixed list that tests/oracle/README.md describes. Prints the first
// rows that differ, and then how many rows of each call agree and how many differ. "The Rust forgets the word, so records are compared with marks
// 2 and 3 set to 0."
#![tactic(auto)]

ghost use Rattle.std.specs.Prelude.{◌+◌, ◌<◌, ◌≤◌, length};

use arrayvec::ArrayVec;
use layout::{CONSTRUCTOR, FUNCTION, HEAD, KIND, NUMBERED};
use model::{Answer, Call, Mark, Refusal, Refused};
use std::io;
use std::io::Read;
use tables::Asked;

// How many of the differing rows are named.
const NAMED: u64 = 10;

// The longest row has 95,667 bytes, the longest text 4,096 and the longest record 40,960. No line is twice as long as its record.
const WINDOW: usize = 131072;

const TEXT: usize = 4096;

const RECORD: usize = 40960;

const LINE: usize = 81920;

const MESSAGE: usize = 256;

type Text = ArrayVec<u8, TEXT>;

// How many rows of a call agree and how many differ.
#[derive(Clone, Copy, Debug, Default, PartialEq, Eq)]
struct Tally {
    agree: u64,
    differ: u64,
}

impl Tally {
    fn count(&mut self, agrees: bool) {
        let counted = if agrees {
            &mut self.agree
        } else {
            &mut self.differ
        };
        *counted = counted.wrapping_add(1);
    }

    fn print<P: Print>(self, rt: &P, name: &str) -> io::Result<()> {
        let agree = self.agree;
        let differ = self.differ;
        println!(rt; "{name}: {agree} agree, {differ} differ")
    }
}

// The rows so far, by the call; and how many differ in all.
#[derive(Clone, Copy, Debug, Default, PartialEq, Eq)]
struct Counts {
    rows: u64,
    differing: u64,
    general: Tally,
    function: Tally,
    constructor: Tally,
    event: Tally,
    error: Tally,
    kind: Tally,
    other: Tally,
}

impl Counts {
    fn tally(&mut self, asked: Option<Asked>) -> &mut Tally {
        match asked {
            Some(Asked::Declaration(Call::General)) => &mut self.general,
            Some(Asked::Declaration(Call::Function)) => &mut self.function,
            Some(Asked::Declaration(Call::Constructor)) => &mut self.constructor,
            Some(Asked::Declaration(Call::Event)) => &mut self.event,
            Some(Asked::Declaration(Call::Error)) => &mut self.error,
            Some(Asked::Kind) => &mut self.kind,
            None => &mut self.other,
        }
    }

    // Counts a row, and names it where it differs and few have.
    fn count<P: Print>(&mut self, rt: &P, asked: Option<Asked>, agrees: bool) -> io::Result<()> {
        self.rows = self.rows.wrapping_add(1);
        self.tally(asked).count(agrees);
        if !agrees {
            self.differing = self.differing.wrapping_add(1);
            if self.differing <= NAMED {
                let row = self.rows;
                println!(rt; "row {row} differs")?;
            }
        }
        Ok(())
    }

    fn print<P: Print>(&self, rt: &P) -> io::Result<()> {
        self.general.print(rt, "general")?;
        self.function.print(rt, "function")?;
        self.constructor.print(rt, "constructor")?;
        self.event.print(rt, "event")?;
        self.error.print(rt, "error")?;
        self.kind.print(rt, "kind")?;
        self.other.print(rt, "other")
    }
}

// Fields.

// Whether a field says these bytes, in hex; `-` says none.
fn is_hex(hex: &[u8], bytes: &[u8]) -> bool {
    if bytes.is_empty() {
        return hex == b"-".as_slice();
    }
    hex.len() % 2 == 0
        && hex.len() / 2 == bytes.len()
        && hex
            .chunks(2)
            .zip(bytes)
            .all(|(pair, &byte)| tables::byte_of(pair) == Some(byte))
}

// Whether a field says this number.
fn is_number(field: &[u8], n: u64) -> bool {
    text::plain(u64::MAX, field) == Some(n)
}

// Place words.

// The place behind the record at a place, or the end.
fn behind(b: &[u8], at: usize) -> usize
    requires { at < length b.now }
    ensures { (at < result) × (result ≤ length b.now) }
{
    if b.len() - at < HEAD {
        return b.len();
    }
    let n = layout::get4(b, at);
    if n < HEAD {
        return b.len();
    }
    if b.len() - at < n {
        return b.len();
    }
    at + n
}

// Sets a field's mark to 0 if it is 2 or 3.
fn forget_mark(b: &mut [u8], at: usize)
    requires { at < length b.old }
{
    if b.len() - at < NUMBERED {
        return;
    }
    if matches!(
        Mark::try_from(layout::get2(b, at + HEAD)),
        Ok(Mark::Calldata | Mark::Memory)
    ) {
        layout::put2(b, at + HEAD, Mark::Unmarked.into());
    }
}

// The same for the fields from a place up to an end: a loop, since each step is as long as the record that stands there.
fn forget_marks(b: &mut [u8], from: usize, end: usize)
    requires { end ≤ length b.old }
{
    let mut at = from;
    while at < end {
        forget_mark(b, at);
        at = behind(b, at);
    }
}

// The same for a list; answers the place behind it.
fn forget_list(b: &mut [u8], at: usize) -> usize
    requires { at < length b.old }
    ensures { result ≤ length b.new }
{
    let end = behind(b, at);
    forget_marks(b, at + HEAD, end);
    end
}

// The same for the list at a place, if there is one.
fn forget_there(b: &mut [u8], at: usize) {
    if at < b.len() {
        forget_list(b, at);
    }
}

// The same for a function's inputs and outputs, which stand behind its name.
fn forget_both(b: &mut [u8])
    requires { 8 < length b.old }
{
    let inputs = behind(b, NUMBERED);
    if inputs < b.len() {
        let outputs = forget_list(b, inputs);
        forget_there(b, outputs);
    }
}

// The same for a declaration's own lists, of which only a function's and a constructor's have such marks.
fn forget(b: &mut [u8]) {
    if NUMBERED < b.len() {
        match layout::get2(b, KIND) {
            FUNCTION => forget_both(b),
            CONSTRUCTOR => forget_there(b, NUMBERED),
            _ => (),
        }
    }
}

// Whether a field says a record without its place words, which are forgotten in a copy of it.
fn is_record(hex: &[u8], record: &[u8]) -> bool {
    let mut copy = ArrayVec::<u8, RECORD>::new();
    if copy.try_extend_from_slice(record).is_err() {
        return false;
    }
    forget(&mut copy);
    is_hex(hex, &copy)
}

// Rows.

// Whether a field says what a call writes of a record, or that there is none, which is refusal 16.
fn says_line<A: FnOnce(&[u8], &mut [u8]) -> Answer>(field: &[u8], record: &[u8], line: A) -> bool
    requires { A.IsAlwaysCallable line }
{
    let mut buffer = [0; LINE];
    match line(record, &mut buffer) {
        Ok(length) => buffer.get(..length).is_some_and(|text| is_hex(field, text)),
        Err(refused) => refused.refusal == Refusal::WrongSort && field == b"-".as_slice(),
    }
}

// Whether the row has the lines of this record.
fn says_lines(row: &[u8], asked: Asked, record: &[u8]) -> bool {
    match asked {
        Asked::Kind => says_line(tables::field(row, 4), record, abi::kind_text),
        Asked::Declaration(_) => {
            says_line(tables::field(row, 4), record, abi::canonical)
                && says_line(tables::field(row, 5), record, abi::signature)
        }
    }
}

// Whether the row has this record, and its lines, which are asked of the record as it was written.
fn says_record(row: &[u8], asked: Asked, record: &[u8]) -> bool {
    tables::field(row, 2) == b"ok".as_slice()
        && is_record(tables::field(row, 3), record)
        && says_lines(row, asked, record)
}

// Whether the row has this message. One with a character beyond ASCII, which the Rust may escape, is left to tests/compare.
fn says_message(row: &[u8], call: Call, text: &[u8]) -> bool {
    let mut buffer = [0; MESSAGE];
    match message::message(call, text, &mut buffer) {
        Ok(length) => {
            let line = buffer.get(..length).unwrap_or(b"");
            is_hex(tables::field(row, 5), line) || !line.is_ascii()
        }
        Err(_) => false,
    }
}

// A row where the Rust panics has a number and a position, but no message.
fn is_refused(row: &[u8], asked: Asked, text: &[u8]) -> bool {
    match tables::field(row, 2) {
        b"panic" => true,
        b"no" => match asked {
            Asked::Declaration(call) => says_message(row, call, text),
            Asked::Kind => true,
        },
        _ => false,
    }
}

// Whether the row has this number and position, and the message.
fn says_refusal(row: &[u8], asked: Asked, text: &[u8], refused: Refused) -> bool {
    is_refused(row, asked, text)
        && is_number(tables::field(row, 3), u32::from(refused.refusal) as u64)
        && is_number(tables::field(row, 4), refused.position as u64)
}

// Whether a call answers a text as the row says. The call writes into the buffer that is lent.
fn agrees(row: &[u8], asked: Asked, text: &[u8], buffer: &mut [u8]) -> bool {
    match tables::ask(asked, text, buffer) {
        Ok(length) => buffer
            .get(..length)
            .is_some_and(|record| says_record(row, asked, record)),
        Err(refused) => says_refusal(row, asked, text, refused),
    }
}

// A text that is not decoded whole differs. The text and what a call writes of it stand in what is lent.
fn replay_row<P: Print>(
    rt: &P,
    counts: &mut Counts,
    text: &mut Text,
    buffer: &mut [u8],
    row: &[u8],
) -> io::Result<()> {
    let asked = tables::asked_by(tables::field(row, 0));
    let hex = tables::field(row, 1);
    text.clear();
    tables::put_hex(text, hex);
    let same = match asked {
        Some(asked) => is_hex(hex, text) && agrees(row, asked, text, buffer),
        None => false,
    };
    counts.count(rt, asked, same)
}

// Replays whole lines.
fn replay_lines<P: Print>(
    rt: &P,
    counts: &mut Counts,
    text: &mut Text,
    buffer: &mut [u8],
    lines: &[u8],
) -> io::Result<()> {
    for line in lines.split_inclusive(|&byte| byte == b'\n') {
        replay_row(
            rt,
            counts,
            text,
            buffer,
            line.strip_suffix(b"\n").unwrap_or(line),
        )?;
    }
    Ok(())
}

// How many bytes of a window are whole lines.
fn whole_lines(window: &[u8]) -> usize
    ensures { result ≤ length window.now }
{
    match window.iter().rposition(|&byte| byte == b'\n') {
        Some(end) => (end + 1).min(window.len()),
        None => 0,
    }
}

// Replays the list to its end, by windows that whole lines are taken from. Nothing says that an input ends, so the turns are counted, up to a number
// that none uses up.
fn replay_list<P: Input + Print>(rt: &P, counts: &mut Counts) -> io::Result<()> {
    let mut window = ArrayVec::<u8, WINDOW>::new();
    let mut text = Text::new();
    let mut buffer = [0; RECORD];
    for _ in 0..u64::MAX {
        let held = window.len();
        let room = window.remaining_capacity() as u64;
        io::copy(&mut rt.reader().take(room), &mut window)?;
        if window.len() == held {
            break;
        }
        let done = whole_lines(&window);
        replay_lines(rt, counts, &mut text, &mut buffer, &window[..done])?;
        window.drain(..done);
    }
    if !window.is_empty() {
        println!(rt; "a line has no end, or is longer than the window")?;
    }
    Ok(())
}

fn main(rt: HostRuntime) -> io::Result<()> {
    let mut counts = Counts::default();
    replay_list(&rt, &mut counts)?;
    counts.print(&rt)
}
