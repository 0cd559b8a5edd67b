// The message call: the Display of the Rust's `ParseError`. A line is put together in a buffer of the call's own and copied if all of it fits.
#![tactic(auto)]

ghost use Rattle.std.specs.Prelude.{◌≡◌, [], ◌∷◌, ◌++◌, ◌+◌, ◌*◌, ◌-◌, ◌≤◌, ◌<◌, leb, length, option_copied, IfSome};
ghost use Rattle.kinds.specs.Bytes.{ascii};
ghost use Rattle.kinds.specs.Decimal.{decimal};
ghost use Rattle.model.specs.Text.{is_tail, part};
ghost use Rattle.model.specs.Reading.{keyword_text};
ghost use Rattle.model.specs.Message.{wording, whole_from, whole_to, ellipsis, context, hex_digit, hex, unicode, escape, escaped, message_output};
ghost use Rattle.model.specs.Answer.{said, outcome, after};
ghost use Rattle.model.specs.Calls.{read_output};
ghost use Rattle.message.specs.Lines.{placed, display};

use arrayvec::ArrayVec;
use model::{Answer, Call, Keyword, Refusal, Refused};

// How many bytes a context shows on each side.
const REACH: usize = 10;

// Two ellipses, two sides and a `|`.
const LONGEST_CONTEXT: usize = 27;

// No message is longer.
const LONGEST: usize = 256;

type Line = ArrayVec<u8, LONGEST>;

fn write(line: &mut Line, t: &[u8])
    requires { length line.old.items + length t.now ≤ 256 }
    ensures { (line.new.items ≡ line.old.items ++ t.now) × (length line.new.items ≡ length line.old.items + length t.now) }
{
    line.try_extend_from_slice(t).unwrap();
}

// A position, in plain decimal.
fn write_decimal(line: &mut Line, v: usize)
    requires { length line.old.items + 20 ≤ 256 }
    ensures { (line.new.items ≡ line.old.items ++ decimal v) × (length line.new.items ≤ length line.old.items + 20) }
{
    write(line, itoa::Buffer::new().format(v).as_bytes());
}

// Escapes, as Rust's Debug has them.

// The library formats numbers into a `Formatter`, not a digit into a line.
fn hex_digit(n: u8) -> u8
    requires { n < 16 }
    ensures { result ≡ hex_digit n }
{
    match n {
        0..=9 => b'0' + n,
        _ => b'a' + (n - 10),
    }
}

fn write_hex(line: &mut Line, b: u8)
    requires { length line.old.items + 2 ≤ 256 }
    ensures { line.new.items ≡ line.old.items ++ hex b }
{
    if 16 <= b {
        line.push(hex_digit(b / 16));
    }
    line.push(hex_digit(b % 16));
}

fn write_unicode(line: &mut Line, b: u8)
    requires { length line.old.items + 6 ≤ 256 }
    ensures { line.new.items ≡ line.old.items ++ unicode b }
{
    if b.is_ascii_control() {
        write(line, b"\\u{");
        write_hex(line, b);
        line.push(b'}');
    } else {
        line.push(b);
    }
}

fn write_escape(line: &mut Line, b: u8)
    requires { length line.old.items + 6 ≤ 256 }
    ensures { line.new.items ≡ line.old.items ++ escape b }
{
    match b {
        b'\0' => write(line, b"\\0"),
        b'\t' => write(line, b"\\t"),
        b'\n' => write(line, b"\\n"),
        b'\r' => write(line, b"\\r"),
        b'"' => write(line, b"\\\""),
        b'\\' => write(line, b"\\\\"),
        _ => write_unicode(line, b),
    }
}

fn write_escaped(line: &mut Line, t: &[u8])
    requires { length line.old.items + 6 * length t.now ≤ 256 }
    ensures { (line.new.items ≡ line.old.items ++ escaped t.now) × (length line.new.items ≤ length line.old.items + 6 * length t.now) }
{
    for &b in t {
        write_escape(line, b);
    }
}

// The context of a position.

// The n bytes at a place, or those that there are.
fn part(s: &[u8], at: usize, n: usize) -> &[u8]
    ensures { (result.now ≡ part s.now at n) × (length result.now ≤ n) }
{
    let rest = &s[at.min(s.len())..];
    &rest[..n.min(rest.len())]
}

// The library has no test for it.
fn is_tail(c: u8) -> bool
    ensures { result ≡ is_tail c }
{
    128 <= c && c <= 191
}

// Without the tail of a character that was cut.
fn whole_from(t: &[u8]) -> &[u8]
    ensures { (result.now ≡ whole_from t.now) × (length result.now ≤ length t.now) }
{
    let k = t.iter().position(|&c| !is_tail(c)).unwrap_or(t.len());
    &t[k..]
}

// Without the beginning of a character that was cut.
fn whole_to(t: &[u8]) -> &[u8]
    ensures { (result.now ≡ whole_to t.now) × (length result.now ≤ length t.now) }
{
    &t[..text::valid_length(t)]
}

// `...` at an end that isn't the text's.
fn ellipsis(whole: bool) -> &'static [u8]
    ensures { (result.now ≡ ellipsis whole) × (length result.now ≤ 3) }
{
    if whole { b"" } else { b"..." }
}

fn write_context(line: &mut Line, s: &[u8], p: usize)
    requires { length line.old.items + 27 ≤ 256 }
    ensures { (line.new.items ≡ line.old.items ++ context s.now p) × (length line.new.items ≤ length line.old.items + 27) }
{
    let start = p.saturating_sub(REACH);
    let left = part(s, start, p - start);
    let right = part(s, p, REACH);
    write(line, ellipsis(start == 0));
    write(line, whole_from(left));
    line.push(b'|');
    write(line, whole_to(right));
    write(line, ellipsis(s.len().saturating_sub(p) <= REACH));
}

// What follows the wording.
fn write_place(line: &mut Line, s: &[u8], p: usize)
    requires { length line.old.items + 199 ≤ 256 }
    ensures { line.new.items ≡ line.old.items ++ placed s.now p }
{
    let mut context = Line::new();
    write_context(&mut context, s, p);
    write(line, b" at position ");
    write_decimal(line, p);
    write(line, b"(\"");
    write_escaped(line, &context);
    write(line, b"\")");
}

// `ParseErrorKind`'s Display.

// Not put together of `parser::keyword_text`: a wording is one text.
fn expected_keyword(k: Keyword) -> &'static [u8]
    ensures { (result.now ≡ ascii "expected " ++ keyword_text k) × (length result.now ≤ 27) }
{
    match k {
        Keyword::Function => b"expected function",
        Keyword::Constructor => b"expected constructor",
        Keyword::Event => b"expected event",
        Keyword::Error => b"expected error",
    }
}

// "The wordings are those of `ParseErrorKind`, 5 naming the keyword wanted."
fn wording(refusal: Refusal, k: Option<Keyword>) -> Option<&'static [u8]>
    ensures { (option_copied result ≡ wording refusal k) × IfSome result (λ words. length words.now ≤ 27) }
{
    match refusal {
        Refusal::Eos => Some(b"unexpected end of stream"),
        Refusal::ExpectOpen => Some(b"expected ("),
        Refusal::ExpectClose => Some(b"expected )"),
        Refusal::ExpectDeclaration => Some(b"expected declaration"),
        Refusal::ExpectKeyword => Some(expected_keyword(k?)),
        Refusal::ExpectIdentifier => Some(b"expected identifier"),
        Refusal::ExpectEnd => Some(b"expected end of declaration"),
        _ => None,
    }
}

// The call.

// `ParseError`'s Display, where a call refuses a text.
fn display(call: Call, text: &[u8], r: Refused, out: &mut [u8]) -> Answer
    ensures says { said result ≡ outcome (length out.old) (display call text.now r.refusal r.position) }
    ensures left { out.new ≡ after out.old (display call text.now r.refusal r.position) }
{
    let Some(words) = wording(r.refusal, parser::wanted(call, text)) else {
        return Ok(0);
    };
    let mut line = Line::new();
    write(&mut line, words);
    write_place(&mut line, text, r.position);
    layout::deliver(&line, out)
}

// What the call says of the text. No record fits into one byte.
fn read(call: Call, text: &[u8]) -> Answer
    ensures { said result ≡ outcome 1 (read_output call text.now) }
{
    declaration::read(call, text, &mut [0u8; 1])
}

// "The message call takes a text and one of the five reading calls and writes the Rust's Display".
pub fn message(call: Call, text: &[u8], out: &mut [u8]) -> Answer
    ensures says { said result ≡ outcome (length out.old) (message_output call text.now) }
    ensures left { out.new ≡ after out.old (message_output call text.now) }
{
    match read(call, text) {
        Ok(_) => Ok(0),
        Err(r) => display(call, text, r, out),
    }
}
