// Scanning texts: bytes, characters, blanks, words, runs and numbers; and the limits of a text. A scanner is handed a part of the text and answers
// a length.
#![tactic(auto)]

ghost use Rattle.std.specs.Prelude.{◌≡◌, ◌+◌, ◌-◌, ◌*◌, ◌/◌, ◌≤◌, ◌<◌, eqb, length, take, drop, Some, IfSome};
ghost use Rattle.std.specs.Int.Count.{count_trailing_zeros};
ghost use Rattle.kinds.specs.Bytes.{is_digit, is_letter, is_word_byte, same};
ghost use Rattle.kinds.specs.Decimal.{at_most, plain, number};
ghost use Rattle.model.specs.Layout.{little_endian};
ghost use Rattle.model.specs.Text.{span, one, tails, scalar, char_of, valid_length, is_blank, blank, peek, word_length, run_byte, run_length};
ghost use Rattle.model.specs.KindText.{starts};
ghost use Rattle.text.specs.Found.{byte_or_end, is_alphabetic, is_plain, is_stop, flags, Begun, Runs, tail_of, char_from, Skipped, digit_of};
ghost use Rattle.text.specs.Admitted.{AdmittedIs};

use model::{Refusal, Refused};

// Eight bytes in a number: a byte times EACH is that byte eight times.
const EACH: u64 = 0x0101010101010101;

const HIGH_BITS: u64 = 0x80 * EACH;

const LOW_BITS: u64 = 0x7F * EACH;

// What tells an uppercase letter from the lowercase one.
const CASE_BITS: u64 = 0x20 * EACH;

// Added to a byte below 128, this sets the high bit above `z`.
const ABOVE_Z: u64 = (0x7F - b'z') as u64 * EACH;

// Where a byte below 128 is taken from this, the high bit is set below `a`.
const BELOW_A: u64 = (0x7F + b'a') as u64 * EACH;

// The same up to `,`.
const UP_TO_COMMA: u64 = (0x80 + b',') as u64 * EACH;

// a-z, A-Z, $, _
pub fn is_letter(c: u8) -> bool
    ensures { result ≡ is_letter c }
{
    c.is_ascii_lowercase() || c.is_ascii_uppercase() || matches!(c, b'$' | b'_')
}

fn is_word_byte(c: u8) -> bool
    ensures { result ≡ is_word_byte c }
{
    c.is_ascii_digit() || is_letter(c)
}

// How many digits a part begins with.
pub fn digits(t: &[u8]) -> usize
    ensures { (result ≡ span (one is_digit) t.now) × (result ≤ length t.now) }
{
    t.iter()
        .position(|c| !c.is_ascii_digit())
        .unwrap_or(t.len())
}

// The high bit of each of eight bytes that is none of a-z, A-Z: it has that bit itself or, without it and with the bit of 32, is below 97 or
// above 122.
#[tactic(auto, using(crate::proofs::Eights::eights))]
fn others(v: u64) -> u64
    ensures { result ≡ flags is_alphabetic (little_endian 8 v) }
{
    let u = v & LOW_BITS | CASE_BITS;
    (v | (u + ABOVE_Z) | (BELOW_A - u)) & HIGH_BITS
}

// How many of eight bytes come before the first whose high bit is set.
fn lead(f: u64) -> usize
    ensures { (result ≡ count_trailing_zeros 64 f / 8) × (result ≤ 8) }
{
    (f.trailing_zeros() / 8) as usize
}

// How many of a-z, A-Z eight bytes begin with.
pub fn letters(t: &[u8], at: usize) -> usize
    requires { at + 8 ≤ length t.now }
    ensures { (result ≡ span (one is_alphabetic) (take 8 (drop at t.now))) × (result ≤ 8) }
{
    lead(others(layout::get8(t, at)))
}

// How many bytes of words a part begins with.
fn word_bytes(t: &[u8]) -> usize
    ensures { (result ≡ span (one is_word_byte) t.now) × (result ≤ length t.now) }
{
    t.iter().position(|c| !is_word_byte(*c)).unwrap_or(t.len())
}

// How long the word is that a part begins with, of which c bytes are gone over.
#[tactic(auto, using(crate::proofs::Beginnings::words))]
fn word_from(t: &[u8], c: usize) -> usize
    requires { Begun t.now c }
    ensures { (result ≡ word_length t.now) × (result ≤ length t.now) }
{
    c + word_bytes(&t[c..])
}

// The same, byte by byte.
#[tactic(auto, unfolding(model::specs::Text::word_length))]
fn word_slowly(t: &[u8]) -> usize
    ensures { (result ≡ word_length t.now) × (result ≤ length t.now) }
{
    match t {
        [c, rest @ ..] if is_letter(*c) => 1 + word_bytes(rest),
        _ => 0,
    }
}

// How long the word is that a part begins with: the letters at its front are taken eight at a time.
#[tactic(auto, using(crate::proofs::Beginnings::words))]
pub fn word(t: &[u8]) -> usize
    ensures { (result ≡ word_length t.now) × (result ≤ length t.now) }
{
    if 8 <= t.len() {
        let c = letters(t, 0);
        if c == 8 && 16 <= t.len() {
            return word_from(t, 8 + letters(t, 8));
        }
        if 0 < c {
            return word_from(t, c);
        }
    }
    word_slowly(t)
}

// Whether two byte strings are equal: decided at unequal lengths or at the first bytes that differ.
pub fn equal(a: &[u8], b: &[u8]) -> bool
    ensures { result ≡ same a.now b.now }
{
    a == b
}

// Whether t begins with w.
pub fn begins(w: &[u8], t: &[u8]) -> bool
    ensures { result ≡ starts w.now t.now }
{
    t.starts_with(w)
}

// Characters.

// The six bits of a tail byte, which is the second or a later byte of a character.
#[tactic(auto, unfolding(crate::specs::Found::tail_of))]
fn tail(c: u8) -> Option<u32>
    ensures { result ≡ tail_of c }
{
    match c {
        0x80..=0xBF => Some((c - 0x80) as u32),
        _ => None,
    }
}

// The code point that k tail bytes complete.
#[tactic(auto, using(crate::proofs::Characters::tail_bytes))]
fn tails(k: usize, v: u32, t: &[u8]) -> Option<u32>
    requires { (k ≤ 3) × (v < 32) }
    ensures { result ≡ tails k v t.now }
{
    let bytes = t.get(..k)?;
    let mut code = v;
    for &c in bytes {
        code = code * 64 + tail(c)?;
    }
    Some(code)
}

// A character by its code point and length.
#[derive(Clone, Copy, Debug, PartialEq, Eq)]
pub struct Char {
    pub code: u32,
    pub len: usize,
}

// A character of len bytes, the first of which stands for lead: it wants so many since its code point is at least low. No overlong form, no surrogate,
// at most 10FFFF. Inlined, so that the answer stays out of memory.
#[tactic(auto, unfolding(crate::specs::Found::char_from))]
#[inline(always)]
fn scalar(len: usize, low: u32, lead: u32, rest: &[u8]) -> Option<Char>
    requires { (0 < len) × (len ≤ 4) × (lead < 32) }
    ensures same { char_from result ≡ scalar len low (tails (len - 1) lead rest.now) }
    ensures length { IfSome result (λ c. c.len ≡ len) }
{
    let code = tails(len - 1, lead, rest)?;
    match code {
        0xD800..=0xDFFF => None,
        0..=0x10FFFF if low <= code => Some(Char { code, len }),
        _ => None,
    }
}

// The character that a part begins with. Inlined, so that an ASCII byte, which most are, costs no call.
#[tactic(auto, using(crate::proofs::Characters::within), unfolding(crate::specs::Found::char_from, model::specs::Text::char_of))]
#[inline(always)]
fn char_of(t: &[u8]) -> Option<Char>
    ensures same { char_from result ≡ char_of t.now }
    ensures inside { IfSome result (λ c. (0 < c.len) × (c.len ≤ length t.now)) }
{
    let (&a, rest) = t.split_first()?;
    match a {
        0..=0x7F => Some(Char {
            code: a as u32,
            len: 1,
        }),
        0xC0..=0xDF => scalar(2, 0x80, (a - 0xC0) as u32, rest),
        0xE0..=0xEF => scalar(3, 0x800, (a - 0xE0) as u32, rest),
        0xF0..=0xF7 => scalar(4, 0x10000, (a - 0xF0) as u32, rest),
        _ => None,
    }
}

// "A blank is a character with Unicode White_Space".
fn is_blank(code: u32) -> bool
    ensures { result ≡ is_blank code }
{
    matches!(
        code,
        9..=13
            | 32
            | 0x85
            | 0xA0
            | 0x1680
            | 0x2000..=0x200A
            | 0x2028..=0x2029
            | 0x202F
            | 0x205F
            | 0x3000
    )
}

// The length of the blank that a part begins with, whatever it is, 0 if none: what `blank` promises.
#[tactic(auto, unfolding(model::specs::Text::blank, crate::specs::Found::char_from))]
fn any_blank(t: &[u8]) -> usize
    ensures { (result ≡ blank t.now) × (result ≤ length t.now) }
{
    match char_of(t) {
        Some(c) if is_blank(c.code) => c.len,
        _ => 0,
    }
}

// The same, quick and inlined where the first byte is ASCII, as most are.
#[tactic(auto, unfolding(model::specs::Text::blank, model::specs::Text::char_of))]
#[inline(always)]
pub fn blank(t: &[u8]) -> usize
    ensures { (result ≡ blank t.now) × (result ≤ length t.now) }
{
    match t {
        [b'\t'..=b'\r' | b' ', ..] => 1,
        [] | [0..=0x7F, ..] => 0,
        _ => any_blank(t),
    }
}

// How far the blanks reach that a part begins with, whatever they are. Out of line, so that the quick cases stay small. A loop over what is left: a
// blank may take several bytes.
#[inline(never)]
fn blanks_slowly(t: &[u8]) -> usize
    ensures { (result ≡ span blank t.now) × (result ≤ length t.now) }
{
    let mut left = t;
    while let n @ 1.. = blank(left) {
        left = &left[n..];
    }
    t.len() - left.len()
}

// The same, quick where no blank or one space stands there.
#[tactic(auto, using(crate::proofs::Skipping::skipping))]
pub fn blanks(t: &[u8]) -> usize
    ensures { (result ≡ span blank t.now) × (result ≤ length t.now) }
{
    match t {
        [] | [b'!'..=0x7F, ..] => 0,
        [b' ', b'!'..=0x7F, ..] => 1,
        [b' ', rest @ ..] => 1 + blanks_slowly(rest),
        _ => blanks_slowly(t),
    }
}

// The place behind the blanks at a place.
#[tactic(auto, using(crate::proofs::Skipping::places))]
pub fn skip(s: &[u8], at: usize) -> usize
    requires { at ≤ length s.now }
    ensures { Skipped s.now at result }
{
    at + blanks(&s[at..])
}

// The byte at a place, none at the end.
#[tactic(auto, using(crate::proofs::Skipping::places))]
pub fn peek(s: &[u8], at: usize) -> Option<u8>
    ensures { byte_or_end result ≡ peek s.now at }
{
    s.get(at).copied()
}

// The length of the longest valid prefix. A loop over what is left: a character may take several bytes.
pub fn valid_length(s: &[u8]) -> usize
    ensures { (result ≡ valid_length s.now) × (result ≤ length s.now) }
{
    if s.is_ascii() {
        return s.len();
    }
    let mut left = s;
    while let Some(c) = char_of(left) {
        left = &left[c.len..];
    }
    s.len() - left.len()
}

// Whether a run goes on where a part begins. ASCII above `,`, as most of its bytes are, is tested first: by a guard, since the compiler asks for
// the bytes of patterns in an order of its own.
#[tactic(auto, using(crate::proofs::Skipping::running))]
fn in_run(t: &[u8]) -> bool
    ensures { result ≡ eqb (run_byte t.now) 1 }
{
    match t {
        [c, ..] if b',' < *c && c.is_ascii() => true,
        [] | [b',' | b')' | b' ', ..] => false,
        _ => blank(t) == 0,
    }
}

// How long the run is that a part begins with, of which c bytes are gone over. Out of line, so that the quick case stays small. A loop over what is
// left: a blank that ends the run may take several bytes.
#[inline(never)]
fn run_from(t: &[u8], c: usize) -> usize
    requires { Runs t.now c }
    ensures { (result ≡ run_length t.now) × (result ≤ length t.now) }
{
    let mut left = &t[c..];
    while in_run(left) {
        left = &left[1..];
    }
    t.len() - left.len()
}

// The high bit of each of eight bytes that is not plain: ASCII above `,`.
#[tactic(auto, using(crate::proofs::Eights::eights))]
fn stops(v: u64) -> u64
    ensures { result ≡ flags is_plain (little_endian 8 v) }
{
    let u = v & LOW_BITS;
    (v | (UP_TO_COMMA - u)) & HIGH_BITS
}

// How many plain bytes eight bytes begin with.
fn plains(t: &[u8], at: usize) -> usize
    requires { at + 8 ≤ length t.now }
    ensures { (result ≡ span (one is_plain) (take 8 (drop at t.now))) × (result ≤ 8) }
{
    lead(stops(layout::get8(t, at)))
}

// The bytes that most runs end at.
fn is_stop(c: u8) -> bool
    ensures { result ≡ is_stop c }
{
    matches!(c, b',' | b')' | b' ')
}

// How long the run is that a part begins with: up to a blank, `,` or `)`. Its first eight bytes are taken at once.
#[tactic(auto, using(crate::proofs::Beginnings::runs))]
pub fn run(t: &[u8]) -> usize
    ensures { (result ≡ run_length t.now) × (result ≤ length t.now) }
{
    if t.len() < 8 {
        return run_from(t, 0);
    }
    let c = plains(t, 0);
    if c < 8 && is_stop(t[c]) {
        return c;
    }
    run_from(t, c)
}

// Numbers.

// One more digit behind a number, absent where the limit is passed.
fn push(limit: u64, n: u64, d: u64) -> Option<u64>
    ensures { result ≡ at_most limit (Some (n * 10 + d)) }
{
    let more = n.checked_mul(10)?.checked_add(d)?;
    (more <= limit).then_some(more)
}

// The value of a digit.
#[tactic(auto, unfolding(crate::specs::Found::digit_of))]
fn digit(c: u8) -> Option<u64>
    ensures { result ≡ digit_of c }
{
    match c {
        b'0'..=b'9' => Some((c - b'0') as u64),
        _ => None,
    }
}

// Digits alone, with a value of at most the limit; leading zeros do not count.
#[tactic(auto, using(crate::proofs::Numbers::numbers))]
pub fn plain(limit: u64, t: &[u8]) -> Option<u64>
    ensures { result ≡ plain limit t.now }
{
    if t.is_empty() {
        return None;
    }
    let mut n = 0;
    for &c in t {
        n = push(limit, n, digit(c)?)?;
    }
    Some(n)
}

// A number in plain decimal, with a value of at most the limit: no sign, and no `0` in front of more.
#[tactic(auto, unfolding(kinds::specs::Decimal::number))]
pub fn number(limit: u64, t: &[u8]) -> Option<u64>
    ensures { result ≡ number limit t.now }
{
    match t {
        [b'0', _, ..] => None,
        _ => plain(limit, t),
    }
}

// Limits.

// "over 4,096 bytes" is too long
const LONGEST_TEXT: usize = 4096;

// Whether a text is read at all: the limits that come before any reading.
#[tactic(auto, unfolding(crate::specs::Admitted::refused_first))]
pub fn admit(text: &[u8]) -> Result<(), Refused>
    ensures { AdmittedIs text.now result }
{
    if LONGEST_TEXT < text.len() {
        return Err(Refusal::TooLong.into());
    }
    let position = valid_length(text);
    if position < text.len() {
        return Err(Refused {
            refusal: Refusal::NotUtf8,
            position,
        });
    }
    Ok(())
}
