// Kinds as `ValueKind::from_str` reads them, written as records.
#![tactic(auto)]

ghost use Rattle.std.specs.Prelude.{◌≡◌, ◌==◌, ◌+◌, ◌≤◌, ◌<◌, length, position, IfSome};
ghost use Rattle.std.specs.Option.{option_map};
ghost use Rattle.kinds.specs.Bytes.{rbracket};
ghost use Rattle.model.specs.KindText.{inside, lookup, elementary_of};
ghost use Rattle.model.specs.Layout.{record_of};
ghost use Rattle.model.specs.Record.{encode_elementary, encode_suffix};
ghost use Rattle.layout.specs.Buffer.{put};
ghost use Rattle.value.specs.Elementary.{to_elementary, to_result, width_behind, length_behind, words, number_bytes};
ghost use Rattle.value.specs.Peeling.{LastIs, PeelIs};
ghost use Rattle.value.specs.Run.{RunIs, FirstIs, SuffixesAt, SuffixesPut, LeafAt, LeafPut};

use layout::{
    ADDRESS, BOOL, BYTES, BYTES_N, FIELD_FRONT, FUNCTION_KIND, HEAD, INT, NUMBERED, OPEN, SIZED,
    STRING, UINT,
};
use model::Refusal;
use sizes::{BitWidth, ByteLength};
use std::marker::Model;

// How long the record is of a suffix that has a length: its head, and 8 bytes.
const SIZED_RECORD: usize = HEAD + 8;

// "a width divisible by 8 from 8 to 256; `bytes` with a length from 1 to 32"
const WIDEST: u32 = 256;

const LONGEST: u64 = 32;

// A kind that holds no kind.
#[derive(Clone, Copy, Debug, PartialEq, Eq)]
pub enum Base {
    Int(BitWidth),
    Uint(BitWidth),
    Address,
    Bool,
    FixedBytes(ByteLength),
    Function,
    Bytes,
    String,
}

// The width behind `int` or `uint`: 256 where there is none, and quick where it is that.
#[tactic(auto, using(crate::proofs::Words::behind))]
fn width_behind(t: &[u8]) -> Option<BitWidth>
    ensures { result ≡ width_behind t.now }
{
    if t.is_empty() || text::equal(b"256", t) {
        return BitWidth::new(WIDEST);
    }
    let width = text::number(WIDEST as u64, t)?;
    BitWidth::new(width as u32)
}

// The length behind `bytes`.
#[tactic(auto, unfolding(crate::specs::Elementary::length_behind))]
fn length_behind(t: &[u8]) -> Option<ByteLength>
    ensures { result ≡ length_behind t.now }
{
    let len = text::number(LONGEST, t)?;
    ByteLength::new(len as usize)
}

// The kind that a word is by itself, apart from `int` and `uint`.
#[tactic(auto, unfolding(crate::specs::Elementary::to_elementary))]
fn word(t: &[u8]) -> Option<Base>
    ensures { option_map to_elementary result ≡ lookup words t.now }
{
    if text::equal(b"address", t) {
        Some(Base::Address)
    } else if text::equal(b"bool", t) {
        Some(Base::Bool)
    } else if text::equal(b"function", t) {
        Some(Base::Function)
    } else if text::equal(b"bytes", t) {
        Some(Base::Bytes)
    } else if text::equal(b"string", t) {
        Some(Base::String)
    } else {
        None
    }
}

// A text without suffixes, as an elementary kind.
fn elementary(t: &[u8]) -> Result<Base, Refusal>
    ensures { to_result result ≡ elementary_of t.now }
{
    if let Some(width) = t.strip_prefix(b"uint") {
        return width_behind(width)
            .map(Base::Uint)
            .ok_or(Refusal::InvalidBitWidth);
    }
    if let Some(width) = t.strip_prefix(b"int") {
        return width_behind(width)
            .map(Base::Int)
            .ok_or(Refusal::InvalidBitWidth);
    }
    if let Some(base) = word(t) {
        return Ok(base);
    }
    if let Some(len) = t.strip_prefix(b"bytes") {
        return length_behind(len)
            .map(Base::FixedBytes)
            .ok_or(Refusal::InvalidByteLength);
    }
    Err(Refusal::Unknown)
}

// Suffixes.

// What makes a kind an array: a length, or none.
#[derive(Clone, Copy, Debug, PartialEq, Eq)]
pub struct Suffix {
    size: Option<u64>,
}

impl Model for Suffix {
    ghost use Rattle.kinds.specs.Kind.{Suffix as KindSuffix};
    ghost use Rattle.value.specs.Suffix.{suffix_of, size_of, size-of_suffix};
    ghost use Rattle.std.proofs.Common.{ap};

    ghost Value = { KindSuffix };

    ghost view = { λ s. suffix_of s.size };

    ghost inverse = { λ s. record { size = size_of s } };

    ghost inverse_ok = { λ a h. ap (λ o. record { size = o }) (size-of_suffix a.size) };
}

impl Suffix {
    // What stands between `[` and `]`: nothing, or a number.
    pub fn inside(t: &[u8]) -> Option<Suffix>
        ensures { result ≡ inside t.now }
    {
        if t.is_empty() {
            return Some(Suffix { size: None });
        }
        let size = text::number(u64::MAX, t)?;
        Some(Suffix { size: Some(size) })
    }

    // How many bytes its record takes.
    pub fn record_length(&self) -> usize
        ensures { result ≡ length (encode_suffix 4 self.now) }
    {
        match self.size {
            Some(_) => SIZED_RECORD,
            None => HEAD,
        }
    }

    // Writes its record.
    pub fn write(&self, out: &mut [u8], o: usize)
        requires { o + length (encode_suffix 4 self.now) ≤ length out.old }
        ensures { out.new ≡ put o (encode_suffix 4 self.now) out.old }
    {
        match self.size {
            Some(size) => {
                layout::header(out, o, SIZED_RECORD, SIZED as u16);
                layout::put8(out, o + HEAD, size);
            }
            None => layout::header(out, o, HEAD, OPEN as u16),
        }
    }
}

// A suffix at the end of a text, and the place of its `[`.
#[derive(Clone, Copy, Debug, PartialEq, Eq)]
struct Peeled {
    at: usize,
    suffix: Suffix,
}

// "The search for the last `[` ends at its first hit from the right": a loop that breaks with the place found.
fn last_bracket(t: &[u8]) -> Option<usize>
    ensures { LastIs t.now result }
{
    let mut before = t;
    loop {
        let (last, rest) = before.split_last()?;
        if *last == b'[' {
            break Some(rest.len());
        }
        before = rest;
    }
}

// "a rest followed by `[]`; a rest followed by `[`, number, `]` (last `[`)"
fn peel(t: &[u8]) -> Option<Peeled>
    ensures { PeelIs t.now result }
{
    let before = t.strip_suffix(b"]")?;
    let at = last_bracket(before)?;
    let suffix = Suffix::inside(&before[at + 1..])?;
    Some(Peeled { at, suffix })
}

// The kind of a run: its base, the text of its suffixes, and how many bytes their records take.
#[derive(Clone, Copy, Debug, PartialEq, Eq)]
pub struct Run<'a> {
    pub base: Base,
    pub suffixes: &'a [u8],
    pub len: usize,
}

// `ValueKind::from_str`, for texts that do not begin with `(`. A loop over what is left of the text, from behind.
pub fn from_str(t: &[u8]) -> Result<Run<'_>, Refusal>
    requires { length t.now ≤ 4096 }
    ensures { RunIs t.now result }
{
    let mut end = t.len();
    let mut len = 0;
    while let Some(peeled) = peel(&t[..end]) {
        end = peeled.at;
        len += peeled.suffix.record_length();
    }
    let base = elementary(&t[..end])?;
    Ok(Run {
        base,
        suffixes: &t[end..],
        len,
    })
}

// Kinds written.

impl Base {
    // The kind of its record, and the number in it, if there is one.
    #[tactic(auto, unfolding(model::specs::Record::encode_elementary, crate::specs::Elementary::to_elementary, crate::specs::Elementary::number_bytes))]
    fn parts(&self) -> (u16, Option<usize>)
        ensures { encode_elementary 4 (to_elementary self.now) ≡ record_of 4 result.0 (number_bytes result.1) }
    {
        match self {
            Base::Int(width) => (INT as u16, Some(width.get() as usize)),
            Base::Uint(width) => (UINT as u16, Some(width.get() as usize)),
            Base::Address => (ADDRESS as u16, None),
            Base::Bool => (BOOL as u16, None),
            Base::FixedBytes(len) => (BYTES_N as u16, Some(len.get())),
            Base::Function => (FUNCTION_KIND as u16, None),
            Base::Bytes => (BYTES as u16, None),
            Base::String => (STRING as u16, None),
        }
    }

    // How many bytes its record takes.
    pub fn record_length(&self) -> usize
        ensures { (result ≡ length (encode_elementary 4 (to_elementary self.now))) × (result ≤ 8) }
    {
        match self.parts() {
            (_, Some(_)) => NUMBERED,
            (_, None) => HEAD,
        }
    }

    // Writes its record.
    fn write(&self, out: &mut [u8], o: usize)
        requires { o + length (encode_elementary 4 (to_elementary self.now)) ≤ length out.old }
        ensures { out.new ≡ put o (encode_elementary 4 (to_elementary self.now)) out.old }
    {
        match self.parts() {
            (kind, Some(number)) => {
                layout::header(out, o, NUMBERED, kind);
                layout::put2(out, o + HEAD, number);
            }
            (kind, None) => layout::header(out, o, HEAD, kind),
        }
    }
}

fn next_shut(t: &[u8]) -> Option<usize>
    ensures { result ≡ position (λ c. c == rbracket) t.now }
{
    t.iter().position(|c| *c == b']')
}

// A suffix that a text begins with, and the text behind it.
#[derive(Clone, Copy, Debug, PartialEq, Eq)]
struct First<'a> {
    suffix: Suffix,
    behind: &'a [u8],
}

fn first_suffix(t: &[u8]) -> Option<First<'_>>
    ensures first { FirstIs t.now result }
    ensures shorter { IfSome result (λ first. length first.behind.now < length t.now) }
{
    let open = t.strip_prefix(b"[")?;
    let end = next_shut(open)?;
    let suffix = Suffix::inside(&open[..end])?;
    Some(First {
        suffix,
        behind: &open[end + 1..],
    })
}

// Writes the records of the suffixes that a text is: a loop over what is left of it.
fn write_suffixes(t: &[u8], out: &mut [u8], o: usize)
    requires { SuffixesAt t.now o out.old }
    ensures { SuffixesPut t.now o out.old out.new }
{
    let mut left = t;
    let mut end = o;
    while let Some(first) = first_suffix(left) {
        first.suffix.write(out, end);
        end += first.suffix.record_length();
        left = first.behind;
    }
}

impl Run<'_> {
    // How many bytes the record of a field of this kind takes.
    pub fn field_length(&self, name: &[u8]) -> usize
        requires { length name.now + self.now.len ≤ 65536 }
        ensures { result ≡ 14 + length name.now + length (encode_elementary 4 (to_elementary self.now.base)) + self.now.len }
    {
        FIELD_FRONT + name.len() + self.base.record_length() + self.len
    }

    // Writes the record of a field of this kind, with the number of its mark.
    pub fn write_field(&self, mark: usize, name: &[u8], out: &mut [u8])
        requires { LeafAt self.now name.now out.old }
        ensures { LeafPut self.now mark name.now out.old out.new }
    {
        let kind_at = FIELD_FRONT + name.len();
        let base_length = self.base.record_length();
        layout::front(out, 0, mark, name.len(), base_length + self.len);
        layout::copy(out, FIELD_FRONT, name);
        self.base.write(out, kind_at);
        write_suffixes(self.suffixes, out, kind_at + base_length);
    }
}
