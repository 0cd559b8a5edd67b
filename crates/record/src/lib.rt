// Whether bytes that anyone may hand in are a record, and how long the texts are of what they say.
#![tactic(auto)]

ghost use Rattle.std.specs.Prelude.{◌≡◌, ◌+◌, ◌*◌, ◌≤◌, ◌<◌, length, take, drop, [], None, Some};
ghost use Rattle.kinds.specs.Bytes.{is_word};
ghost use Rattle.kinds.specs.Decimal.{decimal};
ghost use Rattle.model.specs.declared.Sort.TheVariants.{Plain};
ghost use Rattle.model.specs.Mark.{mark_number};
ghost use Rattle.model.specs.Record.{is_field_name, decode_field, function_from, constructor_from, event_from, error_from, decode, decode_lone, longest_record};
ghost use Rattle.record.specs.Parts.{PieceIs, Headed, FrontedIs, MarkIs, FrontIs};
ghost use Rattle.record.specs.Says.{Says, PartsStand, NamePlaced, ListPlaced};
ghost use Rattle.record.specs.Texts.{size, AtMost, located_from, is_free, is_mark_at, elementary_from, suffix_from, suffixes_from, base_text_from, kind_from, field_text_from, tuple_text_from};

use layout::{
    ADDRESS, BOOL, BYTES, BYTES_N, CONSTRUCTOR, ERROR, EVENT, FIELD, FUNCTION, FUNCTION_KIND, HEAD,
    INT, KIND, LIST, NAME, OPEN, SIZED, STRING, TUPLE, UINT,
};
use model::{Keyword, Mark, Sort};
use sizes::{BitWidth, ByteLength};

// The bytes of the number in front of a field's, a function's, a constructor's or an event's body, and of the number of an elementary kind.
pub const NUMBER: usize = 2;

// The bytes of the length in a fixed suffix.
const LENGTH: usize = 8;

// The bytes that are taken at once.
const EIGHT: usize = 8;

// Mutabilities, of a constructor the last two, and whether an event is anonymous.
const UNSTATED: usize = 2;

const PAYABLE: usize = 3;

const ANONYMOUS: usize = 1;

// "32 nested tuples"
const DEEPEST: usize = 32;

// "at most 40,960 bytes"
const LONGEST_RECORD: usize = 40960;

// Pieces. A walk over records is a loop over what is left, which returns where a record is torn; an iterator would hand out an `Option` for each.

// The record that some bytes begin with: its kind, its body, and the bytes behind it.
#[derive(Clone, Copy, Debug, PartialEq, Eq)]
pub struct Piece<'a> {
    pub kind: usize,
    pub body: &'a [u8],
    pub rest: &'a [u8],
}

impl<'a> Piece<'a> {
    // Where there is one.
    #[tactic(auto, using(crate::proofs::Pieces::pieces))]
    pub fn parse(b: &'a [u8]) -> Option<Piece<'a>>
        ensures { PieceIs b.now result }
    {
        if b.len() < HEAD {
            return None;
        }
        let length = layout::get4(b, 0);
        if length < HEAD || b.len() < length {
            return None;
        }
        Some(Piece::first(b))
    }

    // Where it is known that there is one.
    #[tactic(auto, using(crate::proofs::Pieces::pieces))]
    pub fn first(b: &'a [u8]) -> Piece<'a>
        requires { Headed b.now }
        ensures { PieceIs b.now (Some result) }
    {
        let length = layout::get4(b, 0);
        Piece {
            kind: layout::get2(b, KIND),
            body: &b[HEAD..length],
            rest: &b[length..],
        }
    }
}

// A number in front of a body, and the bytes behind it.
#[derive(Clone, Copy, Debug, PartialEq, Eq)]
struct Fronted<'a> {
    number: usize,
    rest: &'a [u8],
}

// The number in front of a field's, a function's, a constructor's or an event's body.
fn stated(body: &[u8]) -> Option<Fronted<'_>>
    ensures { FrontedIs body.now result }
{
    let rest = body.get(NUMBER..)?;
    Some(Fronted {
        number: layout::get2(body, 0),
        rest,
    })
}

// The name in the body of a field, with the field's kind behind it.
#[tactic(auto, using(crate::proofs::Pieces::pieces))]
pub fn named(body: &[u8]) -> Piece<'_>
    requires { (2 ≤ length body.now) × Headed (drop 2 body.now) }
    ensures { PieceIs (drop 2 body.now) (Some result) }
{
    Piece::first(&body[NUMBER..])
}

// Lengths of texts.

// How many digits a number of at most four has.
#[tactic(auto, using(crate::proofs::Lengths::lengths))]
fn short_length(v: u64) -> usize
    requires { v < 10000 }
    ensures { (result ≡ length (decimal v)) × (result ≤ 4) }
{
    match v {
        0..=9 => 1,
        10..=99 => 2,
        100..=999 => 3,
        _ => 4,
    }
}

// How many digits a number has. Four are taken at once, since each division waits for the one before.
#[tactic(auto, using(crate::proofs::Lengths::lengths))]
pub fn decimal_length(v: u64) -> usize
    ensures { (result ≡ length (decimal v)) × (result ≤ 20) }
{
    let mut n = 0;
    let mut rest = v;
    while 10000 <= rest {
        rest /= 10000;
        n += 4;
    }
    n + short_length(rest)
}

// An elementary kind with a number, by its record's kind and body.
#[tactic(auto, using(crate::proofs::Lengths::sizes))]
fn numbered(kind: usize, body: &[u8]) -> Option<usize>
    requires { length body.now ≡ 2 }
    ensures same { result ≡ size (elementary_from kind body.now) }
    ensures small { AtMost 9 result }
{
    let number = layout::get2(body, 0);
    match kind {
        INT => Some(b"int".len() + short_length(BitWidth::new(number as u32)?.get() as u64)),
        UINT => Some(b"uint".len() + short_length(BitWidth::new(number as u32)?.get() as u64)),
        BYTES_N => Some(b"bytes".len() + short_length(ByteLength::new(number)?.get() as u64)),
        _ => None,
    }
}

// One without.
#[tactic(auto, using(crate::proofs::Lengths::sizes))]
fn worded(kind: usize) -> Option<usize>
    ensures same { result ≡ size (elementary_from kind []) }
    ensures small { AtMost 9 result }
{
    match kind {
        ADDRESS => Some(b"address".len()),
        BOOL => Some(b"bool".len()),
        FUNCTION_KIND => Some(b"function".len()),
        BYTES => Some(b"bytes".len()),
        STRING => Some(b"string".len()),
        _ => None,
    }
}

// An elementary kind. The body's length comes first: it parts the kinds more evenly than a jump by kind does.
#[tactic(auto, using(crate::proofs::Lengths::sizes))]
fn elementary(kind: usize, body: &[u8]) -> Option<usize>
    ensures same { result ≡ size (elementary_from kind body.now) }
    ensures small { AtMost 9 result }
{
    match body.len() {
        NUMBER => numbered(kind, body),
        0 => worded(kind),
        _ => None,
    }
}

// A suffix, by its record's kind and body.
#[tactic(auto, using(crate::proofs::Lengths::suffixing))]
fn suffix(kind: usize, body: &[u8]) -> Option<usize>
    ensures same { result ≡ size (suffix_from kind body.now) }
    ensures small { AtMost (2 * length body.now + 6) result }
{
    match (kind, body.len()) {
        (SIZED, LENGTH) => Some(b"[]".len() + decimal_length(layout::get8(body, 0))),
        (OPEN, 0) => Some(b"[]".len()),
        _ => None,
    }
}

// The suffixes up to the end.
#[tactic(auto, using(crate::proofs::Walk::suffixes_walk))]
fn suffixes(b: &[u8]) -> Option<usize>
    ensures same { result ≡ size (suffixes_from b.now) }
    ensures small { AtMost (2 * length b.now) result }
{
    let mut left = b;
    let mut n = 0;
    // A walk over pieces: a loop (`Piece`).
    while !left.is_empty() {
        let piece = Piece::parse(left)?;
        n += suffix(piece.kind, piece.body)?;
        left = piece.rest;
    }
    Some(n)
}

// The text of the fields of a list of a sort in brackets, where d tuples may nest: behind each field stands a `,` or the last bracket.
#[tactic(auto, using(crate::proofs::Walk::walking))]
#[cycle(base_field_fields_kind)]
pub fn fields(b: &[u8], sort: Sort, d: usize) -> Option<usize>
    ensures same { result ≡ size (tuple_text_from sort d b.now) }
    ensures small { AtMost (2 * length b.now + 2) result }
{
    let mut left = b;
    let mut n = 0;
    // A walk over pieces: a loop (`Piece`).
    while !left.is_empty() {
        let piece = Piece::parse(left)?;
        n += field(piece.kind, piece.body, sort, d)? + 1;
        left = piece.rest;
    }
    Some(b"(".len() + n.max(b")".len()))
}

// The kind of a field, by its record's kind and body.
#[tactic(auto, using(crate::proofs::Walk::walking))]
#[cycle(base_field_fields_kind)]
fn field(k: usize, body: &[u8], sort: Sort, d: usize) -> Option<usize>
    ensures same { result ≡ size (field_text_from sort d k body.now) }
    ensures small { AtMost (2 * length body.now) result }
{
    if k == FIELD {
        kind(front(body, sort)?.rest, d)
    } else {
        None
    }
}

// A base and its suffixes.
#[tactic(auto, using(crate::proofs::Walk::walking))]
#[cycle(base_field_fields_kind)]
fn kind(t: &[u8], d: usize) -> Option<usize>
    ensures same { result ≡ size (kind_from d t.now) }
    ensures small { AtMost (2 * length t.now) result }
{
    let piece = Piece::parse(t)?;
    Some(base(piece.kind, piece.body, d)? + suffixes(piece.rest)?)
}

// A base, by its record's kind and body. A tuple is gone into only where one may still nest.
#[tactic(auto, using(crate::proofs::Walk::walking))]
#[cycle(base_field_fields_kind)]
fn base(kind: usize, body: &[u8], d: usize) -> Option<usize>
    ensures same { result ≡ size (base_text_from d kind body.now) }
    ensures small { AtMost (2 * length body.now + 12) result }
{
    match (kind, d) {
        (TUPLE, 0) => None,
        (TUPLE, _) => fields(body, Sort::Plain, d - 1),
        _ => elementary(kind, body),
    }
}

// Names and marks.

// "names that are words": whether the first n bytes of a part are one. The part goes on behind them, so that there are eight bytes to take at once;
// most names are of at most eight letters.
#[tactic(auto, using(crate::proofs::Names::naming))]
fn is_word(t: &[u8], n: usize) -> bool
    requires { n ≤ length t.now }
    ensures { result ≡ is_word (take n t.now) }
{
    if n == 0 {
        return false;
    }
    if EIGHT <= t.len() && n <= text::letters(t, 0) {
        return true;
    }
    n <= text::word(t)
}

// "(only a field's may be empty)"
#[tactic(auto, using(crate::proofs::Names::naming))]
fn is_field_name(t: &[u8], n: usize) -> bool
    requires { n ≤ length t.now }
    ensures { result ≡ is_field_name (take n t.now) }
{
    n == 0 || is_word(t, n)
}

// Whether a data location may stand at a kind, by the records of its base and its suffixes: "only at arrays, tuples, `bytes` and `string`".
#[tactic(auto, using(crate::proofs::Located::locating))]
fn is_located(t: &[u8]) -> bool
    ensures { result ≡ located_from t.now }
{
    match Piece::parse(t) {
        Some(base) => !base.rest.is_empty() || matches!(base.kind, BYTES | STRING | TUPLE),
        None => false,
    }
}

// Whether a name is no data location.
#[tactic(auto, using(crate::proofs::Names::naming))]
fn is_free(name: &[u8]) -> bool
    ensures { result ≡ is_free name.now }
{
    !text::equal(b"calldata", name) && !text::equal(b"memory", name)
}

// The mark that a number stands for.
fn mark(number: usize) -> Option<Mark>
    ensures { MarkIs number result }
{
    Mark::try_from(number).ok()
}

// Whether a field's mark suits its name and its kind, whose records stand in `kind`: "mark 1 only in an event's own list, and there no mark 0 with
// the name `indexed`". Marks 2 and 3 "stand only in a function's or constructor's own lists, not inside tuples, at kinds that admit them. Such a field
// with mark 0 and the name `calldata` or `memory` is no longer well formed." The kind is looked at only where it decides.
#[tactic(auto, using(crate::proofs::Names::marking))]
fn is_mark(sort: Sort, mark: Mark, name: &[u8], kind: &[u8]) -> bool
    ensures { result ≡ is_mark_at sort kind.now (mark_number mark) name.now }
{
    match (sort, mark) {
        (Sort::Plain, Mark::Unmarked) => true,
        (Sort::Parameter, Mark::Unmarked) => is_free(name) || !is_located(kind),
        (Sort::Parameter, Mark::Indexed) => false,
        (Sort::Parameter, _) => is_located(kind),
        (Sort::Event, Mark::Unmarked) => !text::equal(b"indexed", name),
        (Sort::Event, Mark::Indexed) => true,
        _ => false,
    }
}

// The name in the body of a field whose mark and name are well formed, with the field's kind behind it.
fn front(body: &[u8], sort: Sort) -> Option<Piece<'_>>
    ensures { FrontIs sort body.now result }
{
    let stated = stated(body)?;
    let mark = mark(stated.number)?;
    let name = Piece::parse(stated.rest)?;
    if name.kind == NAME
        && is_mark(sort, mark, name.body, name.rest)
        && is_field_name(&stated.rest[HEAD..], name.body.len())
    {
        Some(name)
    } else {
        None
    }
}

// Declarations. A number in front that none may have is told before the name and the lists are read, which takes time by their length.

// A part of a record, with the length of the text that it stands for: the fields of a list, in brackets, or a base and its suffixes.
#[derive(Clone, Copy, Debug, PartialEq, Eq)]
pub struct Measured<'a> {
    pub bytes: &'a [u8],
    pub text: usize,
}

// What a record says: its name, and its lists; a field's name, and its kind. Only a function has outputs. What each case means is in specs/Says.antt.
#[derive(Clone, Copy, Debug, PartialEq, Eq)]
pub enum Checked<'a> {
    Declared {
        keyword: Keyword,
        name: &'a [u8],
        inputs: Measured<'a>,
        outputs: Option<Measured<'a>>,
    },
    Constructor {
        inputs: Measured<'a>,
    },
    Field {
        name: &'a [u8],
        kind: Measured<'a>,
    },
}

// The name that bytes begin with.
fn name(b: &[u8]) -> Option<Piece<'_>>
    ensures { NamePlaced b.now result }
{
    let name = Piece::parse(b)?;
    if name.kind == NAME && is_word(&b[HEAD..], name.body.len()) {
        Some(name)
    } else {
        None
    }
}

// A list, and the bytes behind it.
#[derive(Clone, Copy, Debug, PartialEq, Eq)]
struct Listed<'a> {
    fields: Measured<'a>,
    rest: &'a [u8],
}

// The list of a sort that bytes begin with.
fn list(b: &[u8], sort: Sort) -> Option<Listed<'_>>
    ensures { ListPlaced sort b.now result }
{
    let list = Piece::parse(b)?;
    if list.kind != LIST {
        return None;
    }
    Some(Listed {
        fields: Measured {
            bytes: list.body,
            text: fields(list.body, sort, DEEPEST)?,
        },
        rest: list.rest,
    })
}

// "function: mutability, 2 bytes (0 pure, 1 view, 2 none stated, 3 payable); name; inputs; outputs"
#[tactic(auto, using(crate::proofs::Tops::tops))]
fn function(body: &[u8]) -> Option<Checked<'_>>
    requires { length body.now ≤ longest_record }
    ensures says { Says (function_from 4 body.now) None result }
    ensures within { PartsStand body.now result }
{
    let stated = stated(body)?;
    if PAYABLE < stated.number {
        return None;
    }
    let name = name(stated.rest)?;
    let inputs = list(name.rest, Sort::Parameter)?;
    let outputs = list(inputs.rest, Sort::Parameter)?;
    if !outputs.rest.is_empty() {
        return None;
    }
    Some(Checked::Declared {
        keyword: Keyword::Function,
        name: name.body,
        inputs: inputs.fields,
        outputs: Some(outputs.fields),
    })
}

// "constructor: mutability (2 or 3); inputs"
#[tactic(auto, using(crate::proofs::Tops::tops, crate::proofs::Places::standing))]
fn constructor(body: &[u8]) -> Option<Checked<'_>>
    requires { length body.now ≤ longest_record }
    ensures says { Says (constructor_from 4 body.now) None result }
    ensures within { PartsStand body.now result }
{
    let stated = stated(body)?;
    if !matches!(stated.number, UNSTATED..=PAYABLE) {
        return None;
    }
    let inputs = list(stated.rest, Sort::Parameter)?;
    if !inputs.rest.is_empty() {
        return None;
    }
    Some(Checked::Constructor {
        inputs: inputs.fields,
    })
}

// "event: anonymous, 2 bytes (0 or 1); name; inputs"
#[tactic(auto, using(crate::proofs::Tops::tops))]
fn event(body: &[u8]) -> Option<Checked<'_>>
    requires { length body.now ≤ longest_record }
    ensures says { Says (event_from 4 body.now) None result }
    ensures within { PartsStand body.now result }
{
    let anonymous = stated(body)?;
    if ANONYMOUS < anonymous.number {
        return None;
    }
    let name = name(anonymous.rest)?;
    let inputs = list(name.rest, Sort::Event)?;
    if !inputs.rest.is_empty() {
        return None;
    }
    Some(Checked::Declared {
        keyword: Keyword::Event,
        name: name.body,
        inputs: inputs.fields,
        outputs: None,
    })
}

// "error: name; inputs"
#[tactic(auto, using(crate::proofs::Tops::tops, crate::proofs::Places::standing))]
fn error(body: &[u8]) -> Option<Checked<'_>>
    requires { length body.now ≤ longest_record }
    ensures says { Says (error_from 4 body.now) None result }
    ensures within { PartsStand body.now result }
{
    let name = name(body)?;
    let inputs = list(name.rest, Sort::Plain)?;
    if !inputs.rest.is_empty() {
        return None;
    }
    Some(Checked::Declared {
        keyword: Keyword::Error,
        name: name.body,
        inputs: inputs.fields,
        outputs: None,
    })
}

// A field by itself: of no declaration's own list.
#[tactic(auto, using(crate::proofs::Whole::wholes))]
fn lone(body: &[u8]) -> Option<Checked<'_>>
    requires { length body.now ≤ longest_record }
    ensures says { Says None (decode_field 4 Plain 0x10 body.now) result }
    ensures within { PartsStand body.now result }
{
    let name = front(body, Sort::Plain)?;
    let text = kind(name.rest, DEEPEST)?;
    Some(Checked::Field {
        name: name.body,
        kind: Measured {
            bytes: name.rest,
            text,
        },
    })
}

// What a record says, if it is well formed.
#[tactic(auto, using(crate::proofs::Whole::wholes))]
pub fn check(b: &[u8]) -> Option<Checked<'_>>
    ensures says { Says (decode b.now) (decode_lone b.now) result }
    ensures within { PartsStand b.now result }
{
    if LONGEST_RECORD < b.len() {
        return None;
    }
    let piece = Piece::parse(b)?;
    if !piece.rest.is_empty() {
        return None;
    }
    match piece.kind {
        FIELD => lone(piece.body),
        FUNCTION => function(piece.body),
        CONSTRUCTOR => constructor(piece.body),
        EVENT => event(piece.body),
        ERROR => error(piece.body),
        _ => None,
    }
}
