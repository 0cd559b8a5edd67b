// Whether call data are the encoding of some values. Each function is handed a part of the data, and tells whether all of it is one value: heads say
// where parts end. Of an array's elements the one that takes most is left to a loop, so that a call is handed at most half of the part.
#![tactic(auto)]

ghost use Rattle.std.specs.Prelude.{◌≡◌, ◌≤◌, ◌<◌, length};
ghost use Rattle.encoding.specs.Judge.{ends_at};
ghost use Rattle.record.specs.Encoded.{SomeFields, SomeKind, SomeSuffixes};
ghost use Rattle.judge.specs.Fits.{Data, SomeDynamic, FitsKind, FitsFields, Encoded};
ghost use Rattle.judge.specs.Steps.{LastOf, SomeArray, ArrayStep, SizedStep, Heads, ElementsStep, HeadSays, EndSays, Sorted, OpenAt, Closes, MemberStep, MemberAt};

use layout::{OPEN, TUPLE};
use record::Piece;

// The bytes of a word.
const WORD: usize = 32;

// An open array has at most so many elements.
const MOST: usize = 65536;

// How many values a member has.
const ONCE: u64 = 1;

// Arrays.

// The last suffix, found going forwards: suffixes cannot be read backwards.
#[tactic(auto, using(crate::proofs::Lasting::walk))]
fn last_suffix(b: &[u8]) -> &[u8]
    requires { SomeSuffixes b.now × (0 < length b.now) }
    ensures { LastOf b.now result.now }
{
    let mut last = b;
    loop {
        let rest = Piece::first(last).rest;
        if rest.is_empty() {
            return last;
        }
        last = rest;
    }
}

// Whether what was read ends with the data.
fn is_whole(end: Option<usize>, d: &[u8]) -> bool
    ensures { result ≡ ends_at (length d.now) end }
{
    match end {
        Some(end) => end == d.len(),
        None => false,
    }
}

// A part of the data is an array, or it is if a part of it is one of its elements. An enum, since an `Option` in an `Option` would name neither.
#[derive(Clone, Copy, Debug, PartialEq, Eq)]
enum Step<'a> {
    Done,
    Down(&'a [u8]),
}

// Where something ends that begins at s: where the head at h says.
fn end_said(d: &[u8], s: usize, h: usize) -> Option<usize>
    requires { Data d.now × (h ≤ length d.now) }
    ensures { HeadSays d.now s h result }
{
    if !words::has(d, h, WORD) {
        return None;
    }
    let end = words::number_at(d, h);
    if s <= end && end <= d.len() {
        Some(end)
    } else {
        None
    }
}

// The same for an element: behind the heads there is none for the last, which ends with the data.
fn end_of(d: &[u8], s: usize, h: usize, seam: usize) -> Option<usize>
    requires { Data d.now × (h ≤ length d.now) × (s ≤ length d.now) }
    ensures { EndSays d.now s h seam result }
{
    if h < seam {
        end_said(d, s, h)
    } else {
        Some(d.len())
    }
}

// Two parts, the shorter first.
fn sorted<'a>(a: &'a [u8], b: &'a [u8]) -> (&'a [u8], &'a [u8])
    ensures { Sorted a.now b.now result.0.now result.1.now }
{
    if a.len() <= b.len() { (a, b) } else { (b, a) }
}

// So many elements of a dynamic kind: all but the one that takes most.
#[cycle(array_closes_elements_member_sized_tuple_value)]
#[tactic(auto, using(crate::proofs::Choosing::choice))]
fn elements<'a>(t: &[u8], d: &'a [u8], count: usize) -> Option<Step<'a>>
    requires { Heads t.now d.now count }
    ensures { ElementsStep t.now d.now count result }
{
    let seam = WORD * count;
    if !words::is_number(d, 0, seam) {
        return None;
    }
    let mut start = end_of(d, seam, WORD, seam)?;
    let mut most = &d[seam..start];
    for i in 1..count {
        let end = end_of(d, start, WORD * (i + 1), seam)?;
        let (short, long) = sorted(most, &d[start..end]);
        if !value(t, short) {
            return None;
        }
        most = long;
        start = end;
    }
    Some(Step::Down(most))
}

// So many elements.
#[cycle(array_closes_elements_member_sized_tuple_value)]
#[tactic(auto, using(crate::proofs::Diving::sizes))]
fn sized<'a>(t: &[u8], d: &'a [u8], count: u64) -> Option<Step<'a>>
    requires { SomeKind t.now × Data d.now }
    ensures { SizedStep t.now d.now count result }
{
    if !extent::of_kind(t).dynamic {
        return is_whole(static_kinds::many(t, d, 0, count), d).then_some(Step::Done);
    }
    if count == 0 {
        return d.is_empty().then_some(Step::Done);
    }
    if ((d.len() / WORD) as u64) < count {
        return None;
    }
    elements(t, d, count as usize)
}

// An array, by its elements' kind and its last suffix.
#[cycle(array_closes_elements_member_sized_tuple_value)]
#[tactic(auto, using(crate::proofs::Diving::places))]
fn array<'a>(t: &[u8], suffix: Piece<'_>, d: &'a [u8]) -> Option<Step<'a>>
    requires { SomeArray t.now suffix × Data d.now }
    ensures { ArrayStep t.now suffix.entry d.now result }
{
    if suffix.kind != OPEN {
        return sized(t, d, layout::get8(suffix.body, 0));
    }
    if !words::has(d, 0, WORD) {
        return None;
    }
    let count = words::number_at(d, 0);
    if MOST < count {
        return None;
    }
    sized(t, &d[WORD..], count as u64)
}

// Values.

// A dynamic kind.
#[cycle(array_closes_elements_member_sized_tuple_value)]
#[tactic(auto, using(crate::proofs::Diving::values))]
fn value(t: &[u8], d: &[u8]) -> bool
    requires { SomeDynamic t.now × Data d.now }
    ensures { FitsKind t.now d.now result }
{
    let mut kind = t;
    let mut part = d;
    loop {
        let base = Piece::first(kind);
        if base.rest.is_empty() {
            return match base.kind {
                TUPLE => tuple(base.body, part),
                _ => is_whole(words::string(part, 0), part),
            };
        }
        let suffix = last_suffix(base.rest);
        // A place: the records before the last suffix are no part that a piece hands out.
        let element = &kind[..kind.len() - suffix.len()];
        match array(element, Piece::first(suffix), part) {
            None => return false,
            Some(Step::Done) => return true,
            Some(Step::Down(down)) => {
                kind = element;
                part = down;
            }
        }
    }
}

// Tuples.

// Where the next head stands, where the last tail began, and the kind of its member, if one has begun.
#[derive(Clone, Copy, Debug, PartialEq, Eq)]
struct Open<'a> {
    head: usize,
    tail: usize,
    kind: Option<&'a [u8]>,
}

// Whether the open member ends at a place.
#[cycle(array_closes_elements_member_sized_tuple_value)]
#[tactic(auto, using(crate::proofs::Joining::closing))]
fn closes(o: Open<'_>, d: &[u8], end: usize) -> bool
    requires { OpenAt d.now o × Data d.now × (o.tail ≤ end) × (end ≤ length d.now) }
    ensures { Closes d.now o.entry end result }
{
    match o.kind {
        Some(kind) => value(kind, &d[o.tail..end]),
        None => o.tail == end,
    }
}

// A member of a tuple, by its kind.
#[cycle(array_closes_elements_member_sized_tuple_value)]
#[tactic(auto, using(crate::proofs::Joining::joins))]
fn member<'a>(kind: &'a [u8], d: &[u8], o: Open<'a>) -> Option<Open<'a>>
    requires { MemberAt kind.now d.now o }
    ensures { MemberStep kind.now d.now o.entry result }
{
    if !extent::of_kind(kind).dynamic {
        let head = static_kinds::many(kind, d, o.head, ONCE)?;
        return Some(Open { head, ..o });
    }
    let tail = end_said(d, o.tail, o.head)?;
    if !closes(o, d, tail) {
        return None;
    }
    Some(Open {
        head: o.head + WORD,
        tail,
        kind: Some(kind),
    })
}

// The members of a tuple: their heads, and their tails behind them.
#[cycle(array_closes_elements_member_sized_tuple_value)]
#[tactic(auto, using(crate::proofs::Joining::tuples))]
fn tuple(b: &[u8], d: &[u8]) -> bool
    requires { SomeFields b.now × Data d.now }
    ensures { FitsFields b.now d.now result }
{
    let heads = extent::of_fields(b).head;
    if d.len() < heads {
        return false;
    }
    let mut o = Open {
        head: 0,
        tail: heads,
        kind: None,
    };
    let mut left = b;
    // A walk over pieces: a loop (`record::Piece`).
    while !left.is_empty() {
        let field = Piece::first(left);
        let Some(next) = member(record::named(field.body).rest, d, o) else {
            return false;
        };
        o = next;
        left = field.rest;
    }
    closes(o, d, d.len())
}

// Whether data are the encoding of some values of the kinds of fields.
#[tactic(auto, using(crate::proofs::Joining::call), unfolding(crate::specs::Fits::fits, encoding::specs::Judge::is_encoding))]
pub fn encoded(b: &[u8], data: &[u8]) -> bool
    requires { SomeFields b.now × (length «data».now ≤ 65536) }
    ensures { Encoded b.now «data».now result }
{
    tuple(b, data)
}
