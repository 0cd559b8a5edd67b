// Whether two declarations have the same keyword and canonical text: their records are walked side by side, and no text is written. And
// fingerprints of canonical texts, by which most that differ are told apart at once; and notes of declarations by their fingerprints and places.
#![tactic(auto)]

ghost use Rattle.std.specs.Prelude.{◌≡◌, ◌==◌, ◌<◌, [], ◌∷◌, ◌++◌, length};
ghost use Rattle.std.specs.List.{All, list_any};
ghost use Rattle.record.specs.Encoded.{SomeKind, SomeFields};
ghost use Rattle.repeat.specs.Pairs.{KindsSame, ListsSame, Two, Repeats};
ghost use Rattle.repeat.specs.Prints.{mixed, print, OneRecord, PrintIs};
ghost use Rattle.repeat.specs.Said.{NameIs, LineIs};
ghost use Rattle.repeat.specs.Noted.{Looked};

use arrayvec::ArrayVec;
use layout::{CONSTRUCTOR, ERROR, TUPLE};
use record::Piece;

// Bases with their suffixes. Names stand within a tuple only; all else of equal kinds is equal bytes.
#[cycle(kinds_lists)]
#[tactic(auto, using(crate::proofs::Apart::siding))]
fn kinds(a: &[u8], b: &[u8]) -> bool
    requires { SomeKind a.now × SomeKind b.now }
    ensures { KindsSame a.now b.now result }
{
    let x = Piece::first(a);
    let y = Piece::first(b);
    if x.kind == TUPLE && y.kind == TUPLE {
        lists(x.body, y.body) && x.rest == y.rest
    } else {
        a == b
    }
}

// Fields of two lists, without marks and names.
#[cycle(kinds_lists)]
#[tactic(auto, using(crate::proofs::Fields::listing))]
fn lists(a: &[u8], b: &[u8]) -> bool
    requires { SomeFields a.now × SomeFields b.now }
    ensures { ListsSame a.now b.now result }
{
    let mut left = a;
    let mut other = b;
    // A walk over pieces: a loop (`record::Piece`).
    while !left.is_empty() {
        if other.is_empty() {
            return false;
        }
        let x = Piece::first(left);
        let y = Piece::first(other);
        if !kinds(record::named(x.body).rest, record::named(y.body).rest) {
            return false;
        }
        left = x.rest;
        other = y.rest;
    }
    other.is_empty()
}

// The name in a declaration's record, with its list behind it. A constructor has none.
#[tactic(auto, using(crate::proofs::Whole::naming))]
fn name_in(record: &[u8]) -> Option<Piece<'_>>
    requires { OneRecord «record».now }
    ensures { NameIs «record».now result }
{
    let piece = Piece::first(record);
    match piece.kind {
        CONSTRUCTOR => None,
        ERROR => Some(Piece::first(piece.body)),
        _ => Some(record::named(piece.body)),
    }
}

// What a declaration's canonical text says: its name and the fields of its list.
#[derive(Clone, Copy, Debug, PartialEq, Eq)]
struct Line<'a> {
    name: &'a [u8],
    fields: &'a [u8],
}

fn line_of(record: &[u8]) -> Option<Line<'_>>
    requires { OneRecord «record».now }
    ensures { LineIs «record».now result }
{
    let name = name_in(record)?;
    Some(Line {
        name: name.body,
        fields: Piece::first(name.rest).body,
    })
}

// "same keyword and same canonical text (or a second constructor)"
#[tactic(auto, using(crate::proofs::Whole::comparing))]
pub fn repeats(a: &[u8], b: &[u8]) -> bool
    requires { Two a.now b.now }
    ensures { Repeats a.now b.now result }
{
    if Piece::first(a).kind != Piece::first(b).kind {
        return false;
    }
    match (line_of(a), line_of(b)) {
        (Some(x), Some(y)) => x.name == y.name && lists(x.fields, y.fields),
        (None, None) => true,
        _ => false,
    }
}

// Fingerprints.

// The prime of FNV's hash in 32 bits, and what such a hash stays below.
const PRIME: u64 = 16777619;

const SPAN: u64 = 4294967296;

// How many bytes of a text it takes at once.
const STEP: usize = 4;

// The hash of one number more.
fn mixed(h: u64, v: u64) -> u64
    requires { (h < 4294967296) × (v < 4294967296) }
    ensures { (result ≡ mixed h v) × (result < 4294967296) }
{
    (h * PRIME + v) % SPAN
}

// A fingerprint of a text: equal texts have equal ones. Four bytes make a step, since each step waits for the one before; a loop over what is left,
// since what is behind the last four is gone over too.
#[tactic(auto, using(crate::proofs::Printing::stepping))]
pub fn print(t: &[u8]) -> u32
    ensures { result ≡ print 0 t.now }
{
    let mut left = t;
    let mut h = 0;
    while STEP <= left.len() {
        h = mixed(h, layout::get4(left, 0) as u64);
        left = &left[STEP..];
    }
    for &b in left {
        h = mixed(h, b as u64);
    }
    h as u32
}

// The same where the scratch may be too short.
fn print_checked(record: &[u8], scratch: &mut [u8]) -> u32
    requires { OneRecord «record».now }
    ensures { PrintIs «record».now scratch.old scratch.new result }
{
    match abi::canonical(record, scratch) {
        Ok(length) => print(&scratch[..length]),
        Err(_) => 0,
    }
}

// The fingerprint of a declaration's canonical text; 0 for a constructor, and where the text is longer than the scratch. The record is not checked
// again where there is room for any text of it: none is twice as long as its record.
pub fn fingerprint(record: &[u8], scratch: &mut [u8]) -> u32
    requires { OneRecord «record».now }
    ensures { PrintIs «record».now scratch.old scratch.new result }
{
    let Some(line) = line_of(record) else {
        return 0;
    };
    if scratch.len() / 2 < record.len() {
        return print_checked(record, scratch);
    }
    let n = abi::write_line(line.name, line.fields, scratch);
    print(&scratch[..n])
}

// Whether a fingerprint is among others: no early exit, so that several are looked at in one step.
#[tactic(auto, using(crate::proofs::Printing::any_folded))]
pub fn among(prints: &[u32], h: u32) -> bool
    ensures { result ≡ list_any (λ p. p == h) prints.now }
{
    prints.iter().fold(false, |found, p| found | (*p == h))
}

// Notes.

// "at most 512 well-formed declarations"
pub const MOST_DECLARATIONS: usize = 512;

// Declarations that are noted: the fingerprint and the place of each. They stand in two arrays, since several fingerprints are looked at in one step.
#[derive(Drop)]
pub struct Notes {
    pub prints: ArrayVec<u32, MOST_DECLARATIONS>,
    pub places: ArrayVec<usize, MOST_DECLARATIONS>,
}

impl Notes {
    pub fn new() -> Notes
        ensures { (result.prints.items ≡ []) × (result.places.items ≡ []) }
    {
        Notes {
            prints: ArrayVec::new(),
            places: ArrayVec::new(),
        }
    }

    pub fn is_full(&self) -> bool
        ensures { result ≡ (length self.now.places.items == 512) }
    {
        self.places.is_full()
    }

    pub fn push(&mut self, print: u32, place: usize)
        requires { (length self.old.prints.items < 512) × (length self.old.places.items < 512) }
        ensures { (self.new.prints.items ≡ self.old.prints.items ++ print ∷ []) × (self.new.places.items ≡ self.old.places.items ++ place ∷ []) }
    {
        self.prints.push(print);
        self.places.push(place);
    }

    // Whether one of those with a fingerprint is the same, by what is told of its place: most fingerprints are not among those before.
    pub fn repeats<F: Fn(usize) -> bool>(&self, print: u32, same: F) -> bool
        requires { All (F.pre same) self.now.places.items }
        ensures { Looked (F.post same) print self.now.prints.items self.now.places.items result }
    {
        if !among(self.prints.as_slice(), print) {
            return false;
        }
        for (known, place) in self.prints.as_slice().iter().zip(self.places.as_slice()) {
            if *known == print && same(*place) {
                return true;
            }
        }
        false
    }
}
