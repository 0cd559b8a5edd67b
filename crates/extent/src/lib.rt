// How far the kinds of a record reach: whether they are dynamic, and how long their heads are, as far as lengths are told apart.
#![tactic(auto)]

ghost use Rattle.std.specs.Prelude.{◌≡◌, ◌*◌, ◌≤◌};
ghost use Rattle.record.specs.Encoded.{SomeFields, SomeKind, SomeSuffixes};
ghost use Rattle.words.specs.Places.{capped};
ghost use Rattle.extent.specs.Extents.{OpenEnded, SomeSuffix, Grouped, Joined, Suffixed, AllSuffixed, ExtentOf, ExtentsOf};

use layout::{BYTES, OPEN, STRING, TUPLE};
use record::Piece;

// The head of a dynamic kind, and of every elementary one, is a word.
const WORD: usize = 32;

// So many times a length, capped as in crate words.
pub fn times(length: usize, n: u64) -> usize
    ensures { (result ≡ capped (n * length)) × (result ≤ 65537) }
{
    words::cap(length.saturating_mul(n as usize))
}

// Whether a kind is dynamic, and how long its head is; of several kinds, whether one is, and how long their heads are together.
#[derive(Clone, Copy, Debug, PartialEq, Eq)]
pub struct Extent {
    pub dynamic: bool,
    pub head: usize,
}

// Of a dynamic kind, and of no kinds.
const DYNAMIC: Extent = Extent {
    dynamic: true,
    head: WORD,
};

const NONE: Extent = Extent {
    dynamic: false,
    head: 0,
};

impl Extent {
    // Of a tuple of the kinds.
    fn grouped(self) -> Extent
        ensures { Grouped self result }
    {
        if self.dynamic { DYNAMIC } else { self }
    }

    // With one kind more.
    fn joined(self, one: Extent) -> Extent
        requires { (self.head ≤ 65537) × (one.head ≤ 65537) }
        ensures { Joined self one result }
    {
        Extent {
            dynamic: self.dynamic || one.dynamic,
            head: words::cap(self.head + one.head),
        }
    }

    // Of an array of the kind, by its suffix.
    fn suffixed(self, suffix: Piece<'_>) -> Extent
        requires { SomeSuffix suffix }
        ensures { Suffixed suffix.entry self result }
    {
        if suffix.kind == OPEN {
            return DYNAMIC;
        }
        if self.dynamic {
            return self;
        }
        Extent {
            dynamic: false,
            head: times(self.head, layout::get8(suffix.body, 0)),
        }
    }
}

// With all suffixes, innermost first.
fn all_suffixed(suffixes: &[u8], base: Extent) -> Extent
    requires { SomeSuffixes suffixes.now }
    ensures { AllSuffixed suffixes.now base result }
{
    let mut left = suffixes;
    let mut e = base;
    // A walk over pieces: a loop (`record::Piece`).
    while !left.is_empty() {
        let suffix = Piece::first(left);
        e = e.suffixed(suffix);
        left = suffix.rest;
    }
    e
}

// Whether an elementary kind is dynamic, by the number of its record.
#[tactic(auto, using(crate::proofs::Reaches::leaves))]
fn is_open_ended(k: usize) -> bool
    ensures { OpenEnded k result }
{
    matches!(k, BYTES | STRING)
}

// Of a base and its suffixes.
#[cycle(of_fields_of_kind)]
pub fn of_kind(t: &[u8]) -> Extent
    requires { SomeKind t.now }
    ensures { ExtentOf t.now result }
{
    let base = Piece::first(t);
    let e = match base.kind {
        TUPLE => of_fields(base.body).grouped(),
        k => Extent {
            dynamic: is_open_ended(k),
            head: WORD,
        },
    };
    all_suffixed(base.rest, e)
}

// Of the fields up to the end.
#[cycle(of_fields_of_kind)]
pub fn of_fields(b: &[u8]) -> Extent
    requires { SomeFields b.now }
    ensures { ExtentsOf b.now result }
{
    let mut left = b;
    let mut e = NONE;
    // A walk over pieces: a loop (`record::Piece`).
    while !left.is_empty() {
        let field = Piece::first(left);
        e = e.joined(of_kind(record::named(field.body).rest));
        left = field.rest;
    }
    e
}
