// Static kinds in call data: where values end that begin at a place, by the records of their kinds; None where something is not as the encoder sets it.
#![tactic(auto)]

ghost use Rattle.static_kinds.specs.Places.{Place, SomeSized, CopiesAre, SomeLeaf, LeafEnds, SomeBase, BaseEnds, RunEnds, SomeStatic, ManyEnd, SomeRow, RowEnds};

use layout::{ADDRESS, BOOL, BYTES_N, INT, TUPLE, UINT};
use record::Piece;

// How many values a field has.
const ONCE: u64 = 1;

// An elementary kind, by its record.
fn leaf(t: Piece<'_>, data: &[u8], at: usize) -> Option<usize>
    requires { SomeLeaf t × Place «data».now at }
    ensures { LeafEnds t.entry «data».now at result }
{
    match t.kind {
        INT => words::int_word(data, at, layout::get2(t.body, 0)),
        UINT => words::uint_word(data, at, layout::get2(t.body, 0)),
        ADDRESS => words::address_word(data, at),
        BOOL => words::bool_word(data, at),
        BYTES_N => words::bytes_word(data, at, layout::get2(t.body, 0)),
        _ => words::function_word(data, at),
    }
}

// How many times the base stands, as far as numbers are told apart: every suffix is fixed.
fn copies(suffixes: &[u8]) -> usize
    requires { SomeSized suffixes.now }
    ensures { CopiesAre suffixes.now result }
{
    let mut left = suffixes;
    let mut n = 1;
    // A walk over pieces: a loop (`record::Piece`).
    while !left.is_empty() {
        let suffix = Piece::first(left);
        n = extent::times(n, layout::get8(suffix.body, 0));
        left = suffix.rest;
    }
    n
}

// A base by itself, by its record.
#[cycle(base_many_row_run)]
fn base(t: Piece<'_>, data: &[u8], at: usize) -> Option<usize>
    requires { SomeBase t × Place «data».now at }
    ensures { BaseEnds t.entry «data».now at result }
{
    if t.kind == TUPLE {
        row(t.body, data, at)
    } else {
        leaf(t, data, at)
    }
}

// A base so many times, one behind the other. One that takes no bytes takes none however often.
#[cycle(base_many_row_run)]
fn run(t: Piece<'_>, data: &[u8], at: usize, count: usize) -> Option<usize>
    requires { SomeBase t × Place «data».now at }
    ensures { RunEnds t.entry «data».now at count result }
{
    let mut p = at;
    for _ in 0..count {
        let q = base(t, data, p)?;
        if q == p {
            return Some(p);
        }
        p = q;
    }
    Some(p)
}

// So many values of a kind.
#[cycle(base_many_row_run)]
pub fn many(t: &[u8], data: &[u8], at: usize, count: u64) -> Option<usize>
    requires { SomeStatic t.now × Place «data».now at }
    ensures { ManyEnd t.now «data».now at count result }
{
    let base = Piece::first(t);
    run(base, data, at, extent::times(copies(base.rest), count))
}

// The fields of a tuple, one behind the other.
#[cycle(base_many_row_run)]
fn row(b: &[u8], data: &[u8], at: usize) -> Option<usize>
    requires { SomeRow b.now × Place «data».now at }
    ensures { RowEnds b.now «data».now at result }
{
    let mut left = b;
    let mut p = at;
    // A walk over pieces: a loop (`record::Piece`).
    while !left.is_empty() {
        let field = Piece::first(left);
        p = many(record::named(field.body).rest, data, p, ONCE)?;
        left = field.rest;
    }
    Some(p)
}
