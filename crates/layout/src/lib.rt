// Bytes in a lent buffer: little-endian numbers, heads of records, copies and insertions; and a call's output, copied if all of it fits. Each function
// says all that it leaves. Numbers stand at places: the front of a record is written after what stands behind it.
#![tactic(auto)]

ghost use Rattle.std.specs.Prelude.{◌≡◌, ◌+◌, ◌-◌, ◌*◌, ◌≤◌, ◌<◌, length, take, drop};
ghost use Rattle.model.specs.Layout.{little_endian, le_value};
ghost use Rattle.model.specs.Answer.{writes, said, outcome, after};
ghost use Rattle.layout.specs.Buffer.{put, inserted, head, front_of};

use model::{Answer, Refusal};

// A record is its whole length in four bytes, its kind in two, and a body: how long that head is, and where the kind stands.
pub const HEAD: usize = 6;

pub const KIND: usize = 4;

// A head and the number of two bytes behind it: a field's mark, a function's or constructor's mutability, whether an event is anonymous.
pub const NUMBERED: usize = 8;

// The front of a field's record: its head, its mark and the head of its name.
pub const FIELD_FRONT: usize = 14;

// The kinds of record: numbers and not an enum, since a lent record may have any. Elementary kinds and a tuple:
pub const INT: usize = 0x1;

pub const UINT: usize = 0x2;

pub const ADDRESS: usize = 0x3;

pub const BOOL: usize = 0x4;

pub const BYTES_N: usize = 0x5;

pub const FUNCTION_KIND: usize = 0x6;

pub const BYTES: usize = 0x7;

pub const STRING: usize = 0x8;

pub const TUPLE: usize = 0x9;

// suffixes:
pub const SIZED: usize = 0xA;

pub const OPEN: usize = 0xB;

// parts of declarations:
pub const FIELD: usize = 0x10;

pub const NAME: usize = 0x11;

pub const LIST: usize = 0x12;

// declarations:
pub const FUNCTION: usize = 0x20;

pub const CONSTRUCTOR: usize = 0x21;

pub const EVENT: usize = 0x22;

pub const ERROR: usize = 0x23;

// and the record of a sheet.
pub const SHEET: usize = 0x30;

// Writes the lowest N bytes of a number at o.
fn put<const N: usize>(out: &mut [u8], o: usize, v: u64)
    requires few { N ≤ 8 }
    requires room { o + N ≤ length out.old }
    ensures { out.new ≡ put o (little_endian N v) out.old }
{
    out[o..o + N].copy_from_slice(&v.to_le_bytes()[..N]);
}

// The number of N bytes at `at`.
fn get<const N: usize>(b: &[u8], at: usize) -> u64
    requires few { N ≤ 8 }
    requires enough { at + N ≤ length b.now }
    ensures { result ≡ le_value (take N (drop at b.now)) }
{
    let mut bytes = [0; 8];
    bytes[..N].copy_from_slice(&b[at..at + N]);
    u64::from_le_bytes(bytes)
}

// Writes a number of two bytes at o.
pub fn put2(out: &mut [u8], o: usize, v: usize)
    requires { o + 2 ≤ length out.old }
    ensures { out.new ≡ put o (little_endian 2 v) out.old }
{
    put::<2>(out, o, v as u64);
}

// Writes a number of four bytes at o.
pub fn put4(out: &mut [u8], o: usize, v: usize)
    requires { o + 4 ≤ length out.old }
    ensures { out.new ≡ put o (little_endian 4 v) out.old }
{
    put::<4>(out, o, v as u64);
}

// Writes a number of eight bytes at o.
pub fn put8(out: &mut [u8], o: usize, v: u64)
    requires { o + 8 ≤ length out.old }
    ensures { out.new ≡ put o (little_endian 8 v) out.old }
{
    put::<8>(out, o, v);
}

// Writes the head of a record at o: its whole length and its kind.
#[tactic(auto, using(crate::proofs::Puts::puts))]
pub fn header(out: &mut [u8], o: usize, n: usize, k: u16)
    requires { o + 6 ≤ length out.old }
    ensures { out.new ≡ put o (head n k) out.old }
{
    put4(out, o, n);
    put2(out, o + KIND, usize::from(k));
}

// Writes the front of a field's record at o: its head, its mark and the head of its name, for a name of m bytes and a kind of l.
#[tactic(auto, using(crate::proofs::Puts::puts))]
pub fn front(out: &mut [u8], o: usize, mark: usize, m: usize, l: usize)
    requires { (o + 14 ≤ length out.old) × (m + l ≤ 1048576) }
    ensures { out.new ≡ put o (front_of mark m l) out.old }
{
    header(out, o, FIELD_FRONT + m + l, FIELD as u16);
    put2(out, o + HEAD, mark);
    header(out, o + NUMBERED, HEAD + m, NAME as u16);
}

// Writes the N bytes of a part that stand at i where they belong in its copy at `at`.
fn copy_bytes<const N: usize>(out: &mut [u8], at: usize, src: &[u8], i: usize)
    requires few { N ≤ 8 }
    requires inside { i + N ≤ length src.now }
    requires room { at + length src.now ≤ length out.old }
    ensures { out.new ≡ put (at + i) (take N (drop i src.now)) out.old }
{
    put::<N>(out, at + i, get::<N>(src, i));
}

// A part of N bytes up to twice as many: the first N and the last N.
fn copy_ends<const N: usize>(out: &mut [u8], at: usize, src: &[u8])
    requires few { N ≤ 8 }
    requires enough { (N ≤ length src.now) × (length src.now ≤ 2 * N) }
    requires room { at + length src.now ≤ length out.old }
    ensures { out.new ≡ put at src.now out.old }
{
    copy_bytes::<N>(out, at, src, 0);
    copy_bytes::<N>(out, at, src, src.len() - N);
}

// A part of eight bytes or more, eight at a time, the last eight once more.
#[tactic(auto, using(crate::proofs::Copies::copies))]
fn copy_eights(out: &mut [u8], at: usize, src: &[u8])
    requires { (8 ≤ length src.now) × (at + length src.now ≤ length out.old) }
    ensures { out.new ≡ put at src.now out.old }
{
    for i in (0..src.len() - 8).step_by(8) {
        copy_bytes::<8>(out, at, src, i);
    }
    copy_bytes::<8>(out, at, src, src.len() - 8);
}

// Writes the bytes of a part at `at`.
// Most parts are short: `copy_from_slice` takes twice as long for them as this does.
#[tactic(auto, using(crate::proofs::Copies::copies))]
pub fn copy(out: &mut [u8], at: usize, src: &[u8])
    requires { at + length src.now ≤ length out.old }
    ensures { out.new ≡ put at src.now out.old }
{
    match src.len() {
        8.. => copy_eights(out, at, src),
        4.. => copy_ends::<4>(out, at, src),
        2.. => copy_ends::<2>(out, at, src),
        1 => copy_ends::<1>(out, at, src),
        0 => {}
    }
}

// What a call writes, copied if all of it fits.
#[tactic(auto, unfolding(model::specs::Answer::said, model::specs::Answer::outcome, model::specs::Answer::after, crate::specs::Buffer::put))]
pub fn deliver(bytes: &[u8], out: &mut [u8]) -> Answer
    ensures says { said result ≡ outcome (length out.old) (writes bytes.now) }
    ensures left { out.new ≡ after out.old (writes bytes.now) }
{
    if out.len() < bytes.len() {
        return Err(Refusal::NoRoom.into());
    }
    copy(out, 0, bytes);
    Ok(bytes.len())
}

// Puts a part in at `at`, before the bytes up to `end`.
#[tactic(auto, using(crate::proofs::Puts::puts))]
pub fn insert(out: &mut [u8], at: usize, end: usize, part: &[u8])
    requires { (at ≤ end) × (end + length part.now ≤ length out.old) }
    ensures { out.new ≡ inserted at end part.now out.old }
{
    if part.is_empty() {
        return;
    }
    out.copy_within(at..end, at + part.len());
    copy(out, at, part);
}

// The number of two bytes at `at`.
pub fn get2(b: &[u8], at: usize) -> usize
    requires { at + 2 ≤ length b.now }
    ensures { (result ≡ le_value (take 2 (drop at b.now))) × (result < 65536) }
{
    get::<2>(b, at) as usize
}

// The number of four bytes at `at`.
pub fn get4(b: &[u8], at: usize) -> usize
    requires { at + 4 ≤ length b.now }
    ensures { (result ≡ le_value (take 4 (drop at b.now))) × (result < 4294967296) }
{
    get::<4>(b, at) as usize
}

// The number of eight bytes at `at`.
pub fn get8(b: &[u8], at: usize) -> u64
    requires { at + 8 ≤ length b.now }
    ensures { result ≡ le_value (take 8 (drop at b.now)) }
{
    get::<8>(b, at)
}
