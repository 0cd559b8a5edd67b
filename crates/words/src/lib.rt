// Words in call data: whether what stands at a place is as the encoder sets it, and where it ends. Nothing here knows of records.
// A part of the data stays a place in them: heads say where parts stand, and the definitions of crates/encoding/specs/Judge.antt are in places.
#![tactic(auto)]

ghost use Rattle.std.specs.Prelude.{◌≡◌, true, ◌&&◌, ◌+◌, ◌-◌, ◌/◌, ◌≤◌, ◌<◌, leb, length, take, drop};
ghost use Rattle.kinds.specs.Bytes.{same};
ghost use Rattle.kinds.specs.Kind.{bits, octets, is_bit_width, is_byte_length, int, uint, fixed_bytes, address, bool, function};
ghost use Rattle.encoding.specs.Words.{word, whole_words};
ghost use Rattle.encoding.specs.Judge.{be_value, all_are, sign_byte, word_at, has_word, tested, string_at, leaf};
ghost use Rattle.words.specs.Places.{capped};

// The bytes of a word, and where its last one stands.
const WORD: usize = 32;

const LAST: usize = WORD - 1;

// A byte is so many bits, and has so many values.
const BYTE_BITS: usize = 8;

const BYTE_VALUES: usize = 256;

// A capped number, not an Option: numbers up to 65,536 are told apart, and this one, the next, stands for every greater one.
const OVER: usize = 65537;

// An address is a number of so many bits, a function a string of so many bytes.
const ADDRESS_BITS: usize = 160;

const FUNCTION_BYTES: usize = 24;

// The greatest number that is a bool: true.
const TRUE: u8 = 1;

// The first byte of a negative number is this one or a greater one.
const NEGATIVE: u8 = 0x80;

// A number, as far as it is told apart.
pub fn cap(n: usize) -> usize
    ensures { result ≡ capped n }
{
    n.min(OVER)
}

// Whether n bytes stand at a place.
pub fn has(d: &[u8], at: usize, n: usize) -> bool
    requires { at ≤ length d.now }
    ensures { result ≡ leb (at + n) (length d.now) }
{
    n <= d.len() - at
}

// The number of the word at a place, capped.
#[tactic(auto, using(crate::proofs::Words::words))]
pub fn number_at(d: &[u8], at: usize) -> usize
    requires { at + 32 ≤ length d.now }
    ensures { (result ≡ capped (be_value (word_at d.now at))) × (result ≤ 65537) }
{
    let mut v = 0;
    for &b in &d[at..at + WORD] {
        v = cap(v * BYTE_VALUES + usize::from(b));
    }
    v
}

// Whether the word of n stands at a place.
#[tactic(auto, using(crate::proofs::Words::words))]
pub fn is_number(d: &[u8], at: usize, n: usize) -> bool
    requires { (at ≤ length d.now) × (n ≤ 65536) }
    ensures { result ≡ (has_word d.now at && same (word_at d.now at) (word n)) }
{
    has(d, at, WORD) && number_at(d, at) == n
}

// Whether every byte of a part is c: no early exit, so that several are looked at in one step.
fn all_are(t: &[u8], c: u8) -> bool
    ensures { result ≡ all_are c t.now }
{
    t.iter().fold(true, |same, b| same & (*b == c))
}

// A word whose bytes from one of them up to another are all c.
#[tactic(auto, using(crate::proofs::Words::parts))]
fn padded(d: &[u8], at: usize, from: usize, to: usize, c: u8) -> Option<usize>
    requires { (at ≤ length d.now) × (from ≤ to) × (to ≤ 32) }
    ensures { result ≡ tested d.now (λ w. all_are c (take (to - from) (drop from w))) at }
{
    if !has(d, at, WORD) {
        return None;
    }
    all_are(&d[at + from..at + to], c).then_some(at + WORD)
}

// How many bytes stand in front of a number of so many bits.
fn lead(width: usize) -> usize
    requires { is_bit_width width ≡ true }
    ensures { (result ≡ 32 - width / 8) × (result < 32) }
{
    WORD - width / BYTE_BITS
}

// What they are by the number's first byte.
#[tactic(auto, unfolding(encoding::specs::Judge::sign_byte))]
fn sign(c: u8) -> u8
    ensures { result ≡ sign_byte c }
{
    match c {
        NEGATIVE.. => u8::MAX,
        _ => 0,
    }
}

#[tactic(auto, using(crate::proofs::Words::words), unfolding(encoding::specs::Judge::leaf))]
pub fn int_word(d: &[u8], at: usize, width: usize) -> Option<usize>
    requires { (at ≤ length d.now) × (is_bit_width width ≡ true) }
    ensures { result ≡ leaf d.now (int (bits width)) at }
{
    let lead = lead(width);
    let first = d.get(at + lead)?;
    padded(d, at, 0, lead, sign(*first))
}

#[tactic(auto, using(crate::proofs::Words::words), unfolding(encoding::specs::Judge::leaf))]
pub fn uint_word(d: &[u8], at: usize, width: usize) -> Option<usize>
    requires { (at ≤ length d.now) × (is_bit_width width ≡ true) }
    ensures { result ≡ leaf d.now (uint (bits width)) at }
{
    padded(d, at, 0, lead(width), 0)
}

#[tactic(auto, unfolding(encoding::specs::Judge::leaf, encoding::specs::Judge::is_word_of))]
pub fn address_word(d: &[u8], at: usize) -> Option<usize>
    requires { at ≤ length d.now }
    ensures { result ≡ leaf d.now address at }
{
    uint_word(d, at, ADDRESS_BITS)
}

#[tactic(auto, using(crate::proofs::Words::words), unfolding(encoding::specs::Judge::leaf))]
pub fn bool_word(d: &[u8], at: usize) -> Option<usize>
    requires { at ≤ length d.now }
    ensures { result ≡ leaf d.now bool at }
{
    let last = d.get(at + LAST)?;
    if TRUE < *last {
        return None;
    }
    padded(d, at, 0, LAST, 0)
}

#[tactic(auto, using(crate::proofs::Words::words), unfolding(encoding::specs::Judge::leaf))]
pub fn bytes_word(d: &[u8], at: usize, n: usize) -> Option<usize>
    requires { (at ≤ length d.now) × (is_byte_length n ≡ true) }
    ensures { result ≡ leaf d.now (fixed_bytes (octets n)) at }
{
    padded(d, at, n, WORD, 0)
}

#[tactic(auto, unfolding(encoding::specs::Judge::leaf, encoding::specs::Judge::is_word_of))]
pub fn function_word(d: &[u8], at: usize) -> Option<usize>
    requires { at ≤ length d.now }
    ensures { result ≡ leaf d.now function at }
{
    bytes_word(d, at, FUNCTION_BYTES)
}

// A length rounded up to whole words.
fn whole_words(n: usize) -> usize
    requires { n ≤ 65537 }
    ensures { result ≡ whole_words n }
{
    n.div_ceil(WORD) * WORD
}

// A length, so many bytes, and zeros up to the next whole word. The data are shorter than every length that is not told apart.
#[tactic(auto, using(crate::proofs::Words::words))]
pub fn string(d: &[u8], at: usize) -> Option<usize>
    requires { (at ≤ length d.now) × (length d.now ≤ 65536) }
    ensures { result ≡ string_at d.now at }
{
    if !has(d, at, WORD) {
        return None;
    }
    let from = at + WORD;
    let n = number_at(d, at);
    let m = whole_words(n);
    if !has(d, from, m) {
        return None;
    }
    all_are(&d[from + n..from + m], 0).then_some(from + m)
}
