// The kind call. A text that starts with `(` is scanned, then read by the field reader into an array of the call's own, and what was read is
// copied if all of it fits; any other text is written as it is read.
#![tactic(auto)]

ghost use Rattle.std.specs.Prelude.{◌≡◌, false, ◌+◌, ◌*◌, ◌≤◌, ◌<◌, length};
ghost use Rattle.model.specs.Reading.{deepest, longest_text};
ghost use Rattle.model.specs.Answer.{said, outcome, after};
ghost use Rattle.model.specs.Calls.{crowded, closes, is_bare, kind_output};
ghost use Rattle.layout.specs.Answers.{Ends};
ghost use Rattle.kind_call.specs.Scans.{StepIs, stands_at};
ghost use Rattle.kind_call.specs.Outputs.{lone_output, tuple_output, whole_output};

use model::{Answer, Mark, Refusal, Refused, Sort};

// "over 4,096 bytes" is too long
const LONGEST_TEXT: usize = 4096;

// "32 nested tuples"
const DEEPEST: usize = 32;

// How many more tuples may open behind a byte, before which `left` more could. Each `)` of the text makes room for one more; there is no number
// where one too many opens.
fn step(c: u8, left: usize) -> Option<usize>
    requires { left ≤ deepest + longest_text }
    ensures { StepIs c left result }
{
    match c {
        b'(' => left.checked_sub(1),
        b')' => Some(left + 1),
        _ => Some(left),
    }
}

// The first `(` where "some beginning of the text has 33 more `(` than `)`".
fn crowded(s: &[u8]) -> Option<usize>
    requires { length s.now ≤ 4096 }
    ensures { result ≡ crowded deepest 0 s.now }
{
    let mut left = DEEPEST;
    for (i, c) in s.iter().enumerate() {
        let Some(more) = step(*c, left) else {
            return Some(i);
        };
        left = more;
    }
    None
}

// Whether a byte is a bracket that closes.
fn closes(c: u8) -> bool
    ensures { result ≡ closes c }
{
    matches!(c, b')' | b']')
}

// Whether what stands at a place is no blank and, directly behind a bracket that closes, no letter.
fn stands(s: &[u8], i: usize, behind: bool) -> bool
    requires { i < length s.now }
    ensures { result ≡ stands_at s.now i behind }
{
    text::blank(&s[i..]) == 0 && !(behind && text::is_letter(s[i]))
}

// "no blanks, no names"
fn is_bare(s: &[u8]) -> bool
    ensures { result ≡ is_bare false s.now }
{
    let mut behind = false;
    for (i, c) in s.iter().enumerate() {
        if !stands(s, i, behind) {
            return false;
        }
        behind = closes(*c);
    }
    true
}

// Two sizes of scratch, since an array is filled with zeros at each call: 10 bytes for each byte of text and for each tuple that may be open.
const SHORT_TEXT: usize = 256;

const SHORT_SCRATCH: usize = 10 * (SHORT_TEXT + DEEPEST);

const LONG_SCRATCH: usize = 10 * (LONGEST_TEXT + DEEPEST);

// A text that has to be one tuple with its suffixes, read by way of N bytes of scratch. Why another reading fails is not told. It is never inlined, so
// that a short text has a short stack.
#[inline(never)]
fn whole<const N: usize>(text: &[u8], record: &mut [u8]) -> Answer
    requires { (10 * (length text.now + 32) ≤ N) × (N ≤ 41280) }
    ensures { Ends (whole_output text.now) «record».old «record».new result }
{
    let mut scratch = [0; N];
    let Ok(got) = fields::field(text, 0, Sort::Plain, DEEPEST, &mut scratch) else {
        return Err(Refusal::Unknown.into());
    };
    if got.next != text.len() {
        return Err(Refusal::Unknown.into());
    }
    layout::deliver(&scratch[..got.len], record)
}

// A text that starts with `(`.
fn tuple(text: &[u8], record: &mut [u8]) -> Answer
    requires { length text.now ≤ 4096 }
    ensures { Ends (tuple_output text.now) «record».old «record».new result }
{
    if let Some(position) = crowded(text) {
        return Err(Refused {
            refusal: Refusal::TooDeep,
            position,
        });
    }
    if !is_bare(text) {
        return Err(Refusal::Unknown.into());
    }
    if text.len() <= SHORT_TEXT {
        whole::<SHORT_SCRATCH>(text, record)
    } else {
        whole::<LONG_SCRATCH>(text, record)
    }
}

// A text that does not: its record is written into the lent buffer at once.
fn elementary(text: &[u8], record: &mut [u8]) -> Answer
    requires { length text.now ≤ 4096 }
    ensures { Ends (lone_output text.now) «record».old «record».new result }
{
    let run = match value::from_str(text) {
        Ok(run) => run,
        Err(refusal) => return Err(refusal.into()),
    };
    let need = run.field_length(b"");
    if record.len() < need {
        return Err(Refusal::NoRoom.into());
    }
    run.write_field(usize::from(Mark::Unmarked), b"", record);
    Ok(need)
}

// Reads a whole text as a kind and writes a field with mark 0 and an empty name.
pub fn parse_kind(text: &[u8], record: &mut [u8]) -> Answer
    ensures says { said result ≡ outcome (length «record».old) (kind_output text.now) }
    ensures left { «record».new ≡ after «record».old (kind_output text.now) }
{
    text::admit(text)?;
    if text::peek(text, 0) == Some(b'(') {
        tuple(text, record)
    } else {
        elementary(text, record)
    }
}
