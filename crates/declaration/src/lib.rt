// The reading call. A text is read once, into an array of the call's own, and what was read is copied if all of it fits.
#![tactic(auto)]

ghost use Rattle.std.specs.Prelude.{◌≡◌, ◌*◌, ◌+◌, ◌≤◌, length};
ghost use Rattle.model.specs.Answer.{said, outcome, after};
ghost use Rattle.model.specs.Calls.{read_output};
ghost use Rattle.declaration.specs.Outputs.{scratch_for, exec_output};

use model::{Answer, Call, Keyword, Refusal, Refused};

// Reads into an array of N bytes.
fn sized<const N: usize>(text: &[u8], k: Keyword, record: &mut [u8]) -> Answer
    requires { (scratch_for (length text.now) ≤ N) × (N ≤ scratch_for 4096) }
    ensures says { said result ≡ outcome (length «record».old) (exec_output k text.now) }
    ensures left { «record».new ≡ after «record».old (exec_output k text.now) }
{
    let mut scratch = [0; N];
    let read = parser::exec(text, k, &mut scratch)?;
    layout::deliver(&scratch[..read.len], record)
}

// "8 over 4,096 bytes"
const LONGEST_TEXT: usize = 4096;

// "32 nested tuples read"
const DEEPEST: usize = 32;

// Five sizes of array, since one is filled with zeros at each call: 10 bytes for each byte of text and for each tuple that may be open.
const TINY_TEXT: usize = 64;

const LITTLE_TEXT: usize = 128;

const SMALL_TEXT: usize = 256;

const MID_TEXT: usize = 1024;

const TINY: usize = 10 * (TINY_TEXT + DEEPEST);

const LITTLE: usize = 10 * (LITTLE_TEXT + DEEPEST);

const SMALL: usize = 10 * (SMALL_TEXT + DEEPEST);

const MID: usize = 10 * (MID_TEXT + DEEPEST);

const LARGE: usize = 10 * (LONGEST_TEXT + DEEPEST);

// The short sizes apart from the long ones, so that a short text's call has a short stack.
#[inline(never)]
fn short(text: &[u8], k: Keyword, record: &mut [u8]) -> Answer
    requires { length text.now ≤ 256 }
    ensures says { said result ≡ outcome (length «record».old) (exec_output k text.now) }
    ensures left { «record».new ≡ after «record».old (exec_output k text.now) }
{
    match text.len() {
        ..=TINY_TEXT => sized::<TINY>(text, k, record),
        ..=LITTLE_TEXT => sized::<LITTLE>(text, k, record),
        _ => sized::<SMALL>(text, k, record),
    }
}

#[inline(never)]
fn long(text: &[u8], k: Keyword, record: &mut [u8]) -> Answer
    requires { length text.now ≤ 4096 }
    ensures says { said result ≡ outcome (length «record».old) (exec_output k text.now) }
    ensures left { «record».new ≡ after «record».old (exec_output k text.now) }
{
    match text.len() {
        ..=MID_TEXT => sized::<MID>(text, k, record),
        _ => sized::<LARGE>(text, k, record),
    }
}

fn by_size(text: &[u8], k: Keyword, record: &mut [u8]) -> Answer
    requires { length text.now ≤ 4096 }
    ensures says { said result ≡ outcome (length «record».old) (exec_output k text.now) }
    ensures left { «record».new ≡ after «record».old (exec_output k text.now) }
{
    if text.len() <= SMALL_TEXT {
        short(text, k, record)
    } else {
        long(text, k, record)
    }
}

// The five reading calls: `Descriptor::parse_declaration`, and `FunctionDescriptor::parse_declaration` and so on, which skip leading blanks.
pub fn read(call: Call, text: &[u8], record: &mut [u8]) -> Answer
    ensures says { said result ≡ outcome (length «record».old) (read_output call text.now) }
    ensures left { «record».new ≡ after «record».old (read_output call text.now) }
{
    text::admit(text)?;
    let Some(k) = parser::wanted(call, text) else {
        return Err(Refusal::ExpectDeclaration.into());
    };
    by_size(text, k, record)
}
