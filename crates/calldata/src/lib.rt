// Call data beside a function's record: the heads of its inputs, and whether data are the encoding of some values.
#![tactic(auto)]

ghost use Rattle.std.specs.Prelude.{◌≡◌, ◌∷◌, ◌≤◌, length, MatchResult};
ghost use Rattle.model.specs.Layout.{little_endian};
ghost use Rattle.model.specs.Answer.{said, outcome, after};
ghost use Rattle.record.specs.Encoded.{SomeFields};
ghost use Rattle.abi.specs.Writes.{Put};
ghost use Rattle.calldata.specs.Calls.{flag, heads_output, check_output};
ghost use Rattle.calldata.specs.Parts.{InputsIn, NoInputs, SomeRead, Limited, TooLong, ShortIn, Refuses, HeadsLong, SomeHeads, HeadsWrote};

use extent::Extent;
use model::{Answer, Keyword, Refusal};
use record::{Checked, Piece};

// How many bytes heads, or data, may have.
const LIMIT: usize = 65536;

// How many bytes are written of a head.
const EACH: usize = 5;

// Inputs.

// The inputs of a function's record: "16 also here for anything but a function". An arm for each case: under an or-pattern the check does not know which it is.
#[tactic(auto, using(crate::proofs::Finding::inputs))]
fn inputs_of(record: &[u8]) -> Result<&[u8], Refusal>
    ensures { MatchResult result (λ inputs. InputsIn «record».now inputs.now) (λ refusal. NoInputs «record».now refusal) }
{
    match record::check(record) {
        Some(
            Checked::Declared {
                keyword: Keyword::Function,
                inputs,
                ..
            },
        ) => Ok(inputs.bytes),
        Some(Checked::Declared { .. }) => Err(Refusal::WrongSort),
        Some(Checked::Constructor { .. }) => Err(Refusal::WrongSort),
        Some(Checked::Field { .. }) => Err(Refusal::NotWellFormed),
        None => Err(Refusal::NotWellFormed),
    }
}

// The same, if their heads are within the limit. What is lent as a parameter is known to be of bytes.
#[tactic(auto, using(crate::proofs::Finding::limits))]
fn limited(inputs: &[u8]) -> Result<&[u8], Refusal>
    requires { SomeRead inputs.now }
    ensures { MatchResult result (λ b. Limited inputs.now b.now) (λ refusal. TooLong inputs.now refusal) }
{
    if LIMIT < extent::of_fields(inputs).head {
        return Err(Refusal::CallTooLong);
    }
    Ok(inputs)
}

// The inputs that a call is about: 24 after 16.
fn call_inputs(record: &[u8]) -> Result<&[u8], Refusal>
    ensures { MatchResult result (λ inputs. ShortIn «record».now inputs.now) (λ refusal. Refuses «record».now refusal) }
{
    limited(inputs_of(record)?)
}

// Heads.

// How many bytes are written of the heads of fields.
fn heads_length(b: &[u8]) -> usize
    requires { SomeFields b.now }
    ensures { HeadsLong b.now result }
{
    let mut left = b;
    let mut n = 0;
    // A walk over pieces: a loop (`record::Piece`).
    while !left.is_empty() {
        left = Piece::first(left).rest;
        n += EACH;
    }
    n
}

// Writes a head: "1 or 0, then the length, 4 bytes little-endian". Each writer writes at the front of what it is lent, and answers how much.
fn write_head(out: &mut [u8], e: Extent) -> usize
    requires { 5 ≤ length out.old }
    ensures { Put (flag e.dynamic ∷ little_endian 4 e.head) out.old out.new result }
{
    out[0] = u8::from(e.dynamic);
    layout::put4(out, 1, e.head);
    EACH
}

// Writes the heads of fields.
fn write_heads(b: &[u8], out: &mut [u8]) -> usize
    requires { SomeHeads b.now out.old }
    ensures { HeadsWrote b.now out.old out.new result }
{
    let mut left = b;
    let mut n = 0;
    // A walk over pieces: a loop (`record::Piece`).
    while !left.is_empty() {
        let field = Piece::first(left);
        let kind = record::named(field.body).rest;
        n += write_head(&mut out[n..], extent::of_kind(kind));
        left = field.rest;
    }
    n
}

// "For a function's inputs, tell per parameter whether it is dynamic, and its head length in bytes": 20 after 24.
pub fn heads(record: &[u8], out: &mut [u8]) -> Answer
    ensures says { said result ≡ outcome (length out.old) (heads_output «record».now) }
    ensures left { out.new ≡ after out.old (heads_output «record».now) }
{
    let inputs = call_inputs(record)?;
    if out.len() < heads_length(inputs) {
        return Err(Refusal::NoRoom.into());
    }
    Ok(write_heads(inputs, out))
}

// Data.

// "A second call judges the data by the same record, writing nothing": 24 before 25.
pub fn check(record: &[u8], data: &[u8]) -> Answer
    ensures says { said result ≡ outcome 0 (check_output «record».now «data».now) }
{
    let inputs = call_inputs(record)?;
    if LIMIT < data.len() {
        return Err(Refusal::CallTooLong.into());
    }
    if !judge::encoded(inputs, data) {
        return Err(Refusal::NotAnEncoding.into());
    }
    Ok(0)
}
