// The calls that demand 3 and the orders 3, 4, 5, 13 and 14 speak of, each with its contract in the form in which the theorems of proofs take it: that it has that
// form is what is proved here.
#![tactic(auto)]

ghost use Rattle.std.specs.Prelude.{[], MatchResult};
ghost use Rattle.model.specs.Answer.{number};
ghost use Rattle.strip.specs.Strip.{next_line, next_signature};
ghost use Rattle.demand.specs.Runs.{ReadRun, KindRun, SheetRun, CanonicalRun, SignatureRun, FullRun, KindTextRun, NameRun};
ghost use Rattle.demand.specs.Strips.{PieceRun};
ghost use Rattle.demand.specs.Samples.{SampleRun};

use model::{Answer, Call, Refusal};

pub fn read(call: Call, text: &[u8], record: &mut [u8]) -> Answer
    ensures { ReadRun call text.now «record».old «record».new result }
{
    declaration::read(call, text, record)
}

pub fn parse_kind(text: &[u8], record: &mut [u8]) -> Answer
    ensures { KindRun text.now «record».old «record».new result }
{
    kind_call::parse_kind(text, record)
}

pub fn parse_sheet(text: &[u8], record: &mut [u8], line: &mut usize) -> Answer
    ensures { SheetRun text.now «record».old «record».new line.new result }
{
    sheet::parse_sheet(text, record, line)
}

pub fn sample(weight: usize, index: usize, text: &mut [u8]) -> Answer
    ensures { SampleRun weight index text.old text.new result }
{
    sampler::sample(weight, index, text)
}

pub fn canonical(record: &[u8], text: &mut [u8]) -> Answer
    ensures { CanonicalRun «record».now text.old text.new result }
{
    abi::canonical(record, text)
}

pub fn signature(record: &[u8], text: &mut [u8]) -> Answer
    ensures { SignatureRun «record».now text.old text.new result }
{
    abi::signature(record, text)
}

pub fn full_text(record: &[u8], text: &mut [u8]) -> Answer
    ensures { FullRun «record».now text.old text.new result }
{
    full::full_text(record, text)
}

pub fn kind_text(record: &[u8], text: &mut [u8]) -> Answer
    ensures { KindTextRun «record».now text.old text.new result }
{
    abi::kind_text(record, text)
}

pub fn name(record: &[u8]) -> Result<&[u8], Refusal>
    ensures { MatchResult result (λ name. NameRun «record».now name.now 0) (λ refusal. NameRun «record».now [] (number refusal)) }
{
    abi::name(record)
}

pub fn next_line(strip: &[u8]) -> Option<usize>
    ensures { PieceRun next_line strip.now result }
{
    strip::next_line(strip)
}

pub fn next_signature(strip: &[u8]) -> Option<usize>
    ensures { PieceRun next_signature strip.now result }
{
    strip::next_signature(strip)
}
