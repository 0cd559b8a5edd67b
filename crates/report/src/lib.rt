// The line that the program `deposit` prints.
#![tactic(auto)]

ghost use Rattle.std.specs.Prelude.{◌≡◌, ◌≤◌, length};
ghost use Rattle.layout.specs.Buffer.{put};
ghost use Rattle.model.specs.Deposit.{no_line, deposit_line};
ghost use Rattle.abi.specs.Writes.{Put};
ghost use Rattle.report.specs.Lines.{ok_front, record_line};

use model::{Call, Keyword, Refused};
use record::Checked;

// "at most 40,960 bytes"
const LONGEST_RECORD: usize = 40960;

// Each writer writes at the front of what it is lent, and answers how much.

// "`no`, number, position"
#[tactic(auto, using(crate::proofs::Parts::shorts))]
fn refused(number: u32, position: usize, out: &mut [u8]) -> usize
    requires { 64 ≤ length out.old }
    ensures { Put (no_line number position) out.old out.new result }
{
    let mut n = abi::write_word(out, b"no ");
    n += abi::write_decimal(&mut out[n..], number as u64);
    n += abi::write_word(&mut out[n..], b" ");
    n + abi::write_decimal(&mut out[n..], position as u64)
}

// "`ok`, the keyword, the record's length"
#[tactic(auto, using(crate::proofs::Parts::shorts))]
fn front(keyword: Keyword, size: usize, out: &mut [u8]) -> usize
    requires { 64 ≤ length out.old }
    ensures written { Put (ok_front keyword size) out.old out.new result }
    ensures short { result ≤ 64 }
{
    let mut n = abi::write_word(out, b"ok ");
    n += abi::write_word(&mut out[n..], parser::keyword_text(keyword));
    n += abi::write_word(&mut out[n..], b" ");
    n += abi::write_decimal(&mut out[n..], size as u64);
    n + abi::write_word(&mut out[n..], b" ")
}

// The line of a record, empty where it is none of a declaration: "the canonical text (`-` for a constructor)" behind the front.
fn accepted(record: &[u8], out: &mut [u8]) -> usize
    requires { 131072 ≤ length out.old }
    ensures { Put (record_line «record».now) out.old out.new result }
{
    let Some(checked) = record::check(record) else {
        return 0;
    };
    match checked {
        Checked::Declared {
            keyword,
            name,
            inputs,
            ..
        } => {
            let n = front(keyword, record.len(), out);
            n + abi::write_line(name, inputs.bytes, &mut out[n..])
        }
        Checked::Constructor { .. } => {
            let n = front(Keyword::Constructor, record.len(), out);
            n + abi::write_word(&mut out[n..], b"-")
        }
        Checked::Field { .. } => 0,
    }
}

// "A program `deposit` reads standard input by the general call and prints one line". Answers its length.
pub fn line(text: &[u8], out: &mut [u8]) -> usize
    requires { 131072 ≤ length out.old }
    ensures written { out.new ≡ put 0 (deposit_line text.now) out.old }
    ensures long { result ≡ length (deposit_line text.now) }
    ensures inside { result ≤ length out.new }
{
    let mut record = [0; LONGEST_RECORD];
    match declaration::read(Call::General, text, &mut record) {
        Ok(length) => accepted(&record[..length], out),
        Err(Refused { refusal, position }) => refused(u32::from(refusal), position, out),
    }
}
