// "A program `deposit` reads standard input by the general call and prints one line". What the line is, is proved of `report::line`. Of a text that
// cannot be read to its end no line is printed.
#![tactic(auto)]

ghost use Rattle.std.specs.Prelude.{◌≡◌, IfOk, IfSome};
ghost use Rattle.model.specs.Deposit.{deposit_line};

use arrayvec::ArrayVec;
use std::io;
use std::io::Read;
use std::process::ExitCode;

// One byte over the limit is enough to see that a text is over it.
const KEPT: usize = 4097;

// What `report::line` asks for.
const ROOM: usize = 131072;

type Text = ArrayVec<u8, KEPT>;

// All of the input, or as much as is kept: the line is the same.
fn read_text<I: Read>(input: &mut I) -> io::Result<Text>
    ensures { IfOk result (λ text. IfSome (I.remaining input.old) (λ bytes. deposit_line text.items ≡ deposit_line bytes)) }
{
    let mut text = Text::new();
    io::copy(&mut input.take(KEPT as u64), &mut text)?;
    Ok(text)
}

// Reads what is left of the input, as far as it can be read.
fn skip_rest(input: &mut impl Read) {
    let _ = io::copy(input, &mut io::sink());
}

fn print_line(rt: &impl Print, text: &[u8]) -> io::Result<()> {
    let mut out = [0u8; ROOM];
    let n = report::line(text, &mut out);
    rt.write_all(&out[..n])?;
    rt.write_all(b"\n")
}

// The answer for a text over the limit is known before the rest of it is read.
fn answer(rt: &impl Print, input: &mut impl Read, text: &Text) -> io::Result<()> {
    if text.is_full() {
        skip_rest(input);
    }
    print_line(rt, text.as_slice())
}

// Says on standard error what went wrong. Where that cannot be written either, the status alone tells it.
fn fail(rt: &impl Eprint, what: &str, error: io::Error) -> ExitCode {
    let _ = eprintln!(rt; "deposit: {what}: {error}");
    ExitCode::FAILURE
}

fn main(rt: HostRuntime) -> ExitCode {
    let mut input = rt.reader();
    let text = match read_text(&mut input) {
        Ok(text) => text,
        Err(e) => return fail(&rt, "standard input was not read to its end", e),
    };
    match answer(&rt, &mut input, &text) {
        Ok(()) => ExitCode::SUCCESS,
        Err(e) => fail(&rt, "standard output", e),
    }
}
