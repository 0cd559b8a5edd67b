// A declaration, read part by part into scratch: the keyword, the name, the inputs, the words behind them, the outputs and the end. As in fields, a
// reader is lent the buffer from where its record begins, and takes the text and a place in it.
#![tactic(auto)]

ghost use Rattle.std.specs.Prelude.{◌≡◌, ◌≤◌, ◌<◌, length};
ghost use Rattle.kinds.specs.Bytes.{ascii};
ghost use Rattle.model.specs.KindText.{lookup};
ghost use Rattle.model.specs.Parser.{on_ans, keyword, end};
ghost use Rattle.model.specs.Reading.{keywords, opening_of, wanted, keyword_text, mutabilities, exec, parser_of};
ghost use Rattle.model.specs.Record.{encode};
ghost use Rattle.text.specs.Found.{byte_or_end};
ghost use Rattle.fields.specs.Scratch.{Room};
ghost use Rattle.layout.specs.Buffer.{put};
ghost use Rattle.parser.specs.Stages.{Did, Took, sort_of, words_of, absent, OptionIs, is_visibility, begins_modifier, ModifierIs, VisibleIs, StatedIs, name_of, outputs_of, ident_of, list_in, returns_of, front_length, code_of, front_of, PartsAre, body_of, Whole};

use fields::{Failed, Got, Read, Word};
use layout::{CONSTRUCTOR, ERROR, EVENT, FUNCTION, HEAD, LIST, NAME, NUMBERED};
use model::{Call, Keyword, Refusal, Refused, Sort};

// "one of the four keywords"
#[tactic(auto, unfolding(model::specs::Reading::keyword_text))]
pub fn keyword_text(k: Keyword) -> &'static [u8]
    ensures same { result.now ≡ keyword_text k }
    ensures short { length result.now ≤ 11 }
{
    match k {
        Keyword::Function => b"function",
        Keyword::Constructor => b"constructor",
        Keyword::Event => b"event",
        Keyword::Error => b"error",
    }
}

// The keyword that a text starts with, unskipped. Not a loop over the four, since the text is compared with constants so.
#[tactic(auto, unfolding(model::specs::Reading::keyword_text))]
fn opening(text: &[u8]) -> Option<Keyword>
    ensures { result ≡ opening_of keywords text.now }
{
    if text::begins(b"function", text) {
        Some(Keyword::Function)
    } else if text::begins(b"constructor", text) {
        Some(Keyword::Constructor)
    } else if text::begins(b"event", text) {
        Some(Keyword::Event)
    } else if text::begins(b"error", text) {
        Some(Keyword::Error)
    } else {
        None
    }
}

// The keyword that a call wants: "the general call wants the one it saw".
#[tactic(auto, unfolding(model::specs::Reading::wanted))]
pub fn wanted(call: Call, text: &[u8]) -> Option<Keyword>
    ensures { result ≡ wanted call text.now }
{
    match call {
        Call::General => opening(text),
        Call::Function => Some(Keyword::Function),
        Call::Constructor => Some(Keyword::Constructor),
        Call::Event => Some(Keyword::Event),
        Call::Error => Some(Keyword::Error),
    }
}

// `keyword`, at the beginning of the text: the place behind it.
fn keyword(s: &[u8], k: Keyword) -> Result<usize, Refused>
    ensures { Took s.now 5 (keyword (keyword_text k) s.now 0) result }
{
    let word = fields::next_word(s, 0);
    if text::equal(keyword_text(k), word.bytes) {
        return Ok(word.next);
    }
    Err(Refusal::ExpectKeyword.into())
}

// `ident`, with its record.
fn ident(s: &[u8], at: usize, out: &mut [u8]) -> Read
    requires { Room 0 32 s.now at out.old }
    ensures { Did 0 s.now at out.new (ident_of s.now at) result }
{
    let word = fields::next_word(s, at);
    if word.bytes.is_empty() {
        return Err(Failed::Bad(Refused {
            refusal: Refusal::ExpectIdentifier,
            position: at,
        }));
    }
    let len = HEAD + word.bytes.len();
    layout::header(out, 0, len, NAME as u16);
    layout::copy(out, HEAD, word.bytes);
    Ok(Got {
        next: word.next,
        len,
    })
}

// How many tuples may be open at once: "32 nested tuples read".
const DEEPEST: usize = 32;

// `fields`: a list from its `(`, with its record.
fn field_list(s: &[u8], at: usize, sort: Sort, out: &mut [u8]) -> Read
    requires { Room 0 32 s.now at out.old }
    ensures { Did 0 s.now at out.new (list_in sort s.now at) result }
{
    let from = fields::look(s, at).take(b'(', Refusal::ExpectOpen)?;
    let list = fields::list(s, from, sort, DEEPEST, &mut out[HEAD..])?;
    let len = HEAD + list.len;
    layout::header(out, 0, len, LIST as u16);
    Ok(Got {
        next: list.next,
        len,
    })
}

// `returns`: its list, or the record of an empty one.
fn returns(s: &[u8], at: usize, out: &mut [u8]) -> Read
    requires { Room 0 33 s.now at out.old }
    ensures { Did 6 s.now at out.new (returns_of s.now at) result }
{
    let word = fields::next_word(s, at);
    if text::equal(b"returns", word.bytes) {
        return field_list(s, word.next, Sort::Parameter, out);
    }
    layout::header(out, 0, HEAD, LIST as u16);
    Ok(Got {
        next: at,
        len: HEAD,
    })
}

// `end`: at most one `;`, then blanks only.
fn end(s: &[u8], at: usize) -> Result<usize, Refused>
    requires { at ≤ length s.now }
    ensures { Took s.now at (end s.now at) result }
{
    let first = fields::look(s, at);
    let last = match first.behind(b';') {
        Some(next) => fields::look(s, next),
        None => first,
    };
    if last.byte.is_some() {
        return Err(Refused {
            refusal: Refusal::ExpectEnd,
            position: last.at,
        });
    }
    Ok(last.at)
}

// The sort of the inputs.
#[tactic(auto, unfolding(crate::specs::Stages::sort_of))]
fn sort_of(k: Keyword) -> Sort
    ensures { result ≡ sort_of k }
{
    match k {
        Keyword::Function | Keyword::Constructor => Sort::Parameter,
        Keyword::Event => Sort::Event,
        Keyword::Error => Sort::Plain,
    }
}

// What may be stated behind the inputs, by the numbers that stand in a record: a function's or a constructor's mutability, and whether an event
// is anonymous. Numbers, since nothing is asked of one but to be written.
const PURE: usize = 0;

const VIEW: usize = 1;

const NOT_STATED: usize = 2;

const PAYABLE: usize = 3;

const NAMED: usize = 0;

const ANONYMOUS: usize = 1;

// The number that a word behind a function's inputs stands for.
fn mutability(word: &[u8]) -> Option<usize>
    ensures { result ≡ lookup mutabilities word.now }
{
    match word {
        b"pure" => Some(PURE),
        b"view" => Some(VIEW),
        b"payable" => Some(PAYABLE),
        _ => None,
    }
}

// The same by the keyword.
#[tactic(auto, unfolding(crate::specs::Stages::words_of))]
fn stated_by(k: Keyword, word: &[u8]) -> Option<usize>
    ensures { result ≡ lookup (words_of k) word.now }
{
    match k {
        Keyword::Function => mutability(word),
        Keyword::Constructor => text::equal(b"payable", word).then_some(PAYABLE),
        Keyword::Event => text::equal(b"anonymous", word).then_some(ANONYMOUS),
        Keyword::Error => None,
    }
}

// And the one that stands for no word.
#[tactic(auto, unfolding(crate::specs::Stages::absent))]
fn absent(k: Keyword) -> usize
    ensures { result ≡ absent k }
{
    match k {
        Keyword::Function | Keyword::Constructor => NOT_STATED,
        Keyword::Event | Keyword::Error => NAMED,
    }
}

// What is stated behind the inputs, and the place behind it.
#[derive(Clone, Copy, Debug, PartialEq, Eq)]
pub struct Stated {
    pub number: usize,
    pub next: usize,
}

fn option(s: &[u8], at: usize, k: Keyword) -> Stated
    requires { at ≤ length s.now }
    ensures { OptionIs s.now at k result }
{
    let word = fields::next_word(s, at);
    match stated_by(k, word.bytes) {
        Some(number) => Stated {
            number,
            next: word.next,
        },
        None => Stated {
            number: absent(k),
            next: at,
        },
    }
}

#[tactic(auto, unfolding(crate::specs::Stages::is_visibility))]
fn is_visibility(word: &[u8]) -> bool
    ensures { result ≡ is_visibility word.now }
{
    matches!(word, b"external" | b"public")
}

// Whether a byte is the first of a visibility word or a mutability word.
#[tactic(auto, unfolding(text::specs::Found::byte_or_end))]
fn begins_modifier(byte: Option<u8>) -> bool
    ensures { result ≡ begins_modifier (byte_or_end byte) }
{
    matches!(byte, Some(b'e' | b'p' | b'v'))
}

// The word behind any blanks, if it may be a visibility word or a mutability word: most other words are told by their first byte. It is read from
// that byte on, so that the blanks are passed over once.
fn modifier(s: &[u8], at: usize) -> Option<Word<'_>>
    requires { at ≤ length s.now }
    ensures { ModifierIs s.now at result }
{
    let seen = fields::look(s, at);
    if begins_modifier(seen.byte) {
        return Some(fields::next_word(s, seen.at));
    }
    None
}

// `visibility`: the place behind the word, and `at` where none stands. Nothing else is kept of it.
fn visibility(s: &[u8], at: usize) -> usize
    requires { at ≤ length s.now }
    ensures { VisibleIs s.now at result }
{
    match modifier(s, at) {
        Some(word) if is_visibility(word.bytes) => word.next,
        _ => at,
    }
}

// `modifiers`: a visibility word and a mutability word, in either order.
fn modifiers(s: &[u8], at: usize) -> Stated
    requires { at ≤ length s.now }
    ensures { StatedIs s.now at Keyword.Function result }
{
    let none = Stated {
        number: NOT_STATED,
        next: at,
    };
    let Some(word) = modifier(s, at) else {
        return none;
    };
    if is_visibility(word.bytes) {
        return option(s, word.next, Keyword::Function);
    }
    match mutability(word.bytes) {
        Some(number) => Stated {
            number,
            next: visibility(s, word.next),
        },
        None => none,
    }
}

// What stands behind the inputs, before the outputs.
fn words(s: &[u8], at: usize, k: Keyword) -> Stated
    requires { at ≤ length s.now }
    ensures { StatedIs s.now at k result }
{
    match k {
        Keyword::Function => modifiers(s, at),
        Keyword::Constructor | Keyword::Event | Keyword::Error => option(s, at, k),
    }
}

// The name, which a constructor has not.
fn name(s: &[u8], at: usize, k: Keyword, out: &mut [u8]) -> Read
    requires { Room 0 32 s.now at out.old }
    ensures { Did 0 s.now at out.new (name_of k s.now at) result }
{
    match k {
        Keyword::Constructor => Ok(Got { next: at, len: 0 }),
        Keyword::Function | Keyword::Event | Keyword::Error => ident(s, at, out),
    }
}

// The outputs, which only a function has.
fn outputs(s: &[u8], at: usize, k: Keyword, out: &mut [u8]) -> Read
    requires { Room 0 33 s.now at out.old }
    ensures { Did 6 s.now at out.new (outputs_of k s.now at) result }
{
    match k {
        Keyword::Function => returns(s, at, out),
        Keyword::Constructor | Keyword::Event | Keyword::Error => Ok(Got { next: at, len: 0 }),
    }
}

// How long the front of a record is: its head and, but for an error, a number.
#[tactic(auto, unfolding(crate::specs::Stages::front_length))]
fn front_length(k: Keyword) -> usize
    ensures { (result ≡ front_length k) × (result ≤ 8) }
{
    match k {
        Keyword::Function | Keyword::Constructor | Keyword::Event => NUMBERED,
        Keyword::Error => HEAD,
    }
}

// The kind of record: not by `From`, since neither type is this crate's.
#[tactic(auto, unfolding(crate::specs::Stages::code_of))]
fn code(k: Keyword) -> usize
    ensures { (result ≡ code_of k) × (result < 256) }
{
    match k {
        Keyword::Function => FUNCTION,
        Keyword::Constructor => CONSTRUCTOR,
        Keyword::Event => EVENT,
        Keyword::Error => ERROR,
    }
}

// The front of a record of n bytes, with the number m.
fn front(out: &mut [u8], k: Keyword, n: usize, m: usize)
    requires { 8 ≤ length out.old }
    ensures { out.new ≡ put 0 (front_of k n m) out.old }
{
    layout::header(out, 0, n, code(k) as u16);
    if k != Keyword::Error {
        layout::put2(out, HEAD, m);
    }
}

// What stands between the keyword and the end: the number that is stated, and how many bytes the records of the rest take.
#[derive(Clone, Copy, Debug, PartialEq, Eq)]
pub struct Written {
    pub number: usize,
    pub next: usize,
    pub len: usize,
}

// The name, the inputs, the words behind them and the outputs.
fn parts(s: &[u8], at: usize, k: Keyword, out: &mut [u8]) -> Result<Written, Failed>
    requires { Room 0 35 s.now at out.old }
    ensures { PartsAre s.now at k out.new result }
{
    let name = name(s, at, k, out)?;
    let inputs = field_list(s, name.next, sort_of(k), &mut out[name.len..])?;
    let stated = words(s, inputs.next, k);
    let len = name.len + inputs.len;
    let outputs = outputs(s, stated.next, k, &mut out[len..])?;
    Ok(Written {
        number: stated.number,
        next: outputs.next,
        len: len + outputs.len,
    })
}

// What follows the keyword. The front is written last, since the length stands in it.
fn body(s: &[u8], at: usize, k: Keyword, out: &mut [u8]) -> Read
    requires { Room 0 36 s.now at out.old }
    ensures { Whole out.new (body_of k s.now at) result }
{
    let from = front_length(k);
    let parts = parts(s, at, k, &mut out[from..])?;
    let next = end(s, parts.next)?;
    let len = from + parts.len;
    front(out, k, len, parts.number);
    Ok(Got { next, len })
}

// A whole text, whose keyword is k.
pub fn exec(s: &[u8], k: Keyword, out: &mut [u8]) -> Read
    requires { Room 0 32 s.now 0 out.old }
    ensures { Whole out.new (on_ans (encode 4) (exec (parser_of k) s.now)) result }
{
    let at = keyword(s, k)?;
    body(s, at, k, out)
}
