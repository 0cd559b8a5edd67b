// The field, tuple and list readers: one pass over the text into a buffer of the caller's that has room. A reader is lent the buffer from where its
// record begins. What a failed reading leaves in it is not told. A reader takes the text and a place in it, not what is left of it: refusals stand at
// places, and so do the definitions.
#![tactic(auto)]

ghost use Rattle.std.specs.Prelude.{◌≡◌, suc, ◌+◌, ◌^◌, ◌≤◌, ◌<◌, length};
ghost use Rattle.std.specs.Option.{option_map};
ghost use Rattle.model.specs.Mark.{mark_number};
ghost use Rattle.model.specs.KindText.{lookup};
ghost use Rattle.model.specs.Reading.{attributes, locations, marks_by};
ghost use Rattle.fields.specs.declared.Failed.TheVariants.{Bad};
ghost use Rattle.fields.specs.Words.{EndIs, WordIs, Looked, BehindIs, TakenIs, NamedIs};
ghost use Rattle.fields.specs.Scratch.{refusal_of, BracketIs, Room, Grows, located_by, leaf_of, Put, NamedRoom, NamedPut, field_of, tuple_of, list_of};

use layout::{FIELD_FRONT, HEAD, TUPLE};
use model::{Mark, Refusal, Refused, Sort};
use value::{Base, Suffix};

// The place behind the word that stands at a place, which is that place if none does.
pub fn word_end(s: &[u8], a: usize) -> usize
    requires { a ≤ length s.now }
    ensures { EndIs s.now a result }
{
    a + text::word(&s[a..])
}

// A word and the place behind it.
#[derive(Clone, Copy, Debug, PartialEq, Eq)]
pub struct Word<'a> {
    pub bytes: &'a [u8],
    pub next: usize,
}

// The word behind any blanks. Where none stands, it is empty, and the place is the one before the blanks.
#[tactic(auto, using(crate::proofs::Spots::nexts))]
pub fn next_word(s: &[u8], at: usize) -> Word<'_>
    requires { at ≤ length s.now }
    ensures { WordIs s.now at result.bytes.now result.next }
{
    let start = text::skip(s, at);
    let end = word_end(s, start);
    if start == end {
        return Word {
            bytes: &[],
            next: at,
        };
    }
    Word {
        bytes: &s[start..end],
        next: end,
    }
}

// What stands behind any blanks, and where; there is no byte at the end.
#[derive(Clone, Copy, Debug, PartialEq, Eq)]
pub struct Seen {
    pub at: usize,
    pub byte: Option<u8>,
}

impl Seen {
    // The place behind a character, if that was seen.
    #[tactic(auto, using(crate::proofs::Spots::behinds))]
    pub fn behind(self, c: u8) -> Option<usize>
        requires { self.at + 1 < 2 ^ 64 }
        ensures { BehindIs self c result }
    {
        match self.byte {
            Some(b) if b == c => Some(self.at + 1),
            _ => None,
        }
    }

    // `take`: the place behind a wanted character, or an error, which stands where it was looked for.
    #[tactic(auto, using(crate::proofs::Spots::takes))]
    pub fn take(self, c: u8, refusal: Refusal) -> Result<usize, Refused>
        requires { self.at + 1 < 2 ^ 64 }
        ensures { TakenIs self c refusal result }
    {
        match self.byte {
            Some(_) => self.behind(c).ok_or(Refused {
                refusal,
                position: self.at,
            }),
            None => Err(Refused {
                refusal: Refusal::Eos,
                position: self.at,
            }),
        }
    }
}

pub fn look(s: &[u8], at: usize) -> Seen
    requires { at ≤ length s.now }
    ensures { Looked s.now at result }
{
    let place = text::skip(s, at);
    Seen {
        at: place,
        byte: text::peek(s, place),
    }
}

// The mark that a word stands for in a list of a sort. Data locations are looked for only at kinds that admit them.
fn mark_of(word: &[u8], sort: Sort, located: bool) -> Option<Mark>
    ensures { option_map mark_number result ≡ lookup (marks_by sort located) word.now }
{
    match sort {
        Sort::Parameter if located => location(word),
        Sort::Event => attribute(word),
        Sort::Plain | Sort::Parameter => None,
    }
}

// The mark that a data location stands for: "2 calldata, 3 memory".
fn location(word: &[u8]) -> Option<Mark>
    ensures { option_map mark_number result ≡ lookup locations word.now }
{
    match word {
        b"calldata" => Some(Mark::Calldata),
        b"memory" => Some(Mark::Memory),
        _ => None,
    }
}

// "In an event's own list the mark is `indexed`."
fn attribute(word: &[u8]) -> Option<Mark>
    ensures { option_map mark_number result ≡ lookup attributes word.now }
{
    match word {
        b"indexed" => Some(Mark::Indexed),
        _ => None,
    }
}

// What stands behind a kind: a mark and a name, both optional, and the place behind them.
#[derive(Clone, Copy, Debug, PartialEq, Eq)]
pub struct Named<'a> {
    pub mark: Mark,
    pub name: &'a [u8],
    pub next: usize,
}

#[tactic(auto, using(crate::proofs::Spots::names))]
fn mark_name(s: &[u8], at: usize, sort: Sort, located: bool) -> Named<'_>
    requires { at ≤ length s.now }
    ensures { NamedIs s.now at sort located result.mark result.name.now result.next }
{
    let first = next_word(s, at);
    match mark_of(first.bytes, sort, located) {
        Some(mark) => {
            let second = next_word(s, first.next);
            Named {
                mark,
                name: second.bytes,
                next: second.next,
            }
        }
        None => Named {
            mark: Mark::Unmarked,
            name: first.bytes,
            next: first.next,
        },
    }
}

// What was read: the place behind it, and how many bytes its record takes.
#[derive(Clone, Copy, Debug, PartialEq, Eq)]
pub struct Got {
    pub next: usize,
    pub len: usize,
}

// Why a reading fails and where; or where one tuple too many opens: two errors, since a list passes over the first.
#[derive(Clone, Copy, Debug, PartialEq, Eq)]
pub enum Failed {
    Bad(Refused),
    Deep { at: usize },
}

impl From<Refused> for Failed {
    ghost from_gives = { λ r f. f ≡ Bad r };

    fn from(refused: Refused) -> Failed {
        Failed::Bad(refused)
    }
}

impl From<Failed> for Refused {
    ghost from_gives = { λ f r. r ≡ refusal_of f };

    fn from(failed: Failed) -> Refused {
        match failed {
            Failed::Bad(refused) => refused,
            Failed::Deep { at } => Refused {
                refusal: Refusal::TooDeep,
                position: at,
            },
        }
    }
}

// What a reading answers.
pub type Read = Result<Got, Failed>;

// A tuple's suffix, and the place behind it.
#[derive(Clone, Copy, Debug, PartialEq, Eq)]
pub struct Bracket {
    pub suffix: Suffix,
    pub next: usize,
}

// `array_suffix`: `[`, digits at once or none, `]`.
fn array_suffix(s: &[u8], at: usize) -> Option<Bracket>
    requires { at ≤ length s.now }
    ensures { BracketIs s.now at result }
{
    let from = look(s, at).behind(b'[')?;
    let to = from + text::digits(&s[from..]);
    let next = look(s, to).behind(b']')?;
    let suffix = Suffix::inside(&s[from..to])?;
    Some(Bracket { suffix, next })
}

// A tuple's suffixes, written one behind the other: a loop, since what is no suffix ends it.
#[tactic(auto, using(crate::proofs::Growing::growing))]
fn suffixes(s: &[u8], at: usize, out: &mut [u8]) -> Got
    requires { Room 0 0 s.now at out.old }
    ensures { Grows s.now at out.new result }
{
    let mut next = at;
    let mut len = 0;
    while let Some(bracket) = array_suffix(s, next) {
        bracket.suffix.write(out, len);
        len += bracket.suffix.record_length();
        next = bracket.next;
    }
    Got { next, len }
}

// Whether a data location may stand behind an elementary kind with suffixes whose records take len bytes: "at arrays, tuples, `bytes` and
// `string`".
#[tactic(auto, using(std::proofs::lemmas::Bool::Decides::nat_tests), unfolding(crate::specs::Scratch::located_by))]
fn is_located(base: Base, len: usize) -> bool
    ensures { result ≡ located_by base len }
{
    0 < len || matches!(base, Base::Bytes | Base::String)
}

// The field of a list of a sort whose elementary kind begins at `at`, written in order.
fn leaf(s: &[u8], at: usize, sort: Sort, out: &mut [u8]) -> Read
    requires { Room 0 0 s.now at out.old }
    ensures { Put 0 s.now at out.new (leaf_of sort s.now at) result }
{
    let end = at + text::run(&s[at..]);
    // A `match`: `map_err` has no rule for a result that lends.
    let run = match value::from_str(&s[at..end]) {
        Ok(run) => run,
        Err(refusal) => {
            return Err(Failed::Bad(Refused {
                refusal,
                position: at,
            }));
        }
    };
    let named = mark_name(s, end, sort, is_located(run.base, run.len));
    run.write_field(usize::from(named.mark), named.name, out);
    Ok(Got {
        next: named.next,
        len: run.field_length(named.name),
    })
}

// The mark and the name at `at`, put in before the record of a tuple and its suffixes, of len bytes, that stands behind room for a field's front.
fn name_tuple(s: &[u8], at: usize, sort: Sort, out: &mut [u8], len: usize) -> Got
    requires { NamedRoom s.now at len out.old }
    ensures { NamedPut s.now at sort len out.old out.new result }
{
    let named = mark_name(s, at, sort, true);
    let m = named.name.len();
    layout::insert(out, FIELD_FRONT, FIELD_FRONT + len, named.name);
    layout::front(out, 0, usize::from(named.mark), m, len);
    Got {
        next: named.next,
        len: FIELD_FRONT + m + len,
    }
}

// A field of a list of a sort, in which d tuples may open.
#[cycle(field_list_tuple)]
pub fn field(s: &[u8], at: usize, sort: Sort, d: usize, out: &mut [u8]) -> Read
    requires { Room 0 d s.now at out.old }
    ensures { Put 0 s.now at out.new (field_of sort d s.now at) result }
{
    let seen = look(s, at);
    if seen.byte != Some(b'(') {
        return leaf(s, seen.at, sort, out);
    }
    if d == 0 {
        return Err(Failed::Deep { at: seen.at });
    }
    let kind = tuple(s, seen.at, d - 1, &mut out[FIELD_FRONT..])?;
    Ok(name_tuple(s, kind.next, sort, out, kind.len))
}

// A tuple kind from its `(`, with its suffixes, where d more tuples may open.
#[cycle(field_list_tuple)]
fn tuple(s: &[u8], at: usize, d: usize, out: &mut [u8]) -> Read
    requires { Room 4 d s.now at out.old × (at < length s.now) }
    ensures { Put 14 s.now at out.new (tuple_of (suc d) s.now at) result }
{
    let fields = list(s, at + 1, Sort::Plain, d, &mut out[HEAD..])?;
    let end = HEAD + fields.len;
    layout::header(out, 0, end, TUPLE as u16);
    let behind = suffixes(s, fields.next, &mut out[end..]);
    Ok(Got {
        next: behind.next,
        len: end + behind.len,
    })
}

// The fields of a list of a sort behind its `(`, up to its `)`, where d tuples may open. Where a field fails, the list closes behind the field
// before it: a loop with three ends.
#[cycle(field_list_tuple)]
pub fn list(s: &[u8], at: usize, sort: Sort, d: usize, out: &mut [u8]) -> Read
    requires { Room 0 d s.now at out.old }
    ensures { Put 10 s.now at out.new (list_of sort d s.now at) result }
{
    let mut from = at;
    let mut end = at;
    let mut len = 0;
    loop {
        match field(s, from, sort, d, &mut out[len..]) {
            Ok(got) => {
                end = got.next;
                len += got.len;
                let seen = look(s, end);
                let Some(behind) = seen.behind(b',') else {
                    let next = seen.take(b')', Refusal::ExpectClose)?;
                    return Ok(Got { next, len });
                };
                from = behind;
            }
            Err(Failed::Bad(_)) => {
                let next = look(s, end).take(b')', Refusal::ExpectClose)?;
                return Ok(Got { next, len });
            }
            Err(Failed::Deep { at }) => return Err(Failed::Deep { at }),
        }
    }
}
