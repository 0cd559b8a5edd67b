// A strip of film taken apart: how long the line, or the signature, is that the rest of a strip begins with.
#![tactic(auto)]

ghost use Rattle.std.specs.Prelude.{◌≡◌, ◌≤◌, ◌<◌, length};
ghost use Rattle.strip.specs.Strip.{open_after, closing, brackets, next_line, outputs, next_signature};

// How many brackets are open behind a byte.
fn open_after(c: u8, depth: usize) -> usize
    requires { (0 < depth) × (depth < 18446744073709551615) }
    ensures { result ≡ open_after c depth }
{
    match c {
        b'(' => depth + 1,
        b')' => depth - 1,
        _ => depth,
    }
}

// How many bytes there are, where one bracket is open, up to the `)` that closes it, and with it.
#[tactic(auto, using(crate::proofs::Scanning::taking))]
fn closing(t: &[u8]) -> Option<usize>
    ensures { result ≡ closing 1 t.now }
{
    let mut depth = 1;
    for (i, &c) in t.iter().enumerate() {
        depth = open_after(c, depth);
        if depth == 0 {
            return Some(i + 1);
        }
    }
    None
}

// A `(` and everything up to the `)` that closes it.
#[tactic(auto, using(crate::proofs::Scanning::inside))]
fn brackets(t: &[u8]) -> Option<usize>
    ensures { result ≡ brackets t.now }
{
    let [b'(', rest @ ..] = t else {
        return None;
    };
    Some(1 + closing(rest)?)
}

// The line that a strip begins with: a word, and brackets directly behind it.
#[tactic(auto, using(crate::proofs::Scanning::inside, crate::proofs::Scanning::first))]
pub fn next_line(strip: &[u8]) -> Option<usize>
    ensures { result ≡ next_line strip.now }
{
    let n = text::word(strip);
    if n == 0 {
        return None;
    }
    Some(n + brackets(&strip[n..])?)
}

// A `:`, and brackets directly behind it. Not one function with `brackets`: each hands the rest to another.
#[tactic(auto, using(crate::proofs::Scanning::inside))]
fn outputs(t: &[u8]) -> Option<usize>
    ensures { result ≡ outputs t.now }
{
    let [b':', rest @ ..] = t else {
        return None;
    };
    Some(1 + brackets(rest)?)
}

// The signature that a strip begins with: a line, a `:`, and brackets directly behind it.
#[tactic(auto, using(crate::proofs::Scanning::inside, crate::proofs::Scanning::first))]
pub fn next_signature(strip: &[u8]) -> Option<usize>
    ensures { result ≡ next_signature strip.now }
{
    let n = next_line(strip)?;
    Some(n + outputs(&strip[n..])?)
}
