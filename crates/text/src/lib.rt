// Reads the lines of a script: a number, a line's end, a key, a line of a key and a number.
#![tactic(auto)]

ghost use Rattle.std.specs.Prelude.{◌≡◌, ◌==◌, take, position};
ghost use Rattle.text.specs.Lines.{number_of, line_at, starts, field_at};

// A line of a key and a number: the number, and where the next line starts.
#[derive(Clone, Copy, Debug, PartialEq, Eq)]
pub struct Entry {
    pub value: u32,
    pub next: usize,
}

// The number that the bytes spell.
fn number(text: &[u8]) -> Option<u32>
    ensures { result ≡ number_of text.now }
{
    if text.is_empty() {
        return None;
    }
    if let [b'0', _, ..] = text {
        return None;
    }
    let mut n: u32 = 0;
    for b in text {
        if !b.is_ascii_digit() {
            return None;
        }
        n = n.checked_mul(10)?.checked_add(u32::from(*b - b'0'))?;
    }
    Some(n)
}

// The first newline among the first 64 bytes.
fn newline(rest: &[u8]) -> Option<usize>
    ensures { result ≡ position (λ b. b == 10) (take 64 rest.now) }
{
    rest.iter().take(64).position(|b| *b == b'\n')
}

// Where the line that starts at `at` ends, the place of its newline: it has at most 64 bytes with it.
fn line_end(src: &[u8], at: usize) -> Option<usize>
    ensures { result ≡ line_at src.now at }
{
    let n = newline(src.get(at..)?)?;
    Some(at + n)
}

// Whether the text starts with the key.
#[tactic(auto, using(crate::proofs::Laws::starting))]
fn starts_with(text: &[u8], key: &[u8]) -> bool
    ensures { result ≡ starts key.now text.now }
{
    text.starts_with(key)
}

// The line at `at`, which is the key and a number of at most `most`.
// What may not change: the whole script is lent with a place in it, since places in it are what `field_at` and its theorems speak of.
pub fn field(src: &[u8], at: usize, key: &[u8], most: u32) -> Option<Entry>
    ensures { result ≡ field_at src.now at key.now most }
{
    let e = line_end(src, at)?;
    if !starts_with(&src[at..e], key) {
        return None;
    }
    let value = number(&src[at + key.len()..e])?;
    if most < value {
        return None;
    }
    Some(Entry { value, next: e + 1 })
}
