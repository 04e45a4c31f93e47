// Reads the calls of a script by tables: nothing here names a directive.
#![tactic(auto)]

mod table;

ghost use Rattle.std.specs.Prelude.{◌≡◌, [], ◌≤◌, length, map, option_map, option_copied, eqb};
ghost use Rattle.std.specs.List.{find, starts_with};
ghost use Rattle.script.specs.Table.{calls};
ghost use Rattle.script.specs.Shown.{shown, key_shown};
ghost use Rattle.script.specs.Reading.{find_row, numbers_from, fields_of, read_call};

use manager::Call;
use table::{Key, Row, rows};
use text::field;

// A call that was read: whether its answer has six values, and where the next line starts.
#[derive(Clone, Copy)]
pub struct ReadCall {
    pub call: Call,
    pub six_values: bool,
    pub next: usize,
}

// Where the first bad or missing line starts.
#[derive(Clone, Copy, Debug, PartialEq, Eq)]
pub struct BadLine {
    pub at: usize,
}

// The first of the rows whose line the bytes start with.
fn find_row<'a>(rows: &'a [Row], bytes: &[u8]) -> Option<&'a Row>
    ensures { option_copied result ≡ find (λ r. starts_with eqb bytes.now r.line.now) rows.now }
{
    rows.iter().find(|row| bytes.starts_with(row.line))
}

// The numbers of the lines of the keys, from `at` on, put at the start of out; and where the next line starts.
// No heap: `out` has room for eight, since no call has more keys, and the first keys.len() of it are filled.
fn read_fields(src: &[u8], at: usize, keys: &[Key], out: &mut [u32; 8]) -> Result<usize, BadLine>
    requires { length keys.now ≤ 8 }
    ensures { fields_of result out.new (length keys.now) ≡ numbers_from src.now [] at (map key_shown keys.now) }
{
    let mut next = at;
    for (i, key) in keys.iter().enumerate() {
        let entry = field(src, next, key.text, key.most).ok_or(BadLine { at: next })?;
        out[i] = entry.value;
        next = entry.next;
    }
    Ok(next)
}

// The call at `at`, or none at the end.
// What may not change: the whole script is lent with a place in it, since places in it are what the theorems on `read_call` speak of.
pub fn read_call(src: &[u8], at: usize) -> Result<Option<ReadCall>, BadLine>
    ensures { result ≡ read_call src.now at }
{
    if src.len() <= at {
        return Ok(None);
    }
    let row = find_row(rows(), &src[at..]).ok_or(BadLine { at })?;
    let mut v = [0u32; 8];
    let next = read_fields(src, at + row.line.len(), row.keys, &mut v)?;
    Ok(Some(ReadCall {
        call: row.directive.call(&v),
        six_values: row.six_values,
        next,
    }))
}
