// Reading and writing a held segment.
#![tactic(auto)]

ghost use Rattle.std.specs.Prelude.{◌≡◌, ◌*◌, ◌/◌, ◌≤◌, length, IfOk};
ghost use Rattle.std.proofs.lemmas.List.Edits.{sets};
ghost use Rattle.manager.specs.Result.{Performs};
ghost use Rattle.manager.specs.Access.{read_segment, write_segment};
ghost use Rattle.access.specs.Held.{held_words};
ghost use Rattle.reply.specs.Outcomes.{concluded};

use manager::{Answer, Manager, Region, Status};
use reply::ensure;
use std::ops::Range;

// The words of the held segment at an address, as a part of the memory; an empty part where the records, the id or the address are
// refused.
#[tactic(auto, unfolding(manager::specs::Access::read_segment))]
pub fn read_segment<'a>(mem: &'a [u32], d: Manager, id: u32, address: u32) -> &'a [u32]
    ensures { result.now ≡ read_segment mem.now d id address }
{
    match held_words(mem, &d, id, address) {
        Ok(words) => &mem[words],
        Err(_) => &mem[..0],
    }
}

// Where the words of the held segment at an address stand: 25, 4, 9.
#[tactic(auto, using(crate::proofs::Laws::held_is))]
fn held_words(mem: &[u32], d: &Manager, id: u32, address: u32) -> Result<Range<usize>, Status>
    ensures told { result ≡ held_words mem.now d.now id address }
    ensures within { IfOk result (λ w. (w.start ≤ w.end) × (w.end ≤ length mem.now)) }
{
    ensure(soundness::is_sound(mem, *d), Status::InternalError)?;
    let r = objects::find::<Region>(d, id).ok_or(Status::InvalidId)?;
    let l = map::layout_of(r);
    let pages = map::held_word_at(mem, l, r.page, address).ok_or(Status::InvalidAddress)?;
    let from = (address / 4) as usize;
    Ok(from..from + words_of(pages, r.page))
}

// The words of so many pages.
fn words_of(pages: u32, page: u32) -> usize
    ensures { result ≡ pages * page / 4 }
{
    (pages as u64 * page as u64 / 4) as usize
}

// Copies words into the held segment at an address, from its word `first` on.
pub fn write_segment(
    mem: &mut [u32],
    d: Manager,
    id: u32,
    address: u32,
    first: u32,
    words: &[u32],
) -> Answer
    ensures { Performs (write_segment mem.old d id address first words.now) mem.new result }
{
    let done = write(mem, &d, id, address, first, words);
    reply::answer(d, done)
}

// Copies words to the first ones of others, as far as there are any. Word by word: the library's `copy_from_slice` moves by `memmove`, and
// the archive for C is to need `memcpy` and `memset` alone.
pub fn copy(words: &mut [u32], from: &[u32])
    ensures { words.new ≡ sets words.old 0 from.now }
{
    let n = words.len().min(from.len());
    for k in 0..n {
        words[k] = from[k];
    }
}

// Its checks: 25, 4, 9, and 8 for words that would end past the segment's end.
#[tactic(auto, using(crate::proofs::Laws::stored), unfolding(manager::specs::Access::write_segment, manager::specs::Result::checked))]
fn write(
    mem: &mut [u32],
    d: &Manager,
    id: u32,
    address: u32,
    first: u32,
    words: &[u32],
) -> Result<u32, Status>
    ensures { write_segment mem.old d.now id address first words.now ≡ concluded mem.new d.now result }
{
    let held = held_words(mem, d, id, address)?;
    let from = held.start + first as usize;
    let to = from + words.len();
    ensure(to <= held.end, Status::InvalidSize)?;
    copy(&mut mem[from..to], words);
    Ok(0)
}
