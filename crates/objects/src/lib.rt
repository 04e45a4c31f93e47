// Finding objects and areas in the manager record. Every function is total but `id_at`, which asks for a slot that there is and whose id fits,
// and nothing but the record is read.
#![tactic(auto)]

mod areas;
mod found;
mod slot;

ghost use Rattle.std.specs.Prelude.{◌≡◌, ◌*◌, ◌+◌, ltb};
ghost use Rattle.manager.specs.Record.{slot_of, generation_of, id_of};

pub use areas::{apart, overlaps};
pub use found::{find, id_at, named, names_differ, unspent};
pub use slot::Slot;

// An id is slot + 16 x generation: its low part is the slot's number, from 1 on. Nothing but the three functions below knows this.
const NUMBERS: u32 = 16;

// The place of an id's slot in its array: one below the slot's number, and past the end for number 0.
#[tactic(auto, unfolding(manager::specs::Record::slot_of))]
pub fn slot_of(id: u32) -> usize
    ensures { result ≡ slot_of id }
{
    ((id % NUMBERS + (NUMBERS - 1)) % NUMBERS) as usize
}

// The generation of an id.
#[tactic(auto, unfolding(manager::specs::Record::generation_of))]
fn generation_of(id: u32) -> u32
    ensures { result ≡ generation_of id }
{
    id / NUMBERS
}

// The id of what is in a slot of a generation.
#[tactic(auto, unfolding(manager::specs::Record::id_of))]
pub fn id_of(slot: u32, generation: u32) -> u64
    ensures { result ≡ id_of slot generation }
{
    slot as u64 + 1 + NUMBERS as u64 * generation as u64
}

// Whether an area ends past a memory of so many words: in words, so that no number of words is too large.
pub fn past_memory(words: usize, start: u32, bytes: u32) -> bool
    ensures { result ≡ ltb (4 * words) (start + bytes) }
{
    let end = start as u64 + bytes as u64;
    (words as u64) < (end + 3) / 4
}
