// The manager record as words that a caller keeps, and back.
#![tactic(auto)]

mod parts;
mod words;

ghost use Rattle.std.specs.Prelude.{◌≡◌};
ghost use Rattle.packing.specs.Packing.{packed, unpacked};

use manager::Manager;
pub use words::{FromWords, ToWords, read_all, write_all};

// How many words a part of the record has, and of an answer.
pub const REGION_WORDS: usize = 6;

pub const PARTITION_WORDS: usize = 8;

pub const WAITER_WORDS: usize = 6;

pub const NOTICE_WORDS: usize = 3;

pub const INFORMATION_WORDS: usize = 6;

// How many words all regions have, all partitions, and the record.
const REGIONS: usize = REGION_WORDS * Manager::SLOTS;

const PARTITIONS: usize = PARTITION_WORDS * Manager::SLOTS;

pub const RECORD_WORDS: usize = REGIONS + PARTITIONS + WAITER_WORDS * Manager::TASKS;

// The record that the words say; none where their number is wrong or an order is none.
pub fn unpack(words: &[u32]) -> Option<Manager>
    ensures { result ≡ unpacked words.now }
{
    if words.len() != RECORD_WORDS {
        return None;
    }
    let (regions, rest) = words.split_at(REGIONS);
    let (partitions, waiters) = rest.split_at(PARTITIONS);
    let mut manager = Manager::new();
    read_all(regions, &mut manager.regions)?;
    read_all(partitions, &mut manager.partitions)?;
    read_all(waiters, &mut manager.waiters)?;
    Some(manager)
}

// Puts a record into its words; nothing where their number is wrong.
pub fn pack(d: Manager, words: &mut [u32])
    ensures { words.new ≡ packed d words.old }
{
    if words.len() != RECORD_WORDS {
        return;
    }
    let (regions, rest) = words.split_at_mut(REGIONS);
    let (partitions, waiters) = rest.split_at_mut(PARTITIONS);
    write_all(&d.regions, regions);
    write_all(&d.partitions, partitions);
    write_all(&d.waiters, waiters);
}
