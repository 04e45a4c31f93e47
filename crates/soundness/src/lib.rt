// The check of all records: whether the manager record and the memory's words are as rules 10 have them. It ends on
// any input, however damaged, and changes nothing.
#![tactic(auto)]

mod chains;
mod places;
mod slots;

ghost use Rattle.std.specs.Prelude.{◌≡◌};
ghost use Rattle.manager.specs.Sound.{sound, sound_length};

use manager::Manager;

// Whether the memory has a length that is allowed: 1 to 16,384 words.
fn sound_length(mem: &[u32]) -> bool
    ensures { result ≡ sound_length mem.now }
{
    1 <= mem.len() && mem.len() <= 16384
}

// Whether the records are sound.
#[tactic(auto, unfolding(manager::specs::Sound::sound, manager::specs::Sound::sound_region, manager::specs::Sound::sound_partition, manager::specs::Sound::sound_queue, manager::specs::Sound::sound_place, manager::specs::Sound::sound_waiter))]
pub fn is_sound(mem: &[u32], d: Manager) -> bool
    ensures { result ≡ sound mem.now d }
{
    sound_length(mem)
        && slots::sound_slots(mem, &d.regions)
        && slots::sound_slots(mem, &d.partitions)
        && objects::names_differ(&d)
        && objects::apart(&d)
        && places::sound_queue(mem, &d.regions, &d.waiters)
}
