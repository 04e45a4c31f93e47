// Making a partition: its record, the chain of all its buffers, and the checks ahead of both.
ghost use Rattle.std.specs.Prelude.{◌≡◌, ◌+◌, ◌≤◌, ◌<◌};
ghost use Rattle.manager.specs.Partition.{buffers, link_all};
ghost use Rattle.manager.specs.Partitions.{new_partition, create_partition};
ghost use Rattle.reply.specs.Outcomes.{concluded};

use manager::{Area, Manager, Partition, Status};
use objects::Slot;
use reply::ensure;

// All buffers, chained by address.
fn link_all(mem: &mut [u32], p: Partition)
    requires { (0 < p.size) × (p.start + p.length < 4294967296) }
    ensures { mem.new ≡ link_all (buffers p) mem.old p 0 }
{
    let count = p.length / p.size;
    for k in 0..count {
        let at = p.start + k * p.size;
        let next = if k + 1 < count { at + p.size } else { 0 };
        let before = if k > 0 { at - p.size } else { 0 };
        chain::set_links(mem, at, next, before);
    }
}

// The new partition: every buffer is free.
fn new_partition(generation: u32, name: u32, start: u32, length: u32, size: u32) -> Partition
    requires { (0 < size) × (size ≤ length) × (start + length < 4294967296) }
    ensures { result ≡ new_partition generation name start length size }
{
    let count = length / size;
    Partition {
        name,
        generation,
        start,
        length,
        size,
        front: start,
        rear: start + (count - 1) * size,
        free: count,
    }
}

// Create: 3, a name that a live partition has 3, start 9, alignment 9, past memory 9, sizes 8, overlap 9, 5. Then the chain, and the partition
// in its slot.
#[tactic(auto, unfolding(manager::specs::Partitions::create_partition, manager::specs::Result::checked))]
pub(crate) fn create(
    mem: &mut [u32],
    d: &mut Manager,
    name: u32,
    start: u32,
    length: u32,
    size: u32,
) -> Result<u32, Status>
    ensures { create_partition mem.old d.old name start length size ≡ concluded mem.new d.new result }
{
    ensure(soundness::is_sound(mem, *d), Status::InternalError)?;
    ensure(name != 0, Status::InvalidName)?;
    let taken = objects::named::<Partition>(d, name);
    ensure(taken.is_none(), Status::InvalidName)?;
    ensure(start != 0, Status::InvalidAddress)?;
    ensure(start % 4 == 0, Status::InvalidAddress)?;
    let past = objects::past_memory(mem.len(), start, length);
    ensure(!past, Status::InvalidAddress)?;
    ensure((8..=length).contains(&size), Status::InvalidSize)?;
    ensure(size % 4 == 0, Status::InvalidSize)?;
    let meets = objects::overlaps(d, Area { start, length });
    ensure(!meets, Status::InvalidAddress)?;
    let vacant = objects::unspent::<Partition>(d);
    let slot = vacant.ok_or(Status::TooMany)?;
    let p = new_partition(d.partitions[slot].generation, name, start, length, size);
    link_all(mem, p);
    let id = objects::id_at::<Partition>(d, slot);
    *d = Partition::with(*d, slot, p);
    Ok(id)
}
