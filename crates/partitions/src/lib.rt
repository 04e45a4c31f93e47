// The directives on partitions: rules 12. Each answers 25 first, where the records are not sound. Every function
// is total: any record, memory and numbers have their answer.
#![tactic(auto)]

mod buffers;
mod create;

ghost use Rattle.std.specs.Prelude.{◌≡◌};
ghost use Rattle.manager.specs.Result.{Performs};
ghost use Rattle.manager.specs.Partitions.{create_partition, ident_partition, delete_partition, get_buffer, return_buffer};
ghost use Rattle.reply.specs.Outcomes.{concluded};

use manager::{Answer, Manager, Partition, Status};
use objects::Slot;
use reply::ensure;

// Makes a partition of the area, all its buffers free; the value is its id.
pub fn create_partition(
    mem: &mut [u32],
    mut d: Manager,
    name: u32,
    start: u32,
    length: u32,
    size: u32,
) -> Answer
    ensures { Performs (create_partition mem.old d name start length size) mem.new result }
{
    let done = create::create(mem, &mut d, name, start, length, size);
    reply::answer(d, done)
}

// The id of the partition with a name: no two have it. Ident: 3.
pub fn ident_partition(mem: &[u32], d: Manager, name: u32) -> Answer
    ensures { Performs (ident_partition mem.now d name) mem.now result }
{
    reply::answer(d, ident(mem, &d, name))
}

// Its checks. One function for regions and partitions would require what each proves here of its kind's generations, and be no shorter.
#[tactic(auto, unfolding(manager::specs::Partitions::ident_partition, manager::specs::Result::checked))]
fn ident(mem: &[u32], d: &Manager, name: u32) -> Result<u32, Status>
    ensures { ident_partition mem.now d.now name ≡ concluded mem.now d.now result }
{
    ensure(soundness::is_sound(mem, *d), Status::InternalError)?;
    ensure(name != 0, Status::InvalidName)?;
    let slot = objects::named::<Partition>(d, name).ok_or(Status::InvalidName)?;
    Ok(objects::id_at::<Partition>(d, slot))
}

// Deletes a partition whose buffers are all free; no word of the memory changes. Delete: 4, 12.
pub fn delete_partition(mem: &[u32], mut d: Manager, id: u32) -> Answer
    ensures { Performs (delete_partition mem.now d id) mem.now result }
{
    let done = delete(mem, &mut d, id);
    reply::answer(d, done)
}

#[tactic(auto, using(crate::proofs::Reading::reading), unfolding(manager::specs::Partitions::delete_partition, manager::specs::Result::checked))]
fn delete(mem: &[u32], d: &mut Manager, id: u32) -> Result<u32, Status>
    ensures { delete_partition mem.now d.old id ≡ concluded mem.now d.new result }
{
    ensure(soundness::is_sound(mem, *d), Status::InternalError)?;
    let p = objects::find::<Partition>(d, id).ok_or(Status::InvalidId)?;
    ensure(p.free == p.length / p.size, Status::ResourceInUse)?;
    *d = Partition::with(
        *d,
        objects::slot_of(id),
        Partition::emptied(p.generation + 1),
    );
    Ok(0)
}

// Hands out the buffer at the front of the chain; the value is its address. Get: 4, 13.
pub fn get_buffer(mem: &mut [u32], mut d: Manager, id: u32) -> Answer
    ensures { Performs (get_buffer mem.old d id) mem.new result }
{
    let done = buffers::get(mem, &mut d, id);
    reply::answer(d, done)
}

// Takes a buffer back, at the rear of the chain. Whether it is held is found from the chain. Return: 4, 9.
pub fn return_buffer(mem: &mut [u32], mut d: Manager, id: u32, address: u32) -> Answer
    ensures { Performs (return_buffer mem.old d id address) mem.new result }
{
    let done = buffers::give_back(mem, &mut d, id, address);
    reply::answer(d, done)
}
