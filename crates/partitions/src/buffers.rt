// Getting and returning buffers.
ghost use Rattle.std.specs.Prelude.{◌≡◌, ◌+◌, ◌<◌};
ghost use Rattle.manager.specs.Partition.{gotten, returned};
ghost use Rattle.manager.specs.Partitions.{get_buffer, return_buffer};
ghost use Rattle.reply.specs.Outcomes.{concluded};

use manager::{Manager, Partition, Status};
use objects::Slot;
use reply::ensure;

// The partition without its front buffer; with no buffer left, both kept ends are 0.
fn gotten(mem: &[u32], p: Partition) -> Partition
    requires { 0 < p.free }
    ensures { result ≡ gotten mem.now p }
{
    let next = chain::next_of(mem, p.front);
    Partition {
        front: next,
        rear: if next == 0 { 0 } else { p.rear },
        free: p.free - 1,
        ..p
    }
}

// The partition with a buffer at its rear.
fn returned(p: Partition, a: u32) -> Partition
    requires { p.free + 1 < 4294967296 }
    ensures { result ≡ returned p a }
{
    Partition {
        front: if p.free == 0 { a } else { p.front },
        rear: a,
        free: p.free + 1,
        ..p
    }
}

// Get: 4, 13. The front goes out.
#[tactic(auto, using(crate::proofs::Reading::reading), unfolding(manager::specs::Partitions::get_buffer, manager::specs::Result::checked))]
pub(crate) fn get(mem: &mut [u32], d: &mut Manager, id: u32) -> Result<u32, Status>
    ensures { get_buffer mem.old d.old id ≡ concluded mem.new d.new result }
{
    ensure(soundness::is_sound(mem, *d), Status::InternalError)?;
    let p = objects::find::<Partition>(d, id).ok_or(Status::InvalidId)?;
    ensure(p.free != 0, Status::Unsatisfied)?;
    let q = gotten(mem, p);
    chain::after_get(mem, p);
    *d = Partition::with(*d, objects::slot_of(id), q);
    Ok(p.front)
}

// Return: 4, 9, and 9 again for a buffer that is free already.
#[tactic(auto, using(crate::proofs::Reading::reading), unfolding(manager::specs::Partitions::return_buffer, manager::specs::Result::checked))]
pub(crate) fn give_back(
    mem: &mut [u32],
    d: &mut Manager,
    id: u32,
    address: u32,
) -> Result<u32, Status>
    ensures { return_buffer mem.old d.old id address ≡ concluded mem.new d.new result }
{
    ensure(soundness::is_sound(mem, *d), Status::InternalError)?;
    let p = objects::find::<Partition>(d, id).ok_or(Status::InvalidId)?;
    ensure(chain::is_buffer(p, address), Status::InvalidAddress)?;
    ensure(!chain::is_free(mem, p, address), Status::InvalidAddress)?;
    let q = returned(p, address);
    chain::after_return(mem, p, address);
    *d = Partition::with(*d, objects::slot_of(id), q);
    Ok(0)
}
