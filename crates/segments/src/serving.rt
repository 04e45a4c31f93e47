// Serving the queue of a region, and of all regions. What is asked of the record and its notices speaks of the memory too, which is lent:
// it stands in the clauses, and no type can keep it.
ghost use Rattle.std.specs.Prelude.{◌≡◌, ◌≤◌, ◌<◌};
ghost use Rattle.manager.specs.Record.{slots, region_of};
ghost use Rattle.manager.specs.Region.{address_of};
ghost use Rattle.manager.specs.Serve.{serve, serve_slot, serve_all};
ghost use Rattle.manager.specs.Sound.{Sited, Sites};
ghost use Rattle.segments.specs.Serving.{Asking, Ready, Serves, Turns};

use crate::lending;
use crate::site::Site;
use manager::{Manager, Notice, Region, Status};
use reply::Noticed;

// The address of page p of the region.
pub(crate) fn address_of(r: Region, p: usize) -> u32
    requires { address_of r p ≤ 65536 }
    ensures { result ≡ address_of r p }
{
    (p as u64 * r.page as u64) as u32
}

// The first waiter of the region is tried: where there is room, its place in the queue, and its notice.
fn try_first(mem: &mut [u32], d: &Manager, id: u32, s: Site) -> Option<(usize, Notice)>
    requires { (Sited mem.old s.region) × (s.region ≡ region_of d.now id) × (Asking d.now) }
    ensures { Turns mem.old d.now id s.region mem.new result }
{
    let i = queue::first_of(d, id)?;
    let w = d.waiters[i];
    let n = map::need_of(s.region, w.size, w.alignment);
    let p = lending::take_pages(mem, s, n)?;
    let notice = Notice {
        task: w.task,
        status: Status::Successful,
        address: address_of(s.region, p),
    };
    Some((i, notice))
}

// While the first waiter of the region finds room, it leaves the queue with its segment. Behind the notices so far there are places for all
// who wait.
pub(crate) fn serve(mem: &mut [u32], told: &mut Noticed, id: u32, s: Site)
    requires { (Sited mem.old s.region) × (s.region ≡ region_of told.old.manager id) × (Ready told.old) }
    ensures { (Serves told.old (serve mem.old told.old.manager id) mem.new told.new) × (Sited mem.new s.region) }
{
    while let Some((i, notice)) = try_first(mem, &told.manager, id, s) {
        told.manager = queue::dequeue(told.manager, i);
        told.tell(notice);
    }
}

// The queue of the region in a slot; an empty slot, which the record's form tells by name 0, has none.
fn serve_slot(mem: &mut [u32], told: &mut Noticed, i: usize)
    requires { (Sites mem.old told.old.manager) × (Ready told.old) × (i < slots) }
    ensures { (Serves told.old (serve_slot mem.old told.old.manager i) mem.new told.new) × (Sites mem.new told.new.manager) }
{
    let r = told.manager.regions[i];
    if r.name == 0 {
        return;
    }
    let id = objects::id_at::<Region>(&told.manager, i);
    serve(mem, told, id, Site::of(r));
}

// The queues of all regions, one after the other: the lowest slot first.
pub(crate) fn serve_all(mem: &mut [u32], told: &mut Noticed)
    requires { (Sites mem.old told.old.manager) × (Ready told.old) }
    ensures { Serves told.old (serve_all mem.old told.old.manager) mem.new told.new }
{
    for i in 0..Manager::SLOTS {
        serve_slot(mem, told, i);
    }
}
