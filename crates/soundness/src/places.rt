// The wait queue: each place holds a sound waiter or is unused and all zeros, no task waits twice, and the waiters stand in the order in
// which they are served. One walk makes all three checks, and only over the used places: behind an unused place all are unused.
ghost use Rattle.std.specs.Prelude.{◌≡◌, ◌&&◌};
ghost use Rattle.manager.specs.Lists.{every};
ghost use Rattle.manager.specs.Record.{has_id};
ghost use Rattle.manager.specs.Region.{layout_of, any_held};
ghost use Rattle.manager.specs.Sound.{empty_waiter, sound_queue};
ghost use Rattle.soundness.specs.Waiters.{facts_of, kept_or, front_waiter, sound_alignment, sound_request, sound_in, queue_of};

use arith::Layout;
use manager::{Manager, Region, Waiter};
use objects::Slot;

// Tasks are numbered from 1 to this.
const LAST_TASK: u32 = Manager::TASKS as u32;

// What the check of a waiter asks of what is in its region's slot, worked out once for the waiters that stand together: where its pages
// lie, and whether it is the region, live with something held.
#[derive(Clone, Copy)]
struct Facts {
    id: u32,
    region: Region,
    layout: Layout,
    held: bool,
}

impl Facts {
    // The facts of an id, by what is in its slot.
    fn of(mem: &[u32], id: u32, region: Region) -> Facts
        ensures { result ≡ facts_of mem.now id region }
    {
        let layout = map::layout_of(region);
        Facts {
            id,
            region,
            layout,
            held: region.has_id(id) && map::any_held(map::map_words(mem, layout)),
        }
    }

    // The facts of an id: those kept where they are of the same one, else by what is in its slot.
    fn kept_or_of(kept: Option<Facts>, mem: &[u32], id: u32, region: Region) -> Facts
        ensures { result ≡ kept_or kept id (facts_of mem.now id region) }
    {
        match kept {
            Some(f) if f.id == id => f,
            _ => Facts::of(mem, id, region),
        }
    }

    // Whether a waiter asks for an alignment that the region allows, on which that could serve it with nothing held.
    fn allows_alignment(self, w: Waiter) -> bool
        ensures { result ≡ sound_alignment self w }
    {
        let r = self.region;
        map::aligns(r.order, w.alignment)
            && map::is_alignment(r.page, w.alignment)
            && map::servable(r.order, self.layout, map::need_of(r, w.size, w.alignment))
    }

    // Whether a waiter asks for a size from 1 that the region can hold, with a priority from 1 to 255.
    fn allows_request(self, w: Waiter) -> bool
        ensures { result ≡ sound_request self w }
    {
        1 <= w.size && self.allows_alignment(w) && 1 <= w.priority && w.priority <= 255
    }

    // Whether a waiter of the region is sound: a task of 1 to 16, and the region is live with something held.
    fn allows(self, w: Waiter) -> bool
        ensures { result ≡ sound_in self w }
    {
        w.task <= LAST_TASK && self.held && self.allows_request(w)
    }
}

// A waiter in front of every other: of id 1, whose slot is the first, and more urgent than any. Id 0 would stand behind all: it has no slot.
// With an `Option` in its place each step of the walk would have one more case.
fn in_front() -> Waiter
    ensures { result ≡ front_waiter }
{
    Waiter {
        task: 1,
        region: 1,
        ..Waiter::default()
    }
}

// Whether some places are unused and all zeros.
fn unused(ws: &[Waiter]) -> bool
    ensures { result ≡ every empty_waiter ws.now }
{
    ws.iter().all(|w| *w == Waiter::default())
}

// Whether the queue is sound. `seen` has the tasks met so far; the waiter before the first one stands in front of every other.
pub(crate) fn sound_queue(
    mem: &[u32],
    regions: &[Region; Manager::SLOTS],
    ws: &[Waiter; Manager::TASKS],
) -> bool
    ensures { result ≡ sound_queue mem.now (queue_of regions.now ws.now) }
{
    let mut kept: Option<Facts> = None;
    let mut before = in_front();
    let mut seen = [false; Manager::TASKS + 1];
    for (i, w) in ws.iter().enumerate() {
        if w.task == 0 {
            return unused(&ws[i..]);
        }
        // An id whose number is no slot's has no region.
        let Some(&region) = regions.get(objects::slot_of(w.region)) else {
            return false;
        };
        let facts = Facts::kept_or_of(kept, mem, w.region, region);
        if !facts.allows(*w) {
            return false;
        }
        let task = w.task as usize;
        if seen[task] {
            return false;
        }
        seen[task] = true;
        if queue::goes_before(region.order, *w, before) {
            return false;
        }
        before = *w;
        kept = Some(facts);
    }
    true
}
