// The directives on the segments of a region, and the clock tick: rules 11.4 to 11.7 and 11.9. Each answers 25 first, where the records are
// not sound, and then makes its checks in their order. Every public function is total: any record, memory and numbers have their answer.
#![tactic(auto)]

mod checks;
mod halves;
mod kinds;
mod lending;
mod pages;
mod serving;
mod site;

ghost use Rattle.std.specs.Prelude.{◌≡◌};
ghost use Rattle.manager.specs.Result.{Performs};
ghost use Rattle.manager.specs.Regions.{get_segment, return_segment, segment_size, resize_segment, tick};
ghost use Rattle.reply.specs.Notices.{Padded};
ghost use Rattle.reply.specs.Outcomes.{concluded, finished};
ghost use Rattle.segments.specs.Serving.{Fresh};

use manager::{Answer, Manager, Region, Status, Wait, Waiter};
use reply::{Noticed, Refusal, ensure};
use site::Site;

// Get: size 0 (8), 4, an alignment by halves 11, any other that is not allowed 8, what the region with nothing held could not serve 8; if
// waiting is allowed 10, 19, 14; then the search. The value is the segment's address.
pub fn get_segment(
    mem: &mut [u32],
    mut d: Manager,
    id: u32,
    size: u32,
    alignment: u32,
    wait: Wait,
    task: u32,
    priority: u32,
    ticks: u32,
) -> Answer
    ensures { Performs (get_segment mem.old d id size alignment wait task priority ticks) mem.new result }
{
    let w = Waiter {
        task,
        region: id,
        size,
        alignment,
        priority,
        ticks,
    };
    let done = get(mem, &mut d, w, wait);
    reply::answer(d, done)
}

// What w asks for. Where there is no room, and w may wait, the record has it waiting: that, too, is no success.
#[tactic(auto, unfolding(manager::specs::Regions::get_segment, manager::specs::Result::checked, crate::specs::Verdicts::verdict_of))]
fn get(mem: &mut [u32], d: &mut Manager, w: Waiter, wait: Wait) -> Result<u32, Status>
    ensures { get_segment mem.old d.old w.region w.size w.alignment wait w.task w.priority w.ticks ≡ concluded mem.new d.new result }
{
    ensure(soundness::is_sound(mem, *d), Status::InternalError)?;
    ensure(w.size != 0, Status::InvalidSize)?;
    let r = objects::find::<Region>(d, w.region).ok_or(Status::InvalidId)?;
    let n = map::need_of(r, w.size, w.alignment);
    let s = Site::of(r);
    checks::may_ask(s, n, w.alignment)?;
    checks::may_wait(d, wait, w.task, w.priority)?;
    if let Some(p) = lending::take_pages(mem, s, n) {
        return Ok(serving::address_of(r, p));
    }
    match wait {
        Wait::No => Err(Status::Unsatisfied),
        Wait::Yes => {
            *d = queue::enqueue(*d, w);
            Err(Status::Waiting)
        }
    }
}

// Return: 4, 9. The segment is freed and the region's queue served; the notices say who got what.
pub fn return_segment(mem: &mut [u32], d: Manager, id: u32, address: u32) -> Answer
    ensures { Performs (return_segment mem.old d id address) mem.new result }
{
    let mut told = Noticed::nobody(d);
    let done = give_back(mem, &mut told, id, address);
    told.answer(done)
}

#[tactic(auto, unfolding(manager::specs::Regions::return_segment, manager::specs::Result::checked))]
fn give_back(mem: &mut [u32], told: &mut Noticed, id: u32, address: u32) -> Result<u32, Refusal>
    requires { Fresh told.old }
    ensures left { return_segment mem.old told.old.manager id address ≡ finished mem.new told.new result }
    ensures padded { Padded told.new }
{
    ensure(
        soundness::is_sound(mem, told.manager),
        Status::InternalError,
    )?;
    let h = checks::held_at(mem, &told.manager, id, address)?;
    lending::release_pages(mem, h.site, address);
    serving::serve(mem, told, id, h.site);
    Ok(0)
}

// Size: 4, 9. The value is the length of the held segment; no word of the memory changes.
pub fn segment_size(mem: &[u32], d: Manager, id: u32, address: u32) -> Answer
    ensures { Performs (segment_size mem.now d id address) mem.now result }
{
    reply::answer(d, measure(mem, &d, id, address))
}

#[tactic(auto, unfolding(manager::specs::Regions::segment_size, manager::specs::Result::checked))]
fn measure(mem: &[u32], d: &Manager, id: u32, address: u32) -> Result<u32, Status>
    ensures { segment_size mem.now d.now id address ≡ concluded mem.now d.now result }
{
    ensure(soundness::is_sound(mem, *d), Status::InternalError)?;
    let h = checks::held_at(mem, d, id, address)?;
    Ok(h.pages * h.site.region.page)
}

// Resize: size 0 (8), 4, 9, 13. The segment has its new size and the region's queue is served, also where the page count stays; the
// notices say who got what. The value is the old length, with 13 too.
pub fn resize_segment(mem: &mut [u32], d: Manager, id: u32, address: u32, size: u32) -> Answer
    ensures { Performs (resize_segment mem.old d id address size) mem.new result }
{
    let mut told = Noticed::nobody(d);
    let done = resize(mem, &mut told, id, address, size);
    told.answer(done)
}

#[tactic(auto, unfolding(manager::specs::Regions::resize_segment, manager::specs::Result::checked))]
fn resize(
    mem: &mut [u32],
    told: &mut Noticed,
    id: u32,
    address: u32,
    size: u32,
) -> Result<u32, Refusal>
    requires { Fresh told.old }
    ensures left { resize_segment mem.old told.old.manager id address size ≡ finished mem.new told.new result }
    ensures padded { Padded told.new }
{
    ensure(
        soundness::is_sound(mem, told.manager),
        Status::InternalError,
    )?;
    ensure(size != 0, Status::InvalidSize)?;
    let h = checks::held_at(mem, &told.manager, id, address)?;
    let value = h.pages * h.site.region.page;
    let k = map::pages_asked(h.site.region, size);
    if !lending::can_have(mem, h.site, address, k) {
        let status = Status::Unsatisfied;
        return Err(Refusal { status, value });
    }
    lending::resize_pages(mem, h.site, address, k);
    serving::serve(mem, told, id, h.site);
    Ok(value)
}

// Tick: each waiter with ticks left loses one; at 0 it leaves with status 6. No check of its own. Where anyone left, the queue of every
// region is served, the lowest slot first, and these notices come behind those of all who left.
pub fn tick(mem: &mut [u32], d: Manager) -> Answer
    ensures { Performs (tick mem.old d) mem.new result }
{
    let mut told = Noticed::nobody(d);
    let done = pass(mem, &mut told);
    told.answer(done)
}

#[tactic(auto, unfolding(manager::specs::Regions::tick, manager::specs::Result::checked))]
fn pass(mem: &mut [u32], told: &mut Noticed) -> Result<u32, Refusal>
    requires { Fresh told.old }
    ensures left { tick mem.old told.old.manager ≡ finished mem.new told.new result }
    ensures padded { Padded told.new }
{
    ensure(
        soundness::is_sound(mem, told.manager),
        Status::InternalError,
    )?;
    *told = queue::after_tick(told.manager);
    if told.count != 0 {
        serving::serve_all(mem, told);
    }
    Ok(0)
}
