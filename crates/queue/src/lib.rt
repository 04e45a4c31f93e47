// The wait queue of the manager record: who goes before whom, entering and leaving it, and the clock tick. Every function is
// total.
#![tactic(auto)]

ghost use Rattle.std.specs.Prelude.{◌≡◌, eqb, cond, ltb, length};
ghost use Rattle.manager.specs.Lists.{index_of};
ghost use Rattle.manager.specs.Queue.{by_priority, goes_before, push, pull, enqueue, dequeue, first_of, waiting, aged, expired, leaving, after_tick};
ghost use Rattle.manager.specs.Record.{tasks, region_of};
ghost use Rattle.objects.specs.Slots.{below};
ghost use Rattle.reply.specs.Notices.{Notices};

use manager::{Manager, Notice, Order, Region, Status, Waiter};
use objects::{find, slot_of};
use reply::Noticed;

// Whether an order goes by priority; else all go by arrival.
fn by_priority(o: Order) -> bool
    ensures { result ≡ by_priority o }
{
    matches!(o, Order::Priority | Order::HalvesPriority)
}

// Whether a waiter w of a region of order o goes before x: x is an unused place, of a region in a later slot, or less urgent.
#[tactic(auto, unfolding(manager::specs::Queue::goes_before))]
pub fn goes_before(o: Order, w: Waiter, x: Waiter) -> bool
    ensures { result ≡ goes_before o w x }
{
    let mine = slot_of(w.region);
    let other = slot_of(x.region);
    x.task == 0 || mine < other || (mine == other && by_priority(o) && w.priority < x.priority)
}

// The order of the region of an id; that of an empty slot where no live region has it.
fn order_of(d: &Manager, id: u32) -> Order
    ensures { result ≡ (region_of d.now id).order }
{
    find::<Region>(d, id).map_or(Order::Fifo, |r| r.order)
}

// The place of the first that w goes before.
fn place_for(o: Order, w: Waiter, ws: &[Waiter; Manager::TASKS]) -> Option<usize>
    ensures { result ≡ below tasks (index_of (goes_before o w) ws.now) }
{
    ws.iter().position(|x| goes_before(o, w, *x))
}

// w in front of some places; each goes one place on, and the last falls off. Not by a turn of the slice, and so in `pull`: the library turns
// one by `memmove`, and the archive for C is to need `memcpy` and `memset` alone.
fn push(ws: &mut [Waiter], w: Waiter)
    ensures { ws.new ≡ push w ws.old }
{
    let mut carried = w;
    for x in ws.iter_mut() {
        std::mem::swap(x, &mut carried);
    }
}

// The first of some places taken out: those behind it go one place on, and the last place is unused.
fn pull(ws: &mut [Waiter])
    ensures { ws.new ≡ pull ws.old }
{
    for i in 1..ws.len() {
        ws[i - 1] = ws[i];
    }
    if let Some(last) = ws.last_mut() {
        *last = Waiter::default();
    }
}

// The record with w in the queue of its region.
pub fn enqueue(mut d: Manager, w: Waiter) -> Manager
    ensures { result ≡ enqueue d w }
{
    let o = order_of(&d, w.region);
    if let Some(at) = place_for(o, w, &d.waiters) {
        push(&mut d.waiters[at..], w);
    }
    d
}

// The record without the waiter at a place; as it was where there is no such place.
pub fn dequeue(mut d: Manager, i: usize) -> Manager
    ensures { result ≡ dequeue d i }
{
    if i < Manager::TASKS {
        pull(&mut d.waiters[i..]);
    }
    d
}

// The place of the first waiter of a region.
pub fn first_of(d: &Manager, id: u32) -> Option<usize>
    ensures { result ≡ below tasks (first_of id d.now.waiters) }
{
    d.waiters.iter().position(|x| x.task != 0 && x.region == id)
}

// Whether a task waits.
pub fn waiting(d: &Manager, task: u32) -> bool
    ensures { result ≡ waiting d.now task }
{
    d.waiters.iter().any(|x| x.task == task)
}

// Whether the next tick is the last of a waiter.
fn times_out(w: Waiter) -> bool
    ensures { result ≡ eqb w.ticks 1 }
{
    w.ticks == 1
}

// A waiter with a tick less; without a limit it has none to lose.
fn aged(w: Waiter) -> Waiter
    ensures { result ≡ aged w }
{
    Waiter {
        ticks: w.ticks.saturating_sub(1),
        ..w
    }
}

// What a waiter is told whose time ran out.
fn expired(w: Waiter) -> Notice
    ensures { result ≡ expired w }
{
    Notice {
        task: w.task,
        status: Status::Timeout,
        address: 0,
    }
}

// A tick passes: each waiter with ticks left loses one, and one that has none left then leaves with a notice, in the order of the queue.
pub fn after_tick(d: Manager) -> Noticed
    ensures { Notices (after_tick d) (leaving d.waiters) result }
{
    // No heap: the places of the array are counted, and those that stay unused are all zeros in the record. Two filtered loops without a
    // count were tried: a tick at which nobody leaves took 15 instructions in 100 more.
    let mut kept = [Waiter::default(); Manager::TASKS];
    let mut told = Noticed::nobody(d);
    let mut k: usize = 0;
    for x in &d.waiters {
        if times_out(*x) {
            told.tell(expired(*x));
        } else {
            kept[k] = aged(*x);
            k += 1;
        }
    }
    told.manager.waiters = kept;
    told
}
