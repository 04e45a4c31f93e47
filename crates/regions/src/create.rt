// Create: the checks in their order, then the record and the map of the new region.
ghost use Rattle.std.specs.Prelude.{◌≡◌, [], ◌≤◌, length};
ghost use Rattle.manager.specs.Map.{draw};
ghost use Rattle.manager.specs.Paged.{free+};
ghost use Rattle.manager.specs.Region.{layout_of, opened};
ghost use Rattle.manager.specs.Regions.{new_region, create_region};
ghost use Rattle.manager.specs.Sound.{Laid};
ghost use Rattle.reply.specs.Outcomes.{concluded};

use arith::Layout;
use manager::{Area, Manager, Order, Region, Status};
use objects::Slot;
use reply::ensure;

// The record of a new region, before it has a slot: its page size is rounded up to a multiple of 8.
fn new_region(name: u32, start: u32, length: u32, page: u32, order: Order) -> Region
    requires { page ≤ 4096 }
    ensures { result ≡ new_region 0 name start length page order }
{
    let rounded = arith::round_up(page, 8);
    Region {
        name,
        generation: 0,
        start,
        length,
        page: rounded as u32,
        order,
    }
}

// The words of a map with one free segment.
fn clear(map: &mut [u32])
    requires { (1 ≤ length map.old) × (length map.old ≤ 16384) }
    ensures { map.new ≡ draw (free+ (length map.old) []) }
{
    map.fill(0);
    map[0] = map.len() as u32 * 2;
}

// Draws the map of a new region: one free segment.
fn clear_map(mem: &mut [u32], r: Region, l: Layout)
    requires { (Laid mem.old r) × (l ≡ layout_of r) }
    ensures { mem.new ≡ opened mem.old r }
{
    let at = l.map;
    let end = at + l.pages as usize;
    clear(&mut mem[at..end]);
}

// Create: 3, a name that a live region has 3, start 9, past memory 9, page 8; then area 8, overlap 9, 5. The region enters a slot, and its map
// is drawn.
#[tactic(auto, unfolding(manager::specs::Regions::create_region, manager::specs::Result::checked))]
pub(crate) fn create(
    mem: &mut [u32],
    d: &mut Manager,
    name: u32,
    start: u32,
    length: u32,
    page: u32,
    order: Order,
) -> Result<u32, Status>
    ensures { create_region mem.old d.old name start length page order ≡ concluded mem.new d.new result }
{
    ensure(soundness::is_sound(mem, *d), Status::InternalError)?;
    ensure(name != 0, Status::InvalidName)?;
    let taken = objects::named::<Region>(d, name);
    ensure(taken.is_none(), Status::InvalidName)?;
    ensure(start != 0, Status::InvalidAddress)?;
    let past = objects::past_memory(mem.len(), start, length);
    ensure(!past, Status::InvalidAddress)?;
    ensure((1..=4096).contains(&page), Status::InvalidSize)?;
    let mut r = new_region(name, start, length, page, order);
    let l = map::layout_of(r);
    ensure(l.pages != 0, Status::InvalidSize)?;
    let meets = objects::overlaps(d, Area { start, length });
    ensure(!meets, Status::InvalidAddress)?;
    let slot = objects::unspent::<Region>(d).ok_or(Status::TooMany)?;
    r.generation = d.regions[slot].generation;
    clear_map(mem, r, l);
    let id = objects::id_at::<Region>(d, slot);
    *d = Region::with(*d, slot, r);
    Ok(id)
}
