// The directives on whole regions: rules 11. Each answers 25 first, where the records are not sound. Every function
// here is total: any record, memory and numbers have their answer.
#![tactic(auto)]

mod create;
mod tally;

ghost use Rattle.std.specs.Prelude.{◌≡◌};
ghost use Rattle.manager.specs.Result.{Performs};
ghost use Rattle.manager.specs.Regions.{create_region, ident_region, delete_region, region_information};
ghost use Rattle.regions.specs.Told.{told};
ghost use Rattle.reply.specs.Outcomes.{concluded};

use manager::{Answer, Information, Manager, Order, Region, Status};
use objects::Slot;
use reply::ensure;

// Makes a region of the area, all its pages free; the value is its id.
pub fn create_region(
    mem: &mut [u32],
    mut d: Manager,
    name: u32,
    start: u32,
    length: u32,
    page: u32,
    order: Order,
) -> Answer
    ensures { Performs (create_region mem.old d name start length page order) mem.new result }
{
    let done = create::create(mem, &mut d, name, start, length, page, order);
    reply::answer(d, done)
}

// The id of the region with a name: no two have it. Ident: 3.
pub fn ident_region(mem: &[u32], d: Manager, name: u32) -> Answer
    ensures { Performs (ident_region mem.now d name) mem.now result }
{
    reply::answer(d, ident(mem, &d, name))
}

// Its checks. One function for regions and partitions would require what each proves here of its kind's generations, and be no shorter.
#[tactic(auto, unfolding(manager::specs::Regions::ident_region, manager::specs::Result::checked))]
fn ident(mem: &[u32], d: &Manager, name: u32) -> Result<u32, Status>
    ensures { ident_region mem.now d.now name ≡ concluded mem.now d.now result }
{
    ensure(soundness::is_sound(mem, *d), Status::InternalError)?;
    ensure(name != 0, Status::InvalidName)?;
    let slot = objects::named::<Region>(d, name).ok_or(Status::InvalidName)?;
    Ok(objects::id_at::<Region>(d, slot))
}

// Deletes a region of which nothing is held; no word of the memory changes. Delete: 4, 12.
pub fn delete_region(mem: &[u32], mut d: Manager, id: u32) -> Answer
    ensures { Performs (delete_region mem.now d id) mem.now result }
{
    let done = delete(mem, &mut d, id);
    reply::answer(d, done)
}

#[tactic(auto, using(crate::proofs::Reading::reading), unfolding(manager::specs::Regions::delete_region, manager::specs::Result::checked))]
fn delete(mem: &[u32], d: &mut Manager, id: u32) -> Result<u32, Status>
    ensures { delete_region mem.now d.old id ≡ concluded mem.now d.new result }
{
    ensure(soundness::is_sound(mem, *d), Status::InternalError)?;
    let r = objects::find::<Region>(d, id).ok_or(Status::InvalidId)?;
    ensure(map::one_free(mem, map::layout_of(r)), Status::ResourceInUse)?;
    *d = Region::with(*d, objects::slot_of(id), Region::emptied(r.generation + 1));
    Ok(0)
}

// Count, largest and total bytes of the free segments and of the held ones. Information: 4.
pub fn region_information(mem: &[u32], d: Manager, id: u32) -> Answer
    ensures { Performs (region_information mem.now d id) mem.now result }
{
    let done = information(mem, &d, id);
    let mut a = reply::answer(d, done.map(|_| 0));
    if let Ok(told) = done {
        a.information = told;
    }
    a
}

#[tactic(auto, using(crate::proofs::Reading::reading), unfolding(manager::specs::Regions::region_information, manager::specs::Result::checked))]
fn information(mem: &[u32], d: &Manager, id: u32) -> Result<Information, Status>
    ensures { region_information mem.now d.now id ≡ told mem.now d.now result }
{
    ensure(soundness::is_sound(mem, *d), Status::InternalError)?;
    let r = objects::find::<Region>(d, id).ok_or(Status::InvalidId)?;
    let words = map::map_words(mem, map::layout_of(r));
    Ok(tally::of_map(words, r.page))
}
