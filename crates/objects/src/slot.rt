// What regions and partitions have in common: each is an object that is kept in a slot of the record.
ghost use Rattle.std.specs.Prelude.{◌≡◌, ℕ, List, length, refl, set};
ghost use Rattle.manager.specs.Record.{slots, has_id, unspent, emptied_region, emptied_partition, with_region, with_partition};
ghost use Rattle.manager.specs.Region.{area_of};
ghost use Rattle.manager.specs.declared.Area.{Area};
ghost use Rattle.manager.specs.declared.Manager.{Manager};

use crate::generation_of;
use manager::{Area, Manager, Partition, Region};

// An object, or an empty slot, which has name 0.
pub trait Slot: Copy {
    ghost name: { Self → ℕ };

    ghost generation: { Self → ℕ };

    ghost area: { Self → Area };

    // An empty slot of a generation.
    ghost emptied: { ℕ → Self };

    // The slots of this kind in a record, and the record with another object in a slot.
    ghost slots_of: { Manager → List Self };

    ghost with: { Manager → ℕ → Self → Manager };

    fn name(&self) -> u32
        ensures { result ≡ name self.now };

    fn generation(&self) -> u32
        ensures { result ≡ generation self.now };

    // The whole area that was asked for.
    fn area(&self) -> Area
        ensures { result ≡ area self.now };

    fn emptied(number: u32) -> Self
        ensures { result ≡ emptied number };

    fn slots(d: &Manager) -> &[Self]
        ensures these { result.now ≡ slots_of d.now }
        ensures all { length result.now ≡ slots };

    // The record with another object in a slot; as it was where there is no such slot.
    fn with(d: Manager, slot: usize, x: Self) -> Manager
        ensures { result ≡ with d slot x };

    // An empty slot has no name.
    ghost unnamed: { (g : ℕ) → name (emptied g) ≡ 0 };

    // Whether this is what an id names, if it is in that id's slot: it has a name, and the id's generation.
    final fn has_id(&self, id: u32) -> bool
        ensures { result ≡ has_id (name self.now) (generation self.now) id }
    {
        self.name() != 0 && self.generation() == generation_of(id)
    }

    // Whether create may take this slot: it is empty, and not spent.
    final fn is_unspent(&self) -> bool
        ensures { result ≡ unspent (name self.now) (generation self.now) }
    {
        self.name() == 0 && self.generation() < Manager::GENERATIONS
    }
}

// Another object in a slot; nothing where there is no such slot. This is `with` of each kind, which only names its array.
fn put<T: Copy>(all: &mut [T], slot: usize, x: T)
    ensures { all.new ≡ set all.old slot x }
{
    if slot < all.len() {
        all[slot] = x;
    }
}

impl Slot for Region {
    ghost name = { λ r. r.name };

    ghost generation = { λ r. r.generation };

    ghost area = { λ r. record { start = r.start; length = r.length } };

    ghost emptied = { emptied_region };

    ghost slots_of = { λ d. d.regions };

    ghost with = { with_region };

    ghost unnamed = { λ g. refl };

    fn name(&self) -> u32 {
        self.name
    }

    fn generation(&self) -> u32 {
        self.generation
    }

    fn area(&self) -> Area {
        let Region { start, length, .. } = *self;
        Area { start, length }
    }

    fn emptied(number: u32) -> Region {
        Region::emptied(number)
    }

    fn slots(d: &Manager) -> &[Region] {
        &d.regions
    }

    fn with(mut d: Manager, slot: usize, x: Region) -> Manager {
        put(&mut d.regions, slot, x);
        d
    }
}

impl Slot for Partition {
    ghost name = { λ p. p.name };

    ghost generation = { λ p. p.generation };

    ghost area = { area_of };

    ghost emptied = { emptied_partition };

    ghost slots_of = { λ d. d.partitions };

    ghost with = { with_partition };

    ghost unnamed = { λ g. refl };

    fn name(&self) -> u32 {
        self.name
    }

    fn generation(&self) -> u32 {
        self.generation
    }

    fn area(&self) -> Area {
        let Partition { start, length, .. } = *self;
        Area { start, length }
    }

    fn emptied(number: u32) -> Partition {
        Partition::emptied(number)
    }

    fn slots(d: &Manager) -> &[Partition] {
        &d.partitions
    }

    fn with(mut d: Manager, slot: usize, x: Partition) -> Manager {
        put(&mut d.partitions, slot, x);
        d
    }
}
