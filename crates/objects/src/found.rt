// What is found in the slots of a kind, T, of the record that is lent, d.
ghost use Rattle.std.specs.Prelude.{◌≡◌, ◌<◌, ◌≤◌, ◌&&◌, eqb, get_or, length, not};
ghost use Rattle.manager.specs.Record.{slots, generations, unspent, object_of, id_of};
ghost use Rattle.manager.specs.Lists.{any, index_of, pairwise};
ghost use Rattle.manager.specs.Sound.{other_name, sound_names};
ghost use Rattle.objects.specs.Slots.{live, below};

use crate::slot::Slot;
use crate::{id_of, slot_of};
use manager::{Manager, Partition, Region};

// The live object of an id.
pub fn find<T: Slot>(d: &Manager, id: u32) -> Option<T>
    ensures { result ≡ live T.name (object_of T.name T.generation (T.emptied 0) (T.slots_of d.now) id) }
{
    let x = *T::slots(d).get(slot_of(id))?;
    x.has_id(id).then_some(x)
}

// The place of the first of some objects with a name.
fn first_named<T: Slot>(all: &[T], name: u32) -> Option<usize>
    ensures { result ≡ below (length all.now) (index_of (λ x. eqb (T.name x) name) all.now) }
{
    all.iter().position(|x| x.name() == name)
}

// The slot of the first object with a name.
#[tactic(auto, using(crate::proofs::Slots::found_below))]
pub fn named<T: Slot>(d: &Manager, name: u32) -> Option<usize>
    ensures { result ≡ below slots (index_of (λ x. eqb (T.name x) name) (T.slots_of d.now)) }
{
    first_named(T::slots(d), name)
}

// The lowest slot that a new object may take.
pub fn unspent<T: Slot>(d: &Manager) -> Option<usize>
    ensures { result ≡ below slots (index_of (λ x. unspent (T.name x) (T.generation x)) (T.slots_of d.now)) }
{
    T::slots(d).iter().position(|x| x.is_unspent())
}

// The id of what is in a slot. It fits.
pub fn id_at<T: Slot>(d: &Manager, slot: usize) -> u32
    requires within { slot < slots }
    requires generation { T.generation (get_or (T.slots_of d.now) slot (T.emptied 0)) ≤ generations }
    ensures { result ≡ id_of slot (T.generation (get_or (T.slots_of d.now) slot (T.emptied 0))) }
{
    id_of(slot as u32, T::slots(d)[slot].generation()) as u32
}

// Whether one of some objects has a name.
fn has_name<T: Slot>(all: &[T], name: u32) -> bool
    ensures { result ≡ any (λ x. eqb name (T.name x)) all.now }
{
    all.iter().any(|x| name == x.name())
}

// Whether a name is that of an object, and one of others has it too.
fn shares_name<T: Slot>(name: u32, others: &[T]) -> bool
    ensures { result ≡ (not (eqb name 0) && any (λ x. eqb name (T.name x)) others.now) }
{
    name != 0 && has_name(others, name)
}

// Whether no object of a kind has the name of one behind it.
// Slot by slot, where `disjoint` goes over a slice: so an edit can take another kind's slots, and nothing else (`names_across_kinds`).
// One function for both, over a closure, was tried: a caller cannot name its test there, so the proof did not close.
fn differ<T: Slot>(d: &Manager) -> bool
    ensures { result ≡ pairwise (other_name T.name) (T.slots_of d.now) }
{
    for (i, x) in T::slots(d).iter().enumerate() {
        if shares_name(x.name(), &T::slots(d)[i + 1..]) {
            return false;
        }
    }
    true
}

// Whether no two objects of a kind have one name. A region and a partition may.
pub fn names_differ(d: &Manager) -> bool
    ensures { result ≡ sound_names d.now }
{
    differ::<Region>(d) && differ::<Partition>(d)
}
