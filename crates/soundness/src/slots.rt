// The slots of the record: each is a sound object, or empty and all zeros but for its generation.
ghost use Rattle.std.specs.Prelude.{◌≡◌, ℕ, Bool, ◌&&◌, cond, eqb, List};
ghost use Rattle.manager.specs.Lists.{every};
ghost use Rattle.manager.specs.Sound.{inside, sound_page, sound_size, sound_generation, empty_region, empty_partition, live_region, live_partition};
ghost use Rattle.std.proofs.Common.{rules};
ghost use Rattle.std.proofs.lemmas.Grind.{common_steps};

use manager::{Manager, Partition, Region};
use objects::Slot;

// A kind of object, by what its live ones have to be.
pub(crate) trait Checked: Slot + PartialEq {
    // Whether a live object is sound over the words of the memory.
    ghost live: { List ℕ → Self → Bool };

    // Whether a slot without a name is zero but for its generation.
    ghost empty: { Self → Bool };

    fn is_live(&self, mem: &[u32]) -> bool
        ensures { result ≡ live mem.now self.now };

    // A slot without a name equals the emptied one of its generation exactly where it is empty.
    ghost emptied_only: { (x : Self) → Self.name x ≡ 0 → Self.eq x (Self.emptied (Self.generation x)) ≡ empty x };
}

// Whether an area is inside the memory and does not start at 0.
fn is_inside(mem: &[u32], start: u32, bytes: u32) -> bool
    ensures { result ≡ inside mem.now start bytes }
{
    start != 0 && !objects::past_memory(mem.len(), start, bytes)
}

// Whether a page size is one that create leaves: 8 to 4,096, a multiple of 8.
fn sound_page(page: u32) -> bool
    ensures { result ≡ sound_page page }
{
    8 <= page && page <= 4096 && page % 8 == 0
}

// Whether a buffer size is one that create allows: a multiple of 4, at least 8, and at most the length.
fn sound_size(bytes: u32, size: u32) -> bool
    ensures { result ≡ sound_size bytes size }
{
    size <= bytes && size % 4 == 0 && 8 <= size
}

// Whether a slot's generation is one that it can have: an empty slot may be spent, a live one is not.
fn sound_generation(name: u32, generation: u32) -> bool
    ensures { result ≡ sound_generation name generation }
{
    if name == 0 {
        generation <= Manager::GENERATIONS
    } else {
        generation < Manager::GENERATIONS
    }
}

impl Checked for Region {
    ghost live = { live_region };

    ghost empty = { empty_region };

    ghost emptied_only = { λ x e. Prim.search (rules, common_steps) };

    // Whether a region's area, page size and map are sound.
    #[tactic(auto, unfolding(manager::specs::Sound::live_region))]
    fn is_live(&self, mem: &[u32]) -> bool {
        let l = map::layout_of(*self);
        is_inside(mem, self.start, self.length)
            && sound_page(self.page)
            && 1 <= l.pages
            && map::is_sound(map::map_words(mem, l), self.order)
    }
}

impl Checked for Partition {
    ghost live = { live_partition };

    ghost empty = { empty_partition };

    ghost emptied_only = { λ x e. Prim.search (rules, common_steps) };

    // Whether a partition's area, buffer size and chain are sound.
    #[tactic(auto, unfolding(manager::specs::Sound::live_partition))]
    fn is_live(&self, mem: &[u32]) -> bool {
        is_inside(mem, self.start, self.length)
            && self.start % 4 == 0
            && sound_size(self.length, self.size)
            && super::chains::sound_chain(mem, *self)
    }
}

// Whether a slot has a sound generation, and is empty or a sound object. An empty slot has name 0: that is the record's form, which callers
// keep.
fn sound_slot<T: Checked>(mem: &[u32], x: &T) -> bool
    ensures { result ≡ (sound_generation (T.name x.now) (T.generation x.now) && cond (eqb (T.name x.now) 0) (T.empty x.now) (T.live mem.now x.now)) }
{
    if !sound_generation(x.name(), x.generation()) {
        return false;
    }
    if x.name() == 0 {
        *x == T::emptied(x.generation())
    } else {
        x.is_live(mem)
    }
}

// Whether every slot is sound.
pub(crate) fn sound_slots<T: Checked>(mem: &[u32], all: &[T]) -> bool
    ensures { result ≡ every (λ x. sound_generation (T.name x) (T.generation x) && cond (eqb (T.name x) 0) (T.empty x) (T.live mem.now x)) all.now }
{
    all.iter().all(|x| sound_slot(mem, x))
}
