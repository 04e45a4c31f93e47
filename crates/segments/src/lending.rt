// The part of the memory that is a region's map, lent to the stores of `kinds`. Pages are named by address here, and there by the
// place of their word: these functions need a live region of sound records, of which the memory is lent and rewritten, so that it is asked
// for in the clauses. Each lends the words by itself: a function that hands out `&mut mem[at..end]` would have to say what its caller
// leaves there, and be no plainer. A site and an address go separately: they are numbers of one call, and the address is tested here.
ghost use Rattle.std.specs.Prelude.{◌≡◌, true, ◌≤◌};
ghost use Rattle.manager.specs.Region.{held_at, can_have};
ghost use Rattle.manager.specs.Sound.{Sited};
ghost use Rattle.segments.specs.Lending.{Changes, Takes};

use crate::kinds;
use crate::site::Site;
use manager::Need;

// Takes the pages of a need from the region where there is room, and says where.
#[tactic(auto, using(crate::proofs::Lend::drawing))]
pub(crate) fn take_pages(mem: &mut [u32], s: Site, n: Need) -> Option<usize>
    requires { (Sited mem.old s.region) × (1 ≤ n.pages) }
    ensures { Takes s.region n mem.old mem.new result }
{
    let at = s.layout.map;
    let end = at + s.layout.pages as usize;
    kinds::allocate(&mut mem[at..end], s.region.order, s.layout.first, n)
}

// Frees the held segment at an address.
#[tactic(auto, using(crate::proofs::Lend::drawing))]
pub(crate) fn release_pages(mem: &mut [u32], s: Site, address: u32)
    requires { (Sited mem.old s.region) × (1 ≤ held_at mem.old s.region address) }
    ensures { Changes s.region address 0 mem.old mem.new }
{
    let at = s.layout.map;
    let end = at + s.layout.pages as usize;
    let p = map::index_at(s.layout, s.region.page, address);
    kinds::release_at(&mut mem[at..end], s.region.order, p);
}

// Whether the held segment at an address can have k pages.
#[tactic(auto, using(crate::proofs::Lend::reading))]
pub(crate) fn can_have(mem: &[u32], s: Site, address: u32, k: u64) -> bool
    requires { (Sited mem.now s.region) × (1 ≤ held_at mem.now s.region address) }
    ensures { result ≡ can_have mem.now s.region address k }
{
    let words = map::map_words(mem, s.layout);
    let p = map::index_at(s.layout, s.region.page, address);
    kinds::can_have(words, s.region.order, p, k)
}

// The held segment at an address has k pages from now on, which it can have.
#[tactic(auto, using(crate::proofs::Lend::drawing))]
pub(crate) fn resize_pages(mem: &mut [u32], s: Site, address: u32, k: u64)
    requires sited { (Sited mem.old s.region) × (1 ≤ held_at mem.old s.region address) }
    requires fits { (1 ≤ k) × (can_have mem.old s.region address k ≡ true) }
    ensures { Changes s.region address k mem.old mem.new }
{
    let at = s.layout.map;
    let end = at + s.layout.pages as usize;
    let p = map::index_at(s.layout, s.region.page, address);
    kinds::resize_at(&mut mem[at..end], s.region.order, p, k as u32);
}
