// The stores in a map by the kind of its region: of pages, or by halves. No other function of the crate asks which it is: an order is
// known at run time, and a type for each kind would have to be chosen by the same question. These functions have exactly the map's words,
// and need them sound. The words are lent and rewritten, here and in both kinds: what is asked of them stands in the clauses, and no type
// can keep it.
ghost use Rattle.std.specs.Prelude.{◌≡◌, true, ◌≤◌};
ghost use Rattle.manager.specs.Kind.{allocate};
ghost use Rattle.manager.specs.Map.{decode, draw};
ghost use Rattle.manager.specs.Region.{kind_of};
ghost use Rattle.segments.specs.MapWords.{IsMap, IsHeldAt};

use crate::{halves, pages};
use manager::{Need, Order};

// Takes the pages where there is room, and says where: the number of the first one. The map's first page is page `first`.
pub(crate) fn allocate(map: &mut [u32], o: Order, first: u64, n: Need) -> Option<usize>
    requires sound { IsMap (kind_of o).proper map.old }
    requires some { (1 ≤ n.pages) × (first ≤ 65536) }
    ensures { (result ≡ (kind_of o).place n first (decode map.old)) × (map.new ≡ draw (allocate (kind_of o) n first (decode map.old))) }
{
    if !map::by_halves(o) {
        return pages::allocate(map, first, n);
    }
    let i = halves::allocate(map, n)?;
    Some(first as usize + i)
}

// Frees the held segment at page p.
#[tactic(auto, using(crate::proofs::Order::kinds))]
pub(crate) fn release_at(map: &mut [u32], o: Order, p: usize)
    requires { IsHeldAt (kind_of o).proper p map.old }
    ensures { map.new ≡ draw ((kind_of o).change p 0 0 (decode map.old)) }
{
    if map::by_halves(o) {
        halves::release(map, p);
        return;
    }
    pages::release_at(map, p);
}

// Whether the held segment at page p can have k pages.
#[tactic(auto, using(crate::proofs::Order::kinds))]
pub(crate) fn can_have(map: &[u32], o: Order, p: usize, k: u64) -> bool
    requires { IsHeldAt (kind_of o).proper p map.now }
    ensures { result ≡ (kind_of o).can_have p k 0 (decode map.now) }
{
    if map::by_halves(o) {
        let Some(n) = map::held_word(map, p) else {
            return false;
        };
        return k == n as u64;
    }
    k <= pages::reach_at(map, p) as u64
}

// The held segment at page p has k pages from now on, which it can have.
#[tactic(auto, using(crate::proofs::Order::kinds))]
pub(crate) fn resize_at(map: &mut [u32], o: Order, p: usize, k: u32)
    requires held { IsHeldAt (kind_of o).proper p map.old }
    requires fits { (1 ≤ k) × ((kind_of o).can_have p k 0 (decode map.old) ≡ true) }
    ensures { map.new ≡ draw ((kind_of o).change p k 0 (decode map.old)) }
{
    if map::by_halves(o) {
        return;
    }
    pages::resize_at(map, p, k);
}
