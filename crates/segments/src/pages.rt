// Stores in the map of a region of pages: these functions have exactly its words, and need them sound; those that only read need them
// tiled.
ghost use Rattle.std.specs.Prelude.{◌≡◌, true, ◌+◌, ◌/◌, ◌≤◌, length, get_or, MatchOption};
ghost use Rattle.manager.specs.Map.{tiled, decode, draw};
ghost use Rattle.manager.specs.Kind.{allocate, held_from};
ghost use Rattle.manager.specs.Paged.{apart, paged, place_from, reach_from, change_from};
ghost use Rattle.segments.specs.MapWords.{IsMap, IsHeldAt, cutting, taking, segment_from, HasRoom, before_from, IsLastHeld, Extends};

use manager::Need;
use map::Segments;

// The free segment with the lowest address that has the pages, from the first one on the alignment on: the place of its word. The map's first
// page is page `first`.
fn find(map: &[u32], first: u64, n: Need) -> Option<usize>
    requires { (tiled map.now ≡ true) × (length map.now ≤ 16384) × (first ≤ 65536) }
    ensures { MatchOption result (None ≡ segment_from n first 0 (decode map.now)) (HasRoom n first map.now) }
{
    for s in Segments::of(map) {
        if !s.held && n.pages <= map::room_from(n.every, first + s.at as u64, s.pages) as u64 {
            return Some(s.at);
        }
    }
    None
}

// Of the segment of so many pages at page i the first k are one from now on, marked as held or not, and the others free.
#[tactic(auto, using(crate::proofs::Words::cutting_part, crate::proofs::Words::cutting_whole))]
fn cut(map: &mut [u32], i: usize, pages: u32, k: u32, mark: u32)
    requires { (1 ≤ k) × (k ≤ pages) × (i + pages ≤ length map.old) × (length map.old ≤ 16384) × (mark ≤ 1) }
    ensures { map.new ≡ cutting i pages k mark map.old }
{
    map[i] = k * 2 + mark;
    if k < pages {
        let j = i + k as usize;
        map[j] = (pages - k) * 2;
    }
}

// Takes k pages of the free segment at page i, from `gap` pages behind its first one on. Those before them stay free, as do those behind.
#[tactic(auto, using(crate::proofs::Take::taking_low, crate::proofs::Take::taking_high, crate::proofs::Take::cut_long))]
fn take_at(map: &mut [u32], i: usize, gap: u32, k: u32)
    requires some { (1 ≤ k) × (gap + k ≤ get_or map.old i 0 / 2) }
    requires within { (i + get_or map.old i 0 / 2 ≤ length map.old) × (length map.old ≤ 16384) }
    ensures { map.new ≡ taking i gap k map.old }
{
    let pages = map[i] / 2;
    if gap == 0 {
        cut(map, i, pages, k, 1);
        return;
    }
    cut(map, i, pages, gap, 0);
    let from = i + gap as usize;
    cut(map, from, pages - gap, k, 1);
}

// Takes the pages where there is room, and says where: the number of the first one.
pub(crate) fn allocate(map: &mut [u32], first: u64, n: Need) -> Option<usize>
    requires sound { IsMap apart map.old }
    requires some { (1 ≤ n.pages) × (first ≤ 65536) }
    ensures { (result ≡ place_from n first (decode map.old)) × (map.new ≡ draw (allocate paged n first (decode map.old))) }
{
    let i = find(map, first, n)?;
    let at = first + i as u64;
    let gap = arith::gap_to(n.every, at);
    take_at(map, i, gap as u32, n.pages as u32);
    let page = at + gap;
    Some(page as usize)
}

// The held segment at page p takes in a free follower. Its pages then.
#[tactic(auto, using(crate::proofs::Extend::extending))]
fn extend(map: &mut [u32], p: usize) -> u32
    requires { IsHeldAt apart p map.old }
    ensures { Extends p map.old result map.new }
{
    let pages = map[p] / 2;
    let all = reach_at(map, p);
    if pages < all {
        map[p] = all * 2 + 1;
        map[p + pages as usize] = 0;
    }
    all
}

// The most pages that the held segment at page p can have: its own and those of a free follower.
#[tactic(auto, using(crate::proofs::Extend::reaching))]
pub(crate) fn reach_at(map: &[u32], p: usize) -> u32
    requires { IsHeldAt apart p map.now }
    ensures { result ≡ reach_from p 0 (decode map.now) }
{
    let pages = map[p] / 2;
    let next = p + pages as usize;
    if map.len() <= next {
        return pages;
    }
    let follower = map[next];
    if follower % 2 != 0 {
        return pages;
    }
    pages + follower / 2
}

// The page of the segment before the one at page p; p where that is the first.
fn previous(map: &[u32], p: usize) -> usize
    requires { tiled map.now ≡ true }
    ensures { result ≡ before_from p p 0 (decode map.now) }
{
    Segments::of(map)
        .take_while(|s| s.at != p)
        .last()
        .map_or(p, |s| s.at)
}

// Frees the held segment of so many pages at page p, which has no free follower; q is what `previous` says.
#[tactic(auto, using(crate::proofs::Release::releasing))]
fn release(map: &mut [u32], p: usize, q: usize, pages: u32)
    requires { IsLastHeld p q pages map.old }
    ensures { map.new ≡ draw (change_from p 0 0 (decode map.old)) }
{
    let w = map[q];
    if w % 2 == 0 {
        map[q] = w + pages * 2;
        map[p] = 0;
        return;
    }
    map[p] = pages * 2;
}

// The held segment at page p has k pages from now on.
#[tactic(auto, using(crate::proofs::Extend::changing))]
pub(crate) fn resize_at(map: &mut [u32], p: usize, k: u32)
    requires held { IsHeldAt apart p map.old }
    requires reached { (1 ≤ k) × (k ≤ reach_from p 0 (decode map.old)) }
    ensures { map.new ≡ draw (change_from p k 0 (decode map.old)) }
{
    let pages = extend(map, p);
    cut(map, p, pages, k, 1);
}

// Frees the held segment at page p, and joins it to its free neighbours.
#[tactic(auto, using(crate::proofs::Extend::changing))]
pub(crate) fn release_at(map: &mut [u32], p: usize)
    requires { IsHeldAt apart p map.old }
    ensures { map.new ≡ draw (change_from p 0 0 (decode map.old)) }
{
    let pages = extend(map, p);
    let q = previous(map, p);
    release(map, p, q, pages);
}
