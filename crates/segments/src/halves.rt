// Stores in the map of a region by halves: these functions have exactly its words, or those of one block of it. `allocate` and `release` need
// them sound, and those that only read need them tiled.
ghost use Rattle.std.specs.Prelude.{◌≡◌, true, ◌+◌, ◌-◌, ◌≤◌, length, take, drop, replicate, MatchOption};
ghost use Rattle.arith.specs.Power.{level, is_power};
ghost use Rattle.manager.specs.Kind.{allocate};
ghost use Rattle.manager.specs.Map.{tiled, decode, draw};
ghost use Rattle.manager.specs.Halves.{place_block, carve, join, release_block, halves};
ghost use Rattle.segments.specs.MapWords.{IsMap, IsHeldAt, IsSmallest};

use manager::Need;
use map::{Segment, Segments};

// The smallest free block that has k pages or more, the lowest of its size.
fn smallest(map: &[u32], k: u64) -> Option<Segment>
    requires { tiled map.now ≡ true }
    ensures { MatchOption result (None ≡ place_block k 0 (decode map.now)) (IsSmallest k map.now) }
{
    Segments::of(map)
        .filter(|s| !s.held && k <= s.pages as u64)
        .min_by_key(|s| s.pages)
}

// Halves a block, of whose words all but the first are 0, again and again until it has k pages or fewer, the low half going on. What is left
// of it is held, and the high halves are free.
fn carve(map: &mut [u32], k: u32)
    requires block { (is_power (length map.old) ≡ true) × (length map.old ≤ 16384) × (1 ≤ k) }
    requires blank { drop 1 map.old ≡ replicate (length map.old - 1) 0 }
    ensures { map.new ≡ draw (carve (level (length map.old)) k (length map.old)) }
{
    let n = map.len();
    if n <= k as usize {
        map[0] = n as u32 * 2 + 1;
        return;
    }
    let low = 0;
    let high = n / 2;
    map[high] = high as u32 * 2;
    carve(&mut map[low..high], k);
}

// Takes the pages where there is room, and says where: the place of their word.
pub(crate) fn allocate(map: &mut [u32], n: Need) -> Option<usize>
    requires sound { IsMap halves.proper map.old }
    requires some { 1 ≤ n.pages }
    ensures { (result ≡ halves.place n 0 (decode map.old)) × (map.new ≡ draw (allocate halves n 0 (decode map.old))) }
{
    let block = smallest(map, n.pages)?;
    let at = block.at;
    let end = at + block.pages as usize;
    carve(&mut map[at..end], n.pages as u32);
    Some(at)
}

// Frees the held block at page p. A block that it makes whole with its other half joins the other half of that, and so on upwards.
#[tactic(auto, using(crate::proofs::Blocks::Release::parting))]
pub(crate) fn release(map: &mut [u32], p: usize)
    requires { IsHeldAt halves.proper p map.old }
    ensures { map.new ≡ draw (release_block (level (length map.old)) p 0 (decode map.old)) }
{
    let n = map.len();
    let all = n as u32 * 2;
    if map[0] == all + 1 {
        map[0] = all;
        return;
    }
    let half = n / 2;
    if p < half {
        release(&mut map[..half], p);
    } else {
        release(&mut map[half..], p - half);
    }
    join(map, half);
}

// The two halves of a block, each of so many pages, become one where both are wholly free.
#[tactic(auto, using(crate::proofs::Blocks::Join::joining))]
fn join(map: &mut [u32], half: usize)
    requires halved { (1 ≤ half) × (half ≤ 8192) × (length map.old ≡ half + half) }
    requires both_tiled { (tiled (take half map.old) ≡ true) × (tiled (drop half map.old) ≡ true) }
    ensures { map.new ≡ draw (join (decode (take half map.old)) (decode (drop half map.old))) }
{
    let size = half as u32 * 2;
    if map[0] == size && map[half] == size {
        map[0] = size * 2;
        map[half] = 0;
    }
}
