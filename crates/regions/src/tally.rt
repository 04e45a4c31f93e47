// How many segments a region has, and how large they are. The words are lent, and one walk alone reads them: what it asks of them is asked
// where it begins, and by the function that hands them on to it.
ghost use Rattle.std.specs.Prelude.{◌≡◌, true, ◌≤◌, length};
ghost use Rattle.manager.specs.Map.{tiled, decode, free_sizes, held_sizes};
ghost use Rattle.manager.specs.Regions.{information_of};
ghost use Rattle.regions.specs.Count.{tally_of, with_segment, Small};

use manager::Information;
use map::Segments;

// Segments, all free ones or all held ones: how many, the pages of the largest, and all pages.
#[derive(Clone, Copy, Default)]
struct Tally {
    count: u32,
    largest: u32,
    total: u32,
}

impl Tally {
    // One segment more.
    fn add(&mut self, pages: u32)
        requires { (self.old.count ≤ 16384) × (self.old.total ≤ 16384) × (pages ≤ 16384) }
        ensures { self.new ≡ with_segment self.old pages }
    {
        self.count += 1;
        self.largest = self.largest.max(pages);
        self.total += pages;
    }
}

// The free segments of a map, and the held ones.
fn count(map: &[u32]) -> (Tally, Tally)
    requires { (tiled map.now ≡ true) × (length map.now ≤ 16384) }
    ensures free { (result.0 ≡ tally_of (free_sizes (decode map.now))) × Small result.0 }
    ensures held { (result.1 ≡ tally_of (held_sizes (decode map.now))) × Small result.1 }
{
    let mut free = Tally::default();
    let mut held = Tally::default();
    for s in Segments::of(map) {
        if s.held {
            held.add(s.pages);
        } else {
            free.add(s.pages);
        }
    }
    (free, held)
}

// Of a map of pages of this size: the segments, and their bytes.
pub(crate) fn of_map(map: &[u32], page: u32) -> Information
    requires { (tiled map.now ≡ true) × (length map.now ≤ 16384) × (page ≤ 4096) }
    ensures { result ≡ information_of page (free_sizes (decode map.now)) (held_sizes (decode map.now)) }
{
    let (free, held) = count(map);
    Information {
        free_count: free.count,
        free_largest: free.largest * page,
        free_total: free.total * page,
        held_count: held.count,
        held_largest: held.largest * page,
        held_total: held.total * page,
    }
}
