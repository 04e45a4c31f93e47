// Numbers: roundings to whole pages, and the layout of an area of memory. Every function is total over 32-bit
// inputs, and no sum wraps: sums are kept in 64 bits.
#![tactic(auto)]

ghost use Rattle.std.specs.Prelude.{◌≡◌, ◌-◌, ◌<◌};
ghost use Rattle.arith.specs.Round.{round_up, pages_for, align_up};
ghost use Rattle.arith.specs.Power.{power_up, is_power};
ghost use Rattle.arith.specs.Layout.{largest, most_pages, any_number, layout_with, layout_of};

// Where the map and the pages of an area lie: the index of the map's first word, how many pages there are, and the number of the
// first one. Page p starts at p times the page size.
#[derive(Clone, Copy)]
pub struct Layout {
    pub map: usize,
    pub pages: u32,
    pub first: u64,
}

// How many multiples of p it takes to reach x, and 0 where p is 0.
fn multiples(x: u64, p: u32) -> u64
    requires { x < 1099511627776 }
    ensures { result ≡ pages_for x p }
{
    if p == 0 {
        return 0;
    }
    x.div_ceil(u64::from(p))
}

// The first multiple of p at or above x; 0 where p is 0.
pub fn round_up(x: u32, p: u32) -> u64
    ensures { result ≡ round_up x p }
{
    multiples(x as u64, p) * p as u64
}

// How far it is from x up to the first multiple of `every`; 0 where that is 0, since any number will do.
pub fn gap_to(every: u32, x: u64) -> u64
    ensures { result ≡ align_up every x - x }
{
    if every == 0 {
        return 0;
    }
    let wide = every as u64;
    let over = x % wide;
    if over == 0 {
        return 0;
    }
    wide - over
}

// How many whole pages hold the bytes; 0 where the page size is 0.
pub fn pages_for(bytes: u32, page: u32) -> u32
    ensures { result ≡ pages_for bytes page }
{
    multiples(bytes as u64, page) as u32
}

// The one division. Each page takes its size and a word of the map, so no more than this fit in an area of that length; none of
// size 0.
fn most_pages(length: u32, page: u32) -> u32
    ensures { result ≡ most_pages length page }
{
    if page == 0 {
        return 0;
    }
    (length as u64 / (page as u64 + 4)) as u32
}

// The layout of an area with n pages; its first page has number 0 where the page size is 0.
fn with_pages(start: u32, page: u32, n: u32) -> Layout
    ensures { result ≡ layout_with start page n }
{
    let map = round_up(start, 4);
    Layout {
        map: (map / 4) as usize,
        pages: n,
        first: multiples(map + 4 * n as u64, page),
    }
}

// The layout of an area with the largest number of pages that fit. The division gives that number or, where rounding the map's start
// and the first page up costs room, one more.
pub fn layout_of(start: u32, length: u32, page: u32) -> Layout
    ensures { result ≡ layout_of any_number start length page }
{
    let n = most_pages(length, page);
    let l = with_pages(start, page, n);
    if n == 0 {
        return l;
    }
    let first = l.first;
    let stop = first * page as u64 + n as u64 * page as u64;
    if stop <= start as u64 + length as u64 {
        return l;
    }
    with_pages(start, page, n - 1)
}

// The least power of two at or above k; 1 for 0.
pub fn power_up(k: u32) -> u64
    ensures { result ≡ power_up k }
{
    u64::from(k).next_power_of_two()
}

// The largest power of two at or below a number; 0 for 0.
pub fn power_down(most: u64) -> u64
    ensures { result ≡ largest most is_power }
{
    if most == 0 {
        return 0;
    }
    1 << most.ilog2()
}

// The layout of an area with the largest power of two pages that fits: what fewer pages take fits too, so that is the largest at or
// below the number of pages that fit.
pub fn layout_by_halves(start: u32, length: u32, page: u32) -> Layout
    ensures { result ≡ layout_of is_power start length page }
{
    let l = layout_of(start, length, page);
    let n = power_down(l.pages as u64);
    with_pages(start, page, n as u32)
}
