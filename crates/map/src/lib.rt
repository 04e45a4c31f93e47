// Where a region's map lies in the memory, and what its words say. Every function is total: any words are read, sound or not. Only a walk
// from segment to segment (`Segments`) needs them tiled.
#![tactic(auto)]

mod halves;
mod walk;

ghost use Rattle.std.specs.Prelude.{◌≡◌, ◌-◌, ◌/◌};
ghost use Rattle.manager.specs.Lists.{any};
ghost use Rattle.manager.specs.Map.{decode, sound_map, is_held_segment};
ghost use Rattle.manager.specs.Paged.{apart, room_from};
ghost use Rattle.manager.specs.Region.{by_halves, kind_of, layout_of, words_at, pages_asked, is_alignment, need_of, servable_at};
ghost use Rattle.map.specs.Word.{held_word, held_word_at, some_pages, one_free};

use arith::Layout;
use manager::{Need, Order, Region};
pub use walk::{Segment, Segments};

// Whether a region of an order is one by halves; else it is of pages. The functions below ask it, each at its one step that differs: an
// order is known at run time, and a type for each kind, with these functions as its methods, would be chosen by the same question.
pub fn by_halves(o: Order) -> bool
    ensures { result ≡ by_halves o }
{
    matches!(o, Order::HalvesFifo | Order::HalvesPriority)
}

// Where the region's map and pages lie: a directive works it out once, and hands it on.
pub fn layout_of(r: Region) -> Layout
    ensures { result ≡ layout_of r }
{
    if by_halves(r.order) {
        arith::layout_by_halves(r.start, r.length, r.page)
    } else {
        arith::layout_of(r.start, r.length, r.page)
    }
}

// How many pages a request for so many bytes takes: by halves, a power of two.
pub fn pages_asked(r: Region, size: u32) -> u64
    ensures { result ≡ pages_asked r size }
{
    let n = arith::pages_for(size, r.page);
    if by_halves(r.order) {
        arith::power_up(n)
    } else {
        u64::from(n)
    }
}

// Whether a region of an order knows an alignment: by halves only 0.
pub fn aligns(o: Order, alignment: u32) -> bool
    ensures { result ≡ (kind_of o).aligns alignment }
{
    alignment == 0 || !by_halves(o)
}

// Whether an alignment is 0, for the page size, or a multiple of the page size up to 4,096.
pub fn is_alignment(page: u32, alignment: u32) -> bool
    ensures { result ≡ is_alignment page alignment }
{
    alignment <= 4096 && alignment.is_multiple_of(page)
}

// What a request for so many bytes on an alignment needs: its pages, and from which ones on.
pub fn need_of(r: Region, size: u32, alignment: u32) -> Need
    ensures { result ≡ need_of r size alignment }
{
    let pages = pages_asked(r, size);
    let every = alignment.checked_div(r.page).unwrap_or(0);
    Need { pages, every }
}

// Of n pages from page `at` on, how many there are from the first multiple of `every` on.
pub fn room_from(every: u32, at: u64, n: u32) -> u32
    ensures { result ≡ room_from every at n }
{
    u64::from(n).saturating_sub(arith::gap_to(every, at)) as u32
}

// Whether a region of an order and a layout could serve a need with nothing held.
pub fn servable(o: Order, l: Layout, n: Need) -> bool
    ensures { result ≡ servable_at (kind_of o) l n }
{
    let room = if by_halves(o) {
        l.pages
    } else {
        room_from(n.every, l.first, l.pages)
    };
    l.pages != 0 && n.pages <= u64::from(room)
}

// The words of a map: fewer where the memory ends before them.
pub fn map_words<'a>(mem: &'a [u32], l: Layout) -> &'a [u32]
    ensures { result.now ≡ words_at mem.now l }
{
    let words = mem.get(l.map..).unwrap_or(&[]);
    words.get(..l.pages as usize).unwrap_or(words)
}

// Whether the words are a sound map of a region of an order.
pub fn is_sound(map: &[u32], o: Order) -> bool
    ensures { result ≡ sound_map (kind_of o).proper map.now }
{
    if by_halves(o) {
        halves::is_sound(map)
    } else {
        is_apart(map)
    }
}

// Whether the words are a sound map of a region of pages. `due` words of the segment that was begun are still to come; `before` is 1 where
// the segment before is held, and in front of the first.
fn is_apart(map: &[u32]) -> bool
    ensures { result ≡ sound_map apart map.now }
{
    let mut due: u32 = 0;
    let mut before: u32 = 1;
    for &w in map {
        if due == 0 {
            if w < 2 {
                return false;
            }
            let mark = w % 2;
            if before + mark == 0 {
                return false;
            }
            before = mark;
            due = w / 2 - 1;
        } else {
            if w != 0 {
                return false;
            }
            due -= 1;
        }
    }
    due == 0
}

// Whether a segment is held: its word is odd.
pub fn any_held(map: &[u32]) -> bool
    ensures { result ≡ any is_held_segment (decode map.now) }
{
    map.iter().any(|word| word % 2 == 1)
}

// The pages that word p of a map says, where it is marked as held and says one. In a sound map that is the held segment which starts there,
// and no other word has to be read.
#[tactic(auto, using(crate::proofs::Word::says_pages))]
pub fn held_word(map: &[u32], p: usize) -> Option<u32>
    ensures { result ≡ some_pages (held_word map.now p) }
{
    match map.get(p) {
        Some(first) if first % 2 == 1 && 1 < *first => Some(first / 2),
        _ => None,
    }
}

// The place in a map of the word of the page at an address; 0 where the address is before the first page.
pub fn index_at(l: Layout, page: u32, address: u32) -> usize
    ensures { result ≡ address / page - l.first }
{
    let p = u64::from(address.checked_div(page).unwrap_or(0));
    p.saturating_sub(l.first) as usize
}

// The pages of the held segment that starts at an address, as the word of that page says it.
pub fn held_word_at(mem: &[u32], l: Layout, page: u32, address: u32) -> Option<u32>
    ensures { result ≡ some_pages (held_word_at mem.now l page address) }
{
    if page == 0 || address % page != 0 || u64::from(address / page) < l.first {
        return None;
    }
    held_word(map_words(mem, l), index_at(l, page, address))
}

// Whether the first word says one free segment of all pages. In a sound map that is so where nothing is held, and no other word has to be
// read.
pub fn one_free(mem: &[u32], l: Layout) -> bool
    ensures { result ≡ one_free mem.now l }
{
    match map_words(mem, l).first() {
        None => l.pages == 0,
        Some(first) => u64::from(*first) == 2 * u64::from(l.pages),
    }
}
