// The chain of the free buffers of a partition, on the words of the memory. Every function is total: a word past the memory reads 0,
// and a store past it changes nothing. A link of 0, and a front or a rear of 0, is none: links are words of the memory, where 0 is no
// buffer's address, and the record's ends are kept as they are.
#![tactic(auto)]

ghost use Rattle.std.specs.Prelude.{◌≡◌, ◌+◌, ◌/◌, get_or, set};
ghost use Rattle.manager.specs.Partition.{is_buffer, next_of, set_next, set_before, link, is_free, after_get, after_return};

use manager::Partition;

// A word of the memory.
fn read_word(mem: &[u32], at: usize) -> u32
    ensures { result ≡ get_or mem.now at 0 }
{
    mem.get(at).copied().unwrap_or(0)
}

// The memory with another word.
fn write_word(mem: &mut [u32], at: usize, value: u32)
    ensures { mem.new ≡ set mem.old at value }
{
    if at < mem.len() {
        mem[at] = value;
    }
}

// Word 0 of a buffer: the next one on the chain.
pub fn next_of(mem: &[u32], a: u32) -> u32
    ensures { result ≡ next_of mem.now a }
{
    read_word(mem, (a / 4) as usize)
}

// Its two links stored, one by one.
fn set_next(mem: &mut [u32], a: u32, value: u32)
    ensures { mem.new ≡ set_next mem.old a value }
{
    write_word(mem, (a / 4) as usize, value);
}

fn set_before(mem: &mut [u32], a: u32, value: u32)
    ensures { mem.new ≡ set_before mem.old a value }
{
    write_word(mem, (a / 4) as usize + 1, value);
}

// Both links of a buffer.
pub fn set_links(mem: &mut [u32], a: u32, next: u32, before: u32)
    ensures { mem.new ≡ link mem.old a next before }
{
    set_next(mem, a, next);
    set_before(mem, a, before);
}

// Whether an address is a buffer's. A partition of size 0 has none.
pub fn is_buffer(p: Partition, a: u32) -> bool
    ensures { result ≡ is_buffer p a }
{
    if a < p.start || p.size == 0 {
        return false;
    }
    let offset = a - p.start;
    offset % p.size == 0 && offset / p.size < p.length / p.size
}

// Whether a buffer is on the chain. A `for` over the count was tried: the row "return buffer, one large object" takes 3 instructions in 100
// more by it.
pub fn is_free(mem: &[u32], p: Partition, a: u32) -> bool
    ensures { result ≡ is_free mem.now p a }
{
    let mut left = p.free;
    let mut at = p.front;
    while left > 0 {
        left -= 1;
        if a == at {
            return true;
        }
        at = next_of(mem, at);
    }
    false
}

// Get takes the front and leaves 0 in both its links; the next buffer, if any, is the front then.
pub fn after_get(mem: &mut [u32], p: Partition)
    ensures { mem.new ≡ after_get mem.old p }
{
    let front = p.front;
    let next = next_of(mem, front);
    set_links(mem, front, 0, 0);
    if next != 0 {
        set_before(mem, next, 0);
    }
}

// Return adds at the rear.
pub fn after_return(mem: &mut [u32], p: Partition, a: u32)
    ensures { mem.new ≡ after_return mem.old p a }
{
    if p.free == 0 {
        set_links(mem, a, 0, 0);
        return;
    }
    let rear = p.rear;
    set_next(mem, rear, a);
    set_links(mem, a, 0, rear);
}
