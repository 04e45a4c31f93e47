// The symbols of the library for C: include/steepleclay.h says how they are called. Each is the function of that name in `firmware`, with the
// same clauses.
// The C interface needs this form: a crate is a library or an archive for C, and `end_to_end` speaks of the library (docs/DECISIONS.md,
// 2026-11-26), so each symbol repeats a function of `firmware`.
#![tactic(auto)]

ghost use Rattle.packing.specs.Packing.{last_order, order_at};
ghost use Rattle.firmware.specs.Exported.{Leaves, Reads, Writes, called, chosen, wait_at, segment_words, segment_written};
ghost use Rattle.firmware.specs.Reading.{LeavesGauge, gauge_read, gauge_read_from};

use manager::Call;

// Makes a region.
#[unsafe(no_mangle)]
pub extern "C" fn sc_region_create(
    state: &mut [u32],
    memory: &mut [u32],
    answer: &mut [u32],
    name: u32,
    start: u32,
    length: u32,
    page: u32,
    order: u32,
) -> u32
    ensures { Leaves (chosen last_order order state.old memory.old answer.old (Call.CreateRegion name start length page (order_at order)))
        state.new memory.new answer.new result }
{
    firmware::sc_region_create(state, memory, answer, name, start, length, page, order)
}

// The id of the region with a name.
#[unsafe(no_mangle)]
pub extern "C" fn sc_region_ident(
    state: &mut [u32],
    memory: &mut [u32],
    answer: &mut [u32],
    name: u32,
) -> u32
    ensures { Leaves (called state.old memory.old answer.old (Call.IdentRegion name))
        state.new memory.new answer.new result }
{
    firmware::sc_region_ident(state, memory, answer, name)
}

// Deletes a region of which nothing is held.
#[unsafe(no_mangle)]
pub extern "C" fn sc_region_delete(
    state: &mut [u32],
    memory: &mut [u32],
    answer: &mut [u32],
    id: u32,
) -> u32
    ensures { Leaves (called state.old memory.old answer.old (Call.DeleteRegion id))
        state.new memory.new answer.new result }
{
    firmware::sc_region_delete(state, memory, answer, id)
}

// Gets a segment that starts on an alignment, or waits for one.
#[unsafe(no_mangle)]
pub extern "C" fn sc_region_get_segment(
    state: &mut [u32],
    memory: &mut [u32],
    answer: &mut [u32],
    id: u32,
    size: u32,
    alignment: u32,
    wait: u32,
    task: u32,
    priority: u32,
    ticks: u32,
) -> u32
    ensures { Leaves (chosen 1 wait state.old memory.old answer.old (Call.GetSegment id size alignment (wait_at wait) task priority ticks))
        state.new memory.new answer.new result }
{
    firmware::sc_region_get_segment(
        state, memory, answer, id, size, alignment, wait, task, priority, ticks,
    )
}

// Takes a held segment back and serves the queue.
#[unsafe(no_mangle)]
pub extern "C" fn sc_region_return_segment(
    state: &mut [u32],
    memory: &mut [u32],
    answer: &mut [u32],
    id: u32,
    address: u32,
) -> u32
    ensures { Leaves (called state.old memory.old answer.old (Call.ReturnSegment id address))
        state.new memory.new answer.new result }
{
    firmware::sc_region_return_segment(state, memory, answer, id, address)
}

// The length of a held segment.
#[unsafe(no_mangle)]
pub extern "C" fn sc_region_get_segment_size(
    state: &mut [u32],
    memory: &mut [u32],
    answer: &mut [u32],
    id: u32,
    address: u32,
) -> u32
    ensures { Leaves (called state.old memory.old answer.old (Call.SegmentSize id address))
        state.new memory.new answer.new result }
{
    firmware::sc_region_get_segment_size(state, memory, answer, id, address)
}

// Shrinks or grows a held segment in place and serves the queue.
#[unsafe(no_mangle)]
pub extern "C" fn sc_region_resize_segment(
    state: &mut [u32],
    memory: &mut [u32],
    answer: &mut [u32],
    id: u32,
    address: u32,
    size: u32,
) -> u32
    ensures { Leaves (called state.old memory.old answer.old (Call.ResizeSegment id address size))
        state.new memory.new answer.new result }
{
    firmware::sc_region_resize_segment(state, memory, answer, id, address, size)
}

// Count, largest and total bytes of the free and of the held segments.
#[unsafe(no_mangle)]
pub extern "C" fn sc_region_get_information(
    state: &mut [u32],
    memory: &mut [u32],
    answer: &mut [u32],
    id: u32,
) -> u32
    ensures { Leaves (called state.old memory.old answer.old (Call.RegionInformation id))
        state.new memory.new answer.new result }
{
    firmware::sc_region_get_information(state, memory, answer, id)
}

// Makes a partition.
#[unsafe(no_mangle)]
pub extern "C" fn sc_partition_create(
    state: &mut [u32],
    memory: &mut [u32],
    answer: &mut [u32],
    name: u32,
    start: u32,
    length: u32,
    size: u32,
) -> u32
    ensures { Leaves (called state.old memory.old answer.old (Call.CreatePartition name start length size))
        state.new memory.new answer.new result }
{
    firmware::sc_partition_create(state, memory, answer, name, start, length, size)
}

// The id of the partition with a name.
#[unsafe(no_mangle)]
pub extern "C" fn sc_partition_ident(
    state: &mut [u32],
    memory: &mut [u32],
    answer: &mut [u32],
    name: u32,
) -> u32
    ensures { Leaves (called state.old memory.old answer.old (Call.IdentPartition name))
        state.new memory.new answer.new result }
{
    firmware::sc_partition_ident(state, memory, answer, name)
}

// Deletes a partition of which no buffer is held.
#[unsafe(no_mangle)]
pub extern "C" fn sc_partition_delete(
    state: &mut [u32],
    memory: &mut [u32],
    answer: &mut [u32],
    id: u32,
) -> u32
    ensures { Leaves (called state.old memory.old answer.old (Call.DeletePartition id))
        state.new memory.new answer.new result }
{
    firmware::sc_partition_delete(state, memory, answer, id)
}

// Gets a buffer.
#[unsafe(no_mangle)]
pub extern "C" fn sc_partition_get_buffer(
    state: &mut [u32],
    memory: &mut [u32],
    answer: &mut [u32],
    id: u32,
) -> u32
    ensures { Leaves (called state.old memory.old answer.old (Call.GetBuffer id))
        state.new memory.new answer.new result }
{
    firmware::sc_partition_get_buffer(state, memory, answer, id)
}

// Takes a held buffer back.
#[unsafe(no_mangle)]
pub extern "C" fn sc_partition_return_buffer(
    state: &mut [u32],
    memory: &mut [u32],
    answer: &mut [u32],
    id: u32,
    address: u32,
) -> u32
    ensures { Leaves (called state.old memory.old answer.old (Call.ReturnBuffer id address))
        state.new memory.new answer.new result }
{
    firmware::sc_partition_return_buffer(state, memory, answer, id, address)
}

// The clock goes on by one tick; where that sends anyone away, the queues are served.
#[unsafe(no_mangle)]
pub extern "C" fn sc_clock_tick(state: &mut [u32], memory: &mut [u32], answer: &mut [u32]) -> u32
    ensures { Leaves (called state.old memory.old answer.old Call.Tick)
        state.new memory.new answer.new result }
{
    firmware::sc_clock_tick(state, memory, answer)
}

// Copies the words of a held segment, as many as there is room for; returns how many it has, 0 where it is refused.
#[unsafe(no_mangle)]
pub extern "C" fn sc_segment_read(
    state: &[u32],
    memory: &[u32],
    words: &mut [u32],
    id: u32,
    address: u32,
) -> usize
    ensures { Reads (segment_words state.now memory.now id address) words.old words.new result }
{
    firmware::sc_segment_read(state, memory, words, id, address)
}

// Copies words into a held segment, from its word `first` on.
#[unsafe(no_mangle)]
pub extern "C" fn sc_segment_write(
    state: &[u32],
    memory: &mut [u32],
    words: &[u32],
    id: u32,
    address: u32,
    first: u32,
) -> u32
    ensures { Writes (segment_written state.now memory.old id address first words.now) memory.new result }
{
    firmware::sc_segment_write(state, memory, words, id, address, first)
}

// Reads a gauge: so many held bytes of a total.
#[unsafe(no_mangle)]
pub extern "C" fn sc_gauge_read(
    words: &mut [u64; 2],
    sounds: &mut u32,
    alarm: u32,
    limit: u64,
    high: u64,
    held: u32,
    total: u32,
) -> u32
    ensures { LeavesGauge (gauge_read words.old sounds.old alarm limit high held total)
        words.new sounds.new result }
{
    firmware::sc_gauge_read(words, sounds, alarm, limit, high, held, total)
}

// Reads a gauge by the answer to a call for a region's information.
#[unsafe(no_mangle)]
pub extern "C" fn sc_gauge_read_information(
    words: &mut [u64; 2],
    sounds: &mut u32,
    alarm: u32,
    limit: u64,
    high: u64,
    answer: &[u32],
) -> u32
    ensures { LeavesGauge (gauge_read_from words.old sounds.old alarm limit high answer.now)
        words.new sounds.new result }
{
    firmware::sc_gauge_read_information(words, sounds, alarm, limit, high, answer)
}
