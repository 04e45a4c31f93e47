// The directives for C and Rust to call: include/steepleclay.h says how, and `firmware_c` has the symbols. The caller keeps the manager record
// as words (`state`), lends the memory, and gets the answer in words. A gauge is kept in words of its own.
// The C interface needs this form: choices are numbers, and what the caller keeps, lends and gets are words, passed one by one.
#![tactic(auto)]

mod answer;
mod call;
mod reading;

ghost use Rattle.packing.specs.Packing.{last_order, order_at};
ghost use Rattle.firmware.specs.Exported.{Leaves, Reads, Writes, called, chosen, wait_at, segment_words, segment_written};
ghost use Rattle.firmware.specs.Reading.{LeavesGauge, gauge_read, gauge_read_from};

use call::{number, run_call};
use manager::{Call, Order, Wait};
use reading::{alarm_at, gauge_at, information_at, leave};

// Makes a region.
pub fn sc_region_create(
    state: &mut [u32],
    memory: &mut [u32],
    answer: &mut [u32],
    name: u32,
    start: u32,
    length: u32,
    page: u32,
    order: u32,
) -> u32
    ensures { Leaves (chosen last_order order state.old memory.old answer.old (Call.CreateRegion name start length page (order_at order)))
        state.new memory.new answer.new result }
{
    let Ok(order) = Order::try_from(order) else {
        return number(None);
    };
    run_call(
        state,
        memory,
        answer,
        Call::CreateRegion {
            name,
            start,
            length,
            page,
            order,
        },
    )
}

// The id of the region with a name.
pub fn sc_region_ident(state: &mut [u32], memory: &mut [u32], answer: &mut [u32], name: u32) -> u32
    ensures { Leaves (called state.old memory.old answer.old (Call.IdentRegion name))
        state.new memory.new answer.new result }
{
    run_call(state, memory, answer, Call::IdentRegion { name })
}

// Deletes a region of which nothing is held.
pub fn sc_region_delete(state: &mut [u32], memory: &mut [u32], answer: &mut [u32], id: u32) -> u32
    ensures { Leaves (called state.old memory.old answer.old (Call.DeleteRegion id))
        state.new memory.new answer.new result }
{
    run_call(state, memory, answer, Call::DeleteRegion { id })
}

// Gets a segment that starts on an alignment, or waits for one.
pub fn sc_region_get_segment(
    state: &mut [u32],
    memory: &mut [u32],
    answer: &mut [u32],
    id: u32,
    size: u32,
    alignment: u32,
    wait: u32,
    task: u32,
    priority: u32,
    ticks: u32,
) -> u32
    ensures { Leaves (chosen 1 wait state.old memory.old answer.old (Call.GetSegment id size alignment (wait_at wait) task priority ticks))
        state.new memory.new answer.new result }
{
    let Ok(wait) = Wait::try_from(wait) else {
        return number(None);
    };
    run_call(
        state,
        memory,
        answer,
        Call::GetSegment {
            id,
            size,
            alignment,
            wait,
            task,
            priority,
            ticks,
        },
    )
}

// Takes a held segment back and serves the queue.
pub fn sc_region_return_segment(
    state: &mut [u32],
    memory: &mut [u32],
    answer: &mut [u32],
    id: u32,
    address: u32,
) -> u32
    ensures { Leaves (called state.old memory.old answer.old (Call.ReturnSegment id address))
        state.new memory.new answer.new result }
{
    run_call(state, memory, answer, Call::ReturnSegment { id, address })
}

// The length of a held segment.
pub fn sc_region_get_segment_size(
    state: &mut [u32],
    memory: &mut [u32],
    answer: &mut [u32],
    id: u32,
    address: u32,
) -> u32
    ensures { Leaves (called state.old memory.old answer.old (Call.SegmentSize id address))
        state.new memory.new answer.new result }
{
    run_call(state, memory, answer, Call::SegmentSize { id, address })
}

// Shrinks or grows a held segment in place and serves the queue.
pub fn sc_region_resize_segment(
    state: &mut [u32],
    memory: &mut [u32],
    answer: &mut [u32],
    id: u32,
    address: u32,
    size: u32,
) -> u32
    ensures { Leaves (called state.old memory.old answer.old (Call.ResizeSegment id address size))
        state.new memory.new answer.new result }
{
    run_call(
        state,
        memory,
        answer,
        Call::ResizeSegment { id, address, size },
    )
}

// Count, largest and total bytes of the free and of the held segments.
pub fn sc_region_get_information(
    state: &mut [u32],
    memory: &mut [u32],
    answer: &mut [u32],
    id: u32,
) -> u32
    ensures { Leaves (called state.old memory.old answer.old (Call.RegionInformation id))
        state.new memory.new answer.new result }
{
    run_call(state, memory, answer, Call::RegionInformation { id })
}

// Makes a partition.
pub fn sc_partition_create(
    state: &mut [u32],
    memory: &mut [u32],
    answer: &mut [u32],
    name: u32,
    start: u32,
    length: u32,
    size: u32,
) -> u32
    ensures { Leaves (called state.old memory.old answer.old (Call.CreatePartition name start length size))
        state.new memory.new answer.new result }
{
    run_call(
        state,
        memory,
        answer,
        Call::CreatePartition {
            name,
            start,
            length,
            size,
        },
    )
}

// The id of the partition with a name.
pub fn sc_partition_ident(
    state: &mut [u32],
    memory: &mut [u32],
    answer: &mut [u32],
    name: u32,
) -> u32
    ensures { Leaves (called state.old memory.old answer.old (Call.IdentPartition name))
        state.new memory.new answer.new result }
{
    run_call(state, memory, answer, Call::IdentPartition { name })
}

// Deletes a partition of which no buffer is held.
pub fn sc_partition_delete(
    state: &mut [u32],
    memory: &mut [u32],
    answer: &mut [u32],
    id: u32,
) -> u32
    ensures { Leaves (called state.old memory.old answer.old (Call.DeletePartition id))
        state.new memory.new answer.new result }
{
    run_call(state, memory, answer, Call::DeletePartition { id })
}

// Gets a buffer.
pub fn sc_partition_get_buffer(
    state: &mut [u32],
    memory: &mut [u32],
    answer: &mut [u32],
    id: u32,
) -> u32
    ensures { Leaves (called state.old memory.old answer.old (Call.GetBuffer id))
        state.new memory.new answer.new result }
{
    run_call(state, memory, answer, Call::GetBuffer { id })
}

// Takes a held buffer back.
pub fn sc_partition_return_buffer(
    state: &mut [u32],
    memory: &mut [u32],
    answer: &mut [u32],
    id: u32,
    address: u32,
) -> u32
    ensures { Leaves (called state.old memory.old answer.old (Call.ReturnBuffer id address))
        state.new memory.new answer.new result }
{
    run_call(state, memory, answer, Call::ReturnBuffer { id, address })
}

// The clock goes on by one tick; where that sends anyone away, the queues are served.
pub fn sc_clock_tick(state: &mut [u32], memory: &mut [u32], answer: &mut [u32]) -> u32
    ensures { Leaves (called state.old memory.old answer.old Call.Tick)
        state.new memory.new answer.new result }
{
    run_call(state, memory, answer, Call::Tick)
}

// Copies the words of a held segment, as many as there is room for; returns how many it has, 0 where it is refused.
pub fn sc_segment_read(
    state: &[u32],
    memory: &[u32],
    words: &mut [u32],
    id: u32,
    address: u32,
) -> usize
    ensures { Reads (segment_words state.now memory.now id address) words.old words.new result }
{
    let Some(manager) = packing::unpack(state) else {
        return 0;
    };
    let part = access::read_segment(memory, manager, id, address);
    access::copy(words, part);
    part.len()
}

// Copies words into a held segment, from its word `first` on.
pub fn sc_segment_write(
    state: &[u32],
    memory: &mut [u32],
    words: &[u32],
    id: u32,
    address: u32,
    first: u32,
) -> u32
    ensures { Writes (segment_written state.now memory.old id address first words.now) memory.new result }
{
    let Some(manager) = packing::unpack(state) else {
        return number(None);
    };
    number(Some(access::write_segment(memory, manager, id, address, first, words).status))
}

// Reads a gauge: so many held bytes of a total.
pub fn sc_gauge_read(
    words: &mut [u64; 2],
    sounds: &mut u32,
    alarm: u32,
    limit: u64,
    high: u64,
    held: u32,
    total: u32,
) -> u32
    ensures { LeavesGauge (gauge_read words.old sounds.old alarm limit high held total)
        words.new sounds.new result }
{
    let Some(alarm) = alarm_at(alarm, limit, high) else {
        return number(None);
    };
    let given = gauge::read(gauge_at(words), alarm, held, total);
    leave(words, sounds, given)
}

// Reads a gauge by the answer to a call for a region's information.
pub fn sc_gauge_read_information(
    words: &mut [u64; 2],
    sounds: &mut u32,
    alarm: u32,
    limit: u64,
    high: u64,
    answer: &[u32],
) -> u32
    ensures { LeavesGauge (gauge_read_from words.old sounds.old alarm limit high answer.now)
        words.new sounds.new result }
{
    let Some(alarm) = alarm_at(alarm, limit, high) else {
        return number(None);
    };
    let Some(information) = information_at(answer) else {
        return number(None);
    };
    let given = gauge::read_information(gauge_at(words), alarm, information);
    leave(words, sounds, given)
}
