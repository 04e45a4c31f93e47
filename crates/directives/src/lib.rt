// One call, whichever it is. Each arm hands on other arguments: functions in a table would all have to take the same.
#![tactic(auto)]

ghost use Rattle.manager.specs.Result.{Performs};
ghost use Rattle.manager.specs.Perform.{perform as Perform·perform};

use manager::{Answer, Call, Manager};

#[tactic(auto, unfolding(manager::specs::Perform::perform))]
pub fn perform(mem: &mut [u32], d: Manager, call: Call) -> Answer
    ensures { Performs (Perform·perform mem.old d call) mem.new result }
{
    match call {
        Call::CreateRegion {
            name,
            start,
            length,
            page,
            order,
        } => regions::create_region(mem, d, name, start, length, page, order),
        Call::IdentRegion { name } => regions::ident_region(mem, d, name),
        Call::DeleteRegion { id } => regions::delete_region(mem, d, id),
        Call::GetSegment {
            id,
            size,
            alignment,
            wait,
            task,
            priority,
            ticks,
        } => segments::get_segment(mem, d, id, size, alignment, wait, task, priority, ticks),
        Call::ReturnSegment { id, address } => segments::return_segment(mem, d, id, address),
        Call::SegmentSize { id, address } => segments::segment_size(mem, d, id, address),
        Call::ResizeSegment { id, address, size } => {
            segments::resize_segment(mem, d, id, address, size)
        }
        Call::RegionInformation { id } => regions::region_information(mem, d, id),
        Call::CreatePartition {
            name,
            start,
            length,
            size,
        } => partitions::create_partition(mem, d, name, start, length, size),
        Call::IdentPartition { name } => partitions::ident_partition(mem, d, name),
        Call::DeletePartition { id } => partitions::delete_partition(mem, d, id),
        Call::GetBuffer { id } => partitions::get_buffer(mem, d, id),
        Call::ReturnBuffer { id, address } => partitions::return_buffer(mem, d, id, address),
        Call::Tick => segments::tick(mem, d),
    }
}
