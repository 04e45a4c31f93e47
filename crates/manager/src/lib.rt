// The types of the memory manager. What each directive does is said in specs/; this crate makes only the fresh record and the
// numbers of the answers and of the choices.
#![tactic(auto)]

ghost use Rattle.std.specs.Prelude.{◌≡◌};
ghost use Rattle.manager.specs.Numbers.{order_of, wait_of};
ghost use Rattle.manager.specs.Record.{fresh, emptied_region, emptied_partition};
ghost use Rattle.manager.specs.Status.{number_of};

// The discipline of a region's wait queue, by arrival or by priority, and the region's kind: of pages, or by halves.
#[derive(Clone, Copy, Default, PartialEq, Eq)]
pub enum Order {
    #[default]
    Fifo,
    Priority,
    HalvesFifo,
    HalvesPriority,
}

// Whether a get may wait.
#[derive(Clone, Copy, PartialEq, Eq)]
pub enum Wait {
    No,
    Yes,
}

// The answers (rule 2.1), under their RTEMS names. `Waiting` is the house's own: the task now waits.
#[derive(Clone, Copy, Default, PartialEq, Eq)]
pub enum Status {
    #[default]
    Successful,
    InvalidName,
    InvalidId,
    TooMany,
    Timeout,
    InvalidSize,
    InvalidAddress,
    InvalidNumber,
    NotDefined,
    ResourceInUse,
    Unsatisfied,
    IncorrectState,
    InvalidPriority,
    InternalError,
    Waiting,
}

// A number that stands for no order, or for neither choice of `Wait`.
#[derive(Clone, Copy, PartialEq, Eq)]
pub struct UnknownNumber(pub u32);

impl TryFrom<u32> for Order {
    type Error = UnknownNumber;

    ghost try_from_gives = { λ n r. r ≡ order_of n };

    fn try_from(n: u32) -> Result<Order, UnknownNumber> {
        match n {
            0 => Ok(Order::Fifo),
            1 => Ok(Order::Priority),
            2 => Ok(Order::HalvesFifo),
            3 => Ok(Order::HalvesPriority),
            _ => Err(UnknownNumber(n)),
        }
    }
}

impl TryFrom<u32> for Wait {
    type Error = UnknownNumber;

    ghost try_from_gives = { λ n r. r ≡ wait_of n };

    fn try_from(n: u32) -> Result<Wait, UnknownNumber> {
        match n {
            0 => Ok(Wait::No),
            1 => Ok(Wait::Yes),
            _ => Err(UnknownNumber(n)),
        }
    }
}

// The numbers of rule 2.1.
impl From<Status> for u32 {
    ghost from_gives = { λ s n. n ≡ number_of s };

    fn from(s: Status) -> u32 {
        match s {
            Status::Successful => 0,
            Status::InvalidName => 3,
            Status::InvalidId => 4,
            Status::TooMany => 5,
            Status::Timeout => 6,
            Status::InvalidSize => 8,
            Status::InvalidAddress => 9,
            Status::InvalidNumber => 10,
            Status::NotDefined => 11,
            Status::ResourceInUse => 12,
            Status::Unsatisfied => 13,
            Status::IncorrectState => 14,
            Status::InvalidPriority => 19,
            Status::InternalError => 25,
            Status::Waiting => 255,
        }
    }
}

// A region: its slot's generation, its area as asked for, its page size, rounded, and its order. An empty slot has name 0.
#[derive(Clone, Copy, Default, PartialEq, Eq)]
pub struct Region {
    pub name: u32,
    pub generation: u32,
    pub start: u32,
    pub length: u32,
    pub page: u32,
    pub order: Order,
}

// A partition: its slot's generation, its area as asked for, its buffer size, and the ends and the length of the chain of free buffers.
#[derive(Clone, Copy, Default, PartialEq, Eq)]
pub struct Partition {
    pub name: u32,
    pub generation: u32,
    pub start: u32,
    pub length: u32,
    pub size: u32,
    pub front: u32,
    pub rear: u32,
    pub free: u32,
}

// A task that waits for a segment of a region. An unused place has task 0.
#[derive(Clone, Copy, Default, PartialEq, Eq)]
pub struct Waiter {
    pub task: u32,
    pub region: u32,
    pub size: u32,
    pub alignment: u32,
    pub priority: u32,
    pub ticks: u32,
}

// What a waiting task is told: the segment that it now holds, or that its time ran out.
#[derive(Clone, Copy, Default, PartialEq, Eq)]
pub struct Notice {
    pub task: u32,
    pub status: Status,
    pub address: u32,
}

// Count, largest and total bytes of the free segments of a region, and of the held ones.
#[derive(Clone, Copy, Default, PartialEq, Eq)]
pub struct Information {
    pub free_count: u32,
    pub free_largest: u32,
    pub free_total: u32,
    pub held_count: u32,
    pub held_largest: u32,
    pub held_total: u32,
}

// A part of the memory: `length` bytes from `start` on.
#[derive(Clone, Copy)]
pub struct Area {
    pub start: u32,
    pub length: u32,
}

// What a search for pages looks for: so many, from a page on whose number is a multiple of `every`; from any page where that is 0.
#[derive(Clone, Copy)]
pub struct Need {
    pub pages: u64,
    pub every: u32,
}

// The manager record (the paper's desk). The queue is kept by region, and within one in the order in which it is served.
#[derive(Clone, Copy)]
pub struct Manager {
    pub regions: [Region; Manager::SLOTS],
    pub partitions: [Partition; Manager::SLOTS],
    pub waiters: [Waiter; Manager::TASKS],
}

// What a call answers, with the manager record after it.
#[derive(Clone, Copy)]
pub struct Answer {
    pub status: Status,
    pub value: u32,
    pub information: Information,
    pub notices: [Notice; Manager::TASKS],
    pub manager: Manager,
}

// A directive with its arguments, as a script has it.
#[derive(Clone, Copy)]
pub enum Call {
    CreateRegion {
        name: u32,
        start: u32,
        length: u32,
        page: u32,
        order: Order,
    },
    IdentRegion {
        name: u32,
    },
    DeleteRegion {
        id: u32,
    },
    GetSegment {
        id: u32,
        size: u32,
        alignment: u32,
        wait: Wait,
        task: u32,
        priority: u32,
        ticks: u32,
    },
    ReturnSegment {
        id: u32,
        address: u32,
    },
    SegmentSize {
        id: u32,
        address: u32,
    },
    ResizeSegment {
        id: u32,
        address: u32,
        size: u32,
    },
    RegionInformation {
        id: u32,
    },
    CreatePartition {
        name: u32,
        start: u32,
        length: u32,
        size: u32,
    },
    IdentPartition {
        name: u32,
    },
    DeletePartition {
        id: u32,
    },
    GetBuffer {
        id: u32,
    },
    ReturnBuffer {
        id: u32,
        address: u32,
    },
    Tick,
}

impl Region {
    // An empty slot of a generation.
    pub fn emptied(generation: u32) -> Region
        ensures { result ≡ emptied_region generation }
    {
        Region {
            generation,
            ..Region::default()
        }
    }
}

impl Partition {
    // An empty slot of a generation.
    pub fn emptied(generation: u32) -> Partition
        ensures { result ≡ emptied_partition generation }
    {
        Partition {
            generation,
            ..Partition::default()
        }
    }
}

impl Manager {
    // Slots for each kind of object, and tasks that may wait.
    pub const SLOTS: usize = 8;

    pub const TASKS: usize = 16;

    // Generations of a slot: one of this generation is spent.
    pub const GENERATIONS: u32 = 65536;

    // The manager with no object and no waiter.
    pub fn new() -> Manager
        ensures { result ≡ fresh }
    {
        Manager {
            regions: [Region::default(); Manager::SLOTS],
            partitions: [Partition::default(); Manager::SLOTS],
            waiters: [Waiter::default(); Manager::TASKS],
        }
    }
}
