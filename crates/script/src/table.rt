// The tables of scripts, rule 15.2. A new call is written here alone: its line, its keys, whether its answer has six values, and how it is
// made.
ghost use Rattle.std.specs.Prelude.{◌≡◌, map};
ghost use Rattle.script.specs.Shown.{row_by, shown};
ghost use Rattle.script.specs.Table.{calls, create_region_row, get_segment_row};

use manager::{Call, Order, Wait};

// A key, and its largest number.
pub(crate) struct Key {
    pub(crate) text: &'static [u8],
    pub(crate) most: u32,
}

const NAME: Key = Key {
    text: b"name=",
    most: u32::MAX,
};

const START: Key = Key {
    text: b"start=",
    most: u32::MAX,
};

const LENGTH: Key = Key {
    text: b"length=",
    most: u32::MAX,
};

const PAGE: Key = Key {
    text: b"page=",
    most: u32::MAX,
};

const ORDER: Key = Key {
    text: b"order=",
    most: 3,
};

const ID: Key = Key {
    text: b"id=",
    most: u32::MAX,
};

const SIZE: Key = Key {
    text: b"size=",
    most: u32::MAX,
};

const ALIGN: Key = Key {
    text: b"align=",
    most: u32::MAX,
};

const WAIT: Key = Key {
    text: b"wait=",
    most: 1,
};

const TASK: Key = Key {
    text: b"task=",
    most: u32::MAX,
};

const PRIORITY: Key = Key {
    text: b"priority=",
    most: u32::MAX,
};

const TICKS: Key = Key {
    text: b"ticks=",
    most: u32::MAX,
};

const ADDRESS: Key = Key {
    text: b"address=",
    most: u32::MAX,
};

// A call: the line that names it, its keys, whether its answer has six values, and how it is made.
pub(crate) struct Row {
    pub(crate) line: &'static [u8],
    pub(crate) keys: &'static [Key],
    pub(crate) six_values: bool,
    pub(crate) directive: Directive,
}

const ROWS: [Row; 14] = [
    Row {
        line: b"call=create-region\n",
        keys: &[NAME, START, LENGTH, PAGE, ORDER],
        six_values: false,
        directive: Directive::CreateRegion,
    },
    Row {
        line: b"call=create-partition\n",
        keys: &[NAME, START, LENGTH, SIZE],
        six_values: false,
        directive: Directive::CreatePartition,
    },
    Row {
        line: b"call=ident-region\n",
        keys: &[NAME],
        six_values: false,
        directive: Directive::IdentRegion,
    },
    Row {
        line: b"call=ident-partition\n",
        keys: &[NAME],
        six_values: false,
        directive: Directive::IdentPartition,
    },
    Row {
        line: b"call=delete-region\n",
        keys: &[ID],
        six_values: false,
        directive: Directive::DeleteRegion,
    },
    Row {
        line: b"call=delete-partition\n",
        keys: &[ID],
        six_values: false,
        directive: Directive::DeletePartition,
    },
    Row {
        line: b"call=info\n",
        keys: &[ID],
        six_values: true,
        directive: Directive::RegionInformation,
    },
    Row {
        line: b"call=get-buffer\n",
        keys: &[ID],
        six_values: false,
        directive: Directive::GetBuffer,
    },
    Row {
        line: b"call=get\n",
        keys: &[ID, SIZE, ALIGN, WAIT, TASK, PRIORITY, TICKS],
        six_values: false,
        directive: Directive::GetSegment,
    },
    Row {
        line: b"call=return\n",
        keys: &[ID, ADDRESS],
        six_values: false,
        directive: Directive::ReturnSegment,
    },
    Row {
        line: b"call=size\n",
        keys: &[ID, ADDRESS],
        six_values: false,
        directive: Directive::SegmentSize,
    },
    Row {
        line: b"call=return-buffer\n",
        keys: &[ID, ADDRESS],
        six_values: false,
        directive: Directive::ReturnBuffer,
    },
    Row {
        line: b"call=resize\n",
        keys: &[ID, ADDRESS, SIZE],
        six_values: false,
        directive: Directive::ResizeSegment,
    },
    Row {
        line: b"call=tick\n",
        keys: &[],
        six_values: false,
        directive: Directive::Tick,
    },
];

// The calls of rule 15.2. No clause can name a constant that holds references, so this function says what the table is.
pub(crate) fn rows() -> &'static [Row]
    ensures { map shown result.now ≡ calls }
{
    &ROWS
}

// How a call is made: its row names it, since functions in the table would be pointers that are handed out, which the gate refuses.
#[derive(Clone, Copy)]
pub(crate) enum Directive {
    CreateRegion,
    CreatePartition,
    IdentRegion,
    IdentPartition,
    DeleteRegion,
    DeletePartition,
    RegionInformation,
    GetBuffer,
    GetSegment,
    ReturnSegment,
    SegmentSize,
    ReturnBuffer,
    ResizeSegment,
    Tick,
}

impl Directive {
    // Its call with the numbers v of its keys.
    pub(crate) fn call(self, v: &[u32; 8]) -> Call
        ensures { result ≡ (row_by self).call v.now }
    {
        let id = v[0];
        let name = v[0];
        let address = v[1];
        match self {
            Directive::CreateRegion => create_region(v),
            Directive::CreatePartition => Call::CreatePartition {
                name,
                start: v[1],
                length: v[2],
                size: v[3],
            },
            Directive::IdentRegion => Call::IdentRegion { name },
            Directive::IdentPartition => Call::IdentPartition { name },
            Directive::DeleteRegion => Call::DeleteRegion { id },
            Directive::DeletePartition => Call::DeletePartition { id },
            Directive::RegionInformation => Call::RegionInformation { id },
            Directive::GetBuffer => Call::GetBuffer { id },
            Directive::GetSegment => get_segment(v),
            Directive::ReturnSegment => Call::ReturnSegment { id, address },
            Directive::SegmentSize => Call::SegmentSize { id, address },
            Directive::ReturnBuffer => Call::ReturnBuffer { id, address },
            Directive::ResizeSegment => Call::ResizeSegment {
                id,
                address,
                size: v[2],
            },
            Directive::Tick => Call::Tick,
        }
    }
}

fn create_region(v: &[u32; 8]) -> Call
    ensures { result ≡ create_region_row.call v.now }
{
    Call::CreateRegion {
        name: v[0],
        start: v[1],
        length: v[2],
        page: v[3],
        order: Order::try_from(v[4]).unwrap_or(Order::HalvesPriority),
    }
}

fn get_segment(v: &[u32; 8]) -> Call
    ensures { result ≡ get_segment_row.call v.now }
{
    Call::GetSegment {
        id: v[0],
        size: v[1],
        alignment: v[2],
        wait: Wait::try_from(v[3]).unwrap_or(Wait::Yes),
        task: v[4],
        priority: v[5],
        ticks: v[6],
    }
}
