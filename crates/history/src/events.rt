//! What happens in an epoch, entry by entry.

use crate::entries::Entries;
use raid_types::answers::Refusal;
use raid_types::sectors::Sectors;
use raid_types::status::Status;
use raid_types::wishes::Wish;

#[derive(Clone, Copy, Debug, PartialEq, Eq)]
pub enum LostCause {
    Absent,
    Recovering,
    Command,
    Fault,
}

#[derive(Clone, Copy, Debug, PartialEq, Eq)]
pub enum StepKind {
    Begun,
    Entered,
    Copied,
    Checkpointed,
    Zeroed,
    Finished,
    WindowFinished,
    ResyncStripe,
    ResyncEnded,
    RebuildTaken,
    RebuildStripe,
    RebuildEnded,
    TakenOver,
}

#[derive(Drop)]
pub enum Event {
    Read {
        at: u64,
        body: Sectors,
    },
    Wrote {
        at: u64,
        body: Sectors,
    },
    Torn {
        at: u64,
        body: Sectors,
    },
    Flushed,
    Lost {
        role: u32,
        cause: LostCause,
    },
    SpareLost {
        slot: u32,
    },
    Rebuilt {
        role: u32,
    },
    Added {
        slot: u32,
    },
    Failed {
        role: u32,
    },
    Resized {
        length: u64,
    },
    Visible {
        limit: Option<u64>,
        count: u64,
    },
    Planned {
        left: u64,
        wish: Wish,
    },
    Step {
        kind: StepKind,
        left: u64,
    },
    Stepped {
        done: u64,
        left: u64,
        ended: Option<Refusal>,
    },
    Shown {
        status: Status,
    },
    Stopped,
    Halted,
    Refused {
        refusal: Refusal,
    },
}

#[derive(Drop)]
pub struct Entry {
    pub caller: u32,
    pub number: u64,
    pub end: u64,
    pub event: Event,
}

#[derive(Drop)]
pub struct Epoch {
    pub uuid: [u8; 16],
    pub given: u32,
    pub first: u64,
    pub last: u64,
    pub entries: Entries,
}

#[derive(Drop)]
pub enum Request {
    Read { at: u64, count: u32 },
    Write { at: u64, body: Sectors },
    Flush,
    Fail { role: u32 },
    Add { slot: u32 },
    Visible { limit: Option<u64> },
    Grow { wish: Wish },
    Steps { most: u64 },
    Show,
}
