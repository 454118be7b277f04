// What a room is made of, and what its calls answer.
use format::{LeaseRecord, Mark, Reading, Tick};

// A renewal that was issued and is not confirmed yet.
#[derive(Clone, Copy, PartialEq, Eq, Debug)]
pub struct Pending {
    pub mark: Mark,
    pub issued: Reading,
}

// A seat is where a host stands with one resource. Its times are readings of the host's own clock.
#[derive(Clone, Copy, PartialEq, Eq, Debug)]
pub enum Seat {
    Idle,
    // the host watches an owned record, to see whether it stands still for a lease
    Watching {
        seen: LeaseRecord,
        since: Reading,
    },
    // the host has issued a claim and waits to check it
    Claimed {
        mark: Mark,
        term: u32,
        issued: Reading,
    },
    // the host holds the lease, and may sign while its clock reads less than `until`
    Held {
        term: u32,
        until: Reading,
        pending: Option<Pending>,
    },
}

// A host: how far its clock is off, whether it is up, how often it has started, and the last stamp that it has used.
// No `Option` of what is up: generation and stamp are kept while it is down.
#[derive(Clone, Copy, PartialEq, Eq, Debug)]
pub struct Host {
    pub offset: i32,
    pub up: bool,
    pub generation: u16,
    pub stamp: u32,
}

// A write in flight: issued, and neither landed nor lost yet.
#[derive(Clone, Copy, PartialEq, Eq, Debug, Default)]
pub struct Flight {
    pub body: LeaseRecord,
    pub issued: Tick,
}

// What a try answers; no `Option<Mark>`: the rules name both answers, and `None` would not say that the host watches.
#[derive(Clone, Copy, PartialEq, Eq, Debug)]
pub enum Tried {
    Watching,
    Claimed(Mark),
}

// What a check answers: the lease with its term, until a reading of the host's clock, or that the claim was overwritten;
// no `Result`, since a check that answers so was not refused.
#[derive(Clone, Copy, PartialEq, Eq, Debug)]
pub enum Checked {
    Granted { term: u32, until: Reading },
    Stolen,
}

// What a confirm answers; no `Result`, since a confirm that answers `Stolen` was not refused.
#[derive(Clone, Copy, PartialEq, Eq, Debug)]
pub enum Confirmed {
    Renewed,
    Stolen,
}

// What any call answers.
#[derive(Clone, Copy, PartialEq, Eq, Debug)]
pub enum Answer {
    Done,
    Issued(Mark),
    Watching,
    Granted { term: u32, until: Reading },
    Stolen,
}
