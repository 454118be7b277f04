// Entries of the log: what happened to a lease, and when.
use crate::clock::Tick;

#[derive(Clone, Copy, PartialEq, Eq, Debug)]
pub enum Event {
    Granted,
    Renewed,
    Released,
    Expired,
    Crashed,
}

// The resource and term of a crash are 0, and so is `until` unless the lease was granted or renewed. The fields are plain
// numbers, since callers may fill them with any; `is_printable` says whether they make an entry.
#[derive(Clone, Copy, PartialEq, Eq, Debug)]
pub struct LogEntry {
    pub tick: Tick,
    pub event: Event,
    pub host: u8,
    pub resource: u8,
    pub term: u32,
    pub until: Tick,
}
