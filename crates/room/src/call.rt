// Calls as data.
use board::WriteName;

// A call of the room with the numbers that it takes. These may be any, since the call tests and refuses them: so there is
// no type for a host with a resource. The log list and the area are lent with each call, and so are passed beside it.
#[derive(Clone, Copy, PartialEq, Eq, Debug)]
pub enum Call {
    SetClock { host: usize, offset: i32 },
    Open,
    Tick,
    Try { host: usize, resource: usize },
    Check { host: usize, resource: usize },
    Renew { host: usize, resource: usize },
    Confirm { host: usize, resource: usize },
    Release { host: usize, resource: usize },
    Watch { host: usize, resource: usize },
    Land(WriteName),
    Lose(WriteName),
    Spoil { resource: usize },
    Crash { host: usize },
    Restart { host: usize },
}
