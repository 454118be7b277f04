// The numbers that a room is founded with.
ghost use Rattle.std.specs.Prelude.{◌+◌, ◌*◌, ◌≤◌};

// Every settings value keeps the bounds.
#[derive(Clone, Copy, PartialEq, Eq, Debug)]
pub struct Settings {
    // how many hosts there are
    pub hosts: usize,
    // how many resources there are
    pub resources: usize,
    // a write lands at most so many ticks after it was issued
    pub delay: u32,
    // a lease lasts so many milliseconds
    pub lease: u32,
    ghost hosts_low: { 1 ≤ hosts },
    ghost hosts_high: { hosts ≤ 16 },
    ghost resources_low: { 1 ≤ resources },
    ghost resources_high: { resources ≤ 8 },
    ghost delay_low: { 1 ≤ delay },
    ghost delay_high: { delay ≤ 1000 },
    ghost lease_low: { 2 * delay + 2 ≤ lease },
    ghost lease_high: { lease ≤ 60000 },
}
