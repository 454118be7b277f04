// What a call keeps of the numbers that it tested, and between its tests and the record that it reads.
ghost use Rattle.std.specs.Prelude.{◌<◌};

use crate::clock::ShownReading;
use format::Mark;

// The number of a host that is there.
#[derive(Clone, Copy, PartialEq, Eq, Debug)]
pub struct HostNumber {
    pub(crate) number: usize,
    ghost there: { number < 16 },
}

// A host at its seat for a resource, both of them there.
#[derive(Clone, Copy, PartialEq, Eq, Debug)]
pub struct Turn {
    pub(crate) host: HostNumber,
    pub(crate) resource: usize,
    ghost resource_there: { resource < 8 },
}

// A claim that may be judged by the record in the block of its resource.
#[derive(Clone, Copy, PartialEq, Eq, Debug)]
pub struct ClaimToCheck {
    pub(crate) turn: Turn,
    pub(crate) mark: Mark,
    pub(crate) term: u32,
    pub(crate) issued: ShownReading,
}

// A pending renewal that may be judged by the record in the block of its resource. A type of its own, though its fields
// are those of a claim: so a claim cannot be confirmed, nor a renewal checked.
#[derive(Clone, Copy, PartialEq, Eq, Debug)]
pub struct RenewalToConfirm {
    pub(crate) turn: Turn,
    pub(crate) term: u32,
    pub(crate) mark: Mark,
    pub(crate) issued: ShownReading,
}
