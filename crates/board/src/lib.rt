// The board of a room: all that a room remembers besides its disk, and every call as far as it does without one.
#![tactic(auto)]

mod accessors;
mod board;
mod changes;
mod claims;
mod clock;
mod flights;
mod founding;
mod holding;
mod hosts;
mod naming;
mod refusals;
mod seats;
mod setup;
mod turns;
mod writes;

pub use board::Board;
pub use naming::WriteName;
pub use turns::{ClaimToCheck, RenewalToConfirm, Turn};
