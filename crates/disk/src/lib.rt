// Disks that are known by their blocks: images in memory, layers over any disk, the refusals that every part of the
// lease manager answers with, and the guard that zeroes a lent area.
#![tactic(auto, using(crate::proofs::Disks::disks))]

mod device;
mod fault;
mod guard;
mod plain;
mod retry;
mod span;
mod tally;
mod tired;

pub use device::{BLOCK_LENGTH, Disk, MOST_BLOCKS};
pub use fault::{Fault, Refusal};
pub use guard::AreaGuard;
pub use plain::PlainImage;
pub use retry::Retry;
pub use span::Span;
pub use tally::Tally;
pub use tired::TiredImage;
