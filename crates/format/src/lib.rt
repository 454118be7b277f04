// What is written down: the lease record, the block that holds it and records on any disk; ticks, readings and offsets;
// log entries and their lines.
#![tactic(auto)]

mod block;
mod buffer;
mod clock;
mod decimal;
mod events;
mod lease;
mod line;
mod offset;
mod store;
mod text;

pub use clock::{Reading, Tick};
pub use decimal::read_decimal;
pub use events::{Event, LogEntry};
pub use lease::{Kind, LeaseRecord, Mark};
pub use offset::{MOST_OFFSET, is_offset, print_offset, read_offset};
pub use store::{read_record, write_record};
