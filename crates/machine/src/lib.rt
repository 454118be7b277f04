// The lease machine: its types, its rules as definitions, and the theorem that every run keeps a room sound.
#![tactic(auto)]

mod limits;
mod settings;
mod soundness;
mod told;
mod types;

pub use settings::Settings;
pub use soundness::stays_sound;
pub use types::{Answer, Checked, Confirmed, Flight, Host, Pending, Seat, Tried};
