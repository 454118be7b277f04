// A lease room over any disk: every call of the rules, with its disk inside.
#![tactic(auto)]

mod accessors;
mod call;
mod claims;
mod holding;
mod hosts;
mod raising;
mod room;
mod running;
mod setup;
mod soundness;
mod writes;

pub use call::Call;
pub use room::Room;
pub use soundness::sound_run;
