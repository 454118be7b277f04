// The two tallies of a block that wears out.
ghost use Rattle.std.specs.Prelude.{◌≤◌};

// A tally counts accesses of one block: the next `good` of them succeed, the `due` after those fail, and all later
// ones succeed.
#[derive(Clone, Copy, PartialEq, Eq, Debug)]
pub struct Tally {
    pub good: u16,
    pub due: u16,
    ghost good_fits: { good ≤ 65535 },
    ghost due_fits: { due ≤ 65535 },
}
