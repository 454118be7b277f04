// The room: hosts that share a disk, and for each resource at most one of them that holds the lease.
use board::Board;

// A room is its disk, and the board with all else that it remembers.
#[derive(Drop)]
pub struct Room<D> {
    pub(crate) disk: D,
    pub(crate) board: Board,
}
