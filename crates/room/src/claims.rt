// Try and check: how a host comes to hold a resource.
ghost use Rattle.std.specs.Prelude.{◌≡◌, List};
ghost use Rattle.machine.specs.Claiming.{check_call, try_call};
ghost use Rattle.room.specs.Rooms.{as_world, zeros};

use crate::room::Room;
use disk::{Disk, Fault};
use format::{LogEntry, read_record};
use machine::{Checked, Tried};

impl<D: Disk> Room<D> {
    // Claims a resource that is free or whose record has stood still for a lease, and watches it otherwise.
    #[tactic(auto, using(crate::proofs::Trying::try_joined))]
    pub fn try_for(&mut self, host: usize, resource: usize, area: &mut [u8]) -> Result<Tried, Fault>
        ensures answer { (log : List LogEntry) → result ≡ (try_call (as_world D.Disk.meaning self.old log) host resource area.old).answer }
        ensures world { (log : List LogEntry) → as_world D.Disk.meaning self.new log ≡ (try_call (as_world D.Disk.meaning self.old log) host resource area.old).world }
        ensures area { area.new ≡ zeros area.old }
        ensures outside { D.Disk.outside self.new.disk ≡ D.Disk.outside self.old.disk }
    {
        // test, read, judge, as in check and confirm: two calls and two `?`, so plainer than one function that takes closures
        let tested = self.board.turn_to_try(host, resource, area);
        let turn = self.admit(tested, area)?;
        let seen = read_record(&mut self.disk, resource, area)?;
        let answer = self.board.judge_try(turn, seen);
        self.raise(answer)
    }

    // Grants a claim that stands in its block once every write that it may have crossed has landed or is lost.
    #[tactic(auto, using(board::proofs::Joined::check_joined))]
    pub fn check(
        &mut self,
        host: usize,
        resource: usize,
        log: &mut [LogEntry],
        area: &mut [u8],
    ) -> Result<Checked, Fault>
        ensures answer { result ≡ (check_call (as_world D.Disk.meaning self.old log.old) host resource area.old).answer }
        ensures world { as_world D.Disk.meaning self.new log.new ≡ (check_call (as_world D.Disk.meaning self.old log.old) host resource area.old).world }
        ensures area { area.new ≡ zeros area.old }
        ensures outside { D.Disk.outside self.new.disk ≡ D.Disk.outside self.old.disk }
    {
        let tested = self.board.claim_to_check(host, resource, log, area);
        let claim = self.admit(tested, area)?;
        let seen = read_record(&mut self.disk, resource, area)?;
        let answer = self.board.judge_claim(claim, seen, log);
        self.raise(answer)
    }
}
