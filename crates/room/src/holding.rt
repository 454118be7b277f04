// What a holder asks of the room: renew, confirm, release, watch, sign.
ghost use Rattle.std.specs.Prelude.{◌≡◌, List};
ghost use Rattle.machine.specs.Holding.{confirm_call, release_call, renew_call, sign_call, watch_call};
ghost use Rattle.room.specs.Rooms.{as_room, as_world, zeros};

use crate::room::Room;
use disk::{Disk, Fault};
use format::{LogEntry, Mark, read_record};
use machine::Confirmed;

impl<D: Disk> Room<D> {
    // Asks for a longer lease: issues the holder's record under a new stamp and answers its mark, which is pending now.
    pub fn renew(&mut self, host: usize, resource: usize) -> Result<Mark, Fault>
        ensures answer { (log : List LogEntry) → result ≡ (renew_call (as_world D.Disk.meaning self.old log) host resource).answer }
        ensures world { (log : List LogEntry) → as_world D.Disk.meaning self.new log ≡ (renew_call (as_world D.Disk.meaning self.old log) host resource).world }
        ensures outside { D.Disk.outside self.new.disk ≡ D.Disk.outside self.old.disk }
    {
        let answer = self.board.renew(host, resource);
        self.raise(answer)
    }

    // Makes the lease longer if the pending renewal stands in its block.
    #[tactic(auto, using(board::proofs::Joined::confirm_joined))]
    pub fn confirm(
        &mut self,
        host: usize,
        resource: usize,
        log: &mut [LogEntry],
        area: &mut [u8],
    ) -> Result<Confirmed, Fault>
        ensures answer { result ≡ (confirm_call (as_world D.Disk.meaning self.old log.old) host resource area.old).answer }
        ensures world { as_world D.Disk.meaning self.new log.new ≡ (confirm_call (as_world D.Disk.meaning self.old log.old) host resource area.old).world }
        ensures area { area.new ≡ zeros area.old }
        ensures outside { D.Disk.outside self.new.disk ≡ D.Disk.outside self.old.disk }
    {
        let tested = self.board.renewal_to_confirm(host, resource, log, area);
        let renewal = self.admit(tested, area)?;
        let seen = read_record(&mut self.disk, resource, area)?;
        let answer = self.board.judge_renewal(renewal, seen, log);
        self.raise(answer)
    }

    // Gives a lease up by a free record of its term, and answers the record's mark.
    pub fn release(
        &mut self,
        host: usize,
        resource: usize,
        log: &mut [LogEntry],
    ) -> Result<Mark, Fault>
        ensures answer { result ≡ (release_call (as_world D.Disk.meaning self.old log.old) host resource).answer }
        ensures world { as_world D.Disk.meaning self.new log.new ≡ (release_call (as_world D.Disk.meaning self.old log.old) host resource).world }
        ensures outside { D.Disk.outside self.new.disk ≡ D.Disk.outside self.old.disk }
    {
        let answer = self.board.release(host, resource, log);
        self.raise(answer)
    }

    // Leaves a seat whose lease or claim has run out.
    pub fn watch(&mut self, host: usize, resource: usize, log: &mut [LogEntry]) -> Result<(), Fault>
        ensures answer { result ≡ (watch_call (as_world D.Disk.meaning self.old log.old) host resource).answer }
        ensures world { as_world D.Disk.meaning self.new log.new ≡ (watch_call (as_world D.Disk.meaning self.old log.old) host resource).world }
        ensures outside { D.Disk.outside self.new.disk ≡ D.Disk.outside self.old.disk }
    {
        let answer = self.board.watch(host, resource, log);
        self.raise(answer)
    }

    // The term that a holder signs with. It changes nothing.
    pub fn sign(&self, host: usize, resource: usize) -> Result<u32, Fault>
        ensures { result ≡ sign_call (as_room D.Disk.meaning self.now) host resource }
    {
        let answer = self.board.sign(host, resource);
        self.raise(answer)
    }
}
