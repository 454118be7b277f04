// Try and check: how a host comes to hold a resource.
ghost use Rattle.std.specs.Prelude.{◌≡◌, ◌<◌, List, [], length, IfOk, Ok, OnOk};
ghost use Rattle.disk.specs.Model.{DiskModel};
ghost use Rattle.machine.specs.Claiming.{claiming, granted, tried as tried_of, try_tests, watching as watching_from};
ghost use Rattle.board.specs.Judging.{claim_of, judged_claim, passed, told};
ghost use Rattle.board.specs.Over.{alone, alone_with, over, world_over};
ghost use Rattle.board.specs.Verdicts.{claim_to_check, raised, verdict};

use crate::board::Board;
use crate::clock::ShownReading;
use crate::turns::{ClaimToCheck, Turn};
use disk::Refusal;
use format::{Event, Kind, LeaseRecord, LogEntry};
use machine::{Checked, Seat, Tried};

impl Board {
    // The turn of a host that tries for a resource, unless the call refuses before it reads the block.
    pub fn turn_to_try(&self, host: usize, resource: usize, area: &[u8]) -> Result<Turn, Refusal>
        ensures answer { passed result ≡ verdict (try_tests (alone self.now) host resource area.now) }
        ensures whose { IfOk result (λ x. (x.host.number ≡ host) × (x.resource ≡ resource)) }
        ensures long { OnOk result (length area.now ≡ 512) }
    {
        let turn = self.admits(host, resource, area)?;
        match self.seats.at(turn) {
            Seat::Idle | Seat::Watching { .. } => Ok(turn),
            _ => Err(Refusal::WrongSeat),
        }
    }

    // Issues an owned record of the next term; the seat is claimed.
    fn claim(&mut self, turn: Turn, seen: LeaseRecord) -> Result<Tried, Refusal>
        ensures answer { (d : DiskModel) (log : List LogEntry) → raised (over d self.old) result ≡ (claiming (world_over d self.old log) turn.host.number turn.resource seen).answer }
        ensures world { (d : DiskModel) (log : List LogEntry) → world_over d self.new log ≡ (claiming (world_over d self.old log) turn.host.number turn.resource seen).world }
    {
        self.claimable(turn.host, seen)?;
        let issued = self.shown(turn.host).reading;
        let term = seen.term + 1;
        // not refused here: `claimable` has made these tests, since the term is tested behind them
        let mark = self.issue(turn, Kind::Owned, term)?;
        self.seats.put(turn, Seat::Claimed { mark, term, issued });
        Ok(Tried::Claimed(mark))
    }

    // The seat watches a record from now on.
    fn watch_record(&mut self, turn: Turn, seen: LeaseRecord) -> Tried
        ensures answer { Ok result ≡ (watching_from (alone_with self.old []) turn.host.number turn.resource seen).answer }
        ensures room { alone self.new ≡ (watching_from (alone_with self.old []) turn.host.number turn.resource seen).world.room }
    {
        let since = self.shown(turn.host).reading;
        self.seats.put(turn, Seat::Watching { seen, since });
        Tried::Watching
    }

    // Claims what is free or has stood still for a lease, and watches anything else.
    pub fn judge_try(&mut self, turn: Turn, seen: LeaseRecord) -> Result<Tried, Refusal>
        ensures answer { (d : DiskModel) (log : List LogEntry) → raised (over d self.old) result ≡ (tried_of turn.host.number turn.resource (world_over d self.old log) seen).answer }
        ensures world { (d : DiskModel) (log : List LogEntry) → world_over d self.new log ≡ (tried_of turn.host.number turn.resource (world_over d self.old log) seen).world }
    {
        if seen.kind == Kind::Free {
            return self.claim(turn, seen);
        }
        let Seat::Watching {
            seen: watched,
            since,
        } = self.seats.at(turn)
        else {
            return Ok(self.watch_record(turn, seen));
        };
        if seen != watched {
            return Ok(self.watch_record(turn, seen));
        }
        self.still(turn.host, ShownReading { reading: since })?;
        self.claim(turn, seen)
    }

    // The claim that is to be checked, unless the call refuses before it reads the block.
    pub fn claim_to_check(
        &self,
        host: usize,
        resource: usize,
        log: &[LogEntry],
        area: &[u8],
    ) -> Result<ClaimToCheck, Refusal>
        ensures answer { told claim_of result ≡ claim_to_check (alone_with self.now log.now) host resource area.now }
        ensures whose { IfOk result (λ x. (x.turn.host.number ≡ host) × (x.turn.resource ≡ resource)) }
        ensures long { OnOk result (length area.now ≡ 512) }
        ensures place { OnOk result (self.now.logged < length log.now) }
    {
        let turn = self.admits(host, resource, area)?;
        let Seat::Claimed { mark, term, issued } = self.seats.at(turn) else {
            return Err(Refusal::WrongSeat);
        };
        let issued = ShownReading { reading: issued };
        self.checkable(turn.host, issued, log)?;
        Ok(ClaimToCheck {
            turn,
            mark,
            term,
            issued,
        })
    }

    // The claim becomes a lease, and the log says so.
    fn grant(&mut self, claim: ClaimToCheck, log: &mut [LogEntry]) -> Checked
        requires { self.old.logged < length log.old }
        ensures answer { Ok result ≡ (granted (alone_with self.old log.old) claim.turn.host.number claim.turn.resource (claim_of claim)).answer }
        ensures world { alone_with self.new log.new ≡ (granted (alone_with self.old log.old) claim.turn.host.number claim.turn.resource (claim_of claim)).world }
    {
        let ClaimToCheck {
            turn,
            term,
            issued,
            ..
        } = claim;
        let until = self.hold(Event::Granted, turn, term, issued, log);
        Checked::Granted { term, until }
    }

    // Grants a claim if the record is the claim itself, and gives it up if it is not.
    pub fn judge_claim(
        &mut self,
        claim: ClaimToCheck,
        seen: LeaseRecord,
        log: &mut [LogEntry],
    ) -> Result<Checked, Refusal>
        ensures answer { (d : DiskModel) → raised (over d self.old) result ≡ (judged_claim claim (world_over d self.old log.old) seen).answer }
        ensures world { (d : DiskModel) → world_over d self.new log.new ≡ (judged_claim claim (world_over d self.old log.old) seen).world }
    {
        self.loggable(log)?;
        let claimed = LeaseRecord {
            kind: Kind::Owned,
            resource: claim.turn.resource as u8,
            mark: claim.mark,
            term: claim.term,
        };
        if seen != claimed {
            self.seats.put(claim.turn, Seat::Idle);
            return Ok(Checked::Stolen);
        }
        Ok(self.grant(claim, log))
    }
}
