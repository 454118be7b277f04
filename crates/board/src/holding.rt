// What a holder asks of the room: renew, confirm, release, watch, sign.
ghost use Rattle.std.specs.Prelude.{◌≡◌, ◌<◌, List, length, IfOk, OnOk};
ghost use Rattle.disk.specs.Model.{DiskModel};
ghost use Rattle.machine.specs.Holding.{is_own, release_call, renew_call, watch_call};
ghost use Rattle.board.specs.Judging.{judged_renewal, renewal_of, told};
ghost use Rattle.board.specs.Over.{alone, alone_with, over, world_over};
ghost use Rattle.board.specs.Verdicts.{extended, raised, renewal_to_confirm, term_to_sign};

use crate::board::Board;
use crate::clock::ShownReading;
use crate::turns::{HostNumber, RenewalToConfirm};
use disk::Refusal;
use format::{Event, Kind, LeaseRecord, LogEntry, Mark};
use machine::{Confirmed, Pending, Seat};

impl Board {
    // Issues the record of a held seat under a new stamp, and answers its mark, which is pending now.
    pub fn renew(&mut self, host: usize, resource: usize) -> Result<Mark, Refusal>
        ensures answer { (d : DiskModel) (log : List LogEntry) → raised (over d self.old) result ≡ (renew_call (world_over d self.old log) host resource).answer }
        ensures world { (d : DiskModel) (log : List LogEntry) → world_over d self.new log ≡ (renew_call (world_over d self.old log) host resource).world }
    {
        let turn = self.standing(host, resource)?;
        // the pattern stands in each call that needs a held seat: a shared function would answer a tuple of its fields, and
        // its contract would take the seat apart once more
        let Seat::Held { term, until, .. } = self.seats.at(turn) else {
            return Err(Refusal::WrongSeat);
        };
        let issued = self.shown(turn.host).reading;
        let mark = self.issue_in_time(turn, until, Kind::Owned, term)?;
        let pending = Some(Pending { mark, issued });
        let renewed = Seat::Held {
            term,
            until,
            pending,
        };
        self.seats.put(turn, renewed);
        Ok(mark)
    }

    // The renewal that is to be confirmed, unless the call refuses before it reads the block.
    pub fn renewal_to_confirm(
        &self,
        host: usize,
        resource: usize,
        log: &[LogEntry],
        area: &[u8],
    ) -> Result<RenewalToConfirm, Refusal>
        ensures answer { told renewal_of result ≡ renewal_to_confirm (alone_with self.now log.now) host resource area.now }
        ensures whose { IfOk result (λ x. (x.turn.host.number ≡ host) × (x.turn.resource ≡ resource)) }
        ensures long { OnOk result (length area.now ≡ 512) }
        ensures place { OnOk result (self.now.logged < length log.now) }
    {
        let turn = self.admits(host, resource, area)?;
        let Seat::Held {
            term,
            until,
            pending: Some(pending),
        } = self.seats.at(turn)
        else {
            return Err(Refusal::WrongSeat);
        };
        self.confirmable(turn.host, until, log)?;
        Ok(RenewalToConfirm {
            turn,
            term,
            mark: pending.mark,
            issued: ShownReading {
                reading: pending.issued,
            },
        })
    }

    // The lease ends later, nothing is pending, and the log says so.
    fn extend(&mut self, renewal: RenewalToConfirm, log: &mut [LogEntry])
        requires { self.old.logged < length log.old }
        ensures { alone_with self.new log.new ≡ (extended (alone_with self.old log.old) renewal.turn.host.number renewal.turn.resource (renewal_of renewal)).world }
    {
        let RenewalToConfirm {
            turn,
            term,
            issued,
            ..
        } = renewal;
        self.hold(Event::Renewed, turn, term, issued, log);
    }

    // Whether a record is one of this host's, in its present generation.
    fn is_own(&self, host: HostNumber, seen: LeaseRecord) -> bool
        ensures { result ≡ is_own (alone self.now) host.number seen }
    {
        seen.kind == Kind::Owned
            && usize::from(seen.mark.owner) == host.number
            && seen.mark.generation == self.hosts[host.number].generation
    }

    // Extends the lease if the record has the pending mark, refuses if it is an older one of the host's, and gives the
    // lease up if it is another's.
    pub fn judge_renewal(
        &mut self,
        renewal: RenewalToConfirm,
        seen: LeaseRecord,
        log: &mut [LogEntry],
    ) -> Result<Confirmed, Refusal>
        ensures answer { (d : DiskModel) → raised (over d self.old) result ≡ (judged_renewal renewal (world_over d self.old log.old) seen).answer }
        ensures world { (d : DiskModel) → world_over d self.new log.new ≡ (judged_renewal renewal (world_over d self.old log.old) seen).world }
    {
        self.loggable(log)?;
        if seen.mark == renewal.mark {
            self.extend(renewal, log);
            return Ok(Confirmed::Renewed);
        }
        if self.is_own(renewal.turn.host, seen) {
            return Err(Refusal::NotLanded);
        }
        self.seats.put(renewal.turn, Seat::Idle);
        Ok(Confirmed::Stolen)
    }

    // Gives a held seat up by a free record of the same term, and answers its mark.
    pub fn release(
        &mut self,
        host: usize,
        resource: usize,
        log: &mut [LogEntry],
    ) -> Result<Mark, Refusal>
        ensures answer { (d : DiskModel) → raised (over d self.old) result ≡ (release_call (world_over d self.old log.old) host resource).answer }
        ensures world { (d : DiskModel) → world_over d self.new log.new ≡ (release_call (world_over d self.old log.old) host resource).world }
    {
        let turn = self.standing(host, resource)?;
        let Seat::Held { term, until, .. } = self.seats.at(turn) else {
            return Err(Refusal::WrongSeat);
        };
        self.loggable(log)?;
        let entry = self.plain_entry(Event::Released, turn, term);
        let mark = self.issue_in_time(turn, until, Kind::Free, term)?;
        self.seats.put(turn, Seat::Idle);
        self.note(log, entry);
        Ok(mark)
    }

    // Leaves a seat whose lease or claim has run out.
    pub fn watch(
        &mut self,
        host: usize,
        resource: usize,
        log: &mut [LogEntry],
    ) -> Result<(), Refusal>
        ensures answer { (d : DiskModel) → raised (over d self.old) result ≡ (watch_call (world_over d self.old log.old) host resource).answer }
        ensures world { (d : DiskModel) → world_over d self.new log.new ≡ (watch_call (world_over d self.old log.old) host resource).world }
    {
        let turn = self.standing(host, resource)?;
        match self.seats.at(turn) {
            Seat::Held { term, until, .. } => {
                self.ended(turn.host, until, log)?;
                let entry = self.plain_entry(Event::Expired, turn, term);
                self.seats.put(turn, Seat::Idle);
                self.note(log, entry);
            }
            Seat::Claimed { issued, .. } => {
                let issued = ShownReading { reading: issued };
                let end = issued.later(self.settings.lease);
                self.ended(turn.host, end, log)?;
                self.seats.put(turn, Seat::Idle);
            }
            _ => return Err(Refusal::WrongSeat),
        }
        Ok(())
    }

    // The term that a holder signs with.
    pub fn sign(&self, host: usize, resource: usize) -> Result<u32, Refusal>
        ensures { result ≡ term_to_sign (alone self.now) host resource }
    {
        let turn = self.standing(host, resource)?;
        let Seat::Held { term, until, .. } = self.seats.at(turn) else {
            return Err(Refusal::WrongSeat);
        };
        self.in_time(turn.host, until)?;
        Ok(term)
    }
}
