// The tests by which calls refuse, in the order of the rules.
ghost use Rattle.std.specs.Prelude.{◌≡◌, ◌<◌, not, [], ◌∷◌, length, IfOk, OnOk, int_lt, nat_lt};
ghost use Rattle.disk.specs.declared.fault.Refusal.TheVariants.{Early, HostDown, NoSuchHostOrResource, NotOpen};
ghost use Rattle.machine.specs.Room.{host_at, reading as reading_of};
ghost use Rattle.machine.specs.Outcomes.{area_test, log_test, standing as standing_tests};
ghost use Rattle.machine.specs.Steps.{issue_tests};
ghost use Rattle.machine.specs.Claiming.{check_tests, claim_tests, still_tests};
ghost use Rattle.machine.specs.Holding.{ended_tests};
ghost use Rattle.board.specs.Judging.{passed};
ghost use Rattle.board.specs.Over.{alone, alone_with};
ghost use Rattle.board.specs.Verdicts.{confirm_tests, late, verdict};

use crate::board::Board;
use crate::clock::ShownReading;
use crate::turns::{HostNumber, Turn};
use disk::{BLOCK_LENGTH, Refusal};
use format::{LeaseRecord, LogEntry, Reading};
use machine::Settings;

// The last stamp of a generation.
const LAST_STAMP: u32 = 9999;

// The last term of a resource.
const LAST_TERM: u32 = 999_999;

// The area is one block long. A caller's area is taken as it comes, so its length is no part of its type: the contracts of
// the calls state it.
pub(crate) fn whole_block(area: &[u8]) -> Result<(), Refusal>
    ensures answer { result ≡ verdict (area_test area.now ∷ []) }
    ensures long { OnOk result (length area.now ≡ 512) }
{
    if area.len() != BLOCK_LENGTH {
        return Err(Refusal::WrongLength);
    }
    Ok(())
}

impl Board {
    // The room is open.
    pub(crate) fn open_for_calls(&self) -> Result<(), Refusal>
        ensures { result ≡ verdict ((not self.now.opened, NotOpen) ∷ []) }
    {
        if !self.opened {
            return Err(Refusal::NotOpen);
        }
        Ok(())
    }

    // The room is still closed.
    pub(crate) fn closed_to_calls(&self) -> Result<(), Refusal>
        ensures { result ≡ verdict ((self.now.opened, NotOpen) ∷ []) }
    {
        if self.opened {
            return Err(Refusal::NotOpen);
        }
        Ok(())
    }

    // The host is there.
    pub(crate) fn known_host(&self, host: usize) -> Result<HostNumber, Refusal>
        ensures answer { passed result ≡ verdict ((not (nat_lt host self.now.settings.hosts), NoSuchHostOrResource) ∷ []) }
        ensures whose { IfOk result (λ h. h.number ≡ host) }
    {
        if host >= self.settings.hosts {
            return Err(Refusal::NoSuchHostOrResource);
        }
        Ok(HostNumber { number: host })
    }

    // The resource is there.
    pub(crate) fn known_resource(&self, resource: usize) -> Result<(), Refusal>
        ensures answer { result ≡ verdict ((not (nat_lt resource self.now.settings.resources), NoSuchHostOrResource) ∷ []) }
        ensures within { OnOk result (resource < 8) }
    {
        if resource >= self.settings.resources {
            return Err(Refusal::NoSuchHostOrResource);
        }
        Ok(())
    }

    // The host is up.
    pub(crate) fn host_up(&self, host: HostNumber) -> Result<(), Refusal>
        ensures { result ≡ verdict ((not (host_at (alone self.now) host.number).up, HostDown) ∷ []) }
    {
        if !self.hosts[host.number].up {
            return Err(Refusal::HostDown);
        }
        Ok(())
    }

    // The room is open, the host and the resource are there, the host is up.
    pub(crate) fn standing(&self, host: usize, resource: usize) -> Result<Turn, Refusal>
        ensures answer { passed result ≡ verdict (standing_tests (alone self.now) host resource) }
        ensures whose { IfOk result (λ x. (x.host.number ≡ host) × (x.resource ≡ resource)) }
    {
        self.open_for_calls()?;
        let host = self.known_host(host)?;
        self.known_resource(resource)?;
        self.host_up(host)?;
        Ok(Turn { host, resource })
    }

    // The area is one block long, and the host may call.
    pub(crate) fn admits(&self, host: usize, resource: usize, area: &[u8]) -> Result<Turn, Refusal>
        ensures answer { passed result ≡ verdict (area_test area.now ∷ standing_tests (alone self.now) host resource) }
        ensures whose { IfOk result (λ x. (x.host.number ≡ host) × (x.resource ≡ resource)) }
        ensures long { OnOk result (length area.now ≡ 512) }
    {
        whole_block(area)?;
        self.standing(host, resource)
    }

    // The log has a place left. By a rule of the project the log is a list that is lent with each call, so this is a fact
    // about the board and the list, which the type of neither can hold: contracts state it. Tried: a place taken by
    // `get_mut`; the proof has no name for what is then in the list after the call.
    pub(crate) fn loggable(&self, log: &[LogEntry]) -> Result<(), Refusal>
        ensures answer { result ≡ verdict (log_test (alone_with self.now log.now) ∷ []) }
        ensures place { OnOk result (self.now.logged < length log.now) }
    {
        if self.logged >= log.len() {
            return Err(Refusal::LogFull);
        }
        Ok(())
    }

    // The lease has not run out.
    pub(crate) fn in_time(&self, host: HostNumber, until: Reading) -> Result<(), Refusal>
        ensures { result ≡ verdict (late (alone self.now) host.number until.0 ∷ []) }
    {
        if self.shown(host).reading >= until {
            return Err(Refusal::Late);
        }
        Ok(())
    }

    // The clock of the host has come to this reading.
    pub(crate) fn reached(&self, host: HostNumber, reading: Reading) -> Result<(), Refusal>
        ensures { result ≡ verdict ((int_lt (reading_of (alone self.now) host.number) reading.0, Early) ∷ []) }
    {
        if self.shown(host).reading < reading {
            return Err(Refusal::Early);
        }
        Ok(())
    }

    // Another write can be put in flight.
    pub(crate) fn issuable(&self, host: HostNumber) -> Result<(), Refusal>
        ensures answer { result ≡ verdict (issue_tests (alone self.now) host.number) }
        ensures spare { OnOk result ((length (alone self.now).flights < 32) × ((host_at (alone self.now) host.number).stamp < 9999)) }
    {
        if self.flights.is_full() {
            return Err(Refusal::FlightFull);
        }
        if self.hosts[host.number].stamp >= LAST_STAMP {
            return Err(Refusal::NumberSpent);
        }
        Ok(())
    }

    // A holder can confirm.
    pub(crate) fn confirmable(
        &self,
        host: HostNumber,
        until: Reading,
        log: &[LogEntry],
    ) -> Result<(), Refusal>
        ensures answer { result ≡ verdict (confirm_tests (alone_with self.now log.now) host.number until.0) }
        ensures place { OnOk result (self.now.logged < length log.now) }
    {
        self.loggable(log)?;
        self.in_time(host, until)
    }

    // A lease or a claim has run out, and the log has a place left.
    pub(crate) fn ended(
        &self,
        host: HostNumber,
        end: Reading,
        log: &[LogEntry],
    ) -> Result<(), Refusal>
        ensures answer { result ≡ verdict (ended_tests (alone_with self.now log.now) host.number end.0) }
        ensures place { OnOk result (self.now.logged < length log.now) }
    {
        self.loggable(log)?;
        self.reached(host, end)
    }

    // A claim of this reading is neither too young to be checked nor over, and the log has a place left.
    pub(crate) fn checkable(
        &self,
        host: HostNumber,
        issued: ShownReading,
        log: &[LogEntry],
    ) -> Result<(), Refusal>
        ensures answer { result ≡ verdict (check_tests (alone_with self.now log.now) host.number issued.reading.0) }
        ensures place { OnOk result (self.now.logged < length log.now) }
    {
        self.loggable(log)?;
        let Settings { delay, lease, .. } = self.settings;
        self.reached(host, issued.later(2 * delay + 1))?;
        self.in_time(host, issued.later(lease))
    }

    // A claim above the term of this record can be put in flight.
    pub(crate) fn claimable(&self, host: HostNumber, seen: LeaseRecord) -> Result<(), Refusal>
        ensures answer { result ≡ verdict (claim_tests (alone self.now) host.number seen) }
        ensures term { OnOk result (seen.term < 999999) }
    {
        self.issuable(host)?;
        if seen.term >= LAST_TERM {
            return Err(Refusal::NumberSpent);
        }
        Ok(())
    }

    // A record that is watched since this reading has stood still for a lease.
    pub(crate) fn still(&self, host: HostNumber, since: ShownReading) -> Result<(), Refusal>
        ensures { result ≡ verdict (still_tests (alone self.now) host.number since.reading.0) }
    {
        self.reached(host, since.later(self.settings.lease))
    }
}
