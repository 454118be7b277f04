// One thing of a board changed, the rest left as it is.
ghost use Rattle.std.specs.Prelude.{◌≡◌, ◌<◌, ◌≤◌, true, length, IfOk, OnErr, OnOk, unsigned_abs};
ghost use Rattle.format.specs.Offsets.{near as is_near};
ghost use Rattle.machine.specs.Room.{host_at, noted};
ghost use Rattle.machine.specs.Steps.{issue_tests, issued as issued_by, lease_entry, next_mark, plain_entry};
ghost use Rattle.machine.specs.Setup.{with_offset};
ghost use Rattle.machine.specs.Hosts.{brought_up, taken_down};
ghost use Rattle.board.specs.Judging.{passed};
ghost use Rattle.board.specs.Over.{alone, alone_with};
ghost use Rattle.board.specs.Verdicts.{held_until, lease_end, renew_tests, verdict};

use crate::board::Board;
use crate::clock::ShownReading;
use crate::turns::{HostNumber, Turn};
use disk::Refusal;
use format::{Event, Kind, LeaseRecord, LogEntry, Mark, Reading, Tick};
use machine::{Flight, Host, Seat};

impl Board {
    // Puts a record in flight under the host's next stamp, and answers its mark.
    pub(crate) fn issue(&mut self, turn: Turn, kind: Kind, term: u32) -> Result<Mark, Refusal>
        ensures answer { passed result ≡ verdict (issue_tests (alone self.old) turn.host.number) }
        ensures mark { IfOk result (λ x. x ≡ next_mark (alone self.old) turn.host.number) }
        ensures kept { OnErr result (self.new ≡ self.old) }
        ensures logged { self.new.logged ≡ self.old.logged }
        ensures room { OnOk result (alone self.new ≡ issued_by (alone self.old) turn.host.number kind turn.resource term) }
    {
        self.issuable(turn.host)?;
        let host = turn.host.number;
        let Host {
            generation,
            stamp,
            ..
        } = self.hosts[host];
        let mark = Mark {
            owner: host as u8,
            generation,
            stamp: stamp + 1,
        };
        let body = LeaseRecord {
            kind,
            resource: turn.resource as u8,
            mark,
            term,
        };
        self.hosts[host].stamp = stamp + 1;
        self.flights.push(Flight {
            body,
            issued: self.tick,
        });
        Ok(mark)
    }

    // Does so for a holder, unless its lease has run out.
    pub(crate) fn issue_in_time(
        &mut self,
        turn: Turn,
        until: Reading,
        kind: Kind,
        term: u32,
    ) -> Result<Mark, Refusal>
        ensures answer { passed result ≡ verdict (renew_tests (alone self.old) turn.host.number until.0) }
        ensures mark { IfOk result (λ x. x ≡ next_mark (alone self.old) turn.host.number) }
        ensures kept { OnErr result (self.new ≡ self.old) }
        ensures logged { self.new.logged ≡ self.old.logged }
        ensures room { OnOk result (alone self.new ≡ issued_by (alone self.old) turn.host.number kind turn.resource term) }
    {
        self.in_time(turn.host, until)?;
        self.issue(turn, kind, term)
    }

    // The entry of a lease that lasts until a reading of its host, told as a tick.
    pub(crate) fn lease_entry(
        &self,
        event: Event,
        turn: Turn,
        term: u32,
        until: Reading,
    ) -> LogEntry
        requires { unsigned_abs until.0 ≤ 87459999 }
        ensures { result ≡ lease_entry (alone self.now) event turn.host.number turn.resource term until.0 }
    {
        LogEntry {
            until: until.tick(self.hosts[turn.host.number].offset),
            ..self.plain_entry(event, turn, term)
        }
    }

    // The entry of an event without an end.
    pub(crate) fn plain_entry(&self, event: Event, turn: Turn, term: u32) -> LogEntry
        ensures { result ≡ plain_entry (alone self.now) event turn.host.number turn.resource term }
    {
        LogEntry {
            tick: self.tick,
            event,
            host: turn.host.number as u8,
            resource: turn.resource as u8,
            term,
            until: Tick(0),
        }
    }

    // Writes an entry at the next place of the log.
    pub(crate) fn note(&mut self, log: &mut [LogEntry], entry: LogEntry)
        requires { self.old.logged < length log.old }
        ensures { alone_with self.new log.new ≡ noted (alone_with self.old log.old) entry }
    {
        let place = &mut log[self.logged];
        *place = entry;
        self.logged += 1;
    }

    // The seat is held for a lease from this reading on, with nothing pending, and the log says so; answers until when.
    pub(crate) fn hold(
        &mut self,
        event: Event,
        turn: Turn,
        term: u32,
        issued: ShownReading,
        log: &mut [LogEntry],
    ) -> Reading
        requires { self.old.logged < length log.old }
        ensures until { result.0 ≡ lease_end (alone self.old) issued.reading.0 }
        ensures world { alone_with self.new log.new ≡ held_until (alone_with self.old log.old) event turn.host.number turn.resource term (lease_end (alone self.old) issued.reading.0) }
    {
        let until = issued.later(self.settings.lease);
        let entry = self.lease_entry(event, turn, term, until);
        let held = Seat::Held {
            term,
            until,
            pending: None,
        };
        self.seats.put(turn, held);
        self.note(log, entry);
        until
    }

    // The host is down, and its seats are idle.
    pub(crate) fn take_down(&mut self, host: HostNumber)
        ensures logged { self.new.logged ≡ self.old.logged }
        ensures room { alone self.new ≡ taken_down (alone self.old) host.number }
    {
        self.hosts[host.number].up = false;
        self.seats.leave(host);
    }

    // The host is up in its next generation, with no stamp used.
    pub(crate) fn bring_up(&mut self, host: HostNumber)
        requires { (host_at (alone self.old) host.number).generation < 65535 }
        ensures { alone self.new ≡ brought_up (alone self.old) host.number }
    {
        let before = self.hosts[host.number];
        self.hosts[host.number] = Host {
            offset: before.offset,
            up: true,
            generation: before.generation + 1,
            stamp: 0,
        };
    }

    // The clock of the host is off by so much.
    pub(crate) fn set_offset(&mut self, host: HostNumber, offset: i32)
        requires { is_near offset ≡ true }
        ensures { alone self.new ≡ with_offset (alone self.old) host.number offset }
    {
        self.hosts[host.number].offset = offset;
    }
}
