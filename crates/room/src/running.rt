// Any call, given as data.
ghost use Rattle.std.specs.Prelude.{◌≡◌};
ghost use Rattle.machine.specs.Calls.{perform as performed_by};
ghost use Rattle.room.specs.Rooms.{as_world, zeros};
ghost use Rattle.room.specs.Runs.{StaysSoundBy, call_of};

use crate::call::Call;
use crate::room::Room;
use disk::{Disk, Fault};
use format::LogEntry;
use machine::Answer;

impl<D: Disk> Room<D> {
    // Makes a call. What is to be done comes from outside as data, so it is chosen by a `match`.
    fn make(&mut self, call: Call, log: &mut [LogEntry], area: &mut [u8]) -> Result<Answer, Fault>
        ensures answer { result ≡ (performed_by (call_of call area.old) (as_world D.Disk.meaning self.old log.old)).answer }
        ensures world { as_world D.Disk.meaning self.new log.new ≡ (performed_by (call_of call area.old) (as_world D.Disk.meaning self.old log.old)).world }
        ensures outside { D.Disk.outside self.new.disk ≡ D.Disk.outside self.old.disk }
    {
        match call {
            Call::SetClock { host, offset } => self.set_clock(host, offset).map(Answer::from),
            Call::Open => self.open(area).map(Answer::from),
            Call::Tick => self.tick().map(Answer::from),
            Call::Try { host, resource } => self.try_for(host, resource, area).map(Answer::from),
            Call::Check { host, resource } => {
                self.check(host, resource, log, area).map(Answer::from)
            }
            Call::Renew { host, resource } => self.renew(host, resource).map(Answer::from),
            Call::Confirm { host, resource } => {
                self.confirm(host, resource, log, area).map(Answer::from)
            }
            Call::Release { host, resource } => self.release(host, resource, log).map(Answer::from),
            Call::Watch { host, resource } => self.watch(host, resource, log).map(Answer::from),
            Call::Land(name) => self.land(name, area).map(Answer::from),
            Call::Lose(name) => self.lose(name).map(Answer::from),
            Call::Spoil { resource } => self.spoil(resource, area).map(Answer::from),
            Call::Crash { host } => self.crash(host, log).map(Answer::from),
            Call::Restart { host } => self.restart(host).map(Answer::from),
        }
    }

    // Makes any call. A room that calls have made of a newly founded one is sound, and stays so.
    pub fn perform(
        &mut self,
        call: Call,
        log: &mut [LogEntry],
        area: &mut [u8],
    ) -> Result<Answer, Fault>
        ensures answer { result ≡ (performed_by (call_of call area.old) (as_world D.Disk.meaning self.old log.old)).answer }
        ensures world { as_world D.Disk.meaning self.new log.new ≡ (performed_by (call_of call area.old) (as_world D.Disk.meaning self.old log.old)).world }
        ensures area { area.new ≡ zeros area.old }
        ensures outside { D.Disk.outside self.new.disk ≡ D.Disk.outside self.old.disk }
        ensures sound { StaysSoundBy (call_of call area.old) (as_world D.Disk.meaning self.old log.old) (as_world D.Disk.meaning self.new log.new) }
    {
        let answer = self.make(call, log, area);
        area.fill(0);
        answer
    }
}
