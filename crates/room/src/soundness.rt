// Soundness of whole runs, as one function of the room in code.
ghost use Rattle.std.specs.Prelude.{◌≡◌};
ghost use Rattle.machine.specs.Calls.{after};
ghost use Rattle.machine.specs.Soundness.{Rising, Sound, fresh_world};
ghost use Rattle.room.specs.Rooms.{as_world, zeros};
ghost use Rattle.room.specs.Runs.{calls_of};

use crate::call::Call;
use crate::room::Room;
use disk::Disk;
use format::LogEntry;
use machine::Settings;

// Founds a room and makes a list of calls of it, one after the other, with one log list and one area. Whatever the
// settings, the disk, the list and the calls: the room that comes out is that of the rules, it is sound, and the grants
// of the run rise. What the calls answer is let go.
pub fn sound_run<D: Disk>(
    settings: Settings,
    disk: D,
    calls: &[Call],
    log: &mut [LogEntry],
    area: &mut [u8],
) -> Room<D>
    ensures world { as_world D.Disk.meaning result log.new ≡ after (fresh_world settings (D.Disk.meaning disk) log.old) (calls_of calls.now area.old) }
    ensures sound { Sound (as_world D.Disk.meaning result log.new) }
    ensures rising { Rising (fresh_world settings (D.Disk.meaning disk) log.old) }
    ensures area { area.new ≡ zeros area.old }
    ensures outside { D.Disk.outside result.disk ≡ D.Disk.outside disk }
{
    let mut room = Room::found(settings, disk);
    for call in calls {
        let _ = room.perform(*call, log, area);
    }
    area.fill(0);
    room
}
