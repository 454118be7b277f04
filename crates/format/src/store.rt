// Lease records on any disk: the record of a resource lies in the block of that number.
ghost use Rattle.std.specs.Prelude.{◌≡◌, length, replicate, Ok};
ghost use Rattle.disk.specs.Model.{after_read};
ghost use Rattle.format.specs.Stores.{read_answer, write_answer, after_record, placed, Held};

use crate::lease::LeaseRecord;
use disk::{AreaGuard, Disk, Fault};

// The record that the bytes are; a refusal names the resource.
fn judge(bytes: &[u8], resource: usize, height: u8) -> Result<LeaseRecord, Fault>
    ensures { result ≡ placed resource height bytes.now }
{
    LeaseRecord::decode(bytes).map_err(|cause| cause.at(resource, height))
}

// Reads the record of a resource; the area is all zero afterwards, whatever comes.
pub fn read_record<D: Disk>(
    disk: &mut D,
    resource: usize,
    area: &mut [u8],
) -> Result<LeaseRecord, Fault>
    ensures answer { result ≡ read_answer (D.Disk.meaning disk.old) resource (length area.old) }
    ensures exact { (x : LeaseRecord) → (result ≡ Ok x → Held (D.Disk.meaning disk.old) resource (length area.old) x) × (Held (D.Disk.meaning disk.old) resource (length area.old) x → result ≡ Ok x) }
    ensures disk { D.Disk.meaning disk.new ≡ after_read (D.Disk.meaning disk.old) resource (length area.old) }
    ensures outside { D.Disk.outside disk.new ≡ D.Disk.outside disk.old }
    ensures area { area.new ≡ replicate (length area.old) 0 }
{
    let height = disk.height().saturating_add(1);
    disk.read(resource, area)?;
    let guard = AreaGuard::new(area);
    judge(guard.bytes(), resource, height)
}

// Writes a record to the block of its resource; the area is all zero afterwards, whatever comes.
#[tactic(auto, unfolding(crate::specs::Stores::write_answer, crate::specs::Stores::after_record))]
pub fn write_record<D: Disk>(disk: &mut D, lease: LeaseRecord, area: &mut [u8]) -> Result<(), Fault>
    ensures answer { result ≡ write_answer (D.Disk.meaning disk.old) lease (length area.old) }
    ensures disk { D.Disk.meaning disk.new ≡ after_record (D.Disk.meaning disk.old) lease (length area.old) }
    ensures outside { D.Disk.outside disk.new ≡ D.Disk.outside disk.old }
    ensures area { area.new ≡ replicate (length area.old) 0 }
{
    let height = disk.height().saturating_add(1);
    lease.encode(area).map_err(|cause| cause.at(0, height))?;
    let written = disk.write(lease.resource as usize, area);
    area.fill(0);
    written
}
