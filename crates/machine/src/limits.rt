// Making settings.
ghost use Rattle.std.specs.Prelude.{◌≡◌};
ghost use Rattle.machine.specs.Limits.{MakesSettings};

use crate::settings::Settings;
use disk::Refusal;

impl Settings {
    // Settings within their bounds; any other numbers are refused.
    pub fn new(hosts: usize, resources: usize, delay: u32, lease: u32) -> Result<Settings, Refusal>
        ensures { MakesSettings hosts resources delay lease result }
    {
        match (hosts, resources, delay) {
            (1..=16, 1..=8, 1..=1000) if (2 * delay + 2..=60_000).contains(&lease) => {
                Ok(Settings {
                    hosts,
                    resources,
                    delay,
                    lease,
                })
            }
            _ => Err(Refusal::BadValue),
        }
    }
}
