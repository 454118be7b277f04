// How the programs report what was logged.
#![tactic(auto)]

ghost use Rattle.std.specs.Prelude.{◌≡◌, Some, Decides};
ghost use Rattle.format.specs.Logs.{PrintsLine};
ghost use Rattle.report.specs.Reports.{report_text};

use format::LogEntry;
use std::{fmt, str};

// A log entry with the offset of its host. It prints as its line and whether the line reads back as both, or as the
// refusal of the line.
#[derive(Clone, Copy, PartialEq, Eq, Debug)]
pub struct LogReport {
    pub entry: LogEntry,
    pub offset: i32,
}

impl LogReport {
    // Whether a line reads back as the entry and the offset.
    fn reads_back(self, line: &[u8]) -> bool
        ensures { Decides result (PrintsLine self.entry self.offset line.now) }
    {
        // a `match`: with `is_ok_and` the proof did not close
        match LogEntry::parse(line) {
            Ok(read) => read == (self.entry, self.offset),
            Err(_) => false,
        }
    }
}

impl fmt::Display for LogReport {
    ghost output = { λ r. Some (report_text r) };

    fn fmt<W: fmt::Write>(&self, f: &mut fmt::Formatter<W>) -> fmt::Result {
        let mut buffer = [0u8; 64];
        match self.entry.print(self.offset, &mut buffer) {
            Ok(length) => {
                let line = &buffer[..length];
                let text = str::from_utf8(line).map_err(|_| fmt::Error)?;
                write!(f, "{text}  reads back: {}", self.reads_back(line))
            }
            Err(refusal) => write!(f, "log line refused {refusal}"),
        }
    }
}
