//! The state of a core, by its views.

use admission::Core;
use gk_lines::LineBuffer;

/// What the views of a core say: the version in force, how many endpoints are registered and calls
/// open, the sums of its first zone and that of other gatekeepers, and how long the record is.
#[derive(Clone, Copy, Debug, PartialEq, Eq)]
pub struct State {
    version: u32,
    endpoints: usize,
    calls: usize,
    total: u64,
    interzone: u64,
    remote: u64,
    entries: usize,
}

impl State {
    /// That of this core.
    pub fn of(core: &Core) -> State {
        let zone = core.tables().first_local();
        State {
            version: core.version().value(),
            endpoints: core.registry().len(),
            calls: core.calls().len(),
            total: core.calls().total(&zone),
            interzone: core.calls().interzone(&zone),
            remote: core.calls().remote(),
            entries: core.record().len(),
        }
    }

    /// Adds it to a line, number by number.
    pub fn show(&self, line: &mut LineBuffer) {
        line.word(b"|");
        line.number(self.version);
        for number in [self.endpoints, self.calls] {
            line.number(u32::try_from(number).unwrap_or(u32::MAX));
        }
        for sum in [self.total, self.interzone, self.remote] {
            line.number(u32::try_from(sum).unwrap_or(u32::MAX));
        }
        line.number(u32::try_from(self.entries).unwrap_or(u32::MAX));
    }
}
