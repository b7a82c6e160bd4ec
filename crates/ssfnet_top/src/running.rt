//! How a model is run, and what is told of a run on `err`.

use alignment::Mode;

/// In which way a model is run.
#[derive(Clone, Copy)]
pub enum Way {
    /// By one event list.
    OneList,
    /// On timelines, to which entities are shared out by this mode. Mappings between two timelines are appointed
    /// below this delay, in ticks, at most 10^15.
    Timelines { mode: Mode, threshold: u64 },
}

/// How a model is run: up to the time `until`, in ticks, at most 10^18; at most `budget` events, 1 to 10^12, in all or,
/// on timelines, of each; and in which way. A report is made where one is wanted.
#[derive(Clone, Copy)]
pub struct Running {
    pub until: u64,
    pub budget: u64,
    pub report: bool,
    pub way: Way,
}

/// What is told on `err` where a command ends well: the text of a report, and behind it how many windows a run on
/// timelines crossed, without the first one, and the last of them, in ticks.
#[derive(Drop)]
pub struct Told {
    pub report: Vec<u8>,
    pub windows: Option<(u64, u64)>,
}
