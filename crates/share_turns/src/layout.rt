//! The places and the count words of a table of the parts of a run.

ghost use Rattle.std.specs.Prelude.{◌≡◌, ◌+◌, ◌<◌, ◌≤◌, ◌^◌};

/// How many timelines and how many channels between timelines there are.
#[derive(Clone, Copy, Debug, PartialEq, Eq)]
pub struct Layout {
    pub timelines: u32,
    pub ends: u32,
}

impl Layout {
    ghost use Rattle.std.specs.Prelude.{◌≡◌, ◌+◌, ◌<◌, ◌≤◌, ◌^◌};

    /// The place of the mail of a timeline.
    pub fn mail(&self, timeline: u32) -> u32
        requires { self.now.timelines + timeline < 2 ^ 32 }
        ensures { result ≡ self.now.timelines + timeline }
    {
        self.timelines + timeline
    }

    /// The place of the barrier.
    pub fn barrier(&self) -> u32
        requires { self.now.timelines + self.now.timelines < 2 ^ 32 }
        ensures { result ≡ self.now.timelines + self.now.timelines }
    {
        self.timelines + self.timelines
    }

    /// The word of how much was posted on the channel of an end.
    pub fn posted(&self, end: u32) -> u32
        ensures { result ≡ end }
    {
        end
    }

    /// The word of how much was taken from it.
    pub fn taken(&self, end: u32) -> u32
        requires { self.now.ends + end < 2 ^ 32 }
        ensures { result ≡ self.now.ends + end }
    {
        self.ends + end
    }

    /// The word of how much a timeline has executed.
    pub fn done(&self, timeline: u32) -> u32
        requires { self.now.ends + self.now.ends + timeline < 2 ^ 32 }
        ensures { result ≡ self.now.ends + self.now.ends + timeline }
    {
        self.ends + self.ends + timeline
    }

    /// The word of the barrier's round.
    pub fn round(&self) -> u32
        requires { self.now.ends + self.now.ends + self.now.timelines < 2 ^ 32 }
        ensures { result ≡ self.now.ends + self.now.ends + self.now.timelines }
    {
        self.ends + self.ends + self.timelines
    }
}
