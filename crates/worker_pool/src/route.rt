//! In which order a worker takes turns at timelines.

ghost use Rattle.std.specs.Prelude.{◌≡◌, ◌<◌, ◌≤◌};

/// After so many turns a worker looks whether the stop word stands.
const TURNS_BETWEEN_LOOKS: u32 = 16;

/// A worker's rounds over the timelines. It goes round and round over its own ones, which it so keeps near to its processor; where a
/// round over them found nothing to do, it goes on over those of the others.
#[derive(Drop)]
pub(crate) struct Route {
    /// How many timelines there are.
    timelines: u32,
    /// The first of its own timelines.
    first: u32,
    /// How many are its own.
    own: u32,
    /// How many turns were taken in this round.
    taken: u32,
    /// Whether one of them found something to do.
    moved: bool,
}

impl Route {
    ghost use Rattle.std.specs.Prelude.{◌≡◌, ◌<◌};

    /// The rounds of the worker at this place among so many workers: the timelines are shared out in order, in almost equal parts.
    pub(crate) fn new(place: u32, workers: u32, timelines: u32) -> Route
        requires place { place < workers }
        requires some { 0 < timelines }
        ensures timelines { result.timelines ≡ timelines }
        ensures first { result.first < timelines }
        ensures taken { result.taken < timelines }
    {
        let first = share_before(place, workers, timelines);
        let end = share_before(place + 1, workers, timelines);
        Route {
            timelines,
            first,
            own: end.saturating_sub(first),
            taken: 0,
            moved: false,
        }
    }

    /// The timeline of the next turn.
    pub(crate) fn next(&self) -> u32
        requires first { self.now.first < self.now.timelines }
        requires taken { self.now.taken < self.now.timelines }
        ensures { result < self.now.timelines }
    {
        let left = self.timelines - self.first;
        if self.taken < left {
            self.first + self.taken
        } else {
            self.taken - left
        }
    }

    /// Whether the worker looks at the stop word before the next turn.
    pub(crate) fn is_at_look(&self) -> bool {
        self.taken % TURNS_BETWEEN_LOOKS == 0
    }

    /// Goes on after a turn, which found something to do or not. Tells whether a round over all timelines found nothing.
    pub(crate) fn go_on(&mut self, moved: bool) -> bool
        requires taken { self.old.taken < self.old.timelines }
        ensures timelines { self.new.timelines ≡ self.old.timelines }
        ensures first { self.new.first ≡ self.old.first }
        ensures taken { self.new.taken < self.new.timelines }
    {
        self.taken += 1;
        self.moved = self.moved || moved;
        let keeps = self.taken == self.own && self.moved;
        if self.taken < self.timelines && !keeps {
            return false;
        }
        let idle = !self.moved;
        self.taken = 0;
        self.moved = false;
        idle
    }
}

/// How many of the timelines are those of the workers before this place.
fn share_before(place: u32, workers: u32, timelines: u32) -> u32
    requires place { place ≤ workers }
    requires some { 0 < workers }
    ensures most { result ≤ timelines }
    ensures less { place < workers → 0 < timelines → result < timelines }
{
    let before = u64::from(place) * u64::from(timelines) / u64::from(workers);
    before as u32
}
