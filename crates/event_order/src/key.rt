//! Keys: one for each event of a run, no two alike.
//!
//! Keys are compared field by field, in the order in which the fields stand.

ghost use Rattle.std.specs.Prelude.{◌≡◌, ◌+◌, ◌<◌, ◌^◌};
ghost use Rattle.event_order.specs.Order.{comes_before, IsBefore, child_of};

/// When an event happens, and its place among the events of that moment.
#[derive(Clone, Copy, Debug, PartialEq, Eq, PartialOrd, Ord)]
pub struct Key {
    /// The moment, in ticks.
    pub time: u64,
    /// How many writes that took no time led to the event at this moment.
    pub round: u64,
    /// The priority of the channel; the smaller goes first.
    pub priority: u8,
    /// The channel on which the event was written.
    pub channel: u32,
    /// The event's place among all events that were written on this channel, counted from 0.
    pub number: u64,
}

impl Key {
    /// Whether this key is smaller than `other`.
    #[tactic(auto, unfolding(crate::specs::Order::comes_before))]
    pub fn is_before(&self, other: &Key) -> bool
        ensures { result ≡ comes_before self.now other.now }
    {
        self < other
    }
}

/// The key of a write with the total delay `delay`, in ticks, on the channel `channel`, whose
/// priority is `priority` and whose count of earlier writes is `number`, by the event with the key
/// `parent`.
///
/// A write that takes no time belongs to the round after its parent's at the same moment. Every
/// other belongs to round 0 of the moment at which it arrives. Either way its key is greater than
/// its parent's.
#[tactic(auto, unfolding(crate::specs::Order::comes_before))]
pub fn child_key(parent: &Key, delay: u64, priority: u8, channel: u32, number: u64) -> Key
    requires time { parent.now.time + delay < 2 ^ 64 }
    requires round { parent.now.round + 1 < 2 ^ 64 }
    ensures child { result ≡ child_of parent.now delay priority channel number }
    ensures greater { IsBefore parent.now result }
{
    let round = if delay == 0 { parent.round + 1 } else { 0 };
    Key {
        time: parent.time + delay,
        round,
        priority,
        channel,
        number,
    }
}

#[cfg(test)]
mod tests {
    use super::*;
    use std::cmp::Ordering;

    const MIDDLE: Key = Key {
        time: 5,
        round: 5,
        priority: 5,
        channel: 5,
        number: 5,
    };

    fn key(time: u64, round: u64, priority: u8, channel: u32, number: u64) -> Key {
        Key {
            time,
            round,
            priority,
            channel,
            number,
        }
    }

    // Each row is smaller than `MIDDLE` by its first field that differs, whatever the later ones say.
    #[test]
    fn compares_field_by_field(rt: HostRuntime) {
        for smaller in [
            key(4, 9, 9, 9, 9),
            key(5, 4, 9, 9, 9),
            key(5, 5, 4, 9, 9),
            key(5, 5, 5, 4, 9),
            key(5, 5, 5, 5, 4),
        ] {
            assert!(rt; smaller.is_before(&MIDDLE), "{smaller:?}");
            assert!(rt; !MIDDLE.is_before(&smaller), "{smaller:?}");
            assert!(rt; smaller.cmp(&MIDDLE) == Ordering::Less, "{smaller:?}");
            assert!(rt; MIDDLE > smaller, "{smaller:?}");
        }
        assert!(rt; !MIDDLE.is_before(&MIDDLE));
        assert!(rt; MIDDLE.cmp(&MIDDLE) == Ordering::Equal);
    }

    #[test]
    fn makes_children(rt: HostRuntime) {
        let parent = Key {
            time: 2,
            round: 3,
            priority: 7,
            channel: 2,
            number: 4,
        };
        for (delay, priority, channel, number, child) in [
            (0_u8, 0, 1, 0, key(2, 4, 0, 1, 0)),
            (0, 7, 9, 8, key(2, 4, 7, 9, 8)),
            (1, 0, 1, 0, key(3, 0, 0, 1, 0)),
            (10, 255, 6, 5, key(12, 0, 255, 6, 5)),
        ] {
            let made = child_key(&parent, u64::from(delay), priority, channel, number);
            assert_eq!(rt; made, child);
            assert!(rt; parent.is_before(&made), "{made:?}");
        }
    }
}
