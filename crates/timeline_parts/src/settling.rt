//! What an executed event has written comes to its places.

ghost use Rattle.std.specs.Prelude.{◌≡◌, ◌≤◌, ◌+◌, length};
ghost use Rattle.event_order.specs.Pending.{put_all};
ghost use Rattle.timeline_parts.specs.Tables.{AreNumbered};
ghost use Rattle.timeline_parts.specs.Settling.{key_of, staying, least_arriving, AreNew};

use crate::{OutEnd, place_of};
use pending_queue::Pending;
use ssf_model::Event;

/// Makes those of the written events pending that stay on the timeline, for which there has to be
/// room, and answers the least of `arrival` and the times, at or above `from`, of those that go to
/// other timelines.
pub fn settle<P: Copy>(
    written: &[Event<P>],
    ends: &[(u32, OutEnd<P>)],
    pending: &mut Pending<Event<P>>,
    from: u64,
    arrival: u64,
) -> u64
    requires ends { AreNumbered ends.now }
    requires room { length written.now ≤ pending.old.spare }
    requires new { AreNew (staying ends.now written.now) pending.old.items }
    ensures pending { pending.new.items ≡ put_all key_of (staying ends.now written.now) pending.old.items }
    ensures arrival { result ≡ least_arriving ends.now from written.now arrival }
{
    let mut least = arrival;
    for event in written {
        if place_of(ends, event.key.channel).is_none() {
            let _inserted = pending.insert(*event);
        } else if event.key.time >= from {
            least = event.key.time.min(least);
        }
    }
    least
}
