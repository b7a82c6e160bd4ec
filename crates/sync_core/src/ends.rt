//! The ends of the channels between timelines.

ghost use Rattle.std.specs.Prelude.{◌≡◌, map};
ghost use Rattle.timeline_parts.specs.Tables.{AreRising};
ghost use Rattle.core_rules.specs.Cores.{channel_in};
ghost use Rattle.core_rules.specs.Stepping.{end_at};

use plan_shares::CrossEnd;

/// The end of a channel, by halving; the channels of the ends rise.
pub(crate) fn end_of(ends: &[CrossEnd], channel: u32) -> Option<CrossEnd>
    requires { AreRising (map channel_in ends.now) }
    ensures { result ≡ end_at channel ends.now }
{
    let mut low = 0;
    let mut high = ends.len();
    while low < high {
        let middle = low + (high - low) / 2;
        if ends[middle].channel < channel {
            low = middle + 1;
        } else {
            high = middle;
        }
    }
    if low < ends.len() && ends[low].channel == channel {
        Some(ends[low])
    } else {
        None
    }
}
