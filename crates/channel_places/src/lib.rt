//! Where a channel stands in a list of channels, by which other lists are kept.
#![tactic(auto)]

ghost use Rattle.std.specs.Prelude.{◌≡◌, slice_get, Some};
ghost use Rattle.std.specs.List.{Contains};
ghost use Rattle.std.specs.List.Sorted.{IsStrictlyIncreasing};

/// The place of one of these channels, which are in rising order, by halving.
pub fn place_of(channels: &[u32], channel: u32) -> usize
    requires rising { IsStrictlyIncreasing channels.now }
    requires among { Contains channels.now channel }
    ensures { slice_get channels.now result ≡ Some channel }
{
    match channels.binary_search(&channel) {
        Ok(place) => place,
        Err(_) => unreachable!(),
    }
}
