//! Parts of slices.
ghost use Rattle.std.specs.Prelude.{◌≡◌, ◌<◌, ◌+◌, drop, length};

/// What stands behind a place.
pub(crate) fn behind<T>(items: &[T], place: usize) -> &[T]
    requires { place < length items.now }
    ensures { result.now ≡ drop (place + 1) items.now }
{
    &items[place + 1..]
}
