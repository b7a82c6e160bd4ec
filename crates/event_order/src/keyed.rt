//! What has a key.

ghost use Rattle.std.specs.Prelude.{◌≡◌};
ghost use Rattle.event_order.specs.declared.key.Key.{Key as KeyValue};

use crate::key::Key;

/// A thing with a place in the order of events.
pub trait Keyed {
    ghost key_of: { Self → KeyValue };

    /// The key of this thing.
    fn key(&self) -> Key
        ensures { result ≡ key_of self.now };
}
