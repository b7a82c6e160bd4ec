//! Why a tree has no model that can run.

ghost use Rattle.std.specs.Prelude.{◌≡◌, ◌⊎◌};

use nhi_address::Nhi;
use sim_base::{Memory, Text};
use std::alloc::{AllocError, AllocFailed, Global};

/// Why a tree has no model that can run. A text is the key, the kind, the name or the spelling at
/// fault.
#[derive(Drop)]
pub enum ShapeFault {
    /// This text is no NHI, or one with an interface where none is wanted, or the other way round.
    BadNhi(Text),
    /// There is no list `Net` and no list `ring`.
    NoModel,
    /// The value of this key is no number, or not in its range; a list where a text is wanted; another
    /// spelling than those of `transport`; a range of ids that falls (`idrange`); or a time in which a
    /// link is down that is empty (`down`).
    BadNumber(Text),
    /// This key has to stand, and does not.
    Missing(Text),
    /// Two siblings have the id of this Net, host or interface.
    DoubleId(Nhi),
    /// Nothing has this NHI, or it is not where it would have to be.
    UnknownNhi(Nhi),
    /// Two links attach this interface, or one link twice.
    AttachedTwice(Nhi),
    /// No session has this name.
    UnknownSession(Text),
    /// There are more of this kind than the limit: `nets`, `hosts` (with routers), `interfaces`,
    /// `links`, `sessions`, `patterns` (the servers of all patterns), `downs` (the times in which links
    /// are down), `transfers` or `routes`.
    TooMany(Text),
    /// The addresses of the network need more than the greatest block.
    NoSpace,
    /// A delay or a time is above 10^15 ticks.
    DelayTooLong,
    /// The plan would have too many channels.
    TooManyChannels,
    /// So many timelines are above the limit.
    TooManyTimelines(u32),
    /// There was no memory.
    Memory,
}

impl From<Memory> for ShapeFault {
    ghost use Rattle.std.specs.Prelude.{◌≡◌};
    ghost use Rattle.net_graph.specs.declared.fault.ShapeFault.TheVariants as fault;

    ghost from_gives = { λ _ e. e ≡ fault.Memory };

    fn from(_memory: Memory) -> ShapeFault {
        ShapeFault::Memory
    }
}

impl<T: Drop> From<AllocFailed<T>> for ShapeFault {
    ghost use Rattle.std.specs.Prelude.{◌≡◌};
    ghost use Rattle.net_graph.specs.declared.fault.ShapeFault.TheVariants as fault;

    ghost from_gives = { λ _ e. e ≡ fault.Memory };

    fn from(_refused: AllocFailed<T>) -> ShapeFault {
        ShapeFault::Memory
    }
}

impl From<AllocError> for ShapeFault {
    ghost use Rattle.std.specs.Prelude.{◌≡◌};
    ghost use Rattle.net_graph.specs.declared.fault.ShapeFault.TheVariants as fault;

    ghost from_gives = { λ _ e. e ≡ fault.Memory };

    fn from(_refused: AllocError) -> ShapeFault {
        ShapeFault::Memory
    }
}

impl<T: Drop> From<(T, Memory)> for ShapeFault {
    ghost use Rattle.std.specs.Prelude.{◌≡◌};
    ghost use Rattle.net_graph.specs.declared.fault.ShapeFault.TheVariants as fault;

    ghost from_gives = { λ _ e. e ≡ fault.Memory };

    fn from(_refused: (T, Memory)) -> ShapeFault {
        ShapeFault::Memory
    }
}

/// The fault `BadNumber` of this key, or `Memory`.
pub fn bad_number(alloc: Global, key: &[u8]) -> ShapeFault
    ensures { (result ≡ ShapeFault.Memory) ⊎ (result ≡ ShapeFault.BadNumber key.now) }
{
    match Text::of(alloc, key) {
        Ok(key) => ShapeFault::BadNumber(key),
        Err(_) => ShapeFault::Memory,
    }
}

/// The fault `Missing` of this key, or `Memory`.
pub fn missing(alloc: Global, key: &[u8]) -> ShapeFault
    ensures { (result ≡ ShapeFault.Memory) ⊎ (result ≡ ShapeFault.Missing key.now) }
{
    match Text::of(alloc, key) {
        Ok(key) => ShapeFault::Missing(key),
        Err(_) => ShapeFault::Memory,
    }
}

/// The fault `BadNhi` of this text, or `Memory`.
pub fn bad_nhi(alloc: Global, text: &[u8]) -> ShapeFault
    ensures { (result ≡ ShapeFault.Memory) ⊎ (result ≡ ShapeFault.BadNhi text.now) }
{
    match Text::of(alloc, text) {
        Ok(text) => ShapeFault::BadNhi(text),
        Err(_) => ShapeFault::Memory,
    }
}

/// The fault `UnknownSession` of this name, or `Memory`.
pub fn unknown_session(alloc: Global, name: &[u8]) -> ShapeFault
    ensures { (result ≡ ShapeFault.Memory) ⊎ (result ≡ ShapeFault.UnknownSession name.now) }
{
    match Text::of(alloc, name) {
        Ok(name) => ShapeFault::UnknownSession(name),
        Err(_) => ShapeFault::Memory,
    }
}

/// The fault `TooMany` of this kind, or `Memory`.
pub fn too_many(alloc: Global, kind: &[u8]) -> ShapeFault
    ensures { (result ≡ ShapeFault.Memory) ⊎ (result ≡ ShapeFault.TooMany kind.now) }
{
    match Text::of(alloc, kind) {
        Ok(kind) => ShapeFault::TooMany(kind),
        Err(_) => ShapeFault::Memory,
    }
}
