//! Modes, and the labels that they give.
ghost use Rattle.std.specs.Prelude.{◌≡◌, ◌<◌, ◌^◌, length};
ghost use Rattle.alignment.specs.Alignment.{label_of};

/// How entities get labels. Those with the same label share a timeline.
#[derive(Clone, Copy, Debug, PartialEq, Eq)]
pub enum Mode {
    /// All have one label.
    One,
    /// Each has its own.
    Host,
    /// Each has that of its innermost Net.
    Net,
    /// Of `n` parts, entity `e` of `m` entities has the number `e * n / m`, rounded down.
    Count(u32),
}

/// The label of an entity by the mode, where `nets` has the innermost Net of each.
pub(crate) fn label_of(mode: Mode, nets: &[u32], entity: u32) -> u64
    requires entity { entity < length nets.now }
    requires count { length nets.now < 2 ^ 32 }
    ensures { result ≡ label_of mode nets.now (length nets.now) entity }
{
    match mode {
        Mode::One => 0,
        Mode::Host => u64::from(entity),
        Mode::Net => u64::from(nets[entity as usize]),
        Mode::Count(parts) => u64::from(entity) * u64::from(parts) / nets.len() as u64,
    }
}
