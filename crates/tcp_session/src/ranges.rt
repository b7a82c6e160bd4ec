//! What of later positions a server keeps.
ghost use Rattle.std.specs.Prelude.{◌≡◌, ◌<◌, List, [], OnOk, OnErr, IfSome, length, nat_lt};
ghost use Rattle.std.specs.List.{list_any, position};
ghost use Rattle.tcp_rules.specs.declared.records.Range.{Range as RangeValue};
ghost use Rattle.tcp_rules.specs.Servers.{is_within, placed, added, hole, beyond};
ghost use Rattle.tcp_session.specs.Rising.{IsRising};

use std::alloc::{AllocError, Global};
use std::marker::Model;
use tcp_rules::Range;

/// Ranges of positions, in order of their beginnings. Contracts see the list of them.
#[derive(Drop)]
pub(crate) struct Ranges {
    items: Vec<Range>,
}

impl Model for Ranges {
    ghost use Rattle.std.specs.Prelude.{List};
    ghost use Rattle.tcp_rules.specs.declared.records.Range.{Range as RangeValue};
    ghost use Rattle.tcp_session.specs.Rising.{IsRising};

    ghost Value = { List RangeValue };

    ghost view = { λ r. r.items.items };

    ghost invariant = { λ r. IsRising r.items.items };
}

impl Ranges {
    /// No range.
    pub(crate) fn new(alloc: Global) -> Ranges
        ensures { result ≡ [] }
    {
        Ranges {
            items: Vec::new(alloc),
        }
    }

    /// Adds a range, but for one that lies within another.
    #[tactic(auto, unfolding(tcp_rules::specs::Servers::added))]
    pub(crate) fn add(&mut self, range: Range) -> Result<(), AllocError>
        ensures ok { OnOk result (self.new ≡ added range self.old) }
        ensures err { OnErr result (self.new ≡ self.old) }
    {
        if is_held(self.items.as_slice(), &range) {
            return Ok(());
        }
        place(&mut self.items, range)?;
        Ok(())
    }

    /// The first position from this one on that no range holds.
    pub(crate) fn hole(&self, position: u64) -> u64
        ensures { result ≡ hole self.now position }
    {
        first_hole(self.items.as_slice(), position)
    }

    /// Forgets the ranges that hold nothing from this position on.
    pub(crate) fn forget_below(&mut self, position: u64)
        ensures { self.new ≡ beyond position self.old }
    {
        keep_beyond(&mut self.items, position);
    }
}

/// Whether a range lies within one of the others.
fn is_held(items: &[Range], range: &Range) -> bool
    ensures { result ≡ list_any (is_within range.now) items.now }
{
    items
        .iter()
        .any(|kept| kept.from <= range.from && range.to <= kept.to)
}

/// Puts a range into its place, behind those of its own beginning.
fn place(items: &mut Vec<Range>, range: Range) -> Result<(), AllocError>
    requires { IsRising items.old.items }
    ensures ok { OnOk result (items.new.items ≡ placed range items.old.items) }
    ensures rising { IsRising items.new.items }
    ensures err { OnErr result (items.new.items ≡ items.old.items) }
{
    let kept = items.as_slice();
    let index = first_after(kept, range.from).unwrap_or(kept.len());
    items.insert(index, range)?;
    Ok(())
}

/// The place of the first range that begins after a position.
fn first_after(items: &[Range], from: u64) -> Option<usize>
    ensures value { result ≡ position (λ r. nat_lt from r.from) items.now }
    ensures within { IfSome result (λ index. index < length items.now) }
{
    items.iter().position(|kept| from < kept.from)
}

/// The first position from this one on that no range holds, by one scan.
fn first_hole(items: &[Range], position: u64) -> u64
    requires { IsRising items.now }
    ensures { result ≡ hole items.now position }
{
    let mut reached = position;
    for range in items {
        if reached < range.from {
            return reached;
        }
        reached = reached.max(range.to);
    }
    reached
}

/// Keeps the ranges that hold something from this position on.
fn keep_beyond(items: &mut Vec<Range>, position: u64)
    requires { IsRising items.old.items }
    ensures value { items.new.items ≡ beyond position items.old.items }
    ensures rising { IsRising items.new.items }
{
    items.retain(|range| position < range.to);
}
