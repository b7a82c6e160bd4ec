//! Where the writes on an out-channel go.

ghost use Rattle.std.specs.Prelude.{◌≡◌, ◌++◌, ◌∷◌, [], ℕ, slice_index_or, IfOk, OnOk};
ghost use Rattle.global_list.specs.FanOut.{mappings_on};

use sim_base::{ListOf, Memory};
use ssf_model::Mapping;
use std::alloc::Global;
use std::marker::Model;

/// The mappings of a plan, by their out-channels. Contracts see the list of the mappings.
#[derive(Drop)]
pub struct FanOut {
    mappings: ListOf<Mapping>,
    by_out: Vec<ListOf<Mapping>>,
}

impl Model for FanOut {
    ghost use Rattle.std.specs.Prelude.{List};
    ghost use Rattle.ssf_model.specs.declared.plan.Mapping.{Mapping as MappingValue};
    ghost use Rattle.global_list.specs.FanOut.{IsByOut};

    ghost Value = { List MappingValue };

    ghost view = { λ f. f.mappings };

    ghost invariant = { λ f. IsByOut f.by_out.items f.mappings };
}

impl FanOut {
    /// These mappings.
    pub fn new(alloc: Global, mappings: ListOf<Mapping>) -> Result<FanOut, Memory>
        ensures { IfOk result (λ fan_out. fan_out ≡ mappings) }
    {
        let mut by_out = Vec::new(alloc);
        for mapping in mappings.as_slice() {
            add(alloc, &mut by_out, *mapping)?;
        }
        Ok(FanOut { mappings, by_out })
    }

    /// The mappings of one out-channel, in their order.
    pub fn on(&self, out_channel: u32) -> &[Mapping]
        ensures { result.now ≡ mappings_on out_channel self.now }
    {
        match self.by_out.get(out_channel as usize) {
            Some(list) => list.as_slice(),
            None => &[],
        }
    }
}

/// Adds a mapping to those of its out-channel.
fn add(alloc: Global, by_out: &mut Vec<ListOf<Mapping>>, mapping: Mapping) -> Result<(), Memory>
    ensures { OnOk result ((out : ℕ) → slice_index_or by_out.new.items out [] ≡ slice_index_or by_out.old.items out [] ++ mappings_on out (mapping ∷ [])) }
{
    let place = mapping.out_channel as usize;
    for _size in by_out.len()..place + 1 {
        by_out.push(ListOf::new(alloc))?;
    }
    let list = &mut by_out[place];
    match list.push(mapping) {
        Ok(()) => Ok(()),
        Err(_) => Err(Memory),
    }
}
