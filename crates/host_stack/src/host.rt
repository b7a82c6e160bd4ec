//! The behaviour of hosts.

use crate::HostState;
use ip_layer::Packet;
use sim_base::Memory;
use ssf_model::{Behaviour, Out, Process, Wait, Wake};
use std::alloc::Global;

/// The behaviour of hosts and routers.
#[derive(Clone, Copy, Debug)]
pub struct Host {}

impl Behaviour for Host {
    ghost use Rattle.std.specs.Prelude.{◌≡◌, ◌++◌};
    ghost use Rattle.ip_layer.specs.Packets.{IsPacket};
    ghost use Rattle.host_rules.specs.Reacting.{host_reaction};
    ghost use Rattle.host_rules.specs.Limits.{IsHost};
    ghost use Rattle.host_rules.proofs.Sound.{host_sound};
    ghost use Rattle.host_rules.proofs.Modest.{host_modest};

    type State = HostState;

    type Payload = Packet;

    ghost reaction = { λ _. host_reaction };

    ghost valid = { λ _. IsHost };

    ghost carried = { λ _. IsPacket };

    ghost sound = { λ _. host_sound };

    ghost modest = { λ _. host_modest };

    fn action(
        &self,
        alloc: Global,
        state: &mut HostState,
        process: u32,
        now: u64,
        wake: &Wake<Packet>,
        out: &mut Out<Packet>,
    ) -> Result<Wait, Memory> {
        state.act(alloc, process, now, wake, out)
    }

    fn known(&self, payload: &Packet) {
        payload.known();
    }

    fn is_valid(
        &self,
        state: &HostState,
        ins: &[u32],
        outs: &[u32],
        processes: &[Process],
        waits: &[Wait],
    ) -> bool {
        state.is_placed(ins, outs, processes, waits)
    }
}
