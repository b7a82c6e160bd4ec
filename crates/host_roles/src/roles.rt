//! The processes of a host, in their order.
ghost use Rattle.std.specs.Prelude.{slice_get};
ghost use Rattle.host_rules.specs.Reacting.{roles};
ghost use Rattle.host_roles.specs.Processes.{IsRoleOf};

use host_sending::Site;

/// What a process of a host is: the receiver of the interface of this place, the clock of the TCP
/// sessions, or the client session of this number.
#[derive(Clone, Copy, Debug, PartialEq, Eq)]
pub enum Process {
    Receiver(u32),
    Clock,
    Client(u32),
}

/// The process of this number, where the host has one.
#[tactic(auto, using(crate::proofs::Numbering::role_of_port, crate::proofs::Numbering::role_of_clock, crate::proofs::Numbering::role_of_client, crate::proofs::Numbering::role_of_none))]
pub fn process_at(site: &Site, number: u32) -> Option<Process>
    ensures { IsRoleOf site.now result (slice_get (roles site.now) number) }
{
    let ports = site.rows().ports.as_slice().len();
    let clients = site.rows().clients.as_slice().len();
    let place = number as usize;
    if place < ports {
        return Some(Process::Receiver(number));
    }
    if place == ports {
        return Some(Process::Clock);
    }
    let client = place - ports - 1;
    if client < clients {
        return Some(Process::Client(client as u32));
    }
    None
}
