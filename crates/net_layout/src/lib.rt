//! What the plan of a network is made of, and why a network has none: the periods in which its links
//! stay up or down, its address blocks, the graph of each period for least routes, default routes,
//! the channels and mappings, and for each host its interfaces with their channels, its sessions and
//! its routes period by period.
//!
//! Contracts cite the specs of `net_graph` on networks (what every network of a resolved tree meets),
//! `specs/Periods.antt`, `specs/Addresses.antt`, `specs/Arms.antt` (the graph of a period),
//! `specs/Gateways.antt` (default routes), `specs/HostRoutes.antt` (a host's routes at a tick, and all
//! its periods), `specs/Wiring.antt` (channels and mappings), `specs/Ports.antt` (the interfaces of a
//! host, its in-channels, and the out-channels of an interface), `specs/Sessions.antt` (a host's
//! sessions, servers and timers), `specs/Faults.antt` (the first fault) and `specs/Limits.antt` (what a
//! network without a fault keeps). The contracts of [`laws`] have what holds of them.
#![tactic(auto)]

mod arms;
mod downs;
mod gateways;
mod host_ports;
mod host_sessions;
mod host_tables;
pub mod laws;
mod layout;
mod limits;
mod lists;
mod wiring;

pub use arms::{address, attachment_of, first_interface, graph, place_of};
pub use downs::{has_downs, is_up, periods};
pub use gateways::gateway_route;
pub use host_ports::{outs, ports};
pub use host_sessions::{clients, listens, servers};
pub use host_tables::{host_period, tables};
pub use layout::{Layout, lay_out};
pub use wiring::{Wire, first_channel, mappings, wires};
