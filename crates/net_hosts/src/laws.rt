//! Laws of the rows of hosts. Each function's contract is a law, and its body is empty.
ghost use Rattle.std.specs.Prelude.{◌≡◌, ◌<◌, ◌≤◌, ℕ, true, List, [], Some, length, replicate, slice_index_or};
ghost use Rattle.event_order.specs.Pending.{Among};
ghost use Rattle.sim_base.specs.declared.records.ServerRow.{ServerRow};
ghost use Rattle.spf_routes.specs.declared.graph.Period.{Period};
ghost use Rattle.ssf_model.specs.declared.wait.Wait.TheVariants.{Forever};
ghost use Rattle.ip_layer.specs.Forwarding.{has_address};
ghost use Rattle.net_graph.specs.declared.rows.Network.{Network};
ghost use Rattle.net_graph.specs.Networks.{IsNetwork};
ghost use Rattle.net_layout.specs.Addresses.{interface_address};
ghost use Rattle.net_layout.specs.Ports.{ins_of};
ghost use Rattle.net_layout.specs.Sessions.{servers_of, timed_of};
ghost use Rattle.net_layout.specs.HostRoutes.{AreHostRoutes, AreTables, routes_at as routes_of};
ghost use Rattle.net_layout.specs.Limits.{KeepsLimits, HasDistinctAddresses};
ghost use Rattle.host_rules.specs.Hosts.{Stack, first_host};
ghost use Rattle.host_rules.specs.Sending.{routes_at, own_addresses};
ghost use Rattle.host_rules.specs.Hearing.{server_address};
ghost use Rattle.host_rules.specs.Limits.{AreRows, IsPlaced, IsHost};
ghost use Rattle.net_hosts.specs.HostRowsOf.{host_rows_of};
ghost use Rattle.net_hosts.specs.HostOuts.{host_outs};

/// In a network that keeps its limits the rows of each host are in range.
pub fn rows_are_in_range()
    ensures { (network : Network) (tables : List (List Period)) (h : ℕ) → IsNetwork network → KeepsLimits network → h < length network.hosts
        → AreRows (host_rows_of network tables h) }
{}

/// The in-channels of a host, which rise, are those of its interfaces and then that by which it is
/// poked; the channels by which it pokes itself and on which its interfaces send are its out-channels;
/// and its processes are timed as its rows tell. So it may begin with all of them waiting for nothing.
pub fn hosts_have_their_channels()
    ensures { (network : Network) (tables : List (List Period)) (h : ℕ) → IsNetwork network → h < length network.hosts
        → IsPlaced (host_rows_of network tables h) (ins_of network h) (host_outs network h) (timed_of network h) (replicate (length (timed_of network h)) Forever) }
{}

/// In a network that keeps its limits each host is valid before its first event, with its in-channels
/// and out-channels, all its processes waiting for nothing.
pub fn hosts_begin_valid()
    ensures { (network : Network) (tables : List (List Period)) (h : ℕ) → IsNetwork network → KeepsLimits network → h < length network.hosts
        → IsHost (first_host (host_rows_of network tables h)) (ins_of network h) (host_outs network h) (timed_of network h) (replicate (length (timed_of network h)) Forever) }
{}

/// The routes by which a host sends at a tick are those of the last of its periods that has begun, and
/// so they are the host's routes in the network at that tick.
pub fn hosts_send_by_the_routes()
    ensures periods { (network : Network) (tables : List (List Period)) (h now : ℕ) (stack : Stack)
        → routes_at (host_rows_of network tables h) stack now ≡ routes_of (slice_index_or tables h []) now }
    ensures routes { (network : Network) (tables : List (List Period)) (h now : ℕ) (stack : Stack) → AreTables network tables → h < length network.hosts
        → AreHostRoutes network h now (routes_at (host_rows_of network tables h) stack now) }
{}

/// Where the addresses of a network's interfaces differ, no two hosts have an address in common, and
/// none has the address 0.
pub fn own_addresses_differ()
    ensures differ { (network : Network) (tables : List (List Period)) (g h address : ℕ) → IsNetwork network → HasDistinctAddresses network
        → has_address (own_addresses (host_rows_of network tables g)) address ≡ true → has_address (own_addresses (host_rows_of network tables h)) address ≡ true → g ≡ h }
    ensures above_zero { (network : Network) (tables : List (List Period)) (h address : ℕ) → IsNetwork network → HasDistinctAddresses network
        → has_address (own_addresses (host_rows_of network tables h)) address ≡ true → 1 ≤ address }
{}

/// A host goes to each of its servers at the address of the server's interface.
pub fn servers_have_their_addresses()
    ensures { (network : Network) (tables : List (List Period)) (h : ℕ) (server : ServerRow) → IsNetwork network → Among server (servers_of network h)
        → interface_address network server.interface ≡ Some (server_address (host_rows_of network tables h) server) }
{}
