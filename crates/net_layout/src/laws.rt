//! Laws of the plan of a network. Each function's contract is a law, and its body is empty.
ghost use Rattle.std.specs.Prelude.{◌≡◌, ◌<◌, ◌≤◌, ◌+◌, ℕ, List, Contains, None, length, slice_index};
ghost use Rattle.std.specs.List.{range_with_len};
ghost use Rattle.spf_routes.specs.declared.graph.Period.{Period};
ghost use Rattle.spf_routes.specs.declared.graph.Route.{Route};
ghost use Rattle.ssf_model.specs.Drafts.{timers};
ghost use Rattle.net_graph.specs.declared.rows.Network.{Network};
ghost use Rattle.net_graph.specs.declared.rows.LinkRow.{LinkRow};
ghost use Rattle.net_graph.specs.Networks.{IsNetwork, interface_at};
ghost use Rattle.net_layout.specs.Periods.{periods_of, is_up, ArePeriods, NoneBegins};
ghost use Rattle.net_layout.specs.Arms.{first_interface, graph_of};
ghost use Rattle.net_layout.specs.Wiring.{first_channel, in_channel, poke_channel};
ghost use Rattle.net_layout.specs.Ports.{port_count, ports_of, ins_of, owners_before, owners_of};
ghost use Rattle.net_layout.specs.Sessions.{clients_of, client_count, servers_of, server_count, timed_of, timer_count, first_timer};
ghost use Rattle.net_layout.specs.HostRoutes.{AreHostRoutes, ArePeriodsOf, AreTables, routes_at};
ghost use Rattle.net_layout.specs.Faults.{first_fault};
ghost use Rattle.net_layout.specs.Limits.{KeepsLimits, HasDistinctAddresses};

/// The periods of a network begin at tick 0 and at each tick at which a down of some link begins or
/// ends, and at no other; they rise strictly.
pub fn periods_are_the_changes()
    ensures { (network : Network) → ArePeriods network (periods_of network) }
{}

/// Each tick is in a period: one begins at it or before it, and none in between.
pub fn each_tick_is_in_a_period()
    ensures { (network : Network) (tick : ℕ) → (begin : ℕ) × Contains (periods_of network) begin × (begin ≤ tick) × NoneBegins network begin tick }
{}

/// Where no period begins after a tick and up to a later one, each link of the network is up at the
/// later tick exactly if it is up at the earlier, and the graphs of the two ticks are the same. So
/// all ticks of a period have the graph of its beginning.
pub fn links_keep_within_a_period()
    ensures links { (network : Network) (begin tick : ℕ) → begin ≤ tick → NoneBegins network begin tick
        → (link : LinkRow) → Contains network.links link → is_up link tick ≡ is_up link begin }
    ensures graph { (network : Network) (begin tick : ℕ) → begin ≤ tick → NoneBegins network begin tick
        → graph_of network tick ≡ graph_of network begin }
{}

/// A host's routes at a tick are one list, and so a network has at most one list of tables.
pub fn routes_are_one()
    ensures routes { (network : Network) (h tick : ℕ) (a b : List Route) → AreHostRoutes network h tick a → AreHostRoutes network h tick b → a ≡ b }
    ensures tables { (network : Network) (a b : List (List Period)) → AreTables network a → AreTables network b → a ≡ b }
{}

/// The period that holds a tick gives the routes at that tick: those of the last of a host's periods
/// that has begun are the host's routes then.
pub fn periods_give_the_routes()
    ensures { (network : Network) (h tick : ℕ) (periods : List Period) → ArePeriodsOf network h periods → AreHostRoutes network h tick (routes_at periods tick) }
{}

/// The ports of a host are its interfaces and no others.
pub fn ports_are_the_interfaces()
    ensures own { (network : Network) (h i : ℕ) → IsNetwork network → Contains (ports_of network h) i → (i < length network.interfaces) × ((interface_at network i).host ≡ h) }
    ensures all { (network : Network) (i : ℕ) → IsNetwork network → i < length network.interfaces → Contains (ports_of network (interface_at network i).host) i }
{}

/// The in-channel of an interface is its host's, and so is that by which a host is poked. Host by
/// host, the in-channels of a host are those that follow the ones of the hosts before it.
pub fn in_channels_have_owners()
    ensures ports { (network : Network) (i : ℕ) → IsNetwork network → i < length network.interfaces → slice_index (owners_of network) (in_channel network i) ≡ (interface_at network i).host }
    ensures pokes { (network : Network) (h : ℕ) → h < length network.hosts → slice_index (owners_of network) (poke_channel network h) ≡ h }
    ensures before { (network : Network) (h : ℕ) → length (owners_before network h) ≡ first_interface network h + h }
    ensures all { (network : Network) → IsNetwork network → length (owners_of network) ≡ length network.interfaces + length network.hosts }
    ensures ins { (network : Network) (h : ℕ) → IsNetwork network → ins_of network h ≡ range_with_len (first_interface network h + h) (port_count network h + 1) }
{}

/// The counts of client sessions and servers are those of the lists.
pub fn counts_are_of_lists()
    ensures clients { (network : Network) (h : ℕ) → length (clients_of network h) ≡ client_count network h }
    ensures servers { (network : Network) (h : ℕ) → length (servers_of network h) ≡ server_count network h }
{}

/// The timer channels stand host by host between the start channels and those of the mappings: each
/// host has as many as it has timed processes.
pub fn timers_follow_the_starts()
    ensures first { (network : Network) → first_timer network 0 ≡ length network.hosts }
    ensures next { (network : Network) (h : ℕ) → first_timer network (h + 1) ≡ first_timer network h + timer_count network h }
    ensures last { (network : Network) → IsNetwork network → first_timer network (length network.hosts) ≡ first_channel network }
    ensures timed { (network : Network) (h : ℕ) → timers (timed_of network h) ≡ timer_count network h }
{}

/// A network without a fault keeps the limits that hosts, interfaces and plans want.
pub fn faultless_networks_keep_limits()
    ensures { (network : Network) → IsNetwork network → first_fault network ≡ None → KeepsLimits network }
{}

/// In a network without a fault two interfaces with one address are one, and no address is 0.
pub fn addresses_differ()
    ensures { (network : Network) → IsNetwork network → first_fault network ≡ None → HasDistinctAddresses network }
{}
