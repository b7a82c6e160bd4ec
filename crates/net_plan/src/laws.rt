//! Laws of the plans of networks. Each function's contract is a law, and its body is empty.
ghost use Rattle.std.specs.Prelude.{◌≡◌, ◌<◌, ◌≤◌, ◌+◌, ℕ, List, [], None, Some, length, map, take, slice_get};
ghost use Rattle.spf_routes.specs.declared.graph.Period.{Period};
ghost use Rattle.ssf_model.specs.declared.entity.Entity.{Entity};
ghost use Rattle.ssf_model.specs.declared.plan.Plan.{Plan};
ghost use Rattle.ssf_model.specs.Reaction.{Each};
ghost use Rattle.ssf_model.specs.Drafts.{empty_draft, entity_refusal, in_channel_refusal, out_channel_refusal, mapping_refusal, start, IsValidDraft};
ghost use Rattle.ip_layer.specs.Packets.{PacketFields};
ghost use Rattle.net_graph.specs.declared.rows.Network.{Network};
ghost use Rattle.net_graph.specs.Networks.{IsNetwork, numbers};
ghost use Rattle.net_layout.specs.declared.wiring.Wire.{Wire};
ghost use Rattle.net_layout.specs.Wiring.{wires_of, mappings_of};
ghost use Rattle.net_layout.specs.Ports.{port_count};
ghost use Rattle.net_layout.specs.Sessions.{timed_of};
ghost use Rattle.net_layout.specs.Limits.{KeepsLimits};
ghost use Rattle.host_rules.specs.Hosts.{HostFields};
ghost use Rattle.host_rules.specs.Limits.{IsHost};
ghost use Rattle.net_plan.specs.NetDraft.{draft_of, net_draft, with_host, with_ins, with_out, with_wire, IsNetBuilt};

/// The draft of a network comes of these calls, from the empty draft on: for each host its entity, and
/// then one in-channel for each of its interfaces and one by which it is poked; and then for each wire
/// its out-channel and its mapping.
pub fn drafts_are_made_call_by_call<B>()
    ensures first { (behaviour : B) (network : Network) (tables : List (List Period)) → draft_of behaviour network tables 0 [] ≡ empty_draft behaviour }
    ensures host { (behaviour : B) (network : Network) (tables : List (List Period)) (h : ℕ) → IsNetwork network → h < length network.hosts
        → with_ins (with_host (draft_of behaviour network tables h []) network tables h) h (port_count network h + 1) ≡ draft_of behaviour network tables (h + 1) [] }
    ensures wire { (behaviour : B) (network : Network) (tables : List (List Period)) (n : ℕ) (wire : Wire) → IsNetwork network → slice_get (wires_of network) n ≡ Some wire
        → with_wire (draft_of behaviour network tables (length network.hosts) (take n (wires_of network))) n wire ≡ draft_of behaviour network tables (length network.hosts) (take (n + 1) (wires_of network)) }
{}

/// In a network that keeps its limits none of these calls is refused.
pub fn networks_are_never_refused<B>()
    ensures host { (behaviour : B) (network : Network) (tables : List (List Period)) (h : ℕ) → IsNetwork network → KeepsLimits network → h < length network.hosts
        → entity_refusal (draft_of behaviour network tables h []) (timed_of network h) ≡ None }
    ensures in_channels { (behaviour : B) (network : Network) (tables : List (List Period)) (h n : ℕ) → IsNetwork network → h < length network.hosts → n ≤ port_count network h
        → in_channel_refusal (with_ins (with_host (draft_of behaviour network tables h []) network tables h) h n) ≡ None }
    ensures out_channel { (behaviour : B) (network : Network) (tables : List (List Period)) (n : ℕ) (wire : Wire) → KeepsLimits network → slice_get (wires_of network) n ≡ Some wire
        → out_channel_refusal (draft_of behaviour network tables (length network.hosts) (take n (wires_of network))) wire.latency ≡ None }
    ensures mapping { (behaviour : B) (network : Network) (tables : List (List Period)) (n : ℕ) (wire : Wire) → IsNetwork network → KeepsLimits network → slice_get (wires_of network) n ≡ Some wire
        → mapping_refusal (with_out (draft_of behaviour network tables (length network.hosts) (take n (wires_of network))) wire) n wire.in_channel wire.delay ≡ None }
{}

/// In a network that keeps its limits each entity of the draft is a valid host, all of whose processes
/// wait for nothing. A network has one plan, whose mappings are those of the network.
pub fn networks_have_plans<B>()
    ensures valid { (behaviour : B) (network : Network) (tables : List (List Period)) → IsNetwork network → KeepsLimits network → Each (IsValidDraft IsHost) (net_draft behaviour network tables).entities }
    ensures one { (behaviour : B) (network : Network) (a b : Plan B HostFields PacketFields) → IsNetBuilt behaviour network a → IsNetBuilt behaviour network b → a ≡ b }
    ensures mappings { (behaviour : B) (network : Network) (plan : Plan B HostFields PacketFields) → IsNetwork network → IsNetBuilt behaviour network plan → plan.mappings ≡ mappings_of network }
{}

/// A network's plan begins afresh: no host has a session, and the start events of the hosts alone are
/// pending.
pub fn plans_begin_afresh<B>()
    ensures sessions { (behaviour : B) (network : Network) (plan : Plan B HostFields PacketFields) → IsNetBuilt behaviour network plan
        → Each (λ (host : Entity B HostFields PacketFields). host.state.stack.sessions ≡ []) plan.entities }
    ensures events { (behaviour : B) (network : Network) (plan : Plan B HostFields PacketFields) → IsNetBuilt behaviour network plan
        → plan.events ≡ map start (numbers (length network.hosts)) }
{}
