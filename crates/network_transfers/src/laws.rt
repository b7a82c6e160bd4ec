//! The laws: contracts of functions with an empty body.

ghost use Rattle.std.specs.Prelude.{◌≡◌, ◌<◌, ◌≤◌, ◌+◌, ℕ, Bool, None, Some, slice_get};
ghost use Rattle.event_order.specs.declared.key.Key.{Key as KeyValue};
ghost use Rattle.event_order.specs.Pending.{Among};
ghost use Rattle.sim_base.specs.SegmentFields.{SegmentFields};
ghost use Rattle.ssf_model.specs.declared.event.Event.{Event};
ghost use Rattle.ssf_model.specs.declared.entity.Entity.{Entity};
ghost use Rattle.ssf_model.specs.declared.plan.Plan.{Plan};
ghost use Rattle.ssf_model.specs.declared.wait.Kind.TheVariants.{Message};
ghost use Rattle.ssf_model.specs.Reaction.{LatestTime};
ghost use Rattle.ssf_model.specs.Entities.{IsValidEntity};
ghost use Rattle.ssf_model.specs.Run.{Fits, world_after, run_event};
ghost use Rattle.ip_layer.specs.Packets.{PacketFields, IsPacket};
ghost use Rattle.ip_layer.specs.Forwarding.{passed_on};
ghost use Rattle.tcp_rules.specs.Servers.{ServerFields};
ghost use Rattle.tcp_rules.specs.Transfers.{LiesIn};
ghost use Rattle.host_rules.specs.declared.sockets.Sockets.{Sockets};
ghost use Rattle.host_rules.specs.Hosts.{EntryFields, HostFields};
ghost use Rattle.host_rules.specs.Limits.{IsHost};
ghost use Rattle.host_rules.specs.Reacting.{host_reaction};
ghost use Rattle.net_graph.specs.declared.rows.Network.{Network};
ghost use Rattle.net_graph.specs.Networks.{IsNetwork};
ghost use Rattle.net_layout.specs.Faults.{first_fault};
ghost use Rattle.net_plan.specs.NetDraft.{IsNetBuilt};
ghost use Rattle.transfer_laws.specs.Sent.{segments_sent, IsServing};
ghost use Rattle.transfer_laws.specs.Stretch.{WaitsAfter, IsSynAt};
ghost use Rattle.network_transfers.specs.Senders.{HasAddress, IsHostOf, HasSent};

/// In a network without a fault no two hosts have an address in common.
pub fn addresses_have_one_host()
    ensures { (network : Network) (g h address : ℕ) → IsNetwork network → first_fault network ≡ None
        → HasAddress network g address → HasAddress network h address → g ≡ h }
{}

/// Each plan of a network without a fault fits.
pub fn plans_fit<B>()
    ensures { (behaviour : B) (network : Network) (plan : Plan B HostFields PacketFields) → IsNetwork network → first_fault network ≡ None
        → IsNetBuilt behaviour network plan → Fits IsHost IsPacket plan }
{}

/// In every run of the plan of a network without a fault, up to each time and under each cut, every host
/// is valid after each number of events, in its entity with its channels, processes and waits.
pub fn hosts_stay_valid<B>()
    ensures { (behaviour : B) (network : Network) (plan : Plan B HostFields PacketFields) (until : ℕ) (kept : KeyValue → Bool)
        → IsNetwork network → first_fault network ≡ None → IsNetBuilt behaviour network plan → until ≤ LatestTime
        → (n h : ℕ) (host : Entity B HostFields PacketFields)
        → slice_get (world_after host_reaction plan until kept n).state.entities h ≡ Some host → IsValidEntity IsHost host }
{}

/// In every run of the plan of a network without a fault, up to each time and under each cut: where a
/// server's peer has an address other than 0, each position that the server has delivered lies in a
/// segment that the one host of that address sent before, from the peer's port to the server's own
/// address and port, and that host sent the SYN right after which these positions begin.
pub fn servers_deliver_what_peers_sent<B>()
    ensures delivered { (behaviour : B) (network : Network) (plan : Plan B HostFields PacketFields) (until : ℕ) (kept : KeyValue → Bool)
        → IsNetwork network → first_fault network ≡ None → IsNetBuilt behaviour network plan → until ≤ LatestTime
        → (n : ℕ) (x : EntryFields) (server : ServerFields) → IsServing plan until kept n x server → (x.sockets.peer ≡ 0 → ⊥)
        → (position : ℕ) → server.irs < position → position ≤ server.irs + server.delivered
        → (h : ℕ) × IsHostOf network x.sockets.peer h × (segment : SegmentFields) × HasSent plan until kept n h x.sockets segment × LiesIn position segment }
    ensures syn { (behaviour : B) (network : Network) (plan : Plan B HostFields PacketFields) (until : ℕ) (kept : KeyValue → Bool)
        → IsNetwork network → first_fault network ≡ None → IsNetBuilt behaviour network plan → until ≤ LatestTime
        → (n : ℕ) (x : EntryFields) (server : ServerFields) → IsServing plan until kept n x server → (x.sockets.peer ≡ 0 → ⊥)
        → (h : ℕ) × IsHostOf network x.sockets.peer h × (segment : SegmentFields) × HasSent plan until kept n h x.sockets segment × IsSynAt server.irs segment }
{}

/// In these runs each server waits for the position right after its peer's SYN and the bytes that it has
/// delivered, and once it has passed its peer's FIN, right after that: what it has delivered is one
/// stretch of positions without a gap.
pub fn servers_deliver_without_gaps<B>()
    ensures { (behaviour : B) (network : Network) (plan : Plan B HostFields PacketFields) (until : ℕ) (kept : KeyValue → Bool)
        → IsNetwork network → first_fault network ≡ None → IsNetBuilt behaviour network plan → until ≤ LatestTime
        → (n : ℕ) (x : EntryFields) (server : ServerFields) → IsServing plan until kept n x server → WaitsAfter server.state server }
{}

/// Each segment that the one host of a peer's address has sent to a session, in every run of the plan of
/// a network, is among those that were sent to it by then: nothing counts as sent that was not.
pub fn sent_segments_are_those_sent<B>()
    ensures { (behaviour : B) (network : Network) (plan : Plan B HostFields PacketFields) (until : ℕ) (kept : KeyValue → Bool)
        → IsNetwork network → IsNetBuilt behaviour network plan
        → (n h : ℕ) (ends : Sockets) (segment : SegmentFields) → IsHostOf network ends.peer h → HasSent plan until kept n h ends segment
        → Among segment (segments_sent plan until kept ends n) }
{}

/// In these runs a packet that is passed on has less time to live than the 64 with which packets are
/// made: what counts as sent was made by the host that wrote it.
pub fn packets_passed_on_have_less_time<B>()
    ensures { (behaviour : B) (network : Network) (plan : Plan B HostFields PacketFields) (until : ℕ) (kept : KeyValue → Bool)
        → IsNetwork network → first_fault network ≡ None → IsNetBuilt behaviour network plan → until ≤ LatestTime
        → (n : ℕ) (event : Event PacketFields) (channel : ℕ) (came : PacketFields)
        → run_event host_reaction plan until kept n ≡ Some event → event.kind ≡ Message channel came → (passed_on came).ttl < 64 }
{}
