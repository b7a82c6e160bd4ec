//! Laws of hosts: the contracts of functions with empty bodies.
ghost use Rattle.std.specs.Prelude.{ℕ, ◌≡◌, ◌≤◌, Bool, true, List, length, map, replicate};
ghost use Rattle.std.specs.Option.{option_or};
ghost use Rattle.ssf_model.specs.declared.wait.Wait.{Wait};
ghost use Rattle.ssf_model.specs.declared.wait.Wait.TheVariants.{Forever};
ghost use Rattle.ssf_model.specs.declared.wait.Wake.{Wake};
ghost use Rattle.ssf_model.specs.Reaction.{Each, Carries, LatestTime, KeepsValid};
ghost use Rattle.ssf_model.specs.Deliver.{IsModest};
ghost use Rattle.ip_layer.specs.Packets.{PacketFields, IsPacket};
ghost use Rattle.host_rules.specs.declared.rows.HostRows.{HostRows};
ghost use Rattle.host_rules.specs.Hosts.{Sockets, EntryFields, Stack, HostFields, first_host};
ghost use Rattle.host_rules.specs.Entries.{found, same_sockets};
ghost use Rattle.host_rules.specs.Sources.{IsFrom, Brings};
ghost use Rattle.host_rules.specs.Between.{accepted_between, opened_between};
ghost use Rattle.host_rules.specs.Reacting.{roles, is_timed_role, host_reaction};
ghost use Rattle.host_rules.specs.Limits.{EachPair, AreRows, MostTransfers, AreWaits, IsPlaced, IsEarlier, IsStack, IsHost};

/// What a host does is what a behaviour may do: a valid host stays valid, writes packets on its
/// entity's out-channels, waits on its in-channels, all in time, and writes at most 4,194,304 times on
/// one channel at one event.
pub fn hosts_are_behaviours()
    ensures sound { KeepsValid IsHost IsPacket host_reaction }
    ensures modest { IsModest IsHost IsPacket host_reaction }
{}

/// No event changes a host's rows, nor when its client sessions start.
pub fn hosts_keep_their_rows()
    ensures rows { (s : HostFields) (i now : ℕ) (wake : Wake PacketFields) → (host_reaction s i now wake).state.rows ≡ s.rows }
    ensures starts { (s : HostFields) (i now : ℕ) (wake : Wake PacketFields) → (host_reaction s i now wake).state.starts ≡ s.starts }
{}

/// Before its first event a host is valid, where its rows are in range and its channels and processes
/// are those of its rows; then its processes may wait for nothing.
pub fn hosts_begin_valid()
    ensures host { (rows : HostRows) (ins outs : List ℕ) (timed : List Bool) (waits : List Wait) → AreRows rows → IsPlaced rows ins outs timed waits
        → IsHost (first_host rows) ins outs timed waits }
    ensures waits { (rows : HostRows) → AreWaits rows (roles rows) (replicate (length (map is_timed_role (roles rows))) Forever) }
{}

/// Of the sessions between two ends the first is the one that was accepted, where there is one, and
/// else the one that the host opened.
pub fn accepted_sessions_come_first()
    ensures { (sockets : Sockets) (xs : List EntryFields) → EachPair IsEarlier xs
        → found sockets xs ≡ option_or (accepted_between sockets xs) (opened_between sockets xs) }
{}

/// A host opens at most 50,000 transfers, so that their ports lie below 60,000, and it has at most
/// 1,050,000 sessions at one time.
pub fn sessions_are_few()
    ensures opened { (rows : HostRows) (s : Stack) → AreRows rows → IsStack rows s → s.opened ≤ MostTransfers }
    ensures sessions { (rows : HostRows) (s : Stack) → AreRows rows → IsStack rows s → length s.sessions ≤ 1050000 }
{}

/// Each packet that a valid host writes has one of the host's addresses as its source, or 0, or it is
/// the packet that came, passed on with a lower time to live.
pub fn hosts_send_by_their_own_addresses()
    ensures { (s : HostFields) (ins outs : List ℕ) (timed : List Bool) (waits : List Wait) (i now : ℕ) (wake : Wake PacketFields)
        → IsHost s ins outs timed waits → Carries IsPacket wake → now ≤ LatestTime → Each (Brings (IsFrom s.rows wake)) (host_reaction s i now wake).writes }
{}

/// Two sessions have the same ends only where both addresses and both ports agree.
pub fn sessions_are_told_apart_by_their_ends()
    ensures { (a b : Sockets) → same_sockets a b ≡ true → a ≡ b }
{}
