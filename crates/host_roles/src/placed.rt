//! Whether a host fits its entity.
ghost use Rattle.std.specs.Prelude.{◌≡◌, ◌<◌, ◌∷◌, ◌++◌, ◌↔◌, [], ℕ, IsTrue, Some, map, slice_get};
ghost use Rattle.event_order.specs.Pending.{Among};
ghost use Rattle.sim_base.specs.declared.records.ClientRow.{ClientRow};
ghost use Rattle.ssf_model.specs.Reaction.{Each, is_timed};
ghost use Rattle.host_rules.specs.declared.rows.HostRows.{HostRows as HostRowsValue};
ghost use Rattle.host_rules.specs.declared.rows.HostPort.{HostPort as HostPortValue};
ghost use Rattle.host_rules.specs.Reacting.{Role, Receiver, Clock, Client, roles, is_timed_role};
ghost use Rattle.host_rules.specs.Limits.{EachPair, HasOuts, IsWaitOf, AreWaits, IsPlaced};

use host_rules::{HostPort, HostRows};
use host_sending::Site;
use ssf_model::{Process, Wait};

/// Whether these channels are those of the interfaces and then the poke's.
fn are_in_channels(ports: &[HostPort], poke_in: u32, ins: &[u32]) -> bool
    ensures { IsTrue result ↔ (ins.now ≡ map (λ (port : HostPortValue). port.in_channel) ports.now ++ poke_in ∷ []) }
{
    if ins.len() != ports.len() + 1 {
        return false;
    }
    for index in 0..ports.len() {
        if ports[index].in_channel != ins[index] {
            return false;
        }
    }
    ins[ports.len()] == poke_in
}

/// Whether each number is greater than those before it.
fn are_rising(numbers: &[u32]) -> bool
    ensures { IsTrue result ↔ EachPair (λ (a b : ℕ). a < b) numbers.now }
{
    let mut least = 0;
    for index in 0..numbers.len() {
        let number = u64::from(numbers[index]);
        if number < least {
            return false;
        }
        least = number + 1;
    }
    true
}

/// Whether the channel is among these.
fn is_among(channel: u32, channels: &[u32]) -> bool
    ensures { IsTrue result ↔ Among channel channels.now }
{
    for index in 0..channels.len() {
        if channels[index] == channel {
            return true;
        }
    }
    false
}

/// Whether the out-channel to each attachment of a link is among these.
fn lead_out(ways: &[(u32, u32)], outs: &[u32]) -> bool
    ensures { IsTrue result ↔ Each (λ (way : ℕ × ℕ). Among way.1 outs.now) ways.now }
{
    for index in 0..ways.len() {
        if !is_among(ways[index].1, outs) {
            return false;
        }
    }
    true
}

/// Whether the out-channels of all these interfaces' links are among these.
fn have_outs(ports: &[HostPort], outs: &[u32]) -> bool
    ensures { IsTrue result ↔ Each (HasOuts outs.now) ports.now }
{
    for index in 0..ports.len() {
        if !lead_out(ports[index].outs.as_slice(), outs) {
            return false;
        }
    }
    true
}

/// Whether these are this channel alone.
fn is_only(channels: &[u32], channel: u32) -> bool
    ensures { IsTrue result ↔ (channels.now ≡ channel ∷ []) }
{
    match channels {
        [one] => *one == channel,
        _ => false,
    }
}

/// Whether a receiver may wait so: for its in-channel alone, or for nothing.
fn is_receiver_wait(port: &HostPort, wait: &Wait) -> bool
    ensures { (rows : HostRowsValue) → IsTrue result ↔ IsWaitOf rows (Receiver port.now) wait.now }
{
    match wait {
        Wait::On(channels) => is_only(channels.as_slice(), port.in_channel),
        Wait::For(_) | Wait::OnFor(_, _) => false,
        Wait::Forever => true,
    }
}

/// Whether the clock may wait so: for the poke alone, perhaps for a time besides, or for nothing.
fn is_clock_wait(rows: &HostRows, wait: &Wait) -> bool
    ensures { IsTrue result ↔ IsWaitOf rows.now Clock wait.now }
{
    match wait {
        Wait::On(channels) | Wait::OnFor(channels, _) => is_only(channels.as_slice(), rows.poke_in),
        Wait::For(_) => false,
        Wait::Forever => true,
    }
}

/// Whether a client session may wait so: for a time, or for nothing.
fn is_client_wait(wait: &Wait) -> bool
    ensures { (rows : HostRowsValue) (client : ℕ) (row : ClientRow) → IsTrue result ↔ IsWaitOf rows (Client client row) wait.now }
{
    match wait {
        Wait::For(_) | Wait::Forever => true,
        Wait::On(_) | Wait::OnFor(_, _) => false,
    }
}

/// Whether the process of this number may wait so.
fn is_wait_of(rows: &HostRows, number: usize, wait: &Wait) -> bool
    ensures { (role : Role) → slice_get (roles rows.now) number ≡ Some role → IsTrue result ↔ IsWaitOf rows.now role wait.now }
{
    let ports = rows.ports.as_slice();
    if number < ports.len() {
        return is_receiver_wait(&ports[number], wait);
    }
    if number == ports.len() {
        return is_clock_wait(rows, wait);
    }
    is_client_wait(wait)
}

/// Whether the process of this number is timed as it is to be: each is, but for the receivers.
fn is_timed_as(rows: &HostRows, number: usize, process: &Process) -> bool
    ensures { (role : Role) → slice_get (roles rows.now) number ≡ Some role → IsTrue result ↔ (is_timed process.now ≡ is_timed_role role) }
{
    if number < rows.ports.len() {
        return process.timer.is_none();
    }
    process.timer.is_some()
}

/// Whether the process of this number is timed as it is to be, and waits as it may.
fn is_process(rows: &HostRows, number: usize, process: &Process, wait: &Wait) -> bool
    ensures { (role : Role) → slice_get (roles rows.now) number ≡ Some role → IsTrue result ↔ ((is_timed process.now ≡ is_timed_role role) × IsWaitOf rows.now role wait.now) }
{
    is_timed_as(rows, number, process) && is_wait_of(rows, number, wait)
}

/// Whether each process is timed as it is to be, and waits as it may.
fn are_processes(rows: &HostRows, processes: &[Process], waits: &[Wait]) -> bool
    ensures { IsTrue result ↔ ((map is_timed processes.now ≡ map is_timed_role (roles rows.now)) × AreWaits rows.now (roles rows.now) waits.now) }
{
    let count = rows.ports.as_slice().len() + 1 + rows.clients.as_slice().len();
    if processes.len() != count || waits.len() != count {
        return false;
    }
    for index in 0..processes.len() {
        if !is_process(rows, index, &processes[index], &waits[index]) {
            return false;
        }
    }
    true
}

/// Whether a host fits an entity with these own in-channels and out-channels, these processes and
/// these waits of theirs.
pub fn is_placed(
    site: &Site,
    ins: &[u32],
    outs: &[u32],
    processes: &[Process],
    waits: &[Wait],
) -> bool
    ensures { IsTrue result ↔ IsPlaced site.now ins.now outs.now (map is_timed processes.now) waits.now }
{
    let rows = site.rows();
    are_in_channels(rows.ports.as_slice(), rows.poke_in, ins)
        && are_rising(ins)
        && is_among(rows.poke_out, outs)
        && have_outs(rows.ports.as_slice(), outs)
        && are_processes(rows, processes, waits)
}
