//! The keys of each kind of list of a Net. The first attribute of a key counts where one is wanted,
//! a key that wants a list passes texts by, and a key that wants a text and has a list is
//! `BadNumber`. Each function answers the first fault of its keys, or `Memory`.
ghost use Rattle.std.specs.Prelude.{◌≡◌, ℕ, ◌+◌, ◌<◌, ◌≤◌, ◌⊎◌, length, Some, None, Ok, Err, IfOk, IfErr, codes};
ghost use Rattle.std.specs.Option.{ForSome, option_copied};
ghost use Rattle.dml_tree.specs.TreeView.{attributes};
ghost use Rattle.net_graph.specs.Keys.{values_of, lists_of, first_of};
ghost use Rattle.net_graph.specs.ListKeys.{number_at, seconds_of_value, seconds_at, nhi_of_value, nhi_of_kind, frequency_of, ends_of, range_of, ids_at, interface_keys, is_default, default_in, next_hop_of, route_of, routes_of, gateway_of, attached_each, some_attached, down_of, numbered_down, downs_from, link_keys, text_or_missing, port_of, transport_of, client_keys, tcp_keys, default_tcp, session_named, session_keys, client_of, server_nhi, server_keys, is_route, first_value_of, id_number, is_text};

use crate::fault::{bad_nhi, bad_number, missing, too_many, unknown_session};
use crate::keys::{first_list, first_value, has_key, number_in};
use crate::readers::read_seconds;
use crate::{Down, ShapeFault};
use dml_tree::{Attribute, Tree, Value};
use nhi_address::{IdRange, Nhi, NhiFault, read_nhi};
use sim_base::{ClientRow, ListOf, TcpConfig};
use std::alloc::Global;

/// What an interface's keys say: its rate (1 to 10^12 bit/s), its latency (up to 10^18 ticks), its
/// buffer (1 to 2^31 bytes), and its cost to OSPF (1 to 65,535).
#[derive(Clone, Copy, Debug, PartialEq, Eq)]
pub struct InterfaceKeys {
    pub bitrate: u64,
    pub latency: u64,
    pub buffer: u64,
    pub cost: u32,
}

/// A default route: the id of the interface by which it leaves (at most 2^31 - 1), and perhaps the next
/// hop, which is an interface.
#[derive(Drop)]
pub struct GatewayKeys {
    pub interface: u32,
    pub next: Option<Nhi>,
}

/// What a link's keys say: the interfaces that it attaches, of which there is at least one, its delay
/// (up to 10^18 ticks), its priority (0 to 255; the smaller goes first), and when it is down.
#[derive(Drop)]
pub struct LinkKeys {
    pub attached: ListOf<Nhi>,
    pub delay: u64,
    pub priority: u8,
    pub downs: ListOf<Down>,
}

/// What a session's keys say.
#[derive(Clone, Copy, Debug, PartialEq, Eq)]
pub enum SessionKeys {
    /// `ip`, `udp` or `socket`: without an effect.
    Silent,
    /// `OSPF` or `ospf`.
    Ospf,
    /// `tcp`, with its settings.
    Tcp(TcpConfig),
    /// `client`, with its keys.
    Client(ClientRow),
    /// `server`, with its port (1 to 65,535).
    Server(u16),
}

/// A server of a traffic pattern: its NHI, with or without an interface, and its port (1 to 65,535).
#[derive(Drop)]
pub struct ServerKeys {
    pub nhi: Nhi,
    pub port: u16,
}

/// The most times in which a link is down, in a whole model.
pub const MOST_DOWNS: usize = 64;

/// An id is below this.
const ID_END: u64 = 2_147_483_648;

/// Whether a text is the wanted one.
fn spells(text: &[u8], wanted: &[u8]) -> bool
    ensures { result ≡ is_text wanted.now text.now }
{
    text == wanted
}

/// The whole number of the first attribute with this key, from `least` on and below `end`; without
/// one the default.
fn number(
    alloc: Global,
    tree: &Tree,
    key: &[u8],
    least: u64,
    end: u64,
    default: u64,
) -> Result<u64, ShapeFault>
    requires least { least ≤ default }
    requires end { default < end }
    ensures read { IfOk result (λ n. number_at key.now least end (Ok default) (attributes tree.now) ≡ Ok n) }
    ensures range { IfOk result (λ n. (least ≤ n) × (n < end)) }
    ensures cause { IfErr result (λ fault. (fault ≡ ShapeFault.Memory) ⊎ (number_at key.now least end (Ok default) (attributes tree.now) ≡ Err fault)) }
{
    match first_value(tree, key) {
        Some(value) => number_in(alloc, key, value, least, end),
        None => Ok(default),
    }
}

/// The whole number of the first attribute with this key, from `least` on and below `end`; there
/// has to be one.
fn needed_number(
    alloc: Global,
    tree: &Tree,
    key: &[u8],
    least: u64,
    end: u64,
) -> Result<u64, ShapeFault>
    ensures read { IfOk result (λ n. number_at key.now least end (Err (ShapeFault.Missing key.now)) (attributes tree.now) ≡ Ok n) }
    ensures range { IfOk result (λ n. (least ≤ n) × (n < end)) }
    ensures cause { IfErr result (λ fault. (fault ≡ ShapeFault.Memory) ⊎ (number_at key.now least end (Err (ShapeFault.Missing key.now)) (attributes tree.now) ≡ Err fault)) }
{
    match first_value(tree, key) {
        Some(value) => number_in(alloc, key, value, least, end),
        None => Err(missing(alloc, key)),
    }
}

/// The ticks of a value that has to be a text of seconds.
fn seconds_in(alloc: Global, key: &[u8], value: &Value, frequency: u64) -> Result<u64, ShapeFault>
    ensures read { IfOk result (λ ticks. seconds_of_value key.now frequency value.now ≡ Ok ticks) }
    ensures cause { IfErr result (λ fault. (fault ≡ ShapeFault.Memory) ⊎ (seconds_of_value key.now frequency value.now ≡ Err fault)) }
{
    let ticks = match value {
        Value::Plain(text) => read_seconds(text.as_bytes(), frequency),
        Value::List(_) => None,
    };
    match ticks {
        Some(ticks) => Ok(ticks),
        None => Err(bad_number(alloc, key)),
    }
}

/// The ticks of the first attribute with this key; without one the default.
fn seconds(
    alloc: Global,
    tree: &Tree,
    key: &[u8],
    frequency: u64,
    default: u64,
) -> Result<u64, ShapeFault>
    ensures read { IfOk result (λ ticks. seconds_at key.now frequency default (attributes tree.now) ≡ Ok ticks) }
    ensures cause { IfErr result (λ fault. (fault ≡ ShapeFault.Memory) ⊎ (seconds_at key.now frequency default (attributes tree.now) ≡ Err fault)) }
{
    match first_value(tree, key) {
        Some(value) => seconds_in(alloc, key, value, frequency),
        None => Ok(default),
    }
}

/// The NHI of a value that has to be a text.
fn nhi_in(alloc: Global, key: &[u8], value: &Value) -> Result<Nhi, ShapeFault>
    ensures read { IfOk result (λ nhi. nhi_of_value key.now value.now ≡ Ok nhi) }
    ensures cause { IfErr result (λ fault. (fault ≡ ShapeFault.Memory) ⊎ (nhi_of_value key.now value.now ≡ Err fault)) }
{
    let Value::Plain(text) = value else {
        return Err(bad_number(alloc, key));
    };
    match read_nhi(alloc, text.as_bytes()) {
        Ok(nhi) => Ok(nhi),
        Err(NhiFault::BadNhi) => Err(bad_nhi(alloc, text.as_bytes())),
        Err(NhiFault::Memory) => Err(ShapeFault::Memory),
    }
}

/// The NHI of a value that has to be a text: one with an interface, or one without.
fn nhi_of_kind_in(
    alloc: Global,
    interface: bool,
    key: &[u8],
    value: &Value,
) -> Result<Nhi, ShapeFault>
    ensures read { IfOk result (λ nhi. nhi_of_kind interface key.now value.now ≡ Ok nhi) }
    ensures cause { IfErr result (λ fault. (fault ≡ ShapeFault.Memory) ⊎ (nhi_of_kind interface key.now value.now ≡ Err fault)) }
{
    let Value::Plain(text) = value else {
        return Err(bad_number(alloc, key));
    };
    match read_nhi(alloc, text.as_bytes()) {
        Ok(nhi) => {
            if nhi.interface.is_some() == interface {
                Ok(nhi)
            } else {
                Err(bad_nhi(alloc, text.as_bytes()))
            }
        }
        Err(NhiFault::BadNhi) => Err(bad_nhi(alloc, text.as_bytes())),
        Err(NhiFault::Memory) => Err(ShapeFault::Memory),
    }
}

/// The ticks of a second, from the top Net's keys: 1 to 10^12, and 10^9 where they are silent.
///
/// # Errors
/// `BadNumber` with `frequency`, or `Memory`.
pub fn read_frequency(alloc: Global, net: &Tree) -> Result<u64, ShapeFault>
    ensures read { IfOk result (λ frequency. frequency_of (attributes net.now) ≡ Ok frequency) }
    ensures range { IfOk result (λ frequency. (1 ≤ frequency) × (frequency ≤ 1000000000000)) }
    ensures cause { IfErr result (λ fault. (fault ≡ ShapeFault.Memory) ⊎ (frequency_of (attributes net.now) ≡ Err fault)) }
{
    number(
        alloc,
        net,
        b"frequency",
        1,
        1_000_000_000_001,
        1_000_000_000,
    )
}

/// The first values `from` and `to`, which both have to stand.
fn read_ends(alloc: Global, tree: &Tree) -> Result<(&Value, &Value), ShapeFault>
    ensures read { IfOk result (λ ends. ends_of (attributes tree.now) ≡ Ok (ends.0.now, ends.1.now)) }
    ensures cause { IfErr result (λ fault. (fault ≡ ShapeFault.Memory) ⊎ (ends_of (attributes tree.now) ≡ Err fault)) }
{
    match (first_value(tree, b"from"), first_value(tree, b"to")) {
        (Some(from), Some(to)) => Ok((from, to)),
        (None, _) => Err(missing(alloc, b"from")),
        (Some(_), None) => Err(missing(alloc, b"to")),
    }
}

/// The ids of a list `idrange`, from the first to the last one.
fn read_range(alloc: Global, range: &Tree) -> Result<IdRange, ShapeFault>
    ensures read { IfOk result (λ ids. range_of (attributes range.now) ≡ Ok ids) }
    ensures range { IfOk result (λ ids. (ids.from ≤ ids.to) × (ids.to < 2147483648)) }
    ensures cause { IfErr result (λ fault. (fault ≡ ShapeFault.Memory) ⊎ (range_of (attributes range.now) ≡ Err fault)) }
{
    let (from, to) = read_ends(alloc, range)?;
    let from = number_in(alloc, b"idrange", from, 0, ID_END)? as u32;
    let to = number_in(alloc, b"idrange", to, 0, ID_END)? as u32;
    if from <= to {
        Ok(IdRange { from, to })
    } else {
        Err(bad_number(alloc, b"idrange"))
    }
}

/// The ids of the copies that a list makes: its `id`, and else its `idrange`.
///
/// # Errors
/// `BadNumber` with `id` or `idrange`; `Missing` with `id`, `from` or `to`; `Memory`.
pub fn read_ids(alloc: Global, list: &Tree) -> Result<IdRange, ShapeFault>
    ensures read { IfOk result (λ ids. ids_at (attributes list.now) ≡ Ok ids) }
    ensures range { IfOk result (λ ids. (ids.from ≤ ids.to) × (ids.to < 2147483648)) }
    ensures cause { IfErr result (λ fault. (fault ≡ ShapeFault.Memory) ⊎ (ids_at (attributes list.now) ≡ Err fault)) }
{
    if let Some(value) = first_value(list, b"id") {
        let id = number_in(alloc, b"id", value, 0, ID_END)? as u32;
        return Ok(IdRange { from: id, to: id });
    }
    match first_list(list, b"idrange") {
        Some(range) => read_range(alloc, range),
        None => Err(missing(alloc, b"id")),
    }
}

/// The keys of an interface, where a second has so many ticks.
///
/// # Errors
/// `BadNumber` with `bitrate`, `latency`, `buffer` or `cost`; `Memory`.
pub fn read_interface(
    alloc: Global,
    interface: &Tree,
    frequency: u64,
) -> Result<InterfaceKeys, ShapeFault>
    ensures read { IfOk result (λ keys. interface_keys frequency (attributes interface.now) ≡ Ok keys) }
    ensures cause { IfErr result (λ fault. (fault ≡ ShapeFault.Memory) ⊎ (interface_keys frequency (attributes interface.now) ≡ Err fault)) }
{
    let bitrate = number(
        alloc,
        interface,
        b"bitrate",
        1,
        1_000_000_000_001,
        10_000_000,
    )?;
    let latency = seconds(alloc, interface, b"latency", frequency, 0)?;
    let buffer = number(alloc, interface, b"buffer", 1, 2_147_483_649, 1_000_000)?;
    let cost = number(alloc, interface, b"cost", 1, 65_536, 1)? as u32;
    Ok(InterfaceKeys {
        bitrate,
        latency,
        buffer,
        cost,
    })
}

/// Whether an attribute has the key of a route.
fn has_route_key(attribute: &Attribute) -> bool
    ensures { result ≡ is_route attribute.now }
{
    has_key(attribute, b"nhi_route") || has_key(attribute, b"route")
}

/// Whether the destination of a route is `default`; a route without one is another route.
fn has_default(alloc: Global, route: &Tree) -> Result<bool, ShapeFault>
    ensures read { IfOk result (λ b. is_default (first_value_of (codes "dest") (attributes route.now)) ≡ Ok b) }
    ensures cause { IfErr result (λ fault. (fault ≡ ShapeFault.Memory) ⊎ (is_default (first_value_of (codes "dest") (attributes route.now)) ≡ Err fault)) }
{
    match first_value(route, b"dest") {
        None => Ok(false),
        Some(Value::Plain(text)) => Ok(spells(text.as_bytes(), b"default")),
        Some(Value::List(_)) => Err(bad_number(alloc, b"dest")),
    }
}

/// The first of a host's routes whose destination is `default`.
fn default_route(alloc: Global, host: &Tree) -> Result<Option<&Tree>, ShapeFault>
    ensures read { IfOk result (λ route. default_in (routes_of (attributes host.now)) ≡ Ok (option_copied route)) }
    ensures cause { IfErr result (λ fault. (fault ≡ ShapeFault.Memory) ⊎ (default_in (routes_of (attributes host.now)) ≡ Err fault)) }
{
    for attribute in host.attributes() {
        if has_route_key(attribute) {
            if let Value::List(route) = &attribute.value {
                if has_default(alloc, route)? {
                    return Ok(Some(route));
                }
            }
        }
    }
    Ok(None)
}

/// The next hop of a route, where one is stated.
fn read_next_hop(alloc: Global, route: &Tree) -> Result<Option<Nhi>, ShapeFault>
    ensures read { IfOk result (λ next. next_hop_of (first_value_of (codes "next_hop") (attributes route.now)) ≡ Ok next) }
    ensures cause { IfErr result (λ fault. (fault ≡ ShapeFault.Memory) ⊎ (next_hop_of (first_value_of (codes "next_hop") (attributes route.now)) ≡ Err fault)) }
{
    match first_value(route, b"next_hop") {
        Some(value) => {
            let nhi = nhi_of_kind_in(alloc, true, b"next_hop", value)?;
            Ok(Some(nhi))
        }
        None => Ok(None),
    }
}

/// The keys of a default route.
fn read_route(alloc: Global, route: &Tree) -> Result<GatewayKeys, ShapeFault>
    ensures read { IfOk result (λ keys. route_of (attributes route.now) ≡ Ok keys) }
    ensures range { IfOk result (λ keys. keys.interface < 2147483648) }
    ensures cause { IfErr result (λ fault. (fault ≡ ShapeFault.Memory) ⊎ (route_of (attributes route.now) ≡ Err fault)) }
{
    let interface = needed_number(alloc, route, b"interface", 0, ID_END)? as u32;
    let next = read_next_hop(alloc, route)?;
    Ok(GatewayKeys { interface, next })
}

/// The default route of a host or router.
///
/// # Errors
/// `BadNumber` with `dest`, `interface` or `next_hop`; `Missing` with `interface`; `BadNhi` with a next
/// hop that is no NHI, or one without an interface; `Memory`.
pub fn read_gateway(alloc: Global, host: &Tree) -> Result<Option<GatewayKeys>, ShapeFault>
    ensures read { IfOk result (λ keys. gateway_of (attributes host.now) ≡ Ok keys) }
    ensures range { IfOk result (λ keys. ForSome keys (λ k. k.interface < 2147483648)) }
    ensures cause { IfErr result (λ fault. (fault ≡ ShapeFault.Memory) ⊎ (gateway_of (attributes host.now) ≡ Err fault)) }
{
    match default_route(alloc, host)? {
        Some(route) => {
            let keys = read_route(alloc, route)?;
            Ok(Some(keys))
        }
        None => Ok(None),
    }
}

/// The interfaces that the attributes `attach` of a link name, in their order.
fn read_each_attached(alloc: Global, link: &Tree) -> Result<Vec<Nhi>, ShapeFault>
    ensures read { IfOk result (λ attached. attached_each (values_of (codes "attach") (attributes link.now)) ≡ Ok attached.items) }
    ensures cause { IfErr result (λ fault. (fault ≡ ShapeFault.Memory) ⊎ (attached_each (values_of (codes "attach") (attributes link.now)) ≡ Err fault)) }
{
    let mut attached = Vec::new(alloc);
    for attribute in link.attributes() {
        if has_key(attribute, b"attach") {
            attached.push(nhi_of_kind_in(alloc, true, b"attach", &attribute.value)?)?;
        }
    }
    Ok(attached)
}

/// The interfaces that a link attaches; there has to be one.
fn read_attached(alloc: Global, link: &Tree) -> Result<Vec<Nhi>, ShapeFault>
    ensures read { IfOk result (λ attached. some_attached (attached_each (values_of (codes "attach") (attributes link.now))) ≡ Ok attached.items) }
    ensures cause { IfErr result (λ fault. (fault ≡ ShapeFault.Memory) ⊎ (some_attached (attached_each (values_of (codes "attach") (attributes link.now))) ≡ Err fault)) }
{
    let attached = read_each_attached(alloc, link)?;
    if attached.is_empty() {
        Err(missing(alloc, b"attach"))
    } else {
        Ok(attached)
    }
}

/// The keys of a time in which a link is down.
fn read_down(alloc: Global, down: &Tree, frequency: u64) -> Result<Down, ShapeFault>
    ensures read { IfOk result (λ read. down_of frequency (attributes down.now) ≡ Ok read) }
    ensures cause { IfErr result (λ fault. (fault ≡ ShapeFault.Memory) ⊎ (down_of frequency (attributes down.now) ≡ Err fault)) }
{
    let (from, to) = read_ends(alloc, down)?;
    let from = seconds_in(alloc, b"down", from, frequency)?;
    let to = seconds_in(alloc, b"down", to, frequency)?;
    if from < to {
        Ok(Down { from, to })
    } else {
        Err(bad_number(alloc, b"down"))
    }
}

/// The keys of the time in which a link is down that has this number in the whole model.
fn read_numbered_down(
    alloc: Global,
    down: &Tree,
    frequency: u64,
    number: usize,
) -> Result<Down, ShapeFault>
    ensures read { IfOk result (λ read. numbered_down frequency number down.now ≡ Ok read) }
    ensures few { IfOk result (λ _. number < 64) }
    ensures cause { IfErr result (λ fault. (fault ≡ ShapeFault.Memory) ⊎ (numbered_down frequency number down.now ≡ Err fault)) }
{
    let read = read_down(alloc, down, frequency)?;
    if number < MOST_DOWNS {
        Ok(read)
    } else {
        Err(too_many(alloc, b"downs"))
    }
}

/// The times in which a link is down, where the model has so many before.
fn read_downs(
    alloc: Global,
    link: &Tree,
    frequency: u64,
    before: usize,
) -> Result<Vec<Down>, ShapeFault>
    requires { before ≤ 64 }
    ensures read { IfOk result (λ downs. downs_from frequency before (lists_of (codes "down") (attributes link.now)) ≡ Ok downs.items) }
    ensures few { IfOk result (λ downs. before + length downs.items ≤ 64) }
    ensures cause { IfErr result (λ fault. (fault ≡ ShapeFault.Memory) ⊎ (downs_from frequency before (lists_of (codes "down") (attributes link.now)) ≡ Err fault)) }
{
    let mut downs = Vec::new(alloc);
    for attribute in link.attributes() {
        if has_key(attribute, b"down") {
            if let Value::List(inner) = &attribute.value {
                let number = before + downs.len();
                downs.push(read_numbered_down(alloc, inner, frequency, number)?)?;
            }
        }
    }
    Ok(downs)
}

/// The keys of a link, where a second has so many ticks, and the model has so many times in which a link
/// is down before.
///
/// # Errors
/// `BadNhi` with an attachment that is no NHI, or one without an interface; `Missing` with `attach`,
/// `from` or `to`; `BadNumber` with `attach`, `delay`, `priority` or `down`; `TooMany` with `downs`;
/// `Memory`.
pub fn read_link(
    alloc: Global,
    link: &Tree,
    frequency: u64,
    before: usize,
) -> Result<LinkKeys, ShapeFault>
    requires { before ≤ 64 }
    ensures read { IfOk result (λ keys. link_keys frequency before (attributes link.now) ≡ Ok keys) }
    ensures few { IfOk result (λ keys. before + length keys.downs ≤ 64) }
    ensures cause { IfErr result (λ fault. (fault ≡ ShapeFault.Memory) ⊎ (link_keys frequency before (attributes link.now) ≡ Err fault)) }
{
    let attached = read_attached(alloc, link)?;
    let delay = seconds(alloc, link, b"delay", frequency, 0)?;
    let priority = number(alloc, link, b"priority", 0, 256, 0)? as u8;
    let downs = read_downs(alloc, link, frequency, before)?;
    Ok(LinkKeys {
        attached: ListOf::from_vec(attached),
        delay,
        priority,
        downs: ListOf::from_vec(downs),
    })
}

/// The port that a list has to name.
fn read_port(alloc: Global, tree: &Tree) -> Result<u16, ShapeFault>
    ensures read { IfOk result (λ port. port_of (attributes tree.now) ≡ Ok port) }
    ensures cause { IfErr result (λ fault. (fault ≡ ShapeFault.Memory) ⊎ (port_of (attributes tree.now) ≡ Err fault)) }
{
    let port = needed_number(alloc, tree, b"port", 1, 65_536)?;
    Ok(port as u16)
}

/// Whether a client uses TCP.
fn read_transport(alloc: Global, session: &Tree) -> Result<bool, ShapeFault>
    ensures read { IfOk result (λ tcp. transport_of (first_value_of (codes "transport") (attributes session.now)) ≡ Ok tcp) }
    ensures cause { IfErr result (λ fault. (fault ≡ ShapeFault.Memory) ⊎ (transport_of (first_value_of (codes "transport") (attributes session.now)) ≡ Err fault)) }
{
    let Some(value) = first_value(session, b"transport") else {
        return Ok(true);
    };
    let Value::Plain(text) = value else {
        return Err(bad_number(alloc, b"transport"));
    };
    if spells(text.as_bytes(), b"tcp") {
        Ok(true)
    } else if spells(text.as_bytes(), b"udp") {
        Ok(false)
    } else {
        Err(bad_number(alloc, b"transport"))
    }
}

/// The keys of a session `client`.
fn read_client_session(
    alloc: Global,
    session: &Tree,
    frequency: u64,
) -> Result<ClientRow, ShapeFault>
    ensures read { IfOk result (λ row. client_keys frequency (attributes session.now) ≡ Ok row) }
    ensures cause { IfErr result (λ fault. (fault ≡ ShapeFault.Memory) ⊎ (client_keys frequency (attributes session.now) ≡ Err fault)) }
{
    let tcp = read_transport(alloc, session)?;
    let start = seconds(alloc, session, b"start_time", frequency, 0)?;
    let window = seconds(alloc, session, b"start_window", frequency, 0)?;
    let file = number(alloc, session, b"file_size", 0, 1_073_741_825, 10_000)?;
    let datagram = number(alloc, session, b"datagram_size", 1, 65_508, 1_000)?;
    let interval = seconds(alloc, session, b"send_interval", frequency, frequency / 100)?;
    Ok(ClientRow {
        tcp,
        start,
        window,
        file,
        datagram,
        interval,
    })
}

/// The settings of TCP of a host without a session `tcp`.
pub fn default_settings(frequency: u64) -> TcpConfig
    requires { frequency ≤ 1000000000000 }
    ensures { result ≡ default_tcp frequency }
{
    TcpConfig {
        iss: 0,
        mss: 1_000,
        receive: 32,
        send: 32,
        tries: 12,
        msl: 60 * frequency,
        frequency,
    }
}

/// The settings of TCP that a list holds.
fn read_settings(alloc: Global, tree: &Tree, frequency: u64) -> Result<TcpConfig, ShapeFault>
    requires { frequency ≤ 1000000000000 }
    ensures read { IfOk result (λ settings. tcp_keys frequency (attributes tree.now) ≡ Ok settings) }
    ensures cause { IfErr result (λ fault. (fault ≡ ShapeFault.Memory) ⊎ (tcp_keys frequency (attributes tree.now) ≡ Err fault)) }
{
    let iss = number(alloc, tree, b"ISS", 0, 1_073_741_825, 0)?;
    let mss = number(alloc, tree, b"MSS", 1, 65_496, 1_000)?;
    let receive = number(alloc, tree, b"RcvWndSize", 1, 65_536, 32)?;
    let send = number(alloc, tree, b"SendWndSize", 1, 65_536, 32)?;
    let tries = number(alloc, tree, b"MaxRexmitTimes", 0, 101, 12)?;
    let msl = seconds(alloc, tree, b"MSL", frequency, 60 * frequency)?;
    Ok(TcpConfig {
        iss,
        mss,
        receive,
        send,
        tries,
        msl,
        frequency,
    })
}

/// The keys of a session with this name.
fn read_named_session(
    alloc: Global,
    session: &Tree,
    frequency: u64,
    name: &[u8],
) -> Result<SessionKeys, ShapeFault>
    requires { frequency ≤ 1000000000000 }
    ensures read { IfOk result (λ keys. session_named frequency (attributes session.now) name.now ≡ Ok keys) }
    ensures cause { IfErr result (λ fault. (fault ≡ ShapeFault.Memory) ⊎ (session_named frequency (attributes session.now) name.now ≡ Err fault)) }
{
    if spells(name, b"ip") || spells(name, b"udp") || spells(name, b"socket") {
        Ok(SessionKeys::Silent)
    } else if spells(name, b"tcp") {
        let inner = first_list(session, b"tcpinit").unwrap_or(session);
        let settings = read_settings(alloc, inner, frequency)?;
        Ok(SessionKeys::Tcp(settings))
    } else if spells(name, b"client") {
        let row = read_client_session(alloc, session, frequency)?;
        Ok(SessionKeys::Client(row))
    } else if spells(name, b"server") {
        let port = read_port(alloc, session)?;
        Ok(SessionKeys::Server(port))
    } else if spells(name, b"OSPF") || spells(name, b"ospf") {
        Ok(SessionKeys::Ospf)
    } else {
        Err(unknown_session(alloc, name))
    }
}

/// The keys of a session, where a second has so many ticks.
///
/// # Errors
/// `Missing` with `name`, or with `port` of a `server`; `UnknownSession` with another name; `BadNumber`
/// with the key; `Memory`.
pub fn read_session(
    alloc: Global,
    session: &Tree,
    frequency: u64,
) -> Result<SessionKeys, ShapeFault>
    requires { frequency ≤ 1000000000000 }
    ensures read { IfOk result (λ keys. session_keys frequency (attributes session.now) ≡ Ok keys) }
    ensures cause { IfErr result (λ fault. (fault ≡ ShapeFault.Memory) ⊎ (session_keys frequency (attributes session.now) ≡ Err fault)) }
{
    match first_value(session, b"name") {
        None => Err(missing(alloc, b"name")),
        Some(Value::List(_)) => Err(bad_number(alloc, b"name")),
        Some(Value::Plain(name)) => read_named_session(alloc, session, frequency, name.as_bytes()),
    }
}

/// The client of a traffic pattern.
///
/// # Errors
/// `Missing` or `BadNumber` with `client`; `BadNhi` with a client that is no NHI, or one with an
/// interface; `Memory`.
pub fn read_client(alloc: Global, pattern: &Tree) -> Result<Nhi, ShapeFault>
    ensures read { IfOk result (λ nhi. client_of (attributes pattern.now) ≡ Ok nhi) }
    ensures cause { IfErr result (λ fault. (fault ≡ ShapeFault.Memory) ⊎ (client_of (attributes pattern.now) ≡ Err fault)) }
{
    match first_value(pattern, b"client") {
        Some(value) => nhi_of_kind_in(alloc, false, b"client", value),
        None => Err(missing(alloc, b"client")),
    }
}

/// The NHI of a server of a traffic pattern.
fn read_server_nhi(alloc: Global, server: &Tree) -> Result<Nhi, ShapeFault>
    ensures read { IfOk result (λ nhi. server_nhi (attributes server.now) ≡ Ok nhi) }
    ensures cause { IfErr result (λ fault. (fault ≡ ShapeFault.Memory) ⊎ (server_nhi (attributes server.now) ≡ Err fault)) }
{
    match first_value(server, b"nhi") {
        Some(value) => nhi_in(alloc, b"nhi", value),
        None => Err(missing(alloc, b"nhi")),
    }
}

/// The keys of a server of a traffic pattern.
///
/// # Errors
/// `Missing` or `BadNumber` with `nhi` or `port`; `BadNhi` with a server that is no NHI; `Memory`.
pub fn read_server(alloc: Global, server: &Tree) -> Result<ServerKeys, ShapeFault>
    ensures read { IfOk result (λ keys. server_keys (attributes server.now) ≡ Ok keys) }
    ensures cause { IfErr result (λ fault. (fault ≡ ShapeFault.Memory) ⊎ (server_keys (attributes server.now) ≡ Err fault)) }
{
    let nhi = read_server_nhi(alloc, server)?;
    let port = read_port(alloc, server)?;
    Ok(ServerKeys { nhi, port })
}
