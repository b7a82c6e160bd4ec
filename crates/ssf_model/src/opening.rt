//! Openings: where in its run a plan begins. What changes in a run is told apart from what does not,
//! so that a plan can go on where a run of it stood.

ghost use Rattle.std.specs.Prelude.{◌≡◌, ◌≤◌, ◌<◌, ◌^◌, ◌↔◌, ℕ, length, map, IsTrue, Some, nat_eq, find, slice_get};
ghost use Rattle.std.specs.List.{range_with_len, AllZip};
ghost use Rattle.std.specs.List.Sorted.{IsStrictlyIncreasing};
ghost use Rattle.event_order.specs.Pending.{Among, IsRising};
ghost use Rattle.ssf_model.specs.declared.plan.Mapping.{Mapping as MappingValue};
ghost use Rattle.ssf_model.specs.Wake.{IsTimelyTicket};
ghost use Rattle.ssf_model.specs.Reaction.{Each};
ghost use Rattle.ssf_model.specs.Run.{Fits, HasAt, IsWired, IsPending, IsOnChannel, IsEndFor, IsMessageOn, LatestPending, MostBefore, MostCount, counts_of};
ghost use Rattle.ssf_model.specs.Openings.{IsAsLong, HasShape, IsOpeningOf, MayOpen, MayWait, reopened, reopened_entity, reopened_entities, reopened_processes};

use crate::{Behaviour, Entity, Event, Kind, Mapping, Plan, Process, Wait};
use event_order::Key;
use sim_base::ListOf;

/// The greatest count of a channel at an opening.
pub const MOST_COUNT: u64 = 5_000_000_000_000_000_000;

/// The greatest ticket of a process at an opening.
pub const MOST_TICKET: u64 = 1_000_000_000_000_000_000;

/// The most events before an opening.
pub const MOST_BEFORE: u64 = 1_000_000_000_000_000_000;

/// The latest time of an event that is pending at an opening, in ticks.
pub const LATEST_PENDING: u64 = 1_002_000_000_000_000_000;

/// An entity at an opening: its state, and the wait and the ticket of each of its processes, in
/// their order.
#[derive(Drop)]
pub struct Opened<B: Behaviour> {
    pub state: B::State,
    pub waits: ListOf<Wait>,
    pub tickets: ListOf<u64>,
}

/// What a run begins with where a plan is given: its entities, how many writes each channel counts
/// already, the pending events in the order of their keys, and how many events went before.
#[derive(Drop)]
pub struct Opening<B: Behaviour> {
    pub entities: ListOf<Opened<B>>,
    pub counts: ListOf<u64>,
    pub pending: ListOf<Event<B::Payload>>,
    pub events: u64,
}

impl<B: Behaviour> Plan<B> {
    /// Whether an opening is one of this plan: it has as many entities, waits, tickets and counts,
    /// its states are valid with their waits, its waits, tickets, counts and number of events are
    /// such as a run of the plan may reach, and its pending events stand in the order of their keys,
    /// each on a channel that leads to its entity and with a number that the channel has counted.
    pub fn lawful(&self, opening: &Opening<B>) -> bool
        requires { Fits (B.valid self.now.behaviour) (B.carried self.now.behaviour) self.now }
        ensures { IsTrue result ↔ IsOpeningOf (B.valid self.now.behaviour) (B.carried self.now.behaviour) self.now opening.now }
    {
        if !is_in_range(opening, self.counts.len()) {
            return false;
        }
        let entities = self.entities.as_slice();
        if !can_all_open(&self.behaviour, entities, opening.entities.as_slice()) {
            return false;
        }
        are_rising(opening.pending.as_slice()) && are_pending(self, opening)
    }

    /// The plan with this opening; takes no memory.
    pub fn begin_at(self, opening: Opening<B>) -> Plan<B>
        requires fits { Fits (B.valid self.behaviour) (B.carried self.behaviour) self }
        requires lawful { IsOpeningOf (B.valid self.behaviour) (B.carried self.behaviour) self opening }
        ensures plan { result ≡ reopened self opening }
        ensures fits { Fits (B.valid self.behaviour) (B.carried self.behaviour) result }
    {
        let Plan {
            behaviour,
            entities,
            events: _,
            mappings,
            counts: _,
            before: _,
        } = self;
        let Opening {
            entities: opened,
            counts,
            pending,
            events,
        } = opening;
        let entities = reopen_all(entities.into_vec(), opened.into_vec());
        Plan {
            behaviour,
            entities: ListOf::from_vec(entities),
            events: pending,
            mappings,
            counts,
            before: events,
        }
    }
}

/// The entities with these states, waits and tickets.
fn reopen_all<B: Behaviour>(mut entities: Vec<Entity<B>>, opened: Vec<Opened<B>>) -> Vec<Entity<B>>
    requires long { AllZip IsAsLong entities.items opened.items }
    requires size { length opened.items ≡ length entities.items }
    ensures { result.items ≡ reopened_entities entities.items opened.items }
{
    let mut index = 0;
    for opened in opened {
        reopen(&mut entities[index], opened);
        index += 1;
    }
    entities
}

/// Gives an entity this state, and its processes these waits and tickets.
fn reopen<B: Behaviour>(entity: &mut Entity<B>, opened: Opened<B>)
    requires { IsAsLong entity.old opened }
    ensures { entity.new ≡ reopened_entity entity.old opened }
{
    let Opened {
        state,
        waits,
        tickets,
    } = opened;
    entity.state = state;
    let mut index = 0;
    for wait in waits.into_vec() {
        let ticket = tickets.as_slice()[index];
        let timer = entity.processes.as_slice()[index].timer;
        let process = Process {
            wait,
            ticket,
            timer,
        };
        entity.processes.replace(index, process);
        index += 1;
    }
}

/// Whether an opening has a count in range for each of so many channels, and a number of events
/// before in range.
fn is_in_range<B: Behaviour>(opening: &Opening<B>, channels: usize) -> bool
    ensures { IsTrue result ↔ ((length opening.now.counts ≡ channels) × Each (λ n. n ≤ MostCount) opening.now.counts × (opening.now.events ≤ MostBefore)) }
{
    opening.counts.len() == channels
        && are_at_most(opening.counts.as_slice(), MOST_COUNT)
        && opening.events <= MOST_BEFORE
}

/// Whether none of these numbers is above `most`.
fn are_at_most(numbers: &[u64], most: u64) -> bool
    ensures { IsTrue result ↔ Each (λ n. n ≤ most) numbers.now }
{
    for index in 0..numbers.len() {
        if numbers[index] > most {
            return false;
        }
    }
    true
}

/// Whether entities may open so, one by one.
fn can_all_open<B: Behaviour>(behaviour: &B, entities: &[Entity<B>], opened: &[Opened<B>]) -> bool
    requires few { Each (λ e. length e.processes ≤ 2 ^ 32) entities.now }
    requires rising { Each (λ e. IsStrictlyIncreasing e.in_channels) entities.now }
    ensures { IsTrue result ↔ AllZip (MayOpen (B.valid behaviour.now)) entities.now opened.now }
{
    if opened.len() != entities.len() {
        return false;
    }
    for index in 0..entities.len() {
        if !can_open(behaviour, &entities[index], &opened[index]) {
            return false;
        }
    }
    true
}

/// Whether an entity may open so.
fn can_open<B: Behaviour>(behaviour: &B, entity: &Entity<B>, opened: &Opened<B>) -> bool
    requires few { length entity.now.processes ≤ 2 ^ 32 }
    requires rising { IsStrictlyIncreasing entity.now.in_channels }
    ensures { IsTrue result ↔ MayOpen (B.valid behaviour.now) entity.now opened.now }
{
    let processes = entity.processes.as_slice();
    let waits = opened.waits.as_slice();
    let tickets = opened.tickets.as_slice();
    let ins = entity.in_channels.as_slice();
    let outs = entity.out_channels.as_slice();
    if waits.len() != processes.len() || tickets.len() != processes.len() {
        return false;
    }
    if !behaviour.is_valid(&opened.state, ins, outs, processes, waits) {
        return false;
    }
    can_all_wait(ins, processes, waits) && are_at_most(tickets, MOST_TICKET)
}

/// Whether processes of an entity with these in-channels may wait so, one by one.
fn can_all_wait(ins: &[u32], processes: &[Process], waits: &[Wait]) -> bool
    requires rising { IsStrictlyIncreasing ins.now }
    requires long { length waits.now ≡ length processes.now }
    ensures { IsTrue result ↔ AllZip (MayWait ins.now) processes.now waits.now }
{
    for index in 0..processes.len() {
        if !can_wait(ins, &processes[index], &waits[index]) {
            return false;
        }
    }
    true
}

/// Whether a process of an entity with these in-channels may wait so.
fn can_wait(ins: &[u32], process: &Process, wait: &Wait) -> bool
    requires { IsStrictlyIncreasing ins.now }
    ensures { IsTrue result ↔ MayWait ins.now process.now wait.now }
{
    (process.timer.is_some() || wait.delay().is_none()) && are_among(wait.named(), ins)
}

/// Whether each of these channels is one of those in rising order.
fn are_among(channels: &[u32], rising: &[u32]) -> bool
    requires { IsStrictlyIncreasing rising.now }
    ensures { IsTrue result ↔ Each (λ c. Among c rising.now) channels.now }
{
    for index in 0..channels.len() {
        if !is_among(channels[index], rising) {
            return false;
        }
    }
    true
}

/// Whether the channel is one of those in rising order.
fn is_among(channel: u32, rising: &[u32]) -> bool
    requires { IsStrictlyIncreasing rising.now }
    ensures { IsTrue result ↔ Among channel rising.now }
{
    rising.binary_search(&channel).is_ok()
}

/// Whether the keys of these events rise.
fn are_rising<P>(events: &[Event<P>]) -> bool
    ensures { IsTrue result ↔ IsRising (λ e. e.key) events.now }
{
    for index in 1..events.len() {
        if !events[index - 1].key.is_before(&events[index].key) {
            return false;
        }
    }
    true
}

/// Whether all pending events of the opening of a plan may be pending.
fn are_pending<B: Behaviour>(plan: &Plan<B>, opening: &Opening<B>) -> bool
    requires wired { IsWired plan.now }
    requires shape { HasShape plan.now opening.now }
    ensures { IsTrue result ↔ Each (IsPending (B.carried plan.now.behaviour) (reopened plan.now opening.now)) opening.now.pending }
{
    let pending = opening.pending.as_slice();
    for index in 0..pending.len() {
        if !may_be_pending(plan, opening, &pending[index]) {
            return false;
        }
    }
    true
}

/// Whether the event may be pending at this opening of a plan.
fn may_be_pending<B: Behaviour>(
    plan: &Plan<B>,
    opening: &Opening<B>,
    event: &Event<B::Payload>,
) -> bool
    requires wired { IsWired plan.now }
    requires shape { HasShape plan.now opening.now }
    ensures { IsTrue result ↔ IsPending (B.carried plan.now.behaviour) (reopened plan.now opening.now) event.now }
{
    if event.entity as usize >= plan.entities.len() {
        return false;
    }
    is_early(opening.counts.as_slice(), &event.key) && stands_on_channel(plan, opening, event)
}

/// Whether an event with this key may be pending at an opening with these counts: in round 0, with a
/// time in range, and with a number that its channel has counted.
fn is_early(counts: &[u64], key: &Key) -> bool
    ensures { IsTrue result ↔ ((key.now.round ≡ 0) × (key.now.time ≤ LatestPending) × (key.now.number < counts_of counts.now key.now.channel)) }
{
    match counts.get(key.channel as usize) {
        Some(count) => key.round == 0 && key.time <= LATEST_PENDING && key.number < *count,
        None => false,
    }
}

/// Whether the event, which is at an entity of the plan, stands on a channel for what it brings.
fn stands_on_channel<B: Behaviour>(
    plan: &Plan<B>,
    opening: &Opening<B>,
    event: &Event<B::Payload>,
) -> bool
    requires entity { event.now.entity < length plan.now.entities }
    requires wired { IsWired plan.now }
    requires shape { HasShape plan.now opening.now }
    ensures { IsTrue result ↔ IsOnChannel (B.carried plan.now.behaviour) (reopened plan.now opening.now).entities plan.now.mappings event.now.entity event.now.key event.now.kind }
{
    let entity = event.entity;
    let key = &event.key;
    match &event.kind {
        Kind::Begin => key.channel == entity && key.priority == 0,
        Kind::Timer { process, ticket } => {
            is_end_at(plan, opening, entity, key, *process, *ticket)
        }
        Kind::Message { channel, payload } => {
            plan.behaviour.known(payload);
            is_message(plan.mappings(), entity, key, *channel)
        }
    }
}

/// Whether the end of a wait of process number `process` of an entity of the plan may be pending with
/// this key and ticket.
fn is_end_at<B: Behaviour>(
    plan: &Plan<B>,
    opening: &Opening<B>,
    entity: u32,
    key: &Key,
    process: u32,
    ticket: u64,
) -> bool
    requires entity { entity < length plan.now.entities }
    requires shape { HasShape plan.now opening.now }
    ensures { IsTrue result ↔ (HasAt (reopened plan.now opening.now).entities entity (λ e. HasAt e.processes process (IsEndFor key.now.channel ticket)) × (key.now.priority ≡ 0)) }
{
    let place = entity as usize;
    let entity = &plan.entities.as_slice()[place];
    let opened = &opening.entities.as_slice()[place];
    key.priority == 0 && is_end(entity, opened, process, key.channel, ticket)
}

/// Whether the end of a wait of process number `process` of an entity that opens so may be pending
/// on this channel with this ticket.
fn is_end<B: Behaviour>(
    entity: &Entity<B>,
    opened: &Opened<B>,
    process: u32,
    channel: u32,
    ticket: u64,
) -> bool
    requires { IsAsLong entity.now opened.now }
    ensures { IsTrue result ↔ HasAt (reopened_entity entity.now opened.now).processes process (IsEndFor channel ticket) }
{
    let place = process as usize;
    let processes = entity.processes.as_slice();
    if place >= processes.len() {
        return false;
    }
    let wait = &opened.waits.as_slice()[place];
    let present = opened.tickets.as_slice()[place];
    is_timer(&processes[place], channel) && is_given(wait, present, ticket)
}

/// Whether this is the timer channel of the process.
fn is_timer(process: &Process, channel: u32) -> bool
    ensures { IsTrue result ↔ (process.now.timer ≡ Some channel) }
{
    process.timer == Some(channel)
}

/// Whether a process that waits so and has the ticket `present` gave out this ticket.
fn is_given(wait: &Wait, present: u64, ticket: u64) -> bool
    ensures { IsTrue result ↔ ((ticket ≤ present) × IsTimelyTicket wait.now present ticket) }
{
    if ticket == present {
        wait.delay().is_some()
    } else {
        ticket < present
    }
}

/// Whether a message to this entity and in-channel may be pending with this key: its channel is that
/// of a mapping that leads there, with its priority.
fn is_message(mappings: &[Mapping], entity: u32, key: &Key, in_channel: u32) -> bool
    requires { (first : ℕ) × (map (λ m. m.channel) mappings.now ≡ range_with_len first (length mappings.now)) }
    ensures { IsTrue result ↔ ((m : MappingValue) × Among m mappings.now × IsMessageOn entity key.now in_channel m) }
{
    match mapping_on(mappings, key.channel) {
        Some(mapping) => leads(&mapping, entity, key, in_channel),
        None => false,
    }
}

/// Whether the mapping, which is on the channel of the key, leads to this entity and in-channel with
/// the key's priority.
fn leads(mapping: &Mapping, entity: u32, key: &Key, in_channel: u32) -> bool
    requires { mapping.now.channel ≡ key.now.channel }
    ensures { IsTrue result ↔ IsMessageOn entity key.now in_channel mapping.now }
{
    mapping.to == entity && mapping.in_channel == in_channel && mapping.priority == key.priority
}

/// The mapping on a channel. The mappings stand in the order of their channels, without gaps.
fn mapping_on(mappings: &[Mapping], channel: u32) -> Option<Mapping>
    requires { (first : ℕ) × (map (λ m. m.channel) mappings.now ≡ range_with_len first (length mappings.now)) }
    ensures { result ≡ find (λ m. nat_eq m.channel channel) mappings.now }
{
    let first = mappings.first()?.channel;
    if channel < first {
        return None;
    }
    mapping_at(mappings, channel - first)
}

/// The mapping at a place, if there is one.
fn mapping_at(mappings: &[Mapping], place: u32) -> Option<Mapping>
    ensures { result ≡ slice_get mappings.now place }
{
    mappings.get(place as usize).copied()
}
