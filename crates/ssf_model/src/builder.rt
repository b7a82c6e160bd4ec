//! How a plan is made: entities, their channels, and the mappings between these (SSF API 1.0,
//! `Entity`, `inChannel`, `outChannel` and `mapto`).

ghost use Rattle.std.specs.Prelude.{◌≡◌, ◌+◌, ◌<◌, ◌≤◌, ◌^◌, ◌⊎◌, ◌++◌, length, map, replicate, IfOk, IfErr, OnErr, Some, None};
ghost use Rattle.std.specs.List.{range_with_len};
ghost use Rattle.ssf_model.specs.Reaction.{Each};
ghost use Rattle.ssf_model.specs.Run.{Fits};
ghost use Rattle.ssf_model.specs.Drafts.{MostChannels, channels_of, timers, all_timers, empty_draft, with_entity, with_in_channel, with_out_channel, with_mapping, entity_refusal, in_channel_refusal, out_channel_refusal, mapping_refusal, start, with_channels, planned, IsValidDraft, first_processes as first_processes_of, first_entities as first_entities_of};

use crate::{Behaviour, Entity, Event, Kind, Mapping, Plan, Process, Wait};
use event_order::Key;
use sim_base::{ListOf, Memory};
use std::alloc::Global;
use std::marker::Model;

/// The most start, timer and mapping channels of a plan, together.
pub const MOST_CHANNELS: usize = 262_144;

/// The most in-channels of a plan, and the most out-channels.
pub const MOST_ENDS: usize = 1_048_576;

/// The longest delay of an out-channel, alone and with a mapping's, in ticks.
pub const LONGEST_DELAY: u64 = 1_000_000_000_000_000;

/// Why a builder refuses.
#[derive(Clone, Copy, Debug, PartialEq, Eq)]
pub enum BuildFault {
    /// No out-channel, or no in-channel, has this number.
    UnknownChannel(u32),
    /// The delay of an out-channel, alone or with the mapping's, is above `LONGEST_DELAY`.
    DelayTooLong,
    /// The plan would have more channels than `MOST_CHANNELS`, or more ends than `MOST_ENDS`.
    TooManyChannels,
    /// There was no memory.
    Memory,
}

impl From<Memory> for BuildFault {
    ghost use Rattle.std.specs.Prelude.{◌≡◌};
    ghost use Rattle.ssf_model.specs.declared.builder.BuildFault.TheVariants.{Memory as NoMemory};

    ghost from_gives = { λ _ fault. fault ≡ NoMemory };

    fn from(_memory: Memory) -> BuildFault {
        BuildFault::Memory
    }
}

/// An entity that is being made: its state, which of its processes are timed, and its channels.
#[derive(Drop)]
pub struct DraftEntity<S> {
    /// Its state at the opening.
    pub state: S,
    /// Of each process, in their order, whether it has a timer channel.
    pub timed: ListOf<bool>,
    /// The numbers of its in-channels, in the order in which they were made.
    pub in_channels: ListOf<u32>,
    /// The numbers of its out-channels, in the order in which they were made.
    pub out_channels: ListOf<u32>,
}

/// An out-channel: the entity that it belongs to, and its delay in ticks.
#[derive(Clone, Copy, Debug, PartialEq, Eq)]
pub struct OutChannel {
    pub entity: u32,
    pub delay: u64,
}

/// A plan that is being made. Contracts see a draft: what was made so far, in order. Entities,
/// in-channels and out-channels are numbered from 0 in the order in which they are made.
#[derive(Drop)]
pub struct PlanBuilder<B: Behaviour> {
    alloc: Global,
    behaviour: B,
    entities: Vec<DraftEntity<B::State>>,
    in_owners: Vec<u32>,
    outs: Vec<OutChannel>,
    mappings: Vec<Mapping>,
    timers: usize,
}

impl<B: Behaviour> Model for PlanBuilder<B> {
    ghost use Rattle.ssf_model.specs.Drafts.{Draft};
    ghost use Rattle.ssf_model.specs.Owners.{IsDraft};

    ghost Value = { Draft B B.State };

    ghost view = { λ b. record { behaviour = b.behaviour; entities = b.entities.items; in_owners = b.in_owners.items; outs = b.outs.items; mappings = b.mappings.items } };

    ghost invariant = { λ b. IsDraft b.timers (record { behaviour = b.behaviour; entities = b.entities.items; in_owners = b.in_owners.items; outs = b.outs.items; mappings = b.mappings.items }) };
}

impl<B: Behaviour> PlanBuilder<B> {
    /// A builder of a plan with this behaviour and, as yet, no entity.
    pub fn new(alloc: Global, behaviour: B) -> Result<PlanBuilder<B>, Memory>
        ensures { IfOk result (λ builder. builder ≡ empty_draft behaviour) }
    {
        Ok(PlanBuilder {
            alloc,
            behaviour,
            entities: Vec::new(alloc),
            in_owners: Vec::new(alloc),
            outs: Vec::new(alloc),
            mappings: Vec::new(alloc),
            timers: 0,
        })
    }

    /// Makes an entity with this state and one process for each flag, which says whether it is
    /// timed, and answers its number. A refusal hands the state back: `TooManyChannels` where the
    /// entity's start channel and timer channels are too many, or `Memory`.
    #[tactic(auto, using(crate::proofs::Drafted::all_timers_push))]
    pub fn entity(&mut self, state: B::State, timed: &[bool]) -> Result<u32, (B::State, BuildFault)>
        requires { length timed.now < 2 ^ 32 }
        ensures made { IfOk result (λ place. (entity_refusal self.old timed.now ≡ None) × (place ≡ length self.old.entities) × (self.new ≡ with_entity self.old state timed.now)) }
        ensures kept { OnErr result (self.new ≡ self.old) }
        ensures returned { IfErr result (λ back. back.0 ≡ state) }
        ensures cause { IfErr result (λ back. (back.1 ≡ BuildFault.Memory) ⊎ (entity_refusal self.old timed.now ≡ Some back.1)) }
    {
        let new_timers = count_timed(timed);
        if new_timers + 1 > MOST_CHANNELS - self.channels() {
            return Err((state, BuildFault::TooManyChannels));
        }
        let Ok(flags) = Vec::from_slice(self.alloc, timed) else {
            return Err((state, BuildFault::Memory));
        };
        let place = self.entities.len() as u32;
        let draft = DraftEntity {
            state,
            timed: ListOf::from_vec(flags),
            in_channels: ListOf::new(self.alloc),
            out_channels: ListOf::new(self.alloc),
        };
        match self.entities.push(draft) {
            Ok(()) => {
                self.timers += new_timers;
                Ok(place)
            }
            Err(refused) => {
                let DraftEntity { state, .. } = refused.value;
                Err((state, BuildFault::Memory))
            }
        }
    }

    /// Makes an in-channel of an entity, and answers its number. A refusal changes nothing:
    /// `TooManyChannels` where there are `MOST_ENDS` of them, or `Memory`.
    pub fn in_channel(&mut self, entity: u32) -> Result<u32, BuildFault>
        requires { entity < length self.old.entities }
        ensures made { IfOk result (λ place. (in_channel_refusal self.old ≡ None) × (place ≡ length self.old.in_owners) × (self.new ≡ with_in_channel self.old entity)) }
        ensures kept { OnErr result (self.new ≡ self.old) }
        ensures cause { IfErr result (λ fault. (fault ≡ BuildFault.Memory) ⊎ (in_channel_refusal self.old ≡ Some fault)) }
    {
        if self.in_owners.len() >= MOST_ENDS {
            return Err(BuildFault::TooManyChannels);
        }
        let place = self.in_owners.len() as u32;
        let Ok(()) = self.in_owners.push(entity) else {
            return Err(BuildFault::Memory);
        };
        let draft = &mut self.entities[entity as usize];
        match draft.in_channels.push(place) {
            Ok(()) => Ok(place),
            Err(_) => {
                self.in_owners.pop();
                Err(BuildFault::Memory)
            }
        }
    }

    /// Makes an out-channel of an entity with this delay, in ticks, and answers its number. A
    /// refusal changes nothing: `DelayTooLong`, `TooManyChannels` where there are `MOST_ENDS` of
    /// them, or `Memory`.
    pub fn out_channel(&mut self, entity: u32, delay: u64) -> Result<u32, BuildFault>
        requires { entity < length self.old.entities }
        ensures made { IfOk result (λ place. (out_channel_refusal self.old delay ≡ None) × (place ≡ length self.old.outs) × (self.new ≡ with_out_channel self.old entity delay)) }
        ensures kept { OnErr result (self.new ≡ self.old) }
        ensures cause { IfErr result (λ fault. (fault ≡ BuildFault.Memory) ⊎ (out_channel_refusal self.old delay ≡ Some fault)) }
    {
        if delay > LONGEST_DELAY {
            return Err(BuildFault::DelayTooLong);
        }
        if self.outs.len() >= MOST_ENDS {
            return Err(BuildFault::TooManyChannels);
        }
        let place = self.outs.len() as u32;
        let Ok(()) = self.outs.push(OutChannel { entity, delay }) else {
            return Err(BuildFault::Memory);
        };
        let draft = &mut self.entities[entity as usize];
        match draft.out_channels.push(place) {
            Ok(()) => Ok(place),
            Err(_) => {
                self.outs.pop();
                Err(BuildFault::Memory)
            }
        }
    }

    /// Maps the out-channel `from` to the in-channel `to` with this delay, in ticks, and priority
    /// 0, and answers the mapping's place. A refusal changes nothing: `UnknownChannel` of `from`,
    /// then of `to`, `DelayTooLong`, `TooManyChannels`, or `Memory`.
    pub fn mapto(&mut self, from: u32, to: u32, delay: u64) -> Result<u32, BuildFault>
        ensures made { IfOk result (λ place. (mapping_refusal self.old from to delay ≡ None) × (place ≡ length self.old.mappings) × (self.new ≡ with_mapping self.old from to delay 0)) }
        ensures kept { OnErr result (self.new ≡ self.old) }
        ensures cause { IfErr result (λ fault. (fault ≡ BuildFault.Memory) ⊎ (mapping_refusal self.old from to delay ≡ Some fault)) }
    {
        self.mapto_at(from, to, delay, 0)
    }

    /// As `mapto`, with a priority: of two events at one moment and in one round, the one on the
    /// channel of the smaller priority goes first.
    pub fn mapto_at(
        &mut self,
        from: u32,
        to: u32,
        delay: u64,
        priority: u8,
    ) -> Result<u32, BuildFault>
        ensures made { IfOk result (λ place. (mapping_refusal self.old from to delay ≡ None) × (place ≡ length self.old.mappings) × (self.new ≡ with_mapping self.old from to delay priority)) }
        ensures kept { OnErr result (self.new ≡ self.old) }
        ensures cause { IfErr result (λ fault. (fault ≡ BuildFault.Memory) ⊎ (mapping_refusal self.old from to delay ≡ Some fault)) }
    {
        let Some(&out) = self.outs.get(from as usize) else {
            return Err(BuildFault::UnknownChannel(from));
        };
        let Some(&owner) = self.in_owners.get(to as usize) else {
            return Err(BuildFault::UnknownChannel(to));
        };
        let Some(total) = out.delay.checked_add(delay) else {
            return Err(BuildFault::DelayTooLong);
        };
        if total > LONGEST_DELAY {
            return Err(BuildFault::DelayTooLong);
        }
        if self.channels() >= MOST_CHANNELS {
            return Err(BuildFault::TooManyChannels);
        }
        let place = self.mappings.len() as u32;
        let mapping = Mapping {
            channel: place,
            out_channel: from,
            in_channel: to,
            from: out.entity,
            to: owner,
            delay: total,
            priority,
        };
        let Ok(()) = self.mappings.push(mapping) else {
            return Err(BuildFault::Memory);
        };
        Ok(place)
    }

    /// The plan of what was made. Its channels are the start channels by entity, then the timer
    /// channels by entity and process, then one for each mapping in their order. All tickets are 0,
    /// all processes wait forever, and the start event of each entity is pending, with the number 0
    /// of its start channel. The plan fits: its parts go together as those of every plan do. After
    /// `Memory` the builder is gone.
    #[tactic(auto, unfolding(crate::specs::Drafts::planned))]
    pub fn finish(self) -> Result<Plan<B>, Memory>
        requires { Each (IsValidDraft (B.valid self.behaviour)) self.entities }
        ensures plan { IfOk result (λ plan. plan ≡ planned self) }
        ensures fits { IfOk result (λ plan. Fits (B.valid self.behaviour) (B.carried self.behaviour) plan) }
    {
        let PlanBuilder {
            alloc,
            behaviour,
            entities: drafts,
            in_owners: _,
            outs: _,
            mappings,
            timers,
        } = self;
        let starts = drafts.len();
        let others = timers + mappings.len();
        let entities = first_entities::<B>(alloc, starts as u32, drafts)?;
        let events = start_events(alloc, starts as u32)?;
        let mappings = numbered(alloc, (starts + timers) as u32, mappings.as_slice())?;
        let counts = first_counts(alloc, starts, others)?;
        Ok(Plan {
            behaviour,
            entities: ListOf::from_vec(entities),
            events: ListOf::from_vec(events),
            mappings: ListOf::from_vec(mappings),
            counts: ListOf::from_vec(counts),
            before: 0,
        })
    }

    /// How many start, timer and mapping channels there are.
    fn channels(&self) -> usize
        ensures count { result ≡ channels_of self.now }
        ensures within { result ≤ MostChannels }
    {
        self.entities.len() + self.timers + self.mappings.len()
    }
}

/// The processes of an entity at first, of which the timed ones have the timer channels from
/// `first` on.
fn first_processes(alloc: Global, first: u32, flags: &[bool]) -> Result<Vec<Process>, Memory>
    requires { first + timers flags.now < 2 ^ 32 }
    ensures { IfOk result (λ processes. processes.items ≡ first_processes_of first flags.now) }
{
    let mut processes = Vec::new(alloc);
    let mut next = first;
    for flag in flags {
        processes.push(Process {
            wait: Wait::Forever,
            ticket: 0,
            timer: flag.then_some(next),
        })?;
        next += u32::from(*flag);
    }
    Ok(processes)
}

/// The entities of these drafts at first, whose timer channels are those from `first` on.
fn first_entities<B: Behaviour>(
    alloc: Global,
    first: u32,
    drafts: Vec<DraftEntity<B::State>>,
) -> Result<Vec<Entity<B>>, Memory>
    requires { first + all_timers drafts.items < 2 ^ 32 }
    ensures { IfOk result (λ entities. entities.items ≡ first_entities_of first drafts.items) }
{
    let mut entities = Vec::new(alloc);
    let mut next = first;
    for draft in drafts {
        let DraftEntity {
            state,
            timed,
            in_channels,
            out_channels,
        } = draft;
        let processes = first_processes(alloc, next, timed.as_slice())?;
        next += count_timed(timed.as_slice()) as u32;
        entities.push(Entity {
            state,
            processes: ListOf::from_vec(processes),
            in_channels,
            out_channels,
        })?;
    }
    Ok(entities)
}

/// The start events of entities 0 up to `entities`.
#[tactic(auto, using(crate::proofs::Drafted::starts_push))]
fn start_events<P: Copy>(alloc: Global, entities: u32) -> Result<Vec<Event<P>>, Memory>
    ensures { IfOk result (λ events. events.items ≡ map start (range_with_len 0 entities)) }
{
    let mut events = Vec::new(alloc);
    for entity in 0..entities {
        events.push(Event {
            key: Key {
                time: 0,
                round: 0,
                priority: 0,
                channel: entity,
                number: 0,
            },
            entity,
            kind: Kind::Begin,
        })?;
    }
    Ok(events)
}

/// The mappings with the channels from `first` on.
fn numbered(alloc: Global, first: u32, mappings: &[Mapping]) -> Result<Vec<Mapping>, Memory>
    requires { first + length mappings.now < 2 ^ 32 }
    ensures { IfOk result (λ numbered. numbered.items ≡ with_channels first mappings.now) }
{
    let mut numbered = Vec::new(alloc);
    let mut channel = first;
    for mapping in mappings {
        numbered.push(Mapping {
            channel,
            ..*mapping
        })?;
        channel += 1;
    }
    Ok(numbered)
}

/// The counts at first: one for each start channel, none for the others.
#[tactic(auto, using(std::proofs::lemmas::List::replicate_more, std::proofs::Common::append_assoc))]
fn first_counts(alloc: Global, starts: usize, others: usize) -> Result<Vec<u64>, Memory>
    ensures { IfOk result (λ counts. counts.items ≡ replicate starts 1 ++ replicate others 0) }
{
    let mut counts = Vec::new(alloc);
    for _ in 0..starts {
        counts.push(1)?;
    }
    for _ in 0..others {
        counts.push(0)?;
    }
    Ok(counts)
}

/// How many of these flags are set.
fn count_timed(timed: &[bool]) -> usize
    ensures { result ≡ timers timed.now }
{
    timed.iter().filter(|timed| **timed).count()
}
