//! The mail, and the mail on each of its channels.

use channel_places::place_of;
use sim_base::{ListOf, Memory};
use ssf_model::{Event, Parcel};
use std::alloc::Global;
use std::marker::Model;
use std::mem;

/// Why a parcel is refused. It comes back.
#[derive(Drop)]
pub enum PostFault<P> {
    /// The parcel does not begin at this number, so many events having been posted.
    Gap(u64, Parcel<P>),
    /// There was no memory.
    Memory(Parcel<P>),
}

/// The mail on one channel.
#[derive(Drop)]
struct Inbox<P> {
    taken: u64,
    events: Vec<Event<P>>,
    appointment: u64,
}

impl<P> Model for Inbox<P> {
    ghost use Rattle.std.specs.Prelude.{◌+◌, ◌-◌, ◌<◌, ◌^◌, length, vec_capacity};
    ghost use Rattle.appointments.specs.Mails.{ChannelMail};

    ghost Value = { ChannelMail P };

    ghost view = { λ m. record { taken = m.taken; events = m.events.items; appointment = m.appointment; spare = vec_capacity m.events - length m.events.items } };

    ghost invariant = { λ m. m.taken + length m.events.items < 2 ^ 64 };
}

/// The mail of one timeline, on some channels. Contracts see the mail on each channel, and how many
/// more events can be posted on it without memory, `spare`.
#[derive(Drop)]
pub struct Mail<P> {
    channels: Vec<u32>,
    rows: Vec<Inbox<P>>,
}

impl<P> Model for Mail<P> {
    ghost use Rattle.appointments.specs.Mails.{Mails, IsMails};

    ghost Value = { Mails P };

    ghost view = { λ m. record { channels = m.channels.items; rows = m.rows.items } };

    ghost invariant = { λ m. IsMails (record { channels = m.channels.items; rows = m.rows.items }) };
}

impl<P: Drop> Inbox<P> {
    ghost use Rattle.std.specs.Prelude.{◌≡◌, ◌+◌, ◌<◌, ◌≤◌, ◌^◌, ◌++◌, length, IsOk, OnOk, OnErr, IfErr};
    ghost use Rattle.appointments.specs.Mails.{no_mail, posted_of};
    ghost use Rattle.appointments.specs.Posts.{posted_mail, IsPostAnswer, WantsMemoryOnly, taken_mail, taken_parcel};

    fn new(alloc: Global) -> Inbox<P>
        ensures { result ≡ no_mail }
    {
        Inbox {
            taken: 0,
            events: Vec::new(alloc),
            appointment: 0,
        }
    }

    fn posted(&self) -> u64
        ensures { result ≡ posted_of self.now }
    {
        self.taken + self.events.len() as u64
    }

    fn reserve(&mut self, n: usize) -> Result<(), Memory>
        ensures mail { self.new ≡ record self.old { spare = self.new.spare } }
        ensures spare { OnOk result (n ≤ self.new.spare) }
        ensures no_less { self.old.spare ≤ self.new.spare }
        ensures enough { n ≤ self.old.spare → IsOk result }
        ensures err { OnErr result (self.new ≡ self.old) }
    {
        self.events.reserve(n)?;
        Ok(())
    }

    fn post(&mut self, parcel: Parcel<P>) -> Result<(), PostFault<P>>
        requires { parcel.first + length parcel.events < 2 ^ 64 }
        ensures ok { OnOk result (self.new ≡ posted_mail parcel self.new.spare self.old) }
        ensures cause { IsPostAnswer (posted_of self.old) parcel result }
        ensures room { WantsMemoryOnly (self.old.spare < length parcel.events) result }
        ensures never_falls { self.old.appointment ≤ self.new.appointment }
        ensures err { OnErr result (self.new ≡ self.old) }
    {
        if parcel.first != self.posted() {
            return Err(PostFault::Gap(self.posted(), parcel));
        }
        let Parcel {
            first,
            events,
            promise,
        } = parcel;
        if let Err(events) = self.put(events.into_vec()) {
            let events = ListOf::from_vec(events);
            return Err(PostFault::Memory(Parcel {
                first,
                events,
                promise,
            }));
        }
        self.appointment = self.appointment.max(promise);
        Ok(())
    }

    // Puts these events behind the others; without memory they come back. Where there are no others the
    // list itself is taken, however long it is.
    fn put(&mut self, mut events: Vec<Event<P>>) -> Result<(), Vec<Event<P>>>
        requires { posted_of self.old + length events.items < 2 ^ 64 }
        ensures ok { OnOk result (self.new ≡ record self.old { events = self.old.events ++ events.items; spare = self.new.spare }) }
        ensures room { OnErr result (self.old.spare < length events.items) }
        ensures err { OnErr result (self.new ≡ self.old) }
        ensures back { IfErr result (λ back. back.items ≡ events.items) }
    {
        if self.events.is_empty() {
            self.events = events;
            return Ok(());
        }
        if self.events.reserve(events.len()).is_err() {
            return Err(events);
        }
        match self.events.append(&mut events) {
            Ok(()) => Ok(()),
            Err(_) => unreachable!(),
        }
    }

    fn take(&mut self) -> Parcel<P>
        ensures parcel { result ≡ taken_parcel self.old }
        ensures mail { self.new ≡ taken_mail self.old }
    {
        let alloc = *self.events.allocator();
        let first = self.taken;
        self.taken += self.events.len() as u64;
        let events = ListOf::from_vec(mem::replace(&mut self.events, Vec::new(alloc)));
        Parcel {
            first,
            events,
            promise: self.appointment,
        }
    }
}

impl<P: Drop> Mail<P> {
    ghost use Rattle.std.specs.Prelude.{ℕ, ◌≡◌, ◌+◌, ◌<◌, ◌≤◌, ◌^◌, length, IfOk, IsOk, OnOk, OnErr};
    ghost use Rattle.std.specs.List.{Contains};
    ghost use Rattle.std.specs.List.Sorted.{IsStrictlyIncreasing};
    ghost use Rattle.appointments.specs.Mails.{first_mails, mail_at, posted_of, IsMails};
    ghost use Rattle.appointments.specs.Posts.{posted_mail, IsPostAnswer, WantsMemoryOnly, taken_mail, taken_parcel};

    /// The mail on these channels, which are in rising order, with no events and no appointments.
    ///
    /// # Errors
    /// `Memory`.
    pub fn new(alloc: Global, channels: &[u32]) -> Result<Mail<P>, Memory>
        requires { IsStrictlyIncreasing channels.now }
        ensures { IfOk result (λ m. m ≡ first_mails channels.now) }
    {
        let mut rows = Vec::new(alloc);
        for _channel in channels {
            rows.push(Inbox::new(alloc))?;
        }
        let channels = Vec::from_slice(alloc, channels)?;
        Ok(Mail { channels, rows })
    }

    /// Tells a proof what holds of every mail.
    pub fn known(&self)
        ensures { IsMails self.now }
    {
        let _channels = &self.channels;
    }

    /// Makes room for at least `n` more events on one of the mail's channels.
    ///
    /// # Errors
    /// `Memory`, and then nothing has changed.
    pub fn reserve(&mut self, channel: u32, n: usize) -> Result<(), Memory>
        requires { Contains self.old.channels channel }
        ensures channels { self.new.channels ≡ self.old.channels }
        ensures mail { mail_at self.new channel ≡ record (mail_at self.old channel) { spare = (mail_at self.new channel).spare } }
        ensures spare { OnOk result (n ≤ (mail_at self.new channel).spare) }
        ensures no_less { (mail_at self.old channel).spare ≤ (mail_at self.new channel).spare }
        ensures enough { n ≤ (mail_at self.old channel).spare → IsOk result }
        ensures others { (c : ℕ) → (c ≡ channel → ⊥) → mail_at self.new c ≡ mail_at self.old c }
        ensures err { OnErr result (self.new ≡ self.old) }
    {
        let place = place_of(&self.channels, channel);
        self.rows[place].reserve(n)
    }

    /// Posts a parcel on one of the mail's channels: its events come behind those that were posted
    /// before, and the greater promise is kept. Where the mail on the channel is empty, the parcel's list
    /// is taken as it is.
    ///
    /// # Errors
    /// `Gap` exactly where the parcel does not begin at the posted number, and `Memory` only where there
    /// is less room than it has events. The parcel comes back, and nothing has changed.
    pub fn post(&mut self, channel: u32, parcel: Parcel<P>) -> Result<(), PostFault<P>>
        requires mail { Contains self.old.channels channel }
        requires fits { parcel.first + length parcel.events < 2 ^ 64 }
        ensures channels { self.new.channels ≡ self.old.channels }
        ensures ok { OnOk result (mail_at self.new channel ≡ posted_mail parcel (mail_at self.new channel).spare (mail_at self.old channel)) }
        ensures cause { IsPostAnswer (posted_of (mail_at self.old channel)) parcel result }
        ensures room { WantsMemoryOnly ((mail_at self.old channel).spare < length parcel.events) result }
        ensures others { (c : ℕ) → (c ≡ channel → ⊥) → mail_at self.new c ≡ mail_at self.old c }
        ensures never_falls { (mail_at self.old channel).appointment ≤ (mail_at self.new channel).appointment }
        ensures err { OnErr result (self.new ≡ self.old) }
    {
        let place = place_of(&self.channels, channel);
        self.rows[place].post(parcel)
    }

    /// Takes all events of one of the mail's channels, with its appointment. The mail keeps the
    /// appointment and the posted number.
    pub fn take(&mut self, channel: u32) -> Parcel<P>
        requires { Contains self.old.channels channel }
        ensures channels { self.new.channels ≡ self.old.channels }
        ensures parcel { result ≡ taken_parcel (mail_at self.old channel) }
        ensures mail { mail_at self.new channel ≡ taken_mail (mail_at self.old channel) }
        ensures others { (c : ℕ) → (c ≡ channel → ⊥) → mail_at self.new c ≡ mail_at self.old c }
    {
        let place = place_of(&self.channels, channel);
        self.rows[place].take()
    }

    /// The appointment on one of the mail's channels: the greatest promise that was posted, and 0 before.
    pub fn appointment(&self, channel: u32) -> u64
        requires { Contains self.now.channels channel }
        ensures { result ≡ (mail_at self.now channel).appointment }
    {
        let row = &self.rows[place_of(&self.channels, channel)];
        row.appointment
    }

    /// How many events were posted on one of the mail's channels.
    pub fn posted(&self, channel: u32) -> u64
        requires { Contains self.now.channels channel }
        ensures { result ≡ posted_of (mail_at self.now channel) }
    {
        self.rows[place_of(&self.channels, channel)].posted()
    }
}
