//! The TCP sessions of a host.
ghost use Rattle.std.specs.Prelude.{◌≡◌, if◌then◌else◌};
ghost use Rattle.host_rules.specs.Entries.{is_accepted, is_closed, is_over, ends, has_passed};
ghost use Rattle.host_sessions.specs.Tabled.{table_sockets, entry_view};

use host_rules::Sockets;
use session_table::{Entry, SessionTable};
use sim_base::{Memory, Segment, TcpState};
use std::alloc::Global;
use std::marker::Model;
use tcp_session::{Segments, Session};

/// The TCP sessions of a host, in order of creation. Contracts see the list of them.
#[derive(Drop)]
pub struct Sessions {
    table: SessionTable<Session>,
    accepted: u64,
}

impl Model for Sessions {
    ghost use Rattle.std.specs.Prelude.{List};
    ghost use Rattle.host_rules.specs.Hosts.{EntryFields};
    ghost use Rattle.host_sessions.specs.Tabled.{IsTabled, entries_of};

    ghost Value = { List EntryFields };

    ghost view = { λ s. entries_of s.table };

    ghost invariant = { λ s. IsTabled s.table s.accepted };
}

/// What became of a session at its turn: its two ends, the client session that opened it, and whether
/// its transfer is over.
#[derive(Clone, Copy, Debug, PartialEq, Eq)]
pub struct Turned {
    pub sockets: Sockets,
    pub client: Option<u32>,
    pub over: bool,
}

/// The same two ends, as the table has them.
fn table_sockets(sockets: &Sockets) -> session_table::Sockets
    ensures { result ≡ table_sockets sockets.now }
{
    session_table::Sockets {
        own: sockets.own,
        own_port: sockets.own_port,
        peer: sockets.peer,
        peer_port: sockets.peer_port,
    }
}

/// The two ends of a session of the table.
fn sockets_of(entry: &Entry<Session>) -> Sockets
    ensures { result ≡ (entry_view entry.now).sockets }
{
    Sockets {
        own: entry.sockets.own,
        own_port: entry.sockets.own_port,
        peer: entry.sockets.peer,
        peer_port: entry.sockets.peer_port,
    }
}

/// One for a session that was accepted, and else none.
fn one_if_accepted(entry: &Entry<Session>) -> u64
    ensures { result ≡ (if is_accepted (entry_view entry.now) then 1 else 0) }
{
    match entry.client {
        None => 1,
        Some(_) => 0,
    }
}

/// Whether this state is CLOSED.
fn is_closed(state: TcpState) -> bool
    ensures { result ≡ is_closed state }
{
    matches!(state, TcpState::Closed)
}

/// Whether a transfer is over for its client in this state.
fn is_over(state: TcpState) -> bool
    ensures { result ≡ is_over state }
{
    matches!(state, TcpState::TimeWait | TcpState::Closed)
}

/// Whether a transfer is over in the new state, and was not in the old one.
fn ends(old: TcpState, new: TcpState) -> bool
    ensures { result ≡ ends old new }
{
    is_over(new) && !is_over(old)
}

/// Whether this deadline has passed.
fn has_passed(now: u64, deadline: Option<u64>) -> bool
    ensures { result ≡ has_passed now deadline }
{
    match deadline {
        Some(deadline) => deadline <= now,
        None => false,
    }
}

impl Sessions {
    ghost use Rattle.std.specs.Prelude.{◌≡◌, ◌≤◌, ◌<◌, ◌^◌, ◌++◌, ◌∷◌, [], Some, None, IsSome, IfOk, OnOk, OnErr, true};
    ghost use Rattle.std.specs.List.{count_by};
    ghost use Rattle.std.specs.Option.{option_map};
    ghost use Rattle.tcp_rules.specs.Sessions.{at_segment, at_timeout, deadline_of, state_of};
    ghost use Rattle.host_rules.specs.Hosts.{EntryFields};
    ghost use Rattle.host_rules.specs.Entries.{found, numbered, least, due, without, settled};
    ghost use Rattle.host_rules.specs.Hearing.{MostAccepted};
    ghost use Rattle.host_rules.specs.Limits.{EachPair, IsEarlier};
    ghost use Rattle.host_sessions.specs.Tabled.{entry_view, is_due_at, put_in, back_in, turned_of, IsFresh};

    /// No sessions.
    pub fn new(alloc: Global) -> Sessions
        ensures { result ≡ [] }
    {
        Sessions {
            table: SessionTable::new(alloc),
            accepted: 0,
        }
    }

    /// The number of the first session between these ends.
    #[tactic(auto, using(crate::proofs::Tabling::found_view))]
    pub fn find(&self, sockets: &Sockets) -> Option<u64>
        requires { EachPair IsEarlier self.now }
        ensures { result ≡ option_map (λ (x : EntryFields). x.number) (found sockets.now self.now) }
    {
        self.table.find(&table_sockets(sockets))
    }

    /// How many sessions were accepted.
    pub fn accepted(&self) -> u64
        ensures { result ≡ count_by is_accepted self.now }
    {
        self.accepted
    }

    /// The least deadline, where some session has one.
    #[tactic(auto, using(crate::proofs::Tabling::least_view))]
    pub fn least(&self) -> Option<u64>
        ensures { result ≡ least self.now }
    {
        self.table.least()
    }

    /// Whether the session of this number has a deadline that has passed.
    #[tactic(auto, using(crate::proofs::Tabling::due_at_some, crate::proofs::Tabling::due_at_none))]
    pub fn is_due(&self, number: u64, now: u64) -> bool
        ensures { result ≡ is_due_at now (numbered number self.now) }
    {
        match self.table.entry(number) {
            Some(entry) => has_passed(now, entry.session.deadline()),
            None => false,
        }
    }

    /// The numbers of the sessions whose deadline has passed, in order of creation.
    ///
    /// # Errors
    /// `Memory`.
    #[tactic(auto, using(crate::proofs::Tabling::due_view))]
    pub fn due(&self, alloc: Global, now: u64) -> Result<Vec<u64>, Memory>
        ensures { IfOk result (λ numbers. numbers.items ≡ due now self.now) }
    {
        self.table.due(alloc, now)
    }

    /// Adds a session, the newest.
    ///
    /// # Errors
    /// `Memory`, and then the sessions are those that they were.
    #[tactic(auto, using(crate::proofs::Entering::added_last))]
    pub fn add(
        &mut self,
        number: u64,
        sockets: &Sockets,
        client: Option<u32>,
        session: Session,
    ) -> Result<(), Memory>
        requires order { EachPair IsEarlier (self.old ++ record { number = number; sockets = sockets.now; client = client; session = session } ∷ []) }
        requires few { count_by is_accepted self.old ≤ MostAccepted }
        ensures ok { OnOk result (self.new ≡ self.old ++ record { number = number; sockets = sockets.now; client = client; session = session } ∷ []) }
        ensures err { OnErr result (self.new ≡ self.old) }
    {
        let deadline = session.deadline();
        self.put(Entry {
            number,
            sockets: table_sockets(sockets),
            client,
            deadline,
            session,
        })
    }

    /// Puts a session into its place.
    #[tactic(auto, using(crate::proofs::Tabling::placed_view, crate::proofs::Tabling::tabled_put))]
    fn put(&mut self, entry: Entry<Session>) -> Result<(), Memory>
        requires fresh { IsFresh (entry_view entry) self.old }
        requires timed { entry.deadline ≡ deadline_of entry.session }
        requires few { count_by is_accepted self.old ≤ MostAccepted }
        ensures ok { OnOk result (self.new ≡ put_in (entry_view entry) self.old) }
        ensures err { OnErr result (self.new ≡ self.old) }
    {
        let accepted = one_if_accepted(&entry);
        match self.table.put(entry) {
            Ok(()) => {
                self.accepted += accepted;
                Ok(())
            }
            Err(_) => Err(Memory),
        }
    }

    /// Takes the session of this number out.
    #[tactic(auto, using(crate::proofs::Tabling::is_there, crate::proofs::Tabling::view_of, crate::proofs::Tabling::without_view))]
    fn take(&mut self, number: u64) -> Entry<Session>
        requires there { IsSome (numbered number self.old) }
        requires order { EachPair IsEarlier self.old }
        ensures entry { numbered number self.old ≡ Some (entry_view result) }
        ensures rest { self.new ≡ without number self.old }
    {
        let entry = self.table.take(number);
        self.accepted -= one_if_accepted(&entry);
        entry
    }

    /// A segment comes to the session of this number, at the tick `now`, at most 10^18.
    ///
    /// # Errors
    /// `Memory`, and then the session is lost.
    pub fn segment(
        &mut self,
        number: u64,
        segment: &Segment,
        now: u64,
        acts: &mut Segments,
    ) -> Result<Turned, Memory>
        requires there { IsSome (numbered number self.old) }
        requires order { EachPair IsEarlier self.old }
        requires few { count_by is_accepted self.old ≤ MostAccepted }
        requires now { now ≤ 10 ^ 18 }
        ensures sessions { (x : EntryFields) → numbered number self.old ≡ Some x → OnOk result (self.new ≡ settled number (at_segment x.session segment.now now).after self.old) }
        ensures turned { (x : EntryFields) → numbered number self.old ≡ Some x → IfOk result (λ turned. turned ≡ turned_of x (at_segment x.session segment.now now).after) }
        ensures acts { (x : EntryFields) → numbered number self.old ≡ Some x → OnOk result (acts.new ≡ acts.old ++ (at_segment x.session segment.now now).acts) }
        ensures lost { OnErr result (self.new ≡ without number self.old) }
    {
        let mut entry = self.take(number);
        let was = entry.session.state();
        entry.session.segment(segment, now, acts)?;
        self.settle(entry, was)
    }

    /// The deadline of the session of this number passes, at the tick `now`, at most 10^18.
    ///
    /// # Errors
    /// `Memory`, and then the session is lost.
    pub fn timeout(&mut self, number: u64, now: u64, acts: &mut Segments) -> Result<Turned, Memory>
        requires due { is_due_at now (numbered number self.old) ≡ true }
        requires order { EachPair IsEarlier self.old }
        requires few { count_by is_accepted self.old ≤ MostAccepted }
        requires now { now ≤ 10 ^ 18 }
        ensures sessions { (x : EntryFields) → numbered number self.old ≡ Some x → OnOk result (self.new ≡ settled number (at_timeout x.session now).after self.old) }
        ensures turned { (x : EntryFields) → numbered number self.old ≡ Some x → IfOk result (λ turned. turned ≡ turned_of x (at_timeout x.session now).after) }
        ensures acts { (x : EntryFields) → numbered number self.old ≡ Some x → OnOk result (acts.new ≡ acts.old ++ (at_timeout x.session now).acts) }
        ensures lost { OnErr result (self.new ≡ without number self.old) }
    {
        let mut entry = self.take(number);
        let was = entry.session.state();
        entry.session.timeout(now, acts)?;
        self.settle(entry, was)
    }

    /// Puts a session back after its turn, unless it is closed. It was in this state before.
    fn settle(&mut self, mut entry: Entry<Session>, was: TcpState) -> Result<Turned, Memory>
        requires fresh { IsFresh (entry_view entry) self.old }
        requires few { count_by is_accepted self.old ≤ MostAccepted }
        ensures sessions { OnOk result (self.new ≡ back_in (entry_view entry) self.old) }
        ensures turned { IfOk result (λ turned. turned ≡ record { sockets = (entry_view entry).sockets; client = entry.client; over = ends was (state_of entry.session) }) }
        ensures err { OnErr result (self.new ≡ self.old) }
    {
        let state = entry.session.state();
        let turned = Turned {
            sockets: sockets_of(&entry),
            client: entry.client,
            over: ends(was, state),
        };
        if !is_closed(state) {
            entry.deadline = entry.session.deadline();
            self.put(entry)?;
        }
        Ok(turned)
    }
}
