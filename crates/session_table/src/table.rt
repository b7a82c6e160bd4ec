//! The table.

ghost use Rattle.std.specs.Prelude.{◌≡◌, ◌&&◌, ◌||◌, not, if◌then◌else◌, Some, None, IfOk, OnOk, OnErr};
ghost use Rattle.std.specs.HashMap.{get};
ghost use Rattle.std.specs.BTreeSet.{contains, IsOrdered};
ghost use Rattle.session_table.specs.declared.entry.Sockets.{Sockets as SocketsValue};
ghost use Rattle.session_table.specs.declared.table.Deadline.{Deadline as DeadlineValue};
ghost use Rattle.session_table.specs.Entries.{same_sockets, accepts_at, opens_at};
ghost use Rattle.session_table.specs.Indexes.{deadline_cmp, is_due_at, passed_numbers};

use crate::{Entry, Sockets};
use sim_base::Memory;
use std::alloc::Global;
use std::collections::{BTreeMap, BTreeSet, HashMap};
use std::marker::Model;

/// When a session's deadline is; in the order of time.
#[derive(Clone, Copy, Debug, PartialEq, Eq, PartialOrd, Ord)]
struct Deadline {
    at: u64,
    number: u64,
}

/// The sessions of a host. Contracts see the list of them in order of their numbers.
#[derive(Drop)]
pub struct SessionTable<S> {
    entries: BTreeMap<u64, Entry<S>>,
    accepted: HashMap<Sockets, u64>,
    opened: HashMap<Sockets, u64>,
    deadlines: BTreeSet<Deadline>,
}

impl<S> Model for SessionTable<S> {
    ghost use Rattle.std.specs.Prelude.{List};
    ghost use Rattle.std.specs.Map.{values_of};
    ghost use Rattle.std.specs.HashMap.{get};
    ghost use Rattle.std.specs.BTreeSet.{contains};
    ghost use Rattle.session_table.specs.declared.entry.Entry.{Entry as EntryValue};
    ghost use Rattle.session_table.specs.Entries.{same_sockets};
    ghost use Rattle.session_table.specs.Indexes.{IsIndexed, deadline_cmp};

    ghost Value = { List (EntryValue S) };

    ghost view = { λ t. values_of t.entries.entries };

    ghost invariant = { λ t. IsIndexed t.entries.entries (get same_sockets t.accepted) (get same_sockets t.opened) (contains deadline_cmp t.deadlines) };
}

/// Puts a session under its ends. Without memory nothing has changed.
fn keep_place<S>(
    accepted: &mut HashMap<Sockets, u64>,
    opened: &mut HashMap<Sockets, u64>,
    entry: &Entry<S>,
) -> Result<(), Memory>
    ensures accepted { OnOk result ((q : SocketsValue) → get same_sockets accepted.new q ≡ (if accepts_at q entry.now then Some entry.now.number else get same_sockets accepted.old q)) }
    ensures opened { OnOk result ((q : SocketsValue) → get same_sockets opened.new q ≡ (if opens_at q entry.now then Some entry.now.number else get same_sockets opened.old q)) }
    ensures same_accepted { OnErr result ((q : SocketsValue) → get same_sockets accepted.new q ≡ get same_sockets accepted.old q) }
    ensures same_opened { OnErr result ((q : SocketsValue) → get same_sockets opened.new q ≡ get same_sockets opened.old q) }
{
    if entry.client.is_none() {
        accepted.insert(entry.sockets, entry.number)?;
    } else {
        opened.insert(entry.sockets, entry.number)?;
    }
    Ok(())
}

/// Takes a session from under its ends.
fn forget_place<S>(
    accepted: &mut HashMap<Sockets, u64>,
    opened: &mut HashMap<Sockets, u64>,
    entry: &Entry<S>,
)
    ensures accepted { (q : SocketsValue) → get same_sockets accepted.new q ≡ (if accepts_at q entry.now then None else get same_sockets accepted.old q) }
    ensures opened { (q : SocketsValue) → get same_sockets opened.new q ≡ (if opens_at q entry.now then None else get same_sockets opened.old q) }
{
    if entry.client.is_none() {
        let _ = accepted.remove(&entry.sockets);
    } else {
        let _ = opened.remove(&entry.sockets);
    }
}

/// Puts a session under its deadline. Without memory nothing has changed.
fn keep_deadline<S>(deadlines: &mut BTreeSet<Deadline>, entry: &Entry<S>) -> Result<(), Memory>
    ensures ok { OnOk result ((q : DeadlineValue) → contains deadline_cmp deadlines.new q ≡ (is_due_at q entry.now || contains deadline_cmp deadlines.old q)) }
    ensures err { OnErr result ((q : DeadlineValue) → contains deadline_cmp deadlines.new q ≡ contains deadline_cmp deadlines.old q) }
{
    if let Some(at) = entry.deadline {
        let number = entry.number;
        deadlines.insert(Deadline { at, number })?;
    }
    Ok(())
}

/// Takes a session from under its deadline.
fn forget_deadline<S>(deadlines: &mut BTreeSet<Deadline>, entry: &Entry<S>)
    ensures { (q : DeadlineValue) → contains deadline_cmp deadlines.new q ≡ (not (is_due_at q entry.now) && contains deadline_cmp deadlines.old q) }
{
    if let Some(at) = entry.deadline {
        let number = entry.number;
        let _ = deadlines.remove(&Deadline { at, number });
    }
}

/// The numbers of the sessions whose deadline is at most `now`, in the order of their deadlines.
fn passed(alloc: Global, deadlines: &BTreeSet<Deadline>, now: u64) -> Result<Vec<u64>, Memory>
    ensures numbers { IfOk result (λ numbers. numbers.items ≡ passed_numbers now deadlines.now.keys) }
    ensures ordered { IsOrdered deadline_cmp deadlines.now }
{
    Ok(
        deadlines
            .iter()
            .take_while(|deadline| deadline.at <= now)
            .map(|deadline| deadline.number)
            .collect(alloc)?,
    )
}

impl<S: Drop> SessionTable<S> {
    ghost use Rattle.std.specs.Prelude.{◌≡◌, [], Some, IsSome, IfOk, OnOk, OnErr, IfErr, MatchOption, None};
    ghost use Rattle.session_table.specs.Entries.{numbered, found, least, due, placed, without, IsNew};

    /// An empty table, which has taken no memory.
    pub fn new(alloc: Global) -> SessionTable<S>
        ensures { result ≡ [] }
    {
        SessionTable {
            entries: BTreeMap::new(alloc),
            accepted: HashMap::new(alloc),
            opened: HashMap::new(alloc),
            deadlines: BTreeSet::new(alloc),
        }
    }

    /// The number of the session to which a packet between these ends goes: that of the accepted one,
    /// and where there is none, of the opened one.
    pub fn find(&self, sockets: &Sockets) -> Option<u64>
        ensures { result ≡ found sockets.now self.now }
    {
        let accepted = self.accepted.get(sockets).copied();
        let opened = self.opened.get(sockets).copied();
        accepted.or(opened)
    }

    /// The session of this number.
    pub fn entry(&self, number: u64) -> Option<&Entry<S>>
        ensures { MatchOption result (numbered number self.now ≡ None) (λ entry. numbered number self.now ≡ Some entry.now) }
    {
        self.entries.get(&number)
    }

    /// The least deadline, where some session has one.
    pub fn least(&self) -> Option<u64>
        ensures { result ≡ least self.now }
    {
        match self.deadlines.first() {
            Some(deadline) => Some(deadline.at),
            None => None,
        }
    }

    /// The numbers of the sessions whose deadline is at most `now`, in their order.
    ///
    /// # Errors
    /// `Memory`.
    pub fn due(&self, alloc: Global, now: u64) -> Result<Vec<u64>, Memory>
        ensures { IfOk result (λ numbers. numbers.items ≡ due now self.now) }
    {
        let mut numbers = passed(alloc, &self.deadlines, now)?;
        numbers.sort_unstable();
        Ok(numbers)
    }

    /// Puts a session into the table, in its place by numbers.
    ///
    /// # Errors
    /// The session and `Memory`, and then nothing has changed.
    pub fn put(&mut self, entry: Entry<S>) -> Result<(), (Entry<S>, Memory)>
        requires { IsNew entry self.old }
        ensures ok { OnOk result (self.new ≡ placed entry self.old) }
        ensures err { OnErr result (self.new ≡ self.old) }
        ensures back { IfErr result (λ back. back.0 ≡ entry) }
    {
        if keep_deadline(&mut self.deadlines, &entry).is_err() {
            return Err((entry, Memory));
        }
        if keep_place(&mut self.accepted, &mut self.opened, &entry).is_err() {
            forget_deadline(&mut self.deadlines, &entry);
            return Err((entry, Memory));
        }
        match self.entries.insert(entry.number, entry) {
            Ok(_) => Ok(()),
            Err(refused) => {
                let (_, entry) = refused.value;
                forget_place(&mut self.accepted, &mut self.opened, &entry);
                forget_deadline(&mut self.deadlines, &entry);
                Err((entry, Memory))
            }
        }
    }

    /// Takes the session of this number out of the table.
    pub fn take(&mut self, number: u64) -> Entry<S>
        requires { IsSome (numbered number self.old) }
        ensures entry { numbered number self.old ≡ Some result }
        ensures rest { self.new ≡ without number self.old }
    {
        match self.entries.remove(&number) {
            Some(entry) => {
                forget_place(&mut self.accepted, &mut self.opened, &entry);
                forget_deadline(&mut self.deadlines, &entry);
                entry
            }
            None => unreachable!(),
        }
    }
}
