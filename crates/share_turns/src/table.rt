//! A worker at the table of turns at the parts of a run: it brings out the values that it works on, notes their
//! numbers, and gives them back.

ghost use Rattle.std.specs.Prelude.{◌≡◌, ◌≢◌, ◌<◌, ◌≤◌, ◌+◌, ◌^◌, ℕ, suc, true, length, Some, MatchOption, slice_get};
ghost use Rattle.turn_table.specs.Passes.{view_of, holds_at, note_of, HoldsNone};
ghost use Rattle.turn_table.specs.Shapes.{Speaks, is_marked};
ghost use Rattle.turn_table.specs.Views.{mark, note, writing};
ghost use Rattle.turn_table.specs.Turned.{IsPassOf, key_of};
ghost use Rattle.plan_shares.specs.declared.crosses.CrossEnd.{CrossEnd as CrossEndValue};
ghost use Rattle.event_order.specs.Pending.{Among};
ghost use Rattle.timeline_parts.specs.Tables.{numbers_of};
ghost use Rattle.timeline.specs.View.{TimelineOf};
ghost use Rattle.timeline.specs.Holding.{taken_of};
ghost use Rattle.appointments.specs.Mails.{Mails};
ghost use Rattle.barrier_window.specs.BarrierFields.{BarrierFields};
ghost use Rattle.core_rules.specs.Cores.{IsCoreOfRun};
ghost use Rattle.share_rules.specs.Places.{shape_of, count_of, mail_place, barrier_place, posted_word, taken_word, done_word, round_word};
ghost use Rattle.share_rules.specs.Held.{IsNoted, IsTimelineHeld, KeepsWith};
ghost use Rattle.share_turns.specs.Loads.{HasLoaded, AreNoted, AreDoneMarked};
ghost use Rattle.share_turns.specs.Tables.{IsTableOf};
ghost use Rattle.share_turns.specs.Holdings.{HoldsOne, HoldsTwo, HasLostNone, IsTimelineOut, IsMailOut, IsBarrierOut, AreTakenUpTo, AreTakenWritten, IsTimelineBy, StaysBy, IsMailBy, IsBarrierBy, HasTimeline, HasMail, HasNoMail, HasBarrier, HasNoBarrier};

use crate::layout::Layout;
use crate::near::Near;
use crate::share::Share;
use ssf_model::Behaviour;
use sync_core::CrossEnd;
use timeline::Timeline;
use turn_table::{Held, Pass, Tenant, Turn, Turns};

/// The table of turns, as the worker at one timeline sees it.
#[derive(Clone, Copy)]
pub struct RunTable<'a, B: Behaviour> {
    /// The turns at all parts.
    pub turns: &'a Turns<Share<B>>,
    /// The channels between timelines.
    pub ends: &'a [CrossEnd],
    /// For each timeline the places of its channels among them.
    pub near: &'a Near,
    /// How many timelines and channels there are.
    pub layout: Layout,
    /// The timeline.
    pub number: u32,
}

impl<'a, B: Behaviour> RunTable<'a, B> {
    ghost use Rattle.std.specs.Prelude.{◌≡◌, ◌≢◌, ◌<◌, ◌≤◌, ◌+◌, ◌^◌, ℕ, suc, true, length, Some, MatchOption, slice_get};
    ghost use Rattle.turn_table.specs.Passes.{view_of, holds_at, note_of, HoldsNone};
    ghost use Rattle.turn_table.specs.Shapes.{Speaks, is_marked};
    ghost use Rattle.turn_table.specs.Views.{mark, note, writing};
    ghost use Rattle.turn_table.specs.Turned.{IsPassOf, key_of};
    ghost use Rattle.plan_shares.specs.declared.crosses.CrossEnd.{CrossEnd as CrossEndValue};
    ghost use Rattle.event_order.specs.Pending.{Among};
    ghost use Rattle.timeline_parts.specs.Tables.{numbers_of};
    ghost use Rattle.timeline.specs.View.{TimelineOf};
    ghost use Rattle.timeline.specs.Holding.{taken_of};
    ghost use Rattle.appointments.specs.Mails.{Mails};
    ghost use Rattle.barrier_window.specs.BarrierFields.{BarrierFields};
    ghost use Rattle.core_rules.specs.Cores.{IsCoreOfRun};
    ghost use Rattle.share_rules.specs.Places.{shape_of, count_of, mail_place, barrier_place, posted_word, taken_word, done_word, round_word};
    ghost use Rattle.share_rules.specs.Held.{IsNoted, IsTimelineHeld, KeepsWith};
    ghost use Rattle.share_turns.specs.Loads.{HasLoaded, AreNoted, AreDoneMarked};
    ghost use Rattle.share_turns.specs.Tables.{IsTableOf};
    ghost use Rattle.share_turns.specs.Holdings.{HoldsOne, HoldsTwo, HasLostNone, IsTimelineOut, IsMailOut, IsBarrierOut, AreTakenUpTo, AreTakenWritten, IsTimelineBy, StaysBy, IsMailBy, IsBarrierBy, HasTimeline, HasMail, HasNoMail, HasBarrier, HasNoBarrier};

    /// Moves the timeline out, whose turn the pass has.
    pub fn bring_timeline(&self, pass: &mut Pass, turn: Turn) -> Held<Share<B>>
        requires pass { IsPassOf ⟦<Share<B> as Tenant>⟧ self.now.turns.now pass.old }
        requires table { IsTableOf (key_of self.now.turns.now).value self.now.ends.now self.now.near.now.rows.items self.now.layout self.now.number }
        requires turn { turn.place ≡ self.now.number }
        requires held { holds_at pass.old self.now.number ≡ 1 }
        requires others { (p : ℕ) → (p ≡ self.now.number → ⊥) → holds_at pass.old p ≡ 0 }
        ensures pass { IsPassOf ⟦<Share<B> as Tenant>⟧ self.now.turns.now pass.new }
        ensures has { HasTimeline B.valid B.carried B.reaction (key_of self.now.turns.now).value (view_of pass.new) self.now.number result }
        ensures tries { HasLostNone (view_of pass.old) (view_of pass.new) }
    {
        self.note_timeline(pass);
        self.turns.bring(pass, turn)
    }

    /// Gives the timeline back.
    pub fn give_timeline(&self, pass: &mut Pass, own: Held<Share<B>>)
        requires pass { IsPassOf ⟦<Share<B> as Tenant>⟧ self.now.turns.now pass.old }
        requires table { IsTableOf (key_of self.now.turns.now).value self.now.ends.now self.now.near.now.rows.items self.now.layout self.now.number }
        requires has { HasTimeline B.valid B.carried B.reaction (key_of self.now.turns.now).value (view_of pass.old) self.now.number own }
        ensures pass { IsPassOf ⟦<Share<B> as Tenant>⟧ self.now.turns.now pass.new }
        ensures free { HoldsNone pass.new }
        ensures tries { HasLostNone (view_of pass.old) (view_of pass.new) }
    {
        self.turns.give(pass, own);
    }

    /// Moves the mail of a timeline out, where its turn is free.
    pub fn bring_mail(&self, pass: &mut Pass, receiver: u32) -> Option<Held<Share<B>>>
        requires pass { IsPassOf ⟦<Share<B> as Tenant>⟧ self.now.turns.now pass.old }
        requires table { IsTableOf (key_of self.now.turns.now).value self.now.ends.now self.now.near.now.rows.items self.now.layout self.now.number }
        requires run { IsCoreOfRun (B.valid (key_of self.now.turns.now).value.behaviour) (B.carried (key_of self.now.turns.now).value.behaviour) (B.reaction (key_of self.now.turns.now).value.behaviour) (key_of self.now.turns.now).value }
        requires receiver { receiver < count_of (key_of self.now.turns.now).value }
        requires holds { HoldsOne (view_of pass.old) self.now.number }
        ensures pass { IsPassOf ⟦<Share<B> as Tenant>⟧ self.now.turns.now pass.new }
        ensures mail { MatchOption result (HasNoMail B.valid B.carried B.reaction (key_of self.now.turns.now).value (view_of pass.old) (view_of pass.new) self.now.number receiver) (λ mail. HasMail B.valid B.carried B.reaction (key_of self.now.turns.now).value (view_of pass.old) (view_of pass.new) self.now.number receiver mail) }
        ensures stays { StaysBy B.valid B.carried B.reaction (key_of self.now.turns.now).value (view_of pass.old) (view_of pass.new) self.now.number }
    {
        let turn = self.turns.try_take(pass, self.layout.mail(receiver))?;
        self.note_mail(pass, receiver);
        Some(self.turns.bring(pass, turn))
    }

    /// Gives the mail of a timeline back.
    pub fn give_mail(&self, pass: &mut Pass, receiver: u32, mail: Held<Share<B>>)
        requires pass { IsPassOf ⟦<Share<B> as Tenant>⟧ self.now.turns.now pass.old }
        requires table { IsTableOf (key_of self.now.turns.now).value self.now.ends.now self.now.near.now.rows.items self.now.layout self.now.number }
        requires receiver { receiver < count_of (key_of self.now.turns.now).value }
        requires holds { HoldsTwo (view_of pass.old) self.now.number (mail_place (key_of self.now.turns.now).value receiver) }
        requires mail { (x : Mails B.Payload) × IsMailOut (mail_place (key_of self.now.turns.now).value receiver) x mail × IsMailBy B.valid B.carried B.reaction (key_of self.now.turns.now).value (view_of pass.old) receiver x }
        ensures pass { IsPassOf ⟦<Share<B> as Tenant>⟧ self.now.turns.now pass.new }
        ensures holds { HoldsOne (view_of pass.new) self.now.number }
        ensures tries { HasLostNone (view_of pass.old) (view_of pass.new) }
        ensures stays { StaysBy B.valid B.carried B.reaction (key_of self.now.turns.now).value (view_of pass.old) (view_of pass.new) self.now.number }
    {
        self.turns.give(pass, mail);
    }

    /// Moves the barrier out, where its turn is free.
    pub fn bring_barrier(&self, pass: &mut Pass) -> Option<Held<Share<B>>>
        requires pass { IsPassOf ⟦<Share<B> as Tenant>⟧ self.now.turns.now pass.old }
        requires table { IsTableOf (key_of self.now.turns.now).value self.now.ends.now self.now.near.now.rows.items self.now.layout self.now.number }
        requires holds { HoldsOne (view_of pass.old) self.now.number }
        ensures pass { IsPassOf ⟦<Share<B> as Tenant>⟧ self.now.turns.now pass.new }
        ensures barrier { MatchOption result (HasNoBarrier B.valid B.carried B.reaction (key_of self.now.turns.now).value (view_of pass.old) (view_of pass.new) self.now.number) (λ barrier. HasBarrier B.valid B.carried B.reaction (key_of self.now.turns.now).value (view_of pass.old) (view_of pass.new) self.now.number barrier) }
        ensures stays { StaysBy B.valid B.carried B.reaction (key_of self.now.turns.now).value (view_of pass.old) (view_of pass.new) self.now.number }
    {
        let turn = self.turns.try_take(pass, self.layout.barrier())?;
        self.note_barrier(pass);
        Some(self.turns.bring(pass, turn))
    }

    /// Gives the barrier back.
    pub fn give_barrier(&self, pass: &mut Pass, barrier: Held<Share<B>>)
        requires pass { IsPassOf ⟦<Share<B> as Tenant>⟧ self.now.turns.now pass.old }
        requires table { IsTableOf (key_of self.now.turns.now).value self.now.ends.now self.now.near.now.rows.items self.now.layout self.now.number }
        requires holds { HoldsTwo (view_of pass.old) self.now.number (barrier_place (key_of self.now.turns.now).value) }
        requires barrier { (bar : BarrierFields) × IsBarrierOut (barrier_place (key_of self.now.turns.now).value) bar barrier × IsBarrierBy B.valid B.carried B.reaction (key_of self.now.turns.now).value (view_of pass.old) bar }
        ensures pass { IsPassOf ⟦<Share<B> as Tenant>⟧ self.now.turns.now pass.new }
        ensures holds { HoldsOne (view_of pass.new) self.now.number }
        ensures tries { HasLostNone (view_of pass.old) (view_of pass.new) }
        ensures stays { StaysBy B.valid B.carried B.reaction (key_of self.now.turns.now).value (view_of pass.old) (view_of pass.new) self.now.number }
    {
        self.turns.give(pass, barrier);
    }

    /// Writes how much the timeline, which is held out, has executed.
    pub fn write_done(&self, pass: &mut Pass, done: u64)
        requires pass { IsPassOf ⟦<Share<B> as Tenant>⟧ self.now.turns.now pass.old }
        requires table { IsTableOf (key_of self.now.turns.now).value self.now.ends.now self.now.near.now.rows.items self.now.layout self.now.number }
        requires held { holds_at pass.old self.now.number ≡ 2 }
        requires noted { 0 < note_of pass.old (done_word (key_of self.now.turns.now).value self.now.number) }
        requires rises { note_of pass.old (done_word (key_of self.now.turns.now).value self.now.number) ≤ suc done }
        ensures pass { IsPassOf ⟦<Share<B> as Tenant>⟧ self.now.turns.now pass.new }
        ensures view { view_of pass.new ≡ writing (view_of pass.old) (done_word (key_of self.now.turns.now).value self.now.number) done }
        ensures so { (t : TimelineOf B B.State B.Payload) → IsTimelineHeld (B.valid (key_of self.now.turns.now).value.behaviour) (B.carried (key_of self.now.turns.now).value.behaviour) (B.reaction (key_of self.now.turns.now).value.behaviour) (key_of self.now.turns.now).value (mark (view_of pass.old)) self.now.number t → IsNoted (key_of self.now.turns.now).value (note (view_of pass.old)) self.now.number t → t.executed ≡ done → IsTimelineBy B.valid B.carried B.reaction (key_of self.now.turns.now).value (view_of pass.new) self.now.number t }
    {
        self.turns.write(pass, self.layout.done(self.number), done);
    }

    /// Writes how much the timeline has taken from each channel that comes from another one. It is held out, and its mail is.
    pub fn write_taken(&self, pass: &mut Pass, timeline: &Timeline<B>)
        requires pass { IsPassOf ⟦<Share<B> as Tenant>⟧ self.now.turns.now pass.old }
        requires table { IsTableOf (key_of self.now.turns.now).value self.now.ends.now self.now.near.now.rows.items self.now.layout self.now.number }
        requires run { IsCoreOfRun (B.valid (key_of self.now.turns.now).value.behaviour) (B.carried (key_of self.now.turns.now).value.behaviour) (B.reaction (key_of self.now.turns.now).value.behaviour) (key_of self.now.turns.now).value }
        requires timeline { IsTimelineHeld (B.valid (key_of self.now.turns.now).value.behaviour) (B.carried (key_of self.now.turns.now).value.behaviour) (B.reaction (key_of self.now.turns.now).value.behaviour) (key_of self.now.turns.now).value (mark (view_of pass.old)) self.now.number timeline.now }
        requires holds { HoldsTwo (view_of pass.old) self.now.number (mail_place (key_of self.now.turns.now).value self.now.number) }
        requires rises { AreTakenUpTo (key_of self.now.turns.now).value (view_of pass.old) self.now.number timeline.now }
        ensures pass { IsPassOf ⟦<Share<B> as Tenant>⟧ self.now.turns.now pass.new }
        ensures written { AreTakenWritten (key_of self.now.turns.now).value (view_of pass.old) (view_of pass.new) self.now.number timeline.now }
    {
        for &place in self.near.of(self.number) {
            self.write_taken_on(pass, place, &self.ends[place as usize], timeline);
        }
    }

    // Writes how much the timeline has taken from the channel of an end, where it is the receiver.
    fn write_taken_on(&self, pass: &mut Pass, place: u32, end: &CrossEnd, timeline: &Timeline<B>)
        requires pass { IsPassOf ⟦<Share<B> as Tenant>⟧ self.now.turns.now pass.old }
        requires table { IsTableOf (key_of self.now.turns.now).value self.now.ends.now self.now.near.now.rows.items self.now.layout self.now.number }
        requires end { slice_get self.now.ends.now place ≡ Some end.now }
        requires holds { HoldsTwo (view_of pass.old) self.now.number (mail_place (key_of self.now.turns.now).value self.now.number) }
        requires among { end.now.receiver ≡ self.now.number → Among end.now.channel (numbers_of timeline.now.in_ends) }
        requires noted { end.now.receiver ≡ self.now.number → 0 < note_of pass.old (taken_word (key_of self.now.turns.now).value place) }
        requires rises { end.now.receiver ≡ self.now.number → note_of pass.old (taken_word (key_of self.now.turns.now).value place) ≤ suc (taken_of timeline.now.in_ends end.now.channel) }
        ensures pass { IsPassOf ⟦<Share<B> as Tenant>⟧ self.now.turns.now pass.new }
        ensures written { end.now.receiver ≡ self.now.number → view_of pass.new ≡ writing (view_of pass.old) (taken_word (key_of self.now.turns.now).value place) (taken_of timeline.now.in_ends end.now.channel) }
        ensures same { end.now.receiver ≢ self.now.number → view_of pass.new ≡ view_of pass.old }
    {
        if end.receiver == self.number {
            self.turns.write(pass, self.layout.taken(place), timeline.taken(end.channel));
        }
    }

    /// Writes how much was posted on the channel of the end at a place. Its sender is held out, and the mail of its receiver is.
    pub fn write_posted(&self, pass: &mut Pass, place: u32, posted: u64)
        requires pass { IsPassOf ⟦<Share<B> as Tenant>⟧ self.now.turns.now pass.old }
        requires table { IsTableOf (key_of self.now.turns.now).value self.now.ends.now self.now.near.now.rows.items self.now.layout self.now.number }
        requires end { (end : CrossEndValue) × (slice_get self.now.ends.now place ≡ Some end) × (end.sender ≡ self.now.number) × (end.receiver < count_of (key_of self.now.turns.now).value) × (holds_at pass.old (mail_place (key_of self.now.turns.now).value end.receiver) ≡ 2) }
        requires held { holds_at pass.old self.now.number ≡ 2 }
        requires noted { 0 < note_of pass.old (posted_word (key_of self.now.turns.now).value place) }
        requires rises { note_of pass.old (posted_word (key_of self.now.turns.now).value place) ≤ suc posted }
        ensures pass { IsPassOf ⟦<Share<B> as Tenant>⟧ self.now.turns.now pass.new }
        ensures view { view_of pass.new ≡ writing (view_of pass.old) (posted_word (key_of self.now.turns.now).value place) posted }
        ensures marks { (c : ℕ) → mark (view_of pass.new) c ≡ mark (view_of pass.old) c }
    {
        self.turns.write(pass, self.layout.posted(place), posted);
    }

    /// Writes the barrier's round. The barrier is held out.
    pub fn write_round(&self, pass: &mut Pass, round: u64)
        requires pass { IsPassOf ⟦<Share<B> as Tenant>⟧ self.now.turns.now pass.old }
        requires table { IsTableOf (key_of self.now.turns.now).value self.now.ends.now self.now.near.now.rows.items self.now.layout self.now.number }
        requires held { holds_at pass.old (barrier_place (key_of self.now.turns.now).value) ≡ 2 }
        requires noted { 0 < note_of pass.old (round_word (key_of self.now.turns.now).value) }
        requires rises { note_of pass.old (round_word (key_of self.now.turns.now).value) ≤ suc round }
        requires keeps { KeepsWith (B.valid (key_of self.now.turns.now).value.behaviour) (B.carried (key_of self.now.turns.now).value.behaviour) (B.reaction (key_of self.now.turns.now).value.behaviour) (key_of self.now.turns.now).value (note (view_of pass.old)) (mark (view_of pass.old)) (round_word (key_of self.now.turns.now).value) round }
        ensures pass { IsPassOf ⟦<Share<B> as Tenant>⟧ self.now.turns.now pass.new }
        ensures view { view_of pass.new ≡ writing (view_of pass.old) (round_word (key_of self.now.turns.now).value) round }
        ensures round { mark (view_of pass.new) (round_word (key_of self.now.turns.now).value) ≡ suc round }
        ensures others { (c : ℕ) → (c ≡ round_word (key_of self.now.turns.now).value → ⊥) → (mark (view_of pass.new) c ≡ mark (view_of pass.old) c) × (note (view_of pass.new) c ≡ note (view_of pass.old) c) }
    {
        self.turns.write(pass, self.layout.round(), round);
    }

    // Notes the count words that speak of the timeline, and marks the round.
    fn note_timeline(&self, pass: &mut Pass)
        requires pass { IsPassOf ⟦<Share<B> as Tenant>⟧ self.now.turns.now pass.old }
        requires table { IsTableOf (key_of self.now.turns.now).value self.now.ends.now self.now.near.now.rows.items self.now.layout self.now.number }
        requires held { 0 < holds_at pass.old self.now.number }
        ensures pass { IsPassOf ⟦<Share<B> as Tenant>⟧ self.now.turns.now pass.new }
        ensures loaded { HasLoaded (view_of pass.old) (view_of pass.new) }
        ensures noted { AreNoted (shape_of (key_of self.now.turns.now).value) (view_of pass.new) self.now.number }
        ensures marked { 0 < mark (view_of pass.new) (round_word (key_of self.now.turns.now).value) }
    {
        for &place in self.near.of(self.number) {
            self.note_end(pass, place, &self.ends[place as usize]);
        }
        self.note(pass, self.layout.done(self.number));
        self.turns.load(pass, self.layout.round());
    }

    // Notes the words of the channel of an end that speak of the timeline.
    fn note_end(&self, pass: &mut Pass, place: u32, end: &CrossEnd)
        requires pass { IsPassOf ⟦<Share<B> as Tenant>⟧ self.now.turns.now pass.old }
        requires table { IsTableOf (key_of self.now.turns.now).value self.now.ends.now self.now.near.now.rows.items self.now.layout self.now.number }
        requires end { slice_get self.now.ends.now place ≡ Some end.now }
        requires held { 0 < holds_at pass.old self.now.number }
        ensures pass { IsPassOf ⟦<Share<B> as Tenant>⟧ self.now.turns.now pass.new }
        ensures loaded { HasLoaded (view_of pass.old) (view_of pass.new) }
        ensures posted { end.now.sender ≡ self.now.number → 0 < note_of pass.new (posted_word (key_of self.now.turns.now).value place) }
        ensures taken { end.now.receiver ≡ self.now.number → 0 < note_of pass.new (taken_word (key_of self.now.turns.now).value place) }
    {
        if end.sender == self.number {
            self.note(pass, self.layout.posted(place));
        }
        if end.receiver == self.number {
            self.note(pass, self.layout.taken(place));
        }
    }

    // Notes the count words that speak of the mail of a timeline.
    fn note_mail(&self, pass: &mut Pass, receiver: u32)
        requires pass { IsPassOf ⟦<Share<B> as Tenant>⟧ self.now.turns.now pass.old }
        requires table { IsTableOf (key_of self.now.turns.now).value self.now.ends.now self.now.near.now.rows.items self.now.layout self.now.number }
        requires run { IsCoreOfRun (B.valid (key_of self.now.turns.now).value.behaviour) (B.carried (key_of self.now.turns.now).value.behaviour) (B.reaction (key_of self.now.turns.now).value.behaviour) (key_of self.now.turns.now).value }
        requires receiver { receiver < count_of (key_of self.now.turns.now).value }
        requires held { 0 < holds_at pass.old (mail_place (key_of self.now.turns.now).value receiver) }
        ensures pass { IsPassOf ⟦<Share<B> as Tenant>⟧ self.now.turns.now pass.new }
        ensures loaded { HasLoaded (view_of pass.old) (view_of pass.new) }
        ensures noted { AreNoted (shape_of (key_of self.now.turns.now).value) (view_of pass.new) (mail_place (key_of self.now.turns.now).value receiver) }
    {
        for &place in self.near.of(receiver) {
            self.note_mail_end(pass, place, &self.ends[place as usize], receiver);
        }
    }

    // Notes the words of the channel of an end, where they speak of the mail of a timeline.
    fn note_mail_end(&self, pass: &mut Pass, place: u32, end: &CrossEnd, receiver: u32)
        requires pass { IsPassOf ⟦<Share<B> as Tenant>⟧ self.now.turns.now pass.old }
        requires table { IsTableOf (key_of self.now.turns.now).value self.now.ends.now self.now.near.now.rows.items self.now.layout self.now.number }
        requires end { slice_get self.now.ends.now place ≡ Some end.now }
        requires held { 0 < holds_at pass.old (mail_place (key_of self.now.turns.now).value receiver) }
        ensures pass { IsPassOf ⟦<Share<B> as Tenant>⟧ self.now.turns.now pass.new }
        ensures loaded { HasLoaded (view_of pass.old) (view_of pass.new) }
        ensures posted { end.now.receiver ≡ receiver → 0 < note_of pass.new (posted_word (key_of self.now.turns.now).value place) }
        ensures taken { end.now.receiver ≡ receiver → 0 < note_of pass.new (taken_word (key_of self.now.turns.now).value place) }
    {
        if end.receiver == receiver {
            self.note(pass, self.layout.posted(place));
            self.note(pass, self.layout.taken(place));
        }
    }

    // Notes a count word that speaks of a place which the pass holds.
    fn note(&self, pass: &mut Pass, word: u32)
        requires pass { IsPassOf ⟦<Share<B> as Tenant>⟧ self.now.turns.now pass.old }
        requires speaks { (p : ℕ) × Speaks (shape_of (key_of self.now.turns.now).value) word p × (0 < holds_at pass.old p) }
        ensures pass { IsPassOf ⟦<Share<B> as Tenant>⟧ self.now.turns.now pass.new }
        ensures loaded { HasLoaded (view_of pass.old) (view_of pass.new) }
        ensures noted { 0 < note_of pass.new word }
        ensures marked { is_marked (shape_of (key_of self.now.turns.now).value) word ≡ true → mark (view_of pass.new) word ≡ note_of pass.new word }
    {
        self.turns.load(pass, word);
    }

    // Notes the round, and marks what each timeline has done.
    fn note_barrier(&self, pass: &mut Pass)
        requires pass { IsPassOf ⟦<Share<B> as Tenant>⟧ self.now.turns.now pass.old }
        requires table { IsTableOf (key_of self.now.turns.now).value self.now.ends.now self.now.near.now.rows.items self.now.layout self.now.number }
        requires held { 0 < holds_at pass.old (barrier_place (key_of self.now.turns.now).value) }
        ensures pass { IsPassOf ⟦<Share<B> as Tenant>⟧ self.now.turns.now pass.new }
        ensures loaded { HasLoaded (view_of pass.old) (view_of pass.new) }
        ensures marked { AreDoneMarked (key_of self.now.turns.now).value (view_of pass.old) (view_of pass.new) }
    {
        self.note(pass, self.layout.round());
        self.turns.mark(pass);
    }
}
