//! What lies at the places of a table: the timelines, their mails and the barrier.

ghost use Rattle.std.specs.Prelude.{◌≡◌};
ghost use Rattle.share_turns.specs.Shares.{IsTimeline, IsMail, IsBarrier};

use appointments::Mail;
use barrier_window::Barrier;
use ssf_model::Behaviour;
use std::snapshot::Snapshot;
use sync_core::Core;
use timeline::Timeline;
use turn_table::Tenant;

/// A part of a run.
#[derive(Drop)]
pub enum Share<B: Behaviour> {
    Timeline(Timeline<B>),
    Mail(Mail<B::Payload>),
    Barrier(Barrier),
}

impl<B: Behaviour> Tenant for Share<B> {
    ghost use Rattle.share_turns.specs.Shares.{share_of};
    ghost use Rattle.share_rules.specs.Places.{shape_of};
    ghost use Rattle.share_rules.specs.Home.{IsSoundAt, Owes, Keeps, Marked};
    ghost use Rattle.share_rules.specs.HomeLaws as laws;

    type Key = Snapshot<Core<B>>;

    ghost shape = { λ key. shape_of key.value };

    ghost sound = { λ key p x. IsSoundAt (B.valid key.value.behaviour) (B.carried key.value.behaviour) (B.reaction key.value.behaviour) key.value p (share_of x) };

    ghost owes = { λ key f p x. Owes (B.valid key.value.behaviour) (B.carried key.value.behaviour) (B.reaction key.value.behaviour) key.value f p (share_of x) };

    ghost keeps = { λ key f. Keeps (B.valid key.value.behaviour) (B.carried key.value.behaviour) (B.reaction key.value.behaviour) key.value f };

    ghost marked = { λ key m p x. Marked (B.valid key.value.behaviour) (B.carried key.value.behaviour) (B.reaction key.value.behaviour) key.value m p (share_of x) };

    ghost stays = { λ key f g p x same up owed. laws.stays (B.valid key.value.behaviour) (B.carried key.value.behaviour) (B.reaction key.value.behaviour) key.value f g p (share_of x) same up owed };

    ghost forgets = { λ key m n p x less marked. laws.forgets (B.valid key.value.behaviour) (B.carried key.value.behaviour) (B.reaction key.value.behaviour) key.value m n p (share_of x) less marked };

    ghost cleared = { λ key m p x none. laws.cleared (B.valid key.value.behaviour) (B.carried key.value.behaviour) (B.reaction key.value.behaviour) key.value m p (share_of x) none };

    ghost marks = { λ key f m p x c kept owed marked. laws.marks (B.valid key.value.behaviour) (B.carried key.value.behaviour) (B.reaction key.value.behaviour) key.value f m p (share_of x) c kept owed marked };
}

impl<B: Behaviour> Share<B> {
    ghost use Rattle.std.specs.Prelude.{◌≡◌};
    ghost use Rattle.share_turns.specs.Shares.{IsTimeline, IsMail, IsBarrier};

    /// The timeline.
    pub fn timeline(&self) -> &Timeline<B>
        requires { IsTimeline self.now }
        ensures { self.now ≡ Share.Timeline result.now }
    {
        match self {
            Share::Timeline(timeline) => timeline,
            _ => unreachable!(),
        }
    }

    /// The barrier.
    pub fn barrier(&self) -> &Barrier
        requires { IsBarrier self.now }
        ensures { self.now ≡ Share.Barrier result.now }
    {
        match self {
            Share::Barrier(barrier) => barrier,
            _ => unreachable!(),
        }
    }

    /// The mail.
    pub fn mail(&self) -> &Mail<B::Payload>
        requires { IsMail self.now }
        ensures { self.now ≡ Share.Mail result.now }
    {
        match self {
            Share::Mail(mail) => mail,
            _ => unreachable!(),
        }
    }

    /// The timeline, moved out.
    pub fn into_timeline(self) -> Timeline<B>
        requires { IsTimeline self }
        ensures { self ≡ Share.Timeline result }
    {
        match self {
            Share::Timeline(timeline) => timeline,
            _ => unreachable!(),
        }
    }

    /// The mail, moved out.
    pub fn into_mail(self) -> Mail<B::Payload>
        requires { IsMail self }
        ensures { self ≡ Share.Mail result }
    {
        match self {
            Share::Mail(mail) => mail,
            _ => unreachable!(),
        }
    }

    /// The barrier, moved out.
    pub fn into_barrier(self) -> Barrier
        requires { IsBarrier self }
        ensures { self ≡ Share.Barrier result }
    {
        match self {
            Share::Barrier(barrier) => barrier,
            _ => unreachable!(),
        }
    }
}
