//! The clock of a host's sessions.

use crate::Stack;
use host_sending::Site;
use ip_layer::Packet;
use sim_base::Memory;
use ssf_model::Out;
use std::alloc::Global;
use tcp_session::Segments;

impl Stack {
    ghost use Rattle.std.specs.Prelude.{◌≡◌, ◌≤◌, ◌^◌, ◌++◌, OnOk};
    ghost use Rattle.host_rules.specs.Hearing.{timed_out, all_timed_out};
    ghost use Rattle.host_rules.specs.Reacting.{ticked};
    ghost use Rattle.host_rules.specs.Limits.{IsStack};

    /// The deadline of the session of this number passes, where it has.
    fn time_out(
        &mut self,
        alloc: Global,
        site: &Site,
        now: u64,
        number: u64,
        out: &mut Out<Packet>,
    ) -> Result<(), Memory>
        requires now { now ≤ 10 ^ 18 }
        requires valid { IsStack site.now self.old }
        ensures stack { OnOk result (self.new ≡ (timed_out site.now now number self.old).stack) }
        ensures writes { OnOk result (out.new.writes ≡ out.old.writes ++ (timed_out site.now now number self.old).writes) }
        ensures lines { OnOk result (out.new.lines ≡ out.old.lines ++ (timed_out site.now now number self.old).lines) }
        ensures kept { IsStack site.now self.new }
    {
        if !self.sessions.is_due(number, now) {
            return Ok(());
        }
        let mut acts = Segments::new(alloc);
        let turned = self.sessions.timeout(number, now, &mut acts)?;
        self.follow_turn(alloc, site, now, &turned, acts.acts(), out)
    }

    /// The deadlines of the sessions of these numbers pass, one after another.
    fn time_out_all(
        &mut self,
        alloc: Global,
        site: &Site,
        now: u64,
        numbers: &[u64],
        out: &mut Out<Packet>,
    ) -> Result<(), Memory>
        requires now { now ≤ 10 ^ 18 }
        requires valid { IsStack site.now self.old }
        ensures stack { OnOk result (self.new ≡ (all_timed_out site.now now numbers.now self.old).stack) }
        ensures writes { OnOk result (out.new.writes ≡ out.old.writes ++ (all_timed_out site.now now numbers.now self.old).writes) }
        ensures lines { OnOk result (out.new.lines ≡ out.old.lines ++ (all_timed_out site.now now numbers.now self.old).lines) }
        ensures kept { IsStack site.now self.new }
    {
        for number in numbers {
            self.time_out(alloc, site, now, *number, out)?;
        }
        Ok(())
    }

    /// The clock's timer ends: each session whose deadline has passed has its turn, in order of
    /// creation.
    #[tactic(auto, unfolding(host_rules::specs::Reacting::ticked))]
    pub(crate) fn tick(
        &mut self,
        alloc: Global,
        site: &Site,
        now: u64,
        out: &mut Out<Packet>,
    ) -> Result<(), Memory>
        requires now { now ≤ 10 ^ 18 }
        requires valid { IsStack site.now self.old }
        ensures stack { OnOk result (self.new ≡ (ticked site.now now self.old).stack) }
        ensures writes { OnOk result (out.new.writes ≡ out.old.writes ++ (ticked site.now now self.old).writes) }
        ensures lines { OnOk result (out.new.lines ≡ out.old.lines ++ (ticked site.now now self.old).lines) }
        ensures kept { IsStack site.now self.new }
    {
        let numbers = self.sessions.due(alloc, now)?;
        self.time_out_all(alloc, site, now, numbers.as_slice(), out)
    }
}
