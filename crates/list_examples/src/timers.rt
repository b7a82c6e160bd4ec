//! Entities whose processes wait for times.

ghost use Rattle.std.specs.Prelude.{◌≡◌, ◌↔◌, ◌∷◌, [], ℕ, true, map, IfOk, IfErr, IsTrue};
ghost use Rattle.ssf_model.specs.Reaction.{is_timed};
ghost use Rattle.ssf_model.specs.Drafts.{planned};
ghost use Rattle.ssf_model.specs.Run.{Fits};
ghost use Rattle.list_examples.specs.Timers.{IsTicker, IsListener, IsSleeper, AnySignal, ticker_draft, listener_draft, sleepers_draft};

use sim_base::Memory;
use ssf_model::{Behaviour, BuildFault, ChannelList, Out, Plan, PlanBuilder, Process, Wait, Wake};
use std::alloc::Global;

/// A state that never changes.
#[derive(Clone, Copy, Debug)]
pub struct Idle {}

/// A message that carries nothing.
#[derive(Clone, Copy, Debug)]
pub struct Signal {}

/// The behaviour of a process that waits for no time at its start, and for two ticks whenever its
/// timer runs out.
#[derive(Clone, Copy, Debug)]
pub struct Ticker {}

/// The behaviour of two processes: number 0 always waits for a message or four ticks, and number 1
/// waits for two ticks, then writes one message without delay, and waits for nothing more.
#[derive(Clone, Copy, Debug)]
pub struct Listener {}

/// The behaviour of processes that wait for nothing more whenever something wakes them. Whatever they
/// wait for meanwhile, their state is valid.
#[derive(Clone, Copy, Debug)]
pub struct Sleeper {}

/// Whether these are one timed process.
fn is_one_timed(processes: &[Process]) -> bool
    ensures { IsTrue result ↔ (map is_timed processes.now ≡ true ∷ []) }
{
    match processes {
        [process] => process.timer.is_some(),
        _ => false,
    }
}

/// Whether these are two timed processes.
fn are_two_timed(processes: &[Process]) -> bool
    ensures { IsTrue result ↔ (map is_timed processes.now ≡ true ∷ true ∷ []) }
{
    match processes {
        [first, second] => first.timer.is_some() && second.timer.is_some(),
        _ => false,
    }
}

/// Whether the only channel is number 0.
fn is_only_first(channels: &[u32]) -> bool
    ensures { IsTrue result ↔ (channels.now ≡ 0 ∷ []) }
{
    match channels {
        [channel] => *channel == 0,
        _ => false,
    }
}

impl Behaviour for Ticker {
    ghost use Rattle.std.specs.Prelude.{◌≡◌, ◌++◌};
    ghost use Rattle.list_examples.specs.Timers.{ticker_reaction, IsTicker, AnySignal};
    ghost use Rattle.list_examples.specs.TimerLaws.{ticker_sound, ticker_modest};

    type State = Idle;

    type Payload = Signal;

    ghost reaction = { λ _. ticker_reaction };

    ghost valid = { λ _. IsTicker };

    ghost carried = { λ _. AnySignal };

    ghost sound = { λ _. ticker_sound };

    ghost modest = { λ _. ticker_modest };

    fn action(
        &self,
        _alloc: Global,
        _state: &mut Idle,
        _process: u32,
        _now: u64,
        wake: &Wake<Signal>,
        _out: &mut Out<Signal>,
    ) -> Result<Wait, Memory> {
        match wake {
            Wake::Begin => Ok(Wait::For(0)),
            Wake::Timer => Ok(Wait::For(2)),
            Wake::Message { .. } => Ok(Wait::Forever),
        }
    }

    fn known(&self, _payload: &Signal) {}

    fn is_valid(
        &self,
        _state: &Idle,
        _ins: &[u32],
        _outs: &[u32],
        processes: &[Process],
        _waits: &[Wait],
    ) -> bool {
        is_one_timed(processes)
    }
}

impl Behaviour for Listener {
    ghost use Rattle.std.specs.Prelude.{◌≡◌, ◌++◌};
    ghost use Rattle.list_examples.specs.Timers.{listener_reaction, IsListener, AnySignal};
    ghost use Rattle.list_examples.specs.TimerLaws.{listener_sound, listener_modest};

    type State = Idle;

    type Payload = Signal;

    ghost reaction = { λ _. listener_reaction };

    ghost valid = { λ _. IsListener };

    ghost carried = { λ _. AnySignal };

    ghost sound = { λ _. listener_sound };

    ghost modest = { λ _. listener_modest };

    fn action(
        &self,
        alloc: Global,
        _state: &mut Idle,
        process: u32,
        _now: u64,
        wake: &Wake<Signal>,
        out: &mut Out<Signal>,
    ) -> Result<Wait, Memory> {
        if process == 0 {
            return Ok(Wait::OnFor(ChannelList::of(alloc, &[0])?, 4));
        }
        match wake {
            Wake::Begin => Ok(Wait::For(2)),
            Wake::Timer => {
                out.write(0, 0, Signal {})?;
                Ok(Wait::Forever)
            }
            Wake::Message { .. } => Ok(Wait::Forever),
        }
    }

    fn known(&self, _payload: &Signal) {}

    fn is_valid(
        &self,
        _state: &Idle,
        ins: &[u32],
        outs: &[u32],
        processes: &[Process],
        _waits: &[Wait],
    ) -> bool {
        are_two_timed(processes) && is_only_first(ins) && is_only_first(outs)
    }
}

impl Behaviour for Sleeper {
    ghost use Rattle.std.specs.Prelude.{◌≡◌, ◌++◌};
    ghost use Rattle.list_examples.specs.Timers.{sleeper_reaction, IsSleeper, AnySignal};
    ghost use Rattle.list_examples.specs.TimerLaws.{sleeper_sound, sleeper_modest};

    type State = Idle;

    type Payload = Signal;

    ghost reaction = { λ _. sleeper_reaction };

    ghost valid = { λ _. IsSleeper };

    ghost carried = { λ _. AnySignal };

    ghost sound = { λ _. sleeper_sound };

    ghost modest = { λ _. sleeper_modest };

    fn action(
        &self,
        _alloc: Global,
        _state: &mut Idle,
        _process: u32,
        _now: u64,
        _wake: &Wake<Signal>,
        _out: &mut Out<Signal>,
    ) -> Result<Wait, Memory> {
        Ok(Wait::Forever)
    }

    fn known(&self, _payload: &Signal) {}

    fn is_valid(
        &self,
        _state: &Idle,
        _ins: &[u32],
        _outs: &[u32],
        _processes: &[Process],
        _waits: &[Wait],
    ) -> bool {
        true
    }
}

/// A plan of one entity that ticks; it is refused for want of memory alone.
pub fn ticker_plan(alloc: Global) -> Result<Plan<Ticker>, BuildFault>
    ensures made { IfOk result (λ plan. plan ≡ planned ticker_draft) }
    ensures fits { IfOk result (λ plan. Fits IsTicker AnySignal plan) }
    ensures cause { IfErr result (λ fault. fault ≡ BuildFault.Memory) }
{
    let mut builder = PlanBuilder::new(alloc, Ticker {})?;
    if let Err((_, fault)) = builder.entity(Idle {}, &[true]) {
        return Err(fault);
    }
    let plan = builder.finish()?;
    Ok(plan)
}

/// A plan of one entity with a listener, whose out-channel leads back to it without delay; it is
/// refused for want of memory alone.
pub fn listener_plan(alloc: Global) -> Result<Plan<Listener>, BuildFault>
    ensures made { IfOk result (λ plan. plan ≡ planned listener_draft) }
    ensures fits { IfOk result (λ plan. Fits IsListener AnySignal plan) }
    ensures cause { IfErr result (λ fault. fault ≡ BuildFault.Memory) }
{
    let mut builder = PlanBuilder::new(alloc, Listener {})?;
    if let Err((_, fault)) = builder.entity(Idle {}, &[true, true]) {
        return Err(fault);
    }
    builder.in_channel(0)?;
    builder.out_channel(0, 0)?;
    builder.mapto(0, 0, 0)?;
    let plan = builder.finish()?;
    Ok(plan)
}

/// A plan of two entities of sleepers, of which each has one in-channel and one out-channel, that leads
/// to the other without delay. Entity 0 has a process that is not timed and one that is, and entity 1
/// one that is. It is refused for want of memory alone.
pub fn sleepers_plan(alloc: Global) -> Result<Plan<Sleeper>, BuildFault>
    ensures made { IfOk result (λ plan. plan ≡ planned sleepers_draft) }
    ensures fits { IfOk result (λ plan. Fits IsSleeper AnySignal plan) }
    ensures cause { IfErr result (λ fault. fault ≡ BuildFault.Memory) }
{
    let mut builder = PlanBuilder::new(alloc, Sleeper {})?;
    if let Err((_, fault)) = builder.entity(Idle {}, &[false, true]) {
        return Err(fault);
    }
    if let Err((_, fault)) = builder.entity(Idle {}, &[true]) {
        return Err(fault);
    }
    builder.in_channel(0)?;
    builder.in_channel(1)?;
    builder.out_channel(0, 0)?;
    builder.out_channel(1, 0)?;
    builder.mapto(0, 1, 0)?;
    builder.mapto(1, 0, 0)?;
    let plan = builder.finish()?;
    Ok(plan)
}
