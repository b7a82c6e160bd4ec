//! Rings that are run by steps, and what is due of them by the one event list.

use global_list::{SingleEnd, run_single};
use list_examples::rings::ring_plan;
use ring_model::Hop;
use sim_base::{Memory, MemorySink, Text, push_number};
use ssf_model::{Entry, Names};
use std::alloc::Global;
use step_run::{Mode, Step, StepEnd, StepOrder, run_steps};
use trace_writer::{Tally, end_line, trace_line};

/// A ring of so many nodes, which is run up to a time.
#[derive(Drop)]
pub struct Model<'a> {
    pub nodes: u32,
    pub tokens: &'a [u32],
    pub hops: &'a [Hop],
    pub until: u32,
}

/// How it is run.
#[derive(Drop)]
pub struct Way<'a> {
    pub mode: Mode,
    pub threshold: u64,
    pub budget: u32,
    pub schedule: &'a [Step],
}

pub fn hop(from: u32, to: u32, delay: u64) -> Hop {
    Hop {
        from,
        to,
        delay,
        priority: 0,
    }
}

/// Each node's number.
fn node_names(alloc: Global, nodes: usize) -> Result<Names, Memory> {
    let mut names = Vec::new(alloc);
    for node in 0..nodes {
        let mut name = Vec::new(alloc);
        push_number(&mut name, node as u64)?;
        names.push(Text::from_vec(name))?;
    }
    Ok(Names::new(names))
}

/// How a run by steps ends and what its tally holds. What it writes goes to the sink.
pub fn run_into(
    alloc: Global,
    model: &Model,
    way: &Way,
    sink: &mut MemorySink,
) -> Result<(StepEnd, Tally), Memory> {
    let Ok(plan) = ring_plan(alloc, model.nodes, model.tokens, model.hops) else {
        return Err(Memory);
    };
    let names = node_names(alloc, plan.entities.len())?;
    let nets = vec![in alloc; 0; plan.entities.len()]?;
    if names.names.len() != plan.entities.len() || nets.len() != plan.entities.len() {
        return Err(Memory);
    }
    let order = StepOrder {
        until: u64::from(model.until),
        budget: u64::from(way.budget),
        mode: way.mode,
        threshold: way.threshold,
        schedule: way.schedule,
    };
    let mut tally = Tally::new();
    let end = run_steps(alloc, plan, &names, &nets, &order, &mut tally, sink);
    let StepOrder {
        until: _until,
        budget: _budget,
        mode: _mode,
        threshold: _threshold,
        schedule: _schedule,
    } = order;
    Ok((end, tally))
}

/// How a run ends that writes these bytes. None where it writes others.
pub fn end_of(
    alloc: Global,
    model: &Model,
    way: &Way,
    due: &[u8],
) -> Result<Option<StepEnd>, Memory> {
    let mut sink = MemorySink::new(alloc, 50, 1_000_000, Vec::new(alloc))?;
    let (end, _tally) = run_into(alloc, model, way, &mut sink)?;
    if sink.bytes() != due {
        return Ok(None);
    }
    Ok(Some(end))
}

/// The trace by the one event list, and the tally of its events.
#[derive(Drop)]
pub struct Due {
    pub trace: Vec<u8>,
    pub tally: Tally,
}

/// What is due of a ring. None where it has too many events.
pub fn due_of(alloc: Global, model: &Model) -> Result<Option<Due>, Memory> {
    let Ok(plan) = ring_plan(alloc, model.nodes, model.tokens, model.hops) else {
        return Err(Memory);
    };
    let names = node_names(alloc, plan.entities.len())?;
    let single = run_single(alloc, plan, u64::from(model.until), 1_000_000);
    if single.end != SingleEnd::Finished {
        return Ok(None);
    }
    let due = listed(alloc, &names, single.entries.as_slice(), model.until)?;
    Ok(Some(due))
}

fn listed(alloc: Global, names: &Names, entries: &[Entry], until: u32) -> Result<Due, Memory> {
    let mut trace = Vec::new(alloc);
    let mut tally = Tally::new();
    for entry in entries {
        add_entry(names, entry, &mut trace, &mut tally)?;
    }
    end_line(u64::from(until), entries.len() as u64, &mut trace)?;
    Ok(Due { trace, tally })
}

/// Adds an entry to a trace and a tally. An entity without a name has no record.
fn add_entry(
    names: &Names,
    entry: &Entry,
    trace: &mut Vec<u8>,
    tally: &mut Tally,
) -> Result<(), Memory> {
    if (entry.entity as usize) < names.names.len() {
        trace_line(names, entry, trace)?;
    }
    tally.add(entry);
    Ok(())
}

/// How a run ends that writes and tallies what is due. None where it does not.
pub fn end_as_due(
    alloc: Global,
    model: &Model,
    way: &Way,
    due: &Due,
) -> Result<Option<StepEnd>, Memory> {
    let mut sink = MemorySink::new(alloc, 64, 1_000_000, Vec::new(alloc))?;
    let (end, tally) = run_into(alloc, model, way, &mut sink)?;
    if sink.bytes() != due.trace.as_slice() || tally != due.tally {
        return Ok(None);
    }
    Ok(Some(end))
}
