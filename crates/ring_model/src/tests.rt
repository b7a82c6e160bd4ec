use crate::*;
use event_order::Key;
use sim_base::Text;
use ssf_model::{
    BuildFault, ChannelList, Kind, LONGEST_DELAY, Line, Mapping, Names, Out, PlanBuilder, Wait,
};
use std::test::Fail;

const THERE: Hop = Hop {
    from: 0,
    to: 1,
    delay: 5,
    priority: 0,
};

const BACK: Hop = Hop {
    from: 1,
    to: 0,
    delay: 3,
    priority: 7,
};

const TOO_LONG: Hop = Hop {
    from: 1,
    to: 1,
    delay: LONGEST_DELAY + 1,
    priority: 0,
};

// What a refusal of `mapto` is, and that it changes nothing.
#[test]
fn mappings_are_refused_in_order(rt: HostRuntime) -> Result<(), Fail> {
    let mut builder = PlanBuilder::new(rt.alloc(), Ring {})?;
    let state = RingState { node: 0, tokens: 0 };
    let Ok(entity) = builder.entity(state, &[false]) else {
        return Err(BuildFault::Memory)?;
    };
    builder.in_channel(entity)?;
    builder.out_channel(entity, LONGEST_DELAY)?;
    assert_eq!(rt; builder.mapto(0, 0, 1), Err(BuildFault::DelayTooLong));
    assert_eq!(rt; builder.mapto(1, 0, 0), Err(BuildFault::UnknownChannel(1)));
    assert_eq!(rt; builder.mapto(0, 2, 1), Err(BuildFault::UnknownChannel(2)));
    assert_eq!(rt;
        builder.out_channel(entity, LONGEST_DELAY + 1),
        Err(BuildFault::DelayTooLong)
    );
    assert_eq!(rt; builder.mapto(0, 0, 0), Ok(0));
    assert_eq!(rt; builder.mapto_at(0, 0, 0, 7), Ok(1));
    Ok(())
}

// The numbers of a finished ring: one start channel a node, then a channel a hop.
#[test]
fn a_ring_is_numbered(rt: HostRuntime) -> Result<(), Fail> {
    let plan = ring_builder(rt.alloc(), 2, &[0, 0], &[THERE, BACK])?.finish()?;
    let first = Mapping {
        channel: 2,
        out_channel: 0,
        in_channel: 1,
        from: 0,
        to: 1,
        delay: 5,
        priority: 0,
    };
    let second = Mapping {
        channel: 3,
        out_channel: 1,
        in_channel: 0,
        from: 1,
        to: 0,
        delay: 3,
        priority: 7,
    };
    assert_eq!(rt; plan.mappings(), [first, second].as_slice());
    assert_eq!(rt; plan.counts.as_slice(), [1, 1, 0, 0].as_slice());
    assert_eq!(rt; plan.before, 0);
    assert_eq!(rt; plan.entities.len(), 2);
    for (event, channel) in plan.events.as_slice().iter().zip([0, 1]) {
        let start = Key {
            time: 0,
            round: 0,
            priority: 0,
            channel,
            number: 0,
        };
        assert_eq!(rt; event.key, start);
        assert!(rt; matches!(event.kind, Kind::Begin));
    }
    for (entity, tokens) in plan.entities.as_slice().iter().zip([2, 0]) {
        assert_eq!(rt; entity.state.tokens, tokens);
        assert!(rt; matches!(entity.processes.as_slice(), [process] if process.timer.is_none()));
    }
    Ok(())
}

// The first hop that is refused, and too many nodes.
#[test]
fn rings_are_refused(rt: HostRuntime) -> Result<(), Fail> {
    let Err(fault) = ring_builder(rt.alloc(), 2, &[], &[THERE, TOO_LONG]) else {
        return Err(BuildFault::Memory)?;
    };
    assert_eq!(rt; fault, BuildFault::DelayTooLong);
    let Err(fault) = ring_builder(rt.alloc(), 262_145, &[], &[]) else {
        return Err(BuildFault::Memory)?;
    };
    assert_eq!(rt; fault, BuildFault::TooManyChannels);
    Ok(())
}

// The small parts: channels of a wait, what an action writes and tells, names.
#[test]
fn parts_hold_what_they_are_given(rt: HostRuntime) -> Result<(), Fail> {
    let wait = Wait::OnFor(ChannelList::of(rt.alloc(), &[3, 5])?, 0);
    assert!(rt; wait.hears(5));
    assert!(rt; !wait.hears(4));
    assert_eq!(rt; wait.delay(), Some(1));
    let mut out = Out::new(rt.alloc());
    out.write(1, 2, RingPayload {})?;
    out.line(Line::Udp { port: 9, bytes: 28 })?;
    assert_eq!(rt; out.writes().len(), 1);
    assert_eq!(rt; out.lines(), [Line::Udp { port: 9, bytes: 28 }].as_slice());
    out.clear();
    assert_eq!(rt; out.writes().len(), 0);
    let names = Names::new(vec![in rt.alloc(); Text::of(rt.alloc(), b"0:1")?]?);
    assert_eq!(rt; names.name(0), b"0:1".as_slice());
    Ok(())
}
