//! Worked examples.
ghost use Rattle.std.specs.Prelude.{◌≡◌, ◌+◌, ◌<◌, ◌^◌, length, IfOk};
ghost use Rattle.std.specs.List.{Contains};

use crate::{Mail, PostFault};
use event_order::Key;
use sim_base::{ListOf, Memory};
use ssf_model::{Event, Kind, Parcel};
use std::alloc::{AllocError, Global};
use std::test::Fail;

// An event with this number on channel 2.
fn event_at(number: u64) -> Event<u8> {
    let key = Key {
        time: 9,
        round: 0,
        priority: 0,
        channel: 2,
        number,
    };
    Event {
        key,
        entity: 0,
        kind: Kind::Begin,
    }
}

// A parcel of channel 2 with so many events from this number on.
fn parcel_of(alloc: Global, first: u64, events: u64, promise: u64) -> Result<Parcel<u8>, AllocError>
    requires { first + events < 2 ^ 64 }
    ensures { IfOk result (λ p. (p.first ≡ first) × (length p.events ≡ events)) }
{
    let mut list = Vec::new(alloc);
    for index in 0..events {
        list.push(event_at(first + index))?;
    }
    Ok(Parcel {
        first,
        events: ListOf::from_vec(list),
        promise,
    })
}

// Posts a parcel of channel 2 with so many events from this number on. None where it was taken, and else
// the number at the gap.
fn post_to(mail: &mut Mail<u8>, parcel: Parcel<u8>) -> Result<Option<u64>, Memory>
    requires known { Contains mail.old.channels 2 }
    requires fits { parcel.first + length parcel.events < 2 ^ 64 }
    ensures known { Contains mail.new.channels 2 }
{
    match mail.post(2, parcel) {
        Ok(()) => Ok(None),
        Err(PostFault::Gap(number, _parcel)) => Ok(Some(number)),
        Err(PostFault::Memory(_parcel)) => Err(Memory),
    }
}

// How many events were posted on channel 2, and its appointment.
fn state_of(mail: &Mail<u8>) -> (u64, u64)
    requires { Contains mail.now.channels 2 }
{
    (mail.posted(2), mail.appointment(2))
}

// Takes what is on channel 2: its number, the numbers of the first and last events, and the promise.
fn take_from(mail: &mut Mail<u8>) -> (u64, Option<u64>, Option<u64>, u64)
    requires known { Contains mail.old.channels 2 }
    ensures known { Contains mail.new.channels 2 }
{
    let taken = mail.take(2);
    let events = taken.events.as_slice();
    let first = events.first().map(|event| event.key.number);
    let last = events.last().map(|event| event.key.number);
    (taken.first, first, last, taken.promise)
}

#[test]
fn posts_and_takes(rt: HostRuntime) -> Result<(), Fail> {
    let mut mail = Mail::new(rt.alloc(), &[2])?;
    assert_eq!(rt;
        post_to(&mut mail, parcel_of(rt.alloc(), 1, 1, 9)?)?,
        Some(0)
    );
    assert_eq!(rt; post_to(&mut mail, parcel_of(rt.alloc(), 0, 1, 9)?)?, None);
    assert_eq!(rt; state_of(&mail), (1, 9));
    mail.reserve(2, 2)?;
    assert_eq!(rt; post_to(&mut mail, parcel_of(rt.alloc(), 1, 2, 7)?)?, None);
    assert_eq!(rt; state_of(&mail), (3, 9));
    assert_eq!(rt; take_from(&mut mail), (0, Some(0), Some(2), 9));
    assert_eq!(rt; take_from(&mut mail), (3, None, None, 9));
    assert_eq!(rt; state_of(&mail), (3, 9));
    Ok(())
}
