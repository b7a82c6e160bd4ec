//! Words that are schedules, and words that are not.

use std::test::Fail;
use sync_steps::{ScheduleFault, Step, read_schedule};

#[test]
fn schedules_are_read(rt: HostRuntime) -> Result<(), Fail> {
    let Ok(steps) = read_schedule(rt.alloc(), b"x0,p0.4,t12,e3,r999999999,c") else {
        return Err(Fail::from("it was not read"));
    };
    let wanted = [
        Step::Execute(0),
        Step::Post(0, 4),
        Step::Take(12),
        Step::Enter(3),
        Step::Report(999_999_999),
        Step::Cross,
    ];
    assert_eq!(rt; steps.as_slice(), wanted.as_slice());
    Ok(())
}

#[test]
fn other_words_are_refused(rt: HostRuntime) -> Result<(), Fail> {
    for word in [
        b"".as_slice(),
        b"c,".as_slice(),
        b",c".as_slice(),
        b"x".as_slice(),
        b"x00".as_slice(),
        b"x1000000000".as_slice(),
        b"p0".as_slice(),
        b"p0.4.1".as_slice(),
        b"c0".as_slice(),
        b"y0".as_slice(),
    ] {
        let fault = read_schedule(rt.alloc(), word).err();
        assert_eq!(rt; fault, Some(ScheduleFault::BadStep));
    }
    Ok(())
}
