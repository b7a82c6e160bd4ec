//! Worked examples.
use crate::{Barrier, Crossing, Reported};
use std::test::Fail;

/// Two timelines and a least delay of 5, up to 10.
#[test]
#[tactic(auto, unfolding(crate::specs::Crossings::after_report))]
fn waits_for_reports_and_crosses(rt: HostRuntime) -> Result<(), Fail> {
    let mut barrier = Barrier::new(rt.alloc(), 2, &[3, 8], Some(5), 10)?;
    assert_eq!(rt; barrier.windows(), (0, 0));
    assert_eq!(rt; barrier.cross(), Crossing::Waiting(0));
    assert_eq!(rt; barrier.report(0, 1, 0, &[]), Reported::Stale(0));
    assert_eq!(rt; barrier.report(0, 0, 0, &[(8, 4)]), Reported::Taken);
    assert_eq!(rt; barrier.cross(), Crossing::Waiting(1));
    assert_eq!(rt; barrier.report(1, 0, 0, &[(3, 7)]), Reported::Taken);
    assert_eq!(rt; barrier.counts(), [0, 0].as_slice());
    assert_eq!(rt; barrier.cross(), Crossing::Crossed(5));
    assert_eq!(rt; barrier.counts(), [7, 4].as_slice());
    assert_eq!(rt;
        (barrier.window(), barrier.round(), barrier.windows()),
        (5, 1, (1, 5))
    );
    assert_eq!(rt;
        (barrier.has_reported(0), barrier.has_reported(1)),
        (false, false)
    );
    Ok(())
}

/// A channel's later number counts, and the barrier ends where nobody has anything ahead.
#[test]
#[tactic(auto, unfolding(crate::specs::Crossings::after_report))]
fn ends_where_nothing_is_ahead(rt: HostRuntime) -> Result<(), Fail> {
    let mut barrier = Barrier::new(rt.alloc(), 1, &[2], None, 10)?;
    assert_eq!(rt;
        barrier.report(0, 0, 10, &[(2, 1), (2, 3)]),
        Reported::Taken
    );
    assert_eq!(rt; (barrier.has_reported(0), barrier.ended()), (true, false));
    assert_eq!(rt; barrier.cross(), Crossing::Crossed(11));
    assert_eq!(rt; barrier.counts(), [3].as_slice());
    assert_eq!(rt; barrier.report(0, 1, 11, &[]), Reported::Taken);
    assert_eq!(rt; barrier.cross(), Crossing::Ended);
    assert_eq!(rt; barrier.cross(), Crossing::Ended);
    assert_eq!(rt; (barrier.ended(), barrier.windows()), (true, (1, 11)));
    Ok(())
}
