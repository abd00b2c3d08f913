//! Tests of planned faults.
use super::*;
use std::process::Abort;
use std::test::Fail;

// The next calls fail where this says so.
fn fails_as<R: Abort>(rt: &R, schedule: &mut Schedule, wanted: &[bool]) {
    for fails in wanted {
        assert_eq!(rt; schedule.fails(), *fails);
    }
}

fn goes_to_a_thread<T: Send>(_value: &T) {}

#[test]
fn the_calls_that_are_listed_fail(rt: HostRuntime) -> Result<(), Fail> {
    let alloc = rt.alloc();
    let mut schedule = Schedule::new([2, 4].to_vec(alloc)?);
    fails_as(&rt, &mut schedule, &[false, true]);
    // A fault of another cause isn't a call.
    schedule.add_fault();
    fails_as(&rt, &mut schedule, &[false, true, false]);
    // A new plan counts from its own beginning.
    schedule.plan([1, 2].to_vec(alloc)?);
    fails_as(&rt, &mut schedule, &[true]);
    schedule.plan([2].to_vec(alloc)?);
    fails_as(&rt, &mut schedule, &[false, true, false]);
    goes_to_a_thread(&schedule);
    goes_to_a_thread(&GhostCount::zero().next());
    Ok(())
}
