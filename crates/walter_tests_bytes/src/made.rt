//! A test of the scenario that is made of one number.
use std::test::Fail;
use walter_make::make;
use walter_scenario::{Client, Step};

/// Where each client is, and what it sends, of the scenario that is made from the number 310 with eight calls. They are
/// of each kind that is drawn. Another program drew them, from docs/FORMATS.md alone.
static CLIENTS: [(u8, &[u8]); 6] = [
    (
        0,
        &[
            0, 0, 0, 1, 1, 0, 0, 0, 13, 2, 0, 0, 0, 5, 0, 0, 0, 0, 0, 0, 0, 2, 0, 0, 0, 21, 3, 0,
            0, 0, 3, 0, 0, 0, 0, 0, 0, 0, 1, 0, 0, 0, 4, 53, 13, 161, 255, 0, 0, 0, 21, 4, 0, 0, 0,
            6, 0, 0, 0, 0, 0, 0, 0, 1, 0, 0, 0, 0, 0, 0, 0, 4, 0, 0, 0, 1, 8,
        ],
    ),
    (1, &[]),
    (
        2,
        &[
            0, 0, 0, 1, 1, 0, 0, 0, 13, 6, 0, 0, 0, 2, 0, 0, 0, 0, 0, 0, 0, 3, 0, 0, 0, 21, 5, 0,
            0, 0, 2, 0, 0, 0, 0, 0, 0, 0, 0, 0, 0, 0, 0, 0, 0, 0, 7,
        ],
    ),
    (0, &[]),
    (1, &[]),
    (2, &[]),
];

/// Who makes each call.
static CALLERS: [u32; 8] = [2, 0, 0, 0, 0, 2, 2, 0];

fn is_client(client: &Client, wanted: &(u8, &[u8])) -> bool {
    client.site.0 == wanted.0 && client.bytes.as_slice() == wanted.1
}

fn is_call(step: &Step, caller: u32) -> bool {
    matches!(step, Step::Call(client) if *client == caller)
}

#[test]
fn eight_calls_are_drawn(rt: HostRuntime) -> Result<(), Fail> {
    let scenario = make(rt.alloc(), 310, 8)?;
    for (client, wanted) in scenario.clients.as_slice().iter().zip(&CLIENTS) {
        assert!(rt; is_client(client, wanted));
    }
    for (step, caller) in scenario.steps.as_slice().iter().step_by(4).zip(&CALLERS) {
        assert!(rt; is_call(step, *caller));
    }
    Ok(())
}
