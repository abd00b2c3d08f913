//! A test of the own commits that are sent to a peer.
ghost use Rattle.std.specs.Prelude.{◌<◌};

use walter_base::SiteId;
use walter_spread::Spread;

/// A window, and how many of five own commits a peer has acknowledged; and those that it is to be sent, the first and
/// the last.
static NEEDED: [(u64, u64, Option<(u64, u64)>); 4] = [
    (1, 0, Some((1, 1))),
    (1, 5, None),
    (3, 0, Some((1, 3))),
    (3, 3, Some((4, 5))),
];

/// A window, and how many a peer had acknowledged before and how many it has now; and those that come into the window.
static ENTERING: [(u64, u64, u64, Option<(u64, u64)>); 6] = [
    (1, 0, 1, Some((2, 2))),
    (1, 0, 5, None),
    (3, 0, 1, Some((4, 4))),
    (3, 1, 3, Some((5, 5))),
    (3, 2, 3, None),
    (3, 0, 4, Some((5, 5))),
];

/// Five own commits of site 2, among three.
fn five(window: u64) -> Spread
    requires { 0 < window }
{
    let mut site = Spread::new(SiteId(2), 3, window);
    for _ in 0..5 {
        if site.own() < 100 {
            site.commit_own();
        }
    }
    site
}

#[test]
fn own_commits_are_sent_within_the_window(rt: HostRuntime) {
    for &(window, acknowledged, wanted) in &NEEDED {
        assert!(rt; window > 0);
        assert!(rt; five(window).needs(acknowledged) == wanted);
    }
    for &(window, before, now, wanted) in &ENTERING {
        assert!(rt; window > 0);
        assert!(rt; five(window).enters(before, now) == wanted);
    }
}
