//! A test of votes, and of what they decide.
ghost use Rattle.std.specs.Prelude.{◌≡◌, ◌+◌, OnOk};

use std::alloc::Global;
use std::test::Fail;
use walter_base::{
    Answer, Conflict, Mem, ObjId, SiteId, Sites, Snapshot, Tid, Tx, Updates, Version, Vts,
};
use walter_slow::{SlowCommits, Verdict};

const FIRST: SiteId = SiteId(1);

const SECOND: SiteId = SiteId(2);

const STRANGER: SiteId = SiteId(3);

const CONFLICT: Conflict = Conflict::Modified {
    oid: ObjId {
        container: 1,
        local: 5,
    },
    version: Version {
        site: SiteId(1),
        seq: 7,
    },
};

const DEAD: Conflict = Conflict::Dead;

/// The slow commits, by their numbers from 1: which sites are asked.
static BEGUN: [&[SiteId]; 4] = [
    &[FIRST],
    &[FIRST, SECOND],
    &[FIRST, SECOND],
    &[FIRST, SECOND],
];

/// Votes, in order: from which site, on which slow commit, and the answer; and the verdict.
static VOTES: [(SiteId, u64, Answer, Verdict); 15] = [
    (FIRST, 1, Answer::Yes, Verdict::Commit),
    (FIRST, 1, Answer::Yes, Verdict::Unknown),
    (SECOND, 2, Answer::Yes, Verdict::Waiting),
    (SECOND, 2, Answer::Yes, Verdict::Waiting),
    (STRANGER, 2, Answer::Yes, Verdict::Unknown),
    (FIRST, 2, Answer::No(DEAD), Verdict::Waiting),
    (FIRST, 2, Answer::Yes, Verdict::Commit),
    (FIRST, 3, Answer::Later, Verdict::Waiting),
    (STRANGER, 3, Answer::Later, Verdict::Unknown),
    (FIRST, 3, Answer::Yes, Verdict::Waiting),
    (STRANGER, 3, Answer::No(CONFLICT), Verdict::Unknown),
    (SECOND, 3, Answer::No(CONFLICT), Verdict::Abort(CONFLICT)),
    (SECOND, 3, Answer::Yes, Verdict::Unknown),
    (FIRST, 4, Answer::Yes, Verdict::Waiting),
    (FIRST, 9, Answer::Yes, Verdict::Unknown),
];

fn tx_of(alloc: Global, slow: u64) -> Mem<Tx> {
    Ok(Tx {
        tid: Tid {
            site: SiteId(0),
            epoch: 1,
            number: slow,
        },
        slow,
        start: Snapshot::new(alloc, Vts::zero(4))?,
        updates: Updates::from_vec(Vec::new(alloc))?,
    })
}

fn begin(alloc: Global, commits: &mut SlowCommits, slow: u64, asked: &[SiteId]) -> Mem<()>
    requires { slow ≡ commits.old.last + 1 }
    ensures { OnOk result (commits.new.last ≡ slow) }
{
    let participants = Sites::from(asked.to_vec(alloc)?);
    let tx = tx_of(alloc, slow)?;
    commits.reserve(asked.len() as u64)?;
    commits.begin(slow, tx, participants);
    Ok(())
}

fn begun(alloc: Global) -> Mem<SlowCommits> {
    let mut commits = SlowCommits::new(alloc);
    begin(alloc, &mut commits, 1, BEGUN[0])?;
    begin(alloc, &mut commits, 2, BEGUN[1])?;
    begin(alloc, &mut commits, 3, BEGUN[2])?;
    begin(alloc, &mut commits, 4, BEGUN[3])?;
    Ok(commits)
}

/// Hears a vote, and does as the verdict says.
fn decide(commits: &mut SlowCommits, from: SiteId, slow: u64, answer: &Answer) -> Verdict {
    let verdict = commits.verdict(from, slow, answer);
    if !commits.is_undecided(slow) {
        return verdict;
    }
    match verdict {
        Verdict::Commit => commits.commit(slow),
        Verdict::Abort(conflict) => commits.end(slow, Some(conflict)),
        Verdict::Waiting => hear(commits, from, slow, answer),
        Verdict::Unknown => {}
    }
    verdict
}

fn hear(commits: &mut SlowCommits, from: SiteId, slow: u64, answer: &Answer) {
    match answer {
        Answer::Yes => commits.hear_yes(from, slow),
        Answer::No(_) | Answer::Later => {}
    }
}

#[test]
fn votes_decide(rt: HostRuntime) -> Result<(), Fail> {
    let mut commits = begun(rt.alloc())?;
    for (from, slow, answer, wanted) in &VOTES {
        assert!(rt; decide(&mut commits, *from, *slow, answer) == *wanted);
    }
    Ok(())
}
