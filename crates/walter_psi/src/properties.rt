//! The properties that define parallel snapshot isolation: every legal history has them.
ghost use Rattle.std.specs.Prelude.{List};
ghost use Rattle.walter_psi.specs.declared.step.Step.{Step};
ghost use Rattle.walter_psi.specs.Legal.{IsLegal};
ghost use Rattle.walter_psi.specs.Properties.{HasTimestamps, ReadsSnapshot, NoConcurrentWriters, AreWritersOrdered, IsCausal};

/// In a legal history a transaction has one start timestamp at most, and one commit timestamp at each site,
/// which is after its start and not before its commit at its own site. The three properties speak of these.
pub fn timestamps()
    ensures { (steps : List Step) → IsLegal steps → HasTimestamps steps }
{}

/// Property 1 of parallel snapshot isolation, site snapshot read: each read of a legal history is answered by
/// what had been committed at the transaction's site when it started, and by its own updates since.
pub fn snapshot_reads()
    ensures { (steps : List Step) → IsLegal steps → ReadsSnapshot steps }
{}

/// Property 2 of parallel snapshot isolation, no write-write conflicts: two transactions of a legal history that
/// are somewhere concurrent, so that one commits between the start and the commit of the other at the site of
/// one of them, write no object both. The second clause says it of commits too that haven't arrived there yet:
/// of two transactions that write one object, one was committed at the site of the other when that started.
pub fn no_concurrent_writers()
    ensures disjoint { (steps : List Step) → IsLegal steps → NoConcurrentWriters steps }
    ensures ordered { (steps : List Step) → IsLegal steps → AreWritersOrdered steps }
{}

/// Property 3 of parallel snapshot isolation, commit causality across sites: what commits at a site before a
/// transaction of that site starts commits before it at each site where that one commits (and once, by
/// `timestamps`).
pub fn causality()
    ensures { (steps : List Step) → IsLegal steps → IsCausal steps }
{}
