//! How a slow commit is over: committed, ended without a commit, or released.
ghost use Rattle.std.specs.Prelude.{◌≡◌, ℕ, length, nat_eq, option_map, if◌then◌else◌};
ghost use Rattle.walter_base.specs.declared.names.ObjId.{ObjId as Object};
ghost use Rattle.walter_base.specs.declared.names.SiteId.{SiteId as Site};
ghost use Rattle.walter_locks.specs.Parts.{part_of, owner_of, CanRelease};
ghost use Rattle.walter_rules.specs.Learning.{part_over};
ghost use Rattle.walter_slow.specs.Kept.{booted};
ghost use Rattle.walter_slow.specs.Tables.{commit_of};
ghost use Rattle.walter_tables.specs.Parts.{without_decided, owner_over};

use walter_base::SiteId;
use walter_locks::Locks;
use walter_slow::SlowCommits;

/// The slow commit of this number is committed, if it is being decided.
pub fn commit_decided(slow: &mut SlowCommits, number: u64)
    ensures last { slow.new.last ≡ slow.old.last }
    ensures commits { (n : ℕ) → commit_of slow.new n
        ≡ (if nat_eq number n then without_decided (commit_of slow.old n) else commit_of slow.old n) }
{
    if slow.is_undecided(number) {
        slow.commit(number);
    }
}

/// It ends without a commit, if it is being decided.
pub fn end_undecided(slow: &mut SlowCommits, number: u64)
    ensures last { slow.new.last ≡ slow.old.last }
    ensures commits { (n : ℕ) → commit_of slow.new n
        ≡ (if nat_eq number n then option_map booted (commit_of slow.old n) else commit_of slow.old n) }
{
    if slow.is_undecided(number) {
        slow.end(number, None);
    }
}

/// The slow commit of the coordinator is over here. Number 0 is none.
pub fn release_over(locks: &mut Locks, coordinator: SiteId, number: u64)
    requires { CanRelease locks.old coordinator }
    ensures parts { (j : Site) (n : ℕ) → part_of locks.new j n ≡ part_over coordinator number (part_of locks.old) j n }
    ensures owners { (oid : Object) → owner_of locks.new oid
        ≡ owner_over coordinator number (part_of locks.old) (owner_of locks.old) oid }
    ensures sites { length locks.new.dead ≡ length locks.old.dead }
{
    if number > 0 {
        locks.release(coordinator, number);
    }
}
