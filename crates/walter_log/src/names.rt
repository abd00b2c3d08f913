//! The numbers of transactions by their names.
ghost use Rattle.std.specs.Prelude.{◌≡◌, ◌<◌, ◌≤◌, ◌+◌};
ghost use Rattle.std.specs.Map.{lookup};
ghost use Rattle.std.specs.Option.{option_or};
ghost use Rattle.indexmap.specs.IndexMap.{spare};
ghost use Rattle.walter_base.specs.declared.names.Tid.{Tid as Name};
ghost use Rattle.walter_base.specs.Names.{same_tid};
ghost use Rattle.walter_log.specs.Own.{named_seq};

use indexmap::IndexMap;
use walter_base::Tid;

/// Keeps the number of a transaction by its name, where it has none yet, without taking memory.
pub fn keep_first(numbers: &mut IndexMap<Tid, u64>, tid: Tid, seq: u64)
    requires { 0 < spare numbers.old }
    ensures numbers { (other : Name) → lookup (same_tid other) numbers.new.entries
        ≡ option_or (lookup (same_tid other) numbers.old.entries) (named_seq tid seq other) }
    ensures room { spare numbers.old ≤ spare numbers.new + 1 }
{
    if numbers.contains_key(&tid) {
        return;
    }
    numbers.insert(tid, seq).unwrap();
}
