//! Laws of these values.
ghost use Rattle.std.specs.Prelude.{◌≡◌, ℕ, ℤ, List};
ghost use Rattle.walter_base.specs.declared.names.ObjId.{ObjId};
ghost use Rattle.walter_base.specs.declared.update.Update.{Update};
ghost use Rattle.walter_base.specs.Values.{AreCounts, counts_of};

/// The counts of a set are one list.
pub fn counts_are_one_list()
    ensures are { (oid : ObjId) (updates : List Update) → AreCounts oid updates (counts_of oid updates) }
    ensures one { (oid : ObjId) (updates : List Update) (counts : List (ℕ × ℤ)) → AreCounts oid updates counts → counts ≡ counts_of oid updates }
{}
