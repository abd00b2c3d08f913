//! The law that own updates are laid over earlier ones as if all were one list.
ghost use Rattle.std.specs.Prelude.{◌≡◌, ◌+ℤ◌, ◌++◌, ℕ, ℤ, List};
ghost use Rattle.walter_base.specs.declared.names.ObjId.{ObjId};
ghost use Rattle.walter_base.specs.declared.update.Update.{Update};
ghost use Rattle.walter_base.specs.Values.{value_from, value_of, count_of, AreCounts};
ghost use Rattle.walter_overlay.specs.Overlays.{AreLaidOver};

/// Own updates laid over what earlier ones left are what all of them leave, the own ones last.
pub fn earlier_and_own()
    ensures value { (oid : ObjId) (earlier own : List Update)
        → value_from (value_of oid earlier) oid own ≡ value_of oid (earlier ++ own) }
    ensures count { (oid : ObjId) (id : ℕ) (earlier own : List Update)
        → count_of oid id earlier +ℤ count_of oid id own ≡ count_of oid id (earlier ++ own) }
    ensures counts { (oid : ObjId) (earlier own : List Update) (number : ℕ → ℤ) (counts : List (ℕ × ℤ))
        → ((id : ℕ) → number id ≡ count_of oid id earlier)
        → AreLaidOver number oid own counts → AreCounts oid (earlier ++ own) counts }
{}
