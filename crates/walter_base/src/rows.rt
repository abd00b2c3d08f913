//! What may be asked of the objects of a site: a trait.
ghost use Rattle.std.specs.Prelude.{◌≡◌, ℕ, List, Option, Some, None, OnOk, IfErr};
ghost use Rattle.walter_base.specs.declared.names.ObjId.{ObjId as Object};
ghost use Rattle.walter_base.specs.declared.names.Tid.{Tid as Name};
ghost use Rattle.walter_base.specs.declared.names.Version.{Version as Numbered};
ghost use Rattle.walter_base.specs.Conflicts.{first_outside};

use crate::names::{ObjId, Tid, Version};
use crate::vts::Vts;

/// The objects of a site: their versions, and who has them locked.
pub trait Rows {
    /// The versions of an object, in the order of their arrival.
    ghost versions: { Self → Object → List Numbered };

    /// The owner of the lock on an object, if it is locked.
    ghost lock: { Self → Object → Option Name };

    /// Whether the vector sees all versions of the object. The error is the first that it doesn't see.
    fn unmodified(&self, oid: ObjId, by: &Vts) -> Result<(), Version>
        ensures seen { OnOk result (first_outside by.now (versions self.now oid) ≡ None) }
        ensures first { IfErr result (λ version. first_outside by.now (versions self.now oid) ≡ Some version) };

    /// The owner of the lock on the object.
    fn owner(&self, oid: ObjId) -> Option<Tid>
        ensures { result ≡ lock self.now oid };
}
