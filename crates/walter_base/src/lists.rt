//! Objects and sites, in some order.
ghost use Rattle.std.specs.Prelude.{◌≡◌};

use crate::names::{ObjId, SiteId};
use std::alloc::AllocError;
use std::marker::Model;

/// Objects in some order. Contracts see the list of them.
#[derive(Debug, Drop)]
pub struct Objects {
    items: Vec<ObjId>,
}

impl Model for Objects {
    ghost use Rattle.std.specs.Prelude.{List};
    ghost use Rattle.walter_base.specs.declared.names.ObjId.{ObjId};

    ghost Value = { List ObjId };

    ghost view = { λ o. o.items.items };
}

impl Objects {
    pub fn as_slice(&self) -> &[ObjId]
        ensures { result.now ≡ self.now }
    {
        &self.items
    }
}

impl Clone for Objects {
    ghost is_clone = { λ a b. b ≡ a };

    fn clone(&self) -> Result<Objects, AllocError> {
        Ok(Objects {
            items: self.items.clone()?,
        })
    }
}

impl From<Vec<ObjId>> for Objects {
    ghost from_gives = { λ v o. o ≡ v.items };

    fn from(items: Vec<ObjId>) -> Objects {
        Objects { items }
    }
}

/// Sites in some order. Contracts see the list of them.
#[derive(Debug, Drop)]
pub struct Sites {
    items: Vec<SiteId>,
}

impl Model for Sites {
    ghost use Rattle.std.specs.Prelude.{List};
    ghost use Rattle.walter_base.specs.declared.names.SiteId.{SiteId};

    ghost Value = { List SiteId };

    ghost view = { λ s. s.items.items };
}

impl Sites {
    pub fn as_slice(&self) -> &[SiteId]
        ensures { result.now ≡ self.now }
    {
        &self.items
    }
}

impl Clone for Sites {
    ghost is_clone = { λ a b. b ≡ a };

    fn clone(&self) -> Result<Sites, AllocError> {
        Ok(Sites {
            items: self.items.clone()?,
        })
    }
}

impl From<Vec<SiteId>> for Sites {
    ghost from_gives = { λ v s. s ≡ v.items };

    fn from(items: Vec<SiteId>) -> Sites {
        Sites { items }
    }
}
