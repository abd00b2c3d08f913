//! The items of a site: what an order of all records takes of it, one after another.
ghost use Rattle.std.specs.Prelude.{◌≡◌};

use std::alloc::AllocError;
use std::marker::Model;
use walter_base::{SiteId, Tx};

/// An item of a site, with its place, which is how many records stand before it.
#[derive(Debug, Drop)]
pub enum Item {
    /// The start of the transaction of an own commit.
    Starts(u64, Tx),
    /// An own commit, by its number.
    Commits(u64, u64, Tx),
    /// The arrival of another site's commit, by its number there.
    Arrives(u64, SiteId, u64),
}

impl Clone for Item {
    ghost is_clone = { λ a b. b ≡ a };

    fn clone(&self) -> Result<Item, AllocError> {
        match self {
            Item::Starts(place, tx) => Ok(Item::Starts(*place, tx.clone()?)),
            Item::Commits(place, seq, tx) => Ok(Item::Commits(*place, *seq, tx.clone()?)),
            Item::Arrives(place, from, seq) => Ok(Item::Arrives(*place, *from, *seq)),
        }
    }
}

/// The items of a site, in order. Contracts see the list.
#[derive(Debug, Drop)]
pub struct Queue {
    all: Vec<Item>,
}

impl Model for Queue {
    ghost use Rattle.std.specs.Prelude.{List};
    ghost use Rattle.walter_audit.specs.declared.item.Item.{Item};

    ghost Value = { List Item };

    ghost view = { λ q. q.all.items };
}

impl Queue {
    ghost use Rattle.std.specs.Prelude.{◌≡◌, MatchOption, Some, None, slice_get};

    /// These items.
    pub fn of(all: Vec<Item>) -> Queue
        ensures { result ≡ all.items }
    {
        Queue { all }
    }

    /// The item at a place.
    pub fn get(&self, place: usize) -> Option<&Item>
        ensures { MatchOption result (slice_get self.now place ≡ None)
            (λ item. slice_get self.now place ≡ Some item.now) }
    {
        self.all.get(place)
    }
}
