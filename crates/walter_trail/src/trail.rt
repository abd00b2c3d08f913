//! The trail of a site.
ghost use Rattle.std.specs.Prelude.{◌≡◌, ◌==◌, length};

use std::marker::Model;
use walter_rules::Entry;

/// The entries of a site, the oldest first. Contracts see the list of them.
#[derive(Debug, Drop)]
pub struct Trail {
    entries: Vec<Entry>,
}

impl Model for Trail {
    ghost use Rattle.std.specs.Prelude.{List};
    ghost use Rattle.walter_rules.specs.declared.entry.Entry.{Entry};

    ghost Value = { List Entry };

    ghost view = { λ t. t.entries.items };
}

impl From<Vec<Entry>> for Trail {
    ghost from_gives = { λ v t. t ≡ v.items };

    fn from(entries: Vec<Entry>) -> Trail {
        Trail { entries }
    }
}

impl Trail {
    pub fn as_slice(&self) -> &[Entry]
        ensures { result.now ≡ self.now }
    {
        &self.entries
    }

    pub fn len(&self) -> usize
        ensures { result ≡ length self.now }
    {
        self.entries.len()
    }

    pub fn is_empty(&self) -> bool
        ensures { result ≡ (length self.now == 0) }
    {
        self.entries.is_empty()
    }
}
