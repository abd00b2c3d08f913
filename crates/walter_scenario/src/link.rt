//! The link, by the value of its key.
ghost use Rattle.std.specs.Prelude.{◌↔◌, ◌≤◌, ℕ, IsTrue, IfSome, IfNone};
ghost use Rattle.serde_json.specs.View.{members_view};
ghost use Rattle.walter_link.specs.declared.chooser.Link.{Link};
ghost use Rattle.walter_scenario.specs.Members.{data_in};
ghost use Rattle.walter_scenario.specs.Parts.{whole, HasMember, IsLinkKey, AreLinkKeys, SpellLink};
ghost use Rattle.walter_scenario.specs.Scenarios.{GivesLink};

use crate::members::member;
use crate::scenario::GREATEST_RATE;
use crate::text::members_of;
use crate::values::whole_of;
use serde_json::{Map, Value};
use walter_link::{Link, Rates};

fn is_link_key(name: &str) -> bool
    ensures { IsTrue result ↔ IsLinkKey name.now }
{
    matches!(name, "seed" | "lose" | "repeat" | "swap")
}

/// Whether no key is there but those of a link.
fn are_link_keys(members: &Map<String, Value>) -> bool
    ensures { IsTrue result ↔ AreLinkKeys (members_view members.now.entries) }
{
    for (name, _) in members {
        if !is_link_key(name) {
            return false;
        }
    }
    true
}

/// The whole number that the value of the key is.
fn whole_at(members: &Map<String, Value>, key: &str) -> Option<u64>
    ensures some { IfSome result
        (λ n. HasMember (members_view members.now.entries) key.now (whole n)) }
    ensures none { IfNone result
        ((n : ℕ) → ¬ HasMember (members_view members.now.entries) key.now (whole n)) }
{
    whole_of(member(members, key)?)
}

/// The rate that the value of the key is.
fn rate_at(members: &Map<String, Value>, key: &str) -> Option<u16>
    ensures there { IfSome result (λ rate. rate ≤ 1000) }
    ensures some { IfSome result
        (λ rate. HasMember (members_view members.now.entries) key.now (whole rate)) }
    ensures none { IfNone result ((rate : ℕ) → rate ≤ 1000
        → ¬ HasMember (members_view members.now.entries) key.now (whole rate)) }
{
    let rate = u16::try_from(whole_at(members, key)?).ok()?;
    (rate <= GREATEST_RATE).then_some(rate)
}

/// The link that the members spell.
fn link_by(members: &Map<String, Value>) -> Option<Link>
    ensures some { IfSome result (SpellLink (members_view members.now.entries)) }
    ensures none { IfNone result ((link : Link) → ¬ SpellLink (members_view members.now.entries) link) }
{
    if !are_link_keys(members) {
        return None;
    }
    Some(Link {
        seed: whole_at(members, "seed")?,
        rates: Rates {
            lose: rate_at(members, "lose")?,
            repeat: rate_at(members, "repeat")?,
            swap: rate_at(members, "swap")?,
        },
    })
}

/// The link that the value of its key gives; all of it is 0 where the key is absent.
pub fn link_of(given: Option<&Value>) -> Option<Link>
    ensures some { IfSome result (GivesLink (data_in given.entry)) }
    ensures none { IfNone result ((link : Link) → ¬ GivesLink (data_in given.entry) link) }
{
    let Some(value) = given else {
        return Some(Link {
            seed: 0,
            rates: Rates {
                lose: 0,
                repeat: 0,
                swap: 0,
            },
        });
    };
    link_by(members_of(value)?)
}
