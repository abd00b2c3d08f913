//! How a scenario is played, read from its parts.
ghost use Rattle.std.specs.Prelude.{IfOk, IfErr};
ghost use Rattle.walter_scenario.specs.declared.grounds.Grounds.{Grounds};
ghost use Rattle.walter_scenario.specs.Members.{AreSettingsOf, IsFaultOn};

use crate::link::link_of;
use crate::members::Parts;
use crate::place::{Place, ReadFault};
use crate::threads::threads_of;
use crate::ticks::ticks_of;
use walter_link::Link;

/// How it is played: the link between the sites, how many ticks a site may make when it is pumped, and how many client
/// threads a threaded run has.
#[derive(Clone, Copy)]
pub struct Settings {
    pub link: Link,
    pub ticks: u32,
    pub threads: u8,
}

/// The settings that the parts spell. The grounds are read before them, so a fault says something only where those are
/// right.
pub fn settings_of(parts: Parts<'_>) -> Result<Settings, ReadFault>
    ensures ok { IfOk result (AreSettingsOf parts.entry) }
    ensures fault { IfErr result
        (λ fault. (grounds : Grounds) → IsFaultOn grounds parts.entry fault) }
{
    let link = link_of(parts.link).ok_or(Place::Link)?;
    let ticks = ticks_of(parts.ticks).ok_or(Place::Ticks)?;
    let threads = threads_of(parts.threads).ok_or(Place::Threads)?;
    Ok(Settings {
        link,
        ticks,
        threads,
    })
}
