//! What becomes of each packet between two sites: a generator draws it.
ghost use Rattle.std.specs.Prelude.{◌≡◌};

use rand_core::utils::NextWord;
use rand_pcg::Lcg64Xsh32;
use std::marker::Model;
use walter_base::SiteId;

/// How many of 1,000 packets are lost, come twice, and come before all that wait.
#[derive(Clone, Copy, Debug, PartialEq, Eq)]
pub struct Rates {
    pub lose: u16,
    pub repeat: u16,
    pub swap: u16,
}

/// The scripted link of a scenario: the seed of its generators, and by which rates they choose.
#[derive(Clone, Copy, Debug, PartialEq, Eq)]
pub struct Link {
    pub seed: u64,
    pub rates: Rates,
}

/// What becomes of a packet.
#[derive(Clone, Copy, Debug, PartialEq, Eq)]
pub struct Choice {
    /// How often it is put into the queue of its site: 0, 1 or 2 times.
    pub copies: u8,
    /// Whether it is put in front of all that wait there, the first time.
    pub front: bool,
}

/// Chooses what becomes of the packets that come to a site from another, in their order. Contracts see its generator.
#[derive(Drop)]
pub struct Chooser {
    words: Lcg64Xsh32,
}

impl Model for Chooser {
    ghost use Rattle.rand_pcg.specs.Lcg.{Lcg};

    ghost Value = { Lcg };

    ghost view = { λ c. c.words };
}

impl Chooser {
    ghost use Rattle.walter_link.specs.Choices.{chooser_of, choice_of, behind};

    /// That of the packets to a site from another, before the first.
    pub fn new(seed: u64, to: SiteId, from: SiteId) -> Chooser
        ensures { result ≡ chooser_of seed to from }
    {
        Chooser {
            words: Lcg64Xsh32::new(seed, 16 * u64::from(to.0) + u64::from(from.0)),
        }
    }

    /// What becomes of the next packet. It draws three words, whatever these say.
    pub fn choose(&mut self, rates: Rates) -> Choice
        ensures choice { result ≡ choice_of rates self.old }
        ensures behind { self.new ≡ behind self.old }
    {
        let lost = self.words.next_word() % 1000 < u32::from(rates.lose);
        let repeated = self.words.next_word() % 1000 < u32::from(rates.repeat);
        let front = self.words.next_word() % 1000 < u32::from(rates.swap);
        if lost {
            return Choice {
                copies: 0,
                front: false,
            };
        }
        Choice {
            copies: if repeated { 2 } else { 1 },
            front,
        }
    }
}
