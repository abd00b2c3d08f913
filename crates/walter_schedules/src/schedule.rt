//! Scenarios of two to four sites that are made block by block, in which few objects are fought over: slow commits,
//! ticks, packets that are lost, come again and come in any order, stops, and faults of the disks.
ghost use Rattle.std.specs.Prelude.{◌≡◌, ◌<◌, ◌≤◌};

use crate::numbers::below;
use rand_core::Rng;
use rand_pcg::Pcg32;
use std::alloc::Global;
use walter_base::Mem;
use walter_trail::Trail;

/// How many clients have something to ask, each at any site.
const CLIENTS: u32 = 4;

/// How many transactions such a client has.
const TRANSACTIONS: u32 = 10;

/// How many steps a block has.
const STEPS: u32 = 60;

/// Where a list by lanes has the lane of this receiver and this sender.
fn place_of(to: u32, from: u32) -> usize
    ensures { result < 16 }
{
    (to % 4 * 4 + from % 4) as usize
}

/// A scenario so far: its steps are made block by block, each by the packets that there are when the steps before it
/// were played.
#[derive(Drop)]
pub struct Schedule {
    alloc: Global,
    random: Pcg32,
    /// How many sites there are above two, or more by a multiple of three.
    more: u32,
    text: String,
    /// How many packets each lane had behind the last block, and the number of the last that came in order.
    put: [u32; 16],
    heard: [u32; 16],
}

impl Schedule {
    /// A schedule of one step, a tick.
    pub fn new(alloc: Global, seed: u64) -> Mem<Schedule> {
        let mut random = Pcg32::new(seed, 1);
        let more = random.next_u32();
        let mut schedule = Schedule {
            alloc,
            random,
            more,
            text: String::new(alloc),
            put: [0; 16],
            heard: [0; 16],
        };
        schedule.begin()?;
        Ok(schedule)
    }

    /// How many sites it has.
    pub fn sites(&self) -> u32
        ensures some { 2 ≤ result }
        ensures few { result ≤ 4 }
    {
        2 + self.more % 3
    }

    fn site(&mut self) -> u32
        ensures { result < 4 }
    {
        let sites = self.sites();
        below(&mut self.random, sites)
    }

    // Another site.
    fn other(&mut self, site: u32) -> u32
        ensures { result < 4 }
    {
        let there = self.site();
        if there != site {
            return there;
        }
        if site == 0 { 1 } else { 0 }
    }

    // All up to the steps, of which the first is a tick: each site prefers a container of regular objects, and site 0 one
    // of sets. The first client has nothing to ask.
    fn begin(&mut self) -> Mem<()> {
        let sites = self.sites();
        let tolerated = self.site().min(self.site());
        let head = format!(in self.alloc;
            r#"{{"sites":{sites},"f":{tolerated},"containers":[[1,"regular",0]"#
        )?;
        self.text.push_str(&head)?;
        for site in 1..sites {
            let container = format!(in self.alloc; r#",[{},"regular",{site}]"#, site + 1)?;
            self.text.push_str(&container)?;
        }
        self.text.push_str(r#",[9,"cset",0]],"clients":[[0,""]"#)?;
        self.clients()?;
        self.text.push_str(r#"],"steps":[["tick",0]"#)?;
        Ok(())
    }

    fn clients(&mut self) -> Mem<()> {
        for _ in 0..CLIENTS {
            let site = self.site();
            let client = format!(in self.alloc; r#",[{site},""#)?;
            self.text.push_str(&client)?;
            self.transactions(site)?;
            self.text.push_str("\"]")?;
        }
        Ok(())
    }

    // Each is a start, one change or two, a Commit and another, and sometimes the level of any transaction of the site.
    fn transactions(&mut self, site: u32) -> Mem<()> {
        for _ in 0..TRANSACTIONS {
            self.text.push_str("0000000101")?;
            self.change(site)?;
            if below(&mut self.random, 2) == 0 {
                self.change(site)?;
            }
            self.text.push_str("00000001080000000108")?;
            if below(&mut self.random, 3) == 0 {
                let number = 1 + below(&mut self.random, 3);
                let level = format!(in self.alloc; "0000000e0a{site:02x}00000001{number:016x}")?;
                self.text.push_str(&level)?;
            }
        }
        Ok(())
    }

    // A write or a read of an object, which is preferred at this site as a rule, or one of the set.
    fn change(&mut self, site: u32) -> Mem<()> {
        let container = if below(&mut self.random, 2) == 0 {
            site % 4 + 1
        } else {
            self.site() + 1
        };
        let byte = below(&mut self.random, 256);
        let change = match below(&mut self.random, 8) {
            0..=4 => format!(in self.alloc;
                "0000001203{container:08x}000000000000000100000001{byte:02x}"
            )?,
            5 => format!(in self.alloc;
                "000000150400000009000000000000000100000000000000{byte:02x}"
            )?,
            6 => format!(in self.alloc; "0000000d06000000090000000000000001")?,
            _ => format!(in self.alloc; "0000000d02{container:08x}0000000000000001")?,
        };
        self.text.push_str(&change)?;
        Ok(())
    }

    // The next packet of the lane, or the one behind it where that is lost; or one of the last few, mostly again. Behind
    // half of them comes an Advance.
    fn deliver(&mut self, to: u32, from: u32) -> Mem<()> {
        let place = place_of(to, from);
        let (put, mut heard) = (self.put[place], self.heard[place]);
        if below(&mut self.random, 10) == 0 {
            heard = heard.saturating_add(1);
        }
        let number = if heard < put && below(&mut self.random, 8) > 0 {
            heard += 1;
            heard
        } else {
            put.saturating_sub(below(&mut self.random, 6))
        };
        self.heard[place] = heard;
        if number > 0 {
            let step = format!(in self.alloc; r#",["deliver",{to},{from},{number}]"#)?;
            self.text.push_str(&step)?;
        }
        if below(&mut self.random, 2) == 0 {
            self.advance(to, from)?;
        }
        Ok(())
    }

    fn advance(&mut self, at: u32, from: u32) -> Mem<()> {
        let step = format!(in self.alloc; r#",["advance",{at},{from}]"#)?;
        self.text.push_str(&step)?;
        Ok(())
    }

    fn step(&mut self) -> Mem<()> {
        let site = self.site();
        let other = self.other(site);
        let client = 1 + below(&mut self.random, CLIENTS);
        let nth = 1 + below(&mut self.random, 6);
        let choice = below(&mut self.random, 3);
        let step = match below(&mut self.random, 100) {
            0..=29 => format!(in self.alloc; r#",["call",{client}]"#)?,
            30..=79 => return self.deliver(site, other),
            80..=82 => return self.advance(site, other),
            83..=89 => format!(in self.alloc; r#",["tick",{site}]"#)?,
            90..=97 => format!(in self.alloc; r#",["restart",{site}]"#)?,
            98 => format!(in self.alloc; r#",["stop",{site}]"#)?,
            _ => format!(in self.alloc; r#",["arm",{site},{nth},{choice}]"#)?,
        };
        self.text.push_str(&step)?;
        Ok(())
    }

    /// Adds a block of steps.
    pub fn block(&mut self) -> Mem<()> {
        for _ in 0..STEPS {
            self.step()?;
        }
        Ok(())
    }

    // Each site comes up if it is down, and says again what its peers haven't heard.
    fn wake(&mut self) -> Mem<()> {
        for site in 0..self.sites() {
            let steps = format!(in self.alloc; r#",["restart",{site}],["tick",{site}]"#)?;
            self.text.push_str(&steps)?;
        }
        Ok(())
    }

    // All that a lane had behind the last block comes, in order, and is committed where it can be.
    fn hear(&mut self, to: u32, from: u32) -> Mem<()> {
        let place = place_of(to, from);
        for number in self.heard[place]..self.put[place] {
            let number = number.saturating_add(1);
            let step = format!(in self.alloc; r#",["deliver",{to},{from},{number}]"#)?;
            self.text.push_str(&step)?;
            self.advance(to, from)?;
        }
        self.heard[place] = self.put[place];
        Ok(())
    }

    // The same of all lanes to a site.
    fn hear_all(&mut self, to: u32) -> Mem<()> {
        for from in 0..self.sites() {
            if from != to {
                self.hear(to, from)?;
            }
        }
        Ok(())
    }

    /// Adds a round in which all comes that there is: each site comes up, says again what its peers haven't heard, and
    /// hears all that was put out to it.
    pub fn round(&mut self) -> Mem<()> {
        self.wake()?;
        for to in 0..self.sites() {
            self.hear_all(to)?;
        }
        Ok(())
    }

    // Counts the packets that a site has put out.
    fn count(&mut self, from: u32, trail: &Trail) {
        for entry in trail.as_slice() {
            for (to, _) in entry.came.sends.as_slice() {
                let place = place_of(u32::from(to.0), from);
                self.put[place] = self.put[place].saturating_add(1);
            }
        }
    }

    /// Counts the packets that the sites have put out, one trail for each.
    pub fn count_all(&mut self, trails: &[Trail]) {
        self.put = [0; 16];
        let mut site = 0;
        for trail in trails {
            self.count(site, trail);
            site = site.wrapping_add(1);
        }
    }

    /// The scenario, if it ends here.
    pub fn scenario(&self) -> Mem<String> {
        Ok(format!(in self.alloc; "{}]}}", self.text)?)
    }
}
