//! Scenarios for threads, of one to sixteen sites and 1 to 32 threads: few objects that are fought over, links that lose,
//! repeat and swap, and disks that fail.
ghost use Rattle.std.specs.Prelude.{◌<◌};

use crate::numbers::below;
use rand_core::Rng;
use rand_pcg::Pcg32;
use std::alloc::Global;
use walter_base::Mem;

/// What a client sends between the start of a transaction and its Commit: writes and reads of the container of an object at
/// the first, the second and the third site, and changes and reads of a set.
static CHANGES: [&str; 8] = [
    "000000120300000001000000000000000100000001aa",
    "000000120300000001000000000000000200000001bb",
    "000000120300000002000000000000000100000001cc",
    "000000120300000003000000000000000100000001dd",
    "0000000d02000000010000000000000001",
    "0000001504000000090000000000000001000000000000000a",
    "0000001505000000090000000000000001000000000000000a",
    "0000000d06000000090000000000000001",
];

/// How many packets of 1,000 a link loses, repeats or swaps.
static RATES: [u32; 4] = [0, 100, 200, 500];

/// A transaction of one to three changes, and its Commit.
fn push_transaction(random: &mut Pcg32, text: &mut String) -> Mem<()> {
    text.push_str("0000000101")?;
    for _ in 0..1 + below(random, 3) {
        text.push_str(CHANGES[below(random, 8) as usize])?;
    }
    text.push_str("0000000108")?;
    Ok(())
}

/// Clients at any of the sites, each with one to four transactions.
fn push_clients(random: &mut Pcg32, text: &mut String, sites: u32, count: u32) -> Mem<()>
    requires { 0 < sites }
{
    for number in 0..count {
        let comma = if number > 0 { "," } else { "" };
        write!(text, r#"{comma}[{},""#, below(random, sites))?;
        for _ in 0..1 + below(random, 4) {
            push_transaction(random, text)?;
        }
        text.push_str("\"]")?;
    }
    Ok(())
}

/// Arms of the disks of any of the sites.
fn push_arms(random: &mut Pcg32, text: &mut String, sites: u32, count: u32) -> Mem<()>
    requires { 0 < sites }
{
    for number in 0..count {
        let comma = if number > 0 { "," } else { "" };
        let site = below(random, sites);
        let nth = 1 + below(random, 30);
        let choice = below(random, 8);
        write!(text, "{comma}[{site},{nth},{choice}]")?;
    }
    Ok(())
}

/// A link with any of the rates, and the containers at any of the sites.
fn push_link(random: &mut Pcg32, text: &mut String, sites: u32) -> Mem<()>
    requires { 0 < sites }
{
    let seed = random.next_u32();
    let lose = RATES[below(random, 4) as usize];
    let repeat = RATES[below(random, 4) as usize];
    let swap = RATES[below(random, 4) as usize];
    write!(
        text,
        r#""link":{{"seed":{seed},"lose":{lose},"repeat":{repeat},"swap":{swap}}},"#
    )?;
    let second = below(random, sites);
    let third = below(random, sites);
    write!(
        text,
        r#""containers":[[1,"regular",0],[2,"regular",{second}],[3,"regular",{third}],[9,"cset",0]],"#
    )?;
    Ok(())
}

/// A scenario of up to six clients, by a seed.
pub fn scenario_of(alloc: Global, seed: u64) -> Mem<String> {
    let mut random = Pcg32::new(seed, 1);
    let mut text = String::new(alloc);
    let sites = 1 + below(&mut random, 16);
    let tolerated = below(&mut random, sites);
    let threads = 1 + below(&mut random, 32);
    let ticks = below(&mut random, 10);
    write!(
        text,
        r#"{{"sites":{sites},"f":{tolerated},"threads":{threads},"ticks":{ticks},"#
    )?;
    push_link(&mut random, &mut text, sites)?;
    text.push_str("\"clients\":[")?;
    let clients = below(&mut random, 7);
    push_clients(&mut random, &mut text, sites, clients)?;
    text.push_str("],\"arms\":[")?;
    let arms = below(&mut random, 3);
    push_arms(&mut random, &mut text, sites, arms)?;
    text.push_str("],\"steps\":[]}")?;
    Ok(text)
}
