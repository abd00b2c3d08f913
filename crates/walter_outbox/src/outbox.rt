//! What a site puts out goes on its lanes.
ghost use Rattle.std.specs.Prelude.{◌≡◌, ◌≤◌, ◌<◌, ℕ, length, map};
ghost use Rattle.walter_packet.specs.Framed.{frame_of};
ghost use Rattle.walter_outbox.specs.Lanes.{carried_by, met_to, IsPutWhereFree, IsPut, HavePutMore};

use std::mem;
use walter_base::Sends;
use walter_lane::{Outbound, Posted};
use walter_packet::Framed;

/// Puts packets on their lanes, in order, each with its frame and this stamp. What is put out stays, and how many packets
/// found their lane full comes back. The rules name no site that has no lane.
pub fn put_out(outs: &mut [Outbound], stamp: u64, sends: &mut Sends, frames: Vec<Framed>) -> u64
    requires { length frames.items ≡ length sends.old }
    ensures out { IsPutWhereFree (met_to outs.old) (carried_by outs.old) sends.old sends.new result }
    ensures lanes { (sites : ℕ) → frames.items ≡ map (λ s. frame_of sites s.1) sends.old
        → HavePutMore sites stamp outs.old outs.new sends.new }
{
    // Most events put nothing out.
    if frames.is_empty() {
        return 0;
    }
    let none = Sends::from(Vec::new(*frames.allocator()));
    let (put, dropped) = put_all(outs, stamp, mem::replace(sends, none), frames);
    *sends = put;
    dropped
}

// The same where there is something to put out.
fn put_all(outs: &mut [Outbound], stamp: u64, sends: Sends, frames: Vec<Framed>) -> (Sends, u64)
    requires { length frames.items ≡ length sends }
    ensures out { IsPutWhereFree (met_to outs.old) (carried_by outs.old) sends result.0 result.1 }
    ensures lanes { (sites : ℕ) → frames.items ≡ map (λ s. frame_of sites s.1) sends
        → HavePutMore sites stamp outs.old outs.new result.0 }
{
    let mut sends = sends.into_vec();
    let mut count = 0;
    let mut dropped = 0;
    for framed in frames {
        let (to, _) = sends[count];
        if put(outs, to.0, Posted { stamp, framed }) {
            count += 1;
        } else {
            sends.remove(count);
            dropped += 1;
        }
    }
    (Sends::from(sends), dropped)
}

// Puts a packet on the lane to a site, unless that is full.
fn put(outs: &mut [Outbound], to: u8, posted: Posted) -> bool
    ensures { IsPut outs.old outs.new to posted result }
{
    let place = usize::from(to);
    if place >= outs.len() {
        return true;
    }
    match outs[place].put(posted) {
        Ok(()) => true,
        Err(_) => false,
    }
}
