//! The packets that a trail has put out, found by number.
ghost use Rattle.std.specs.Prelude.{◌≡◌, ◌<◌, ◌+◌, ◌-◌, length, slice_get, Some, IfOk, IfErr};
ghost use Rattle.walter_machine.specs.Posts.{of_number};
ghost use Rattle.walter_rules.specs.Merges.{put_out_to, sent_to};

use walter_base::{Mem, Packet, SiteId};
use walter_rules::Entry;

/// The packet of this number, from 1, among those that a trail puts out to a site, with the stamp of its entry.
pub(crate) fn packet_to(entries: &[Entry], to: SiteId, number: u32) -> Mem<Option<(u64, Packet)>>
    ensures { IfOk result (λ found. found ≡ of_number number (put_out_to to entries.now)) }
{
    if number == 0 {
        return Ok(None);
    }
    let mut left = number;
    for entry in entries {
        match nth_to(entry, to, left) {
            Ok(packet) => return Ok(Some((entry.stamp, packet.clone()?))),
            Err(rest) => left = rest,
        }
    }
    Ok(None)
}

/// The packet of this number, from 1, among those that an entry puts out to a site; or which number it has behind these.
fn nth_to(entry: &Entry, to: SiteId, number: u32) -> Result<&Packet, u32>
    requires { 0 < number }
    ensures found { IfOk result (λ packet.
        slice_get (sent_to to entry.now) (number - 1) ≡ Some (entry.now.stamp, packet.now)) }
    ensures left { IfErr result (λ rest. (0 < rest) × (rest + length (sent_to to entry.now) ≡ number)) }
{
    let mut left = number;
    for (site, packet) in entry.came.sends.as_slice() {
        if *site == to {
            if left == 1 {
                return Ok(packet);
            }
            left -= 1;
        }
    }
    Err(left)
}
