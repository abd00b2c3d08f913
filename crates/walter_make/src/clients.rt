//! The clients that make these calls, with what each sends.
ghost use Rattle.std.specs.Prelude.{◌≡◌, ◌≤◌, ◌<◌, ◌++◌, All, OnOk, IfOk};
ghost use Rattle.walter_request.specs.Requests.{FitsFrame};
ghost use Rattle.walter_make.specs.Made.{frame, bytes_of, made_clients};

use crate::draws::{CLIENTS, ClientCall};
use std::alloc::Global;
use walter_base::{Mem, Request, SharedBytes, SiteId};
use walter_request::encode;
use walter_scenario::Client;

// How many sites there are.
pub(crate) const SITES: u8 = 3;

// The clients, with what they send to make these calls.
pub(crate) fn clients_of(alloc: Global, calls: &[ClientCall]) -> Mem<Vec<Client>>
    requires { All (λ call. FitsFrame call.request) calls.now }
    ensures { IfOk result (λ clients. clients.items ≡ made_clients calls.now) }
{
    let mut clients = Vec::new(alloc);
    for number in 0..CLIENTS {
        let bytes = bytes_of(alloc, calls, number as u32)?;
        let site = SiteId(number as u8 % SITES);
        clients.push(Client { site, bytes })?;
    }
    Ok(clients)
}

// What a client sends: the frames of its calls.
fn bytes_of(alloc: Global, calls: &[ClientCall], client: u32) -> Mem<SharedBytes>
    requires { All (λ call. FitsFrame call.request) calls.now }
    ensures { IfOk result (λ bytes. bytes ≡ bytes_of calls.now client) }
{
    let mut bytes = Vec::new(alloc);
    for call in calls {
        if call.client == client {
            push_frame(&mut bytes, &call.request)?;
        }
    }
    Ok(SharedBytes::from_vec(bytes)?)
}

#[tactic(auto, unfolding(walter_fields::specs::Spellings::number_spelled))]
fn push_frame(out: &mut Vec<u8>, request: &Request) -> Mem<()>
    requires { FitsFrame request.now }
    ensures { OnOk result (out.new.items ≡ out.old.items ++ frame request.now) }
{
    let body = encode(*out.allocator(), request)?;
    let body = body.as_slice();
    out.extend_from_slice(&(body.len() as u32).to_be_bytes())?;
    out.extend_from_slice(body)?;
    Ok(())
}
