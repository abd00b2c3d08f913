//! Draws who calls next, and what that client asks.
use crate::requests::draw_request;
use rand_core::utils::NextWord;
use rand_pcg::Lcg64Xsh32;
use std::alloc::Global;
use std::marker::Model;
use walter_base::{Mem, Request};

// How many clients there are.
pub(crate) const CLIENTS: usize = 6;

// A client that calls, and what it asks.
#[derive(Drop)]
pub(crate) struct ClientCall {
    pub client: u32,
    pub request: Request,
}

// Draws one call after another. Contracts see its generator, and how often each client called.
#[derive(Drop)]
pub(crate) struct Draws {
    words: Lcg64Xsh32,
    counts: [u32; CLIENTS],
}

impl Model for Draws {
    ghost use Rattle.walter_make.specs.Calls.{Drawing};

    ghost Value = { Drawing };

    ghost view = { λ d. record { words = d.words; counts = d.counts } };
}

impl Draws {
    ghost use Rattle.std.specs.Prelude.{◌≡◌, ◌<◌, ◌+◌, ◌^◌, All, OnOk, IfOk};
    ghost use Rattle.walter_request.specs.Requests.{FitsFrame};
    ghost use Rattle.walter_make.specs.Calls.{drawing_of, call_of, behind_call};

    pub fn new(number: u64) -> Draws
        ensures { result ≡ drawing_of number }
    {
        Draws {
            words: Lcg64Xsh32::new(number, 0),
            counts: [0; CLIENTS],
        }
    }

    /// Draws a client, and then what it asks, which goes by how often it called before. Where memory is
    /// wanting, words are drawn and the call is counted all the same.
    pub fn next_call(&mut self, alloc: Global) -> Mem<ClientCall>
        requires { All (λ n. n + 1 < 2 ^ 32) self.old.counts }
        ensures call { IfOk result (λ call. call ≡ call_of self.old) }
        ensures behind { OnOk result (self.new ≡ behind_call self.old) }
        ensures fits { IfOk result (λ call. FitsFrame call.request) }
    {
        let client = self.words.next_word() % CLIENTS as u32;
        let before = self.counts[client as usize];
        self.counts[client as usize] = before + 1;
        let request = draw_request(alloc, &mut self.words, before)?;
        Ok(ClientCall { client, request })
    }
}
