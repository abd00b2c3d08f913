//! The replies to each client, found in the trails.
ghost use Rattle.std.specs.Prelude.{◌≡◌, [], ◌∷◌, ◌++◌, length, map, flat_map, nat_eq, if◌then◌else◌, All, OnOk, IfOk};
ghost use Rattle.walter_report.specs.Reports.{reply_to, replies_to};
ghost use Rattle.walter_report.specs.Answered.{HaveEach, AddEach};

use std::alloc::Global;
use std::marker::Model;
use walter_base::{Mem, Reply};
use walter_rules::{Entry, Event, Input, Outcome};
use walter_trail::Trail;

// The replies to a client, where they lie in the trails. Contracts see the list of them.
#[derive(Drop)]
pub(crate) struct Replies<'a> {
    places: Vec<&'a Reply>,
}

impl<'a> Model for Replies<'a> {
    ghost use Rattle.std.specs.Prelude.{List, map};
    ghost use Rattle.walter_base.specs.declared.message.Reply.{Reply as Answer};

    ghost Value = { List Answer };

    ghost view = { λ r. map (λ place. place.now) r.places.items };
}

impl<'a> Replies<'a> {
    fn new(alloc: Global) -> Replies<'a>
        ensures { result ≡ [] }
    {
        Replies {
            places: Vec::new(alloc),
        }
    }

    fn add(&mut self, reply: &'a Reply) -> Mem<()>
        ensures { OnOk result (self.new ≡ self.old ++ reply.now ∷ []) }
    {
        self.places.push(reply)?;
        Ok(())
    }

    pub fn as_slice(&self) -> &[&'a Reply]
        ensures { map (λ place. place.now) result.now ≡ self.now }
    {
        &self.places
    }
}

// The replies to each of so many clients, from one look at each entry.
pub(crate) fn replies_of<'a>(
    alloc: Global,
    clients: usize,
    trails: &'a [Trail],
) -> Mem<Vec<Replies<'a>>>
    ensures clients { IfOk result (λ answered. length answered.items ≡ clients) }
    ensures replies { IfOk result
        (λ answered. HaveEach answered.items (λ c. flat_map (replies_to c) trails.now)) }
{
    let mut answered = no_replies(alloc, clients)?;
    add_trails(&mut answered, trails)?;
    Ok(answered)
}

fn no_replies<'a>(alloc: Global, clients: usize) -> Mem<Vec<Replies<'a>>>
    ensures clients { IfOk result (λ answered. length answered.items ≡ clients) }
    ensures none { IfOk result (λ answered. All (λ replies. replies ≡ []) answered.items) }
{
    let mut answered = Vec::new(alloc);
    for _client in 0..clients {
        answered.push(Replies::new(alloc))?;
    }
    Ok(answered)
}

fn add_trails<'a>(answered: &mut [Replies<'a>], trails: &'a [Trail]) -> Mem<()>
    ensures { OnOk result (AddEach answered.old answered.new (λ c. flat_map (replies_to c) trails.now)) }
{
    for trail in trails {
        add_trail(answered, trail.as_slice())?;
    }
    Ok(())
}

fn add_trail<'a>(answered: &mut [Replies<'a>], trail: &'a [Entry]) -> Mem<()>
    ensures { OnOk result (AddEach answered.old answered.new (λ c. replies_to c trail.now)) }
{
    for entry in trail {
        add_entry(answered, entry)?;
    }
    Ok(())
}

fn add_entry<'a>(answered: &mut [Replies<'a>], entry: &'a Entry) -> Mem<()>
    ensures { OnOk result
        (AddEach answered.old answered.new (λ c. reply_to c entry.now.event entry.now.came.outcome)) }
{
    if let Event::Given(Input::Call { client, .. }) = &entry.event
        && let Outcome::Replied(reply) = &entry.came.outcome
    {
        add_reply(answered, *client as usize, reply)?;
    }
    Ok(())
}

// A client that isn't among them has no replies here.
fn add_reply<'a>(answered: &mut [Replies<'a>], client: usize, reply: &'a Reply) -> Mem<()>
    ensures { OnOk result
        (AddEach answered.old answered.new (λ c. if nat_eq client c then reply.now ∷ [] else [])) }
{
    if client >= answered.len() {
        return Ok(());
    }
    let replies = &mut answered[client];
    replies.add(reply)
}
