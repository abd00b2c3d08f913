//! Draws what a client asks.
ghost use Rattle.std.specs.Prelude.{◌≡◌, ◌<◌, IfOk};
ghost use Rattle.walter_link.specs.Choices.{word, next};
ghost use Rattle.walter_request.specs.Requests.{FitsFrame};
ghost use Rattle.walter_make.specs.Calls.{request_of, object_at, read_of, update_of};

use rand_core::utils::NextWord;
use rand_pcg::Lcg64Xsh32;
use std::alloc::Global;
use walter_base::{Mem, ObjId, Request, SharedBytes};
use walter_request::size_of_spelling;

// What a client asks that called so often before.
pub(crate) fn draw_request(alloc: Global, words: &mut Lcg64Xsh32, before: u32) -> Mem<Request>
    ensures request { IfOk result (λ request. (request, words.new) ≡ request_of before words.old) }
    ensures fits { IfOk result FitsFrame }
{
    size_of_spelling();
    match before % 5 {
        0 => Ok(Request::Start),
        1 => Ok(read_of(draw_object(words))),
        4 => Ok(Request::Commit),
        _ => draw_update(alloc, words),
    }
}

fn draw_update(alloc: Global, words: &mut Lcg64Xsh32) -> Mem<Request>
    ensures update { IfOk result (λ request. request ≡ update_of (object_at words.old) (word (next (next words.old)))) }
    ensures behind { words.new ≡ next (next (next words.old)) }
    ensures fits { IfOk result FitsFrame }
{
    let oid = draw_object(words);
    let word = words.next_word();
    update_of(alloc, oid, word)
}

fn draw_object(words: &mut Lcg64Xsh32) -> ObjId
    ensures oid { result ≡ object_at words.old }
    ensures behind { words.new ≡ next (next words.old) }
{
    let container = 1 + words.next_word() % 6;
    let local = u64::from(words.next_word() % 4);
    ObjId { container, local }
}

fn read_of(oid: ObjId) -> Request
    ensures { result ≡ read_of oid }
{
    if oid.container % 2 == 1 {
        Request::Read(oid)
    } else {
        Request::SetRead(oid)
    }
}

#[tactic(auto, unfolding(walter_fields::specs::Spellings::number_spelled))]
fn update_of(alloc: Global, oid: ObjId, word: u32) -> Mem<Request>
    ensures update { IfOk result (λ request. request ≡ update_of oid word) }
    ensures fits { IfOk result FitsFrame }
{
    size_of_spelling();
    let id = u64::from(word / 2 % 8);
    if oid.container % 2 == 1 {
        Ok(Request::Write(oid, SharedBytes::from_slice(alloc, &word.to_be_bytes())?))
    } else if word % 2 == 1 {
        Ok(Request::SetDel(oid, id))
    } else {
        Ok(Request::SetAdd(oid, id))
    }
}
