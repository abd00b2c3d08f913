//! What an answer leaves of the sessions.
ghost use Rattle.std.specs.Prelude.{◌≡◌, ◌<◌, ◌++◌, ◌∷◌, [], IfOk, IsSome, None, length};
ghost use Rattle.walter_base.specs.ByClient.{changed};
ghost use Rattle.walter_rules.specs.Learning.{updated};
ghost use Rattle.walter_rules.specs.Sessions.{Session as Known};
ghost use Rattle.walter_session.specs.Sessions.{sessions_of, session_of, room_of, CanStart, started};
ghost use Rattle.walter_tables.specs.Answering.{with_any, deciding_any};

use walter_base::{Call, Mem, Request, Tid, Update, Vts};
use walter_session::Sessions;

/// Starts a session of the client, without taking memory.
pub fn start(sessions: &mut Sessions, client: u32, tid: Tid, snapshot: Vts)
    requires none { session_of sessions.old client ≡ None }
    requires few { length (sessions_of sessions.old) < 256 }
    requires room { CanStart sessions.old }
    ensures { sessions_of sessions.new ≡ sessions_of sessions.old ++ (client, started tid snapshot) ∷ [] }
{
    sessions.start(client, tid, snapshot).unwrap();
}

/// The update that a call asks for, if it asks for one.
pub fn update_of(call: &Call) -> Mem<Option<Update>>
    ensures { IfOk result (λ update. (s : Known) → updated call.now s ≡ with_any update s) }
{
    match call {
        Ok(Request::Write(oid, value)) => Ok(Some(Update::Write(*oid, value.clone()?))),
        Ok(Request::SetAdd(oid, id)) => Ok(Some(Update::Add(*oid, *id))),
        Ok(Request::SetDel(oid, id)) => Ok(Some(Update::Del(*oid, *id))),
        _ => Ok(None),
    }
}

/// Puts an update behind the others of the client's session, if there is one, without taking memory.
pub fn update(sessions: &mut Sessions, client: u32, update: Option<Update>)
    requires there { IsSome (session_of sessions.old client) }
    requires room { 0 < room_of sessions.old client }
    ensures { sessions_of sessions.new ≡ changed client (with_any update) (sessions_of sessions.old) }
{
    if let Some(update) = update {
        sessions.add(client, update).unwrap();
    }
}

/// The client's transaction has the slow commit that was begun, if one was.
pub fn decide(sessions: &mut Sessions, client: u32, begun: Option<u64>)
    ensures { sessions_of sessions.new ≡ changed client (deciding_any begun) (sessions_of sessions.old) }
{
    if let Some(slow) = begun {
        sessions.set_slow(client, slow);
    }
}
