//! Which clients are owed the news that a stop ended their transaction.
ghost use Rattle.std.specs.Prelude.{◌≡◌, ◌≤◌, ℕ, length, None, OnOk};
ghost use Rattle.indexmap.specs.IndexMap.{spare};
ghost use Rattle.walter_base.specs.ByClient.{of_client};
ghost use Rattle.walter_machine.specs.Debts.{IsDebtOf, owed_by};
ghost use Rattle.walter_rules.specs.Sessions.{session_in};
ghost use Rattle.walter_rules.specs.Standing.{owed, told};
ghost use Rattle.walter_session.specs.Sessions.{sessions_of};

use indexmap::IndexMap;
use walter_base::{Mem, Refusal, Reply, Tid};
use walter_rules::{Event, Input, Outcome};
use walter_session::Sessions;

/// What the client of an input is owed.
pub fn debt_of(debts: &IndexMap<u32, Tid>, input: &Input) -> Option<Tid>
    ensures { IsDebtOf (λ client. of_client client debts.now.entries) input.now result }
{
    match input {
        Input::Call { client, .. } if !debts.is_empty() => debts.get(client).copied(),
        _ => None,
    }
}

/// The client of each lost session is owed the news of its transaction. It takes no memory.
pub fn owe_all(debts: &mut IndexMap<u32, Tid>, lost: &Sessions)
    requires { length (sessions_of lost.now) ≤ spare debts.old }
    ensures { (client : ℕ) → of_client client debts.new.entries
        ≡ owed (session_in client (sessions_of lost.now)) (of_client client debts.old.entries) }
{
    let count = lost.len();
    // The first of a client's sessions counts, so it is taken last.
    for behind in 0..count {
        let Some((client, tid)) = lost.client_at(count - 1 - behind) else {
            unreachable!()
        };
        debts.insert(client, tid).unwrap();
    }
}

/// A client that was told of its transaction is owed nothing any more.
pub fn forgive(debts: &mut IndexMap<u32, Tid>, event: &Event, outcome: &Outcome)
    ensures { (client : ℕ) → of_client client debts.new.entries
        ≡ told event.now outcome.now (λ c. of_client c debts.old.entries) client }
{
    let Event::Given(Input::Call { client, .. }) = event else {
        return;
    };
    let Outcome::Replied(Reply::Refused(Refusal::Gone { .. })) = outcome else {
        return;
    };
    debts.swap_remove(client);
}

/// The sessions that were lost become debts.
pub fn owe_lost(debts: &mut IndexMap<u32, Tid>, lost: &mut Option<Sessions>) -> Mem<()>
    ensures owed { (client : ℕ) → owed_by debts.new.entries lost.new client
        ≡ owed_by debts.old.entries lost.old client }
    ensures none { OnOk result (lost.new ≡ None) }
    ensures unlost { lost.old ≡ None → lost.new ≡ None }
{
    let Some(sessions) = lost else {
        return Ok(());
    };
    debts.reserve(sessions.len())?;
    owe_all(debts, sessions);
    *lost = None;
    Ok(())
}
