//! Laws of connections: what the bytes of a client call for, and which of these calls were read.
ghost use Rattle.std.specs.Prelude.{◌≡◌, ◌≢◌, ◌⊎◌, ◌++◌, ◌∷◌, ℕ, List, [], Some};
ghost use Rattle.walter_conn.specs.Calls.{fresh_incoming, Incoming, TakesCall, IsEnded, IsBroken};
ghost use Rattle.walter_conn.specs.Frames.{Call};
ghost use Rattle.walter_conn.specs.Sequences.{AreCalls, EndWhole, EndCut, AreAllCalls, IsFrontOf, HasCalled};
ghost use Rattle.walter_conn.specs.declared.state.State.TheVariants.{Broken};

/// Bytes call for one list of calls at most, in one order.
pub fn calls_in_order()
    ensures one { (bytes : List ℕ) (some others : List Call) (rest left : List ℕ)
        → AreCalls bytes some rest → AreCalls bytes others left
        → IsFrontOf some others ⊎ IsFrontOf others some }
    ensures all { (bytes : List ℕ) (calls others : List Call)
        → AreAllCalls bytes calls → AreAllCalls bytes others → calls ≡ others }
    ensures front { (bytes : List ℕ) (some all : List Call) (rest : List ℕ)
        → AreCalls bytes some rest → AreAllCalls bytes all → IsFrontOf some all }
{}

/// What `Conn::next` and `Conn::put` answer tells which of the client's calls were read, where the source tells its bytes.
pub fn what_was_called()
    ensures opens { (bytes : List ℕ) (faults : ℕ) → HasCalled bytes [] (fresh_incoming (Some bytes) faults) }
    ensures frame { (bytes : List ℕ) (calls : List Call) (old new : Incoming) (call : Call)
        → HasCalled bytes calls old → TakesCall old new call → HasCalled bytes (calls ++ (call ∷ [])) new }
    ensures over { (bytes : List ℕ) (calls : List Call) (old new : Incoming)
        → HasCalled bytes calls old → IsEnded old new → HasCalled bytes calls new }
    ensures ended { (bytes : List ℕ) (calls : List Call) (old new : Incoming)
        → HasCalled bytes calls old → IsEnded old new → EndWhole bytes calls }
    ensures breaks { (bytes : List ℕ) (calls : List Call) (old new : Incoming)
        → HasCalled bytes calls old → IsBroken old new → HasCalled bytes calls new }

    // Where it was not broken before and no call on the source failed, the bytes end inside a frame.
    ensures cut { (bytes : List ℕ) (calls : List Call) (old new : Incoming)
        → HasCalled bytes calls old → IsBroken old new → old.state ≢ Broken → new.faults ≡ old.faults
        → EndCut bytes calls }

    // A reply that was lost breaks the connection.
    ensures lost { (bytes : List ℕ) (calls : List Call) (old : Incoming)
        → HasCalled bytes calls old → HasCalled bytes calls (record old { state = Broken }) }
    ensures calls { (bytes : List ℕ) (calls : List Call) (incoming : Incoming) (rest : List ℕ)
        → HasCalled bytes calls incoming → incoming.unread ≡ Some rest → AreCalls bytes calls rest }
{}
