//! Laws of the spellings of replies, and which of them fit a frame.
ghost use Rattle.std.specs.Prelude.{◌≡◌, ◌↔◌, ℕ, List, length};
ghost use Rattle.walter_base.specs.Sizes.{IsShortReply};
ghost use Rattle.walter_base.specs.declared.message.Reply.{Reply};
ghost use Rattle.walter_reply.specs.Replies.{reply_spelled, size_of, FitsFrame, HasShortValue, Spells, IsBadFrame};

/// A body spells one reply at most; one that spells a reply is no bad frame; and a bad frame is wrong at one place.
/// So `decode` answers a reply, or the bad frame's place, exactly where it should, unless memory runs out.
pub fn one_reading()
    ensures one { (body : List ℕ) (a b : Reply) → Spells body a → Spells body b → a ≡ b }
    ensures apart { (body : List ℕ) (reply : Reply) (at : ℕ) → Spells body reply → ¬ IsBadFrame body at }
    ensures place { (body : List ℕ) (m n : ℕ) → IsBadFrame body m → IsBadFrame body n → m ≡ n }
{}

/// The spelling of a reply fits a frame, but for a value of more than 65,530 bytes and a Set of more than 4,095 entries.
pub fn which_fit()
    ensures { (reply : Reply) → HasShortValue reply ↔ FitsFrame reply }
{}

/// So does that of each reply that a site gives.
pub fn short_replies_fit()
    ensures { (reply : Reply) → IsShortReply reply → FitsFrame reply }
{}

/// The spelling of a reply has its size.
pub fn size_of_spelling()
    ensures { (reply : Reply) → length (reply_spelled reply) ≡ size_of reply }
{}
