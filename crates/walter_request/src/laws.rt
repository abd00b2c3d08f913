//! Laws of the spellings of requests.
ghost use Rattle.std.specs.Prelude.{◌≡◌, ℕ, List, length};
ghost use Rattle.walter_base.specs.declared.message.Request.{Request};
ghost use Rattle.walter_request.specs.Requests.{request_spelled, size_of, Spells, IsBadFrame};

/// A body spells one request at most; one that spells a request is no bad frame; and a bad frame is wrong at one place.
/// So `decode` answers a request, or the bad frame's place, exactly where it should, unless memory runs out.
pub fn one_reading()
    ensures one { (body : List ℕ) (a b : Request) → Spells body a → Spells body b → a ≡ b }
    ensures apart { (body : List ℕ) (request : Request) (at : ℕ) → Spells body request → ¬ IsBadFrame body at }
    ensures place { (body : List ℕ) (m n : ℕ) → IsBadFrame body m → IsBadFrame body n → m ≡ n }
{}

/// The spelling of a request has its size.
pub fn size_of_spelling()
    ensures { (request : Request) → length (request_spelled request) ≡ size_of request }
{}
