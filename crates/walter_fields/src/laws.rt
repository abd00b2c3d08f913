//! Laws of the spellings of numbers and blocks.
ghost use Rattle.std.specs.Prelude.{◌≡◌, ◌<◌, ◌^◌, ◌++◌, ℕ, ℤ, List, length, FitsSigned};
ghost use Rattle.std.specs.Int.{w64};
ghost use Rattle.walter_fields.specs.Spellings.{IsBytes, number_read, number_spelled, signed_spelled, block_spelled};

/// The bytes that are read are the spelling of the number that they give, and the other way round. So spellings that
/// are equal, whatever follows them, are of equal numbers; and the same of blocks.
pub fn spellings_and_numbers()
    ensures counted { (k n : ℕ) → length (number_spelled k n) ≡ k }
    ensures read { (k n : ℕ) (rest : List ℕ) → n < 256 ^ k
        → number_read k (number_spelled k n ++ rest) ≡ n }
    ensures spelled { (k : ℕ) (bytes : List ℕ) → length bytes ≡ k → IsBytes bytes
        → number_spelled k (number_read k bytes) ≡ bytes }
    ensures numbers { (k m n : ℕ) (x y : List ℕ) → m < 256 ^ k → n < 256 ^ k
        → number_spelled k m ++ x ≡ number_spelled k n ++ y → (m ≡ n) × (x ≡ y) }
    ensures signed { (a b : ℤ) (x y : List ℕ) → FitsSigned w64 a → FitsSigned w64 b
        → signed_spelled a ++ x ≡ signed_spelled b ++ y → (a ≡ b) × (x ≡ y) }
    ensures blocks { (a b x y : List ℕ) → length a < 2 ^ 32 → length b < 2 ^ 32
        → block_spelled a ++ x ≡ block_spelled b ++ y → (a ≡ b) × (x ≡ y) }
{}
