//! Laws of the spellings of transactions, in one format and in two.
ghost use Rattle.std.specs.Prelude.{◌≡◌, ◌≢◌, ◌<◌, ◌≤◌, ℕ, length};
ghost use Rattle.walter_base.specs.Sizes.{size_in, most_in};
ghost use Rattle.walter_base.specs.declared.format.Format.{Format};
ghost use Rattle.walter_base.specs.declared.format.Format.TheVariants.{First, Second};
ghost use Rattle.walter_base.specs.declared.transaction.Tx.{Tx};
ghost use Rattle.walter_txcode.specs.Spelling.{spelling, HasSpelling};

/// The spelling of a transaction has its size.
pub fn size_of_spelling()
    ensures { (format : Format) (tx : Tx) → length tx.start ≤ most_in format
        → length (spelling format tx) ≡ size_in format tx }
{}

/// In one format and among so many sites, transactions with the same spelling are the same.
pub fn one_spelling()
    ensures { (format : Format) (sites : ℕ) (a b : Tx) → HasSpelling format sites a → HasSpelling format sites b
        → spelling format a ≡ spelling format b → a ≡ b }
{}

/// For fewer than eight sites no bytes spell a transaction in both formats.
pub fn no_spelling_in_both()
    ensures { (sites : ℕ) → sites < 8 → (a b : Tx) → HasSpelling First sites a → HasSpelling Second sites b
        → spelling First a ≢ spelling Second b }
{}
