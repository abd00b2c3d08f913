//! Laws of the spellings of records: each record has one, and how long it is.
ghost use Rattle.std.specs.Prelude.{◌≡◌, ◌≤◌, ℕ, length};
ghost use Rattle.walter_base.specs.declared.format.Format.{Format};
ghost use Rattle.walter_base.specs.declared.message.Record.{Record};
ghost use Rattle.walter_base.specs.Sizes.{size_of_record, CanBeRecorded};
ghost use Rattle.walter_record.specs.Spelling.{FitsFormat, record_spelled, HasRecordSpelling};

/// In one format and among so many sites, records with the same spelling are the same.
pub fn one_spelling()
    ensures { (format : Format) (sites : ℕ) (a b : Record) → HasRecordSpelling format sites a
        → HasRecordSpelling format sites b → record_spelled format a ≡ record_spelled format b → a ≡ b }
{}

/// How long a spelling is, and that it has at most 60,075 bytes.
pub fn size_of_spelling()
    ensures size { (format : Format) (journaled : Record) → FitsFormat format journaled
        → length (record_spelled format journaled) ≡ size_of_record format journaled }
    ensures most { (format : Format) (journaled : Record) → CanBeRecorded journaled → FitsFormat format journaled
        → length (record_spelled format journaled) ≤ 60075 }
{}
