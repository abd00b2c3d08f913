//! Laws of books and of packs.
ghost use Rattle.std.specs.Prelude.{◌≡◌, ◌+◌, ◌^◌, ◌<◌, ◌≤◌, ℕ, List, length, take};
ghost use Rattle.walter_disk.specs.Disks.{laid};
ghost use Rattle.walter_disk.specs.Images.{Torn};
ghost use Rattle.walter_journal.specs.Layout.{header_in, HasBehind};
ghost use Rattle.walter_checkpoint.specs.Areas.{Shape, shape_by, area_size, header_of_two, HasArea, HasTwo, HasBoth, HasContent, IsForeign, IsAside};
ghost use Rattle.walter_base.specs.declared.format.Format.{Format};
ghost use Rattle.walter_base.specs.Sizes.{most_in};
ghost use Rattle.walter_checkpoint.specs.Faults.{IsDamagedBook};
ghost use Rattle.walter_checkpoint.specs.Packs.{pack_of, renewed_by};

/// A pack of all bodies of an area, and a closed gate behind it, have room in an area. A law of the definitions, which
/// does nothing.
pub fn packs_are_shorter()
    ensures { (shape : Shape) (bytes : List ℕ) (bodies : List (List ℕ)) → HasArea shape bytes bodies
        → length (pack_of shape.sites bodies) + 1 ≤ area_size shape }
{}

/// Bytes are a book of one list of bodies behind the header of one format, or foreign, or damaged at one place with one
/// length, where the capacity is below 2^64, as the length of a pack is. A law of the definitions, which does nothing.
pub fn books_differ()
    ensures content { (capacity sites : ℕ) (header other : Format) (bytes : List ℕ) (a b : List (List ℕ))
        → capacity < 2 ^ 64 → HasContent (shape_by capacity sites header) bytes a
        → HasContent (shape_by capacity sites other) bytes b → (header ≡ other) × (a ≡ b) }
    ensures content_or_foreign { (shape : Shape) (bytes : List ℕ) (bodies : List (List ℕ))
        → shape.sites ≤ most_in shape.header → HasContent shape bytes bodies
        → IsForeign shape.capacity shape.sites bytes → ⊥ }
    ensures content_or_damaged { (capacity sites : ℕ) (header : Format) (bytes : List ℕ) (bodies : List (List ℕ))
        (at claimed : ℕ) → capacity < 2 ^ 64 → HasContent (shape_by capacity sites header) bytes bodies
        → IsDamagedBook capacity sites bytes at claimed → ⊥ }
    ensures foreign_or_damaged { (capacity sites : ℕ) (bytes : List ℕ) (at claimed : ℕ)
        → IsForeign capacity sites bytes → IsDamagedBook capacity sites bytes at claimed → ⊥ }
    ensures damaged { (capacity sites : ℕ) (bytes : List ℕ) (at claimed at' claimed' : ℕ) → capacity < 2 ^ 64
        → IsDamagedBook capacity sites bytes at claimed → IsDamagedBook capacity sites bytes at' claimed'
        → (at ≡ at') × (claimed ≡ claimed') }
{}

/// With the header of one area the content is a journal's, and with that of two areas the live one's; and the header
/// tells the format. A law of the definitions, which does nothing.
pub fn headers_tell()
    ensures one { (shape : Shape) (format : Format) (bytes : List ℕ) (bodies : List (List ℕ))
        → take 8 bytes ≡ header_in format → HasContent shape bytes bodies
        → (shape.header ≡ format) × HasBehind (header_in format) bytes bodies }
    ensures two { (shape : Shape) (format : Format) (bytes : List ℕ) (bodies : List (List ℕ))
        → take 8 bytes ≡ header_of_two format → HasContent shape bytes bodies
        → (shape.header ≡ format) × HasTwo shape bytes bodies }
{}

/// A write into the area that isn't live changes no content, wherever it is cut short. Once a pack of the content and a
/// closed gate stand there, nor does the switch byte. A law of the definitions, which does nothing.
pub fn switch_keeps()
    ensures aside { (shape : Shape) (bytes image : List ℕ) (bodies : List (List ℕ)) (at count : ℕ)
        (two : HasTwo shape bytes bodies) → IsAside shape two.switch at count → Torn at count bytes image
        → HasTwo shape image bodies }
    ensures both { (shape : Shape) (bytes : List ℕ) (bodies : List (List ℕ)) (at : ℕ)
        (two : HasTwo shape bytes bodies)
        → IsAside shape two.switch at (length (renewed_by shape.sites bodies)) → at ≤ length bytes
        → HasBoth shape (laid at (renewed_by shape.sites bodies) bytes) bodies }
    ensures switch { (shape : Shape) (bytes image : List ℕ) (bodies : List (List ℕ))
        → HasBoth shape bytes bodies → Torn 8 1 bytes image → HasContent shape image bodies }
{}
