//! Room for more in a vector, at first with no place to spare.
ghost use Rattle.std.specs.Prelude.{◌≡◌, ◌≤◌, OnOk};
ghost use Rattle.walter_history.specs.Lines.{spare_of};

use walter_base::Mem;

/// Makes room for so many more. The first room has no place to spare, since most objects are written once, and a
/// vector begins with four places otherwise.
pub fn make_spare<T>(items: &mut Vec<T>, k: u64) -> Mem<()>
    ensures items { items.new.items ≡ items.old.items }
    ensures enough { OnOk result (k ≤ spare_of items.new) }
    ensures more { spare_of items.old ≤ spare_of items.new }
{
    let k = k as usize;
    if items.capacity() == 0 {
        items.reserve_exact(k)?;
    } else {
        items.reserve(k)?;
    }
    Ok(())
}
