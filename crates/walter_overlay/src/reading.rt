//! A regular object's value after own updates.
ghost use Rattle.std.specs.Prelude.{◌≡◌};
ghost use Rattle.std.specs.Option.{option_copied};
ghost use Rattle.walter_base.specs.Values.{value_from};

use walter_base::{ObjId, SharedBytes, Update};

/// What a regular object that held `base` holds after the updates.
pub fn value<'a>(
    base: Option<&'a SharedBytes>,
    updates: &'a [Update],
    oid: ObjId,
) -> Option<&'a SharedBytes>
    ensures { option_copied result ≡ value_from (option_copied base.entry) oid updates.entry.now }
{
    let mut value = base;
    for update in updates {
        if let Update::Write(at, bytes) = update
            && *at == oid
        {
            value = Some(bytes);
        }
    }
    value
}
