//! What goes with the record of a plan, or nothing, on the heap.
ghost use Rattle.std.specs.Prelude.{◌≡◌, Some, None, IfOk};

use std::marker::Model;
use walter_base::Mem;
use walter_tables::Made;

/// What goes with the record of a plan, or nothing. It lies on the heap, as the record does: a plan is moved for each
/// input, and few inputs bring a record. Contracts see an option.
#[derive(Drop)]
pub struct MaybeMade {
    place: Option<Box<Made>>,
}

impl Model for MaybeMade {
    ghost use Rattle.std.specs.Prelude.{Option, option_map};
    ghost use Rattle.walter_tables.specs.declared.made.Made.{Made};

    ghost Value = { Option Made };

    ghost view = { λ m. option_map (λ b. b.value) m.place };
}

impl MaybeMade {
    pub(crate) fn none() -> MaybeMade
        ensures { result ≡ None }
    {
        MaybeMade { place: None }
    }

    /// What was made, which goes to the heap.
    pub(crate) fn some(made: Made) -> Mem<MaybeMade>
        ensures { IfOk result (λ m. m ≡ Some made) }
    {
        let alloc = *made.rows.allocator();
        Ok(MaybeMade {
            place: Some(Box::new(alloc, made)?),
        })
    }

    /// The option itself, with what was made off the heap.
    pub(crate) fn into_option(self) -> Option<Made>
        ensures { result ≡ self }
    {
        match self.place {
            Some(place) => Some(Box::into_inner(place)),
            None => None,
        }
    }
}
