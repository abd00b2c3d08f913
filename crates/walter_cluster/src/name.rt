//! A name for what is shared, by which contracts know what stays the same of it.

use std::marker::Brand;

/// Which cluster it is. Each call that shares a bench picks one.
pub trait Name {
    ghost use Rattle.std.specs.Prelude.{List};
    ghost use Rattle.walter_cluster.specs.Shared.{Origin};

    /// What the cells were before they were shared, by the numbers of their sites.
    ghost origins: { List Origin };
}

impl Name for Brand {
    ghost use Rattle.std.specs.Prelude.{[]};

    ghost origins = { [] };
}
