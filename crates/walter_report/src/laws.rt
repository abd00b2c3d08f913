//! The law that a site's line tells how the site stands.
ghost use Rattle.std.specs.Prelude.{◌≡◌, List, reverse};
ghost use Rattle.walter_base.specs.declared.catalog.Catalog.{Catalog};
ghost use Rattle.walter_base.specs.declared.names.SiteId.{SiteId};
ghost use Rattle.walter_report.specs.Sites.{is_up, records};
ghost use Rattle.walter_rules.specs.declared.entry.Entry.{Entry};
ghost use Rattle.walter_rules.specs.Trails.{standing};

/// What a site's line tells is how the site stands behind its trail: whether it is up, and its records.
pub fn as_it_stands()
    ensures up { (catalog : Catalog) (i : SiteId) (trail : List Entry)
        → (standing catalog i (reverse trail)).up ≡ is_up trail }
    ensures records { (catalog : Catalog) (i : SiteId) (trail : List Entry)
        → (standing catalog i (reverse trail)).records ≡ records trail }
{}
