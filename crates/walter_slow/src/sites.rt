//! Whether the sites that a slow commit asks are heard.
ghost use Rattle.std.specs.Prelude.{◌≡◌, ◌∷◌};
ghost use Rattle.std.specs.List.{list_all};
ghost use Rattle.walter_rules.specs.Slow.{has_site};

use walter_base::SiteId;

/// Whether the site is one of these.
pub fn is_among(site: SiteId, sites: &[SiteId]) -> bool
    ensures { result ≡ has_site site sites.now }
{
    sites.iter().any(|other| site.0 == other.0)
}

/// Whether each of the asked sites is heard, or is this one.
pub fn are_heard_with(from: SiteId, asked: &[SiteId], heard: &[SiteId]) -> bool
    ensures { result ≡ list_all (λ site. has_site site (from ∷ heard.now)) asked.now }
{
    asked
        .iter()
        .all(|site| site.0 == from.0 || is_among(*site, heard))
}

/// Whether each of the asked sites is heard.
pub fn are_heard(asked: &[SiteId], heard: &[SiteId]) -> bool
    ensures { result ≡ list_all (λ site. has_site site heard.now) asked.now }
{
    asked.iter().all(|site| is_among(*site, heard))
}
