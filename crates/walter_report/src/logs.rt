//! The log of a site: the commits that stand there, in order.
ghost use Rattle.std.specs.Prelude.{◌≡◌, ◌++◌, [], ◌∷◌, true, length, codes, OnOk};
ghost use Rattle.walter_page.specs.Lists.{has_pieces, list_behind};
ghost use Rattle.walter_page.specs.Pages.{Puts};
ghost use Rattle.walter_report.specs.Sites.{record_in, records, logged, log_pieces, version_text};
ghost use Rattle.walter_page.specs.Words.{listed};
ghost use Rattle.walter_rules.specs.Knowledge.{site_at};

use walter_base::{MaybeRecord, Record};
use walter_page::{Page, Part, comma_behind, put_parts};
use walter_rules::Entry;
use walter_stream::{Failed, Sink};

// Puts the log of a site that has so many commits.
pub(crate) fn put_log<K: Sink>(
    page: &mut Page,
    sink: &mut K,
    site: usize,
    trail: &[Entry],
    commits: usize,
) -> Result<(), Failed>
    requires { commits ≡ length (log_pieces (site_at site) (records trail.now)) }
    ensures { Puts K.holds K.faults sink.old sink.new page.old page.new
        (codes " log " ++ listed (log_pieces (site_at site) (records trail.now))) result }
{
    page.put(sink, b" log ")?;
    if commits == 0 {
        return page.put(sink, b"-");
    }
    let mut some = false;
    for entry in trail {
        put_entry(page, sink, site, entry, &mut some)?;
    }
    Ok(())
}

// Puts the commits that an entry tells. Whether there are some before them is kept.
fn put_entry<K: Sink>(
    page: &mut Page,
    sink: &mut K,
    site: usize,
    entry: &Entry,
    some: &mut bool,
) -> Result<(), Failed>
    ensures put { Puts K.holds K.faults sink.old sink.new page.old page.new (list_behind some.old
        (log_pieces (site_at site) (record_in entry.now.came.kept ++ record_in entry.now.came.wrote))) result }
    ensures some { OnOk result (some.new ≡ has_pieces some.old
        (log_pieces (site_at site) (record_in entry.now.came.kept ++ record_in entry.now.came.wrote))) }
{
    put_stable(page, sink, site, &entry.came.kept, some)?;
    put_stable(page, sink, site, &entry.came.wrote, some)
}

fn put_stable<K: Sink>(
    page: &mut Page,
    sink: &mut K,
    site: usize,
    stable: &MaybeRecord,
    some: &mut bool,
) -> Result<(), Failed>
    ensures put { Puts K.holds K.faults sink.old sink.new page.old page.new
        (list_behind some.old (log_pieces (site_at site) (record_in stable.now))) result }
    ensures some { OnOk result (some.new ≡ has_pieces some.old (log_pieces (site_at site) (record_in stable.now))) }
{
    match stable.as_ref() {
        Some(record) => put_logged(page, sink, site, record, some),
        None => Ok(()),
    }
}

// Puts the commit that the record tells to be committed, if there is one.
fn put_logged<K: Sink>(
    page: &mut Page,
    sink: &mut K,
    site: usize,
    stable: &Record,
    some: &mut bool,
) -> Result<(), Failed>
    ensures put { Puts K.holds K.faults sink.old sink.new page.old page.new
        (list_behind some.old (logged (site_at site) stable.now)) result }
    ensures some { OnOk result (some.new ≡ has_pieces some.old (logged (site_at site) stable.now)) }
{
    match stable {
        Record::Own(seq, _) => put_version(page, sink, site, *seq, some),
        Record::Seen(from, seq) => put_version(page, sink, usize::from(from.0), *seq, some),
        _ => Ok(()),
    }
}

fn put_version<K: Sink>(
    page: &mut Page,
    sink: &mut K,
    site: usize,
    seq: u64,
    some: &mut bool,
) -> Result<(), Failed>
    ensures put { Puts K.holds K.faults sink.old sink.new page.old page.new
        (list_behind some.old (version_text (site_at site) seq ∷ [])) result }
    ensures some { some.new ≡ true }
{
    let comma = comma_behind(*some);
    *some = true;
    put_parts(
        page,
        sink,
        &[
            Part::Word(comma),
            Part::Number(site as u128),
            Part::Word(":"),
            Part::Number(seq as u128),
        ],
    )
}
