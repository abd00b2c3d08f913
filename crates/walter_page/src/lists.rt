//! Lists within a line.
ghost use Rattle.std.specs.Prelude.{◌≡◌, ◌++◌, map};
ghost use Rattle.std.specs.Fmt.{decimal};
ghost use Rattle.walter_page.specs.Lists.{comma_behind};
ghost use Rattle.walter_page.specs.Pages.{Puts};
ghost use Rattle.walter_page.specs.Words.{listed};

use crate::page::Page;
use crate::parts::{Part, put_parts};
use walter_stream::{Failed, Sink};

/// What stands before a piece of a list: a comma, where there are pieces before it.
pub fn comma_behind(some: bool) -> &'static str
    ensures { result.now ≡ comma_behind some }
{
    if some { "," } else { "" }
}

/// Puts a word, and the numbers with a comma between each two, or a dash.
pub fn put_counts<K: Sink>(
    page: &mut Page,
    sink: &mut K,
    word: &str,
    counts: &[usize],
) -> Result<(), Failed>
    ensures { Puts K.holds K.faults sink.old sink.new page.old page.new
        (word.now ++ listed (map decimal counts.now)) result }
{
    page.put(sink, word.as_bytes())?;
    if counts.is_empty() {
        return page.put(sink, b"-");
    }
    for (place, count) in counts.iter().enumerate() {
        let comma = comma_behind(place > 0);
        put_parts(
            page,
            sink,
            &[Part::Word(comma), Part::Number(*count as u128)],
        )?;
    }
    Ok(())
}
