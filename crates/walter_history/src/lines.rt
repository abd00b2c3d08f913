//! The lines of a history. Clean ones stand first, so that a fold passes over them; what is opened stands behind all
//! until the next fold.
ghost use Rattle.std.specs.Prelude.{◌≡◌, ◌<◌, ◌≤◌, ◌+◌, ◌^◌, min, slice_get};
ghost use Rattle.indexmap.specs.IndexMap.{index_map_len};
ghost use Rattle.walter_base.specs.declared.names.ObjId.{ObjId as Object};
ghost use Rattle.walter_history.specs.Kept.{IsClean, IsFoldedAt};
ghost use Rattle.walter_history.specs.Lines.{lines_in, line_of, kept_in, AreFirst, AreOwn, StandAs};

use crate::line::{Line, fold, is_clean};
use indexmap::IndexMap;
use walter_base::{ObjId, Vts};

/// Puts the line at the place behind the clean ones, and answers its place there.
pub fn leave_clean(lines: &mut IndexMap<ObjId, Line>, clean: usize, place: usize) -> usize
    requires within { place < index_map_len lines.old }
    requires clean { AreFirst IsClean clean lines.old.entries }
    ensures within { result < index_map_len lines.new }
    ensures clean { AreFirst IsClean (min clean result) lines.new.entries }
    ensures moved { slice_get lines.new.entries result ≡ slice_get lines.old.entries place }
    ensures same { (oid : Object)
        → line_of (lines_in lines.new.entries) oid ≡ line_of (lines_in lines.old.entries) oid }
{
    if clean <= place {
        return place;
    }
    let last = clean - 1;
    lines.swap_indices(place, last);
    last
}

/// Folds the line at the place, and puts it behind the clean ones where it is clean then. Answers how many those are.
fn fold_at(lines: &mut IndexMap<ObjId, Line>, clean: usize, place: usize, floor: &Vts) -> usize
    requires within { place < index_map_len lines.old }
    requires fits { index_map_len lines.old < 2 ^ 63 }
    requires behind { clean ≤ place }
    requires clean { AreFirst IsClean clean lines.old.entries }
    requires folded { AreFirst (IsFoldedAt floor.now) place lines.old.entries }
    requires own { AreOwn (lines_in lines.old.entries) }
    ensures behind { result ≤ place + 1 }
    ensures clean { AreFirst IsClean result lines.new.entries }
    ensures folded { AreFirst (IsFoldedAt floor.now) (place + 1) lines.new.entries }
    ensures own { AreOwn (lines_in lines.new.entries) }
    ensures len { index_map_len lines.new ≡ index_map_len lines.old }
    ensures stand { StandAs floor.now (lines_in lines.old.entries) (lines_in lines.new.entries) }
{
    let Some(line) = lines.get_index_mut(place) else {
        return clean;
    };
    fold(line, floor);
    if !is_clean(line) {
        return clean;
    }
    lines.swap_indices(clean, place);
    clean + 1
}

/// Folds the lines behind the clean ones, and answers how many are clean then.
pub fn fold_lines(lines: &mut IndexMap<ObjId, Line>, clean: usize, floor: &Vts) -> usize
    requires clean { AreFirst IsClean clean lines.old.entries }
    requires own { AreOwn (lines_in lines.old.entries) }
    ensures clean { AreFirst IsClean result lines.new.entries }
    ensures folded { (oid : Object) → IsFoldedAt floor.now (kept_in (lines_in lines.new.entries) oid) }
    ensures own { AreOwn (lines_in lines.new.entries) }
    ensures stand { StandAs floor.now (lines_in lines.old.entries) (lines_in lines.new.entries) }
{
    let mut front = clean;
    for place in clean..lines.len() {
        front = fold_at(lines, front, place, floor);
    }
    front
}
