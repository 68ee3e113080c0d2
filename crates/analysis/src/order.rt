// The order of release.
ghost use Rattle.std.specs.Prelude.{◌≤◌, length};
ghost use Rattle.analysis.specs.Workings.{FirstOpenOf, column};

use crate::tables::Releases;

// Of the rows, one that is released first among those that are not marked.
pub(crate) fn first_open(marks: &[bool], releases: &Releases) -> Option<usize>
    requires { length marks.now ≤ 256 }
    ensures { FirstOpenOf marks.now (column releases.now) (length marks.now) result }
{
    let mut first: Option<usize> = None;
    // A loop: with `filter` and `min_by_key`, the proof that every open row was seen did not close.
    for (k, marked) in marks.iter().enumerate() {
        if !*marked && first.is_none_or(|i| releases.rows[k] < releases.rows[i]) {
            first = Some(k);
        }
    }
    first
}
