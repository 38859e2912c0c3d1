//! The order of a list of diagnostics.

ghost use Rattle.std.specs.Prelude.{◌≡◌, ◌↔◌, List, IsTrue};
ghost use Rattle.std.specs.Ordering.{MatchOrdering, nat_cmp};
ghost use Rattle.std.specs.Cmp.Lexicographic.{slice_cmp};
ghost use Rattle.sig_model.specs.declared.diag.Diag.{Diag};
ghost use Rattle.diagnostics.specs.Order.{Before, IsOrdered, SameDiagnostics};

use crate::texts::id_text;
use plain_data::{Many, Word};
use sig_model::diag::Diag;
use std::cmp::Ordering;

/// How the arguments of one diagnostic stand to those of another: word by word, each by its bytes.
fn compare_arguments(left: &[Word], right: &[Word]) -> Ordering
    ensures { result ≡ slice_cmp (slice_cmp nat_cmp) left.now right.now }
{
    left.iter()
        .map(|word| word.as_bytes())
        .cmp(right.iter().map(|word| word.as_bytes()))
}

/// How one diagnostic stands to another in a list.
fn compare(left: &Diag, right: &Diag) -> Ordering
    ensures { MatchOrdering result (Before left.now right.now) (left.now ≡ right.now) (Before right.now left.now) }
{
    let file = left.place.file.cmp(&right.place.file);
    let start = left.place.start.cmp(&right.place.start);
    let end = left.place.end.cmp(&right.place.end);
    let place = file.then(start).then(end);
    if place.is_ne() {
        return place;
    }
    let name = id_text(left.id).cmp(id_text(right.id));
    if name.is_ne() {
        return name;
    }
    compare_arguments(left.args.as_slice(), right.args.as_slice())
}

/// Whether two diagnostics are the same one.
fn is_same(left: &Diag, right: &Diag) -> bool
    ensures { IsTrue result ↔ (left.now ≡ right.now) }
{
    compare(left, right).is_eq()
}

/// The diagnostics of a list in order, each once. Takes no memory.
///
/// A diagnostic stands before another by the number of its file, its start, its end, its name and its arguments,
/// of which the first that differs decides. Names and words are compared by their bytes.
pub fn ordered(list: Many<Diag>) -> Many<Diag>
    ensures order { IsOrdered result }
    ensures same { SameDiagnostics list result }
    ensures only { (other : List Diag) → IsOrdered other → SameDiagnostics list other → other ≡ result }
{
    let mut items = list.into_vec();
    items.sort_unstable_by(|left, right| compare(left, right));
    items.dedup_by(
        |later, kept|
            ensures same { IsTrue result ↔ (later.old ≡ kept.old) }
            ensures later { later.new ≡ later.old }
            ensures kept { kept.new ≡ kept.old }
        { is_same(later, kept) },
    );
    Many::from_vec(items)
}
