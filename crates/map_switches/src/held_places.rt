//! The places that a file holds, looked up among new ones, and its last group.

ghost use Rattle.std.specs.Prelude.{◌≡◌, false, true};
ghost use Rattle.std.specs.List.{AllByRecursion};
ghost use Rattle.domains.specs.Place.{Place};
ghost use Rattle.file_history.specs.Layout.{places_of};
ghost use Rattle.stale_changes.specs.PlaceMarks.{is_marked};
ghost use Rattle.striped_groups.specs.StoredGroups.{list_of};
ghost use Rattle.map_switches.specs.Switches.{groups_of, last_generation};

use domains::Place;
use stale_changes::PlaceMarks;
use striped_groups::Stripe;

/// Whether no unit of the groups stands at a marked place.
pub fn none_marked<S>(stripes: &[Stripe<S>], marks: &PlaceMarks) -> bool
    ensures { result ≡ true → AllByRecursion (λ (s : Place). is_marked marks.now.keys s ≡ false) (places_of (groups_of stripes.now)) }
{
    let [stripe, rest @ ..] = stripes else {
        return true;
    };
    none_there(stripe.group().places.as_slice(), marks) && none_marked(rest, marks)
}

/// Whether no unit of the inode stands at a marked place.
pub fn inode_unmarked<S>(inode: &Option<Stripe<S>>, marks: &PlaceMarks) -> bool
    ensures { result ≡ true → AllByRecursion (λ (s : Place). is_marked marks.now.keys s ≡ false) (places_of (groups_of (list_of inode.now))) }
{
    let Some(inode) = inode else {
        return true;
    };
    none_there(inode.group().places.as_slice(), marks)
}

/// Whether none of these places is marked.
fn none_there(places: &[Place], marks: &PlaceMarks) -> bool
    ensures { result ≡ true → AllByRecursion (λ (s : Place). is_marked marks.now.keys s ≡ false) places.now }
{
    let [place, rest @ ..] = places else {
        return true;
    };
    !marks.has(*place) && none_there(rest, marks)
}

/// The generation of the last group, if there is one.
pub fn last_generation<S>(stripes: &[Stripe<S>]) -> Option<u32>
    ensures { result ≡ last_generation (groups_of stripes.now) }
{
    match stripes {
        [] => None,
        [last] => Some(last.generation()),
        [_, rest @ ..] => last_generation(rest),
    }
}
