//! The slots of a file, which go back to the rack.

ghost use Rattle.std.specs.Prelude.{◌++◌, reverse};
ghost use Rattle.striped_groups.specs.StoredGroups.{list_of};
ghost use Rattle.file_cells.specs.FileEnds.{slots_in};
ghost use Rattle.returned_slots.specs.RackStates.{rack_state};
ghost use Rattle.returned_slots.specs.Returns.{Returns};

use file_core::Stripe;
use flex_io::{Fault, Rack, Slot};
use lists::List;
use returned_slots::put_held;

/// Puts the slots of a file back: those of its groups, by position, and then the inode's.
pub(crate) fn put_file<S: Slot + Send + Drop, R: Rack<Piece = S>>(
    rack: &mut R,
    groups: List<Stripe<S>>,
    inode: Option<Stripe<S>>,
) -> Result<(), Fault>
    ensures { Returns S.place_of S.content (slots_in groups ++ slots_in (list_of inode)) result
        (rack_state R.back R.takes R.puts R.faults rack.old) (rack_state R.back R.takes R.puts R.faults rack.new) }
{
    let mut groups = groups.into_vec();
    groups.reverse();
    let mapped = put_from_the_end(rack, groups);
    let root = put_inode(rack, inode);
    mapped.and(root)
}

/// Puts the slots of an inode back, if there is one.
fn put_inode<S: Slot + Send + Drop, R: Rack<Piece = S>>(
    rack: &mut R,
    inode: Option<Stripe<S>>,
) -> Result<(), Fault>
    ensures { Returns S.place_of S.content (slots_in (list_of inode)) result
        (rack_state R.back R.takes R.puts R.faults rack.old) (rack_state R.back R.takes R.puts R.faults rack.new) }
{
    match inode {
        Some(inode) => put_held(rack, inode.into_slots()),
        None => Ok(()),
    }
}

/// Puts the slots of groups back, those of the last group first.
fn put_from_the_end<S: Slot + Send + Drop, R: Rack<Piece = S>>(
    rack: &mut R,
    mut groups: Vec<Stripe<S>>,
) -> Result<(), Fault>
    ensures { Returns S.place_of S.content (slots_in (reverse groups.items)) result
        (rack_state R.back R.takes R.puts R.faults rack.old) (rack_state R.back R.takes R.puts R.faults rack.new) }
{
    let mut outcome = Ok(());
    while let Some(group) = groups.pop() {
        let put = put_held(rack, group.into_slots());
        outcome = outcome.and(put);
    }
    groups.destroy_empty();
    outcome
}
