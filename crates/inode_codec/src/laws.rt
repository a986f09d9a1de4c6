//! What holds of the bytes of every inode.

ghost use Rattle.std.specs.Prelude.{◌≡◌, ◌+◌, ◌*◌, ◌++◌, ◌∷◌, [], length};
ghost use Rattle.domains.specs.declared.group.Group.{Group};
ghost use Rattle.inode_codec.specs.Inode.{IsInode, group_bytes, groups_bytes, head_bytes, inode_bytes};
ghost use Rattle.inode_codec.specs.declared.inode.Inode.{Inode};

/// The bytes of an inode are those of its head and of its groups, one behind the other: what `append_head` and
/// `append_group` append.
pub fn an_inode_is_its_head_and_its_groups()
    ensures parts { (i : Inode) → inode_bytes i ≡ head_bytes i.level i.unit i.size (length i.groups) ++ groups_bytes i.groups }
    ensures more { (groups : _) (group : Group) → groups_bytes (groups ++ group ∷ []) ≡ groups_bytes groups ++ group_bytes group }
    ensures length { (group : Group) → length (group_bytes group) ≡ 6 + 4 * length group.places }
{}

/// Two inodes with the same bytes are one.
pub fn the_bytes_tell_the_inode()
    ensures { (i : Inode) (j : Inode) → IsInode i → IsInode j → inode_bytes i ≡ inode_bytes j → i ≡ j }
{}
