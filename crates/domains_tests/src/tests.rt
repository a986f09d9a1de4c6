//! The table of levels, widths and the page of levels against worked rows, and the limits of the small types.

ghost use Rattle.std.specs.Prelude.{◌≤◌};

use domains::{DriveId, DriveSet, Level, NodeId, NotALevel, Place, Shape, TooFew, width};
use std::alloc::AllocError;
use std::test::Fail;

/// A cluster with one slot on each drive, and all its drives.
fn whole(nodes: u8, drives: u8) -> (Shape, DriveSet)
    requires nodes { (1 ≤ nodes) × (nodes ≤ 32) }
    requires drives { (1 ≤ drives) × (drives ≤ 4) }
{
    let shape = Shape::new(nodes, drives, 1, 8);
    (shape, DriveSet::all(shape))
}

/// Whether the level bears these numbers of further drives beside 0, 1, 2 .. nodes, and no more.
fn bears_just(level: Level, further: &[u8]) -> bool {
    for nodes in 0..=255 {
        let most = further.get(usize::from(nodes));
        for drives in 0..=255 {
            if level.bears(nodes, drives) != most.is_some_and(|most| drives <= *most) {
                return false;
            }
        }
    }
    true
}

#[test]
fn the_sixteen_levels_and_what_they_bear(rt: HostRuntime) -> Result<(), Fail> {
    // The name, w, m and k, and how many further drives beside 0, 1, 2 .. nodes.
    let rows = [
        ("+1n", (16, 1, 1), [1, 0].as_slice()),
        ("+2n", (16, 2, 1), [2, 1, 0].as_slice()),
        ("+3n", (16, 3, 1), [3, 2, 1, 0].as_slice()),
        ("+4n", (16, 4, 1), [4, 3, 2, 1, 0].as_slice()),
        ("+2d:1n", (16, 2, 2), [2, 0].as_slice()),
        ("+3d:1n", (16, 3, 3), [3, 0].as_slice()),
        ("+4d:1n", (16, 4, 4), [4, 0].as_slice()),
        ("+4d:2n", (16, 4, 2), [4, 2, 0].as_slice()),
        ("+3d:1n1d", (16, 3, 2), [3, 1].as_slice()),
        ("2x", (1, 1, 1), [1, 0].as_slice()),
        ("3x", (1, 2, 1), [2, 1, 0].as_slice()),
        ("4x", (1, 3, 1), [3, 2, 1, 0].as_slice()),
        ("5x", (1, 4, 1), [4, 3, 2, 1, 0].as_slice()),
        ("6x", (1, 5, 1), [5, 4, 3, 2, 1, 0].as_slice()),
        ("7x", (1, 6, 1), [6, 5, 4, 3, 2, 1, 0].as_slice()),
        ("8x", (1, 7, 1), [7, 6, 5, 4, 3, 2, 1, 0].as_slice()),
    ];
    for (name, numbers, bears) in rows {
        let level = Level::read(name)?;
        assert!(rt; level.name() == name);
        assert_eq!(rt; (level.w(), level.m(), level.k()), numbers, "{level:?}");
        assert!(rt; bears_just(level, bears), "{level:?}");
    }
    assert_eq!(rt; Level::two_copies(), Level::read("2x")?);
    Ok(())
}

#[test]
fn any_other_text_is_not_a_level(rt: HostRuntime) {
    for text in [
        "",
        "+",
        "x",
        "+2n1d",
        "1n",
        "+0n",
        "+5n",
        "+01n",
        "+1N",
        "1x",
        "9x",
        "2X",
        "2x ",
        " 2x",
        "+1n\n",
        "+2d: 1n",
        "+1d:1n",
        "+4d:2n1d",
        "+3d:1n1d+1n",
    ] {
        assert_eq!(rt; Level::read(text), Err(NotALevel), "{text}");
    }
}

#[test]
fn widths_on_small_clusters(rt: HostRuntime) -> Result<(), Fail> {
    let (four, drives) = whole(4, 3);
    assert_eq!(rt; width(&Level::read("+2d:1n")?, &four, &drives), Ok(6));
    assert_eq!(rt; width(&Level::read("+3d:1n1d")?, &four, &drives), Ok(5));
    assert_eq!(rt; width(&Level::read("+4d:1n")?, &four, &drives), Ok(8));
    let (three, drives) = whole(3, 1);
    assert_eq!(rt; width(&Level::read("+2n")?, &three, &drives), Ok(1));
    let (one, drives) = whole(1, 2);
    let few = TooFew { have: 1, need: 2 };
    assert_eq!(rt; width(&Level::read("+1n")?, &one, &drives), Err(few));
    Ok(())
}

fn width_on(level: Level, nodes: u8, drives: u8) -> Result<u8, TooFew>
    requires nodes { (1 ≤ nodes) × (nodes ≤ 32) }
    requires drives { (1 ≤ drives) × (drives ≤ 4) }
{
    let (shape, usable) = whole(nodes, drives);
    width(&level, &shape, &usable)
}

/// How many in a hundred of a group's units are correction units, to the nearest whole number.
fn overhead(level: Level, n: u8) -> u32 {
    let m = u32::from(level.m());
    let all = u32::from(n) + m;
    (200 * m + all) / (2 * all)
}

/// The fewest nodes on which a group has room, and the fewest drives that each of these then needs.
fn least(level: Level) -> Option<(u8, u8)> {
    for nodes in 1..=32 {
        for drives in 1..=4 {
            if width_on(level, nodes, drives).is_ok() {
                return Some((nodes, drives));
            }
        }
    }
    None
}

/// The fewest nodes of four drives on which a group is as wide as the level lets it be.
fn widest_from(level: Level) -> Option<u8> {
    for nodes in 1..=32 {
        if width_on(level, nodes, 4) == Ok(level.w()) {
            return Some(nodes);
        }
    }
    None
}

#[test]
fn the_least_and_the_widest_groups_of_the_page(rt: HostRuntime) -> Result<(), Fail> {
    // The name, the fewest nodes and how many drives each then has, the fewest nodes of the widest groups, and their overhead.
    let rows = [
        ("+1n", 2, 1, 17, 6),
        ("+2n", 3, 1, 18, 11),
        ("+3n", 4, 1, 19, 16),
        ("+4n", 5, 1, 20, 20),
        ("+2d:1n", 2, 2, 9, 11),
        ("+3d:1n", 2, 2, 7, 16),
        ("+4d:1n", 2, 3, 5, 20),
        ("+4d:2n", 3, 2, 10, 20),
        ("+3d:1n1d", 2, 2, 10, 16),
        ("2x", 2, 1, 2, 50),
        ("3x", 3, 1, 3, 67),
        ("4x", 4, 1, 4, 75),
        ("5x", 5, 1, 5, 80),
        ("6x", 6, 1, 6, 83),
        ("7x", 7, 1, 7, 86),
        ("8x", 8, 1, 8, 88),
    ];
    for (name, nodes, drives, widest, part) in rows {
        let level = Level::read(name)?;
        assert_eq!(rt; least(level), Some((nodes, drives)), "{name}");
        assert_eq!(rt; widest_from(level), Some(widest), "{name}");
        assert_eq!(rt; overhead(level, level.w()), part, "{name}");
    }
    Ok(())
}

/// The cell of a level on this number of nodes of four drives: data and correction units, and the overhead.
fn write_cell(text: &mut String, level: Level, nodes: u8) -> Result<(), AllocError>
    requires nodes { (1 ≤ nodes) × (nodes ≤ 32) }
{
    match width_on(level, nodes, 4) {
        Ok(n) => write!(text, " {n}+{} ({}%) |", level.m(), overhead(level, n)),
        Err(_) => write!(text, " - |"),
    }
}

#[test]
fn groups_by_the_number_of_nodes_are_those_of_the_page(rt: HostRuntime) -> Result<(), Fail> {
    let names = [
        "+1n", "+2n", "+3n", "+4n", "+2d:1n", "+3d:1n", "+4d:1n", "+4d:2n", "+3d:1n1d",
    ];
    let rows = [
        (
            3,
            " 2+1 (33%) | 1+2 (67%) | - | - | 4+2 (33%) | 6+3 (33%) | 8+4 (33%) | 2+4 (67%) | 3+3 (50%) |",
        ),
        (
            6,
            " 5+1 (17%) | 4+2 (33%) | 3+3 (50%) | 2+4 (67%) | 10+2 (17%) | 15+3 (17%) | 16+4 (20%) | 8+4 (33%) | 9+3 (25%) |",
        ),
        (
            20,
            " 16+1 (6%) | 16+2 (11%) | 16+3 (16%) | 16+4 (20%) | 16+2 (11%) | 16+3 (16%) | 16+4 (20%) | 16+4 (20%) | 16+3 (16%) |",
        ),
    ];
    for (nodes, row) in rows {
        let mut text = String::new(rt.alloc());
        for name in names {
            write_cell(&mut text, Level::read(name)?, nodes)?;
        }
        assert_eq!(rt; text.as_str(), row, "{nodes} nodes");
    }
    Ok(())
}

#[test]
fn sets_have_what_was_added_and_not_removed(rt: HostRuntime) {
    let first = DriveId::new(1, 1);
    let last = DriveId::new(32, 16);
    let mut set = DriveSet::new();
    assert!(rt; !set.has(first) && !set.has(last));
    set.add(first);
    set.add(last);
    set.add(last);
    assert!(rt; set.has(first) && set.has(last));
    assert!(rt; !set.has(DriveId::new(1, 2)) && !set.has(DriveId::new(31, 16)));
    set.remove(last);
    set.remove(last);
    assert!(rt; set.has(first) && !set.has(last));
    set.remove(first);
    assert_eq!(rt; set, DriveSet::new());
}

#[test]
fn the_largest_numbers_stand(rt: HostRuntime) {
    let drive = DriveId::new(NodeId::MAX, DriveId::MAX_IN_NODE);
    assert_eq!(rt; (drive.node(), drive.drive()), (32, 16));
    assert_eq!(rt; NodeId::new(32).number(), 32);
    let place = Place::new(drive, 4095);
    assert_eq!(rt; (place.drive(), place.slot()), (drive, 4095));
    let most_nodes = Shape::new(32, 6, 4096, 131_072);
    assert_eq!(rt; (most_nodes.nodes(), most_nodes.drives()), (32, 6));
    assert_eq!(rt; (most_nodes.slots(), most_nodes.unit()), (4096, 131_072));
    let most_drives = Shape::new(12, 16, 1, 8);
    let all = DriveSet::all(most_drives);
    for (drive, there) in [
        (DriveId::new(1, 1), true),
        (DriveId::new(12, 16), true),
        (DriveId::new(13, 1), false),
        (drive, false),
    ] {
        assert_eq!(rt; (most_drives.has(drive), all.has(drive)), (there, there));
    }
}
