//! What paths leave in the logs of files, line by line.

ghost use Rattle.std.specs.Prelude.{◌≡◌, ◌≤◌, ◌+◌, ◌<◌, ◌^◌, length};
ghost use Rattle.fabric.specs.Views.{IsHandOf, fabric_view, number_of};
ghost use Rattle.file_cells.specs.OpenFiles.{IsOpen, state_of};

use domains::{By, Level, NotALevel, Shape};
use fabric::{Desk, Fabric, Hand, Parts};
use file_cells::OpenFile;
use file_core::{FileParts, Stripe};
use flex_io::{OpenGate, SurePiece, SureRack};
use held_slots::spend_all;
use level_path::set_level;
use lists::List;
use read_path::read;
use report::write_file_entry;
use std::alloc::{AllocError, Global};
use std::process::Abort;
use std::sync::Wait;
use std::test::Fail;
use write_path::{create, remove};

/// An action on a file.
#[derive(Clone, Copy)]
enum Action {
    Create,
    Remove,
    Read { offset: u64, len: u32 },
    SetLevel(Level),
}

/// Does an action on the file, as the actor's call of this number. What it answers stands in the file's log.
fn act<R: Wait>(
    rt: &R,
    alloc: Global,
    file: &mut OpenFile<SurePiece>,
    fabric: &Fabric<SurePiece>,
    hand: &mut Hand<SurePiece>,
    call: u32,
    action: Action,
)
    requires open { IsOpen file.old }
    requires shape { (state_of file.old).shape ≡ (fabric_view fabric.now).shape }
    requires hand { IsHandOf (fabric_view fabric.now) hand.old }
    ensures open { IsOpen file.new }
    ensures shape { (state_of file.new).shape ≡ (fabric_view fabric.now).shape }
    ensures hand { IsHandOf (fabric_view fabric.now) hand.new }
    ensures number { number_of hand.new ≡ number_of hand.old }
{
    let mut desk = Desk {
        fabric,
        hand,
        gate: &OpenGate,
        by: By { actor: 1, call },
    };
    let (cell, seat) = (&file.cell, &mut file.seat);
    match action {
        Action::Create => {
            let _answer = create(rt, alloc, cell, seat, &mut desk);
        }
        Action::Remove => {
            let _answer = remove(rt, cell, seat, &mut desk);
        }
        Action::Read { offset, len } => {
            let _answer = read(rt, alloc, cell, seat, &mut desk, offset, len);
        }
        Action::SetLevel(level) => {
            let _answer = set_level(rt, cell, seat, &mut desk, level);
        }
    }
}

/// Does the actions one after the other, the first as the actor's call of this number.
fn act_all<R: Wait>(
    rt: &R,
    alloc: Global,
    file: &mut OpenFile<SurePiece>,
    fabric: &Fabric<SurePiece>,
    hand: &mut Hand<SurePiece>,
    call: u32,
    actions: &[Action],
)
    requires few { call + length actions.now < 2 ^ 32 }
    requires open { IsOpen file.old }
    requires shape { (state_of file.old).shape ≡ (fabric_view fabric.now).shape }
    requires hand { IsHandOf (fabric_view fabric.now) hand.old }
    ensures open { IsOpen file.new }
    ensures shape { (state_of file.new).shape ≡ (fabric_view fabric.now).shape }
    ensures hand { IsHandOf (fabric_view fabric.now) hand.new }
    ensures number { number_of hand.new ≡ number_of hand.old }
{
    let [action, rest @ ..] = actions else {
        return;
    };
    act(rt, alloc, file, fabric, hand, call, *action);
    act_all(rt, alloc, file, fabric, hand, call + 1, rest);
}

/// Adds the lines of the file's log, which was declared at this level, and drops its slots.
fn end(text: &mut String, file: OpenFile<SurePiece>, declared: Level) -> Result<(), AllocError>
    requires { IsOpen file }
{
    let FileParts { log, groups, inode } = file.close();
    spend_groups(groups);
    if let Some(inode) = inode {
        let _count = spend_all(inode.into_slots());
    }
    for entry in log.as_slice() {
        write_file_entry(text, declared, entry)?;
    }
    Ok(())
}

/// Drops the slots of groups.
fn spend_groups(groups: List<Stripe<SurePiece>>) {
    let mut groups = groups.into_vec();
    while let Some(group) = groups.pop() {
        let _count = spend_all(group.into_slots());
    }
    groups.destroy_empty();
}

/// The lines of the log of the cluster's one file after these actions.
fn lines<R: Abort + Wait>(
    rt: &R,
    alloc: Global,
    shape: Shape,
    level: Level,
    actions: &[Action],
) -> Result<String, Fail>
    requires few { length actions.now ≤ 100 }
{
    let mut rack = SureRack::new(alloc);
    let opened = Fabric::open(alloc, shape, &mut rack, 1, 0);
    let (fabric, hands) = opened.expect(rt, "there is memory for six slots");
    let mut hands = hands.into_vec();
    let Some(mut hand) = hands.pop() else {
        unreachable!()
    };
    let opened = OpenFile::new(alloc, 0, shape, level, 64);
    let mut file = opened.expect(rt, "there is memory for a file");
    act_all(rt, alloc, &mut file, &fabric, &mut hand, 1, actions);
    hands.push_reserved(hand);
    let Parts {
        board: _,
        yard,
        retired,
        pools: _,
    } = fabric.close(List::from_vec(hands));
    let _count = spend_all(yard) + spend_all(retired);
    let mut text = String::new(alloc);
    end(&mut text, file, level)?;
    Ok(text)
}

/// The lines of `whole_life`.
const WHOLE_LIFE: &str =
    "1.1 e0 create 2x inode 0=1+1@1/1:0,2/1:0\n1.2 e0 create 2x refused exists\n1.3 e0 level 3x\n1.4 e0 read 0 0 shown -\n1.5 e0 read 9 4 shown -\n1.6 e0 delete\n1.7 e0 delete refused absent\n1.8 e0 level 3x refused absent\n1.9 e0 read 0 5 refused absent\n1.10 e0 create 2x inode 1=1+1@2/1:0,3/1:0\n";

/// A file is created twice, changed, read, deleted twice, and created anew.
fn whole_life() -> Result<[Action; 10], NotALevel> {
    let level = Level::read("3x")?;
    Ok([
        Action::Create,
        Action::Create,
        Action::SetLevel(level),
        Action::Read { offset: 0, len: 0 },
        Action::Read { offset: 9, len: 4 },
        Action::Remove,
        Action::Remove,
        Action::SetLevel(level),
        Action::Read { offset: 0, len: 5 },
        Action::Create,
    ])
}

#[test]
fn a_file_is_created_anew_at_its_declared_level(rt: HostRuntime) -> Result<(), Fail> {
    let shape = Shape::new(3, 1, 2, 8);
    let text = lines(&rt, rt.alloc(), shape, Level::two_copies(), &whole_life()?)?;
    assert_eq!(rt; &*text, WHOLE_LIFE);
    Ok(())
}

#[test]
fn two_drives_of_a_node_are_too_few(rt: HostRuntime) -> Result<(), Fail> {
    let shape = Shape::new(1, 2, 2, 8);
    let actions = [Action::Create, Action::Read { offset: 0, len: 5 }];
    let text = lines(&rt, rt.alloc(), shape, Level::read("+1n")?, &actions)?;
    assert_eq!(rt;
        &*text,
        "1.1 e0 create +1n refused toofew 1 2\n1.2 e0 read 0 5 refused absent\n"
    );
    Ok(())
}

/// The lines of four files, in their order, of which the third finds too few free slots.
const FOUR_FILES: &str =
    "1.1 e0 create 2x inode 0=1+1@1/1:0,2/1:0\n1.2 e0 create 2x inode 0=1+1@2/1:1,3/1:0\n1.3 e0 create 3x refused noroom 3 2 2/1\n1.4 e0 create 2x inode 0=1+1@1/1:1,3/1:1\n";

#[test]
fn a_file_finds_no_room_and_a_later_one_does(rt: HostRuntime) -> Result<(), Fail> {
    let alloc = rt.alloc();
    let shape = Shape::new(3, 1, 2, 8);
    let (two, three) = (Level::two_copies(), Level::read("3x")?);
    let mut rack = SureRack::new(alloc);
    let opened = Fabric::open(alloc, shape, &mut rack, 1, 0);
    let (fabric, hands) = opened.expect(&rt, "there is memory for six slots");
    let mut hands = hands.into_vec();
    let Some(mut hand) = hands.pop() else {
        unreachable!()
    };
    let mut a = OpenFile::new(alloc, 0, shape, two, 8).expect(&rt, "memory for a file");
    let mut b = OpenFile::new(alloc, 1, shape, two, 8).expect(&rt, "memory for a file");
    let mut c = OpenFile::new(alloc, 2, shape, three, 8).expect(&rt, "memory for a file");
    let mut d = OpenFile::new(alloc, 3, shape, two, 8).expect(&rt, "memory for a file");
    act(&rt, alloc, &mut a, &fabric, &mut hand, 1, Action::Create);
    act(&rt, alloc, &mut b, &fabric, &mut hand, 2, Action::Create);
    act(&rt, alloc, &mut c, &fabric, &mut hand, 3, Action::Create);
    act(&rt, alloc, &mut d, &fabric, &mut hand, 4, Action::Create);
    hands.push_reserved(hand);
    let Parts {
        board: _,
        yard,
        retired,
        pools: _,
    } = fabric.close(List::from_vec(hands));
    let _count = spend_all(yard) + spend_all(retired);
    let mut text = String::new(alloc);
    let ended = (
        end(&mut text, a, two),
        end(&mut text, b, two),
        end(&mut text, c, three),
        end(&mut text, d, two),
    );
    assert_eq!(rt; ended, (Ok(()), Ok(()), Ok(()), Ok(())));
    assert_eq!(rt; &*text, FOUR_FILES);
    Ok(())
}
