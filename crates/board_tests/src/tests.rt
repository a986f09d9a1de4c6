ghost use Rattle.std.specs.Prelude.{◌≡◌, ◌+◌, ◌≤◌, OnOk, length};
ghost use Rattle.board.specs.Examples.{small_shape};
ghost use Rattle.board.specs.Views.{ChangesBoard};

mod race;

use self::race::race;
use board::{Board, Effect, Grow, Order, State};
use domains::{By, DriveId, NodeId, Shape};
use std::test::Fail;

/// Two nodes of two drives.
fn small() -> Shape
    ensures { result ≡ small_shape }
{
    Shape::new(2, 2, 1, 8)
}

fn drive(node: u8, drive: u8) -> DriveId
    requires { (1 ≤ node) × (node ≤ 2) × (1 ≤ drive) × (drive ≤ 2) }
    ensures { result ≡ record { node = node; drive = drive } }
{
    DriveId::new(node, drive)
}

/// Carries out an order to a drive or a node of the board's cluster.
fn order(board: &mut Board, shape: Shape, order: Order, call: u32) -> Result<Effect, Grow>
    requires { board.old.shape ≡ shape }
    ensures shape { board.new.shape ≡ shape }
    ensures count { OnOk result (length board.new.notes ≡ length board.old.notes + 1) }
    ensures changed { ChangesBoard board.old.seat board.old board.new }
{
    board.reserve(1)?;
    let by = By { actor: 1, call };
    match order {
        Order::Fail(drive) if shape.has(drive) => Ok(board.fail(by, drive)),
        Order::Down(drive) if shape.has(drive) => Ok(board.down(by, drive)),
        Order::Up(drive) if shape.has(drive) => Ok(board.up(by, drive)),
        Order::FailNode(node) if node.number() <= shape.nodes() => Ok(board.fail_node(by, node)),
        Order::Fail(_) | Order::Down(_) | Order::Up(_) | Order::FailNode(_) => Err(Grow::LogFull),
    }
}

#[test]
fn a_log_is_full_at_its_room_and_each_epoch_keeps_its_states(rt: HostRuntime) -> Result<(), Fail> {
    let shape = small();
    let mut board = Board::new(rt.alloc(), small(), 2)?;
    assert_eq!(rt; board.reserve(3), Err(Grow::LogFull));
    assert_eq!(rt; board.reserve(2), Ok(()));
    assert_eq!(rt;
        order(&mut board, shape, Order::Down(drive(2, 2)), 1)?,
        Effect::Changed
    );
    assert_eq!(rt; board.reserve(2), Err(Grow::LogFull));
    assert_eq!(rt;
        order(&mut board, shape, Order::FailNode(NodeId::new(2)), 2)?,
        Effect::Changed
    );
    assert_eq!(rt; board.reserve(1), Err(Grow::LogFull));
    assert_eq!(rt; board.reserve(0), Ok(()));
    for (at, states) in [
        (drive(1, 1), [State::Up, State::Up, State::Up]),
        (drive(2, 1), [State::Up, State::Up, State::Gone]),
        (drive(2, 2), [State::Up, State::Down, State::Gone]),
    ] {
        let found = [
            board.state_at(0, at),
            board.state_at(1, at),
            board.state_at(2, at),
        ];
        assert_eq!(rt; found, states);
    }
    Ok(())
}

#[test]
fn a_thread_sees_the_drives_that_another_loses(rt: HostRuntime) -> Result<(), Fail> {
    let (log, early, late) = race(&rt, rt.alloc())?;
    assert_eq!(rt; log.len(), 4);
    assert!(rt; early.epoch >= 2);
    assert!(rt; early.gone.has(drive(1, 1)) && early.gone.has(drive(1, 2)));
    assert_eq!(rt; late.epoch, 4);
    for (lost, is_up, is_gone) in [
        (drive(1, 1), false, true),
        (drive(2, 1), false, false),
        (drive(2, 2), true, false),
    ] {
        assert_eq!(rt; late.up.has(lost), is_up);
        assert_eq!(rt; late.gone.has(lost), is_gone);
    }
    Ok(())
}
