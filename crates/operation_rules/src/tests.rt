use crate::{
    Place, PlacedOp, first_misnamed_job, first_outside, first_start_too_many, first_too_long,
    first_unbuilt, first_undeclared,
};
use domains::{Level, Shape};
use operation_text::read_op;
use scenario::{FileDecl, Name};
use std::alloc::Global;
use std::test::Fail;

fn placed(alloc: Global, texts: &[&str]) -> Result<Vec<PlacedOp>, Fail> {
    let mut ops = Vec::new(alloc);
    for text in texts {
        let what = read_op(alloc, text).map_err(|_| "an operation")?;
        let op = u16::try_from(ops.len() + 1).map_err(|_| "few operations")?;
        let place = Place { actor: 1, op };
        ops.push(PlacedOp { place, what })?;
    }
    Ok(ops)
}

fn push_start(alloc: Global, ops: &mut Vec<PlacedOp>, op: u16) -> Result<(), Fail> {
    let what = read_op(alloc, "start Collect as j").map_err(|_| "an operation")?;
    let place = Place { actor: 1, op };
    ops.push(PlacedOp { place, what })?;
    Ok(())
}

fn at(op: u16) -> Option<Place> {
    Some(Place { actor: 1, op })
}

#[test]
fn a_file_that_is_not_declared_is_named_first(rt: HostRuntime) -> Result<(), Fail> {
    let alloc = rt.alloc();
    let name = Name::new(String::from_str(alloc, "a")?).ok_or("a name")?;
    let files = [FileDecl {
        name,
        level: Level::two_copies(),
    }];
    let ops = placed(
        alloc,
        &["create a", "drain", "read b 0 1", "delete c", "level a 2x"],
    )?;
    assert_eq!(rt; first_undeclared(alloc, &files, ops.as_slice())?, at(3));
    let declared = placed(alloc, &["create a", "drain"])?;
    assert_eq!(rt; first_undeclared(alloc, &files, declared.as_slice())?, None);
    Ok(())
}

#[test]
fn a_drive_outside_the_cluster_is_named_first(rt: HostRuntime) -> Result<(), Fail> {
    let alloc = rt.alloc();
    let shape = Shape::new(3, 2, 16, 8);
    for (last, place) in [
        ("fail 3/2", None),
        ("fail 4/1", at(3)),
        ("down 3/3", at(3)),
        ("up 0/1", at(3)),
        ("fail 1/0", at(3)),
        ("fail 18446744073709551617/1", at(3)),
        ("failnode 3", None),
        ("failnode 4", at(3)),
        ("failnode 0", at(3)),
    ] {
        let ops = placed(alloc, &["create a", "fail 1/1", last])?;
        let first = first_outside(shape, ops.as_slice());
        assert_eq!(rt; first, place, "{last}");
    }
    Ok(())
}

#[test]
fn a_job_is_started_once_and_used_where_it_is_started(rt: HostRuntime) -> Result<(), Fail> {
    let alloc = rt.alloc();
    let good = placed(alloc, &["pause j", "start Collect as j", "cancel j"])?;
    assert_eq!(rt; first_misnamed_job(alloc, good.as_slice())?, None);
    let twice = placed(
        alloc,
        &[
            "start Collect as j",
            "drain",
            "start Upgrade as j",
            "pause k",
        ],
    )?;
    assert_eq!(rt; first_misnamed_job(alloc, twice.as_slice())?, at(3));
    let nowhere = placed(
        alloc,
        &["start Collect as j", "resume k", "start Upgrade as j"],
    )?;
    assert_eq!(rt; first_misnamed_job(alloc, nowhere.as_slice())?, at(2));
    Ok(())
}

#[test]
fn sixty_four_starts_and_no_more(rt: HostRuntime) -> Result<(), Fail> {
    let alloc = rt.alloc();
    let mut ops = placed(alloc, &["drain"])?;
    for number in 2..66u16 {
        push_start(alloc, &mut ops, number)?;
    }
    assert_eq!(rt; first_start_too_many(ops.as_slice()), None);
    push_start(alloc, &mut ops, 66)?;
    assert_eq!(rt; first_start_too_many(ops.as_slice()), at(66));
    assert_eq!(rt; first_unbuilt(ops.as_slice()), at(1));
    Ok(())
}

#[test]
fn reads_and_writes_are_summed_apart(rt: HostRuntime) -> Result<(), Fail> {
    let alloc = rt.alloc();
    let mut ops = placed(alloc, &["write a 0 text:abc"])?;
    for number in 2..18u16 {
        let more = placed(alloc, &["read a 0 1048576"])?;
        for op in more {
            let place = Place {
                actor: 1,
                op: number,
            };
            ops.push(PlacedOp {
                place,
                what: op.what,
            })?;
        }
    }
    assert_eq!(rt; first_too_long(ops.as_slice()), None);
    for op in placed(alloc, &["read a 0 1"])? {
        let place = Place { actor: 1, op: 18 };
        ops.push(PlacedOp {
            place,
            what: op.what,
        })?;
    }
    assert_eq!(rt; first_too_long(ops.as_slice()), at(18));
    Ok(())
}
