//! Jobs played by one seat, refusals, and checkpoints.

ghost use Rattle.std.specs.Prelude.{◌≡◌, ◌≤◌, [], IfOk};

use checkpoints::{BadCheckpoint, CheckpointRule};
use domains::{By, DriveSet, Shape};
use engine_core::{
    End, Engine, Go, Grow, Idle, NotActive, NotOut, RestartRefusal, StartRefusal, Task, Told, Work,
};
use job_rules::{JobId, JobKind};
use std::test::Fail;

/// The checkpoint of an engine with no job.
const EMPTY: [u8; 8] = [0x46, 0x4A, 0x43, 0x50, 1, 0, 0, 0];

fn by(call: u32) -> By {
    By { actor: 1, call }
}

fn job(number: u16) -> JobId {
    JobId { number }
}

/// The engine of two nodes of two drives with three files.
fn small(rt: &HostRuntime, room: u32) -> Result<Engine, Fail>
    ensures { IfOk result (λ engine. engine.log.notes ≡ []) }
{
    Ok(Engine::new(rt.alloc(), Shape::new(2, 2, 1, 8), 3, room)?)
}

/// Starts a SyncCopy, which is in no set, at priority 5.
fn start_copy(engine: &mut Engine, number: u16) -> Result<(), StartRefusal> {
    if engine.reserve(1).is_err() {
        return Err(StartRefusal::NoMemory);
    }
    let job = job(number);
    if engine.is_started(job) {
        return Err(StartRefusal::NoMemory);
    }
    let none = DriveSet::new();
    engine.start(by(1), job, JobKind::SyncCopy, 5, 0, none)
}

/// Starts a MediaScan, which is in the restripe set, at priority 5.
fn start_scan(engine: &mut Engine, number: u16) -> Result<(), StartRefusal> {
    if engine.reserve(1).is_err() {
        return Err(StartRefusal::NoMemory);
    }
    let job = job(number);
    if engine.is_started(job) {
        return Err(StartRefusal::NoMemory);
    }
    let none = DriveSet::new();
    engine.start(by(1), job, JobKind::MediaScan, 5, 0, none)
}

fn hand_out(engine: &mut Engine, most: u8) -> Result<Task, Idle>
    requires some { 1 ≤ most }
    requires few { most ≤ 8 }
{
    if engine.reserve(1).is_err() {
        return Err(Idle);
    }
    engine.hand_out(by(2), most)
}

/// Begins the first item of the task, notes a progress and ends it.
fn end_first(engine: &mut Engine, task: &Task, end: End) -> Option<Go> {
    if task.count == 0 || engine.reserve(8).is_err() {
        return None;
    }
    let Some(work) = engine.begin(task, task.first) else {
        return None;
    };
    let go = engine.progress(by(3), &work, 1);
    match engine.done(by(3), &work, end) {
        Ok(()) => Some(go),
        Err(NotOut) => None,
    }
}

/// Begins the first item of the task and gives it back.
fn give_back_first(engine: &mut Engine, task: &Task, next: u16) -> Option<Work>
    requires { next ≤ 257 }
{
    if task.count == 0 || engine.reserve(8).is_err() {
        return None;
    }
    let Some(work) = engine.begin(task, task.first) else {
        return None;
    };
    match engine.give_back(by(3), &work, next) {
        Ok(()) => Some(work),
        Err(NotOut) => None,
    }
}

#[test]
fn as_many_jobs_start_as_an_engine_takes(rt: HostRuntime) -> Result<(), Fail> {
    let mut engine = small(&rt, 200)?;
    for number in 0..64 {
        assert_eq!(rt; start_copy(&mut engine, number), Ok(()));
    }
    assert_eq!(rt; start_copy(&mut engine, 64), Err(StartRefusal::JobsFull));
    assert_eq!(rt; engine.entries(), 65);
    assert!(rt; engine.is_started(job(63)) && !engine.is_started(job(64)));
    let log = engine.close();
    assert_eq!(rt; log.len(), 65);
    Ok(())
}

#[test]
fn a_log_is_full_at_its_room(rt: HostRuntime) -> Result<(), Fail> {
    let mut engine = small(&rt, 2)?;
    assert_eq!(rt; engine.reserve(3), Err(Grow::LogFull));
    assert_eq!(rt; engine.reserve(2), Ok(()));
    Ok(())
}

#[test]
fn orders_tell_what_they_did(rt: HostRuntime) -> Result<(), Fail> {
    let mut engine = small(&rt, 100)?;
    assert_eq!(rt; start_copy(&mut engine, 1), Ok(()));
    if engine.reserve(6).is_ok() {
        assert_eq!(rt; engine.pause(by(2), job(9)), Err(NotActive));
        assert_eq!(rt; engine.pause(by(3), job(1)), Ok(Told::Changed));
        assert_eq!(rt; engine.pause(by(4), job(1)), Ok(Told::Same));
    }
    assert!(rt; hand_out(&mut engine, 1).is_err());
    if engine.reserve(6).is_ok() {
        assert_eq!(rt; engine.resume(by(5), job(1)), Ok(Told::Changed));
        assert_eq!(rt; engine.cancel(by(6), job(1)), Ok(Told::Changed));
        assert_eq!(rt; engine.cancel(by(7), job(1)), Err(NotActive));
    }
    assert!(rt; hand_out(&mut engine, 1).is_err());
    assert_eq!(rt; engine.entries(), 7);
    Ok(())
}

// Two jobs of the restripe set: the second waits, also while an item of the first is out.
#[test]
fn a_job_is_played_to_its_end_before_one_that_shares_its_set(rt: HostRuntime) -> Result<(), Fail> {
    let mut engine = small(&rt, 100)?;
    assert_eq!(rt; start_scan(&mut engine, 1), Ok(()));
    assert_eq!(rt; start_scan(&mut engine, 2), Ok(()));
    let views = engine.views(rt.alloc())?;
    assert_eq!(rt; views.len(), 2);
    for item in 0..3 {
        let task = hand_out(&mut engine, 1).map_err(|_| "an item is to do")?;
        assert_eq!(rt; (task.job.number, task.first, task.count), (1, item, 1));
        let out = engine.first_out().ok_or("the item is out")?;
        assert_eq!(rt;
            (out.work.job.number, out.work.item, out.next),
            (1, item, 0)
        );
        assert_eq!(rt; end_first(&mut engine, &task, End::Whole), Some(Go::On));
        assert!(rt; end_first(&mut engine, &task, End::Whole).is_none());
        assert!(rt; engine.first_out().is_none());
    }
    let task = hand_out(&mut engine, 8).map_err(|_| "the second job is served")?;
    assert_eq!(rt; (task.job.number, task.first, task.count), (2, 0, 3));
    assert!(rt; give_back_first(&mut engine, &task, 7).is_some());
    let again = hand_out(&mut engine, 8).map_err(|_| "the item is to do again")?;
    assert_eq!(rt; (again.first, again.count), (0, 1));
    let out = engine.first_out().ok_or("the item is out")?;
    assert_eq!(rt; out.next, 7);
    // two starts, nine entries of the first job's items, its end and finish, two hand-outs and a give-back
    assert_eq!(rt; engine.entries(), 16);
    Ok(())
}

#[test]
fn an_item_that_is_not_out_does_not_end(rt: HostRuntime) -> Result<(), Fail> {
    let mut engine = small(&rt, 100)?;
    let work = Work {
        job: job(1),
        kind: JobKind::SyncCopy,
        phase: 0,
        item: 0,
        bars: DriveSet::new(),
        from_group: 0,
    };
    if engine.reserve(4).is_ok() {
        assert_eq!(rt; engine.done(by(1), &work, End::Whole), Err(NotOut));
    }
    assert_eq!(rt; engine.entries(), 0);
    Ok(())
}

#[test]
fn an_engine_goes_on_from_its_own_checkpoint_alone(rt: HostRuntime) -> Result<(), Fail> {
    let mut engine = small(&rt, 100)?;
    let bytes = engine.checkpoint(rt.alloc())?;
    assert_eq!(rt; bytes.as_slice(), EMPTY.as_slice());
    if engine.reserve(4).is_ok() {
        let cut = engine.restart_from(rt.alloc(), by(1), &EMPTY[..7]);
        let ends = BadCheckpoint {
            at: 7,
            what: CheckpointRule::Ends,
        };
        assert_eq!(rt; cut, Err(RestartRefusal::Bad(ends)));
        assert_eq!(rt; engine.restart_from(rt.alloc(), by(2), &EMPTY), Ok(()));
    }
    assert_eq!(rt; start_copy(&mut engine, 1), Ok(()));
    if engine.reserve(4).is_ok() {
        let other = engine.restart_from(rt.alloc(), by(3), &EMPTY);
        assert_eq!(rt; other, Err(RestartRefusal::Other { at: 6 }));
    }
    assert_eq!(rt; engine.entries(), 2);
    Ok(())
}

// Its worker is told to yield, and the item ends all the same.
#[test]
fn a_worker_of_a_paused_job_yields(rt: HostRuntime) -> Result<(), Fail> {
    let mut engine = small(&rt, 100)?;
    assert_eq!(rt; start_copy(&mut engine, 1), Ok(()));
    let task = hand_out(&mut engine, 1).map_err(|_| "an item is to do")?;
    if engine.reserve(1).is_ok() {
        assert_eq!(rt; engine.pause(by(4), job(1)), Ok(Told::Changed));
    }
    let go = end_first(&mut engine, &task, End::Whole);
    assert_eq!(rt; go, Some(Go::Yield));
    Ok(())
}

// Where its last item ends, neither the end of the phase nor the finish follows.
#[test]
fn a_cancelled_job_does_not_finish(rt: HostRuntime) -> Result<(), Fail> {
    let mut engine = Engine::new(rt.alloc(), Shape::new(2, 2, 1, 8), 1, 100)?;
    assert_eq!(rt; start_scan(&mut engine, 1), Ok(()));
    let task = hand_out(&mut engine, 8).map_err(|_| "an item is to do")?;
    assert_eq!(rt; task.count, 1);
    if engine.reserve(1).is_ok() {
        assert_eq!(rt; engine.cancel(by(4), job(1)), Ok(Told::Changed));
    }
    let go = end_first(&mut engine, &task, End::Whole);
    assert_eq!(rt; go, Some(Go::Yield));
    // a start, a hand-out, the order, a progress and an end
    assert_eq!(rt; engine.entries(), 5);
    let bytes = engine.checkpoint(rt.alloc())?;
    let none_active = [0x46, 0x4A, 0x43, 0x50, 1, 0, 1, 0];
    assert_eq!(rt; bytes.as_slice(), none_active.as_slice());
    Ok(())
}
