//! The rules on the worked examples of docs/FORMATS.md, "Jobs".

ghost use Rattle.std.specs.Prelude.{◌≡◌, ◌≢◌};
ghost use Rattle.job_rules.specs.Kinds.{priority_of};

use job_rules::{Items, JobId, JobKind, JobView, Phase, Waits, chosen, shares, why};
use std::test::Fail;

const KINDS: [JobKind; 10] = [
    JobKind::FlexProtect,
    JobKind::AutoBalance,
    JobKind::SetProtectPlus,
    JobKind::Collect,
    JobKind::MultiScan,
    JobKind::Upgrade,
    JobKind::IntegrityScan,
    JobKind::MediaScan,
    JobKind::SmartPools,
    JobKind::SyncCopy,
];

fn job(number: u16) -> JobId
    ensures { result ≡ record { number = number } }
{
    JobId { number }
}

/// The job of this number, started in that place, with the default priority of its kind.
fn view(number: u16, kind: JobKind, by_user: bool, out: u32) -> JobView
    ensures { result ≡ record { job = record { number = number }; kind = kind; priority = priority_of kind; started = number; by_user = by_user; out = out } }
{
    JobView {
        job: job(number),
        kind,
        priority: kind.default_priority(),
        started: u32::from(number),
        by_user,
        out,
    }
}

// A row for each kind, in the order of the table: x where the two share a set.
#[test]
fn kinds_share_by_their_sets(rt: HostRuntime) -> Result<(), Fail> {
    let table = [
        "xxx.x..xx.",
        "xxx.x..xx.",
        "xxx.x..xx.",
        "...xx.x...",
        "xxxxx.xxx.",
        "..........",
        "...xx.x...",
        "xxx.x..xx.",
        "xxx.x..xx.",
        "..........",
    ];
    for (one, row) in KINDS.iter().zip(table) {
        for (other, mark) in KINDS.iter().zip(row.as_bytes()) {
            assert_eq!(rt; shares(one.sets(), other.sets()), *mark == b'x');
        }
    }
    Ok(())
}

#[test]
fn names_and_codes_read_back(rt: HostRuntime) -> Result<(), Fail> {
    let mut code: u8 = 0;
    for kind in KINDS {
        assert_eq!(rt; kind.code(), code);
        assert_eq!(rt; JobKind::of_code(code), Some(kind));
        assert_eq!(rt; JobKind::read(kind.name()), Some(kind));
        code = code.wrapping_add(1);
    }
    assert_eq!(rt; JobKind::of_code(10), None);
    assert_eq!(rt; JobKind::read("Upgrade "), None);
    assert_eq!(rt; Phase::read("sweep"), Some(Phase::Sweep));
    assert_eq!(rt; Phase::Release.items(), Items::BarredDrives);
    assert_eq!(rt; JobKind::MultiScan.phase(2), Some(Phase::Sweep));
    assert_eq!(rt; JobKind::MultiScan.phase(3), None);
    Ok(())
}

#[test]
fn jobs_wait_by_user_by_exclusion_and_by_count(rt: HostRuntime) -> Result<(), Fail> {
    let five = [
        view(1, JobKind::AutoBalance, false, 0),
        view(2, JobKind::Collect, false, 0),
        view(3, JobKind::Upgrade, false, 0),
        view(4, JobKind::Upgrade, false, 0),
        view(5, JobKind::MultiScan, false, 0),
    ];
    let kept = chosen(&five);
    assert!(rt; kept.has(job(3)) && kept.has(job(4)) && kept.has(job(1)) && !kept.has(job(2)));
    assert_eq!(rt;
        why(&five, job(2)),
        Some(Waits::ByCount([job(3), job(4), job(1)]))
    );
    assert_eq!(rt; why(&five, job(5)), Some(Waits::ByExclusion(job(1))));
    assert_eq!(rt; why(&five, job(3)), None);
    let two = [
        view(1, JobKind::AutoBalance, false, 1),
        view(2, JobKind::FlexProtect, false, 0),
    ];
    assert_eq!(rt; why(&two, job(1)), Some(Waits::ByExclusion(job(2))));
    assert_eq!(rt; why(&two, job(2)), Some(Waits::ByExclusion(job(1))));
    Ok(())
}
