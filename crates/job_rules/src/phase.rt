//! The phases of jobs, and what they go over.

ghost use Rattle.std.specs.Prelude.{◌≡◌, Some, IfSome};
ghost use Rattle.job_rules.specs.Phases.{items_of, phase_name};

/// A phase of a job.
#[derive(Clone, Copy, Debug, PartialEq, Eq)]
pub enum Phase {
    Repair,
    Verify,
    Release,
    Balance,
    Apply,
    Mark,
    Sweep,
    Rewrite,
    Check,
    Scan,
    Pool,
    Copy,
}

/// What the items of a phase are.
#[derive(Clone, Copy, Debug, PartialEq, Eq)]
pub enum Items {
    /// All files, in the order of the scenario.
    Files,
    /// The drives that the job bars, in ascending order.
    BarredDrives,
    /// All drives of the cluster, in ascending order.
    Drives,
}

impl Phase {
    pub fn items(self) -> Items
        ensures { result ≡ items_of self }
    {
        match self {
            Phase::Release => Items::BarredDrives,
            Phase::Sweep => Items::Drives,
            Phase::Repair
            | Phase::Verify
            | Phase::Balance
            | Phase::Apply
            | Phase::Mark
            | Phase::Rewrite
            | Phase::Check
            | Phase::Scan
            | Phase::Pool
            | Phase::Copy => Items::Files,
        }
    }

    /// Its name in reports.
    pub fn name(self) -> &'static str
        ensures { result.now ≡ phase_name self }
    {
        match self {
            Phase::Repair => "repair",
            Phase::Verify => "verify",
            Phase::Release => "release",
            Phase::Balance => "balance",
            Phase::Apply => "apply",
            Phase::Mark => "mark",
            Phase::Sweep => "sweep",
            Phase::Rewrite => "rewrite",
            Phase::Check => "check",
            Phase::Scan => "scan",
            Phase::Pool => "pool",
            Phase::Copy => "copy",
        }
    }

    /// The phase of this name. A text that is no name has none.
    pub fn read(text: &str) -> Option<Phase>
        ensures found { IfSome result (λ phase. phase_name phase ≡ text.now) }
        ensures only { (phase : Phase) → phase_name phase ≡ text.now → result ≡ Some phase }
    {
        match text {
            "repair" => Some(Phase::Repair),
            "verify" => Some(Phase::Verify),
            "release" => Some(Phase::Release),
            "balance" => Some(Phase::Balance),
            "apply" => Some(Phase::Apply),
            "mark" => Some(Phase::Mark),
            "sweep" => Some(Phase::Sweep),
            "rewrite" => Some(Phase::Rewrite),
            "check" => Some(Phase::Check),
            "scan" => Some(Phase::Scan),
            "pool" => Some(Phase::Pool),
            "copy" => Some(Phase::Copy),
            _ => None,
        }
    }
}
