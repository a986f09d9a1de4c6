//! Which calls of a device in memory fail.

ghost use Rattle.std.specs.Prelude.{◌≡◌, ◌≤◌, ◌==◌};
ghost use Rattle.std.specs.List.{list_any};
ghost use Rattle.flex_io.specs.Calls.{planned, next_fails, after_next};

use lists::List;
use std::marker::Model;

/// The numbers of the calls that fail, with the counts of those made and of those that failed.
#[derive(Drop)]
pub(crate) struct FailPlan {
    fails: List<u32>,
    made: u64,
    failed: u64,
}

impl Model for FailPlan {
    ghost use Rattle.flex_io.specs.Calls.{Calls};

    ghost Value = { Calls };

    ghost view = { λ p. record { fails = p.fails; made = p.made; failed = p.failed } };
}

impl FailPlan {
    /// A plan by which the calls of these numbers fail, counted from 1.
    pub(crate) fn new(fails: List<u32>) -> Self
        ensures { result ≡ planned fails }
    {
        FailPlan {
            fails,
            made: 0,
            failed: 0,
        }
    }

    /// Counts the next call, and answers whether it fails.
    pub(crate) fn call(&mut self) -> bool
        ensures value { result ≡ next_fails self.old }
        ensures counted { self.new ≡ after_next self.old }
        ensures never_falls { self.old.failed ≤ self.new.failed }
    {
        self.made = self.made.saturating_add(1);
        let fails = is_among(self.made, self.fails.as_slice());
        if fails {
            self.failed = self.failed.saturating_add(1);
        }
        fails
    }
}

fn is_among(number: u64, numbers: &[u32]) -> bool
    ensures { result ≡ list_any (λ each. each == number) numbers.now }
{
    numbers.iter().any(|each| u64::from(*each) == number)
}
