//! Laws of the rules, as contracts of functions with empty bodies.

ghost use Rattle.std.specs.Prelude.{◌≡◌, ◌≤◌, true, false, List, length, Some, None};
ghost use Rattle.std.specs.List.{AllByRecursion, filter};
ghost use Rattle.job_rules.specs.Rank.{AreApart, share};
ghost use Rattle.job_rules.specs.Why.{is_other_out, view_of, why};
ghost use Rattle.job_rules.specs.declared.rank.JobView.{JobView};

/// A job that does not wait shares no set with another that has items out, and at most two others have.
pub fn a_job_that_does_not_wait_runs_beside_the_others()
    ensures exclusive { (jobs : List JobView) (own : JobView) → AreApart jobs → view_of own.job jobs ≡ Some own → why jobs own.job ≡ None
        → AllByRecursion (λ v. is_other_out own v ≡ true → share v own ≡ false) jobs }
    ensures few { (jobs : List JobView) (own : JobView) → AreApart jobs → view_of own.job jobs ≡ Some own → why jobs own.job ≡ None
        → length (filter (is_other_out own) jobs) ≤ 2 }
{}
