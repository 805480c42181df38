//! The purpose of a run.
ghost use Rattle.run_stages.specs.Allowed.{IsAllowed};
ghost use Rattle.run_stages.specs.FromCapture.{work_of_plan};
ghost use Rattle.run_purpose.specs.Lawful.{IsLawfulRun, ends_lawful};
ghost use Rattle.run_purpose.specs.Keys.{renamed_allowed};

use capture_terms::Plan;
use key_directory::BelowCapacity;
use rule_matcher::Rules;
use store_meaning::Purpose;

/// The run of the workers over the tasks of a plan, for the findings of rules in the bytes of its capture's file.
///
/// It allows the records of the run's transactions alone, and finds the states lawful in which each task and each group
/// stands at one of its stages. A map holds the keys below its capacity, so that each of them is its own position.
#[derive(Drop)]
pub struct RunPurpose<'b> {
    pub plan: &'b Plan,
    pub rules: &'b Rules,
    pub bytes: &'b [u8],
}

impl<'b> Purpose for RunPurpose<'b> {
    type Keys = BelowCapacity;

    ghost lawful_state = { λ p s. IsLawfulRun (work_of_plan p.rules.now p.bytes.now p.plan.now) s };

    ghost allowed = { λ p dones. IsAllowed (work_of_plan p.rules.now p.bytes.now p.plan.now) dones };

    ghost ends_lawful = { λ p dones s t lawful allowed runs. ends_lawful (work_of_plan p.rules.now p.bytes.now p.plan.now) dones s t lawful allowed runs };

    ghost renamed = { λ p dones others same allowed. renamed_allowed (work_of_plan p.rules.now p.bytes.now p.plan.now) dones others same allowed };
}
