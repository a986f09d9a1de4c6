//! The operations of all scripts, in the order in which one thread does them.

ghost use Rattle.std.specs.Prelude.{◌≡◌, ◌<◌, ◌≤◌, ◌^◌, ◌++◌, length, map, IfOk, OnOk};
ghost use Rattle.std.specs.List.{AllByRecursion};
ghost use Rattle.serial_order.specs.SerialOrder.{longest, round_of, serial_order};

use domains::By;
use lists::List;
use std::alloc::{AllocError, Global};

/// The operations of all scripts in serial order: in each round every actor that has operations left does its next one, actor
/// by actor (docs/DEFINITIONS.md, "Scenarios and reports").
pub fn serial_order<T>(alloc: Global, scripts: &[List<T>]) -> Result<List<By>, AllocError>
    requires actors { length scripts.now ≤ 255 }
    requires calls { AllByRecursion (λ script. length script < 2 ^ 32) scripts.now }
    ensures { IfOk result (λ order. order ≡ serial_order (map length scripts.now)) }
{
    let mut order = Vec::new(alloc);
    for round in 0..longest(scripts) {
        push_round(scripts, round + 1, &mut order)?;
    }
    Ok(List::from_vec(order))
}

/// The length of the longest script.
fn longest<T>(scripts: &[List<T>]) -> u32
    requires { AllByRecursion (λ script. length script < 2 ^ 32) scripts.now }
    ensures { result ≡ longest (map length scripts.now) }
{
    let [script, rest @ ..] = scripts else {
        return 0;
    };
    (script.len() as u32).max(longest(rest))
}

/// Adds the operations of the round of this number.
fn push_round<T>(scripts: &[List<T>], call: u32, order: &mut Vec<By>) -> Result<(), AllocError>
    requires { length scripts.now ≤ 255 }
    ensures { OnOk result (order.new.items ≡ order.old.items ++ round_of (map length scripts.now) 1 call) }
{
    let mut actor = 0;
    for script in scripts {
        actor += 1;
        if script.len() >= call as usize {
            order.push(By { actor, call })?;
        }
    }
    Ok(())
}
