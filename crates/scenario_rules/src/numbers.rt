//! The rules of a table's numbers.

ghost use Rattle.std.specs.Prelude.{◌≡◌, ℕ, ℤ, pos, ◌≤◌, IfOk, IfErr, IfSome, IsSome};
ghost use Rattle.scenario_rules.specs.Numbers.{InRange, IsNumberFault, KeepsNumbers, shape_in, workers_in};
ghost use Rattle.scenario_table.specs.declared.draft.Draft.{Draft};

use crate::rule::Rule;
use domains::Shape;
use scenario_table::Draft;

/// The numbers of a table, within their limits.
#[derive(Clone, Copy)]
struct Numbers {
    unit: u32,
    nodes: u32,
    drives: u32,
    slots: u32,
    workers: u32,
}

/// The cluster's shape and the number of workers, or the first rule that the numbers break.
pub(crate) fn shape_of(draft: &Draft) -> Result<(Shape, u8), Rule>
    ensures kept { IfOk result (λ p. KeepsNumbers draft.now) }
    ensures shape { IfOk result (λ p. (p.0 ≡ shape_in draft.now) × (p.1 ≡ workers_in draft.now)) }
    ensures broken { IfErr result (IsNumberFault draft.now) }
{
    let Some(numbers) = numbers_of(draft) else {
        return Err(Rule::Range);
    };
    let all_drives = numbers.nodes * numbers.drives;
    if all_drives > 200 {
        return Err(Rule::Drives);
    }
    if u64::from(all_drives * numbers.slots) * u64::from(numbers.unit) > 1 << 30 {
        return Err(Rule::Space);
    }
    let shape = Shape::new(
        numbers.nodes as u8,
        numbers.drives as u8,
        numbers.slots as u16,
        numbers.unit,
    );
    Ok((shape, numbers.workers as u8))
}

/// The numbers, if each is within its limits.
fn numbers_of(draft: &Draft) -> Option<Numbers>
    ensures unit { IfSome result (λ n. (draft.now.unit ≡ pos n.unit) × (8 ≤ n.unit) × (n.unit ≤ 131072)) }
    ensures nodes { IfSome result (λ n. (draft.now.nodes ≡ pos n.nodes) × (1 ≤ n.nodes) × (n.nodes ≤ 32)) }
    ensures drives { IfSome result (λ n. (draft.now.drives ≡ pos n.drives) × (1 ≤ n.drives) × (n.drives ≤ 16)) }
    ensures slots { IfSome result (λ n. (draft.now.slots ≡ pos n.slots) × (1 ≤ n.slots) × (n.slots ≤ 4096)) }
    ensures workers { IfSome result (λ n. (draft.now.workers ≡ pos n.workers) × (1 ≤ n.workers) × (n.workers ≤ 16)) }
    ensures only { InRange draft.now → IsSome result }
{
    let unit = number_within(draft.unit, 8, 131_072)?;
    let nodes = number_within(draft.nodes, 1, 32)?;
    let drives = number_within(draft.drives, 1, 16)?;
    let slots = number_within(draft.slots, 1, 4_096)?;
    let workers = number_within(draft.workers, 1, 16)?;
    Some(Numbers {
        unit,
        nodes,
        drives,
        slots,
        workers,
    })
}

/// The number, if it is within these limits.
fn number_within(number: i64, least: u32, most: u32) -> Option<u32>
    ensures found { IfSome result (λ n. (number ≡ pos n) × (least ≤ n) × (n ≤ most)) }
    ensures only { (n : ℕ) → number ≡ pos n → least ≤ n → n ≤ most → IsSome result }
{
    let number = u32::try_from(number).ok()?;
    if least <= number && number <= most {
        Some(number)
    } else {
        None
    }
}
