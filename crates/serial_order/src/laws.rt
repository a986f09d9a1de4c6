//! Laws of the serial order, as contracts of functions with empty bodies.

ghost use Rattle.std.specs.Prelude.{◌≡◌, ℕ, List};
ghost use Rattle.std.specs.List.{AllByRecursion};
ghost use Rattle.serial_order.specs.SerialOrder.{AreAscending, IsOperation, calls_of, numbers_to, operations_of, serial_order};

/// Each actor does its operations, each once, from the first to the last.
pub fn each_actor_follows_its_script()
    ensures { (lengths : List ℕ) (actor : ℕ) → calls_of actor (serial_order lengths) ≡ numbers_to (operations_of lengths actor) }
{}

/// Whoever is due has an operation of this number.
pub fn each_is_an_operation()
    ensures { (lengths : List ℕ) → AllByRecursion (IsOperation lengths) (serial_order lengths) }
{}

/// Each operation is earlier than all that follow it in the order.
pub fn the_order_ascends()
    ensures { (lengths : List ℕ) → AreAscending (serial_order lengths) }
{}
