//! Takes a table apart, key by key in their order.

ghost use Rattle.std.specs.Prelude.{◌≡◌, ℕ, ℤ, ◌↔◌, IsTrue, IfSome, IsSome, IsSomeAnd, Some, string_bytes, List};
ghost use Rattle.toml.specs.Data.{Data, Items, Members, string, integer, array, table, no_members, member};
ghost use Rattle.toml.specs.View.{view, array_view, table_view};
ghost use Rattle.scenario_table.specs.Parts.{IsNumberOr};

use toml::value::Array;
use toml::{Table, Value};

/// Takes the first key with its value, if it is this one.
pub(crate) fn take_key(members: &mut Table, key: &str) -> Option<Value>
    ensures found { IfSome result (λ v. table_view members.old ≡ member key.now (view v) (table_view members.new)) }
    ensures only { (d : Data) (rest : Members) → table_view members.old ≡ member key.now d rest → IsSomeAnd result (λ v. (view v ≡ d) × (table_view members.new ≡ rest)) }
{
    if is_first(members, key) {
        let (_, value) = members.pop_first()?;
        Some(value)
    } else {
        None
    }
}

/// Whether the key is the first one of the table.
pub(crate) fn is_first(members: &Table, key: &str) -> bool
    ensures found { IsTrue result → (d : Data) × (rest : Members) × (table_view members.now ≡ member key.now d rest) }
    ensures none { (d : Data) (rest : Members) → table_view members.now ≡ member key.now d rest → IsTrue result }
{
    match members.first_key_value() {
        Some((first, _)) => first.as_str() == key,
        None => false,
    }
}

/// Takes the first key's number, if the key is this one and its value a number.
pub(crate) fn take_number(members: &mut Table, key: &str) -> Option<i64>
    ensures found { IfSome result (λ n. table_view members.old ≡ member key.now (integer n) (table_view members.new)) }
    ensures only { (n : ℤ) (rest : Members) → table_view members.old ≡ member key.now (integer n) rest → IsSomeAnd result (λ m. (m ≡ n) × (table_view members.new ≡ rest)) }
{
    let value = take_key(members, key)?;
    number_of(&value)
}

/// The number that the value is.
fn number_of(value: &Value) -> Option<i64>
    ensures found { IfSome result (λ n. view value.now ≡ integer n) }
    ensures only { (n : ℤ) → view value.now ≡ integer n → result ≡ Some n }
{
    value.as_integer()
}

/// Takes the first key's number, if the key is this one and its value a number.
/// Where the first key is another one, the number is this default.
pub(crate) fn take_number_or(members: &mut Table, key: &str, default: i64) -> Option<i64>
    ensures found { IfSome result (λ n. IsNumberOr key.now default n (table_view members.old) (table_view members.new)) }
    ensures only { (n : ℤ) (rest : Members) → IsNumberOr key.now default n (table_view members.old) rest → IsSomeAnd result (λ m. (m ≡ n) × (table_view members.new ≡ rest)) }
{
    if is_first(members, key) {
        take_number(members, key)
    } else {
        Some(default)
    }
}

/// The end of a table that has no key.
pub(crate) fn end_of(members: &Table) -> Option<()>
    ensures { IsSome result ↔ (table_view members.now ≡ no_members) }
{
    if members.is_empty() { Some(()) } else { None }
}

/// The table that the value is.
pub(crate) fn into_table(value: Value) -> Option<Table>
    ensures found { IfSome result (λ t. view value ≡ table (table_view t)) }
    ensures only { (ms : Members) → view value ≡ table ms → IsSomeAnd result (λ t. table_view t ≡ ms) }
{
    match value {
        Value::Table(members) => Some(members),
        _ => None,
    }
}

/// The array that the value is.
pub(crate) fn into_array(value: Value) -> Option<Array>
    ensures found { IfSome result (λ a. view value ≡ array (array_view a)) }
    ensures only { (ds : Items) → view value ≡ array ds → IsSomeAnd result (λ a. array_view a ≡ ds) }
{
    match value {
        Value::Array(items) => Some(items),
        _ => None,
    }
}

/// The text that the value is.
pub(crate) fn into_string(value: Value) -> Option<String>
    ensures found { IfSome result (λ s. view value ≡ string (string_bytes s)) }
    ensures only { (bytes : List ℕ) → view value ≡ string bytes → IsSomeAnd result (λ s. string_bytes s ≡ bytes) }
{
    match value {
        Value::String(text) => Some(text),
        _ => None,
    }
}
