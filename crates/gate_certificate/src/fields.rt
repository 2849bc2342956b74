//! Numbers and lists in JSON values.

ghost use Rattle.std.specs.Prelude.{◌≡◌, option_map, option_and_then};
ghost use Rattle.serde_json.specs.Find.{get, as_array};
ghost use Rattle.serde_json.specs.View.{view, items_view};
ghost use Rattle.gate_certificate.specs.Format.{data_number, number_at};

use serde_json::Value;

/// The greatest number that a certificate may hold.
pub const MAX_NUMBER: u64 = 4_294_967_295;

/// A number in 0..=[`MAX_NUMBER`]; `None` for any other value.
pub fn number_in(value: &Value) -> Option<u32>
    ensures { result ≡ data_number (view value.now) }
{
    match value.as_u64() {
        Some(number) if number <= MAX_NUMBER => Some(number as u32),
        _ => None,
    }
}

/// The number in a field.
pub fn number_at(name: &str, value: &Value) -> Option<u32>
    ensures { result ≡ number_at name.now (view value.now) }
{
    match value.get(name) {
        Some(found) => number_in(found),
        None => None,
    }
}

/// The list in a field.
pub fn list_at<'a>(name: &str, value: &'a Value) -> Option<&'a [Value]>
    ensures { option_map (λ l. items_view l.now) result ≡ option_and_then as_array (get name.now (view value.now)) }
{
    match value.get(name) {
        Some(Value::Array(items)) => Some(items.as_slice()),
        _ => None,
    }
}
