//! The members of JSON objects, and their number.

ghost use Rattle.std.specs.Prelude.{◌≡◌, option_map};
ghost use Rattle.serde_json.specs.View.{view, items_view};
ghost use Rattle.rd_trace.specs.Numbers.{member_count, number_at, items_at};

use serde_json::Value;

/// Returns the number of members of a JSON object; none for any other value.
#[tactic(auto, using(crate::proofs::NumberLemmas::member_count))]
pub fn member_count(value: &Value) -> Option<usize>
    ensures { result ≡ member_count (view value.now) }
{
    Some(value.as_object()?.len())
}

/// Returns the whole number from 0 to 2^64 - 1 at a key of an object; none if it has none there.
pub fn number_at(value: &Value, key: &str) -> Option<u64>
    ensures { result ≡ number_at key.now (view value.now) }
{
    value.get(key).and_then(Value::as_u64)
}

/// Returns the JSON values of the list at a key of an object; none if it has no list there.
pub fn items_at<'a>(value: &'a Value, key: &str) -> Option<&'a Vec<Value>>
    ensures { option_map (λ list. items_view list.now.items) result
        ≡ items_at key.now (view value.now) }
{
    value.get(key).and_then(Value::as_array)
}
