//! Names of segments as JSON: `[M,S]`, a maker from 0 to 255 and a number from 0 to 2^32 - 1;
//! `null` where a segment has no next one. The value as which a name is written spells that name.

ghost use Rattle.std.specs.Prelude.{◌≡◌, Some, IfOk};
ghost use Rattle.serde_json.specs.View.{view};
ghost use Rattle.rd_trace.specs.Names.{segment_name_of, next_of, segment_name_data, next_data};

use rd_cell::SegName;
use serde_json::{Value, json};
use std::alloc::{AllocError, Global};

/// Returns the name of a segment that a JSON value spells; none if it spells none.
pub fn parse_segment_name(value: &Value) -> Option<SegName>
    ensures { result ≡ segment_name_of (view value.now) }
{
    let items = value.as_array()?;
    match items.as_slice() {
        [maker, n] => Some(SegName {
            maker: u8::try_from(maker.as_u64()?).ok()?,
            n: u32::try_from(n.as_u64()?).ok()?,
        }),
        _ => None,
    }
}

/// Returns the JSON value of a segment's name. Fails only if memory is refused.
pub fn segment_name_json(alloc: Global, name: SegName) -> Result<Value, AllocError>
    ensures value { IfOk result (λ value. view value ≡ segment_name_data name) }
    ensures spelled { segment_name_of (segment_name_data name) ≡ Some name }
{
    json!(in alloc; [name.maker, name.n])
}

/// Returns the JSON value of the next segment's name, or `null` for no next segment. Fails only if
/// memory is refused.
pub fn next_json(alloc: Global, next: Option<SegName>) -> Result<Value, AllocError>
    ensures value { IfOk result (λ value. view value ≡ next_data next) }
    ensures spelled { next_of (next_data next) ≡ Some next }
{
    match next {
        None => Ok(Value::Null),
        Some(name) => segment_name_json(alloc, name),
    }
}
