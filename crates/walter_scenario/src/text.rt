//! JSON, read from bytes.
ghost use Rattle.std.specs.Prelude.{◌≡◌, ◌≢◌, IsUtf8, IfOk, IfErr, IfSome, IfNone};
ghost use Rattle.serde_json.specs.Data.{Data, Members, object};
ghost use Rattle.serde_json.specs.Read.{read as reading};
ghost use Rattle.serde_json.specs.View.{view, members_view};
ghost use Rattle.walter_scenario.specs.Faults.{IfRefusedAt};

use crate::place::{Detail, Place, ReadFault};
use serde_json::{Map, Value};
use std::alloc::Global;

/// The value that the text is as JSON.
fn json_of(alloc: Global, text: &str) -> Result<Value, ReadFault>
    ensures ok { IfOk result (λ value. reading text.now ≡ Some (view value)) }
    ensures fault { IfErr result
        (IfRefusedAt (λ place. (place ≡ Place.Json) × (reading text.now ≡ None))) }
{
    match Value::from_str(alloc, text) {
        Ok(value) => Ok(value),
        Err(error) if error.is_memory() => Err(ReadFault::NoMemory),
        Err(error) => Err(ReadFault::Refused {
            place: Place::Json,
            detail: Detail::At {
                line: error.line(),
                column: error.column(),
            },
        }),
    }
}

/// The value that the bytes are as JSON. The bytes are let go.
pub fn value_of(alloc: Global, bytes: Vec<u8>) -> Result<Value, ReadFault>
    ensures ok { IfOk result
        (λ value. IsUtf8 bytes.items × (reading bytes.items ≡ Some (view value))) }
    ensures fault { IfErr result (IfRefusedAt (λ place. (place ≡ Place.Json)
        × ((value : Data) → IsUtf8 bytes.items → reading bytes.items ≢ Some value))) }
{
    let text = str::from_utf8(&bytes).ok().ok_or(Place::Json)?;
    json_of(alloc, text)
}

/// The members of an object.
pub fn members_of(value: &Value) -> Option<&Map<String, Value>>
    ensures some { IfSome result
        (λ members. view value.now ≡ object (members_view members.now.entries)) }
    ensures none { IfNone result ((members : Members) → view value.now ≢ object members) }
{
    value.as_object()
}
