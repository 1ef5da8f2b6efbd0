//! Reading JSON.
ghost use Rattle.std.specs.Prelude.{◌≡◌, Some, None, IfOk, IsErrOf, option_and_then};
ghost use Rattle.std.specs.Option.{option_copied};
ghost use Rattle.serde_json.specs.Read.{read as read_text};
ghost use Rattle.serde_json.specs.Find.{get, as_str};
ghost use Rattle.serde_json.specs.View.{view};

use serde_json::Value;
use std::alloc::Global;
use thiserror::Error;

/// Why a text was not read.
#[derive(Clone, Copy, Debug, PartialEq, Eq, Error)]
pub enum JsonFault {
    /// `serde_json` does not take it: it is outside JSON's grammar, is nested more than 127 levels deep, has a string
    /// with a lone surrogate, or a number out of range.
    #[error("no JSON")]
    NotJson,
    /// Memory ran out; of the text nothing is known.
    #[error("out of memory")]
    NoMemory,
}

/// The value of a text. `NotJson` comes exactly where `serde_json` refuses the text for another cause than memory. Of
/// members of an object that have one name the last one stands.
pub fn parse(alloc: Global, text: &str) -> Result<Value, JsonFault>
    ensures read { IfOk result (λ value. read_text text.now ≡ Some (view value)) }
    ensures not_json { IsErrOf result JsonFault.NotJson → read_text text.now ≡ None }
{
    match Value::from_str(alloc, text) {
        Ok(value) => Ok(value),
        Err(error) if error.is_memory() => Err(JsonFault::NoMemory),
        Err(_) => Err(JsonFault::NotJson),
    }
}

/// The text of the member of that name. `None` comes exactly where the value is no object, has no such member, or has
/// one that is no string.
pub fn text_field<'v>(value: &'v Value, name: &str) -> Option<&'v str>
    ensures { option_copied result ≡ option_and_then as_str (get name.now (view value.now)) }
{
    value.get(name)?.as_str()
}
