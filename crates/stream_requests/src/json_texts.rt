// JSON trees of bytes.
ghost use Rattle.std.specs.Prelude.{IfOk, MatchOption};
ghost use Rattle.serde_json.specs.View.{view};
ghost use Rattle.stream_requests.specs.JsonTexts.{IsJson, IsNoJson};

use hrana_value::NoMemory;
use serde_json::Value as Json;
use std::alloc::Global;

/// The tree of bytes that are JSON in UTF-8, and none of others.
pub fn json_of_bytes(alloc: Global, bytes: &[u8]) -> Result<Option<Json>, NoMemory>
    ensures { IfOk result (λ tree. MatchOption tree (IsNoJson bytes.now) (λ json. IsJson bytes.now (view json))) }
{
    match Json::from_slice(alloc, bytes) {
        Ok(json) => Ok(Some(json)),
        Err(error) => {
            if error.is_memory() {
                Err(NoMemory)
            } else {
                Ok(None)
            }
        }
    }
}
