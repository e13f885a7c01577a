// Values as JSON trees.
ghost use Rattle.std.specs.Prelude.{◌≡◌, IfOk};
ghost use Rattle.serde_json.specs.View.{view};
ghost use Rattle.hrana_value.specs.Written.{value_data};
ghost use Rattle.hrana_value.specs.Tree.{ValueTree};

use crate::{NoMemory, Value, json_of};
use serde_json::Value as Json;
use std::alloc::Global;

/// Writes a value with its members in byte order, and a blob with its padding.
pub fn value_to_json(alloc: Global, value: &Value) -> Result<Json, NoMemory>
    ensures written { IfOk result (λ json. view json ≡ value_data value.now) }
    ensures reads_back { IfOk result (λ json. ValueTree value.now (view json)) }
{
    json_of(alloc, value)
}
