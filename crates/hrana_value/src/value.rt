ghost use Rattle.std.specs.Prelude.{◌≡◌, IfOk};

use crate::{Bytes, Duplicate, List, NoMemory, Txt};
use std::alloc::Global;

/// A value of a statement's argument or of a row.
#[derive(Debug, Drop)]
pub enum Value {
    Null,
    Integer(i64),
    Text(Txt),
    Blob(Bytes),
}

impl Value {
    pub fn copy(&self, alloc: Global) -> Result<Value, NoMemory>
        ensures { IfOk result (λ v. v ≡ self.now) }
    {
        match self {
            Value::Null => Ok(Value::Null),
            Value::Integer(number) => Ok(Value::Integer(*number)),
            Value::Text(text) => Ok(Value::Text(text.copy(alloc)?)),
            Value::Blob(bytes) => Ok(Value::Blob(bytes.copy(alloc)?)),
        }
    }
}

impl Duplicate for Value {
    fn copy(&self, alloc: Global) -> Result<Value, NoMemory> {
        Value::copy(self, alloc)
    }
}

/// A list of values.
pub type Values = List<Value>;
