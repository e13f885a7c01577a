ghost use Rattle.std.specs.Prelude.{◌≡◌, IfOk};
ghost use Rattle.hrana_stmt.specs.Codes.{error_of};

use crate::{Code, code_message, code_name};
use hrana_value::{Duplicate, NoMemory, Txt};
use std::alloc::Global;

/// An error as it is sent.
#[derive(Debug, Drop)]
pub struct WireError {
    pub message: Txt,
    pub code: Option<Txt>,
}

impl Duplicate for WireError {
    fn copy(&self, alloc: Global) -> Result<WireError, NoMemory> {
        let message = self.message.copy(alloc)?;
        let code = match &self.code {
            Some(code) => Some(code.copy(alloc)?),
            None => None,
        };
        Ok(WireError { message, code })
    }
}

/// The error of a code.
pub fn wire_error(alloc: Global, code: Code) -> Result<WireError, NoMemory>
    ensures { IfOk result (λ e. e ≡ error_of code) }
{
    let message = Txt::new(alloc, code_message(code))?;
    let name = Txt::new(alloc, code_name(code))?;
    Ok(WireError {
        message,
        code: Some(name),
    })
}
