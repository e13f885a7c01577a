// Copies of what comes in and of what goes out.
ghost use Rattle.std.specs.Prelude.{◌≡◌, IfOk};

use crate::{NoMemory, Took};
use hrana_value::{Duplicate, Txt};
use http_wire::{HttpAnswer, HttpAsk, Out, Outs};
use std::alloc::Global;

fn copy_optional(alloc: Global, text: &Option<Txt>) -> Result<Option<Txt>, NoMemory>
    ensures { IfOk result (λ copy. copy ≡ text.now) }
{
    match text {
        Some(text) => Ok(Some(text.copy(alloc)?)),
        None => Ok(None),
    }
}

fn copy_ask(alloc: Global, ask: &HttpAsk) -> Result<HttpAsk, NoMemory>
    ensures { IfOk result (λ copy. copy ≡ ask.now) }
{
    Ok(HttpAsk {
        method: ask.method,
        path: ask.path.copy(alloc)?,
        bearer: copy_optional(alloc, &ask.bearer)?,
        body: ask.body.copy(alloc)?,
        close: ask.close,
    })
}

impl Duplicate for Took {
    fn copy(&self, alloc: Global) -> Result<Took, NoMemory> {
        match self {
            Took::Opened => Ok(Took::Opened),
            Took::Text(text) => Ok(Took::Text(text.copy(alloc)?)),
            Took::Binary => Ok(Took::Binary),
            Took::Exchange(ask) => Ok(Took::Exchange(copy_ask(alloc, ask)?)),
            Took::Refused(fail) => Ok(Took::Refused(*fail)),
            Took::NotYet => Ok(Took::NotYet),
            Took::Gone => Ok(Took::Gone),
        }
    }
}

fn copy_out(alloc: Global, out: &Out) -> Result<Out, NoMemory>
    ensures { IfOk result (λ copy. copy ≡ out.now) }
{
    match out {
        Out::Message(text) => Ok(Out::Message(text.copy(alloc)?)),
        Out::Answer(answer) => Ok(Out::Answer(HttpAnswer {
            status: answer.status,
            allow: answer.allow,
            body: answer.body.copy(alloc)?,
            close: answer.close,
        })),
    }
}

pub(crate) fn copy_outs(alloc: Global, outs: &Outs) -> Result<Outs, NoMemory>
    ensures { IfOk result (λ copy. copy ≡ outs.now) }
{
    let out = match &outs.out {
        Some(out) => Some(copy_out(alloc, out)?),
        None => None,
    };
    Ok(Outs {
        conn: outs.conn,
        out,
        close: outs.close,
    })
}
