// What an event gives.
ghost use Rattle.std.specs.Prelude.{◌≡◌, IfOk, Some, None};
ghost use Rattle.hrana_stmt.specs.Codes.{error_of};
ghost use Rattle.ws_messages.specs.Server.{HasServerForm, answering};
ghost use Rattle.hrana_hub.specs.Arrivals.{nothing, text_of, tells, refusal};
ghost use Rattle.hrana_hub.specs.Exchanges.{answers_with, empty_503};

use hrana_stmt::{Code, wire_error};
use hrana_value::NoMemory;
use http_wire::{HttpAnswer, Out, Outs};
use pipeline_body::empty_answer;
use std::alloc::Global;
use stream_requests::Reply;
use ws_messages::{ServerMsg, encode_server};

pub(crate) fn nothing() -> Outs
    ensures { result ≡ nothing }
{
    Outs {
        conn: 0,
        out: None,
        close: None,
    }
}

/// An answer to the exchange that came in on the connection.
pub(crate) fn answers_with(conn: u32, answer: HttpAnswer) -> Outs
    ensures { result ≡ answers_with conn answer }
{
    Outs {
        conn,
        out: Some(Out::Answer(answer)),
        close: None,
    }
}

/// There was no memory for an exchange. Takes none.
pub(crate) fn without_memory(alloc: Global, conn: u32, close: bool) -> Outs
    ensures { result ≡ empty_503 conn close }
{
    answers_with(conn, empty_answer(alloc, 503, None, close))
}

/// A message to the connection, which stays open.
pub(crate) fn tells(alloc: Global, conn: u32, message: &ServerMsg) -> Result<Outs, NoMemory>
    requires { HasServerForm message.now }
    ensures { IfOk result (λ outs. outs ≡ tells conn message.now) }
{
    let text = encode_server(alloc, message)?;
    Ok(Outs {
        conn,
        out: Some(Out::Message(text)),
        close: None,
    })
}

/// A hello is accepted.
pub(crate) fn welcomes(alloc: Global, conn: u32) -> Result<Outs, NoMemory>
    ensures { IfOk result (λ outs. outs ≡ tells conn ServerMsg.HelloOk) }
{
    tells(alloc, conn, &ServerMsg::HelloOk)
}

/// What a connection is told whose hello isn't accepted.
pub(crate) fn not_welcome(alloc: Global) -> Result<Out, NoMemory>
    ensures { IfOk result (λ out. out ≡ Out.Message (text_of (ServerMsg.HelloError (error_of Code.Auth)))) }
{
    let error = wire_error(alloc, Code::Auth)?;
    let text = encode_server(alloc, &ServerMsg::HelloError(error))?;
    Ok(Out::Message(text))
}

/// The reply to a request.
pub(crate) fn answers(
    alloc: Global,
    conn: u32,
    request_id: i32,
    reply: Reply,
) -> Result<Outs, NoMemory>
    ensures { IfOk result (λ outs. outs ≡ tells conn (answering request_id reply)) }
{
    tells(alloc, conn, &ServerMsg::answering(request_id, reply))
}

/// The refusal of a request.
pub(crate) fn refuses(
    alloc: Global,
    conn: u32,
    request_id: i32,
    code: Code,
) -> Result<Outs, NoMemory>
    ensures { IfOk result (λ outs. outs ≡ tells conn (refusal request_id code)) }
{
    let error = wire_error(alloc, code)?;
    tells(alloc, conn, &ServerMsg::Error { request_id, error })
}
