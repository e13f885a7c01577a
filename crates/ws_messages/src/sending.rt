// Messages as JSON text.
ghost use Rattle.std.specs.Prelude.{OnOk};
ghost use Rattle.serde_json.specs.Events.{SendsValue};
ghost use Rattle.hrana_value.specs.Whole.{IsWhole};
ghost use Rattle.ws_messages.specs.Client.{HasClientForm, ClientTree};
ghost use Rattle.ws_messages.specs.Server.{HasServerForm, ServerTree};
ghost use Rattle.ws_messages.specs.WrittenClient.{client_data, ClientReadsBack};
ghost use Rattle.ws_messages.specs.WrittenServer.{server_data, ServerReadsBack};

use crate::request_text::{send_id, send_request};
use crate::{ClientMsg, Kind, ServerMsg, WsRequest, kind_name};
use hrana_stmt::{WireError, send_optional_text};
use hrana_value::{JsonText, Txt, end_with_text, send_text_member};
use serde::Serializer;
use std::alloc::Global;
use stream_requests::{Reply, send_error_as, send_response};

// ---- messages of a client

fn send_hello<S: Serializer>(jwt: &Option<Txt>, out: &mut S) -> Result<(), S::Error>
    ensures sends { OnOk result (SendsValue (client_data (ClientMsg.Hello jwt.now)) (S.written out.old) (S.written out.new)) }
    ensures whole { OnOk result (IsWhole (client_data (ClientMsg.Hello jwt.now))) }
{
    out.begin_map(Some(2))?;
    out.key("jwt")?;
    send_optional_text(jwt, out)?;
    end_with_text("type", "hello", out)
}

fn send_numbered<S: Serializer>(
    alloc: Global,
    request_id: i32,
    request: &WsRequest,
    out: &mut S,
) -> Result<(), S::Error>
    ensures sends { OnOk result (SendsValue (client_data (ClientMsg.Request request_id request.now)) (S.written out.old) (S.written out.new)) }
    ensures whole { OnOk result (IsWhole (client_data (ClientMsg.Request request_id request.now))) }
    ensures back { OnOk result (ClientReadsBack (ClientMsg.Request request_id request.now)) }
{
    out.begin_map(Some(3))?;
    out.key("request")?;
    send_request(alloc, request, out)?;
    send_id("request_id", request_id, out)?;
    end_with_text("type", "request", out)
}

impl JsonText for ClientMsg {
    ghost form = { client_data };

    ghost tree = { λ m t. HasClientForm m → ClientTree m t };

    fn send<S: Serializer>(&self, alloc: Global, out: &mut S) -> Result<(), S::Error> {
        match self {
            ClientMsg::Hello { jwt } => send_hello(jwt, out),
            ClientMsg::Request {
                request_id,
                request,
            } => send_numbered(alloc, *request_id, request, out),
        }
    }
}

// ---- messages of the server

fn send_ok<S: Serializer>(
    alloc: Global,
    request_id: i32,
    kind: Kind,
    reply: &Reply,
    out: &mut S,
) -> Result<(), S::Error>
    ensures sends { OnOk result (SendsValue (server_data (ServerMsg.Ok request_id kind reply.now)) (S.written out.old) (S.written out.new)) }
    ensures whole { OnOk result (IsWhole (server_data (ServerMsg.Ok request_id kind reply.now))) }
    ensures back { OnOk result (ServerReadsBack (ServerMsg.Ok request_id kind reply.now)) }
{
    out.begin_map(Some(3))?;
    send_id("request_id", request_id, out)?;
    out.key("response")?;
    send_response(alloc, kind_name(kind), reply, out)?;
    end_with_text("type", "response_ok", out)
}

fn send_refusal<S: Serializer>(
    alloc: Global,
    request_id: i32,
    error: &WireError,
    out: &mut S,
) -> Result<(), S::Error>
    ensures sends { OnOk result (SendsValue (server_data (ServerMsg.Error request_id error.now)) (S.written out.old) (S.written out.new)) }
    ensures whole { OnOk result (IsWhole (server_data (ServerMsg.Error request_id error.now))) }
    ensures back { OnOk result (ServerReadsBack (ServerMsg.Error request_id error.now)) }
{
    out.begin_map(Some(3))?;
    out.key("error")?;
    error.send(alloc, out)?;
    send_id("request_id", request_id, out)?;
    end_with_text("type", "response_error", out)
}

impl JsonText for ServerMsg {
    ghost form = { server_data };

    ghost tree = { λ m t. HasServerForm m → ServerTree m t };

    fn send<S: Serializer>(&self, alloc: Global, out: &mut S) -> Result<(), S::Error> {
        match self {
            ServerMsg::HelloOk => send_text_member("type", "hello_ok", out),
            ServerMsg::HelloError(error) => send_error_as(alloc, "hello_error", error, out),
            ServerMsg::Ok {
                request_id,
                kind,
                reply,
            } => send_ok(alloc, *request_id, *kind, reply, out),
            ServerMsg::Error { request_id, error } => send_refusal(alloc, *request_id, error, out),
        }
    }
}
