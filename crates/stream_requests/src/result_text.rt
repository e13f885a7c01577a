// Results of pipelines as JSON text.
ghost use Rattle.std.specs.Prelude.{OnOk};
ghost use Rattle.serde_json.specs.Events.{SendsValue};
ghost use Rattle.hrana_value.specs.Whole.{IsWhole};
ghost use Rattle.stream_requests.specs.Replies.{ReplyReadsBack};
ghost use Rattle.stream_requests.specs.Results.{IsPipelineReply, ResultTree};
ghost use Rattle.stream_requests.specs.WrittenResults.{response_object, response_data, replied_data, result_data};

use crate::{Reply, ask_kind_name, reply_member_count, send_error_as, send_reply};
use hrana_batch::begin_with;
use hrana_value::{JsonText, end_with_text};
use serde::Serializer;
use std::alloc::Global;

/// Sends a response with this `type`.
pub fn send_response<S: Serializer>(
    alloc: Global,
    kind: &str,
    reply: &Reply,
    out: &mut S,
) -> Result<(), S::Error>
    ensures sends { OnOk result (SendsValue (response_object reply.now kind.now) (S.written out.old) (S.written out.new)) }
    ensures whole { OnOk result (IsWhole (response_object reply.now kind.now)) }
    ensures back { OnOk result (ReplyReadsBack reply.now) }
{
    out.begin_map(Some(reply_member_count(reply) + 1))?;
    send_reply(alloc, reply, out)?;
    end_with_text("type", kind, out)
}

fn send_answered<S: Serializer>(alloc: Global, reply: &Reply, out: &mut S) -> Result<(), S::Error>
    ensures sends { OnOk result (SendsValue (response_data reply.now) (S.written out.old) (S.written out.new)) }
    ensures whole { OnOk result (IsWhole (response_data reply.now)) }
    ensures back { OnOk result (ReplyReadsBack reply.now) }
{
    match reply.answered_kind() {
        Some(kind) => send_response(alloc, ask_kind_name(kind), reply, out),
        None => out.unit(),
    }
}

fn send_replied<S: Serializer>(alloc: Global, reply: &Reply, out: &mut S) -> Result<(), S::Error>
    ensures sends { OnOk result (SendsValue (replied_data reply.now) (S.written out.old) (S.written out.new)) }
    ensures whole { OnOk result (IsWhole (replied_data reply.now)) }
    ensures back { OnOk result (ReplyReadsBack reply.now) }
{
    begin_with(2, "response", out)?;
    send_answered(alloc, reply, out)?;
    end_with_text("type", "ok", out)
}

impl JsonText for Reply {
    ghost form = { result_data };

    ghost tree = { λ r t. IsPipelineReply r → ResultTree r t };

    fn send<S: Serializer>(&self, alloc: Global, out: &mut S) -> Result<(), S::Error> {
        match self {
            Reply::Failed(error) => send_error_as(alloc, "error", error, out),
            _ => send_replied(alloc, self, out),
        }
    }
}
