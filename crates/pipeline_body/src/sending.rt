// Bodies and answers of pipelines as JSON text, with the members of each object in byte order.
ghost use Rattle.std.specs.Prelude.{OnOk};
ghost use Rattle.serde_json.specs.Events.{SendsValue};
ghost use Rattle.hrana_value.specs.Whole.{IsWhole};
ghost use Rattle.stream_requests.specs.Asks.{AskReadsBack};
ghost use Rattle.pipeline_body.specs.Written.{request_data};

use crate::{PipeAsk, PipelineAnswer, PipelineBody};
use hrana_stmt::send_optional_text;
use hrana_value::{JsonText, end_with_text};
use serde::Serializer;
use std::alloc::Global;
use stream_requests::{Ask, ask_kind_name, ask_member_count, send_ask};

// ---- bodies

fn send_request<S: Serializer>(alloc: Global, ask: &Ask, out: &mut S) -> Result<(), S::Error>
    ensures sends { OnOk result (SendsValue (request_data ask.now) (S.written out.old) (S.written out.new)) }
    ensures whole { OnOk result (IsWhole (request_data ask.now)) }
    ensures back { OnOk result (AskReadsBack ask.now) }
{
    out.begin_map(Some(ask_member_count(ask) + 1))?;
    send_ask(alloc, ask, out)?;
    end_with_text("type", ask_kind_name(ask.kind()), out)
}

impl JsonText for PipeAsk {
    ghost use Rattle.pipeline_body.specs.Bodies.{HasAskForm, FitsInPlace};
    ghost use Rattle.pipeline_body.specs.Requests.{PipeAskTree};
    ghost use Rattle.pipeline_body.specs.Written.{pipe_ask_data};

    ghost form = { pipe_ask_data };

    ghost tree = { λ a t. HasAskForm a × FitsInPlace a → PipeAskTree a t };

    fn send<S: Serializer>(&self, alloc: Global, out: &mut S) -> Result<(), S::Error> {
        match self {
            PipeAsk::Ask(ask) => send_request(alloc, ask, out),
            PipeAsk::Declined(_) => out.unit(),
        }
    }
}

impl JsonText for PipelineBody {
    ghost use Rattle.pipeline_body.specs.Bodies.{HasBodyForm, BodyFits, IsBodyTree};
    ghost use Rattle.pipeline_body.specs.Written.{body_data};

    ghost form = { body_data };

    ghost tree = { λ b t. HasBodyForm b → BodyFits b → IsBodyTree b t };

    fn send<S: Serializer>(&self, alloc: Global, out: &mut S) -> Result<(), S::Error> {
        out.begin_map(Some(2))?;
        out.key("baton")?;
        send_optional_text(&self.baton, out)?;
        out.key("requests")?;
        self.asks.send(alloc, out)?;
        out.end_map()
    }
}

// ---- answers

impl JsonText for PipelineAnswer {
    ghost use Rattle.pipeline_body.specs.Answers.{HasAnswerForm, AnswerTree};
    ghost use Rattle.pipeline_body.specs.Written.{answer_data};

    ghost form = { answer_data };

    ghost tree = { λ a t. HasAnswerForm a → AnswerTree a t };

    fn send<S: Serializer>(&self, alloc: Global, out: &mut S) -> Result<(), S::Error> {
        out.begin_map(Some(3))?;
        out.key("base_url")?;
        out.unit()?;
        out.key("baton")?;
        send_optional_text(&self.baton, out)?;
        out.key("results")?;
        self.results.send(alloc, out)?;
        out.end_map()
    }
}
