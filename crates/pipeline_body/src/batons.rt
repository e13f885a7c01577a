// Answers that are written before their batons are known.
ghost use Rattle.std.specs.Prelude.{◌≡◌, Bool, List, Some, All, IfOk};
ghost use Rattle.stream_requests.specs.declared.replies.Reply.{Reply};
ghost use Rattle.stream_requests.specs.Results.{IsPipelineReply};
ghost use Rattle.pipeline_body.specs.Exchanges.{pipeline_answer};
ghost use Rattle.pipeline_body.specs.Batons.{IsPlain, blank};

use crate::answers::encode_pipeline_answer;
use crate::bodies::{PipelineAnswer, Replies};
use hrana_value::{Bytes, NoMemory, Txt};
use http_wire::HttpAnswer;
use std::alloc::Global;
use std::marker::Model;

/// Where a baton begins in the body of an answer: behind `{"base_url":null,"baton":"`.
const BATON_START: usize = 26;

/// Where it ends: a baton has 32 characters.
const BATON_END: usize = BATON_START + 32;

fn blank_baton(alloc: Global) -> Result<Txt, NoMemory>
    ensures { IfOk result (λ baton. baton ≡ blank) }
{
    Txt::new(alloc, "AAAAAAAAAAAAAAAAAAAAAAAAAAAAAAAA")
}

/// The answer to a pipeline whose baton isn't known yet. In its place stands a blank one of the same length.
#[derive(Drop)]
pub struct BlankAnswer {
    body: Vec<u8>,
    close: bool,
}

impl Model for BlankAnswer {
    ghost use Rattle.std.specs.Prelude.{◌≤◌, None, vec_len};
    ghost use Rattle.http_wire.specs.declared.outs.HttpAnswer.{HttpAnswer};
    ghost use Rattle.pipeline_body.specs.declared.batons.TheConstants.{BATON_END};

    ghost Value = { HttpAnswer };

    ghost view = { λ a. record { status = 200; allow = None; body = a.body.items; close = a.close } };

    ghost invariant = { λ a. BATON_END ≤ vec_len a.body };
}

/// The answer with these results and a blank baton.
pub(crate) fn blank_answer(
    alloc: Global,
    results: Replies,
    close: bool,
) -> Result<BlankAnswer, NoMemory>
    requires { All IsPipelineReply results }
    ensures { IfOk result (λ answer. answer ≡ pipeline_answer results (Some blank) close) }
{
    let baton = Some(blank_baton(alloc)?);
    let text = encode_pipeline_answer(alloc, &PipelineAnswer { baton, results })?;
    Ok(BlankAnswer {
        body: text.into_string().into_bytes(),
        close,
    })
}

impl BlankAnswer {
    /// The answer with this baton in the place of the blank one. Takes no memory.
    pub fn with_baton(self, text: &[u8; 32]) -> HttpAnswer
        requires plain { All IsPlain text.now }
        ensures { (results : List Reply) (close : Bool) → self ≡ pipeline_answer results (Some blank) close
            → result ≡ pipeline_answer results (Some text.now) close }
    {
        let BlankAnswer { mut body, close } = self;
        body[BATON_START..BATON_END].copy_from_slice(text);
        HttpAnswer {
            status: 200,
            allow: None,
            body: Bytes::from_vec(body),
            close,
        }
    }
}
