// One exchange over HTTP: what a request asks, and the results of a pipeline as its stream replies.
ghost use Rattle.std.specs.Prelude.{◌≡◌, ◌≢◌, ◌++◌, [], Some, map, All, IfOk, OnOk};
ghost use Rattle.stream_requests.specs.Results.{IsPipelineReply};
ghost use Rattle.pipeline_body.specs.Batons.{blank};
ghost use Rattle.pipeline_body.specs.Exchanges.{IsAsked, IsUnreadable, EachHasItsResult, AsksOfBodiesFit, Progress, begins, asked_in, answered, passed, declined, is_over, pipeline_answer, code_of_decline, place_of};

use crate::answers::encode_pipeline_answer;
use crate::batons::{BlankAnswer, blank_answer};
use crate::bodies::{BodyFail, PipeAsk, PipeAsks, PipelineAnswer, PipelineBody, Replies};
use crate::pipelines::{decode_pipeline, fitting_asks_are_taken};
use crate::routes::{bytes_of, error_answer};
use hrana_stmt::{Code, wire_error};
use hrana_value::{Decline, List, NoMemory, Txt};
use http_wire::{HttpAnswer, HttpAsk};
use std::alloc::Global;
use std::collections::VecDeque;
use std::marker::Model;
use stream_requests::{Ask, Reply};

/// What a request asks.
#[derive(Drop)]
pub enum Asked {
    /// It has this answer, whatever streams there are.
    Answered(HttpAnswer),
    /// A stream is asked this.
    Pipeline(PipelineBody),
}

/// Reads a request for a pipeline, of a client that is let in or not: 401 where it isn't, 400 where its body is none.
pub fn read_ask(alloc: Global, ask: &HttpAsk, let_in: bool) -> Result<Asked, NoMemory>
    ensures { IfOk result (IsAsked let_in ask.now) }
{
    if !let_in {
        return Ok(Asked::Answered(error_answer(alloc, 401, Code::Auth, ask.close)?));
    }
    match decode_pipeline(alloc, ask.body.as_slice()) {
        Ok(body) => Ok(Asked::Pipeline(body)),
        Err(BodyFail::NoMemory) => Err(NoMemory),
        Err(_) => Ok(Asked::Answered(error_answer(alloc, 400, Code::BadRequest, ask.close)?)),
    }
}

/// The code with which a request is answered that is declined.
pub fn code_of_decline(decline: Decline) -> Code
    ensures { result ≡ code_of_decline decline }
{
    match decline {
        Decline::Unknown => Code::UnknownRequest,
        Decline::Describe => Code::DescribeUnsupported,
        Decline::BadStep => Code::BadStep,
        Decline::Float => Code::FloatUnsupported,
        Decline::Shape => Code::BadRequest,
        Decline::BothSql => Code::BadRequest,
        Decline::Range => Code::BadRequest,
    }
}

fn declined(alloc: Global, why: Decline) -> Result<Reply, NoMemory>
    ensures { IfOk result (λ reply. reply ≡ declined why) }
{
    Ok(Reply::Failed(wire_error(alloc, code_of_decline(why))?))
}

/// A pipeline under way: the results so far, and what is left of its requests.
#[derive(Drop)]
pub struct Exchange {
    results: Replies,
    /// Of each request that has no result yet, why it is declined, if it is.
    left: VecDeque<Option<Decline>>,
}

impl Model for Exchange {
    ghost use Rattle.std.specs.Prelude.{All};
    ghost use Rattle.std.specs.Coded.{codes};
    ghost use Rattle.hrana_batch.specs.contracts.conditions.Cond as conditions;
    ghost use Rattle.stream_requests.specs.Results.{IsPipelineReply};
    ghost use Rattle.pipeline_body.specs.Exchanges.{Progress};

    ghost Value = { Progress };

    ghost coded = { Prim.hlevel (codes, conditions.the_row.coded) };

    ghost view = { λ e. record { results = e.results; left = e.left.items } };

    ghost invariant = { λ e. All IsPipelineReply e.results };
}

/// An exchange that begins, and what its stream is asked.
#[derive(Drop)]
pub struct Begun {
    pub exchange: Exchange,
    pub asks: List<Ask>,
}

impl Exchange {
    /// The requests of a body begin. Those at the front that are declined have their results at once.
    pub fn begin(alloc: Global, asks: PipeAsks) -> Result<Begun, NoMemory>
        ensures { IfOk result (λ begun. (begun.exchange ≡ begins asks) × (begun.asks ≡ asked_in asks)) }
    {
        let mut left = VecDeque::new(alloc);
        let mut asked = List::new(alloc);
        for ask in asks.into_vec() {
            match ask {
                PipeAsk::Ask(ask) => {
                    asked.push(ask)?;
                    left.push_back(None)?;
                }
                PipeAsk::Declined(why) => left.push_back(Some(why))?,
            }
        }
        let mut exchange = Exchange {
            results: List::new(alloc),
            left,
        };
        exchange.pass(alloc)?;
        Ok(Begun {
            exchange,
            asks: asked,
        })
    }

    /// The next requests are passed over as far as they are declined. Each has its error as its result.
    fn pass(&mut self, alloc: Global) -> Result<(), NoMemory>
        ensures { OnOk result (self.new ≡ passed self.old.results self.old.left) }
    {
        while let Some(Some(why)) = self.left.front() {
            let reply = declined(alloc, *why)?;
            self.results.push(reply)?;
            let _passed = self.left.pop_front();
        }
        Ok(())
    }

    /// The first of the requests that the stream was asked has this reply. Where there is no memory the exchange is of no use any more.
    pub fn answered(&mut self, alloc: Global, reply: Reply) -> Result<(), NoMemory>
        requires { IsPipelineReply reply }
        ensures { OnOk result (self.new ≡ answered reply self.old) }
    {
        self.results.push(reply)?;
        let _answered = self.left.pop_front();
        self.pass(alloc)
    }

    /// Whether each request has its result.
    pub fn is_over(&self) -> bool
        ensures { result ≡ is_over self.now }
    {
        self.left.is_empty()
    }

    /// The answer with the results and the baton of the stream, none where it is closed.
    pub fn into_answer(
        self,
        alloc: Global,
        baton: Option<Txt>,
        close: bool,
    ) -> Result<HttpAnswer, NoMemory>
        ensures { IfOk result (λ answer. answer ≡ pipeline_answer self.results baton close) }
    {
        let Exchange { results, .. } = self;
        let text = encode_pipeline_answer(alloc, &PipelineAnswer { baton, results })?;
        Ok(HttpAnswer {
            status: 200,
            allow: None,
            body: bytes_of(text),
            close,
        })
    }

    /// The answer with the results and a blank baton, in whose place the one of the stream is put once it is known.
    pub fn into_blank_answer(self, alloc: Global, close: bool) -> Result<BlankAnswer, NoMemory>
        ensures { IfOk result (λ answer. answer ≡ pipeline_answer self.results (Some blank) close) }
    {
        let Exchange { results, .. } = self;
        blank_answer(alloc, results, close)
    }
}

/// Each request has its result in its place, as far as the stream has replied.
pub fn each_request_has_its_result()
    ensures { EachHasItsResult }
{}

/// What a stream is asked by a body is of kinds that a pipeline may ask, and breaks no limit.
pub fn asks_of_bodies_fit()
    ensures { AsksOfBodiesFit }
{
    fitting_asks_are_taken();
}
