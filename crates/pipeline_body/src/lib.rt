//! Bodies and answers of pipelines: from the bytes of an HTTP body and back, and one exchange (HRANA_3_SPEC, "Hrana over HTTP").
#![tactic(auto)]

mod answers;
mod batons;
mod bodies;
mod exchange;
mod forms;
mod limits;
mod pipelines;
mod request_json;
mod routes;
mod sending;

pub use answers::{
    decode_pipeline_answer, encode_pipeline_answer, no_bytes_have_two_answer_readings,
    no_tree_is_two_pipeline_answers, pipeline_answers_are_read,
};
pub use batons::BlankAnswer;
pub use bodies::{BodyFail, PipeAsk, PipeAsks, PipelineAnswer, PipelineBody, Replies};
pub use exchange::{
    Asked, Begun, Exchange, asks_of_bodies_fit, code_of_decline, each_request_has_its_result,
    read_ask,
};
pub use limits::{MAX_PIPELINE_ASKS, limits_are};
pub use pipelines::{
    decode_pipeline, encode_pipeline, fitting_asks_are_taken, no_bytes_have_two_body_readings,
    no_tree_is_two_pipeline_bodies,
};
pub use routes::{Route, empty_answer, error_answer, route_answer};
