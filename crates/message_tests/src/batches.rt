// Batches and their results, as texts and as runs.
ghost use Rattle.std.specs.Prelude.{◌<◌, length, OnSome};

use crate::tables::{Told, are_declined, come_back};
use hrana_batch::{
    Batch, BatchResult, BatchRun, Next, Outcome, batch_of_json, batch_result_of_json,
    batch_result_to_json, batch_to_json,
};
use hrana_stmt::{Code, Cols, Rows, SqlRef, StmtResult, wire_error};
use hrana_value::{Decline, NoMemory, ReadFail, Txt};
use serde_json::Value as Json;
use std::alloc::Global;
use std::process::Abort;

fn batch(alloc: Global, text: &str) -> Result<Batch, ReadFail> {
    match Json::from_str(alloc, text) {
        Ok(json) => batch_of_json(alloc, &json),
        Err(_) => Err(ReadFail::NoMemory),
    }
}

fn given(alloc: Global, text: &str) -> Result<BatchResult, ReadFail> {
    match Json::from_str(alloc, text) {
        Ok(json) => batch_result_of_json(alloc, &json),
        Err(_) => Err(ReadFail::NoMemory),
    }
}

fn text_of(alloc: Global, json: &Json) -> Result<Txt, ReadFail> {
    match json.to_string(alloc) {
        Ok(text) => Ok(Txt::from_string(text)),
        Err(_) => Err(ReadFail::NoMemory),
    }
}

struct BatchTexts;

impl Told<ReadFail> for BatchTexts {
    fn told(alloc: Global, text: &str) -> Result<Txt, ReadFail> {
        let batch = batch(alloc, text)?;
        text_of(alloc, &batch_to_json(alloc, &batch)?)
    }
}

struct ResultTexts;

impl Told<ReadFail> for ResultTexts {
    fn told(alloc: Global, text: &str) -> Result<Txt, ReadFail> {
        let given = given(alloc, text)?;
        text_of(alloc, &batch_result_to_json(alloc, &given)?)
    }
}

// A batch of one step with this condition.
fn with_condition(alloc: Global, condition: &str) -> Result<String, NoMemory> {
    Ok(format!(in alloc;
        "{{\"steps\":[{{\"condition\":{condition},\"stmt\":{{\"sql\":\"\"}}}}]}}"
    )?)
}

// This condition within so many negations.
fn negated(alloc: Global, nots: usize, inner: &str) -> Result<String, NoMemory> {
    let mut text = String::new(alloc);
    for _ in 0..nots {
        text.push_str(r#"{"type":"not","cond":"#)?;
    }
    text.push_str(inner)?;
    for _ in 0..nots {
        text.push_str("}")?;
    }
    Ok(text)
}

fn many_steps(alloc: Global, steps: usize) -> Result<String, NoMemory> {
    let mut text = String::from_str(alloc, r#"{"steps":[{"stmt":{"sql":""}}"#)?;
    for _ in 1..steps {
        text.push_str(r#",{"stmt":{"sql":""}}"#)?;
    }
    text.push_str("]}")?;
    Ok(text)
}

// The first kind of decline is told, wherever it stands, also in an item before one that can be read.
#[test]
fn batches_are_declined(rt: HostRuntime) {
    are_declined::<ReadFail, BatchTexts>(
        &rt,
        rt.alloc(),
        &[
            ("5", Decline::Shape),
            ("{}", Decline::Shape),
            (r#"{"steps":{}}"#, Decline::Shape),
            (r#"{"steps":[5,{"stmt":{"sql":""}}]}"#, Decline::Shape),
            (
                r#"{"steps":[{"stmt":{}},{"stmt":{"sql":""}}]}"#,
                Decline::BothSql,
            ),
            (
                r#"{"steps":[{"condition":{"type":"ok","step":0},"stmt":{}}]}"#,
                Decline::BothSql,
            ),
            (
                r#"{"steps":[{"stmt":{"sql":""}},{"condition":{"type":"error","step":1},"stmt":{"sql":""}}]}"#,
                Decline::BadStep,
            ),
            (
                r#"{"steps":[{"stmt":{"sql":"","args":[{"type":"float"}]}},{"condition":{"type":"ok","step":-1},"stmt":{"sql":""}}]}"#,
                Decline::Range,
            ),
        ],
    );
}

// How this text of a batch is declined, if it is; nothing where it fails otherwise.
fn decline_of(alloc: Global, text: &str) -> Option<Option<Decline>> {
    match batch(alloc, text) {
        Ok(_) => Some(None),
        Err(ReadFail::Declined(decline)) => Some(Some(decline)),
        Err(_) => None,
    }
}

fn condition_declined(alloc: Global, nots: usize, inner: &str) -> Option<Option<Decline>> {
    let condition = negated(alloc, nots, inner).ok()?;
    let text = with_condition(alloc, condition.as_str()).ok()?;
    decline_of(alloc, text.as_str())
}

fn are_conditions(rt: &impl Abort, alloc: Global, cases: &[(usize, &str, Option<Decline>)]) {
    for (nots, inner, want) in cases {
        let declined = condition_declined(alloc, *nots, inner);
        assert!(rt; declined == Some(*want), "at {inner} in {nots}");
    }
}

fn steps_declined(alloc: Global, steps: usize) -> Option<Option<Decline>> {
    let text = many_steps(alloc, steps).ok()?;
    decline_of(alloc, text.as_str())
}

// A condition is at most 32 deep. What is declined in a deep one is told before its depth.
#[test]
fn conditions_are_declined(rt: HostRuntime) {
    are_conditions(
        &rt,
        rt.alloc(),
        &[
            (0, "5", Some(Decline::Shape)),
            (0, r#"{"type":"xor"}"#, Some(Decline::Shape)),
            (0, r#"{"type":"ok"}"#, Some(Decline::Shape)),
            (0, r#"{"type":"ok","step":1.5}"#, Some(Decline::Shape)),
            (0, r#"{"type":"ok","step":0}"#, Some(Decline::BadStep)),
            (
                0,
                r#"{"type":"ok","step":4294967296}"#,
                Some(Decline::BadStep),
            ),
            (0, r#"{"type":"ok","step":-1}"#, Some(Decline::Range)),
            (0, r#"{"type":"not"}"#, Some(Decline::Shape)),
            (0, r#"{"type":"and","conds":null}"#, Some(Decline::Shape)),
            (
                0,
                r#"{"type":"and","conds":[{"type":"ok","step":0},{"type":"is_autocommit"}]}"#,
                Some(Decline::BadStep),
            ),
            (
                0,
                r#"{"type":"or","conds":[{"type":"ok","step":-1},{"type":"not","cond":{"type":"ok","step":0}}]}"#,
                Some(Decline::BadStep),
            ),
            (31, r#"{"type":"is_autocommit"}"#, None),
            (32, r#"{"type":"is_autocommit"}"#, Some(Decline::Range)),
            (31, r#"{"type":"and","conds":[]}"#, None),
            (
                31,
                r#"{"type":"and","conds":[{"type":"is_autocommit"}]}"#,
                Some(Decline::Range),
            ),
            (32, r#"{"type":"ok","step":0}"#, Some(Decline::BadStep)),
            (32, r#"{"type":"xor"}"#, Some(Decline::Shape)),
        ],
    );
}

#[test]
fn a_batch_has_at_most_256_steps(rt: HostRuntime) {
    let alloc = rt.alloc();
    assert!(rt; steps_declined(alloc, 256) == Some(None));
    assert!(rt; steps_declined(alloc, 257) == Some(Some(Decline::Range)));
}

#[test]
fn batches_come_back(rt: HostRuntime) {
    come_back::<ReadFail, BatchTexts>(
        &rt,
        rt.alloc(),
        &[
            r#"{"steps":[]}"#,
            r#"{"steps":[{"stmt":{"sql":"A"}},{"condition":{"cond":{"step":0,"type":"ok"},"type":"not"},"stmt":{"sql":"B"}}]}"#,
            r#"{"steps":[{"stmt":{"sql":"A"}},{"condition":{"conds":[{"conds":[],"type":"or"},{"step":0,"type":"error"},{"type":"is_autocommit"}],"type":"and"},"stmt":{"sql_id":1}}]}"#,
        ],
    );
}

#[test]
fn results_of_batches_come_back(rt: HostRuntime) {
    come_back::<ReadFail, ResultTexts>(
        &rt,
        rt.alloc(),
        &[
            r#"{"step_errors":[],"step_results":[]}"#,
            r#"{"step_errors":[null],"step_results":[null]}"#,
            r#"{"step_errors":[null,{"code":"CONSTRAINT","message":"primary key constraint failed"},null],"step_results":[{"affected_row_count":1,"cols":[],"last_insert_rowid":"1","rows":[]},null,null]}"#,
        ],
    );
}

#[test]
fn results_of_batches_are_declined(rt: HostRuntime) {
    are_declined::<ReadFail, ResultTexts>(
        &rt,
        rt.alloc(),
        &[
            ("[]", Decline::Shape),
            (r#"{"step_results":[]}"#, Decline::Shape),
            (
                r#"{"step_errors":[],"step_results":[null]}"#,
                Decline::Shape,
            ),
            (
                r#"{"step_errors":[{"message":"x"}],"step_results":[{"affected_row_count":0,"cols":[],"rows":[]}]}"#,
                Decline::Shape,
            ),
            (
                r#"{"step_errors":[5,null],"step_results":[null,null]}"#,
                Decline::Shape,
            ),
            (
                r#"{"step_errors":[null,null],"step_results":[{"affected_row_count":0,"cols":[],"rows":[[{"type":"float"}]]},null]}"#,
                Decline::Float,
            ),
            (
                r#"{"step_errors":[null,null],"step_results":[{"affected_row_count":0,"cols":[],"rows":[[{"type":"float"}]]},{"affected_row_count":-1,"cols":[],"rows":[]}]}"#,
                Decline::Range,
            ),
        ],
    );
}

// What became of a step: `d` done, `f` failed, `s` skipped.
fn outcome(alloc: Global, letter: char) -> Result<Outcome, NoMemory> {
    match letter {
        'd' => Ok(Outcome::Done(StmtResult {
            cols: Cols::new(alloc),
            rows: Rows::new(alloc),
            affected: 0,
            last_rowid: None,
        })),
        'f' => Ok(Outcome::Failed(wire_error(alloc, Code::Constraint)?)),
        _ => Ok(Outcome::Skipped),
    }
}

fn letter(outcome: &Outcome) -> char {
    match outcome {
        Outcome::Done(_) => 'd',
        Outcome::Failed(_) => 'f',
        Outcome::Skipped => 's',
    }
}

fn started(alloc: Global, text: &str) -> Result<BatchRun, ReadFail> {
    match Json::from_str(alloc, text) {
        Ok(json) => match BatchRun::new(alloc, batch_of_json(alloc, &json)?) {
            Ok(run) => Ok(run),
            Err(_) => Err(ReadFail::NoMemory),
        },
        Err(_) => Err(ReadFail::NoMemory),
    }
}

// Whether the next step is passed over, where there is one.
fn is_skipped(run: &BatchRun, auto: bool) -> Option<bool>
    ensures { OnSome result (length run.now.outcomes < length run.now.batch.steps) }
{
    match run.next(auto) {
        Next::Run(_) => Some(false),
        Next::Skip => Some(true),
        Next::Finished => None,
    }
}

// Takes down this outcome of the next step, where there is one: whether the step is skipped as the outcome says.
fn step_comes(run: &mut BatchRun, alloc: Global, auto: bool, want: char) -> bool {
    let Ok(outcome) = outcome(alloc, want) else {
        return false;
    };
    match is_skipped(run, auto) {
        Some(skipped) => {
            run.note(outcome);
            skipped == (want == 's')
        }
        None => false,
    }
}

fn runs(alloc: Global, text: &str, autos: &str, wants: &str) -> bool {
    let Ok(mut run) = started(alloc, text) else {
        return false;
    };
    for (auto, want) in autos.chars().zip(wants.chars()) {
        if !step_comes(&mut run, alloc, auto == 'a', want) {
            return false;
        }
    }
    matches!(run.next(true), Next::Finished)
}

fn all_run(rt: &impl Abort, alloc: Global, cases: &[(&str, &str, &str)]) {
    for (text, autos, wants) in cases {
        assert!(rt; runs(alloc, text, autos, wants), "at {text}");
    }
}

// The flags are whether the session is in autocommit at the turn of each step.
#[test]
fn batches_are_run_as_their_conditions_say(rt: HostRuntime) {
    all_run(
        &rt,
        rt.alloc(),
        &[
            (
                r#"{"steps":[{"stmt":{"sql":"BEGIN"}},{"condition":{"type":"ok","step":0},"stmt":{"sql":"INSERT INTO t VALUES (1, 'x')"}},{"condition":{"type":"ok","step":1},"stmt":{"sql":"COMMIT"}},{"condition":{"type":"not","cond":{"type":"ok","step":2}},"stmt":{"sql":"ROLLBACK"}}]}"#,
                "afff",
                "dfsd",
            ),
            (
                r#"{"steps":[{"condition":{"type":"is_autocommit"},"stmt":{"sql":"SELECT 1"}},{"stmt":{"sql":"BEGIN"}},{"condition":{"type":"is_autocommit"},"stmt":{"sql":"SELECT 2"}},{"condition":{"type":"and","conds":[]},"stmt":{"sql":"SELECT 3"}},{"condition":{"type":"or","conds":[]},"stmt":{"sql":"SELECT 4"}},{"stmt":{"sql":"COMMIT"}}]}"#,
                "aaffff",
                "ddsdsd",
            ),
            (
                r#"{"steps":[{"stmt":{"sql":"BEGIN IMMEDIATE"}},{"condition":{"type":"ok","step":0},"stmt":{"sql":"INSERT INTO t VALUES (:a, :b)"}},{"condition":{"type":"ok","step":1},"stmt":{"sql":"COMMIT"}},{"condition":{"type":"not","cond":{"type":"ok","step":2}},"stmt":{"sql":"ROLLBACK"}}]}"#,
                "affa",
                "ddds",
            ),
            (
                r#"{"steps":[{"stmt":{"sql":"A"}},{"condition":{"type":"error","step":0},"stmt":{"sql":"B"}},{"condition":{"type":"or","conds":[{"type":"ok","step":1},{"type":"error","step":1}]},"stmt":{"sql":"C"}}]}"#,
                "aaa",
                "dss",
            ),
        ],
    );
}

fn is_next(run: &BatchRun, text: &str) -> bool {
    match run.next(true) {
        Next::Run(stmt) => match &stmt.sql {
            SqlRef::Text(sql) => sql.as_str() == text,
            SqlRef::Id(_) => false,
        },
        _ => false,
    }
}

fn is_one(given: &BatchResult, want: char) -> bool {
    match given.outcomes.as_slice() {
        [outcome] => letter(outcome) == want,
        _ => false,
    }
}

// Whether the run is finished, and this is its only outcome.
fn gives_one(run: BatchRun, want: char) -> bool {
    match run.next(true) {
        Next::Finished => is_one(&run.into_result(), want),
        _ => false,
    }
}

fn gives_its_outcome(alloc: Global) -> bool {
    let Ok(mut run) = started(alloc, r#"{"steps":[{"stmt":{"sql":"BEGIN"}}]}"#) else {
        return false;
    };
    if !is_next(&run, "BEGIN") || !step_comes(&mut run, alloc, true, 'f') {
        return false;
    }
    gives_one(run, 'f')
}

// The statement of the step is lent, and the outcomes that were told are the result.
#[test]
fn a_run_gives_its_outcomes(rt: HostRuntime) {
    assert!(rt; gives_its_outcome(rt.alloc()));
}
