// Entries as JSON text, with no tree of them.
ghost use Rattle.std.specs.Prelude.{◌≡◌, IfOk, OnOk};
ghost use Rattle.serde_json.specs.Data.{string, number as number_data, unsigned};
ghost use Rattle.serde_json.specs.Events.{SendsValue};
ghost use Rattle.hrana_value.specs.Whole.{IsWhole};
ghost use Rattle.hrana_journal.specs.Lines.{answer_data, bound_data, unit_data, how_name, cause_name, entry_data, entry_line};
ghost use Rattle.hrana_journal.specs.Sent.{SendsMember};

use engine_core::{Answer, BoundStmt, Broken, Deny, Entry, How, Undo};
use hrana_stmt::{Code, code_name};
use hrana_value::{JsonText, NoMemory, StreamNo, Txt, send_uint64, text_of};
use serde::Serializer;
use std::alloc::Global;

// ---- members

fn send_number<S: Serializer>(name: &str, number: u64, out: &mut S) -> Result<(), S::Error>
    ensures sends { OnOk result (SendsMember name.now (number_data (unsigned number)) (S.written out.old) (S.written out.new)) }
    ensures whole { OnOk result (IsWhole (number_data (unsigned number))) }
{
    out.key(name)?;
    send_uint64(number, out)
}

fn send_word<S: Serializer>(name: &str, word: &str, out: &mut S) -> Result<(), S::Error>
    ensures { OnOk result (SendsMember name.now (string word.now) (S.written out.old) (S.written out.new)) }
{
    out.key(name)?;
    out.str(word)
}

// ---- what entries hold

fn send_refusal<S: Serializer>(code: Code, out: &mut S) -> Result<(), S::Error>
    ensures { OnOk result (SendsValue (answer_data (Answer.Refused code)) (S.written out.old) (S.written out.new)) }
{
    out.begin_map(Some(1))?;
    out.key("refused")?;
    out.str(code_name(code))?;
    out.end_map()
}

fn send_answer<S: Serializer>(alloc: Global, answer: &Answer, out: &mut S) -> Result<(), S::Error>
    ensures sends { OnOk result (SendsValue (answer_data answer.now) (S.written out.old) (S.written out.new)) }
    ensures whole { OnOk result (IsWhole (answer_data answer.now)) }
{
    match answer {
        Answer::Gave(given) => given.send(alloc, out),
        Answer::Refused(code) => send_refusal(*code, out),
    }
}

fn send_bound<S: Serializer>(alloc: Global, stmt: &BoundStmt, out: &mut S) -> Result<(), S::Error>
    ensures sends { OnOk result (SendsValue (bound_data stmt.now) (S.written out.old) (S.written out.new)) }
    ensures whole { OnOk result (IsWhole (bound_data stmt.now)) }
{
    out.begin_map(Some(2))?;
    out.key("sql")?;
    out.str(stmt.sql.as_str())?;
    out.key("values")?;
    stmt.values.send(alloc, out)?;
    out.end_map()
}

fn send_unit<S: Serializer>(unit: Option<u64>, out: &mut S) -> Result<(), S::Error>
    ensures sends { OnOk result (SendsValue (unit_data unit) (S.written out.old) (S.written out.new)) }
    ensures whole { IsWhole (unit_data unit) }
{
    match unit {
        Some(unit) => send_uint64(unit, out),
        None => out.unit(),
    }
}

fn name_of_how(how: How) -> &'static str
    ensures { result.now ≡ how_name how }
{
    match how {
        How::Committed => "committed",
        How::Read => "read",
        How::Undone(Undo::Close) => "close",
        How::Undone(Undo::Lost) => "lost",
        How::Undone(Undo::Expired) => "expired",
        How::Undone(Undo::Rollback) => "rollback",
        How::Undone(Undo::Stop) => "stop",
    }
}

fn name_of_cause(cause: Broken) -> &'static str
    ensures { result.now ≡ cause_name cause }
{
    match cause {
        Broken::Fault => "fault",
        Broken::NoMemory => "memory",
    }
}

// ---- entries

fn send_alone<S: Serializer>(
    alloc: Global,
    stream: StreamNo,
    stmt: &BoundStmt,
    answer: &Answer,
    wrote: bool,
    out: &mut S,
) -> Result<(), S::Error>
    ensures sends { OnOk result (SendsValue (entry_data (Entry.Alone stream stmt.now answer.now wrote)) (S.written out.old) (S.written out.new)) }
    ensures whole { OnOk result (IsWhole (entry_data (Entry.Alone stream stmt.now answer.now wrote))) }
{
    out.begin_map(Some(5))?;
    out.key("answer")?;
    send_answer(alloc, answer, out)?;
    send_word("kind", "alone", out)?;
    out.key("stmt")?;
    send_bound(alloc, stmt, out)?;
    send_number("stream", stream.0, out)?;
    out.key("wrote")?;
    out.bool(wrote)?;
    out.end_map()
}

fn send_began<S: Serializer>(unit: u64, stream: StreamNo, out: &mut S) -> Result<(), S::Error>
    ensures sends { OnOk result (SendsValue (entry_data (Entry.Began unit stream)) (S.written out.old) (S.written out.new)) }
    ensures whole { OnOk result (IsWhole (entry_data (Entry.Began unit stream))) }
{
    out.begin_map(Some(3))?;
    send_word("kind", "began", out)?;
    send_number("stream", stream.0, out)?;
    send_number("unit", unit, out)?;
    out.end_map()
}

fn send_ran<S: Serializer>(
    alloc: Global,
    unit: u64,
    stmt: &BoundStmt,
    answer: &Answer,
    out: &mut S,
) -> Result<(), S::Error>
    ensures sends { OnOk result (SendsValue (entry_data (Entry.Ran unit stmt.now answer.now)) (S.written out.old) (S.written out.new)) }
    ensures whole { OnOk result (IsWhole (entry_data (Entry.Ran unit stmt.now answer.now))) }
{
    out.begin_map(Some(4))?;
    out.key("answer")?;
    send_answer(alloc, answer, out)?;
    send_word("kind", "ran", out)?;
    out.key("stmt")?;
    send_bound(alloc, stmt, out)?;
    send_number("unit", unit, out)?;
    out.end_map()
}

fn send_stale<S: Serializer>(unit: u64, had: u64, now: u64, out: &mut S) -> Result<(), S::Error>
    ensures sends { OnOk result (SendsValue (entry_data (Entry.Denied unit (Deny.Stale had now))) (S.written out.old) (S.written out.new)) }
    ensures whole { OnOk result (IsWhole (entry_data (Entry.Denied unit (Deny.Stale had now)))) }
{
    out.begin_map(Some(4))?;
    send_number("had", had, out)?;
    send_word("kind", "stale", out)?;
    send_number("now", now, out)?;
    send_number("unit", unit, out)?;
    out.end_map()
}

fn send_held<S: Serializer>(unit: u64, by: StreamNo, out: &mut S) -> Result<(), S::Error>
    ensures sends { OnOk result (SendsValue (entry_data (Entry.Denied unit (Deny.Held by))) (S.written out.old) (S.written out.new)) }
    ensures whole { OnOk result (IsWhole (entry_data (Entry.Denied unit (Deny.Held by)))) }
{
    out.begin_map(Some(3))?;
    send_number("by", by.0, out)?;
    send_word("kind", "held", out)?;
    send_number("unit", unit, out)?;
    out.end_map()
}

fn send_denied<S: Serializer>(unit: u64, deny: Deny, out: &mut S) -> Result<(), S::Error>
    ensures sends { OnOk result (SendsValue (entry_data (Entry.Denied unit deny)) (S.written out.old) (S.written out.new)) }
    ensures whole { OnOk result (IsWhole (entry_data (Entry.Denied unit deny))) }
{
    match deny {
        Deny::Stale { had, now } => send_stale(unit, had, now, out),
        Deny::Held { by } => send_held(unit, by, out),
    }
}

fn send_ended<S: Serializer>(unit: u64, how: How, out: &mut S) -> Result<(), S::Error>
    ensures sends { OnOk result (SendsValue (entry_data (Entry.Ended unit how)) (S.written out.old) (S.written out.new)) }
    ensures whole { OnOk result (IsWhole (entry_data (Entry.Ended unit how))) }
{
    out.begin_map(Some(3))?;
    send_word("how", name_of_how(how), out)?;
    send_word("kind", "ended", out)?;
    send_number("unit", unit, out)?;
    out.end_map()
}

fn send_failed<S: Serializer>(
    stream: StreamNo,
    unit: Option<u64>,
    cause: Broken,
    out: &mut S,
) -> Result<(), S::Error>
    ensures sends { OnOk result (SendsValue (entry_data (Entry.Failed stream unit cause)) (S.written out.old) (S.written out.new)) }
    ensures whole { OnOk result (IsWhole (entry_data (Entry.Failed stream unit cause))) }
{
    out.begin_map(Some(4))?;
    send_word("cause", name_of_cause(cause), out)?;
    send_word("kind", "failed", out)?;
    send_number("stream", stream.0, out)?;
    out.key("unit")?;
    send_unit(unit, out)?;
    out.end_map()
}

fn send_entry<S: Serializer>(alloc: Global, entry: &Entry, out: &mut S) -> Result<(), S::Error>
    ensures sends { OnOk result (SendsValue (entry_data entry.now) (S.written out.old) (S.written out.new)) }
    ensures whole { OnOk result (IsWhole (entry_data entry.now)) }
{
    match entry {
        Entry::Alone {
            stream,
            stmt,
            answer,
            wrote,
        } => send_alone(alloc, *stream, stmt, answer, *wrote, out),
        Entry::Began { unit, stream } => send_began(*unit, *stream, out),
        Entry::Ran { unit, stmt, answer } => send_ran(alloc, *unit, stmt, answer, out),
        Entry::Denied { unit, deny } => send_denied(*unit, *deny, out),
        Entry::Ended { unit, how } => send_ended(*unit, *how, out),
        Entry::Failed {
            stream,
            unit,
            cause,
        } => send_failed(*stream, *unit, *cause, out),
    }
}

#[derive(Drop)]
struct EntryText<'a> {
    entry: &'a Entry,
}

impl JsonText for EntryText<'_> {
    ghost form = { λ t. entry_data t.entry.now };

    fn send<S: Serializer>(&self, alloc: Global, out: &mut S) -> Result<(), S::Error> {
        send_entry(alloc, self.entry, out)
    }
}

/// The line of an entry: one compact JSON object with members in byte order, and a newline.
pub fn line_of(alloc: Global, entry: &Entry) -> Result<Txt, NoMemory>
    ensures { IfOk result (λ line. line ≡ entry_line entry.now) }
{
    let mut line = text_of(alloc, &EntryText { entry })?.into_string();
    line.push('\n')?;
    Ok(Txt::from_string(line))
}
