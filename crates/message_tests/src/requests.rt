// The members of asks, and cursor entries, by their tables. `messages` has the replies.
use crate::tables::{Told, are_declined, come_back};
use hrana_value::{Decline, ReadFail, Txt, text_of};
use serde::{Described, Serialize, Serializer};
use serde_json::Value as Json;
use std::alloc::Global;
use std::process::Abort;
use stream_requests::{Ask, AskKind, ask_member_count, ask_of_json, entries_of_json, send_ask};

// The members of an ask as an object of their own.
#[derive(Drop)]
struct Members {
    alloc: Global,
    ask: Ask,
}

impl Described for Members {}

impl Serialize for Members {
    fn serialize<S: Serializer>(&self, out: &mut S) -> Result<(), S::Error> {
        out.begin_map(Some(ask_member_count(&self.ask)))?;
        send_ask(self.alloc, &self.ask, out)?;
        out.end_map()
    }
}

// The members of an ask of this kind, written again.
fn ask(alloc: Global, kind: AskKind, json: &Json) -> Result<String, ReadFail> {
    let ask = ask_of_json(alloc, kind, json)?;
    match serde_json::to_string(alloc, &Members { alloc, ask }) {
        Ok(text) => Ok(text),
        Err(_) => Err(ReadFail::NoMemory),
    }
}

fn ask_comes_back(alloc: Global, kind: AskKind, text: &str) -> bool {
    let Ok(json) = Json::from_str(alloc, text) else {
        return false;
    };
    match ask(alloc, kind, &json) {
        Ok(told) => told.as_str() == text,
        Err(_) => false,
    }
}

fn asks_are_told(rt: &impl Abort, alloc: Global, cases: &[(AskKind, &str)]) {
    for (kind, text) in cases {
        assert!(rt; ask_comes_back(alloc, *kind, text), "at {text}");
    }
}

struct EntryTexts;

impl Told<ReadFail> for EntryTexts {
    fn told(alloc: Global, text: &str) -> Result<Txt, ReadFail> {
        let Ok(json) = Json::from_str(alloc, text) else {
            return Err(ReadFail::NoMemory);
        };
        let read = entries_of_json(alloc, &json)?;
        Ok(text_of(alloc, &read)?)
    }
}

#[test]
fn asks_come_back(rt: HostRuntime) {
    asks_are_told(
        &rt,
        rt.alloc(),
        &[
            (AskKind::Execute, r#"{"stmt":{"sql":"a"}}"#),
            (AskKind::Batch, r#"{"batch":{"steps":[]}}"#),
            (AskKind::Sequence, r#"{"sql":"a;b"}"#),
            (AskKind::Sequence, r#"{"sql_id":-1}"#),
            (
                AskKind::Cursor,
                r#"{"batch":{"steps":[{"stmt":{"sql":"a"}}]}}"#,
            ),
            (AskKind::Fetch, r#"{"max_count":4294967295}"#),
            (AskKind::CloseCursor, "{}"),
            (AskKind::GetAutocommit, "{}"),
            (AskKind::StoreSql, r#"{"sql":"","sql_id":8}"#),
            (AskKind::CloseSql, r#"{"sql_id":7}"#),
            (AskKind::Close, "{}"),
        ],
    );
}

#[test]
fn entries_come_back(rt: HostRuntime) {
    let texts = [
        r#"[{"cols":[{"name":null}],"step":4294967295,"type":"step_begin"},{"row":[{"type":"null"}],"type":"row"},{"affected_row_count":18446744073709551615,"last_insert_rowid":"-9223372036854775808","type":"step_end"},{"error":{"code":"AUTH","message":"m"},"step":0,"type":"step_error"},{"error":{"code":null,"message":""},"type":"error"}]"#,
    ];
    come_back::<ReadFail, EntryTexts>(&rt, rt.alloc(), &texts);
}

// The first kind of decline is told, wherever it stands, also in an entry before one that can be read.
#[test]
fn other_entries_are_declined(rt: HostRuntime) {
    are_declined::<ReadFail, EntryTexts>(
        &rt,
        rt.alloc(),
        &[
            (r#"{"type":"row","row":[]}"#, Decline::Shape),
            (r#"[{"row":[]},{"type":"row","row":[]}]"#, Decline::Shape),
            (r#"[{"type":"rows","row":[]}]"#, Decline::Shape),
            (r#"[{"type":"row"}]"#, Decline::Shape),
            (
                r#"[{"type":"step_begin","step":4294967296,"cols":[]}]"#,
                Decline::Range,
            ),
            (
                r#"[{"type":"step_begin","step":0,"cols":[5,{"name":"a"}]}]"#,
                Decline::Shape,
            ),
            (
                r#"[{"type":"step_end","affected_row_count":0,"last_insert_rowid":7}]"#,
                Decline::Shape,
            ),
            (
                r#"[{"type":"step_error","step":0,"error":{}}]"#,
                Decline::Shape,
            ),
            (
                r#"[{"type":"row","row":[{"type":"float"}]},{"type":"step_end","affected_row_count":-1}]"#,
                Decline::Range,
            ),
            (
                r#"[{"type":"row","row":[{"type":"float"},{"type":"null"}]},{"type":"row","row":[]}]"#,
                Decline::Float,
            ),
        ],
    );
}
