// The members of replies from JSON trees, which both transports share: all but `type`.
ghost use Rattle.serde_json.specs.View.{view};
ghost use Rattle.hrana_value.specs.Declines.{Reads, EitherStands};
ghost use Rattle.hrana_value.specs.Trees.{ArrayTree, ArrayStands};
ghost use Rattle.stream_requests.specs.Entries.{EntryTree, EntryStands};
ghost use Rattle.stream_requests.specs.Replies.{BooleanTree, BooleanStands, IsReplyTo, ReplyMembersStand, NoMembersAreTwoReplies, RepliesAreRead};

use crate::{AskKind, Reply, entries_of_json};
use hrana_batch::{batch_result_of_json, batch_results_are_read, no_tree_is_two_batch_results};
use hrana_stmt::result_of_json;
use hrana_value::{Decline, ReadFail, both_readings, member_or_null, members};
use serde_json::Value as Json;
use std::alloc::Global;

fn executed_of_json(alloc: Global, json: &Json) -> Result<Reply, ReadFail>
    ensures { Reads (λ r. IsReplyTo AskKind.Execute r (view json.now)) (ReplyMembersStand AskKind.Execute (view json.now)) result }
{
    let given = result_of_json(alloc, member_or_null(json, "result", &Json::Null))?;
    Ok(Reply::Execute(given))
}

fn batch_reply_of_json(alloc: Global, json: &Json) -> Result<Reply, ReadFail>
    ensures { Reads (λ r. IsReplyTo AskKind.Batch r (view json.now)) (ReplyMembersStand AskKind.Batch (view json.now)) result }
{
    match batch_result_of_json(alloc, member_or_null(json, "result", &Json::Null)) {
        Ok(given) => Ok(Reply::Batch(given)),
        Err(fail) => Err(fail),
    }
}

fn boolean_of_json(json: &Json) -> Result<bool, ReadFail>
    ensures { Reads (λ b. BooleanTree b (view json.now)) (BooleanStands (view json.now)) result }
{
    match json.as_bool() {
        Some(flag) => Ok(flag),
        None => Err(ReadFail::Declined(Decline::Shape)),
    }
}

fn fetched_of_json(alloc: Global, json: &Json) -> Result<Reply, ReadFail>
    ensures { Reads (λ r. IsReplyTo AskKind.Fetch r (view json.now)) (ReplyMembersStand AskKind.Fetch (view json.now)) result }
{
    members!(json; entries = "entries": entries_of_json(alloc), done = "done": boolean_of_json());
    let (entries, done) = both_readings(entries, done)?;
    Ok(Reply::Fetched { entries, done })
}

fn autocommit_of_json(json: &Json) -> Result<Reply, ReadFail>
    ensures { Reads (λ r. IsReplyTo AskKind.GetAutocommit r (view json.now)) (ReplyMembersStand AskKind.GetAutocommit (view json.now)) result }
{
    let auto = boolean_of_json(member_or_null(json, "is_autocommit", &Json::Null))?;
    Ok(Reply::Autocommit(auto))
}

/// Reads the members of a reply to asks of this kind.
pub fn reply_of_json(alloc: Global, kind: AskKind, json: &Json) -> Result<Reply, ReadFail>
    ensures { Reads (λ r. IsReplyTo kind r (view json.now)) (ReplyMembersStand kind (view json.now)) result }
{
    match kind {
        AskKind::Execute => executed_of_json(alloc, json),
        AskKind::Batch => batch_reply_of_json(alloc, json),
        AskKind::Sequence => Ok(Reply::Sequence),
        AskKind::Cursor => Ok(Reply::Cursor),
        AskKind::Fetch => fetched_of_json(alloc, json),
        AskKind::CloseCursor => Ok(Reply::CursorClosed),
        AskKind::GetAutocommit => autocommit_of_json(json),
        AskKind::StoreSql => Ok(Reply::SqlStored),
        AskKind::CloseSql => Ok(Reply::SqlClosed),
        AskKind::Close => Ok(Reply::Closed),
    }
}

/// Members are those of at most one reply to asks of a kind.
pub fn no_members_are_two_replies()
    ensures { NoMembersAreTwoReplies }
{
    no_tree_is_two_batch_results();
}

/// Nothing is declined in the members of a reply.
pub fn replies_are_read()
    ensures { RepliesAreRead }
{
    batch_results_are_read();
}
