// Statements as JSON text.
ghost use Rattle.std.specs.Prelude.{◌≡◌, OnOk, map, codes, false};
ghost use Rattle.serde_json.specs.Data.{array, boolean};
ghost use Rattle.serde_json.specs.Events.{members_len};
ghost use Rattle.serde_json.specs.View.{items_of};
ghost use Rattle.hrana_value.specs.Sent.{SendsFront};
ghost use Rattle.hrana_value.specs.Whole.{IsWhole};
ghost use Rattle.hrana_value.specs.Trees.{ArrayTree};
ghost use Rattle.hrana_stmt.specs.Puts.{SqlIdFits};
ghost use Rattle.hrana_stmt.specs.Tree.{StmtTree};
ghost use Rattle.hrana_stmt.specs.Written.{is_empty, member_unless, sql_member, sql_part, stmt_members, stmt_data};

use crate::{SqlRef, Stmt};
use hrana_value::{JsonText, send_int32, send_list};
use serde::Serializer;
use std::alloc::Global;

fn send_list_unless_empty<T: JsonText, S: Serializer>(
    alloc: Global,
    name: &str,
    items: &[T],
    out: &mut S,
) -> Result<(), S::Error>
    ensures sends { OnOk result (SendsFront (member_unless (is_empty items.now) name.now (array (items_of (map T.form items.now)))) (S.written out.old) (S.written out.new)) }
    ensures whole { OnOk result (IsWhole (array (items_of (map T.form items.now)))) }
    ensures back { OnOk result (ArrayTree T.tree items.now (array (items_of (map T.form items.now)))) }
{
    if items.is_empty() {
        return Ok(());
    }
    out.key(name)?;
    send_list(alloc, items, out)
}

/// Sends `sql` or `sql_id`, as a member of an object.
pub fn send_sql<S: Serializer>(sql: &SqlRef, out: &mut S) -> Result<(), S::Error>
    ensures sends { OnOk result (SendsFront (sql_member sql.now) (S.written out.old) (S.written out.new)) }
    ensures whole { OnOk result (IsWhole (sql_part sql.now)) }
    ensures fits { OnOk result (SqlIdFits sql.now) }
{
    match sql {
        SqlRef::Text(text) => {
            out.key("sql")?;
            out.str(text.as_str())
        }
        SqlRef::Id(number) => {
            out.key("sql_id")?;
            send_int32(*number, out)
        }
    }
}

fn send_want_rows<S: Serializer>(want_rows: bool, out: &mut S) -> Result<(), S::Error>
    ensures { OnOk result (SendsFront (member_unless want_rows (codes "want_rows") (boolean false)) (S.written out.old) (S.written out.new)) }
{
    if want_rows {
        return Ok(());
    }
    out.key("want_rows")?;
    out.bool(false)
}

fn member_count(stmt: &Stmt) -> usize
    ensures { result ≡ members_len (stmt_members stmt.now) }
{
    let args = usize::from(!stmt.args.as_slice().is_empty());
    let named = usize::from(!stmt.named.as_slice().is_empty());
    let want_rows = usize::from(!stmt.want_rows);
    args + named + 1 + want_rows
}

impl JsonText for Stmt {
    ghost form = { stmt_data };

    ghost tree = { StmtTree };

    fn send<S: Serializer>(&self, alloc: Global, out: &mut S) -> Result<(), S::Error> {
        out.begin_map(Some(member_count(self)))?;
        send_list_unless_empty(alloc, "args", self.args.as_slice(), out)?;
        send_list_unless_empty(alloc, "named_args", self.named.as_slice(), out)?;
        send_sql(&self.sql, out)?;
        send_want_rows(self.want_rows, out)?;
        out.end_map()
    }
}
