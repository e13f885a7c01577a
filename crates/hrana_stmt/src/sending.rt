// Statements, results and errors as JSON text.
ghost use Rattle.std.specs.Prelude.{OnOk, Some};
ghost use Rattle.std.specs.Fmt.{signed_decimal};
ghost use Rattle.serde_json.specs.Data.{string};
ghost use Rattle.serde_json.specs.Events.{SendsValue};
ghost use Rattle.hrana_value.specs.Tree.{Int64TextTree};
ghost use Rattle.hrana_value.specs.Trees.{OptionalTree};
ghost use Rattle.hrana_stmt.specs.Tree.{ColTree, NamedArgTree, WireErrorTree, StmtResultTree};
ghost use Rattle.hrana_stmt.specs.Written.{optional_text, col_data, rowid_data, result_data, error_data, named_arg_data};

use crate::{Col, NamedArg, StmtResult, WireError};
use hrana_value::{JsonText, Txt, send_uint64};
use itoa::Buffer;
use serde::Serializer;
use std::alloc::Global;

/// Sends a text, and null for none.
pub fn send_optional_text<S: Serializer>(text: &Option<Txt>, out: &mut S) -> Result<(), S::Error>
    ensures { OnOk result (SendsValue (optional_text text.now) (S.written out.old) (S.written out.new)) }
{
    match text {
        Some(text) => out.str(text.as_str()),
        None => out.unit(),
    }
}

fn send_digits<S: Serializer>(number: i64, out: &mut S) -> Result<(), S::Error>
    ensures sends { OnOk result (SendsValue (string (signed_decimal number)) (S.written out.old) (S.written out.new)) }
    ensures back { OptionalTree Int64TextTree (Some number) (rowid_data (Some number)) }
{
    let mut buffer = Buffer::new();
    out.str(buffer.format(number))
}

/// Sends an integer as a string, and null for none.
pub fn send_optional_int64<S: Serializer>(number: Option<i64>, out: &mut S) -> Result<(), S::Error>
    ensures sends { OnOk result (SendsValue (rowid_data number) (S.written out.old) (S.written out.new)) }
    ensures back { OptionalTree Int64TextTree number (rowid_data number) }
{
    match number {
        Some(number) => send_digits(number, out),
        None => out.unit(),
    }
}

impl JsonText for Col {
    ghost form = { col_data };

    ghost tree = { ColTree };

    fn send<S: Serializer>(&self, _alloc: Global, out: &mut S) -> Result<(), S::Error> {
        out.begin_map(Some(1))?;
        out.key("name")?;
        send_optional_text(&self.name, out)?;
        out.end_map()
    }
}

impl JsonText for NamedArg {
    ghost form = { named_arg_data };

    ghost tree = { NamedArgTree };

    fn send<S: Serializer>(&self, alloc: Global, out: &mut S) -> Result<(), S::Error> {
        out.begin_map(Some(2))?;
        out.key("name")?;
        out.str(self.name.as_str())?;
        out.key("value")?;
        self.value.send(alloc, out)?;
        out.end_map()
    }
}

impl JsonText for WireError {
    ghost form = { error_data };

    ghost tree = { WireErrorTree };

    fn send<S: Serializer>(&self, _alloc: Global, out: &mut S) -> Result<(), S::Error> {
        out.begin_map(Some(2))?;
        out.key("code")?;
        send_optional_text(&self.code, out)?;
        out.key("message")?;
        out.str(self.message.as_str())?;
        out.end_map()
    }
}

impl JsonText for StmtResult {
    ghost form = { result_data };

    ghost tree = { StmtResultTree };

    fn send<S: Serializer>(&self, alloc: Global, out: &mut S) -> Result<(), S::Error> {
        out.begin_map(Some(4))?;
        out.key("affected_row_count")?;
        send_uint64(self.affected, out)?;
        out.key("cols")?;
        self.cols.send(alloc, out)?;
        out.key("last_insert_rowid")?;
        send_optional_int64(self.last_rowid, out)?;
        out.key("rows")?;
        self.rows.send(alloc, out)?;
        out.end_map()
    }
}
