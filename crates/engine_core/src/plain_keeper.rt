// The plainest engine: one table `t` with one column `a`, and two statements.
ghost use Rattle.std.specs.Prelude.{◌≡◌, ◌≤◌, ◌+◌, ◌^◌, ◌∷◌, true, false, refl, [], map, IfOk};
ghost use Rattle.engine_core.specs.Engine.{is_write};
ghost use Rattle.engine_core.specs.Plain.{RunsAs, plain_insert, plain_select, kind_of, first_value, fits_result, selected, exec_kind, plain_exec, single_of};
ghost use Rattle.engine_core.specs.Results.{value_size, IsSmall};
ghost use Rattle.engine_core.specs.Transactions.{NoneLive, lives_of};
ghost use Rattle.engine_core.specs.PlainMeaning.{plain_meaning};

use crate::{BoundStmt, Class, Engine, EngineFail, MAX_RESULT_BYTES, MAX_ROWS};
use hrana_stmt::{Code, Col, Cols, Rows, StmtResult};
use hrana_value::{NoMemory, Txt, Value, Values};
use std::alloc::Global;

const MAX_ROWID: usize = 9223372036854775806;

/// An engine with one table `t` of one column `a`, empty at first. It knows the two texts
/// `INSERT INTO t VALUES (?)` and `SELECT a FROM t`, and refuses any other as `SYNTAX`.
#[derive(Drop)]
pub struct PlainKeeper {
    alloc: Global,
    column: Values,
    running: Option<Running>,
}

// The one transaction that may live.
#[derive(Drop)]
struct Running {
    txn: u64,
    column: Values,
    writes: bool,
}

impl PlainKeeper {
    pub fn new(alloc: Global) -> Result<PlainKeeper, NoMemory>
        ensures database { IfOk result (λ k. ⟦<PlainKeeper as Engine>⟧.db k ≡ []) }
        ensures none_lives { IfOk result (λ k. NoneLive (⟦<PlainKeeper as Engine>⟧.live k)) }
    {
        Ok(PlainKeeper {
            alloc,
            column: Values::new(alloc),
            running: None,
        })
    }
}

/// Which statement a text is.
#[derive(Clone, Copy)]
enum Kind {
    Insert,
    Select,
    Other,
}

fn writes(class: Class) -> bool
    ensures { result ≡ is_write class }
{
    match class {
        Class::Write => true,
        _ => false,
    }
}

fn kind_of_text(write: bool, sql: &str) -> Kind
    ensures { result ≡ kind_of write sql.now }
{
    if write {
        if sql == "INSERT INTO t VALUES (?)" {
            Kind::Insert
        } else {
            Kind::Other
        }
    } else if sql == "SELECT a FROM t" {
        Kind::Select
    } else {
        Kind::Other
    }
}

fn value_of(alloc: Global, values: &[Value]) -> Result<Value, NoMemory>
    ensures { IfOk result (λ v. v ≡ first_value values.now) }
{
    match values {
        [first, ..] => first.copy(alloc),
        [] => Ok(Value::Null),
    }
}

fn insert(alloc: Global, column: &mut Values, values: &[Value]) -> Result<StmtResult, EngineFail>
    ensures runs { RunsAs (plain_insert column.old values.now) column.old result column.new }
    ensures small { IfOk result IsSmall }
{
    if column.as_slice().len() >= MAX_ROWID {
        return Err(EngineFail::Refused(Code::Overflow));
    }
    let rowid = column.as_slice().len() + 1;
    let value = value_of(alloc, values)?;
    column.push(value)?;
    Ok(StmtResult {
        cols: Cols::new(alloc),
        rows: Rows::new(alloc),
        affected: 1,
        last_rowid: Some(rowid as i64),
    })
}

fn size_of_value(value: &Value) -> usize
    ensures size { result ≡ value_size value.now }
    ensures small { result ≤ 2 ^ 63 + 8 }
{
    match value {
        Value::Null => 8,
        Value::Integer(_) => 8,
        Value::Text(text) => 8 + text.as_str().len(),
        Value::Blob(bytes) => 8 + bytes.as_slice().len(),
    }
}

/// Whether the column is a result that may be given.
fn fits(column: &[Value]) -> bool
    ensures { result ≡ fits_result column.now }
{
    if column.len() > MAX_ROWS {
        return false;
    }
    let mut size = 0;
    for value in column {
        size += size_of_value(value);
        if size > MAX_RESULT_BYTES {
            return false;
        }
    }
    true
}

fn row_of(alloc: Global, value: &Value) -> Result<Values, NoMemory>
    ensures { IfOk result (λ row. row ≡ value.now ∷ []) }
{
    let mut row = Values::new(alloc);
    row.push(value.copy(alloc)?)?;
    Ok(row)
}

fn rows_of(alloc: Global, column: &[Value]) -> Result<Rows, NoMemory>
    ensures { IfOk result (λ rows. rows ≡ map (λ value. value ∷ []) column.now) }
{
    let mut rows = Rows::new(alloc);
    for value in column {
        rows.push(row_of(alloc, value)?)?;
    }
    Ok(rows)
}

fn result_of(alloc: Global, column: &[Value]) -> Result<StmtResult, NoMemory>
    ensures { IfOk result (λ given. given ≡ selected column.now) }
{
    let rows = rows_of(alloc, column)?;
    let mut cols = Cols::new(alloc);
    cols.push(Col {
        name: Some(Txt::new(alloc, "a")?),
    })?;
    Ok(StmtResult {
        cols,
        rows,
        affected: 0,
        last_rowid: None,
    })
}

fn select(alloc: Global, column: &[Value]) -> Result<StmtResult, EngineFail>
    ensures runs { RunsAs (plain_select column.now) column.now result column.now }
    ensures small { IfOk result IsSmall }
{
    if !fits(column) {
        return Err(EngineFail::Refused(Code::ResultTooLarge));
    }
    Ok(result_of(alloc, column)?)
}

/// Runs the statement that a text is.
fn run_kind(
    alloc: Global,
    kind: Kind,
    column: &mut Values,
    values: &[Value],
) -> Result<StmtResult, EngineFail>
    ensures runs { RunsAs (exec_kind kind column.old values.now) column.old result column.new }
    ensures small { IfOk result IsSmall }
{
    match kind {
        Kind::Insert => insert(alloc, column, values),
        Kind::Select => select(alloc, column.as_slice()),
        Kind::Other => Err(EngineFail::Refused(Code::Syntax)),
    }
}

/// Runs a statement on a column.
fn run_text(alloc: Global, column: &mut Values, stmt: &BoundStmt) -> Result<StmtResult, EngineFail>
    ensures runs { RunsAs (plain_exec column.old stmt.now) column.old result column.new }
    ensures small { IfOk result IsSmall }
{
    let kind = kind_of_text(writes(stmt.class), stmt.sql.as_str());
    run_kind(alloc, kind, column, stmt.values.as_slice())
}

impl Engine for PlainKeeper {
    const SHARED: bool = false;

    ghost SHARED = { false };

    type Db = Values;

    ghost told = { true };

    ghost meaning = { plain_meaning };

    ghost db = { λ k. k.column };

    ghost live = { λ k. lives_of k.column (single_of k.running) };

    ghost faults = { λ _. 0 };

    ghost reads = { λ _. refl };

    ghost writes = { λ _. refl };

    ghost refusals = { λ _. refl };

    fn begin(&mut self, txn: u64, write: bool) -> Result<(), EngineFail> {
        self.running = Some(Running {
            txn,
            column: self.column.copy(self.alloc)?,
            writes: write,
        });
        Ok(())
    }

    fn run(&mut self, _txn: u64, stmt: &BoundStmt) -> Result<StmtResult, EngineFail> {
        let Some(mut running) = self.running.take() else {
            unreachable!();
        };
        let result = run_text(self.alloc, &mut running.column, stmt);
        if let Err(EngineFail::NoMemory) = result {
            return result;
        }
        running.writes = running.writes || writes(stmt.class);
        self.running = Some(running);
        result
    }

    fn commit(&mut self, _txn: u64) -> Result<(), EngineFail> {
        if let Some(running) = self.running.take() {
            self.column = running.column;
        }
        Ok(())
    }

    fn drop_txn(&mut self, _txn: u64) {
        self.running = None;
    }

    fn alone(&mut self, stmt: &BoundStmt) -> Result<StmtResult, EngineFail> {
        run_text(self.alloc, &mut self.column, stmt)
    }
}
