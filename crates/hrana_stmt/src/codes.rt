ghost use Rattle.std.specs.Prelude.{◌≡◌, map};
ghost use Rattle.hrana_value.specs.Names.{RowsDiffer};
ghost use Rattle.hrana_stmt.specs.Codes.{name_of, message_of, CodesDiffer};

use hrana_value::name;

/// Why a request is refused.
#[derive(Clone, Copy, Debug, PartialEq, Eq)]
pub enum Code {
    FloatUnsupported,
    DescribeUnsupported,
    UnknownRequest,
    BadStep,
    BadRequest,
    Auth,
    StreamNotOpen,
    StreamExists,
    TooManyStreams,
    StreamLost,
    CursorNotOpen,
    CursorExists,
    CursorOpen,
    SqlIdInUse,
    NoSqlId,
    TooManyTexts,
    BatonDead,
    NoToken,
    NoMemory,
    SqlOpen,
    NoStatement,
    ManyStatements,
    SavepointUnsupported,
    SqlUnsupported,
    Args,
    TxnOpen,
    NoTxn,
    Busy,
    EngineFault,
    SqlRefused,
    Syntax,
    NoTable,
    NoColumn,
    TableExists,
    Constraint,
    BadType,
    Overflow,
    ResultTooLarge,
}

/// The codes as they are sent, in the order of `Code`.
pub const CODE_NAMES: [&str; 38] = [
    "FLOAT_UNSUPPORTED",
    "DESCRIBE_UNSUPPORTED",
    "UNKNOWN_REQUEST",
    "BAD_STEP",
    "BAD_REQUEST",
    "AUTH",
    "STREAM_NOT_OPEN",
    "STREAM_EXISTS",
    "TOO_MANY_STREAMS",
    "STREAM_LOST",
    "CURSOR_NOT_OPEN",
    "CURSOR_EXISTS",
    "CURSOR_OPEN",
    "SQL_ID_IN_USE",
    "NO_SQL_ID",
    "TOO_MANY_TEXTS",
    "BATON_DEAD",
    "NO_TOKEN",
    "NO_MEMORY",
    "SQL_OPEN",
    "NO_STATEMENT",
    "MANY_STATEMENTS",
    "SAVEPOINT_UNSUPPORTED",
    "SQL_UNSUPPORTED",
    "ARGS",
    "TXN_OPEN",
    "NO_TXN",
    "BUSY",
    "ENGINE_FAULT",
    "SQL_REFUSED",
    "SYNTAX",
    "NO_TABLE",
    "NO_COLUMN",
    "TABLE_EXISTS",
    "CONSTRAINT",
    "TYPE",
    "OVERFLOW",
    "RESULT_TOO_LARGE",
];

/// The messages that are sent with the codes, in the order of `Code`.
pub const CODE_MESSAGES: [&str; 38] = [
    "float values are not supported",
    "describe is not supported",
    "unknown request type",
    "condition names a step that is not earlier",
    "malformed request",
    "authentication failed",
    "stream is not open",
    "stream id is in use",
    "too many streams",
    "stream was lost",
    "cursor is not open",
    "cursor id is in use",
    "stream has an open cursor",
    "sql id is in use",
    "sql id is not stored",
    "too many stored texts",
    "baton is not valid",
    "no token could be drawn",
    "out of memory",
    "quote or comment is not closed",
    "text holds no statement",
    "text holds more than one statement",
    "savepoints are not supported",
    "statement is not supported",
    "arguments do not match parameters",
    "a transaction is open",
    "no transaction is open",
    "database is locked",
    "engine failed",
    "engine refused the statement",
    "statement is not understood",
    "no such table",
    "no such column",
    "table exists",
    "primary key constraint failed",
    "operand is not an integer",
    "integer overflow",
    "result is too large",
];

/// The code as it is sent.
pub fn code_name(code: Code) -> &'static str
    ensures { result.now ≡ name_of code }
{
    name(&CODE_NAMES, code as usize)
}

/// The message that is sent with the code.
pub fn code_message(code: Code) -> &'static str
    ensures { result.now ≡ message_of code }
{
    name(&CODE_MESSAGES, code as usize)
}

/// No two rows of the table of codes have one name.
pub fn code_names_differ()
    ensures { RowsDiffer (map (λ row. row.now) CODE_NAMES) }
{}

/// No two rows of the table of messages have one text.
pub fn code_messages_differ()
    ensures { RowsDiffer (map (λ row. row.now) CODE_MESSAGES) }
{}

/// No two codes share a name.
pub fn codes_differ()
    ensures { CodesDiffer }
{}
