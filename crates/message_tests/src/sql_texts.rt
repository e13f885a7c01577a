// Pieces, classes, spans and bindings of SQL texts.
use hrana_stmt::{NamedArg, NamedArgs};
use hrana_value::{Txt, Value, Values};
use sql_text::{
    BindFail, Class, Mode, PrepareFail, Prepared, SplitFail, StatementFail, bind, class_of,
    limits_are, prepare, split, statement_of,
};
use std::alloc::Global;
use std::process::Abort;

fn have_classes(rt: &impl Abort, cases: &[(&str, Class)]) {
    for (sql, class) in cases {
        assert!(rt; class_of(sql) == *class, "the class of {sql}");
    }
}

#[test]
fn classes_of_texts(rt: HostRuntime) {
    have_classes(
        &rt,
        &[
            ("", Class::Empty),
            ("-- x", Class::Empty),
            ("'BEGIN", Class::Empty),
            ("BEGIN", Class::Begin(Mode::Deferred)),
            ("begin transaction readonly", Class::Begin(Mode::Deferred)),
            ("BEGIN/**/IMMEDIATE;", Class::Begin(Mode::Immediate)),
            ("BEGIN EXCLUSIVE TRANSACTION", Class::Begin(Mode::Immediate)),
            ("BEGIN READONLY", Class::Barred),
            ("/* x */ END TRANSACTION", Class::Commit),
            ("; -- x\n;COMMIT; SELECT 1", Class::Commit),
            ("ROLLBACK TRANSACTION", Class::Rollback),
            ("ROLLBACK TO a", Class::Savepoint),
            ("RELEASE a", Class::Savepoint),
            ("PRAGMA x", Class::Barred),
            ("WITH t AS (SELECT 1) SELECT 1", Class::Read),
            ("SELECT 'x", Class::Read),
            ("SELECT$ 1", Class::Write),
            ("[COMMIT]", Class::Write),
            ("(SELECT 1)", Class::Write),
        ],
    );
}

fn has_spans(alloc: Global, sql: &str, wanted: &[(usize, usize)]) -> bool {
    let Ok(spans) = split(alloc, sql) else {
        return false;
    };
    if spans.len() != wanted.len() {
        return false;
    }
    for (span, (start, end)) in spans.iter().zip(wanted) {
        if span.start != *start || span.end != *end {
            return false;
        }
    }
    true
}

fn all_split(rt: &impl Abort, alloc: Global, cases: &[(&str, &[(usize, usize)])]) {
    for (sql, wanted) in cases {
        assert!(rt; has_spans(alloc, sql, wanted), "{sql}");
    }
}

fn is_unclosed(alloc: Global, sql: &str, at: usize) -> bool {
    match split(alloc, sql) {
        Ok(_) => false,
        Err(fail) => fail == SplitFail::Unclosed { at },
    }
}

fn all_unclosed(rt: &impl Abort, alloc: Global, cases: &[(&str, usize)]) {
    for (sql, at) in cases {
        assert!(rt; is_unclosed(alloc, sql, *at), "{sql}");
    }
}

#[test]
fn texts_are_split(rt: HostRuntime) {
    let spans: [(&str, &[(usize, usize)]); 7] = [
        ("a;'b;c';--d", &[(0, 1), (2, 7)]),
        (" ; ;; -- x", &[]),
        ("a /* b */ c", &[(0, 11)]),
        ("/* /* */ ; x", &[(11, 12)]),
        ("\"a\"\";\";b", &[(0, 6), (7, 8)]),
        ("[a;b]];c", &[(0, 6), (7, 8)]),
        ("é;ü", &[(0, 2), (3, 5)]),
    ];
    let unclosed = [("SELECT 'x", 7), ("/*/", 0), ("a;[b", 2), ("-- '\n/* *", 5)];
    all_split(&rt, rt.alloc(), &spans);
    all_unclosed(&rt, rt.alloc(), &unclosed);
}

fn are_statements(rt: &impl Abort, alloc: Global, cases: &[(&str, Result<&str, StatementFail>)]) {
    for (sql, statement) in cases {
        assert!(rt; statement_of(alloc, sql) == *statement, "{sql}");
    }
}

#[test]
fn texts_of_one_statement(rt: HostRuntime) {
    are_statements(
        &rt,
        rt.alloc(),
        &[
            (" ; SELECT 1 -- x", Ok("SELECT 1")),
            ("'a;b';", Ok("'a;b'")),
            (
                "/* a */\nSELECT /* ; */ -1;; /* b */",
                Ok("SELECT /* ; */ -1"),
            ),
            (" ;; -- x", Err(StatementFail::Empty)),
            ("a;;b;c;", Err(StatementFail::Many)),
            ("a; b; /* ", Err(StatementFail::Unclosed { at: 6 })),
        ],
    );
}

// The values that some positional and named integers give a text.
fn bound_integers(
    alloc: Global,
    sql: &str,
    args: &[i64],
    named: &[(&str, i64)],
) -> Result<Values, BindFail> {
    let mut values = Values::new(alloc);
    for number in args {
        values.push(Value::Integer(*number))?;
    }
    let mut names = NamedArgs::new(alloc);
    for (name, number) in named {
        let name = Txt::new(alloc, name)?;
        let value = Value::Integer(*number);
        names.push(NamedArg { name, value })?;
    }
    bind(alloc, sql, values.as_slice(), names.as_slice())
}

fn binds(alloc: Global, sql: &str, args: &[i64], named: &[(&str, i64)], wanted: &[i64]) -> bool {
    let Ok(values) = bound_integers(alloc, sql, args, named) else {
        return false;
    };
    if values.as_slice().len() != wanted.len() {
        return false;
    }
    for (value, number) in values.as_slice().iter().zip(wanted) {
        if !matches!(value, Value::Integer(found) if *found == *number) {
            return false;
        }
    }
    true
}

const NAMES: &str = "SELECT ?, :a, ?3, :a";

#[test]
fn arguments_are_bound(rt: HostRuntime) {
    let alloc = rt.alloc();
    assert!(rt; binds(alloc, NAMES, &[1, 2, 3], &[("a", 9)], &[1, 9, 3]));
    assert!(rt;
        binds(
            alloc,
            "SELECT ?3, :a",
            &[1, 2, 3],
            &[(":a", 4)],
            &[1, 2, 3, 4]
        )
    );
    assert!(rt; binds(alloc, "SELECT ?2, ?, ?", &[1, 2, 3, 4], &[], &[1, 2, 3, 4]));
    assert!(rt; binds(alloc, "SELECT ':a', \"?\", [?9], : -- ?9", &[], &[], &[]));
    assert!(rt;
        binds(
            alloc,
            "SELECT @a, :a",
            &[],
            &[(":a", 1), ("@a", 2)],
            &[2, 1]
        )
    );
    assert!(rt; binds(alloc, "SELECT :a", &[7], &[("a", 1), (":a", 2)], &[2]));
}

fn refuses(
    alloc: Global,
    sql: &str,
    args: &[i64],
    named: &[(&str, i64)],
    wanted: BindFail,
) -> bool {
    match bound_integers(alloc, sql, args, named) {
        Ok(_) => false,
        Err(fail) => fail == wanted,
    }
}

fn all_refuse(rt: &impl Abort, alloc: Global, cases: &[(&str, &[i64], BindFail)]) {
    for (sql, args, wanted) in cases {
        assert!(rt; refuses(alloc, sql, args, &[], *wanted), "{sql}");
    }
}

#[test]
fn arguments_are_refused(rt: HostRuntime) {
    limits_are();
    let alloc = rt.alloc();
    let cases: [(&str, &[i64], BindFail); 8] = [
        ("SELECT ?0 'x", &[], BindFail::Unclosed { at: 10 }),
        ("?0", &[1], BindFail::BadNumber),
        ("?257", &[1], BindFail::BadNumber),
        ("?256, ?", &[1], BindFail::BadNumber),
        ("?18446744073709551617", &[1], BindFail::BadNumber),
        (NAMES, &[1, 2, 3, 4], BindFail::Unexpected),
        (NAMES, &[1], BindFail::Missing(2)),
        ("SELECT ?256", &[], BindFail::Missing(256)),
    ];
    all_refuse(&rt, alloc, &cases);
    let unexpected = BindFail::Unexpected;
    assert!(rt; refuses(alloc, "SELECT $a", &[], &[(":a", 1)], unexpected));
    let missing = BindFail::Missing(1);
    assert!(rt; refuses(alloc, "SELECT @a, :a", &[], &[("a", 1)], missing));
}

// What a text is prepared as with so many integers, from 0, as its positional arguments.
fn prepared_with(alloc: Global, sql: &str, count: u16) -> Result<Prepared, PrepareFail> {
    let mut args = Values::new(alloc);
    for number in 0..count {
        args.push(Value::Integer(i64::from(number)))?;
    }
    prepare(alloc, sql, args.as_slice(), &[])
}

fn is_prepared(alloc: Global, sql: &str, count: u16, statement: &str, class: Class) -> bool {
    let Ok(prepared) = prepared_with(alloc, sql, count) else {
        return false;
    };
    let mut next = 0u16;
    for value in prepared.values.as_slice() {
        if !matches!(value, Value::Integer(number) if *number == i64::from(next)) {
            return false;
        }
        next = next.saturating_add(1);
    }
    next == count && prepared.class == class && prepared.sql.as_str() == statement
}

fn are_prepared(rt: &impl Abort, alloc: Global, cases: &[(&str, u16, &str, Class)]) {
    for (sql, count, statement, class) in cases {
        assert!(rt; is_prepared(alloc, sql, *count, statement, *class), "{sql}");
    }
}

#[test]
fn texts_are_prepared(rt: HostRuntime) {
    are_prepared(
        &rt,
        rt.alloc(),
        &[
            (
                " ; INSERT INTO t VALUES (?, ?) -- ?",
                2,
                "INSERT INTO t VALUES (?, ?)",
                Class::Write,
            ),
            ("/* é */SELECT ?3 ;;", 3, "SELECT ?3", Class::Read),
            (
                "BEGIN /* x */ IMMEDIATE;",
                0,
                "BEGIN /* x */ IMMEDIATE",
                Class::Begin(Mode::Immediate),
            ),
            (
                "begin transaction readonly",
                0,
                "begin transaction readonly",
                Class::Begin(Mode::Deferred),
            ),
            ("END TRANSACTION;", 0, "END TRANSACTION", Class::Commit),
            (";rollback", 0, "rollback", Class::Rollback),
        ],
    );
}

fn is_refused(alloc: Global, sql: &str, count: u16, wanted: PrepareFail) -> bool {
    match prepared_with(alloc, sql, count) {
        Ok(_) => false,
        Err(fail) => fail == wanted,
    }
}

fn are_refused(rt: &impl Abort, alloc: Global, cases: &[(&str, u16, PrepareFail)]) {
    for (sql, count, wanted) in cases {
        assert!(rt; is_refused(alloc, sql, *count, *wanted), "{sql}");
    }
}

#[test]
fn texts_are_refused_in_order(rt: HostRuntime) {
    are_refused(
        &rt,
        rt.alloc(),
        &[
            (" ; /*", 1, PrepareFail::Unclosed { at: 3 }),
            ("SAVEPOINT a; ? 'x", 0, PrepareFail::Unclosed { at: 15 }),
            (" ;; -- ?", 1, PrepareFail::Empty),
            ("SAVEPOINT a; PRAGMA ?0", 0, PrepareFail::Many),
            ("SELECT 1;; SELECT ?;", 0, PrepareFail::Many),
            ("ROLLBACK TO ?;", 0, PrepareFail::Savepoint),
            ("COMMIT ?0", 0, PrepareFail::Barred),
            ("PRAGMA x", 1, PrepareFail::Barred),
            ("SELECT ?257", 0, PrepareFail::Args),
            ("SELECT ?, ?", 3, PrepareFail::Args),
            ("INSERT INTO t VALUES (?, ?)", 1, PrepareFail::Args),
            ("BEGIN", 1, PrepareFail::Args),
        ],
    );
}
