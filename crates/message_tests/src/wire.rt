// Requests and upgrades from the bytes of a connection, and the bytes of answers.
use hrana_value::{Bytes, NoMemory};
use http_wire::{
    Allow, Fed, HttpAnswer, HttpAsk, Method, Wire, WireFail, answer_bytes, limits_are, refusal,
    upgrade_bytes,
};
use std::alloc::Global;
use std::process::Abort;

/// A request in short.
fn request(alloc: Global, ask: &HttpAsk) -> Result<String, NoMemory> {
    let method = match ask.method {
        Method::Get => "GET",
        Method::Post => "POST",
        Method::Other => "other",
    };
    let bearer = match &ask.bearer {
        None => "-",
        Some(text) => text.as_str(),
    };
    let path = ask.path.as_str();
    let size = ask.body.as_slice().len();
    let end = if ask.close { "close" } else { "stay" };
    Ok(format!(in alloc; "{method} {path} {bearer} {size} {end}|")?)
}

fn told(alloc: Global, answer: &Result<Fed, WireFail>) -> Result<String, NoMemory> {
    match answer {
        Ok(Fed::More) => Ok(String::new(alloc)),
        Ok(Fed::Ask(ask)) => request(alloc, ask),
        Ok(Fed::Upgrade(_, _)) => Ok(String::from_str(alloc, "upgrade|")?),
        Err(fail) => Ok(format!(in alloc; "{fail:?}")?),
    }
}

/// Feeds a piece, and adds what is told then: whether more can be fed.
fn feed(alloc: Global, wire: &mut Wire, piece: &[u8], all: &mut String) -> Result<bool, NoMemory> {
    let answer = wire.feed(alloc, piece);
    all.push_str(told(alloc, &answer)?.as_str())?;
    Ok(answer.is_ok())
}

/// What the bytes give in two pieces, each asked for up to two requests, and the number of bytes held then, or the refusal.
fn given(alloc: Global, bytes: &[u8], cut: usize) -> Result<String, NoMemory> {
    let (first, second) = bytes.split_at(cut.min(bytes.len()));
    let mut wire = Wire::new(alloc)?;
    let mut all = String::new(alloc);
    for piece in [first, &[], second, &[], &[]] {
        if !feed(alloc, &mut wire, piece, &mut all)? {
            return Ok(all);
        }
    }
    let held = wire.into_rest().as_slice().len();
    all.push_str(format!(in alloc; "{held}")?.as_str())?;
    Ok(all)
}

fn gives(alloc: Global, bytes: &[u8], cut: usize, want: &str) -> bool {
    match given(alloc, bytes, cut) {
        Ok(given) => given.as_str() == want,
        Err(_) => false,
    }
}

const UPGRADE: &str =
    "GET /any HTTP/1.1\r\nHost: h\r\nUpgrade: WebSocket\r\nConnection: keep-alive, Upgrade\r\nSec-WebSocket-Version: 13\r\nSec-WebSocket-Key: dGhlIHNhbXBsZSBub25jZQ==\r\nSec-WebSocket-Protocol: hrana2, hrana3\r\n\r\n";

fn every_cut(rt: &impl Abort, alloc: Global, text: &str, want: &str) {
    for cut in 0..text.len() {
        assert!(rt;
            gives(alloc, text.as_bytes(), cut, want),
            "{text} cut at {cut}"
        );
    }
}

#[test]
fn every_cut_gives_the_same(rt: HostRuntime) {
    for (text, want) in [
        (
            "POST /v3/pipeline HTTP/1.1\r\nHost: h\r\nContent-Length: 15\r\n\r\n{\"requests\":[]}",
            "POST /v3/pipeline - 15 stay|0",
        ),
        (
            "POST /v3/pipeline HTTP/1.1\r\nHost: h\r\nContent-Length: 15\r\n\r\n{\"requests\":[]",
            "73",
        ),
        (
            "POST /a HTTP/1.1\r\nHost: h\r\nContent-Length: 1\r\n\r\nxGET /b HTTP/1.1\r\nhost: h\r\n\r\nGE",
            "POST /a - 1 stay|GET /b - 0 stay|2",
        ),
        (
            "PUT /c?d HTTP/1.1\r\nHost:\r\nAuthorization: bEaReR  s\r\nConnection: x, Close\r\n\r\n",
            "other /c?d  s 0 close|0",
        ),
        (UPGRADE, "upgrade|0"),
    ] {
        every_cut(&rt, rt.alloc(), text, want);
    }
}

fn all_give(rt: &impl Abort, alloc: Global, cases: &[(&str, &str)]) {
    for (text, want) in cases {
        assert!(rt; gives(alloc, text.as_bytes(), 0, want), "{text}");
    }
}

#[test]
fn refusals_come_in_their_order(rt: HostRuntime) {
    all_give(
        &rt,
        rt.alloc(),
        &[
            ("POST /v3/pipeline HTTP/1.1\r\nHost: h\r\n\r\n", "Length411"),
            (
                "POST /v3/pipeline HTTP/1.1\r\nHost: h\r\nContent-Length: 262145\r\n\r\n",
                "TooLarge413",
            ),
            (
                "POST /v3/pipeline HTTP/1.1\r\nHost: h\r\nContent-Length: 262144\r\n\r\n",
                "63",
            ),
            (
                "POST /v3/pipeline HTTP/1.1\r\nHost: h\r\nExpect: 100-continue\r\n\r\n",
                "Expect417",
            ),
            (
                "POST /v3/pipeline HTTP/1.1\r\nExpect: 100-continue\r\n\r\n",
                "Bad400",
            ),
            ("GET /v3 HTTP/2.0\r\n", "Bad400"),
            (
                "POST / HTTP/1.1\r\nHost: h\r\nContent-Length: 3\r\nTransfer-Encoding: chunked\r\n\r\n0\r\n\r\n",
                "Length411",
            ),
            (
                "POST / HTTP/1.1\r\nHost: h\r\nContent-Length: 3\r\nContent-Length: 4\r\n\r\nabcd",
                "Bad400",
            ),
            (
                "GET / HTTP/1.1\r\nHost: h\r\nX: a\r\n folded\r\n\r\n",
                "Bad400",
            ),
            ("GET / HTTP/1.0\r\nHost: a\r\nHost: b\r\n\r\n", "Bad400"),
            ("GET / HTTP/1.0\r\n\r\n", "GET / - 0 close|0"),
        ],
    );
}

/// Whether the head of an upgrade gives this with one text in the place of another.
fn changed_gives(alloc: Global, old: &str, new: &str, want: &str) -> bool {
    match UPGRADE.replace(alloc, old, new) {
        Ok(text) => gives(alloc, text.as_bytes(), 0, want),
        Err(_) => false,
    }
}

fn all_changed_give(rt: &impl Abort, alloc: Global, cases: &[(&str, &str, &str)]) {
    for (old, new, want) in cases {
        assert!(rt; changed_gives(alloc, old, new, want), "{new}");
    }
}

#[test]
fn upgrades_are_good_bad_or_none(rt: HostRuntime) {
    all_changed_give(
        &rt,
        rt.alloc(),
        &[
            ("hrana2, hrana3", "hrana3-protobuf", "Bad400"),
            ("hrana2, hrana3", "Hrana3", "Bad400"),
            ("Version: 13", "Version: 8", "Bad400"),
            ("ZQ==", "ZR==", "Bad400"),
            ("ZQ==", "", "Bad400"),
            ("HTTP/1.1", "HTTP/1.0", "GET /any - 0 close|0"),
            ("WebSocket\r\n", "h2c\r\n", "GET /any - 0 stay|0"),
            ("keep-alive, Upgrade", "keep-alive", "GET /any - 0 stay|0"),
        ],
    );
}

/// The answer to the upgrade, or nothing.
fn switched(alloc: Global) -> Result<Bytes, NoMemory> {
    let mut wire = Wire::new(alloc)?;
    match wire.feed(alloc, UPGRADE.as_bytes()) {
        Ok(Fed::Upgrade(key, chosen)) => upgrade_bytes(alloc, &key, &chosen),
        _ => Bytes::new(alloc, b""),
    }
}

fn are_bytes(bytes: &Result<Bytes, NoMemory>, want: &[u8]) -> bool {
    match bytes {
        Ok(bytes) => bytes.as_slice() == want,
        Err(_) => false,
    }
}

#[test]
fn an_upgrade_is_answered(rt: HostRuntime) {
    let want =
        b"HTTP/1.1 101 Switching Protocols\r\nUpgrade: websocket\r\nConnection: Upgrade\r\nSec-WebSocket-Accept: s3pPLMBiTxaQ9kYGzzhZRbK+xOo=\r\nSec-WebSocket-Protocol: hrana3\r\n\r\n".as_slice();
    assert!(rt; are_bytes(&switched(rt.alloc()), want));
}

/// A head of this many fields, the last of them as long as makes it this many bytes.
fn head_of(alloc: Global, fields: usize, bytes: usize) -> Result<Vec<u8>, NoMemory> {
    let mut head = Vec::new(alloc);
    head.extend_from_slice(b"GET / HTTP/1.1\r\nHost: h\r\n")?;
    for _ in 2..fields {
        head.extend_from_slice(b"X: y\r\n")?;
    }
    head.extend_from_slice(b"X: ")?;
    head.resize(bytes.saturating_sub(4), b'y')?;
    head.extend_from_slice(b"\r\n\r\n")?;
    Ok(head)
}

/// Whether such a head gives this, with its last bytes in a piece of their own.
fn head_gives(alloc: Global, fields: usize, bytes: usize, want: &str) -> bool {
    match head_of(alloc, fields, bytes) {
        Ok(head) => gives(alloc, head.as_slice(), 16_383, want),
        Err(_) => false,
    }
}

fn all_heads_give(rt: &impl Abort, alloc: Global, cases: &[(usize, usize, &str)]) {
    for (fields, bytes, want) in cases {
        let given = head_gives(alloc, *fields, *bytes, want);
        assert!(rt; given, "{fields} fields in {bytes} bytes");
    }
}

#[test]
fn heads_have_limits(rt: HostRuntime) {
    limits_are();
    all_heads_give(
        &rt,
        rt.alloc(),
        &[
            (64, 1_000, "GET / - 0 stay|0"),
            (65, 1_000, "Bad400"),
            (64, 16_384, "GET / - 0 stay|0"),
            (64, 16_385, "Bad400"),
        ],
    );
}

fn answered(
    alloc: Global,
    status: u16,
    allow: Option<Allow>,
    text: &str,
    close: bool,
) -> Result<Bytes, NoMemory> {
    let body = Bytes::new(alloc, text.as_bytes())?;
    let answer = HttpAnswer {
        status,
        allow,
        body,
        close,
    };
    answer_bytes(alloc, &answer)
}

#[test]
fn answers_have_their_bytes(rt: HostRuntime) {
    let cases = [
        (
            200,
            None,
            "",
            false,
            "HTTP/1.1 200 OK\r\nContent-Type: application/json\r\nContent-Length: 0\r\n\r\n",
        ),
        (
            200,
            None,
            "{\"a\":1}",
            true,
            "HTTP/1.1 200 OK\r\nContent-Type: application/json\r\nContent-Length: 7\r\nConnection: close\r\n\r\n{\"a\":1}",
        ),
        (
            401,
            None,
            "{}",
            false,
            "HTTP/1.1 401 Unauthorized\r\nContent-Type: application/json\r\nContent-Length: 2\r\nWWW-Authenticate: Bearer realm=\"hrana\"\r\n\r\n{}",
        ),
        (
            405,
            Some(Allow::Post),
            "",
            true,
            "HTTP/1.1 405 Method Not Allowed\r\nContent-Type: application/json\r\nContent-Length: 0\r\nAllow: POST\r\nConnection: close\r\n\r\n",
        ),
    ];
    for (status, allow, text, close, want) in cases {
        let bytes = answered(rt.alloc(), status, allow, text, close);
        assert!(rt; are_bytes(&bytes, want.as_bytes()), "{status} of {text}");
    }
}

#[test]
fn a_refusal_is_answered(rt: HostRuntime) {
    let alloc = rt.alloc();
    let bytes = answer_bytes(alloc, &refusal(alloc, &WireFail::Expect417));
    let want =
        b"HTTP/1.1 417 Expectation Failed\r\nContent-Type: application/json\r\nContent-Length: 0\r\nConnection: close\r\n\r\n".as_slice();
    assert!(rt; are_bytes(&bytes, want));
}
