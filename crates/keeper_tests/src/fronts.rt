// The fronts.
ghost use Rattle.std.specs.Prelude.{IfOk};
ghost use Rattle.hrana_front.specs.Items.{AreGivable};

use hrana_front::{
    Accepted, Front, FrontFail, FrontItem, FrontItems, MemoryFront, NoMemory, Put, SocketFront,
    Took, socket_limits_are,
};
use hrana_value::{Bytes, Txt};
use http_wire::{HttpAnswer, HttpAsk, Method, Out, Outs, WireFail};
use std::alloc::Global;
use std::io::{Read, Write};
use std::net::{Net, OpenListener, TcpListener, TcpStream};
use std::process::Abort;
use std::rt::Clock;
use std::test::Fail;

#[derive(Clone, Copy)]
enum Call {
    Listen,
    Accept,
    Take(u32),
    Put,
}

fn accepted(answer: Result<Accepted, FrontFail>) -> &'static str {
    match answer {
        Ok(Accepted::New(1)) => "connection 1",
        Ok(Accepted::New(_)) => "another connection",
        Ok(Accepted::NotYet) => "not yet",
        Ok(Accepted::Stop) => "stop",
        Err(FrontFail::Failed) => "failed",
        Err(FrontFail::NoMemory) => "no memory",
    }
}

fn taken(answer: Result<Took, NoMemory>) -> &'static str {
    match answer {
        Ok(Took::Opened) => "opened",
        Ok(Took::Text(_)) => "text",
        Ok(Took::Binary) => "binary",
        Ok(Took::Exchange(_)) => "exchange",
        Ok(Took::Refused(_)) => "refused",
        Ok(Took::NotYet) => "not yet",
        Ok(Took::Gone) => "gone",
        Err(_) => "no memory",
    }
}

fn put(answer: Result<Put, NoMemory>) -> &'static str {
    match answer {
        Ok(Put::Sent) => "sent",
        Ok(Put::Gone) => "gone",
        Err(_) => "no memory",
    }
}

fn listened(answer: Result<(), FrontFail>) -> &'static str {
    match answer {
        Ok(()) => "listens",
        Err(FrontFail::Failed) => "failed",
        Err(FrontFail::NoMemory) => "no memory",
    }
}

/// The answer of `hello`'s hello on connection 1.
fn welcome(alloc: Global) -> Result<Outs, NoMemory> {
    let text = Txt::new(alloc, "{\"type\":\"hello_ok\"}")?;
    Ok(Outs {
        conn: 1,
        out: Some(Out::Message(text)),
        close: None,
    })
}

fn called(alloc: Global, front: &mut MemoryFront, call: Call) -> &'static str {
    match call {
        Call::Listen => listened(front.listen("127.0.0.1:8080")),
        Call::Accept => accepted(front.accept()),
        Call::Take(conn) => taken(front.take(conn)),
        Call::Put => match welcome(alloc) {
            Ok(outs) => put(front.put(outs)),
            Err(_) => "no memory",
        },
    }
}

/// A connection over WebSocket with one text, what else may come in, and the end.
fn items(alloc: Global) -> Result<FrontItems, NoMemory>
    ensures { IfOk result AreGivable }
{
    let hello = Bytes::new(alloc, b"{\"type\":\"hello\",\"jwt\":null}")?;
    let ask = HttpAsk {
        method: Method::Get,
        path: Txt::new(alloc, "/v3")?,
        bearer: None,
        body: Bytes::new(alloc, b"")?,
        close: false,
    };
    let mut items = FrontItems::new(alloc);
    items.push(FrontItem::New)?;
    items.push(FrontItem::Take(1, Took::Opened))?;
    items.push(FrontItem::Take(1, Took::Text(hello)))?;
    items.push(FrontItem::Take(1, Took::Refused(WireFail::Bad400)))?;
    items.push(FrontItem::Take(1, Took::Exchange(ask)))?;
    items.push(FrontItem::Take(1, Took::Gone))?;
    items.push(FrontItem::Stop)?;
    Ok(items)
}

/// Whether the calls are answered so, and so many outs were put at the end.
fn is_answered(alloc: Global, fail_at: &[u64], calls: &[(Call, &str)], outs: usize) -> bool {
    let Ok(items) = items(alloc) else {
        return false;
    };
    let Ok(mut front) = MemoryFront::new(alloc, items, fail_at) else {
        return false;
    };
    for (call, want) in calls {
        if called(alloc, &mut front, *call) != *want {
            return false;
        }
    }
    front.outs().len() == outs
}

fn are_answered(
    rt: &impl Abort,
    alloc: Global,
    fail_at: &[u64],
    calls: &[(Call, &str)],
    outs: usize,
) {
    assert!(rt; is_answered(alloc, fail_at, calls, outs));
}

#[test]
fn items_are_given_to_the_calls_they_are_for(rt: HostRuntime) -> Result<(), Fail> {
    let calls = [
        (Call::Listen, "listens"),
        (Call::Take(1), "not yet"),
        (Call::Accept, "connection 1"),
        (Call::Accept, "not yet"),
        (Call::Take(2), "not yet"),
        (Call::Take(1), "opened"),
        (Call::Take(1), "text"),
        (Call::Put, "sent"),
        (Call::Take(1), "refused"),
        (Call::Take(1), "exchange"),
        (Call::Take(1), "gone"),
        (Call::Take(1), "not yet"),
        (Call::Accept, "stop"),
        (Call::Accept, "not yet"),
    ];
    are_answered(&rt, rt.alloc(), &[], &calls, 1);
    Ok(())
}

#[test]
fn listed_calls_fail_and_lose_their_items(rt: HostRuntime) -> Result<(), Fail> {
    let calls = [
        (Call::Listen, "failed"),
        (Call::Listen, "listens"),
        (Call::Accept, "failed"),
        (Call::Take(1), "gone"),
        (Call::Take(1), "text"),
        (Call::Put, "sent"),
        (Call::Put, "gone"),
        (Call::Take(1), "refused"),
    ];
    are_answered(&rt, rt.alloc(), &[1, 3, 4, 7], &calls, 2);
    Ok(())
}

/// A request for no statements.
const REQUEST: &[u8] =
    b"POST /v3/pipeline HTTP/1.1\r\nHost: h\r\nContent-Length: 15\r\n\r\n{\"requests\":[]}";

/// The empty answer 200.
const ANSWER: &[u8] =
    b"HTTP/1.1 200 OK\r\nContent-Type: application/json\r\nContent-Length: 0\r\n\r\n";

/// Calls `accept` until a connection is there.
fn accepts_one(front: &mut impl Front) -> bool {
    for _ in 0..1000 {
        if let Ok(Accepted::New(conn)) = front.accept() {
            return conn == 1;
        }
    }
    false
}

/// Calls `take` on connection 1 until the request is there.
fn takes_the_request(front: &mut impl Front) -> bool {
    for _ in 0..1000 {
        match front.take(1) {
            Ok(Took::Exchange(ask)) => {
                return ask.path.as_str() == "/v3/pipeline"
                    && ask.body.as_slice() == b"{\"requests\":[]}".as_slice();
            }
            Ok(Took::NotYet) => {}
            _ => return false,
        }
    }
    false
}

/// The outs with the empty answer 200.
fn empty_answer(alloc: Global) -> Outs {
    Outs {
        conn: 1,
        out: Some(Out::Answer(HttpAnswer {
            status: 200,
            allow: None,
            body: Bytes::from_vec(Vec::new(alloc)),
            close: false,
        })),
        close: None,
    }
}

/// An address of this machine that nobody listens at.
fn free_address<R: Net>(rt: &R, alloc: Global) -> Option<String> {
    let listener = TcpListener::bind(rt, "127.0.0.1:0").ok()?;
    let addr = listener.local_addr().ok()?;
    format!(in alloc; "{addr}").ok()
}

/// Whether a client of a front over sockets sends the request and reads the answer.
fn is_served<R: Net + Clock>(rt: &R, alloc: Global) -> bool {
    let Some(addr) = free_address(rt, alloc) else {
        return false;
    };
    let addr = addr.as_str();
    let mut front = SocketFront::new(rt, alloc);
    let Ok(()) = front.listen(addr) else {
        return false;
    };
    let Ok(mut client) = TcpStream::connect(rt, addr) else {
        return false;
    };
    if client.write_all(REQUEST).is_err() {
        return false;
    }
    if !accepts_one(&mut front) || !takes_the_request(&mut front) {
        return false;
    }
    let Ok(Put::Sent) = front.put(empty_answer(alloc)) else {
        return false;
    };
    let mut answer = [0u8; ANSWER.len()];
    client.read_exact(&mut answer).is_ok() && answer.as_slice() == ANSWER
}

#[test]
fn sockets_serve_a_request(rt: HostRuntime) -> Result<(), Fail> {
    socket_limits_are();
    assert!(rt; is_served(&rt, rt.alloc()));
    Ok(())
}
