// What texts of connections bring.
ghost use Rattle.std.specs.Prelude.{◌≡◌, ◌<◌, ◌+◌, ◌^◌, ◌-◌, false, true, Bool, Option, None, Some, Result, Ok, IfOk, IfSome, OnOk, OnErr, length};
ghost use Rattle.ws_messages.specs.Client.{ClientAnswer, HasClientForm, ClientFits};
ghost use Rattle.ws_messages.specs.declared.messages.ClientMsg.TheVariants.{Request};
ghost use Rattle.ws_messages.specs.Requests.{RequestFits, IsFormed};
ghost use Rattle.stream_task.specs.Doing.{MayBeAsked};
ghost use Rattle.hrana_hub.specs.Arrivals.{Arrives, IsAfter, accepts, on_hello, with_stream, opens, asks, unopened, with_request, stores, on_request, on_numbered, if_greeted, on_answer, is_close, nothing, refusal, tells};
ghost use Rattle.hrana_hub.specs.Maps.{at, id_at};
ghost use Rattle.hrana_hub.specs.State.{Conn, Stream, with_state};
ghost use Rattle.hrana_hub.specs.Step.{Reads, TextSteps, BinarySteps, has_room, with_new_conn};
ghost use Rattle.hrana_hub.specs.Texts.{put_ask};
ghost use Rattle.hrana_hub.specs.declared.limits.TheConstants.{MAX_OUTSTANDING, MAX_CONNECTIONS};
ghost use Rattle.stream_task.specs.Checks.{stored_text};

use crate::hub::Hub;
use crate::outs::{answers, not_welcome, nothing, refuses, welcomes};
use crate::slot::Slot;
use crate::texts::put_ask;
use hrana_stmt::Code;
use hrana_value::{Decline, NoMemory, StreamNo, Txt};
use http_wire::{MAX_BODY_BYTES, Out, Outs};
use pipeline_body::code_of_decline;
use stream_requests::{Ask, Reply};
use stream_task::stored_text;
use ws_messages::{ClientMsg, MsgFail, WsRequest, decode_client, fitting_client_messages_are_read};

/// Whether no token is required, or it is the one that was given.
pub(crate) fn accepts(token: &Option<Txt>, given: &Option<Txt>) -> bool
    ensures { result ≡ accepts token.now given.now }
{
    match token {
        None => true,
        Some(token) => match given {
            None => false,
            Some(given) => token.as_str() == given.as_str(),
        },
    }
}

fn is_close(ask: &Ask) -> bool
    ensures { result ≡ is_close ask.now }
{
    match ask {
        Ask::Close => true,
        _ => false,
    }
}

impl Hub {
    fn hello(&mut self, conn: u32, jwt: Option<Txt>) -> Result<Outs, NoMemory>
        ensures { (k : Conn) → at conn self.old.state.conns ≡ Some k → Arrives (on_hello (accepts self.old.token jwt) conn k self.old.state) result self.old self.new }
    {
        if !accepts(&self.token, &jwt) {
            let out = not_welcome(self.alloc)?;
            return Ok(self.close(conn, Some(out), 1000));
        }
        let outs = welcomes(self.alloc, conn)?;
        self.conns.greet(conn);
        Ok(outs)
    }

    /// One more stream of the connection. Where there is no memory the state is as it was.
    fn join(&mut self, conn: u32, id: i32) -> Result<(), NoMemory>
        requires few { self.old.state.opened < 2 ^ 62 }
        requires fresh { at (self.old.state.opened + 1) self.old.state.streams ≡ None }
        requires free { (k : Conn) → at conn self.old.state.conns ≡ Some k → id_at id k.ids ≡ None }
        ensures ok { OnOk result ((k : Conn) → at conn self.old.state.conns ≡ Some k → IsAfter (with_stream conn k id self.old.state) self.old self.new) }
        ensures err { OnErr result (IsAfter self.old.state self.old self.new) }
    {
        let number = self.opened + 1;
        self.turns.reserve_stream(StreamNo(number))?;
        let slot = Slot::new(self.alloc, self.moment, conn, number)?;
        self.streams.add(number, slot)?;
        if self.conns.join(conn, id, number).is_err() {
            let _slot = self.streams.remove(number);
            return Err(NoMemory);
        }
        self.opened = number;
        Ok(())
    }

    fn open_stream(&mut self, conn: u32, request_id: i32, id: i32) -> Result<Outs, NoMemory>
        requires few { self.old.state.opened < 2 ^ 62 }
        requires fresh { at (self.old.state.opened + 1) self.old.state.streams ≡ None }
        ensures { (k : Conn) → at conn self.old.state.conns ≡ Some k → Arrives (opens (id_at id k.ids) conn k request_id id self.old.state) result self.old self.new }
    {
        let Some(known) = self.conns.get(conn) else {
            return Ok(nothing());
        };
        if known.stream_of(id).is_some() {
            return refuses(self.alloc, conn, request_id, Code::StreamExists);
        }
        if known.is_full() {
            return refuses(self.alloc, conn, request_id, Code::TooManyStreams);
        }
        let outs = answers(self.alloc, conn, request_id, Reply::StreamOpened)?;
        self.join(conn, id)?;
        Ok(outs)
    }

    /// What is asked of a stream waits for its polls.
    fn queue(
        &mut self,
        conn: u32,
        stream: i32,
        number: u64,
        request_id: i32,
        ask: Ask,
    ) -> Result<(), NoMemory>
        requires asked { MayBeAsked ask }
        requires few { (k : Conn) → at conn self.old.state.conns ≡ Some k → k.outstanding < MAX_OUTSTANDING }
        ensures ok { OnOk result ((k : Conn) (x : Stream) → at conn self.old.state.conns ≡ Some k → at number self.old.state.streams ≡ Some x → self.new ≡ with_state (with_request conn k stream number x request_id ask self.old.state) self.old) }
        ensures err { OnErr result (self.new ≡ self.old) }
    {
        let closes = is_close(&ask);
        self.streams.ask(number, request_id, ask)?;
        self.conns.wait(conn, stream, closes);
        Ok(())
    }

    /// The request is of a stream that isn't open.
    fn unopened(&self, conn: u32, request_id: i32, ask: &Ask) -> Result<Outs, NoMemory>
        ensures { IfOk result (λ outs. outs ≡ (unopened conn request_id ask.now self.now.state).given) }
    {
        if is_close(ask) {
            return answers(self.alloc, conn, request_id, Reply::Closed);
        }
        refuses(self.alloc, conn, request_id, Code::StreamNotOpen)
    }

    /// The number of the connection's stream of this id.
    fn named(&self, conn: u32, stream: i32) -> Option<u64>
        ensures { (k : Conn) → at conn self.now.state.conns ≡ Some k → result ≡ id_at stream k.ids }
    {
        match self.conns.get(conn) {
            Some(known) => known.stream_of(stream),
            None => None,
        }
    }

    /// The request with the connection's stored texts in it.
    fn put_ask(&self, conn: u32, ask: Ask) -> Result<Option<Ask>, NoMemory>
        ensures asked { MayBeAsked ask → IfOk result (λ put. IfSome put MayBeAsked) }
        ensures put { (k : Conn) → at conn self.now.state.conns ≡ Some k → IfOk result (λ put. put ≡ put_ask k.texts ask) }
    {
        match self.conns.get(conn) {
            Some(known) => put_ask(self.alloc, known.texts(), ask),
            None => Ok(None),
        }
    }

    fn ask(&mut self, conn: u32, request_id: i32, stream: i32, ask: Ask) -> Result<Outs, NoMemory>
        requires asked { MayBeAsked ask }
        requires few { (k : Conn) → at conn self.old.state.conns ≡ Some k → k.outstanding < MAX_OUTSTANDING }
        ensures { (k : Conn) → at conn self.old.state.conns ≡ Some k → Arrives (asks (id_at stream k.ids) conn k stream request_id ask self.old.state) result self.old self.new }
    {
        let Some(number) = self.named(conn, stream) else {
            return self.unopened(conn, request_id, &ask);
        };
        if !self.streams.contains(number) {
            return self.unopened(conn, request_id, &ask);
        }
        let Some(ask) = self.put_ask(conn, ask)? else {
            return refuses(self.alloc, conn, request_id, Code::NoSqlId);
        };
        self.queue(conn, stream, number, request_id, ask)?;
        Ok(nothing())
    }

    fn store(&mut self, conn: u32, request_id: i32, id: i32, sql: Txt) -> Result<Outs, NoMemory>
        ensures { (k : Conn) → at conn self.old.state.conns ≡ Some k → Arrives (stores (stored_text id k.texts) conn k request_id id sql self.old.state) result self.old self.new }
    {
        let Some(known) = self.conns.get(conn) else {
            return Ok(nothing());
        };
        if stored_text(known.texts(), id).is_some() {
            return refuses(self.alloc, conn, request_id, Code::SqlIdInUse);
        }
        if known.is_full_of_texts(&sql) {
            return refuses(self.alloc, conn, request_id, Code::TooManyTexts);
        }
        let outs = answers(self.alloc, conn, request_id, Reply::SqlStored)?;
        self.conns.store(conn, id, sql)?;
        Ok(outs)
    }

    fn forget_text(&mut self, conn: u32, request_id: i32, id: i32) -> Result<Outs, NoMemory>
        ensures { (k : Conn) → at conn self.old.state.conns ≡ Some k → Arrives (on_request conn k request_id (WsRequest.CloseSql id) self.old.state) result self.old self.new }
    {
        let outs = answers(self.alloc, conn, request_id, Reply::SqlClosed)?;
        self.conns.forget_text(conn, id);
        Ok(outs)
    }

    /// Cursors aren't served yet.
    fn unserved(&self, conn: u32, request_id: i32) -> Result<Outs, NoMemory>
        ensures { IfOk result (λ outs. outs ≡ tells conn (refusal request_id Code.UnknownRequest)) }
    {
        refuses(self.alloc, conn, request_id, Code::UnknownRequest)
    }

    fn request(&mut self, conn: u32, request_id: i32, request: WsRequest) -> Result<Outs, NoMemory>
        requires formed { IsFormed request }
        requires fits { RequestFits request }
        requires opens { self.old.state.opened < 2 ^ 62 }
        requires fresh { at (self.old.state.opened + 1) self.old.state.streams ≡ None }
        requires few { (k : Conn) → at conn self.old.state.conns ≡ Some k → k.outstanding < MAX_OUTSTANDING }
        ensures { (k : Conn) → at conn self.old.state.conns ≡ Some k → Arrives (on_request conn k request_id request self.old.state) result self.old self.new }
    {
        match request {
            WsRequest::OpenStream(id) => self.open_stream(conn, request_id, id),
            WsRequest::OnStream { stream_id, ask } => self.ask(conn, request_id, stream_id, ask),
            WsRequest::StoreSql { id, sql } => self.store(conn, request_id, id, sql),
            WsRequest::CloseSql(id) => self.forget_text(conn, request_id, id),
            WsRequest::OpenCursor { .. } => self.unserved(conn, request_id),
            WsRequest::CloseCursor(_) => self.unserved(conn, request_id),
            WsRequest::FetchCursor { .. } => self.unserved(conn, request_id),
        }
    }

    /// A numbered message has come, whose rest is a request or is declined.
    fn numbered(
        &mut self,
        conn: u32,
        is_greeted: bool,
        request_id: i32,
        request: Result<WsRequest, Decline>,
    ) -> Result<Outs, NoMemory>
        requires formed { IfOk request IsFormed }
        requires fits { IfOk request RequestFits }
        requires opens { self.old.state.opened < 2 ^ 62 }
        requires fresh { at (self.old.state.opened + 1) self.old.state.streams ≡ None }
        requires few { (k : Conn) → at conn self.old.state.conns ≡ Some k → k.outstanding < MAX_OUTSTANDING }
        requires greeted { (k : Conn) → at conn self.old.state.conns ≡ Some k → is_greeted ≡ k.greeted }
        ensures { (k : Conn) → at conn self.old.state.conns ≡ Some k → Arrives (if_greeted conn k (on_numbered conn k request_id request self.old.state) self.old.state) result self.old self.new }
    {
        if !is_greeted {
            return Ok(self.close(conn, None, 1002));
        }
        match request {
            Ok(request) => self.request(conn, request_id, request),
            Err(decline) => refuses(self.alloc, conn, request_id, code_of_decline(decline)),
        }
    }

    fn read(&mut self, conn: u32, is_greeted: bool, text: &[u8]) -> Result<Outs, NoMemory>
        requires opens { self.old.state.opened < 2 ^ 62 }
        requires fresh { at (self.old.state.opened + 1) self.old.state.streams ≡ None }
        requires few { (k : Conn) → at conn self.old.state.conns ≡ Some k → k.outstanding < MAX_OUTSTANDING }
        requires greeted { (k : Conn) → at conn self.old.state.conns ≡ Some k → is_greeted ≡ k.greeted }
        ensures { (k : Conn) → at conn self.old.state.conns ≡ Some k → Reads self.old.token conn k text.now result self.old self.new }
    {
        fitting_client_messages_are_read();
        match decode_client(self.alloc, text) {
            Ok(ClientMsg::Hello { jwt }) => self.hello(conn, jwt),
            Ok(
                ClientMsg::Request {
                    request_id,
                    request,
                },
            ) => self.numbered(conn, is_greeted, request_id, Ok(request)),
            Err(
                MsgFail::Declined {
                    request_id,
                    decline,
                },
            ) => self.numbered(conn, is_greeted, request_id, Err(decline)),
            Err(MsgFail::Violation(_)) => Ok(self.close(conn, None, 1002)),
            Err(MsgFail::NoMemory) => Err(NoMemory),
        }
    }

    /// A text message has come.
    pub(crate) fn text(&mut self, conn: u32, text: &[u8]) -> Outs
        requires opens { self.old.state.opened < 2 ^ 62 }
        requires fresh { at (self.old.state.opened + 1) self.old.state.streams ≡ None }
        requires few { (k : Conn) → at conn self.old.state.conns ≡ Some k → has_room k ≡ true }
        ensures step { TextSteps self.old.token self.old.state conn text.now result self.new.state }
        ensures rest { IsAfter self.new.state self.old self.new }
    {
        let Some(known) = self.conns.get(conn) else {
            return nothing();
        };
        if known.is_closing() {
            return nothing();
        }
        let is_greeted = known.is_greeted();
        if MAX_BODY_BYTES < text.len() {
            return self.close(conn, None, 1009);
        }
        match self.read(conn, is_greeted, text) {
            Ok(outs) => outs,
            Err(_) => self.close(conn, None, 1011),
        }
    }

    /// A binary message has come.
    pub(crate) fn binary(&mut self, conn: u32) -> Outs
        ensures step { BinarySteps self.old.state conn result self.new.state }
        ensures rest { IsAfter self.new.state self.old self.new }
    {
        if !self.hears(conn) {
            return nothing();
        }
        self.close(conn, None, 1003)
    }

    /// A connection was opened.
    pub(crate) fn open(&mut self, conn: u32) -> Outs
        requires unknown { at conn self.old.state.conns ≡ None }
        requires room { length self.old.state.conns < MAX_CONNECTIONS }
        ensures given { result ≡ nothing }
        ensures state { self.new.state ≡ with_new_conn conn false self.old.state }
        ensures rest { IsAfter self.new.state self.old self.new }
    {
        self.conns.open(conn, false);
        nothing()
    }
}
