// A connection that speaks WebSocket.
ghost use Rattle.std.specs.Prelude.{◌≢◌, Ok, Some};
ghost use Rattle.http_wire.specs.declared.asks.WireFail.TheVariants as wire;

use crate::ends::close_frame;
use crate::line::{Line, is_for_later};
use crate::socket_limits::MAX_MESSAGE_BYTES;
use crate::{NoMemory, Put, Took};
use hrana_value::{Bytes, Txt};
use std::alloc::Global;
use std::io::ErrorKind;
use tungstenite::{
    CloseCode, CloseFrame, Error, Message, NoMask, Role, Utf8Bytes, WebSocket, WebSocketConfig,
};

/// How many bytes one read asks for.
const READ_BYTES: usize = 16384;

/// How many messages one `take` passes over, as pings are.
const MESSAGES: u32 = 64;

/// Why a message didn't come or go.
#[derive(Clone, Copy)]
enum Fault {
    Later,
    NoMemory,
    /// The peer closed.
    Closed,
    /// The connection is to be closed with a code (RFC 6455, section 7.4.1).
    Refused(u16),
    Broken,
}

fn fault_of(error: &Error) -> Fault {
    match error {
        Error::Io(cause) if is_for_later(cause) => Fault::Later,
        Error::Io(cause) if cause.kind() == ErrorKind::OutOfMemory => Fault::NoMemory,
        Error::OutOfMemory => Fault::NoMemory,
        Error::ConnectionClosed => Fault::Closed,
        Error::Protocol(_) => Fault::Refused(1002),
        Error::Utf8 => Fault::Refused(1007),
        Error::Capacity(_) => Fault::Refused(1009),
        _ => Fault::Broken,
    }
}

/// A connection that speaks WebSocket.
#[derive(Drop)]
pub struct Web {
    socket: WebSocket<Line, NoMask>,
    /// A text that there was no memory to hand over.
    held: Option<Utf8Bytes>,
}

impl Web {
    /// A connection whose upgrade is answered, with what came behind it.
    pub fn new(alloc: Global, line: Line, part: Vec<u8>) -> Web {
        let config = WebSocketConfig {
            read_buffer_size: READ_BYTES,
            write_buffer_size: 0,
            max_write_buffer_size: usize::MAX,
            max_message_size: Some(MAX_MESSAGE_BYTES),
            max_frame_size: Some(MAX_MESSAGE_BYTES),
            accept_unmasked_frames: false,
        };
        Web {
            socket: WebSocket::from_partially_read(
                alloc,
                line,
                NoMask,
                part,
                Role::Server,
                Some(config),
            ),
            held: None,
        }
    }

    pub fn line(&self) -> &Line {
        self.socket.get_ref()
    }

    /// Whether nothing can be taken until the system says so.
    pub fn is_quiet(&self) -> bool {
        self.line().is_dry() && self.held.is_none()
    }

    pub fn line_mut(&mut self) -> &mut Line {
        self.socket.get_mut()
    }

    /// The socket, with what the protocol has to send yet.
    pub fn into_line(mut self) -> Line {
        let _ = self.socket.flush();
        self.socket.into_inner()
    }

    /// Hands over the text that is held.
    fn hand_over(&mut self, alloc: Global) -> Result<Option<Took>, NoMemory>
        ensures { result ≢ Ok (Some (Took.Refused wire.NoMemory)) }
    {
        let bytes = match &self.held {
            Some(text) => Bytes::new(alloc, text.as_str().as_bytes())?,
            None => return Ok(None),
        };
        self.held = None;
        Ok(Some(Took::Text(bytes)))
    }

    /// What follows on a read that failed.
    fn after(&mut self, fault: Fault) -> Result<Option<Took>, NoMemory>
        ensures { result ≢ Ok (Some (Took.Refused wire.NoMemory)) }
    {
        match fault {
            Fault::Later => Ok(Some(Took::NotYet)),
            Fault::NoMemory => Err(NoMemory),
            Fault::Refused(code) => {
                let _ = self.socket.flush();
                let _ = self.socket.get_mut().send(&close_frame(code));
                Ok(Some(Took::Gone))
            }
            Fault::Closed | Fault::Broken => Ok(Some(Took::Gone)),
        }
    }

    /// What the next message gives; nothing where it is passed over.
    fn read_on(&mut self, alloc: Global) -> Result<Option<Took>, NoMemory>
        ensures { result ≢ Ok (Some (Took.Refused wire.NoMemory)) }
    {
        match self.socket.read() {
            Ok(Message::Text(text)) => {
                self.held = Some(text);
                self.hand_over(alloc)
            }
            Ok(Message::Binary(_)) => Ok(Some(Took::Binary)),
            Ok(Message::Close(_)) => Ok(Some(Took::Gone)),
            Ok(Message::Ping(_) | Message::Pong(_)) => Ok(None),
            Err(error) => self.after(fault_of(&error)),
        }
    }

    /// What comes next. Pings are answered here (RFC 6455, section 5.5.2).
    pub fn take(&mut self, alloc: Global) -> Result<Took, NoMemory>
        ensures { result ≢ Ok (Took.Refused wire.NoMemory) }
    {
        self.socket.get_mut().allow_reads();
        if let Some(took) = self.hand_over(alloc)? {
            return Ok(took);
        }
        for _ in 0..MESSAGES {
            if let Some(took) = self.read_on(alloc)? {
                return Ok(took);
            }
        }
        Ok(Took::NotYet)
    }

    pub fn send(&mut self, alloc: Global, text: &Txt) -> Result<Put, NoMemory> {
        let message = Message::text(alloc, text.as_str())?;
        match self.socket.send(message) {
            Ok(()) => Ok(Put::Sent),
            Err(error) => match fault_of(&error) {
                Fault::NoMemory => Err(NoMemory),
                _ => Ok(Put::Gone),
            },
        }
    }

    /// Sends the frame that closes (RFC 6455, section 5.5.1).
    pub fn close(&mut self, code: u16) {
        let _ = self.socket.close(Some(CloseFrame {
            code: CloseCode::from(code),
            reason: Utf8Bytes::from_static(""),
        }));
    }
}
