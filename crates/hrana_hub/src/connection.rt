// A connection.
ghost use Rattle.std.specs.Prelude.{◌≡◌, ◌+◌, ◌<◌, ◌^◌, ◌-◌, ◌∷◌, ◌++◌, [], OnOk, OnErr, MatchOption, None, Some, nat_le, length};
ghost use Rattle.stream_requests.specs.declared.replies.Reply.{Reply};
ghost use Rattle.hrana_hub.specs.Maps.{id_at};
ghost use Rattle.hrana_hub.specs.State.{Conn};
ghost use Rattle.hrana_hub.specs.Step.{new_conn, has_room};
ghost use Rattle.hrana_hub.specs.Arrivals.{greeted, shut, joined, waited, with_texts};
ghost use Rattle.hrana_hub.specs.Polled.{replied};
ghost use Rattle.hrana_hub.specs.declared.limits.TheConstants.{MAX_STREAMS};
ghost use Rattle.stream_task.specs.Texts.{is_full, without_text};

use crate::limits::{MAX_OUTSTANDING, MAX_STREAMS};
use hrana_value::{NoMemory, Txt};
use std::alloc::Global;
use std::collections::BTreeMap;
use std::marker::Model;
use stream_task::{StoredText, StoredTexts};

/// A connection: how far it came, its stored texts, and its streams.
#[derive(Drop)]
pub(crate) struct Connection {
    greeted: bool,
    closing: bool,
    texts: StoredTexts,
    /// Its streams by their ids, until the close of each has arrived.
    ids: BTreeMap<i32, u64>,
    /// The numbers of its streams, in the order in which they were opened.
    streams: Vec<u64>,
    /// How many of its requests wait for their reply.
    outstanding: u32,
}

impl Model for Connection {
    ghost use Rattle.hrana_hub.specs.State.{Conn};

    ghost Value = { Conn };

    ghost view = { λ k. record { greeted = k.greeted; closing = k.closing; texts = k.texts; ids = k.ids.entries; streams = k.streams.items; outstanding = k.outstanding } };
}

impl Connection {
    /// A connection that was opened. One that is closing already isn't heard.
    pub(crate) fn new(alloc: Global, closing: bool) -> Connection
        ensures { result ≡ new_conn closing }
    {
        Connection {
            greeted: false,
            closing,
            texts: StoredTexts::new(alloc),
            ids: BTreeMap::new(alloc),
            streams: Vec::new(alloc),
            outstanding: 0,
        }
    }

    pub(crate) fn is_greeted(&self) -> bool
        ensures { result ≡ self.now.greeted }
    {
        self.greeted
    }

    pub(crate) fn is_closing(&self) -> bool
        ensures { result ≡ self.now.closing }
    {
        self.closing
    }

    /// Whether it is closing, or may send more.
    pub(crate) fn has_room(&self) -> bool
        ensures { result ≡ has_room self.now }
    {
        self.closing || self.outstanding < MAX_OUTSTANDING
    }

    /// Its stored texts.
    pub(crate) fn texts(&self) -> &[StoredText]
        ensures { result.now ≡ self.now.texts }
    {
        self.texts.as_slice()
    }

    /// The number of the stream that has this id.
    pub(crate) fn stream_of(&self, id: i32) -> Option<u64>
        ensures { result ≡ id_at id self.now.ids }
    {
        self.ids.get(&id).copied()
    }

    /// Whether it has as many streams as it may have.
    pub(crate) fn is_full(&self) -> bool
        ensures { result ≡ nat_le MAX_STREAMS (length self.now.streams) }
    {
        MAX_STREAMS <= self.streams.len()
    }

    /// The numbers of its streams.
    pub(crate) fn into_streams(self) -> Vec<u64>
        ensures { result.items ≡ self.streams }
    {
        let Connection { streams, .. } = self;
        streams
    }

    /// A hello was accepted.
    pub(crate) fn greet(&mut self)
        ensures { self.new ≡ greeted self.old }
    {
        self.greeted = true;
    }

    /// It is closed, and not heard from now on.
    pub(crate) fn shut(&mut self)
        ensures { self.new ≡ shut self.old }
    {
        self.closing = true;
    }

    /// One more stream. Where there is no memory nothing changes.
    pub(crate) fn join(&mut self, id: i32, stream: u64) -> Result<(), NoMemory>
        requires { id_at id self.old.ids ≡ None }
        ensures ok { OnOk result (self.new ≡ joined id stream self.old) }
        ensures err { OnErr result (self.new ≡ self.old) }
    {
        self.streams.reserve(1)?;
        match self.ids.insert(id, stream) {
            Ok(_) => {}
            Err(_) => return Err(NoMemory),
        }
        self.streams.push_reserved(stream);
        Ok(())
    }

    /// One more request waits. A close frees the id of its stream.
    pub(crate) fn wait(&mut self, stream: i32, closes: bool)
        requires { self.old.outstanding < 2 ^ 32 - 1 }
        ensures { self.new ≡ waited stream closes self.old }
    {
        self.outstanding += 1;
        if closes {
            let _freed = self.ids.remove(&stream);
        }
    }

    /// A request was answered. A stream that is over is let go of.
    pub(crate) fn answered(&mut self, stream: u64, over: bool)
        ensures { (reply : Reply) → self.new ≡ replied stream over (Some reply) self.old }
    {
        self.outstanding = self.outstanding.saturating_sub(1);
        if over {
            self.streams.retain(|number| *number != stream);
        }
    }

    /// Whether one more text would be too many, or pass the limit of their bytes.
    pub(crate) fn is_full_of_texts(&self, sql: &Txt) -> bool
        ensures { result ≡ is_full self.now.texts sql.now }
    {
        self.texts.is_full(sql)
    }

    /// Stores a text. Where there is no memory nothing changes.
    pub(crate) fn store(&mut self, id: i32, sql: Txt) -> Result<(), NoMemory>
        ensures ok { OnOk result (self.new ≡ with_texts (self.old.texts ++ record { id = id; sql = sql } ∷ []) self.old) }
        ensures err { OnErr result (self.new ≡ self.old) }
    {
        self.texts.store(StoredText { id, sql })
    }

    /// Lets go of a stored text.
    pub(crate) fn forget_text(&mut self, id: i32)
        ensures { self.new ≡ with_texts (without_text id self.old.texts) self.old }
    {
        self.texts.forget(id);
    }
}
