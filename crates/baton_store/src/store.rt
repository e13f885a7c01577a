// The store: which batons were issued and not used.
ghost use Rattle.std.specs.Prelude.{◌≡◌, ◌+◌, ◌-◌, ◌^◌, ◌<◌, ◌≤◌, ◌∷◌, ◌++◌, ◌↔◌, [], List, IsTrue, All, AllPairs, IfOk, OnOk, OnErr, Contains};
ghost use Rattle.std.specs.Str.{IsAscii};
ghost use Rattle.baton_store.specs.Text.{text_of, IsSymbol};
ghost use Rattle.baton_store.specs.declared.store.Unused.{Unused};
ghost use Rattle.baton_store.specs.Batons.{no_batons, with_place, with_baton, without, HasNone, Redeems, Frees, Lives, IsNamed, IsDueAmong, IsPlaceOf, IsLivePlace, MomentsRise};

use crate::limits::BATON_LIFE_MS;
use crate::text::{Baton, baton_of, number_of};
use hrana_value::{NoMemory, StreamNo};
use std::alloc::Global;
use std::marker::Model;

/// A baton that was issued, and neither accepted nor forgotten.
#[derive(Clone, Copy, Debug)]
pub struct Unused {
    /// The number of its issue, from 1.
    pub number: u64,
    pub baton: Baton,
    pub stream: StreamNo,
    /// The moment of its issue.
    pub at: u64,
}

impl Unused {
    fn lives(&self, now: u64) -> bool
        ensures { IsTrue result ↔ Lives self.now now }
    {
        now.saturating_sub(self.at) < BATON_LIFE_MS
    }

    /// Whether it has this text and lives.
    fn accepts(&self, text: &[u8], now: u64) -> bool
        ensures { IsTrue result ↔ ((self.now.baton.text ≡ text.now) × Lives self.now now) }
    {
        self.baton.text.as_slice() == text && self.lives(now)
    }
}

/// What comes of a text that a client brings.
#[derive(Clone, Copy, Debug, PartialEq, Eq)]
pub enum Redeem {
    /// It is a baton of this stream, which is used by this.
    Live(StreamNo),
    /// It is no baton that is accepted.
    Dead,
}

/// The place of the baton of this number.
fn place_of(unused: &[Unused], number: u64) -> Option<usize>
    requires { AllPairs (λ u v. u.number < v.number) unused.now }
    ensures { IsPlaceOf unused.now number result }
{
    let place = unused.partition_point(|one| one.number < number);
    if place < unused.len() && unused[place].number == number {
        Some(place)
    } else {
        None
    }
}

/// The place of the baton that has this text and lives.
fn live_place(unused: &[Unused], text: &[u8], now: u64) -> Option<usize>
    requires rising { AllPairs (λ u v. u.number < v.number) unused.now }
    requires named { All IsNamed unused.now }
    ensures { IsLivePlace unused.now text.now now result }
{
    let Some(number) = number_of(text) else {
        return None;
    };
    let Some(place) = place_of(unused, number) else {
        return None;
    };
    if unused[place].accepts(text, now) {
        Some(place)
    } else {
        None
    }
}

/// The lower of a stream that is due and the stream of one more baton, if it is due.
fn lower_due(lowest: Option<StreamNo>, unused: &Unused, now: u64) -> Option<StreamNo>
    ensures { (seen : List Unused) → IsDueAmong seen now lowest → IsDueAmong (seen ++ unused.now ∷ []) now result }
{
    if unused.lives(now) {
        return lowest;
    }
    match lowest {
        Some(stream) => {
            if stream.0 <= unused.stream.0 {
                lowest
            } else {
                Some(unused.stream)
            }
        }
        None => Some(unused.stream),
    }
}

/// The lowest stream that is due. Where the moments rise, none is due from the first baton on that lives.
fn lowest_due(unused: &[Unused], moments_rise: bool, now: u64) -> Option<StreamNo>
    requires { IsTrue moments_rise → MomentsRise unused.now }
    ensures { IsDueAmong unused.now now result }
{
    let mut lowest: Option<StreamNo> = None;
    for baton in unused {
        if moments_rise && baton.lives(now) {
            break;
        }
        lowest = lower_due(lowest, baton, now);
    }
    lowest
}

/// Whether the moments rise with one more at the end, which is this.
fn still_rise(unused: &[Unused], moments_rise: bool, now: u64) -> bool
    requires { IsTrue moments_rise → MomentsRise unused.now }
    ensures { IsTrue result → MomentsRise unused.now × All (λ u. u.at ≤ now) unused.now }
{
    match unused.last() {
        Some(last) => moments_rise && last.at <= now,
        None => true,
    }
}

/// The batons of a server's streams. A stream has a place from `reserve_stream` on, and at most one unused baton.
///
/// The unused batons stand in the order of their issues. A baton's text names its issue, by which its place is searched in
/// halves. While each issue is no earlier than the one before, `due` goes over the batons that are due and one more, else
/// over all of them, so over no more than there are streams.
#[derive(Drop)]
pub struct BatonStore {
    issued: u64,
    reserved: Vec<StreamNo>,
    unused: Vec<Unused>,
    /// If true, the moments of the unused batons rise.
    moments_rise: bool,
}

impl Model for BatonStore {
    ghost use Rattle.std.specs.Prelude.{vec_len, vec_capacity, IsTrue, ◌≤◌};
    ghost use Rattle.baton_store.specs.Batons.{Batons, IsSound, MomentsRise};

    ghost Value = { Batons };

    ghost view = { λ s. record { issued = s.issued; reserved = s.reserved.items; unused = s.unused.items } };

    ghost invariant = { λ s. record {
      sound : IsSound (record { issued = s.issued; reserved = s.reserved.items; unused = s.unused.items });
      room : vec_len s.reserved ≤ vec_capacity s.unused;
      rise : IsTrue s.moments_rise → MomentsRise s.unused.items;
    } };
}

impl BatonStore {
    pub fn new(alloc: Global) -> Result<BatonStore, NoMemory>
        ensures { IfOk result (λ store. store ≡ no_batons) }
    {
        Ok(BatonStore {
            issued: 0,
            reserved: Vec::new(alloc),
            unused: Vec::new(alloc),
            moments_rise: true,
        })
    }

    /// Makes a place for the stream's batons.
    pub fn reserve_stream(&mut self, stream: StreamNo) -> Result<(), NoMemory>
        ensures ok { OnOk result (self.new ≡ with_place self.old stream) }
        ensures err { OnErr result (self.new ≡ self.old) }
    {
        let places = self.reserved.len() + 1;
        self.unused
            .reserve(places.saturating_sub(self.unused.len()))?;
        self.reserved.push(stream)?;
        Ok(())
    }

    /// Issues a baton to the stream.
    pub fn issue(&mut self, stream: StreamNo, words: [u64; 2], now: u64) -> Baton
        requires reserved { Contains self.old.reserved stream }
        requires none { HasNone self.old stream }
        requires few { self.old.issued < 2 ^ 64 - 1 }
        ensures text { result.text ≡ text_of (self.old.issued + 1) words }
        ensures ascii { IsAscii result.text }
        ensures symbols { All IsSymbol result.text }
        ensures store { self.new ≡ with_baton self.old stream words now }
    {
        self.issued += 1;
        self.moments_rise = still_rise(&self.unused, self.moments_rise, now);
        let baton = baton_of(self.issued, words);
        self.unused.push_reserved(Unused {
            number: self.issued,
            baton,
            stream,
            at: now,
        });
        baton
    }

    /// Accepts a text that is an unused baton and lives, and uses it.
    pub fn redeem(&mut self, text: &str, now: u64) -> Redeem
        ensures answer { Redeems self.old text.now now result self.new }
        ensures free { Frees result self.new }
    {
        match live_place(&self.unused, text.as_bytes(), now) {
            Some(place) => Redeem::Live(self.unused.remove(place).stream),
            None => Redeem::Dead,
        }
    }

    /// The lowest stream whose unused baton was issued a baton's life ago, or longer.
    pub fn due(&self, now: u64) -> Option<StreamNo>
        ensures { IsDueAmong self.now.unused now result }
    {
        lowest_due(&self.unused, self.moments_rise, now)
    }

    /// Takes the stream's baton and its place away.
    pub fn forget(&mut self, stream: StreamNo)
        ensures { self.new ≡ without self.old stream }
    {
        self.reserved.retain(|other| other.0 != stream.0);
        self.unused.retain(|other| other.stream.0 != stream.0);
    }
}
