// The top call.
ghost use Rattle.std.specs.Prelude.{◌≡◌, ◌↔◌, ◌<◌, ◌≤◌, ◌⊎◌, ℕ, List, Option, [], length, map, option_map, Some, None, IfSome, IfOk, IsTrue};
ghost use Rattle.engine_core.specs.Bytes.{lines_of};
ghost use Rattle.engine_core.specs.Causes.{Rose, RoseBy};
ghost use Rattle.engine_core.specs.Journal.{entry_of, fault_count};
ghost use Rattle.engine_core.specs.Transactions.{NoneLive};
ghost use Rattle.engine_core.specs.Transfer.{given_count};
ghost use Rattle.engine_core.specs.declared.limits.TheConstants.{MAX_INPUT_BYTES};
ghost use Rattle.stream_task.specs.Laws.{BatchesAreMeant};
ghost use Rattle.stream_task.specs.Leads.{IsExplained};
ghost use Rattle.hrana_hub.specs.Agrees.{IsNew};
ghost use Rattle.hrana_hub.specs.Batons.{AnsweredOnce, DeadBatonsChangeNothing, NoBatonTwice};
ghost use Rattle.hrana_hub.specs.Drawn.{DrawsFrom};
ghost use Rattle.hrana_hub.specs.Laws.{DeadAddNothing};
ghost use Rattle.hrana_serve.specs.Clauses.{WithJournal};
ghost use Rattle.hrana_serve.specs.Outcome.{Outcome, IsEarly, LeavesBy};
ghost use Rattle.hrana_serve.specs.Replay.{IsLinesStatus};
ghost use Rattle.hrana_serve.specs.Story.{HasStory, HasAnswered, HasFewRefusals, HasReplies, IsFirstBad, Replayed};
ghost use Rattle.hrana_serve.specs.Words.{AsksReplay, texts_of, token_in};

use crate::replay::{play_lines, stop};
use crate::words::replay_token;
use engine_core::{
    Engine, Entry, Journal, MAX_INPUT_BYTES, ReadAllFail, Sink, Source, Status, Tokens, read_all,
};
use hrana_hub::{
    Hub, a_new_hub_agrees, dead_batons_change_nothing, exchanges_are_answered_in_order,
    exchanges_are_answered_once, no_baton_is_accepted_twice, refusals_for_words_have_failed_draws,
    replies_follow_requests, runs_have_versions, the_dead_add_nothing,
};
use hrana_value::{NoMemory, Txt};
use std::alloc::Global;
use stream_task::{batches_are_meant, journal_says_what_stands, streams_stand_at_first};

/// What the program runs over.
#[derive(Drop)]
pub struct World<I, O, E, T, J> {
    pub source: I,
    pub sink: O,
    pub engine: E,
    pub tokens: T,
    pub journal: J,
}

/// How a run ended, the entries that the journal didn't take, and the number of events that were run before `Stop`.
#[derive(Drop)]
pub struct Ended {
    pub status: Status,
    pub unsaved: Vec<Entry>,
    pub events: u64,
}

/// An end before the first event.
fn at_once<E: Engine, T: Tokens, J: Journal, O: Sink>(
    alloc: Global,
    status: Status,
    engine: &E,
    tokens: &T,
    journal: &J,
    sink: &O,
) -> Ended
    requires early { IsEarly status }
    requires quiet { NoneLive (E.live engine.now) }
    ensures status { result.status ≡ status }
    ensures outcome { (token left : Option (List ℕ)) → DrawsFrom T.drawn T.faults tokens.now tokens.now
        (Outcome E.told E.SHARED E.meaning E.db E.live E.faults engine.now engine.now J.noted J.faults journal.now journal.now O.written O.faults sink.now sink.now
        token left result.status result.events result.unsaved.items) }
{
    streams_stand_at_first::<E>();
    journal_says_what_stands::<E>();
    Ended {
        status,
        unsaved: Vec::new(alloc),
        events: 0,
    }
}

fn new_hub(alloc: Global, token: Option<&str>) -> Result<Hub, NoMemory>
    ensures { IfOk result (λ hub. IsNew (option_map (λ word. word.now) token.entry) hub) }
{
    match token {
        Some(token) => Hub::new(alloc, Some(Txt::new(alloc, token)?)),
        None => Hub::new(alloc, None),
    }
}

/// Runs the lines of a script over a new hub, and then `Stop`, whatever stopped the lines.
fn run<E: Engine, T: Tokens, J: Journal, O: Sink>(
    alloc: Global,
    token: Option<&str>,
    script: &[u8],
    engine: &mut E,
    tokens: &mut T,
    journal: &mut J,
    sink: &mut O,
) -> Ended
    requires quiet { NoneLive (E.live engine.old) }
    requires short { length script.now ≤ MAX_INPUT_BYTES }
    ensures outcome { DrawsFrom T.drawn T.faults tokens.old tokens.new
        (Outcome E.told E.SHARED E.meaning E.db E.live E.faults engine.old engine.new J.noted J.faults journal.old journal.new O.written O.faults sink.old sink.new
        (option_map (λ word. word.now) token.entry) (Some script.now) result.status result.events result.unsaved.items) }
    ensures ends { IsLinesStatus result.status }
{
    a_new_hub_agrees::<E>();
    journal_says_what_stands::<E>();
    let Ok(mut hub) = new_hub(alloc, token) else {
        return at_once(alloc, Status::NoMemory, engine, tokens, journal, sink);
    };
    let halt = play_lines(alloc, script, &mut hub, engine, tokens, journal, sink);
    let status = stop(&mut hub, engine, tokens, journal, halt);
    Ended {
        status,
        unsaved: hub.into_entries(),
        events: halt.events,
    }
}

fn status_of(fail: ReadAllFail) -> Status
    ensures early { IsEarly result }
    ensures words { result ≡ Status.BadWords → ⊥ }
    ensures fault { result ≡ Status.ReadFault → fail ≡ ReadAllFail.Fault }
    ensures too_long { (result ≡ Status.InputTooLong) ↔ (fail ≡ ReadAllFail.TooLong) }
{
    match fail {
        ReadAllFail::Fault => Status::ReadFault,
        ReadAllFail::TooLong => Status::InputTooLong,
        ReadAllFail::NoMemory => Status::NoMemory,
    }
}

/// Reads the source to its end, and runs the script over a hub that requires the token.
fn replay<I: Source, O: Sink, E: Engine, T: Tokens, J: Journal>(
    alloc: Global,
    token: Option<&str>,
    world: &mut World<I, O, E, T, J>,
) -> Ended
    requires quiet { NoneLive (E.live world.old.engine) }
    ensures outcome { DrawsFrom T.drawn T.faults world.old.tokens world.new.tokens
        (Outcome E.told E.SHARED E.meaning E.db E.live E.faults world.old.engine world.new.engine J.noted J.faults world.old.journal world.new.journal O.written O.faults world.old.sink world.new.sink
        (option_map (λ word. word.now) token.entry) (I.left world.old.source) result.status result.events result.unsaved.items) }
    ensures words { result.status ≡ Status.BadWords → ⊥ }
    ensures too_long { IfSome (I.left world.old.source) (λ _. (result.status ≡ Status.InputTooLong) ↔ (MAX_INPUT_BYTES < given_count (I.left world.old.source) (I.left world.new.source))) }
    ensures read_fault { result.status ≡ Status.ReadFault → Rose (I.faults world.old.source) (I.faults world.new.source) }
{
    match read_all(alloc, &mut world.source) {
        Ok(script) => run(
            alloc,
            token,
            script.as_slice(),
            &mut world.engine,
            &mut world.tokens,
            &mut world.journal,
            &mut world.sink,
        ),
        Err(fail) => at_once(
            alloc,
            status_of(fail),
            &world.engine,
            &world.tokens,
            &world.journal,
            &world.sink,
        ),
    }
}

/// Runs the words, whose one form so far is that of a replay.
fn answer<I: Source, O: Sink, E: Engine, T: Tokens, J: Journal>(
    alloc: Global,
    words: &[&str],
    world: &mut World<I, O, E, T, J>,
) -> Ended
    requires quiet { NoneLive (E.live world.old.engine) }
    ensures outcome { DrawsFrom T.drawn T.faults world.old.tokens world.new.tokens
        (Outcome E.told E.SHARED E.meaning E.db E.live E.faults world.old.engine world.new.engine J.noted J.faults world.old.journal world.new.journal O.written O.faults world.old.sink world.new.sink
        (token_in (texts_of words.now)) (I.left world.old.source) result.status result.events result.unsaved.items) }
    ensures words { (result.status ≡ Status.BadWords) ↔ ¬ (AsksReplay (texts_of words.now)) }
    ensures too_long { AsksReplay (texts_of words.now) → IfSome (I.left world.old.source) (λ _. (result.status ≡ Status.InputTooLong) ↔ (MAX_INPUT_BYTES < given_count (I.left world.old.source) (I.left world.new.source))) }
    ensures read_fault { result.status ≡ Status.ReadFault → Rose (I.faults world.old.source) (I.faults world.new.source) }
{
    match replay_token(words) {
        Some(token) => replay(alloc, token, world),
        None => at_once(
            alloc,
            Status::BadWords,
            &world.engine,
            &world.tokens,
            &world.journal,
            &world.sink,
        ),
    }
}

/// Runs the words over the world. The one form so far is `replay`, with the token that connections have to give, or without one: it
/// reads the source to its end and runs each line's event, noting what it adds and then writing what it gives; `Stop` is the last
/// event. Where the journal tells its list, the entries of a run are those that it noted in this call, followed by `unsaved`.
pub fn hrana<I: Source, O: Sink, E: Engine, T: Tokens, J: Journal>(
    alloc: Global,
    words: &[&str],
    world: &mut World<I, O, E, T, J>,
) -> Ended
    requires quiet { NoneLive (E.live world.old.engine) }

    // The events are those of the script's lines up to the first bad one, and then `Stop`. The entries are those that these events add, and the
    // words that the call drew are those that were drawn for its exchanges, in their order.
    ensures journal_fits { WithJournal (J.noted world.old.journal) (J.noted world.new.journal) result.unsaved.items (λ entries. IfSome (I.left world.old.source) (λ script.
        DrawsFrom T.drawn T.faults world.old.tokens world.new.tokens (λ draws. HasStory (token_in (texts_of words.now)) E.SHARED (lines_of script) result.status result.events draws entries))) }

    // The entries explain themselves: executing their units one at a time in serial order gives every answer, and the last database.
    ensures serial_explains { IsTrue E.told → WithJournal (J.noted world.old.journal) (J.noted world.new.journal) result.unsaved.items (λ entries.
        IsExplained E.SHARED E.meaning (E.db world.old.engine) (map entry_of entries) (E.db world.new.engine)) }

    // No transaction is live at the end.
    ensures quiet { NoneLive (E.live world.new.engine) }

    // What was written is what the outs of the events are printed as, all of it or a front, in one story that ends as the status says.
    ensures output_exact { WithJournal (J.noted world.old.journal) (J.noted world.new.journal) result.unsaved.items (λ entries. IfSome (I.left world.old.source) (λ script.
        DrawsFrom T.drawn T.faults world.old.tokens world.new.tokens (λ draws. Replayed (token_in (texts_of words.now)) E.SHARED (lines_of script) result.status result.events result.unsaved.items (O.written world.old.sink) (O.written world.new.sink) draws entries))) }

    // The journal took each entry of an event whose outs were written.
    ensures answered_is_journaled { WithJournal (J.noted world.old.journal) (J.noted world.new.journal) result.unsaved.items (λ entries. IfSome (I.left world.old.source) (λ script.
        DrawsFrom T.drawn T.faults world.old.tokens world.new.tokens (λ draws. HasAnswered (token_in (texts_of words.now)) E.SHARED (lines_of script) result.events result.unsaved.items (O.written world.old.sink) (O.written world.new.sink) draws entries))) }
    ensures unsaved_cause { LeavesBy (J.faults world.old.journal) (J.faults world.new.journal) result.status result.unsaved.items }
    ensures done { result.status ≡ Status.Done → result.unsaved.items ≡ [] }

    // The replies of each stream are those of its requests, in their order, over a connection and by exchanges alike. A batch's outcomes are
    // those that it means. What is dead or gone adds no entry.
    ensures replies_in_order { WithJournal (J.noted world.old.journal) (J.noted world.new.journal) result.unsaved.items (λ entries. IfSome (I.left world.old.source) (λ script.
        DrawsFrom T.drawn T.faults world.old.tokens world.new.tokens (λ draws. HasReplies (token_in (texts_of words.now)) E.SHARED (lines_of script) result.events draws entries))) }
    ensures batches_as_meant { BatchesAreMeant }
    ensures dead_add_nothing { DeadAddNothing }

    // An exchange whose baton isn't live changes nothing, no baton is accepted twice, and no exchange is answered twice.
    ensures dead_batons { DeadBatonsChangeNothing }
    ensures no_baton_twice { NoBatonTwice }
    ensures answered_once { AnsweredOnce }

    // Each status has its cause. Only want of memory is free.
    ensures bad_words { (result.status ≡ Status.BadWords) ↔ ¬ (AsksReplay (texts_of words.now)) }
    ensures bad_script { (line : ℕ) → result.status ≡ Status.BadScript line → WithJournal (J.noted world.old.journal) (J.noted world.new.journal) result.unsaved.items (λ entries. IfSome (I.left world.old.source) (λ script.
        DrawsFrom T.drawn T.faults world.old.tokens world.new.tokens (λ draws. IsFirstBad (token_in (texts_of words.now)) E.SHARED (lines_of script) line result.events draws entries))) }
    ensures input_too_long { AsksReplay (texts_of words.now) → IfSome (I.left world.old.source) (λ _. (result.status ≡ Status.InputTooLong) ↔ (MAX_INPUT_BYTES < given_count (I.left world.old.source) (I.left world.new.source))) }
    ensures read_fault { result.status ≡ Status.ReadFault → Rose (I.faults world.old.source) (I.faults world.new.source) }
    ensures write_fault { result.status ≡ Status.WriteFault → Rose (O.faults world.old.sink) (O.faults world.new.sink) }
    ensures journal_fault { result.status ≡ Status.JournalFault → Rose (J.faults world.old.journal) (J.faults world.new.journal) }
    ensures complete { AsksReplay (texts_of words.now)
        → (Rose (I.faults world.old.source) (I.faults world.new.source) → ⊥) → (Rose (O.faults world.old.sink) (O.faults world.new.sink) → ⊥) → (Rose (J.faults world.old.journal) (J.faults world.new.journal) → ⊥)
        → WithJournal (J.noted world.old.journal) (J.noted world.new.journal) result.unsaved.items (λ entries. IfSome (I.left world.old.source) (λ script.
        DrawsFrom T.drawn T.faults world.old.tokens world.new.tokens (λ draws. length script ≤ MAX_INPUT_BYTES → ((line : ℕ) → IsFirstBad (token_in (texts_of words.now)) E.SHARED (lines_of script) line result.events draws entries → ⊥) → (result.status ≡ Status.Done) ⊎ (result.status ≡ Status.NoMemory)))) }
    ensures engine_faults { WithJournal (J.noted world.old.journal) (J.noted world.new.journal) result.unsaved.items (λ entries. RoseBy (fault_count entries) (E.faults world.old.engine) (E.faults world.new.engine)) }
    ensures token_faults { WithJournal (J.noted world.old.journal) (J.noted world.new.journal) result.unsaved.items (λ entries. IfSome (I.left world.old.source) (λ script.
        DrawsFrom T.drawn T.faults world.old.tokens world.new.tokens (λ draws. HasFewRefusals (token_in (texts_of words.now)) E.SHARED (lines_of script) result.events (T.faults world.old.tokens) (T.faults world.new.tokens) draws entries))) }
{
    replies_follow_requests();
    exchanges_are_answered_in_order();
    runs_have_versions();
    batches_are_meant();
    the_dead_add_nothing();
    dead_batons_change_nothing();
    no_baton_is_accepted_twice();
    exchanges_are_answered_once();
    refusals_for_words_have_failed_draws();
    answer(alloc, words, world)
}
