//! The traits of the outside, what stands for them in memory and over std, and the entries of a journal.
#![tactic(auto)]

mod byte_sink;
mod byte_source;
mod clock;
mod copies;
mod count_tokens;
mod device_tokens;
mod engine;
mod entries;
mod failing;
mod file_sink;
mod journal;
mod limits;
mod listed_calls;
mod millisecond_clock;
mod noted;
mod outside;
mod plain_keeper;
mod statement;
mod status;
mod step_clock;
mod tokens;
mod transfer;

pub use byte_sink::ByteSink;
pub use byte_source::ByteSource;
pub use clock::Clock;
pub use count_tokens::CountTokens;
pub use device_tokens::DeviceTokens;
pub use engine::{Engine, EngineFail};
pub use entries::{Answer, Broken, Deny, Entry, How, Undo};
pub use failing::Failing;
pub use file_sink::FileSink;
pub use hrana_value::NoMemory;
pub use journal::{Journal, JournalFail};
pub use limits::{MAX_INPUT_BYTES, MAX_RESULT_BYTES, MAX_ROWS, limits_are};
pub use listed_calls::ListedCalls;
pub use millisecond_clock::MillisecondClock;
pub use noted::Entries;
pub use outside::{Failed, ReaderSource, Sink, Source, WriterSink};
pub use plain_keeper::PlainKeeper;
pub use sql_text::{Class, Mode};
pub use statement::BoundStmt;
pub use status::Status;
pub use step_clock::StepClock;
pub use tokens::Tokens;
pub use transfer::{ReadAllFail, read_all, write_all};
