// The texts that statements may name.
ghost use Rattle.std.specs.Prelude.{◌≡◌, ◌-◌, ◌^◌, ◌∷◌, ◌++◌, [], min, MatchOption, None, Some, OnOk, OnErr};
ghost use Rattle.stream_task.specs.Checks.{stored_text, text_of};
ghost use Rattle.stream_task.specs.Texts.{stored_bytes, is_full, without_text, store_refusal};

use crate::limits::{MAX_STORED_BYTES, MAX_STORED_TEXTS};
use hrana_stmt::{Code, SqlRef};
use hrana_value::{NoMemory, Txt};
use std::alloc::Global;
use std::marker::Model;

/// A text that statements may name.
#[derive(Debug, Drop)]
pub struct StoredText {
    pub id: i32,
    pub sql: Txt,
}

/// The stored texts of a stream or of a connection.
#[derive(Debug, Drop)]
pub struct StoredTexts {
    items: Vec<StoredText>,
}

impl Model for StoredTexts {
    ghost use Rattle.std.specs.Prelude.{List};
    ghost use Rattle.stream_task.specs.declared.texts.StoredText.{StoredText};

    ghost Value = { List StoredText };

    ghost view = { λ texts. texts.items.items };
}

/// The stored text of this number.
pub fn stored_text(texts: &[StoredText], id: i32) -> Option<&str>
    ensures { MatchOption result (stored_text id texts.now ≡ None) (λ text. stored_text id texts.now ≡ Some text.now) }
{
    for text in texts {
        if text.id == id {
            return Some(text.sql.as_str());
        }
    }
    None
}

/// How many bytes the texts have together, as far as it can be counted.
fn stored_bytes(texts: &[StoredText]) -> usize
    ensures { result ≡ min (stored_bytes texts.now) (2 ^ 64 - 1) }
{
    let mut bytes: usize = 0;
    for text in texts {
        bytes = bytes.saturating_add(text.sql.as_str().len());
    }
    bytes
}

/// Whether one more text would be too many, or pass the limit of their bytes.
fn is_full(texts: &[StoredText], sql: &Txt) -> bool
    ensures { result ≡ is_full texts.now sql.now }
{
    let bytes = stored_bytes(texts).saturating_add(sql.as_str().len());
    MAX_STORED_TEXTS <= texts.len() || MAX_STORED_BYTES < bytes
}

/// Lets go of the text of this number, if there is one.
fn forget_text(texts: &mut Vec<StoredText>, id: i32)
    ensures { texts.new.items ≡ without_text id texts.old.items }
{
    texts.retain(|text| text.id != id);
}

impl StoredTexts {
    pub fn new(alloc: Global) -> StoredTexts
        ensures { result ≡ [] }
    {
        StoredTexts {
            items: Vec::new(alloc),
        }
    }

    pub fn as_slice(&self) -> &[StoredText]
        ensures { result.now ≡ self.now }
    {
        self.items.as_slice()
    }

    /// Whether one more text would be too many, or pass the limit of their bytes.
    pub fn is_full(&self, sql: &Txt) -> bool
        ensures { result ≡ is_full self.now sql.now }
    {
        is_full(self.items.as_slice(), sql)
    }

    /// Stores a text, at the end. Where there is no memory nothing changes.
    pub fn store(&mut self, text: StoredText) -> Result<(), NoMemory>
        ensures ok { OnOk result (self.new ≡ self.old ++ text ∷ []) }
        ensures err { OnErr result (self.new ≡ self.old) }
    {
        self.items.push(text)?;
        Ok(())
    }

    /// Lets go of the text of this number, if there is one.
    pub fn forget(&mut self, id: i32)
        ensures { self.new ≡ without_text id self.old }
    {
        forget_text(&mut self.items, id);
    }
}

/// Why a text isn't stored: its number is in use, or one more would be too many.
pub(crate) fn store_refusal(texts: &StoredTexts, text: &StoredText) -> Option<Code>
    ensures { result ≡ store_refusal texts.now text.now }
{
    if stored_text(texts.as_slice(), text.id).is_some() {
        return Some(Code::SqlIdInUse);
    }
    if texts.is_full(&text.sql) {
        return Some(Code::TooManyTexts);
    }
    None
}

/// The text that a statement or a sequence names.
pub(crate) fn text_of<'a>(texts: &'a StoredTexts, sql: &'a SqlRef) -> Option<&'a str>
    ensures { MatchOption result (text_of texts.now sql.now ≡ None) (λ text. text_of texts.now sql.now ≡ Some text.now) }
{
    match sql {
        SqlRef::Text(text) => Some(text.as_str()),
        SqlRef::Id(id) => stored_text(texts.as_slice(), *id),
    }
}
