// What is written as JSON text, with no tree of it.
ghost use Rattle.std.specs.Prelude.{◌≡◌, ◌≤◌, ◌<◌, ◌^◌, Some, IfOk, OnOk, IsUtf8, FitsSigned, map};
ghost use Rattle.std.specs.Int.{w32};
ghost use Rattle.serde_json.specs.Data.{Data, array, depth, object, member, no_members, string, number as number_data, unsigned};
ghost use Rattle.serde_json.specs.Find.{of_integer};
ghost use Rattle.serde_json.specs.Events.{SendsValue, SendsMembers};
ghost use Rattle.serde_json.specs.Read.{read, max_depth};
ghost use Rattle.serde_json.specs.View.{items_of, view};
ghost use Rattle.serde_json.specs.Written.{compact_text};
ghost use Rattle.hrana_value.specs.Tree.{ValueTree};
ghost use Rattle.hrana_value.specs.Trees.{ArrayTree};
ghost use Rattle.hrana_value.specs.Whole.{IsWhole};
ghost use Rattle.hrana_value.specs.Written.{value_data};

use crate::{List, NoMemory, Txt, Value};
use base64::engine::general_purpose::STANDARD;
use itoa::Buffer;
use serde::{Described, Serialize, Serializer};
use serde_json::Value as Json;
use std::alloc::Global;

/// What is written as JSON.
pub trait JsonText: Drop {
    /// The tree that the text is one of.
    ghost form: { Self → Data };

    /// The tree is a form of the value, as in `JsonForm`. Where nothing reads the type, any tree is.
    ghost tree: { Self → Data → Type 0 } = { λ _ _. Unit {0} };

    /// Sends the tree's events, with the members of each object in byte order. The allocator is for what has to be spelled first.
    fn send<S: Serializer>(&self, alloc: Global, out: &mut S) -> Result<(), S::Error>
        ensures sends { OnOk result (SendsValue (form self.now) (S.written out.old) (S.written out.new)) }
        ensures whole { OnOk result (IsWhole (form self.now)) }
        ensures back { OnOk result (tree self.now (form self.now)) };
}

/// Sends an array.
pub fn send_list<T: JsonText, S: Serializer>(
    alloc: Global,
    items: &[T],
    out: &mut S,
) -> Result<(), S::Error>
    ensures sends { OnOk result (SendsValue (array (items_of (map T.form items.now))) (S.written out.old) (S.written out.new)) }
    ensures whole { OnOk result (IsWhole (array (items_of (map T.form items.now)))) }
    ensures back { OnOk result (ArrayTree T.tree items.now (array (items_of (map T.form items.now)))) }
{
    out.begin_seq(Some(items.len()))?;
    for item in items {
        item.send(alloc, out)?;
    }
    out.end_seq()
}

#[derive(Drop)]
struct Sent<'a, T: JsonText> {
    alloc: Global,
    value: &'a T,
}

impl<T: JsonText> Described for Sent<'_, T> {
    ghost use Rattle.serde_json.specs.Events.{SendsValue};
    ghost use Rattle.hrana_value.specs.Whole.{IsWhole};

    ghost writes = { λ s old new. SendsValue (T.form s.value.now) old new × IsWhole (T.form s.value.now) × T.tree s.value.now (T.form s.value.now) };
}

impl<T: JsonText> Serialize for Sent<'_, T> {
    fn serialize<S: Serializer>(&self, out: &mut S) -> Result<(), S::Error> {
        self.value.send(self.alloc, out)
    }
}

/// The text of what is written, which reads as its tree.
pub fn text_of<T: JsonText>(alloc: Global, value: &T) -> Result<Txt, NoMemory>
    ensures text { IfOk result (λ text. text ≡ compact_text (T.form value.now)) }
    ensures utf8 { IfOk result IsUtf8 }
    ensures reads_back { IfOk result (λ text. depth (T.form value.now) ≤ max_depth → read text ≡ Some (T.form value.now)) }
    ensures back { OnOk result (T.tree value.now (T.form value.now)) }
{
    match serde_json::to_string(alloc, &Sent { alloc, value }) {
        Ok(text) => Ok(Txt::from_string(text)),
        Err(_) => Err(NoMemory),
    }
}

/// The tree of what is written, which is to nest no deeper than what can be read.
pub fn json_of<T: JsonText>(alloc: Global, value: &T) -> Result<Json, NoMemory>
    requires { depth (T.form value.now) ≤ max_depth }
    ensures written { IfOk result (λ json. view json ≡ T.form value.now) }
    ensures reads_back { IfOk result (λ json. T.tree value.now (view json)) }
{
    let text = text_of(alloc, value)?;
    match Json::from_str(alloc, text.as_str()) {
        Ok(json) => Ok(json),
        Err(_) => Err(NoMemory),
    }
}

/// Sends a whole number.
pub fn send_uint64<S: Serializer>(number: u64, out: &mut S) -> Result<(), S::Error>
    ensures sends { OnOk result (SendsValue (number_data (unsigned number)) (S.written out.old) (S.written out.new)) }
    ensures whole { IsWhole (number_data (unsigned number)) }
    ensures fits { number < 2 ^ 64 }
{
    out.u64(number)
}

/// Sends a whole number with a sign.
pub fn send_int32<S: Serializer>(number: i32, out: &mut S) -> Result<(), S::Error>
    ensures sends { OnOk result (SendsValue (number_data (of_integer number)) (S.written out.old) (S.written out.new)) }
    ensures whole { IsWhole (number_data (of_integer number)) }
    ensures fits { FitsSigned w32 number }
{
    match u64::try_from(number) {
        Ok(number) => out.u64(number),
        Err(_) => out.i64(i64::from(number)),
    }
}

/// Sends a last member, which is a string, and the object's end.
pub fn end_with_text<S: Serializer>(name: &str, text: &str, out: &mut S) -> Result<(), S::Error>
    ensures { OnOk result (SendsMembers (member name.now (string text.now) no_members) (S.written out.old) (S.written out.new)) }
{
    out.key(name)?;
    out.str(text)?;
    out.end_map()
}

/// Sends an object of one member that is a string.
pub fn send_text_member<S: Serializer>(name: &str, text: &str, out: &mut S) -> Result<(), S::Error>
    ensures { OnOk result (SendsValue (object (member name.now (string text.now) no_members)) (S.written out.old) (S.written out.new)) }
{
    out.begin_map(Some(1))?;
    end_with_text(name, text, out)
}

/// Sends an object of two members that are strings.
fn send_text_members<S: Serializer>(
    first: &str,
    text: &str,
    second: &str,
    other: &str,
    out: &mut S,
) -> Result<(), S::Error>
    ensures { OnOk result (SendsValue (object (member first.now (string text.now) (member second.now (string other.now) no_members))) (S.written out.old) (S.written out.new)) }
{
    out.begin_map(Some(2))?;
    out.key(first)?;
    out.str(text)?;
    end_with_text(second, other, out)
}

fn send_integer<S: Serializer>(number: i64, out: &mut S) -> Result<(), S::Error>
    ensures sends { OnOk result (SendsValue (value_data (Value.Integer number)) (S.written out.old) (S.written out.new)) }
    ensures back { ValueTree (Value.Integer number) (value_data (Value.Integer number)) }
{
    let mut buffer = Buffer::new();
    send_text_members("type", "integer", "value", buffer.format(number), out)
}

fn send_blob<S: Serializer>(alloc: Global, bytes: &[u8], out: &mut S) -> Result<(), S::Error>
    ensures sends { OnOk result (SendsValue (value_data (Value.Blob bytes.now)) (S.written out.old) (S.written out.new)) }
    ensures back { ValueTree (Value.Blob bytes.now) (value_data (Value.Blob bytes.now)) }
{
    match STANDARD.encode(alloc, bytes) {
        Ok(text) => send_text_members("base64", text.as_str(), "type", "blob", out),
        Err(_) => Err(out.custom("no memory")),
    }
}

impl JsonText for Value {
    ghost form = { value_data };

    ghost tree = { ValueTree };

    fn send<S: Serializer>(&self, alloc: Global, out: &mut S) -> Result<(), S::Error> {
        match self {
            Value::Null => send_text_member("type", "null", out),
            Value::Integer(number) => send_integer(*number, out),
            Value::Text(text) => send_text_members("type", "text", "value", text.as_str(), out),
            Value::Blob(bytes) => send_blob(alloc, bytes.as_slice(), out),
        }
    }
}

impl<T: JsonText> JsonText for List<T> {
    ghost use Rattle.std.specs.Prelude.{map};
    ghost use Rattle.serde_json.specs.Data.{array};
    ghost use Rattle.serde_json.specs.View.{items_of};
    ghost use Rattle.hrana_value.specs.Trees.{ArrayTree};

    ghost form = { λ items. array (items_of (map T.form items)) };

    ghost tree = { ArrayTree T.tree };

    fn send<S: Serializer>(&self, alloc: Global, out: &mut S) -> Result<(), S::Error> {
        send_list(alloc, self.as_slice(), out)
    }
}
