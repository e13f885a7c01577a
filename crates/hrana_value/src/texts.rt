// Texts in JSON.
ghost use Rattle.serde_json.specs.View.{view};
ghost use Rattle.hrana_value.specs.Declines.{Reads};
ghost use Rattle.hrana_value.specs.Members.{TextTree, TextStands};

use crate::{Decline, JsonForm, ReadFail, Txt};
use serde_json::Value as Json;
use std::alloc::Global;

/// Reads a string.
pub fn text_of_json(alloc: Global, json: &Json) -> Result<Txt, ReadFail>
    ensures { Reads (λ s. TextTree s (view json.now)) (TextStands (view json.now)) result }
{
    let Some(text) = json.as_str() else {
        return Err(ReadFail::Declined(Decline::Shape));
    };
    Ok(Txt::new(alloc, text)?)
}

impl JsonForm for Txt {
    ghost tree = { TextTree };

    ghost stands = { TextStands };

    fn of_json(alloc: Global, json: &Json) -> Result<Txt, ReadFail> {
        text_of_json(alloc, json)
    }
}
