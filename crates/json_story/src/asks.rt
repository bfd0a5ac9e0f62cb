//! What is asked of limiters and channels, as members of a JSON object.
ghost use Rattle.std.specs.Prelude.{◌≡◌, OnOk, codes};
ghost use Rattle.serde_json.specs.Data.{put as with_member};
ghost use Rattle.serde_json.specs.View.{members_view};
ghost use Rattle.job_report.specs.Text.{ask_word};
ghost use Rattle.json_story.specs.Events.{object_word, with_ask, with_size};
ghost use Rattle.json_story.specs.Values.{integer, word};

use crate::label_value;
use exceptions::Label;
use job_tree::{Ask, ObjectKind};
use serde_json::{Map, Value, put};
use std::alloc::{AllocError, Global};

// Returns the word for the entry of a limiter or channel.
pub(crate) fn object_word(kind: ObjectKind) -> &'static str
    ensures { result.now ≡ object_word kind }
{
    match kind {
        ObjectKind::Limiter(_) => "enters_limiter",
        ObjectKind::Channel(_) => "enters_channel",
    }
}

// Adds how many tokens a limiter has, or places the buffer of a channel.
pub(crate) fn put_size(
    members: &mut Map<String, Value>,
    alloc: Global,
    kind: ObjectKind,
) -> Result<(), AllocError>
    ensures { OnOk result (members_view members.new.entries ≡ with_size kind (members_view members.old.entries)) }
{
    match kind {
        ObjectKind::Limiter(tokens) => put(members, alloc, "tokens", Value::from(tokens)),
        ObjectKind::Channel(places) => put(members, alloc, "places", Value::from(places)),
    }
}

// Adds what is asked of a limiter or channel, and its label under a key.
pub(crate) fn put_ask(
    members: &mut Map<String, Value>,
    alloc: Global,
    ask: Ask,
    key: &str,
    object: &Label,
) -> Result<(), AllocError>
    ensures { OnOk result (members_view members.new.entries ≡ with_ask ask key.now object.now (members_view members.old.entries)) }
{
    let step = Value::try_from_str(alloc, ask_word(ask))?;
    put(members, alloc, "ask", step)?;
    let label = label_value(alloc, object)?;
    put(members, alloc, key, label)
}

// Returns the word of the step that asks this.
pub(crate) fn ask_word(ask: Ask) -> &'static str
    ensures { result.now ≡ ask_word ask }
{
    match ask {
        Ask::Acquire => "acquire",
        Ask::Send => "send",
        Ask::Receive => "receive",
    }
}
