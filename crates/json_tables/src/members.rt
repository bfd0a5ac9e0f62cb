ghost use Rattle.std.specs.Prelude.{◌≡◌, IfOk, map, codes};
ghost use Rattle.serde_json.specs.Data.{member, no_members, string, put as with_member};
ghost use Rattle.serde_json.specs.View.{view, members_view};
ghost use Rattle.exceptions.specs.Exceptions.{Label};
ghost use Rattle.json_story.specs.Values.{integer, label_json, list_of};

use exceptions::Label;
use json_story::label_value;
use serde_json::{Map, Value, put};
use std::alloc::{AllocError, Global};

// The members of a JSON object. They are passed on by value, so that no value has to be dropped where a call fails: the time that
// the proof of a function takes grows with the drops on the ways out of it, and `json!` has two ways out for each member.
pub(crate) type Members = Map<String, Value>;

// Returns these members and another one.
pub(crate) fn with(
    members: Members,
    alloc: Global,
    key: &str,
    value: Value,
) -> Result<Members, AllocError>
    ensures { IfOk result (λ more. members_view more.entries ≡ with_member key.now (view value) (members_view members.entries)) }
{
    let mut more = members;
    put(&mut more, alloc, key, value)?;
    Ok(more)
}

// Returns these members and another one, which is a word.
pub(crate) fn with_word(
    members: Members,
    alloc: Global,
    key: &str,
    word: &str,
) -> Result<Members, AllocError>
    ensures { IfOk result (λ more. members_view more.entries ≡ with_member key.now (string word.now) (members_view members.entries)) }
{
    let value = Value::try_from_str(alloc, word)?;
    with(members, alloc, key, value)
}

// Returns these members and another one, which is a list of labels.
pub(crate) fn with_labels(
    members: Members,
    alloc: Global,
    key: &str,
    labels: &[Label],
) -> Result<Members, AllocError>
    ensures { IfOk result (λ more. members_view more.entries
        ≡ with_member key.now (list_of (map label_json labels.now)) (members_view members.entries)) }
{
    let values = label_values(alloc, labels)?;
    with(members, alloc, key, Value::from(values))
}

// Returns labels as JSON strings.
fn label_values(alloc: Global, labels: &[Label]) -> Result<Vec<Value>, AllocError>
    ensures { IfOk result (λ values. map view values.items ≡ map label_json labels.now) }
{
    let mut values = Vec::new(alloc);
    'labels: for label in labels {
        let value = label_value(alloc, label)?;
        values.push(value)?;
    }
    Ok(values)
}

// Returns the members with a place and the text of its step.
pub(crate) fn place_members(
    alloc: Global,
    line: usize,
    column: usize,
    step: Value,
) -> Result<Members, AllocError>
    ensures { IfOk result (λ members. members_view members.entries
        ≡ member (codes "column") (integer column) (member (codes "line") (integer line) (member (codes "step") (view step) no_members))) }
{
    let members = with(Map::new(alloc), alloc, "step", step)?;
    let members = with(members, alloc, "line", Value::from(line))?;
    with(members, alloc, "column", Value::from(column))
}
