ghost use Rattle.std.specs.Prelude.{◌≡◌, ◌++◌, [], ◌∷◌, IfOk, map, take, codes};
ghost use Rattle.serde_json.specs.View.{view};
ghost use Rattle.exceptions.specs.Held.{exc_of, excs_of, whose_of};
ghost use Rattle.json_story.specs.Values.{exc_json, parts_json, whose_json};

use crate::text::{label_value, text_value};
use exceptions::{Exc, Whose};
use serde_json::{Value, json};
use std::alloc::{AllocError, Global};

// Returns the origin of a group.
fn whose_value(alloc: Global, whose: &Whose) -> Result<Value, AllocError>
    ensures { IfOk result (λ value. view value ≡ whose_json (whose_of whose.now)) }
{
    match whose {
        Whose::Nursery(label) => label_value(alloc, label),
        Whose::Handler => Value::try_from_str(alloc, "*"),
    }
}

/// Returns an exception as a JSON object; a group contains its parts. The only error is that memory runs out.
#[cycle(exc)]
pub fn exc_value(alloc: Global, exc: &Exc) -> Result<Value, AllocError>
    ensures { IfOk result (λ value. view value ≡ exc_json (exc_of exc.now)) }
{
    match exc {
        Exc::Cancelled => json!(in alloc; {"cancelled": true}),
        Exc::Raised { name, task, tick } => {
            let raised = text_value(alloc, name.bytes())?;
            let by = label_value(alloc, task)?;
            json!(in alloc; {"raised": raised, "task": by, "tick": *tick})
        }
        Exc::TooSlow { scope, tick } => {
            let slow = label_value(alloc, scope)?;
            json!(in alloc; {"too_slow": slow, "tick": *tick})
        }
        Exc::Group { whose, parts } => {
            let made_by = whose_value(alloc, whose)?;
            let values = part_values(alloc, parts.as_slice())?;
            json!(in alloc; {"group": made_by, "parts": values})
        }
    }
}

// Returns the parts of a group.
#[cycle(exc)]
fn part_values(alloc: Global, parts: &[Exc]) -> Result<Vec<Value>, AllocError>
    ensures { IfOk result (λ values. map view values.items ≡ parts_json (excs_of parts.now)) }
{
    let mut values = Vec::new(alloc);
    'parts: for part in parts {
        let value = exc_value(alloc, part)?;
        values.push(value)?;
    }
    Ok(values)
}
