ghost use Rattle.std.specs.Prelude.{◌≡◌, ℕ, ◌<◌, Some, None, IsSome, OnOk, vec_len};
ghost use Rattle.task_machine.specs.Labels.{label_in, Updates};

use exceptions::Label;
use std::alloc::AllocError;

// Sets the label of the key. Every other key keeps its own.
pub(crate) fn put_label(
    labels: &mut Vec<Option<Label>>,
    key: usize,
    label: Label,
) -> Result<(), AllocError>
    ensures { OnOk result (Updates (label_in labels.old.items) (label_in labels.new.items) key (Some label)) }
{
    make_room(labels, key)?;
    labels[key] = Some(label);
    Ok(())
}

// Every key up to this one has a place afterwards, and keeps its label.
fn make_room(labels: &mut Vec<Option<Label>>, key: usize) -> Result<(), AllocError>
    ensures room { OnOk result (key < vec_len labels.new) }
    ensures keeps { OnOk result ((at : ℕ) → label_in labels.new.items at ≡ label_in labels.old.items at) }
{
    'places: while labels.len() <= key {
        labels.push(None)?;
    }
    Ok(())
}

// Takes the label of the key, which has none afterwards. Every other key keeps its own.
pub(crate) fn take_label(labels: &mut Vec<Option<Label>>, key: usize) -> Label
    requires { IsSome (label_in labels.old.items key) }
    ensures label { label_in labels.old.items key ≡ Some result }
    ensures taken { Updates (label_in labels.old.items) (label_in labels.new.items) key None }
{
    match labels[key].take() {
        Some(label) => label,
        None => unreachable!(),
    }
}
