ghost use Rattle.std.specs.Prelude.{◌≡◌, ◌++◌, ◌<◌, IfOk, OnOk};
ghost use Rattle.std.specs.Io.KnownBytes.{Appends};
ghost use Rattle.std.specs.String.{string_bytes};
ghost use Rattle.refusal_text.specs.Positions.{IsPosition};
ghost use Rattle.nursery.specs.Warned.{said_at, warning_text, warnings_text};

use crate::stop::Stop;
use job_answers::{Out, send};
use job_lint::{Warning, sentence};
use refusal_text::{Position, message_at};
use std::alloc::{AllocError, Global};

// Writes the text of warnings, all of them or none. The job has this name in it.
pub(crate) fn send_warnings<W: Out>(
    alloc: Global,
    name: &str,
    text: &[u8],
    warnings: &[Warning],
    out: &mut W,
) -> Result<(), Stop>
    requires { W.failed out.old < 9223372036854775808 }
    ensures { OnOk result (Appends (W.contents out.old) (W.contents out.new) (warnings_text name.now text.now warnings.now)) }
{
    let Ok(lines) = lines_of(alloc, name, text, warnings) else {
        return Err(Stop::NoMemory);
    };
    if send(lines.as_bytes(), out).is_err() {
        return Err(Stop::Write);
    }
    Ok(())
}

// Returns the text of warnings: for each its place and its sentence, the line of the job text, and a caret under the place. Lines
// are counted on from one warning to the next.
fn lines_of(
    alloc: Global,
    name: &str,
    text: &[u8],
    warnings: &[Warning],
) -> Result<String, AllocError>
    ensures { IfOk result (λ lines. string_bytes lines ≡ warnings_text name.now text.now warnings.now) }
{
    let mut lines = String::new(alloc);
    let mut position = Position::of(text, 0);
    'warnings: for warning in warnings {
        position = position.moved_to(text, warning.at);
        push_warning(alloc, &mut lines, name, text, position, warning)?;
    }
    Ok(lines)
}

// Appends the text of a warning. Requires that the position is the warning's.
fn push_warning(
    alloc: Global,
    lines: &mut String,
    name: &str,
    text: &[u8],
    position: Position,
    warning: &Warning,
) -> Result<(), AllocError>
    requires position { IsPosition text.now position }
    requires place { position.at ≡ warning.now.at }
    ensures { OnOk result (string_bytes lines.new ≡ string_bytes lines.old ++ warning_text name.now text.now warning.now) }
{
    let said = sentence(alloc, warning)?;
    push_said(alloc, lines, name, text, position, said.as_slice())
}

// Appends the message with this sentence about a place, if the sentence is UTF-8. Each sentence is ASCII.
fn push_said(
    alloc: Global,
    lines: &mut String,
    name: &str,
    text: &[u8],
    position: Position,
    said: &[u8],
) -> Result<(), AllocError>
    requires { IsPosition text.now position }
    ensures { OnOk result (string_bytes lines.new ≡ string_bytes lines.old ++ said_at name.now text.now position.at said.now) }
{
    if let Ok(said) = str::from_utf8(said) {
        let message = message_at(alloc, name, text, position, said)?;
        lines.push_str(message.as_str())?;
    }
    Ok(())
}
