ghost use Rattle.std.specs.Prelude.{◌≡◌, ◌+◌, ◌≤◌, List, [], ◌∷◌, None, All, OnOk, IfOk};
ghost use Rattle.std.specs.Option.{option_map};
ghost use Rattle.exceptions.specs.Held.{exc_of};
ghost use Rattle.job_tree.specs.declared.limits.TheConstants.{MAX_PASSES};
ghost use Rattle.turn_semantics.specs.Midway.{Place};
ghost use Rattle.job_meaning.specs.Walk.{cuts_over};
ghost use Rattle.turn_semantics.specs.Steps.{onward, begins_passes, step_pass};
ghost use Rattle.task_machine.specs.Entered.{label_in};
ghost use Rattle.input_lines.specs.Part.{buffer_of, range_of};
ghost use Rattle.task_machine.specs.Fitting.{HasCut, AreOf, blocks_of, received_in};
ghost use Rattle.task_machine.specs.Tasks.{lent_of};
ghost use Rattle.task_machine.specs.Frames.{cuts_onto, frames_of, passes_onto};
ghost use Rattle.task_machine.specs.Stops.{Numbers};

use crate::frame::Frame;
use crate::task::Task;
use exceptions::{Exc, Label};
use input_lines::Part;
use job_tree::{Body, Name};
use std::alloc::AllocError;

impl<'a> Task<'a> {
    // A `repeat` begins: its first pass, if it has one.
    pub(crate) fn begin_passes(
        &mut self,
        count: u64,
        over: bool,
        body: &'a Body,
    ) -> Result<(), AllocError>
        ensures stays { OnOk result (self.new ≡ record self.old { frames = self.new.frames }) }
        ensures blocks { OnOk result (blocks_of self.new.frames.items ≡ blocks_of self.old.frames.items) }
        ensures received { OnOk result (received_in self.new.frames.items ≡ received_in self.old.frames.items) }
        ensures step { OnOk result ((numbers : Numbers) (ps : List Place) →
            begins_passes count over body.now (frames_of numbers self.old.frames.items) ps
            ≡ onward (frames_of numbers self.new.frames.items) ps None) }
    {
        if count == 0 {
            return Ok(());
        }
        self.push(Frame::Repeat {
            pass: 0,
            left: count - 1,
            cuts: cuts_over(over, count),
            body,
        })?;
        self.push(Frame::Steps(body.as_slice()))?;
        Ok(())
    }

    // A pass has ended with this exception or none: the next one begins, if there was no exception and there is one.
    // Returns the exception with which the task continues.
    pub(crate) fn next_pass(
        &mut self,
        pass: u64,
        left: u64,
        cuts: Option<u64>,
        body: &'a Body,
        exc: Option<Exc>,
    ) -> Result<Option<Exc>, AllocError>
        requires { pass + left ≤ MAX_PASSES }
        ensures stays { OnOk result (self.new ≡ record self.old { frames = self.new.frames }) }
        ensures blocks { OnOk result (blocks_of self.new.frames.items ≡ blocks_of self.old.frames.items) }
        ensures received { OnOk result (received_in self.new.frames.items ≡ received_in self.old.frames.items) }
        ensures step { IfOk result (λ after. (numbers : Numbers) (ps : List Place) →
            step_pass pass left cuts body.now (frames_of numbers self.old.frames.items) ps (option_map exc_of exc)
            ≡ onward (frames_of numbers self.new.frames.items) ps (option_map exc_of after)) }
    {
        if let Some(exc) = exc {
            return Ok(Some(exc));
        }
        if left == 0 {
            return Ok(None);
        }
        self.push(Frame::Repeat {
            pass: pass + 1,
            left: left - 1,
            cuts,
            body,
        })?;
        self.push(Frame::Steps(body.as_slice()))?;
        Ok(None)
    }

    // The label of that name for what is entered or started at this point of the task: its own indices, followed by the
    // numbers of the passes that it is in, outermost first.
    pub(crate) fn label_here(&self, name: Name) -> Result<Label, AllocError>
        ensures { IfOk result (λ label. label ≡ label_in self.now name) }
    {
        let label = self.label.with_name(self.alloc, name)?;
        label_inside(label, self.frames.as_slice())
    }

    // The part of the input at this point of the task: its own, the cut of the pass of each `repeat over` that it is in, or what was
    // received.
    pub(crate) fn part_here(&self) -> Part<'a>
        requires cuts { All HasCut self.now.frames.items }
        requires lent { AreOf (buffer_of self.now.part) (received_in self.now.frames.items) }
        ensures buffer { buffer_of result ≡ (lent_of self.now).input }
        ensures range { range_of result ≡ (lent_of self.now).range }
    {
        part_inside(self.part, self.frames.as_slice())
    }
}

// Into how many cuts the part is divided for this many passes, if it is.
fn cuts_over(over: bool, count: u64) -> Option<u64>
    ensures { result ≡ cuts_over over count }
{
    if over { Some(count) } else { None }
}

// The part inside frames, outermost first.
fn part_inside<'a>(part: Part<'a>, frames: &[Frame<'a>]) -> Part<'a>
    requires cuts { All HasCut frames.now }
    requires lent { AreOf (buffer_of part) (received_in frames.now) }
    ensures buffer { buffer_of result ≡ buffer_of part.entry }
    ensures range { range_of result ≡ cuts_onto (buffer_of part.entry) frames.now (range_of part.entry) }
{
    let mut inner = part;
    'frames: for frame in frames {
        inner = part_in_frame(inner, frame);
    }
    inner
}

// The cut for the pass, if the frame is that of a `repeat over`, or what was received.
fn part_in_frame<'a>(part: Part<'a>, frame: &Frame<'a>) -> Part<'a>
    requires cut { HasCut frame.now }
    requires lent { AreOf (buffer_of part) (received_in (frame.now ∷ [])) }
    ensures buffer { buffer_of result ≡ buffer_of part.entry }
    ensures range { range_of result ≡ cuts_onto (buffer_of part.entry) (frame.now ∷ []) (range_of part.entry) }
{
    match frame {
        Frame::Repeat {
            pass,
            cuts: Some(cuts),
            ..
        } => part.cut(*cuts as usize, *pass as usize),
        Frame::Received { part } => *part,
        _ => part,
    }
}

// The label with the numbers of the passes among frames, outermost first.
fn label_inside(label: Label, frames: &[Frame]) -> Result<Label, AllocError>
    ensures { IfOk result (λ inner. inner ≡ record { name = label.name; indices = passes_onto frames.now label.indices }) }
{
    let mut inner = label;
    'frames: for frame in frames {
        inner = label_in_frame(inner, frame)?;
    }
    Ok(inner)
}

// The label with the number of the pass, if the frame is that of a `repeat`.
fn label_in_frame(label: Label, frame: &Frame) -> Result<Label, AllocError>
    ensures { IfOk result (λ inner. inner ≡ record { name = label.name; indices = passes_onto (frame.now ∷ []) label.indices }) }
{
    let Frame::Repeat { pass, .. } = frame else {
        return Ok(label);
    };
    let inner = label.with_index(*pass)?;
    Ok(inner)
}
