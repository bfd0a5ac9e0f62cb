ghost use Rattle.std.specs.Prelude.{◌≡◌, ◌≤◌, ◌++◌, ◌∷◌, [], Some, length, take, IfOk, OnOk};
ghost use Rattle.job_edits.specs.Faults.{variants_with, part_of, each_in_block, each_in_blocks, each_in, has_divided};
ghost use Rattle.job_edits.specs.Repeated.{is_divided};
ghost use Rattle.std.specs.List.{list_any};

use crate::fault::{BlockPart, Fault, Variant, faults_of};
use crate::repeated::{RepeatedBlock, repeated_blocks};
use crate::waiting::{Waiting, waiting_steps};
use crate::writing_out::is_in;
use job_tokens::Token;
use job_tree::Name;
use std::alloc::{AllocError, Global};

// A waiting step with the faults that are tried at it.
#[derive(Clone, Copy)]
struct FaultyStep<'f> {
    step: &'f Waiting,
    faults: &'f [Fault],
}

/// Returns the first faults in single copies and passes of the job text with these tokens, `most` of them at most: each fault of
/// each waiting step, as `variants` returns it, in each copy of each `start .. over` and in each pass of each `repeat` that the
/// step is in. They are in the order of the places of the steps, and for each step the outer blocks come first. `has_input` says
/// whether the input has any byte: then there are no faults in single copies of a block that `is_divided`. The only error is that
/// memory runs out.
pub fn each_variants(
    alloc: Global,
    has_input: bool,
    names: &[Name],
    tokens: &[Token],
    most: usize,
) -> Result<Vec<Variant>, AllocError>
    ensures { IfOk result (λ variants. variants.items ≡ take most (each_in has_input names.now tokens.now)) }
{
    let steps = waiting_steps(alloc, tokens)?;
    let blocks = repeated_blocks(alloc, tokens)?;
    let mut variants = Vec::new(alloc);
    'steps: for step in steps.as_slice() {
        let faults = faults_of(alloc, names, step.wait)?;
        let faulty = FaultyStep {
            step,
            faults: faults.as_slice(),
        };
        push_in_blocks(&mut variants, most, has_input, blocks.as_slice(), &faulty)?;
    }
    Ok(variants)
}

/// Returns whether there are single copies in which `each_variants` tries no fault, given the blocks of a job text that run
/// several times. `has_input` says whether the input has any byte.
pub fn has_divided(has_input: bool, blocks: &[RepeatedBlock]) -> bool
    ensures { result ≡ has_divided has_input blocks.now }
{
    has_input && any_divided(blocks)
}

// Returns whether the copies of one of these blocks depend on their parts of the input.
fn any_divided(blocks: &[RepeatedBlock]) -> bool
    ensures { result ≡ list_any is_divided blocks.now }
{
    'blocks: for block in blocks {
        if block.is_divided() {
            return true;
        }
    }
    false
}

// Appends these faults of a step in each copy or pass of each of these blocks, until there are `most`.
fn push_in_blocks(
    variants: &mut Vec<Variant>,
    most: usize,
    has_input: bool,
    blocks: &[RepeatedBlock],
    faulty: &FaultyStep<'_>,
) -> Result<(), AllocError>
    requires { length variants.old.items ≤ most }
    ensures { OnOk result (variants.new.items ≡ take most (variants.old.items ++ each_in_blocks has_input 0 blocks.now faulty.now.step.now faulty.now.faults.now)) }
{
    let mut number = 0;
    'blocks: for block in blocks {
        push_in_block(variants, most, has_input, number, block, faulty)?;
        number += 1;
    }
    Ok(())
}

// Appends these faults of a step in each copy or pass of the block with a number, if the step is in it, until there are `most`;
// but none in copies of a block that divides an input.
fn push_in_block(
    variants: &mut Vec<Variant>,
    most: usize,
    has_input: bool,
    number: usize,
    block: &RepeatedBlock,
    faulty: &FaultyStep<'_>,
) -> Result<(), AllocError>
    requires { length variants.old.items ≤ most }
    ensures { OnOk result (variants.new.items ≡ take most (variants.old.items ++ each_in_block has_input number block.now faulty.now.step.now faulty.now.faults.now)) }
{
    if !is_in(block, faulty.step.from) || (has_input && block.is_divided()) {
        return Ok(());
    }
    let count = block.number.value;
    let mut index = 0;
    'parts: while index < count && variants.len() < most {
        let part = part_of(number, block, index);
        push_in_part(variants, most, &part, faulty)?;
        index += 1;
    }
    Ok(())
}

// Returns a copy or pass of the block with a number.
fn part_of(number: usize, block: &RepeatedBlock, index: u64) -> BlockPart
    ensures { result ≡ part_of number block.now index }
{
    BlockPart {
        block: number,
        name: block.name,
        index,
        count: block.number.value,
    }
}

// Returns a copy of the copy or pass.
fn twin(part: &BlockPart) -> BlockPart
    ensures { result ≡ part.now }
{
    BlockPart {
        block: part.block,
        name: part.name,
        index: part.index,
        count: part.count,
    }
}

// Appends these faults of a step in one copy or pass, until there are `most`.
fn push_in_part(
    variants: &mut Vec<Variant>,
    most: usize,
    part: &BlockPart,
    faulty: &FaultyStep<'_>,
) -> Result<(), AllocError>
    requires { length variants.old.items ≤ most }
    ensures { OnOk result (variants.new.items ≡ take most (variants.old.items ++ variants_with (Some part.now) faulty.now.step.now faulty.now.faults.now)) }
{
    'faults: for fault in faulty.faults {
        push_until(variants, most, part, faulty.step, *fault)?;
    }
    Ok(())
}

// Appends a fault of a step in one copy or pass, unless there are `most` already.
fn push_until(
    variants: &mut Vec<Variant>,
    most: usize,
    part: &BlockPart,
    step: &Waiting,
    fault: Fault,
) -> Result<(), AllocError>
    requires { length variants.old.items ≤ most }
    ensures { OnOk result (variants.new.items ≡ take most (variants.old.items ++ record { step = step.now; fault = fault; part = Some part.now } ∷ [])) }
{
    if variants.len() < most {
        let wait = step.wait;
        variants.push(Variant {
            step: Waiting {
                from: step.from,
                to: step.to,
                wait,
            },
            fault,
            part: Some(twin(part)),
        })?;
    }
    Ok(())
}
