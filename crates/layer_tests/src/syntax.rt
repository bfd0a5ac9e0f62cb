//! `job_syntax`: a job is followed to its end, and tokens leave the grammar where no job continues with them.

use crate::fixtures::wrong;
use job_syntax::{check_grammar, depth_fault, job_at, number_fault};
use job_tokens::lex;
use job_tree::Format;
use std::alloc::Global;
use std::test::Fail;

// Whether a text is a job, as far as its grammar, its numbers and its depth are concerned.
fn is_followed(alloc: Global, text: &[u8]) -> Result<bool, Fail> {
    let lexed = lex(alloc, Format::One, text, text.len())?;
    let tokens = lexed.tokens.as_slice();
    let checked = check_grammar(alloc, Format::One, tokens, text.len())?;
    Ok(
        checked.fault == None
            && checked.roles.len() == tokens.len()
            && number_fault(Format::One, tokens) == None
            && depth_fault(tokens) == None,
    )
}

// Whether the tokens of a text are a job.
fn is_job(alloc: Global, text: &[u8]) -> Result<bool, Fail> {
    let lexed = lex(alloc, Format::One, text, text.len())?;
    let job = job_at(alloc, lexed.tokens.as_slice())?;
    Ok(job.is_some())
}

#[test]
fn the_grammar_check_reaches_the_end_of_a_job(rt: HostRuntime) -> Result<(), Fail> {
    let text = b"job main { sleep 3; }";
    assert!(rt; is_followed(rt.alloc(), text)?);
    assert!(rt; is_job(rt.alloc(), text)?);
    Ok(())
}

// A text, and where its tokens leave the grammar.
const FAULTS: &[(&'static [u8], Option<usize>)] = &[
    (b"job main { sleep", Some(16)),
    (b"job main { start a { } }", Some(11)),
    (b"job main { } ;", Some(13)),
    (b"", Some(0)),
];

// Where the tokens of a text leave the grammar.
fn fault(alloc: Global, text: &[u8]) -> Result<Option<usize>, Fail> {
    let lexed = lex(alloc, Format::One, text, text.len())?;
    let checked = check_grammar(alloc, Format::One, lexed.tokens.as_slice(), text.len())?;
    Ok(checked.fault)
}

// Fails at the first row whose tokens leave the grammar elsewhere.
fn faults_are_found(alloc: Global) -> Result<(), Fail> {
    for i in 0..FAULTS.len() {
        let (text, expected) = FAULTS[i];
        if fault(alloc, text)? != expected {
            return Err(wrong(i));
        }
    }
    Ok(())
}

#[test]
fn tokens_leave_the_grammar(rt: HostRuntime) -> Result<(), Fail> {
    faults_are_found(rt.alloc())
}
