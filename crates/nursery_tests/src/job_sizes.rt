//! The sizes of jobs: of those that are read, and of a tree that is too large to be read.

use job_reader::{Body, Step, read_job, size_of};
use std::alloc::{AllocError, Global};
use std::test::Fail;

// Returns the size of the job of a text.
fn size_in(alloc: Global, text: &[u8]) -> Result<u64, Fail> {
    let job = read_job(alloc, text)?;
    Ok(job.size())
}

// Job texts of format 2, and the sizes of their jobs.
const SIZES: &[(&str, u64)] = &[
    (
        "trio-job 2\njob main { repeat 1000 { repeat 100 { } } }",
        102_001,
    ),
    (
        "trio-job 2\njob main { repeat 1000 { repeat 997 { } } }",
        999_001,
    ),
    (
        "trio-job 2\njob main { nursery n { start a over 64 { nursery m { start b over 64 { nursery q { start c over 64 { } } } } } } }",
        270_465,
    ),
];

#[test]
fn jobs_of_format_2_have_sizes_up_to_a_million(rt: HostRuntime) -> Result<(), Fail> {
    for i in 0..SIZES.len() {
        let (text, expected) = SIZES[i];
        if size_in(rt.alloc(), text.as_bytes())? != expected {
            Err(text)?;
        }
    }
    Ok(())
}

// Returns a block that repeats a block of these steps 1,000 times.
fn thousand_passes(alloc: Global, body: Body) -> Result<Body, AllocError> {
    let mut steps = Vec::with_capacity(alloc, 1)?;
    match steps.push(Step::Repeat {
        count: 1000,
        over: false,
        body,
    }) {
        Ok(()) => Ok(Body::new(steps)),
        Err(_full) => Err(AllocError),
    }
}

#[test]
fn a_thousand_times_a_thousand_passes_are_too_many(rt: HostRuntime) -> Result<(), Fail> {
    let passes = thousand_passes(rt.alloc(), Body::new(Vec::new(rt.alloc())))?;
    let steps = thousand_passes(rt.alloc(), passes)?;
    assert!(rt; size_of(steps.as_slice()) == 1_002_001);
    Ok(())
}
