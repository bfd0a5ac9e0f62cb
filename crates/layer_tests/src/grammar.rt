//! `job_reader`: which texts are jobs, with which fault and at which place others are refused, and the canonical texts
//! of jobs.

use crate::fixtures::{job, push_bytes, push_digit, wrong};
use job_reader::{Format, Job, JobFault, JobKind, read_job, write_job};
use std::alloc::{AllocError, Global};
use std::test::Fail;

// A text, and the number and the place of its refusal: two zeros for a job.
type Row = (&'static [u8], u64, usize);

// A text, and its canonical text.
type Pair = (&'static [u8], &'static [u8]);

// The number of a refusal and its place. It is an error if memory runs out.
fn number_and_place(fault: JobFault) -> Result<(u64, usize), JobFault> {
    match fault.kind {
        JobKind::NoMemory => Err(fault),
        kind => Ok((kind.number(), fault.at)),
    }
}

// The number and the place of a text's refusal, and two zeros for a job. It is an error if memory runs out.
fn answer(alloc: Global, text: &[u8]) -> Result<(u64, usize), JobFault> {
    match read_job(alloc, text) {
        Ok(_) => Ok((0, 0)),
        Err(fault) => number_and_place(fault),
    }
}

// Whether a text has that result.
fn is_answered(alloc: Global, text: &[u8], number: u64, at: usize) -> Result<bool, Fail> {
    let (kind, place) = answer(alloc, text)?;
    Ok(kind == number && place == at)
}

// Fails at the first row whose text has another result.
fn are_answered(alloc: Global, rows: &[Row]) -> Result<(), Fail> {
    for i in 0..rows.len() {
        let (text, number, at) = rows[i];
        if !is_answered(alloc, text, number, at)? {
            return Err(wrong(i));
        }
    }
    Ok(())
}

// Refusals of texts up to their grammar.
const REFUSALS: &[Row] = &[
    (b"", 3, 0),
    (b"trio-job 4\njob main { }", 3, 0),
    (b"trio-job 1\njob main \xff", 2, 20),
    (b"trio-job 1\njob main { find \"a }", 4, 27),
    (b"trio-job 1\njob main { find \"\"; }", 4, 27),
    (b"trio-job 1\njob main { find \"\\x4G\"; }", 4, 27),
    (b"trio-job 1\njob main { sleep 5a; }", 4, 28),
    (
        b"trio-job 1\njob aaaaaaaaaaaaaaaaaaaaaaaaaaaaaaaaa { }",
        4,
        15,
    ),
    (
        b"trio-job 1\njob main { nursery n { start p over 65 { } } }",
        5,
        47,
    ),
    (
        b"trio-job 1\njob main { nursery n { start p over 064 { } } }",
        5,
        47,
    ),
    (b"trio-job 1\njob main { pace 0; }", 5, 27),
    (b"trio-job 1\njob main { sleep 1000000001; }", 5, 28),
    (b"trio-job 1\njob main { start a { } }", 6, 22),
    (b"trio-job 1\njob main { repeat 2 { } }", 6, 22),
    (b"trio-job 1\njob main { sleep", 6, 27),
    (b"trio-job 1\njob main { } }", 6, 24),
];

#[test]
fn refused_texts_have_their_kind_and_place(rt: HostRuntime) -> Result<(), Fail> {
    are_answered(rt.alloc(), REFUSALS)
}

// Refusals of names.
const NAMES: &[Row] = &[
    (b"trio-job 1\njob main { scope s { } scope s { } }", 8, 40),
    (
        b"trio-job 1\njob main { nursery n { start main { } } }",
        8,
        40,
    ),
    (b"trio-job 1\njob main { raise job; scope main { } }", 8, 39),
    (b"trio-job 1\njob main { cancel x; }", 9, 29),
    (b"trio-job 1\njob main { cancel main; }", 9, 29),
    (b"trio-job 1\njob main { scope s { } cancel s; }", 9, 41),
    (b"trio-job 1\njob main { raise Cancelled; }", 10, 28),
    (b"trio-job 1\njob main { raise TooSlow; }", 10, 28),
    (b"trio-job 1\njob over { raise raise; }", 10, 15),
    (
        b"trio-job 1\njob main { try { } except Cancelled { } }",
        10,
        37,
    ),
];

#[test]
fn refused_names_have_their_kind_and_place(rt: HostRuntime) -> Result<(), Fail> {
    are_answered(rt.alloc(), NAMES)
}

// A job of 270,465 step instances.
const LARGE: &[Row] = &[(
    b"trio-job 1\njob main { nursery n { start a over 64 { nursery m { start b over 64 { nursery q { start c over 64 { } } } } } } }",
    11,
    0,
)];

#[test]
fn a_job_with_too_many_steps_is_refused(rt: HostRuntime) -> Result<(), Fail> {
    are_answered(rt.alloc(), LARGE)
}

// Texts that are jobs.
const JOBS: &[Row] = &[
    (
        b"trio-job 1\njob main{sleep 5;find\"\\x00\\\\\";raise A;}",
        0,
        0,
    ),
    (b"trio-job 1\njob main { scope a { raise a; } }", 0, 0),
    (b"trio-job 1\njob main { try { } except TooSlow { } }", 0, 0),
    (
        b"trio-job 1\njob main { scope s { nursery n { start a { cancel s; cancel n; } } } }",
        0,
        0,
    ),
];

#[test]
fn texts_at_the_limits_of_the_rules_are_read(rt: HostRuntime) -> Result<(), Fail> {
    are_answered(rt.alloc(), JOBS)
}

// Appends these bytes the given number of times.
fn push_times(text: &mut Vec<u8>, count: usize, bytes: &[u8]) -> Result<(), AllocError> {
    for _ in 0..count {
        push_bytes(text, bytes)?;
    }
    Ok(())
}

// A job of the given number of nested blocks, each with these bytes before and after it.
fn nested_blocks(
    alloc: Global,
    depth: usize,
    front: &[u8],
    after: &[u8],
) -> Result<Vec<u8>, AllocError> {
    let mut text = Vec::new(alloc);
    push_bytes(&mut text, b"trio-job 1\njob main {")?;
    push_times(&mut text, depth, front)?;
    push_times(&mut text, depth, after)?;
    push_bytes(&mut text, b" }")?;
    Ok(text)
}

// The number of nested blocks inside the job's own, and the result.
const DEPTHS: &[(usize, u64, usize)] = &[(31, 0, 0), (32, 7, 212), (3_000, 7, 212)];

// Fails at the first of those depths with another result.
fn depths_are_answered(alloc: Global) -> Result<(), Fail> {
    for i in 0..DEPTHS.len() {
        let (depth, number, at) = DEPTHS[i];
        let text = nested_blocks(alloc, depth, b" try {", b" } finally { }")?;
        if !is_answered(alloc, text.as_slice(), number, at)? {
            return Err(wrong(i));
        }
    }
    Ok(())
}

// Appends the front of a scope with that number as its name.
fn push_scope(text: &mut Vec<u8>, number: u64) -> Result<(), AllocError> {
    push_bytes(text, b" scope s")?;
    push_digit(text, number / 10)?;
    push_digit(text, number % 10)?;
    push_bytes(text, b" {")
}

// A job of 32 nested scopes.
fn nested_scopes(alloc: Global) -> Result<Vec<u8>, AllocError> {
    let mut text = Vec::new(alloc);
    push_bytes(&mut text, b"trio-job 1\njob main {")?;
    for i in 1..33u64 {
        push_scope(&mut text, i)?;
    }
    push_times(&mut text, 33, b" }")?;
    Ok(text)
}

#[test]
fn blocks_nested_more_than_32_deep_are_refused(rt: HostRuntime) -> Result<(), Fail> {
    depths_are_answered(rt.alloc())?;
    let scopes = nested_scopes(rt.alloc())?;
    assert!(rt; is_answered(rt.alloc(), scopes.as_slice(), 7, 404)?);
    Ok(())
}

// The number of spaces of a text, and its result.
const LENGTHS: &[(usize, u64, usize)] = &[(65_537, 1, 65_536), (65_536, 3, 0)];

// Whether a text of the given number of spaces has that result.
fn spaces_are_answered(alloc: Global, count: usize, number: u64, at: usize) -> Result<bool, Fail> {
    let mut text = Vec::new(alloc);
    push_times(&mut text, count, b" ")?;
    is_answered(alloc, text.as_slice(), number, at)
}

// Fails at the first of those lengths with another result.
fn lengths_are_answered(alloc: Global) -> Result<(), Fail> {
    for i in 0..LENGTHS.len() {
        let (count, number, at) = LENGTHS[i];
        if !spaces_are_answered(alloc, count, number, at)? {
            return Err(wrong(i));
        }
    }
    Ok(())
}

#[test]
fn a_text_of_more_than_65536_bytes_is_refused(rt: HostRuntime) -> Result<(), Fail> {
    lengths_are_answered(rt.alloc())
}

// The result for the first bytes, as many as given, of the text below.
fn answer_for_prefix(len: usize) -> (u64, usize) {
    match len {
        0..11 => (3, 0),
        11..14 => (6, 11),
        14..21 => (6, len),
        21..24 => (6, 20),
        24 => (6, 24),
        25..28 => (4, 24),
        28..30 => (6, len),
        _ => (0, 0),
    }
}

// Fails at the first length of a front of the text that has another result.
fn prefixes_are_answered(alloc: Global) -> Result<(), Fail> {
    let whole = b"trio-job 1\njob main{find\"er\";}".as_slice();
    for len in 0..31 {
        let (number, at) = answer_for_prefix(len);
        if !is_answered(alloc, &whole[..len], number, at)? {
            return Err(wrong(len));
        }
    }
    Ok(())
}

#[test]
fn each_prefix_of_a_job_text_is_refused(rt: HostRuntime) -> Result<(), Fail> {
    prefixes_are_answered(rt.alloc())
}

// The job, as it is or in format 2.
fn upgrade_if(job: Job, upgrades: bool) -> Job {
    if upgrades {
        job.in_format(Format::Two)
    } else {
        job
    }
}

// The canonical text of a job, as it is or in format 2.
fn canonical_text(alloc: Global, text: &[u8], upgrades: bool) -> Result<Vec<u8>, Fail> {
    let job = upgrade_if(job(alloc, text)?, upgrades);
    Ok(write_job(alloc, &job)?)
}

// Whether a text has that canonical text, as it is or in format 2.
fn is_canonical(alloc: Global, text: &[u8], wanted: &[u8], upgrades: bool) -> Result<bool, Fail> {
    let written = canonical_text(alloc, text, upgrades)?;
    Ok(written.as_slice() == wanted)
}

// Fails at the first row whose text has another canonical text.
fn are_canonical(alloc: Global, rows: &[Pair], upgrades: bool) -> Result<(), Fail> {
    for i in 0..rows.len() {
        let (text, wanted) = rows[i];
        if !is_canonical(alloc, text, wanted, upgrades)? {
            return Err(wrong(i));
        }
    }
    Ok(())
}

// The format of a job, how many steps its block has, and its size.
fn numbers(alloc: Global, text: &[u8]) -> Result<(u64, usize, u64), Fail> {
    let job = job(alloc, text)?;
    Ok((job.format(), job.steps().len(), job.size()))
}

// The format of a job that was upgraded to format 2.
fn format_of_upgraded(alloc: Global, text: &[u8]) -> Result<u64, Fail> {
    Ok(job(alloc, text)?.in_format(Format::Two).format())
}

// Whether a job has that name.
fn is_named(alloc: Global, text: &[u8], name: &[u8]) -> Result<bool, Fail> {
    let found = job(alloc, text)?.name();
    Ok(found.bytes() == name)
}

// Texts with their canonical texts.
const CANONICAL: &[Pair] = &[
    (
        b"trio-job 1\njob main { find \"er\"; }",
        b"trio-job 1\njob main{find\"er\";}",
    ),
    (
        b"trio-job 1\n\tjob  m{sleep 0 ;raise B_2; find \"\\\"\\\\\\x41\\x0a\";}\r\n",
        b"trio-job 1\njob m{sleep 0;raise B_2;find\"\\\"\\\\A\\x0a\";}",
    ),
    (
        b"trio-job 1\njob m { scope s after 5 shield fail { checkpoint; } scope t at 7 { cancel t; head 2; longest; } }",
        b"trio-job 1\njob m{scope s after 5 shield fail{checkpoint;}scope t at 7{cancel t;head 2;longest;}}",
    ),
    (
        b"trio-job 1\njob m { nursery n { start p over 3 { pace 2; } start q { need \"x\" Gone; } } }",
        b"trio-job 1\njob m{nursery n{start p over 3{pace 2;}start q{need\"x\"Gone;}}}",
    ),
    (
        b"trio-job 1\njob m { try { raise A; } except A { forever; } finally { } try { } finally { } }",
        b"trio-job 1\njob m{try{raise A;}except A{forever;}finally{}try{}finally{}}",
    ),
    (
        b"trio-job 3\njob m { event e { nursery n { repeat 2 { start a { wait e; } } set e; } } }",
        b"trio-job 3\njob m{event e{nursery n{repeat 2{start a{wait e;}}set e;}}}",
    ),
    (
        b"trio-job 3\njob m { limiter l 2 { channel q 0 { acquire l { send q; } receive q { close q; } } } }",
        b"trio-job 3\njob m{limiter l 2{channel q 0{acquire l{send q;}receive q{close q;}}}}",
    ),
];

#[test]
fn jobs_are_written_as_their_canonical_texts(rt: HostRuntime) -> Result<(), Fail> {
    are_canonical(rt.alloc(), CANONICAL, false)
}

#[test]
fn a_job_has_its_name_format_and_size(rt: HostRuntime) -> Result<(), Fail> {
    let text =
        b"trio-job 1\njob main { sleep 1; nursery n { start p over 3 { sleep 1; } } }".as_slice();
    assert!(rt; is_named(rt.alloc(), text, b"main")?);
    assert!(rt; numbers(rt.alloc(), text)? == (1, 2, 8));
    Ok(())
}

#[test]
fn a_refusal_is_printed_as_one_line(rt: HostRuntime) -> Result<(), Fail> {
    let fault = JobFault {
        at: 27,
        kind: JobKind::Syntax,
    };
    let line = fault.to_string(rt.alloc())?;
    assert_eq!(rt; line.as_str(), "refused J6 Syntax at 27");
    Ok(())
}

// Texts with different results in the two formats.
const FORMATS: &[Row] = &[
    (b"trio-job 1\njob main { repeat 1001 { } }", 6, 22),
    (b"trio-job 2\njob main { repeat 1001 { } }", 5, 29),
    (b"trio-job 2\njob main { repeat 1000 { } }", 0, 0),
    (b"trio-job 1\njob main { nursery n after 3 { } }", 6, 32),
    (b"trio-job 2\njob main { nursery n after 3 { } }", 0, 0),
    (
        b"trio-job 2\njob main { nursery n after 3 shield { } }",
        0,
        0,
    ),
    (b"trio-job 2\njob main { nursery n at 3 { } }", 6, 32),
    (b"trio-job 2\njob main { repeat 2 { start a { } } }", 6, 33),
    (
        b"trio-job 2\njob main { repeat 1000 { repeat 1000 { } } }",
        11,
        0,
    ),
    (b"trio-job 2", 3, 0),
];

#[test]
fn each_format_has_its_own_rules(rt: HostRuntime) -> Result<(), Fail> {
    are_answered(rt.alloc(), FORMATS)
}

// Texts with events, and with names that format 3 uses as keywords.
const EVENTS: &[Row] = &[
    (b"trio-job 3\njob main { event e { set e; wait e; } }", 0, 0),
    (
        b"trio-job 3\njob main { event e { nursery n { start a { wait e; } set e; } } }",
        0,
        0,
    ),
    (b"trio-job 2\njob main { event e { } }", 6, 22),
    (b"trio-job 1\njob main { set e; }", 6, 22),
    (b"trio-job 2\njob event { scope set { raise wait; } }", 0, 0),
    (b"trio-job 3\njob event { scope set { raise wait; } }", 0, 0),
    (
        b"trio-job 3\njob main { event event { set event; wait event; } }",
        0,
        0,
    ),
    (b"trio-job 3\njob main { event e e { } }", 6, 30),
    (b"trio-job 3\njob main { set e }", 6, 28),
    (b"trio-job 3\njob main { event forever { } }", 10, 28),
    (b"trio-job 3\njob main { scope e { } event e { } }", 8, 40),
    (b"trio-job 3\njob main { set e; }", 9, 26),
    (b"trio-job 3\njob main { event e { } wait e; }", 9, 39),
    (b"trio-job 3\njob main { event e { cancel e; } }", 9, 39),
    (b"trio-job 3\njob main { scope s { wait s; } }", 9, 37),
];

#[test]
fn events_are_read_in_format_3(rt: HostRuntime) -> Result<(), Fail> {
    are_answered(rt.alloc(), EVENTS)
}

// Texts with limiters and channels, and with names that are keywords of theirs.
const OBJECTS: &[Row] = &[
    (
        b"trio-job 3\njob main { limiter l 1 { acquire l { sleep 1; } } }",
        0,
        0,
    ),
    (
        b"trio-job 3\njob main { channel q 0 { nursery n { start a { send q; } receive q { } close q; } } }",
        0,
        0,
    ),
    (b"trio-job 2\njob main { limiter l 1 { } }", 6, 22),
    (b"trio-job 2\njob main { channel q 1 { } }", 6, 22),
    (b"trio-job 2\njob main { acquire l { } }", 6, 22),
    (b"trio-job 1\njob main { send q; }", 6, 22),
    (b"trio-job 1\njob main { receive q { } }", 6, 22),
    (b"trio-job 1\njob main { close q; }", 6, 22),
    (
        b"trio-job 2\njob limiter { scope channel after 0 { raise send; } }",
        0,
        0,
    ),
    (
        b"trio-job 3\njob limiter { scope channel after 0 { raise send; } }",
        0,
        0,
    ),
    (
        b"trio-job 3\njob main { nursery limiter after 0 { start channel over 1 { } } }",
        0,
        0,
    ),
    (
        b"trio-job 3\njob main { limiter limiter 1 { acquire limiter { } } }",
        0,
        0,
    ),
    (
        b"trio-job 3\njob main { channel close 0 { send close; close close; } }",
        0,
        0,
    ),
    (b"trio-job 3\njob main { limiter l { } }", 6, 32),
    (b"trio-job 3\njob main { limiter 1 { } }", 6, 30),
    (b"trio-job 3\njob main { acquire l; }", 6, 31),
    (b"trio-job 3\njob main { send q { } }", 6, 29),
    (b"trio-job 3\njob main { receive q 1 { } }", 6, 32),
    (b"trio-job 3\njob main { close; }", 6, 27),
    (
        b"trio-job 3\njob main { nursery n { limiter l 1 { start a { } } } }",
        6,
        48,
    ),
    (
        b"trio-job 3\njob main { nursery n { acquire l { start a { } } } }",
        6,
        46,
    ),
    (b"trio-job 3\njob main { limiter forever 1 { } }", 10, 30),
    (
        b"trio-job 3\njob main { scope q { } channel q 1 { } }",
        8,
        42,
    ),
];

#[test]
fn limiters_and_channels_are_read_in_format_3(rt: HostRuntime) -> Result<(), Fail> {
    are_answered(rt.alloc(), OBJECTS)
}

// The numbers of tokens and places. That of a keyword before the number is another one, also after a scope named `limiter`.
const COUNTS: &[Row] = &[
    (b"trio-job 3\njob main { limiter l 0 { } }", 5, 32),
    (b"trio-job 3\njob main { limiter l 1000000 { } }", 0, 0),
    (b"trio-job 3\njob main { limiter l 1000001 { } }", 5, 32),
    (b"trio-job 3\njob main { channel q 0 { } }", 0, 0),
    (b"trio-job 3\njob main { channel q 1000000 { } }", 0, 0),
    (b"trio-job 3\njob main { channel q 1000001 { } }", 5, 32),
    (b"trio-job 3\njob main { limiter event 0 { } }", 5, 36),
    (b"trio-job 3\njob main { limiter limiter 0 { } }", 5, 38),
    (b"trio-job 3\njob main { limiter sleep 0 { } }", 10, 30),
    (b"trio-job 3\njob main { limiter l 01 { } }", 5, 32),
    (b"trio-job 3\njob main { scope limiter x 0 { } }", 5, 38),
    (b"trio-job 3\njob main { scope limiter after 0 { } }", 0, 0),
    (
        b"trio-job 3\njob main { scope limiter at 1000001 { } }",
        0,
        0,
    ),
    (b"trio-job 2\njob main { limiter l 0 { } }", 6, 22),
    (b"trio-job 2\njob main { channel q 2000000000 { } }", 5, 32),
];

#[test]
fn limiters_have_tokens_and_channels_places(rt: HostRuntime) -> Result<(), Fail> {
    are_answered(rt.alloc(), COUNTS)
}

// Uses of names that are those of other kinds, or of blocks that do not enclose them.
const STRAY: &[Row] = &[
    (b"trio-job 3\njob main { acquire l { } }", 9, 30),
    (b"trio-job 3\njob main { send q; }", 9, 27),
    (
        b"trio-job 3\njob main { channel q 1 { acquire q { } } }",
        9,
        44,
    ),
    (b"trio-job 3\njob main { limiter l 1 { send l; } }", 9, 41),
    (
        b"trio-job 3\njob main { limiter l 1 { receive l { } } }",
        9,
        44,
    ),
    (b"trio-job 3\njob main { limiter l 1 { close l; } }", 9, 42),
    (b"trio-job 3\njob main { limiter l 1 { set l; } }", 9, 40),
    (b"trio-job 3\njob main { channel q 1 { cancel q; } }", 9, 43),
    (b"trio-job 3\njob main { event e { receive e { } } }", 9, 40),
    (b"trio-job 3\njob main { channel q 1 { } close q; }", 9, 44),
    (
        b"trio-job 3\njob main { channel q 0 { receive q { send q; close r; } } }",
        9,
        62,
    ),
];

#[test]
fn limiters_and_channels_are_used_inside_their_blocks(rt: HostRuntime) -> Result<(), Fail> {
    are_answered(rt.alloc(), STRAY)
}

// Texts with a loop over the cuts of the task's part.
const CUTS: &[Row] = &[
    (
        b"trio-job 3\njob main { repeat over 1 { } repeat over 64 { sleep 1; } }",
        0,
        0,
    ),
    (
        b"trio-job 3\njob main { nursery n { repeat over 2 { nursery m { start a { } } } } }",
        0,
        0,
    ),
    (
        b"trio-job 3\njob main { nursery n { repeat over 2 { start a { } } } }",
        6,
        50,
    ),
    (
        b"trio-job 3\njob main { nursery n { repeat over 2 { repeat 2 { start a { } } } } }",
        6,
        61,
    ),
    (b"trio-job 3\njob main { repeat over 0 { } }", 5, 34),
    (b"trio-job 3\njob main { repeat over 65 { } }", 5, 34),
    (b"trio-job 3\njob main { repeat over { } }", 6, 34),
    (b"trio-job 3\njob main { repeat over 2 3 { } }", 6, 36),
    (b"trio-job 3\njob main { repeat shield { } }", 6, 29),
    (b"trio-job 2\njob main { repeat over 2 { } }", 6, 29),
    (b"trio-job 1\njob main { repeat over 2 { } }", 6, 22),
    // A loop over 64 cuts of 64 cuts, .. : each pass counts its block, and one for itself.
    (
        b"trio-job 3\njob main { repeat over 64 { repeat over 64 { repeat over 64 { sleep 1; sleep 1; } } } }",
        0,
        0,
    ),
    (
        b"trio-job 3\njob main { repeat over 64 { repeat over 64 { repeat over 64 { sleep 1; sleep 1; sleep 1; } } } }",
        11,
        0,
    ),
];

#[test]
fn loops_over_cuts_are_read_in_format_3(rt: HostRuntime) -> Result<(), Fail> {
    are_answered(rt.alloc(), CUTS)
}

// Texts with a `start` in a loop.
const LOOPS: &[Row] = &[
    (
        b"trio-job 3\njob main { nursery n { repeat 2 { start a { } } } }",
        0,
        0,
    ),
    (
        b"trio-job 3\njob main { nursery n { repeat 2 { repeat 3 { start a { } } sleep 1; } } }",
        0,
        0,
    ),
    (
        b"trio-job 2\njob main { nursery n { repeat 2 { start a { } } } }",
        6,
        45,
    ),
    (b"trio-job 3\njob main { repeat 2 { start a { } } }", 6, 33),
    (
        b"trio-job 3\njob main { nursery n { repeat 2 { scope s { start a { } } } } }",
        6,
        55,
    ),
    (
        b"trio-job 3\njob main { nursery n { event e { start a { } } } }",
        6,
        44,
    ),
    (
        b"trio-job 3\njob main { nursery n { start a { repeat 2 { start b { } } } } }",
        6,
        55,
    ),
    (
        b"trio-job 3\njob main { nursery n { try { repeat 2 { start a { } } } finally { } } }",
        6,
        51,
    ),
];

#[test]
fn a_loop_in_a_nursery_starts_tasks_in_format_3(rt: HostRuntime) -> Result<(), Fail> {
    are_answered(rt.alloc(), LOOPS)
}

#[test]
fn steps_of_limiters_and_channels_count_once(rt: HostRuntime) -> Result<(), Fail> {
    let text =
        b"trio-job 3\njob m { limiter l 2 { channel q 0 { acquire l { send q; } receive q { close q; } } } }".as_slice();
    assert!(rt; numbers(rt.alloc(), text)? == (3, 1, 6));
    Ok(())
}

// A job of format 2.
const PASSES: &[u8] = b"trio-job 2\njob main { repeat 1000 { repeat 100 { } } }";

#[test]
fn passes_are_counted_and_written_in_format_2(rt: HostRuntime) -> Result<(), Fail> {
    assert!(rt; numbers(rt.alloc(), PASSES)? == (2, 1, 102_001));
    let shortest = b"trio-job 2\njob main{repeat 1000{repeat 100{}}}";
    assert!(rt; is_canonical(rt.alloc(), PASSES, shortest, false)?);
    Ok(())
}

// A job of format 1.
const PLAIN: &[u8] = b"trio-job 1\njob main { find \"er\"; }";

// Texts with their canonical texts in format 2. The job of the second row is in format 2, and is unchanged.
const UPGRADES: &[Pair] = &[
    (PLAIN, b"trio-job 2\njob main{find\"er\";}"),
    (
        b"trio-job 2\njob main { find \"er\"; }",
        b"trio-job 2\njob main{find\"er\";}",
    ),
];

#[test]
fn upgraded_jobs_are_written_in_format_2(rt: HostRuntime) -> Result<(), Fail> {
    assert!(rt; numbers(rt.alloc(), PLAIN)?.0 == 1);
    assert!(rt; format_of_upgraded(rt.alloc(), PLAIN)? == 2);
    are_canonical(rt.alloc(), UPGRADES, true)
}
