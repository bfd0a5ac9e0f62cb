//! The formatted texts of jobs: what `format_text` returns, and where `check_format` finds that a text differs.

use crate::fixtures::{call_again, same, same_answer};
use commands::{
    FormatCheck, FormatFault, FormatVerdict, ScaleFault, check_format, format, format_text,
    scaled_text,
};
use job_answers::ServeFault;
use job_reader::JobKind;
use job_report::{MemOut, Out, send_answer};
use std::alloc::{AllocError, Global};
use std::process::Abort;
use std::test::Fail;

// A job text and its formatted text. In the second to last, a block in one line ends at column 80, and in the last it would end
// at 81.
const TEXTS: &[(&str, &str)] = &[
    ("trio-job 1\njob a{}", "trio-job 1\njob a {}\n"),
    (
        "trio-job 1\n\r\n\tjob a { sleep 3 ; } ",
        "trio-job 1\njob a { sleep 3; }\n",
    ),
    (
        "trio-job 2\njob a { sleep 3; checkpoint; }",
        "trio-job 2\njob a {\n  sleep 3;\n  checkpoint;\n}\n",
    ),
    (
        "trio-job 2\njob a { nursery n after 2 shield { start b over 3 { pace 2; } start c { scope s at 5 fail { } } } }",
        "trio-job 2\njob a {\n  nursery n after 2 shield {\n    start b over 3 { pace 2; }\n    start c {\n      scope s at 5 fail {}\n    }\n  }\n}\n",
    ),
    (
        "trio-job 2\njob a { repeat 3 { try { need \"a\\x00\\\"\\x7e\" B; } except B { raise C; } finally { longest; head 2; } } }",
        "trio-job 2\njob a {\n  repeat 3 {\n    try { need \"a\\x00\\\"~\" B; } except B { raise C; } finally {\n      longest;\n      head 2;\n    }\n  }\n}\n",
    ),
    (
        "trio-job 3\njob a{repeat over 3{head 1;}repeat 2{repeat over 64{find\"x\";longest;}}}",
        "trio-job 3\njob a {\n  repeat over 3 { head 1; }\n  repeat 2 {\n    repeat over 64 {\n      find \"x\";\n      longest;\n    }\n  }\n}\n",
    ),
    // comments: before the job, after tokens, on lines of their own, inside a step, in a short block, after the job
    (
        "trio-job 3\n\t# top\njob a { # open\n\n # own\n sleep # in\n 3; # after\n scope s { sleep 1; } # s\n scope t { sleep 2; # c\n }\n # last\n} # end\n# fin",
        "trio-job 3\n# top\njob a { # open\n  # own\n  sleep # in\n    3; # after\n  scope s { sleep 1; } # s\n  scope t {\n    sleep 2; # c\n  }\n  # last\n} # end\n# fin\n",
    ),
    (
        "trio-job 3\njob a{try{find\"#\";}#1\n#2\nexcept X{}}",
        "trio-job 3\njob a {\n  try { find \"#\"; } #1\n    #2\n    except X {}\n}\n",
    ),
    (
        "trio-job 1\njob a { scope s { find \"0123456789012345678901234567890123456789012345678901234567\"; } }",
        "trio-job 1\njob a {\n  scope s { find \"0123456789012345678901234567890123456789012345678901234567\"; }\n}\n",
    ),
    (
        "trio-job 1\njob a { scope s { find \"01234567890123456789012345678901234567890123456789012345678\"; } }",
        "trio-job 1\njob a {\n  scope s {\n    find \"01234567890123456789012345678901234567890123456789012345678\";\n  }\n}\n",
    ),
];

// Returns the formatted text of a job text.
fn formatted_text(alloc: Global, text: &[u8]) -> Result<Vec<u8>, Fail> {
    match format_text(alloc, text) {
        Ok(bytes) => Ok(bytes),
        Err(FormatFault::NoMemory) => match format_text(alloc, text) {
            Ok(bytes) => Ok(bytes),
            Err(_) => Err("no formatted text".into()),
        },
        Err(_) => Err("no formatted text".into()),
    }
}

// Checks the formatted text of a job text.
fn assert_formatted(alloc: Global, text: &str, expected: &str) -> Result<(), Fail> {
    let bytes = formatted_text(alloc, text.as_bytes())?;
    same(text, bytes.as_slice(), expected.as_bytes())
}

#[test]
fn each_step_has_its_line_and_short_blocks_one(rt: HostRuntime) -> Result<(), Fail> {
    for i in 0..TEXTS.len() {
        let (text, expected) = TEXTS[i];
        assert_formatted(rt.alloc(), text, expected)?;
        assert_formatted(rt.alloc(), expected, expected)?;
    }
    Ok(())
}

// Returns the result for a job text. If memory runs out it is computed again.
fn format_check(alloc: Global, text: &[u8]) -> Result<FormatCheck, Fail> {
    match check_format(alloc, text) {
        Ok(check) => Ok(check),
        Err(_) => Ok(check_format(alloc, text)?),
    }
}

// A job text, and where it differs from its formatted text.
const PLACES: &[(&str, FormatCheck)] = &[
    ("trio-job 1\njob a {}\n", FormatCheck::Same),
    ("trio-job 1\njob a {}", FormatCheck::Differs(19)),
    ("trio-job 1\njob a {}\n\n", FormatCheck::Differs(20)),
    ("trio-job 1\njob a { }\n", FormatCheck::Differs(18)),
    (
        "trio-job 2\njob a { sleep 1; sleep 2; }\n",
        FormatCheck::Differs(18),
    ),
];

#[test]
fn a_difference_has_its_place(rt: HostRuntime) -> Result<(), Fail> {
    for i in 0..PLACES.len() {
        let (text, expected) = PLACES[i];
        if format_check(rt.alloc(), text.as_bytes())? != expected {
            Err(text)?;
        }
    }
    let found = format_check(rt.alloc(), b"trio-job 1\njob a { slep 1; }")?;
    assert!(rt;
        matches!(found, FormatCheck::JobRefused(fault) if fault.at == 19 && fault.kind == JobKind::Syntax)
    );
    Ok(())
}

// Returns a job text of 31 nested scopes, and the given number of steps in the innermost.
fn nested_job(alloc: Global, steps: usize) -> Result<Vec<u8>, Fail> {
    let mut text = Vec::from_slice(alloc, b"trio-job 1\njob a{")?;
    for depth in 0..31u8 {
        text.extend_from_slice(b"scope s")?;
        text.extend_from_slice(&[b'0' + depth / 10, b'0' + depth % 10, b'{'])?;
    }
    for _step in 0..steps {
        text.extend_from_slice(b"checkpoint;")?;
    }
    for _depth in 0..32u8 {
        text.extend_from_slice(b"}")?;
    }
    Ok(text)
}

// Returns the length of the formatted text of such a job.
fn formatted_length(alloc: Global, steps: usize) -> Result<usize, Fail> {
    let text = nested_job(alloc, steps)?;
    let bytes = formatted_text(alloc, text.as_slice())?;
    Ok(bytes.len())
}

// The formatted text has 2,439 bytes without the innermost steps, and 76 for each of these.
#[test]
fn a_text_is_formatted_up_to_the_greatest_length(rt: HostRuntime) -> Result<(), Fail> {
    assert!(rt; formatted_length(rt.alloc(), 800)? == 2_439 + 800 * 76);
    let long = nested_job(rt.alloc(), 900)?;
    let found = format_check(rt.alloc(), long.as_slice())?;
    assert!(rt; found == FormatCheck::TooLong(2_439 + 900 * 76));
    Ok(())
}

// Calls `format` with a writer that has not failed.
fn format_into<R: Abort + AllocGlobal>(
    rt: &R,
    text: &[u8],
    out: &mut MemOut,
) -> Result<FormatVerdict, ServeFault> {
    assert!(rt; out.failures() == 0);
    let answer = format(rt.alloc(), text)?;
    let verdict = send_answer(answer, out)?;
    Ok(verdict)
}

// Calls `format`, again if memory runs out.
fn format_again<R: Abort + AllocGlobal>(
    rt: &R,
    text: &[u8],
    out: &mut MemOut,
) -> Result<FormatVerdict, ServeFault> {
    call_again!(rt, out, format_into(rt, text, out))
}

// Returns the status for a job text, and what is written.
fn format_answer<R: Abort + AllocGlobal>(rt: &R, text: &[u8]) -> Result<(u8, MemOut), Fail> {
    let mut out = MemOut::new(rt.alloc(), 1_000_000, 7, None)?;
    let verdict = format_again(rt, text, &mut out)?;
    Ok((verdict.status(), out))
}

// A job text, the status, and what is written.
const ANSWERS: &[(&str, u8, &str)] = &[
    ("trio-job 1\njob a{}", 0, "trio-job 1\njob a {}\n"),
    ("trio-job 1\njob a{", 2, "refused J6 Syntax at 17\n"),
];

#[test]
fn the_formatted_text_or_the_refusal_is_written(rt: HostRuntime) -> Result<(), Fail> {
    for i in 0..ANSWERS.len() {
        let (text, status, expected) = ANSWERS[i];
        let answer = format_answer(&rt, text.as_bytes())?;
        same_answer(text, &answer, status, expected.as_bytes())?;
    }
    Ok(())
}

// A job text, a factor, and the text with its ticks multiplied.
const SCALED: &[(&str, u64, &str)] = &[
    (
        "trio-job 3\n# in s\njob a{ sleep 3 ; }",
        1000,
        "trio-job 3\n# in s\njob a{ sleep 3000 ; }",
    ),
    (
        "trio-job 2\njob a { repeat 3 { head 4; pace 7; } }",
        10,
        "trio-job 2\njob a { repeat 3 { head 4; repeat 10 { pace 7; } } }",
    ),
    (
        "trio-job 1\njob a { scope s at 4 { nursery n { start b over 2 { sleep 0; } } } }",
        2,
        "trio-job 2\njob a { scope s at 8 { nursery n { start b over 2 { sleep 0; } } } }",
    ),
];

// Returns the kind of a refusal, and the text with its ticks multiplied, which is empty if the text itself is refused.
fn refusal_of(alloc: Global, fault: ScaleFault) -> (JobKind, Vec<u8>) {
    match fault {
        ScaleFault::Refused(fault) => (fault.kind, Vec::new(alloc)),
        ScaleFault::TooLarge { fault, text } => (fault.kind, text),
    }
}

// Returns the text with its ticks multiplied, and the kind of its refusal, or `None` if it is not refused. The only error is that
// memory runs out.
fn scaled_or_refused(
    alloc: Global,
    text: &str,
    factor: u64,
) -> Result<(Option<JobKind>, Vec<u8>), AllocError> {
    match scaled_text(alloc, text.as_bytes(), factor) {
        Ok(scaled) => Ok((None, scaled)),
        Err(fault) => {
            let (kind, bytes) = refusal_of(alloc, fault);
            if kind == JobKind::NoMemory {
                return Err(AllocError);
            }
            Ok((Some(kind), bytes))
        }
    }
}

#[test]
fn ticks_are_multiplied(rt: HostRuntime) -> Result<(), Fail> {
    for i in 0..SCALED.len() {
        let (text, factor, wanted) = SCALED[i];
        let (kind, scaled) = scaled_or_refused(rt.alloc(), text, factor)?;
        assert!(rt; kind.is_none());
        same(text, scaled.as_slice(), wanted.as_bytes())?;
    }
    Ok(())
}

// Fails if the ticks of a text can be multiplied by a factor, or cannot for another reason than this. A refused text has no
// scaled text.
fn is_not_scaled(
    alloc: Global,
    text: &str,
    factor: u64,
    scaled: &str,
    kind: JobKind,
) -> Result<(), Fail> {
    let (found, bytes) = scaled_or_refused(alloc, text, factor)?;
    if found != Some(kind) {
        return Err(text)?;
    }
    same(text, bytes.as_slice(), scaled.as_bytes())
}

#[test]
fn ticks_that_are_too_large_are_refused(rt: HostRuntime) -> Result<(), Fail> {
    let alloc = rt.alloc();
    let (slow, slower) = (
        "trio-job 3\njob a { sleep 2; }",
        "trio-job 3\njob a { sleep 2000000000; }",
    );
    is_not_scaled(alloc, slow, 1_000_000_000, slower, JobKind::Number)?;
    let (many, more) = (
        "trio-job 3\njob a { pace 2; }",
        "trio-job 3\njob a { repeat 1001 { pace 2; } }",
    );
    is_not_scaled(alloc, many, 1001, more, JobKind::Number)?;
    is_not_scaled(alloc, "trio-job 3\njob a { sleep }", 2, "", JobKind::Syntax)
}
