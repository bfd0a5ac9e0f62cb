//! Job texts that are refused: the line of the refusal, what `check` and `upgrade` write, and how `refusal_message` shows the
//! place.

use crate::fixtures::{
    Asked, assert_answers, request_again, same, same_answer, text_answer, wrong,
};
use crate::refusal_texts::{EXPECTED, HELPED, Row, WRONG};
use job_answers::CheckVerdict;
use job_reader::{Format, JobFault, JobKind, read_job};
use job_report::MemOut;
use refusal_text::{Position, message_at, refusal_message};
use std::alloc::{AllocError, Global};
use std::process::Abort;
use std::test::Fail;

// A job text, and the line of its refusal.
const LINES: &[(&str, &[u8])] = &[
    ("trio-job 1\njob main { sleep", b"refused J6 Syntax at 27\n"),
    (
        "trio-job 1\njob main { raise Cancelled; }",
        b"refused J10 Reserved at 28\n",
    ),
    (
        "trio-job 1\njob main { find \"a }",
        b"refused J4 Token at 27\n",
    ),
    (
        "trio-job 1\njob main { nursery n { start p over 65 { } } }",
        b"refused J5 Number at 47\n",
    ),
    (
        "trio-job 1\njob main { scope s { } scope s { } }",
        b"refused J8 Twice at 40\n",
    ),
    (
        "trio-job 1\njob main { cancel x; }",
        b"refused J9 NotEnclosing at 29\n",
    ),
    (
        "trio-job 1\njob main { nursery n { start a over 64 { nursery m { start b over 64 { nursery q { start c over 64 { } } } } } } }",
        b"refused J11 TooLarge at 0\n",
    ),
    (
        "trio-job 1\njob main { repeat 2 { } }",
        b"refused J6 Syntax at 22\n",
    ),
    (
        "trio-job 2\njob main { repeat 1001 { } }",
        b"refused J5 Number at 29\n",
    ),
    (
        "trio-job 2\njob main { repeat 1000 { repeat 1000 { } } }",
        b"refused J11 TooLarge at 0\n",
    ),
    ("trio-job 4\njob main { }", b"refused J3 Version at 0\n"),
    (
        "trio-job 2\njob main { # no\n}",
        b"refused J4 Token at 22\n",
    ),
    (
        "trio-job 3\njob main { # \x07\n}",
        b"refused J2 NotAscii at 24\n",
    ),
    (
        "trio-job 3\njob main { # a comment\n sleep #}\n ; }",
        b"refused J6 Syntax at 45\n",
    ),
    ("", b"refused J3 Version at 0\n"),
];

#[test]
fn a_refusal_is_reported_in_one_line(rt: HostRuntime) -> Result<(), Fail> {
    for i in 0..LINES.len() {
        let (text, line) = LINES[i];
        assert_answers(&rt, text, b"", 2, line)?;
    }
    Ok(())
}

// A job in format 1 as `check` writes it, and the same job in format 2 as `upgrade` does.
const CANONICAL: &[u8] = b"trio-job 1\njob main{find\"er\";}\n";

const UPGRADED: &[u8] = b"trio-job 2\njob main{find\"er\";}\n";

// A job text, the status of the verdict of `check` and `upgrade`, and what each of them writes.
const CHECKS: &[(&str, u8, &[u8], &[u8])] = &[
    (
        "trio-job 1\njob main {\n  find \"er\" ;\n}\n",
        0,
        CANONICAL,
        UPGRADED,
    ),
    ("trio-job 2\njob main{find\"er\";}\n", 0, UPGRADED, UPGRADED),
    (
        "trio-job 1\njob main { sleep",
        2,
        b"refused J6 Syntax at 27\n",
        b"refused J6 Syntax at 27\n",
    ),
];

// Checks what is written for a requested job text, and the status of the verdict.
fn assert_text(
    rt: &(impl Abort + AllocGlobal),
    asked: Asked,
    text: &str,
    status: u8,
    expected: &[u8],
) -> Result<(), Fail> {
    let answer = text_answer(rt, asked, text.as_bytes())?;
    same_answer(text, &answer, status, expected)
}

#[test]
fn check_writes_the_canonical_text(rt: HostRuntime) -> Result<(), Fail> {
    for i in 0..CHECKS.len() {
        let (text, status, checked, _upgraded) = CHECKS[i];
        assert_text(&rt, Asked::Checked, text, status, checked)?;
    }
    Ok(())
}

#[test]
fn upgrade_writes_the_job_in_format_2(rt: HostRuntime) -> Result<(), Fail> {
    for i in 0..CHECKS.len() {
        let (text, status, _checked, upgraded) = CHECKS[i];
        assert_text(&rt, Asked::Upgraded(Format::Two), text, status, upgraded)?;
    }
    Ok(())
}

// A job text of each format.
const OF_EACH_FORMAT: &[&str] = &[
    "trio-job 1\njob main { }",
    "trio-job 2\njob main { }",
    "trio-job 3\njob main { }",
];

// The job of these texts in format 3.
const IN_FORMAT_3: &[u8] = b"trio-job 3\njob main{}\n";

#[test]
fn upgrade_writes_the_job_in_the_newer_format(rt: HostRuntime) -> Result<(), Fail> {
    let newest = Asked::Upgraded(Format::Three);
    for i in 0..OF_EACH_FORMAT.len() {
        assert_text(&rt, newest, OF_EACH_FORMAT[i], 0, IN_FORMAT_3)?;
    }
    let older = Asked::Upgraded(Format::Two);
    assert_text(&rt, older, "trio-job 3\njob main { }", 0, IN_FORMAT_3)
}

#[test]
fn check_reports_the_fault_of_a_refused_text(rt: HostRuntime) -> Result<(), Fail> {
    let mut out = MemOut::new(rt.alloc(), 100, 100, None)?;
    let CheckVerdict::JobRefused(fault) = request_again(
        &rt,
        Asked::Checked,
        b"trio-job 1\njob main { sleep",
        &mut out,
    )?
    else {
        return Err("a refusal")?;
    };
    assert!(rt; fault.at == 27);
    assert!(rt; matches!(fault.kind, JobKind::Syntax));
    Ok(())
}

// Returns a text in which blocks are nested thousands deep.
fn deep_text(alloc: Global) -> Result<Vec<u8>, AllocError> {
    let mut text = Vec::from_slice(alloc, b"trio-job 1\njob main{")?;
    for _ in 0..16_378u64 {
        text.extend_from_slice(b"try{")?;
    }
    Ok(text)
}

#[test]
fn a_text_that_nests_thousands_deep_is_refused(rt: HostRuntime) -> Result<(), Fail> {
    let text = deep_text(rt.alloc())?;
    let mut out = MemOut::new(rt.alloc(), 100, 100, None)?;
    let verdict = request_again(&rt, Asked::Checked, text.as_slice(), &mut out)?;
    assert!(rt; matches!(verdict, CheckVerdict::JobRefused(_)));
    Ok(())
}

// Returns what `refusal_message` returns for a refused text. It is an error if memory runs out.
fn message_of(alloc: Global, text: &[u8]) -> Result<String, Fail> {
    let fault = read_job(alloc, text).err().ok_or("a refusal")?;
    if matches!(fault.kind, JobKind::NoMemory) {
        Err(fault)?;
    }
    Ok(refusal_message(alloc, "f", text, fault)?)
}

// Checks how refused texts are explained, where the file is named `f`.
fn assert_messages(alloc: Global, rows: &[Row]) -> Result<(), Fail> {
    for i in 0..rows.len() {
        let (text, expected) = rows[i];
        let printed = message_of(alloc, text.as_bytes())?;
        same(text, printed.as_bytes(), expected.as_bytes())?;
    }
    Ok(())
}

#[test]
fn a_syntax_fault_says_what_was_expected(rt: HostRuntime) -> Result<(), Fail> {
    assert_messages(rt.alloc(), EXPECTED)
}

#[test]
fn other_refusals_say_what_is_wrong(rt: HostRuntime) -> Result<(), Fail> {
    assert_messages(rt.alloc(), WRONG)
}

// Fails if a message ends otherwise than expected, and prints what it explains and itself.
fn same_end(name: &str, message: &str, last: &str) -> Result<(), Fail> {
    if message.ends_with(last) {
        return Ok(());
    }
    Err((name, message))?
}

#[test]
fn a_refusal_ends_with_a_hint(rt: HostRuntime) -> Result<(), Fail> {
    for i in 0..HELPED.len() {
        let (text, last) = HELPED[i];
        let printed = message_of(rt.alloc(), text.as_bytes())?;
        same_end(text, printed.as_str(), last)?;
    }
    Ok(())
}

// A line of 300 bytes, shown around its place 200.
const CUT: &str =
    "f:1:201: blocks are nested more than 32 deep\nxxxxxxxxxxxxxxxxxxxxxxxxxxxxxxxxxxxxxxxxxxxxxxxxxxxxxxxxxxxxxxxxxxxxxxxxxxxxxxxxxxxxxxxxxxxxxxxxxxxx\n                                                            ^\n";

#[test]
fn a_long_line_is_cut_around_the_place(rt: HostRuntime) -> Result<(), Fail> {
    let text = [b'x'; 300];
    let fault = JobFault {
        at: 200,
        kind: JobKind::Depth,
    };
    let shown = refusal_message(rt.alloc(), "f", &text, fault)?;
    same("the long line", shown.as_bytes(), CUT.as_bytes())
}

// Two places in a text of four lines, and the first line of the message about the second, counted on from the first.
const HEADINGS: &[(usize, usize, &str)] = &[
    (0, 1, "f:1:2: said\n"),
    (1, 2, "f:1:3: said\n"),
    (2, 3, "f:2:1: said\n"),
    (3, 6, "f:3:3: said\n"),
    (6, 6, "f:3:3: said\n"),
    (6, 9, "f:4:2: said\n"),
    (9, 4, "f:3:1: said\n"),
    (4, 99, "f:4:2: said\n"),
    (99, 0, "f:1:1: said\n"),
];

// Returns the message about the second place in that text, counted on from the first.
fn message_from(alloc: Global, first: usize, at: usize) -> Result<String, AllocError> {
    let text = b"ab\n\ncde\nf";
    let position = Position::of(text, first).moved_to(text, at);
    message_at(alloc, "f", text, position, "said")
}

#[test]
fn a_place_is_counted_on_from_another(rt: HostRuntime) -> Result<(), Fail> {
    for i in 0..HEADINGS.len() {
        let (first, at, heading) = HEADINGS[i];
        let message = message_from(rt.alloc(), first, at)?;
        if !message.as_str().starts_with(heading) {
            return Err(wrong(i));
        }
    }
    Ok(())
}
