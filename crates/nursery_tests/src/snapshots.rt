//! What `nursery test` compares: the outputs of a feed, texts that differ, and expectations. The expected values are worked out
//! by hand.

ghost use Rattle.std.specs.Prelude.{◌≡◌, []};

use crate::fixtures::{LIMIT, wrong};
use commands::{Form, Met, Output, given_names, meets, output_of, sweep_of};
use expect_text::{
    ExpectLine, Expectation, LineFault, first_difference, first_match, is_without_demands,
    read_expectation,
};
use job_edits::Target;
use job_reader::Name;
use job_report::Question;
use job_runner::Settings;
use std::alloc::{AllocError, Global};
use std::process::Abort;
use std::test::Fail;
use std::thread::Threads;

// Two texts, and the number of the first line that differs: 0 if none does.
const TEXTS: &[(&[u8], &[u8], usize)] = &[
    (b"", b"", 0),
    (b"a\nb\n", b"a\nb\n", 0),
    (b"a\nb\n", b"a\nc\n", 2),
    (b"a\nb\n", b"a\nb", 3),
    (b"a\n", b"a\nb\n", 2),
    (b"", b"a", 1),
];

// Returns the number of the first line that differs, and 0 if none does.
fn line_of_difference(kept: &[u8], now: &[u8]) -> usize {
    match first_difference(kept, now) {
        Some(difference) => difference.line,
        None => 0,
    }
}

#[test]
fn texts_differ_at_their_first_other_line() -> Result<(), Fail> {
    for i in 0..TEXTS.len() {
        let (kept, now, wanted) = TEXTS[i];
        if line_of_difference(kept, now) != wanted {
            return Err(wrong(i));
        }
    }
    Ok(())
}

// A pattern, a text, and the number of its first line that matches: 0 if none does.
const PATTERNS: &[(&[u8], &[u8], usize)] = &[
    (b"task m * done", b"job m 3\ntask m 0 3 done\n", 2),
    (b"*", b"a\n", 1),
    (b"*", b"", 0),
    (b"m ends: done", b"tick 3\n  m      ends: done\n", 2),
    (b"ends: done", b"  m  ends: done\n", 0),
    (b"*ends*", b"  m  ends: done", 1),
    (b"a*b*c", b"abbbc\n", 1),
    (b"a*b*c", b"acbb\n", 0),
];

#[test]
fn a_pattern_matches_a_whole_line(rt: HostRuntime) -> Result<(), Fail> {
    for i in 0..PATTERNS.len() {
        let (pattern, text, wanted) = PATTERNS[i];
        let found = first_match(rt.alloc(), pattern, text)?;
        if found.unwrap_or(0) != wanted {
            return Err(wrong(i));
        }
    }
    Ok(())
}

// Returns the kind of a line of a file of expectations, for a job that gives these names.
fn word_of(alloc: Global, names: &[Name], line: &[u8]) -> Result<&'static str, AllocError> {
    match read_expectation(alloc, names, line)? {
        ExpectLine::Nothing => Ok("nothing"),
        ExpectLine::Faulty(LineFault::UnknownWord) => Ok("unknown"),
        ExpectLine::Faulty(LineFault::WrongDemand) => Ok("wrong"),
        ExpectLine::Faulty(LineFault::NegatedDemand) => Ok("negated"),
        ExpectLine::Faulty(LineFault::NoSuchLine) => Ok("no line"),
        ExpectLine::Expects(Expectation::Present(_)) => Ok("present"),
        ExpectLine::Expects(Expectation::Absent(_)) => Ok("absent"),
        ExpectLine::Expects(Expectation::NoRaces) => Ok("races"),
        ExpectLine::Expects(Expectation::NoFaults(_)) => Ok("faults"),
    }
}

// A job with a task, a scope, a nursery and an event beside its own name.
const NAMED: &[u8] =
    b"trio-job 3\njob m { event e { scope s { nursery n { start a over 2 { set e; } } } } }";

const LINES: &[(&[u8], &str)] = &[
    (b"", "nothing"),
    (b"  # a comment", "nothing"),
    (b"task m * done", "present"),
    (b" ! * raised *", "absent"),
    (b"races:none", "races"),
    (b"races: some", "wrong"),
    (b"faults: no stuck , no lost", "faults"),
    (b"faults: none", "wrong"),
    // Another word and a colon.
    (b"race: none", "unknown"),
    (b" sweep: 1..9", "unknown"),
    (b"ends: done", "unknown"),
    // Only a pattern is negated.
    (b"! races: none", "negated"),
    (b"!  faults: no stuck", "negated"),
    (b"! race: none", "negated"),
    // Lines of the report, of each kind, and with an index.
    (b"job m 3", "present"),
    (b"task a.1 0 0 done", "present"),
    (b"  line 0+5 error", "present"),
    (b"scope s * caught", "present"),
    (b"! nursery n * caught", "absent"),
    (b"wait e 3", "present"),
    (b"refused J6 *", "present"),
    (b"limit 3", "present"),
    (b"! task b *", "no line"),
    (b"! scope n.o * caught", "absent"),
    (b"! scope t * caught", "no line"),
    (b"task", "no line"),
    // Lines of the story.
    (b"tick 3", "present"),
    (b"a.0   sets event e", "present"),
    (b"m  starts", "present"),
    (b"m ends: *", "present"),
    (b"! m is*", "absent"),
    (b"m sleeping forever since 0", "present"),
    (b"! m raised *", "no line"),
    (b"! b ends: *", "no line"),
    (b"! raised *", "no line"),
    (b"! r*", "absent"),
    (b"! x*", "no line"),
    (b"!raised *", "no line"),
    (b"! ", "no line"),
];

#[test]
fn a_line_is_read_as_an_expectation(rt: HostRuntime) -> Result<(), Fail> {
    let names = given_names(rt.alloc(), NAMED)?;
    for i in 0..LINES.len() {
        let (line, wanted) = LINES[i];
        if word_of(rt.alloc(), names.as_slice(), line)? != wanted {
            return Err(wrong(i));
        }
    }
    Ok(())
}

// A job text, and how many names it gives.
const NAMES: &[(&[u8], usize)] = &[
    (NAMED, 5),
    (b"trio-job 3\n# scope no {\njob m { find \"scope x\"; }", 1),
    (b"trio-job 2\njob event { repeat 2 { raise X; } }", 1),
    (b"trio-job 3\njob m { scope }", 0),
];

#[test]
fn a_text_gives_names(rt: HostRuntime) -> Result<(), Fail> {
    for i in 0..NAMES.len() {
        let (text, wanted) = NAMES[i];
        if given_names(rt.alloc(), text)?.len() != wanted {
            return Err(wrong(i));
        }
    }
    Ok(())
}

// A file of expectations, and whether it demands nothing.
const FILES: &[(&[u8], bool)] = &[
    (b"", true),
    (b"\n \t\r\n", true),
    (b"# races: none\n  # later", true),
    (b"# later\nraces: none\n", false),
    (b"\n*", false),
    (b"race: none", false),
];

#[test]
fn a_file_of_comments_demands_nothing() -> Result<(), Fail> {
    for i in 0..FILES.len() {
        let (file, wanted) = FILES[i];
        if is_without_demands(file) != wanted {
            return Err(wrong(i));
        }
    }
    Ok(())
}

const JOB: &[u8] = b"trio-job 1\njob m{sleep 3;}";

// What is written for the job without an input, with the limit 100.
const OUTPUTS: &[(Output, &[u8])] = &[
    (Output::Report, b"job m 3\ntask m 0 3 done\n"),
    (
        Output::Story,
        b"tick 0\n  m  starts\n  m  sleeps until 3\ntick 3\n  m  ends: done\n",
    ),
    (
        Output::Faults,
        b"              as it is    3 done\n2:7  sleep 3  fails       0 raised Fault(m@0)\n2:7  sleep 3  fails late  3 raised Fault(m@3)\n2:7  sleep 3  hangs       stuck at 100; sleeping forever: m\n2:7  sleep 3  cancelled   1 done\n4 faults: 1 stuck, 0 cut a cleanup, 0 lost, 0 not reached\n",
    ),
    (Output::Races, b"2 hairs: no race\n"),
];

// Returns the question about the job over an empty input.
fn question_of(settings: Settings) -> Question<'static>
    ensures { result.input.now ≡ [] }
{
    Question {
        text: JOB,
        input: b"",
        settings,
    }
}

#[test]
fn an_output_is_what_the_command_writes(rt: HostRuntime) -> Result<(), Fail> {
    let settings = Settings::new(3, LIMIT).ok_or("settings")?;
    for i in 0..OUTPUTS.len() {
        let (kind, wanted) = OUTPUTS[i];
        let question = question_of(settings);
        let bytes = output_of(&rt, rt.alloc(), &question, kind)?;
        if bytes.as_slice() != wanted {
            return Err(wrong(i));
        }
    }
    Ok(())
}

// The values 2 and 3 of the number of ticks, and the tables that are written for the job with the limit 100.
const SWEPT: &[u8] =
    b"as it is  done, ends 3\n2..3      done, ends 2..3\n2 values: 0 stuck, 0 cut a cleanup\n";

#[test]
fn a_sweep_is_what_the_command_writes(rt: HostRuntime) -> Result<(), Fail> {
    let settings = Settings::new(3, LIMIT).ok_or("settings")?;
    let number = Target::At {
        line: 2,
        column: 13,
    };
    let question = question_of(settings);
    let swept = sweep_of(&rt, rt.alloc(), &question, number, &[2, 3], Form::Text)?;
    let bytes = swept.ok_or("no number")?;
    assert_eq!(rt; bytes.as_slice(), SWEPT);
    Ok(())
}

#[test]
fn a_sweep_needs_its_number(rt: HostRuntime) -> Result<(), Fail> {
    let settings = Settings::new(1, LIMIT).ok_or("settings")?;
    let number = Target::At { line: 2, column: 1 };
    let question = question_of(settings);
    let swept = sweep_of(&rt, rt.alloc(), &question, number, &[2], Form::Text)?;
    assert!(rt; swept.is_none());
    Ok(())
}

#[test]
fn a_chart_has_a_row_for_the_task(rt: HostRuntime) -> Result<(), Fail> {
    let settings = Settings::new(1, LIMIT).ok_or("settings")?;
    let question = question_of(settings);
    let bytes = output_of(&rt, rt.alloc(), &question, Output::Chart)?;
    let found = first_match(rt.alloc(), b"m |*| done", bytes.as_slice())?;
    assert!(rt; found.is_some());
    Ok(())
}

// Returns whether an expectation of the job is met, in a word.
fn met_word<R: Abort + Threads + Sync + AllocGlobal>(
    rt: &R,
    line: &[u8],
) -> Result<&'static str, Fail> {
    let settings = Settings::new(2, LIMIT).ok_or("settings")?;
    let names = given_names(rt.alloc(), JOB)?;
    let ExpectLine::Expects(expectation) = read_expectation(rt.alloc(), names.as_slice(), line)?
    else {
        return Ok("no expectation");
    };
    let report = b"job m 3\ntask m 0 3 done\n";
    let story = b"tick 0\n  m  starts\n";
    let question = question_of(settings);
    let met = meets(rt, rt.alloc(), &question, expectation, report, story)?;
    match met {
        Met::Yes => Ok("yes"),
        Met::Missing => Ok("missing"),
        Met::Found {
            story: true,
            line: 2,
        } => Ok("story 2"),
        Met::Found { .. } => Ok("found"),
        Met::Denied(_) => Ok("denied"),
        Met::Untold => Ok("untold"),
    }
}

const MET: &[(&[u8], &str)] = &[
    (b"task m * done", "yes"),
    (b"m starts", "yes"),
    (b"task m * raised *", "missing"),
    (b"! *raised*", "yes"),
    (b"! m starts", "story 2"),
    (b"! *", "found"),
    (b"races: none", "yes"),
    (b"faults: no cut, no lost", "yes"),
    (b"faults: no stuck", "denied"),
];

#[test]
fn an_expectation_is_met_or_not(rt: HostRuntime) -> Result<(), Fail> {
    for i in 0..MET.len() {
        let (line, wanted) = MET[i];
        let word = met_word(&rt, line)?;
        if word != wanted {
            Err((wanted, word))?;
        }
    }
    Ok(())
}
