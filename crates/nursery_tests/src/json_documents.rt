//! The JSON documents of `faults`, `sweep`, `races` and `lint`, of small jobs. The expected documents are worked out by hand.

ghost use Rattle.std.specs.Prelude.{◌≡◌, []};

use crate::fixtures::{LIMIT, wrong};
use commands::{Form, faults, lints_json, races, sweep};
use job_edits::Target;
use job_report::Question;
use job_runner::{NoGate, Settings};
use job_tree::Name;
use outcomes::{Deny, Options};
use std::process::Abort;
use std::test::Fail;
use std::thread::Threads;

const NO_DENY: Deny = Deny {
    stuck: false,
    cut: false,
    lost: false,
};

const FAULTS: &[u8] =
    b"{\"as_it_is\":{\"result\":{\"cancelled\":[],\"cut\":[],\"end\":0,\"exception\":null,\"lost\":false,\"outcome\":\"done\"}},\"counts\":{\"cut\":0,\"faults\":3,\"lost\":0,\"not_reached\":0,\"not_tried\":0,\"stuck\":1},\"divided\":false,\"lines\":[{\"column\":7,\"exception\":\"Late\",\"fault\":\"fails\",\"line\":2,\"part\":null,\"reached\":true,\"result\":{\"cancelled\":[],\"cut\":[],\"end\":0,\"exception\":{\"raised\":\"Late\",\"task\":\"m\",\"tick\":0},\"lost\":false,\"outcome\":\"raised\"},\"step\":\"checkpoint\"},{\"column\":7,\"exception\":null,\"fault\":\"hangs\",\"line\":2,\"part\":null,\"reached\":true,\"result\":{\"cut\":[],\"limit\":100,\"lost\":false,\"outcome\":\"stuck\",\"sleeping\":[\"m\"]},\"step\":\"checkpoint\"},{\"column\":7,\"exception\":null,\"fault\":\"cancelled\",\"line\":2,\"part\":null,\"reached\":true,\"result\":{\"cancelled\":[],\"cut\":[],\"end\":0,\"exception\":null,\"lost\":false,\"outcome\":\"done\"},\"step\":\"checkpoint\"}],\"more\":false}\n";

#[test]
fn faults_are_a_document(rt: HostRuntime) -> Result<(), Fail> {
    let settings = Settings::new(3, LIMIT).ok_or("settings")?;
    let mut names = Vec::new(rt.alloc());
    names.push(Name::new(b"Late").ok_or("name")?)?;
    let options = Options {
        names,
        each: false,
        brief: false,
        deny: NO_DENY,
    };
    let question = Question {
        text: b"trio-job 1\njob m{checkpoint;}",
        input: b"",
        settings,
    };
    let answer = faults(&rt, rt.alloc(), &question, &options, Form::Json, &NoGate)?;
    assert!(rt; answer.verdict.status() == 0);
    assert!(rt; answer.bytes.as_slice() == FAULTS);
    Ok(())
}

const SWEEP: &[u8] =
    b"{\"as_it_is\":{\"result\":{\"cancelled\":[],\"cut\":[],\"end\":3,\"exception\":null,\"lost\":false,\"outcome\":\"done\"}},\"counts\":{\"cut\":0,\"refused\":0,\"stuck\":0,\"values\":2},\"lines\":[{\"result\":{\"cancelled\":[],\"cut\":[],\"end\":1,\"exception\":null,\"lost\":false,\"outcome\":\"done\"},\"value\":1},{\"result\":{\"cancelled\":[],\"cut\":[],\"end\":2,\"exception\":null,\"lost\":false,\"outcome\":\"done\"},\"value\":2}]}\n";

// Returns the question about a job that sleeps for three ticks.
fn sleeping(settings: Settings) -> Question<'static>
    ensures { result.input.now ≡ [] }
{
    Question {
        text: b"trio-job 1\njob m{sleep 3;}",
        input: b"",
        settings,
    }
}

const VALUES: &[u64] = &[1, 2];

// Returns the number of the job's sleep.
fn ticks_of_the_sleep() -> Target {
    Target::At {
        line: 2,
        column: 13,
    }
}

#[test]
fn a_sweep_is_a_document(rt: HostRuntime) -> Result<(), Fail> {
    let question = sleeping(Settings::new(1, LIMIT).ok_or("settings")?);
    let target = ticks_of_the_sleep();
    let answer = sweep(
        &rt,
        rt.alloc(),
        &question,
        target,
        VALUES,
        Form::Json,
        &NoGate,
    )?;
    assert!(rt; answer.verdict.status() == 0);
    assert!(rt; answer.bytes.as_slice() == SWEEP);
    Ok(())
}

const RACES: &[u8] = b"{\"counts\":{\"hairs\":2,\"not_tried\":0,\"races\":0},\"lines\":[]}\n";

#[test]
fn races_are_a_document(rt: HostRuntime) -> Result<(), Fail> {
    let question = sleeping(Settings::new(1, LIMIT).ok_or("settings")?);
    let answer = races(&rt, rt.alloc(), &question, true, Form::Json, &NoGate)?;
    assert!(rt; answer.verdict.status() == 0);
    assert!(rt; answer.bytes.as_slice() == RACES);
    Ok(())
}

const LINTS: &[u8] =
    b"{\"counts\":{\"warnings\":1},\"lines\":[{\"at\":25,\"column\":15,\"kind\":\"unreachable\",\"line\":2,\"name\":null,\"sentence\":\"this step never runs: the step before it never ends well\"}]}\n";

// A job text, the status, and the document of its warnings.
const LINTED: &[(&[u8], u8, &[u8])] = &[
    (b"trio-job 1\njob m{forever;sleep 1;}", 1, LINTS),
    (
        b"trio-job 1\njob m{sleep 1;}",
        0,
        b"{\"counts\":{\"warnings\":0},\"lines\":[]}\n",
    ),
    (
        b"trio-job 1\njob m{sleep}",
        2,
        b"{\"at\":22,\"column\":12,\"line\":2,\"name\":\"Syntax\",\"refused\":\"J6\"}\n",
    ),
];

#[test]
fn warnings_are_a_document(rt: HostRuntime) -> Result<(), Fail> {
    for i in 0..LINTED.len() {
        let (text, status, wanted) = LINTED[i];
        let answer = lints_json(rt.alloc(), text)?;
        if answer.verdict.status() != status || answer.bytes.as_slice() != wanted {
            return Err(wrong(i));
        }
    }
    Ok(())
}
