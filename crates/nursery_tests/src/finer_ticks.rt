//! `job_edits`: how much finer ticks are, and the texts in finer ticks, where time is counted by ticks and by rounds; and the
//! starts of several tasks.

use crate::fixtures::{same, wrong};
use job_edits::{
    Change, CopiedStart, FinerTicks, Site, changed_text, copied_starts, finer_changes, hair_scope,
    shifted_changes, shifts, sites,
};
use job_meaning::Clock;
use job_reader::format_of;
use job_tokens::{Token, lex};
use job_tree::Name;
use std::alloc::{AllocError, Global};
use std::test::Fail;

// The tokens after the first line of a text.
fn tokens_of(alloc: Global, text: &[u8]) -> Result<Vec<Token>, AllocError> {
    let (_, rest) = text.split_at(text.len().min(11));
    let lexed = lex(alloc, format_of(text), rest, text.len())?;
    Ok(lexed.tokens)
}

// The sites of a text.
fn sites_of(alloc: Global, text: &[u8]) -> Result<Vec<Site>, AllocError> {
    let tokens = tokens_of(alloc, text)?;
    sites(alloc, tokens.as_slice())
}

const THOUSAND: Option<FinerTicks> = Some(FinerTicks {
    factor: 1_000,
    hair: 100,
});

const HUNDRED: Option<FinerTicks> = Some(FinerTicks {
    factor: 100,
    hair: 10,
});

const TEN: Option<FinerTicks> = Some(FinerTicks {
    factor: 10,
    hair: 1,
});

// A text, a limit, and how much finer its ticks are where time is counted by ticks and by rounds.
const FACTORS: &[(&[u8], u64, Option<FinerTicks>, Option<FinerTicks>)] = &[
    (b"trio-job 3\njob m { sleep 5; }", 100, THOUSAND, TEN),
    (b"trio-job 3\njob m { checkpoint; }", 100, THOUSAND, TEN),
    (b"trio-job 3\njob m { sleep 1000000; }", 100, HUNDRED, TEN),
    (b"trio-job 3\njob m { sleep 99999999; }", 100, TEN, TEN),
    (b"trio-job 3\njob m { sleep 100000000; }", 100, None, None),
    (b"trio-job 3\njob m { sleep 5; }", 109_951_162_777, TEN, TEN),
    (
        b"trio-job 3\njob m { sleep 5; }",
        109_951_162_778,
        None,
        None,
    ),
];

// Fails at the first row whose ticks are finer by another factor.
fn factors_are_right(alloc: Global) -> Result<(), Fail> {
    for i in 0..FACTORS.len() {
        let (text, limit, by_ticks, by_rounds) = FACTORS[i];
        let sites = sites_of(alloc, text)?;
        if FinerTicks::of(Clock::ByTicks, sites.as_slice(), limit) != by_ticks {
            return Err(wrong(i));
        }
        if FinerTicks::of(Clock::ByRounds, sites.as_slice(), limit) != by_rounds {
            return Err(wrong(i));
        }
    }
    Ok(())
}

#[test]
fn by_rounds_ticks_are_ten_times_finer(rt: HostRuntime) -> Result<(), Fail> {
    factors_are_right(rt.alloc())
}

// How much finer the ticks of these sites are up to tick 100.
fn finer_ticks_of(clock: Clock, sites: &[Site]) -> Result<FinerTicks, Fail> {
    match FinerTicks::of(clock, sites, 100) {
        Some(finer_ticks) => Ok(finer_ticks),
        None => Err("no finer ticks")?,
    }
}

// The text in finer ticks.
fn finer_text(alloc: Global, clock: Clock, text: &[u8]) -> Result<Vec<u8>, Fail> {
    let sites = sites_of(alloc, text)?;
    let finer_ticks = finer_ticks_of(clock, sites.as_slice())?;
    let changes = finer_changes(alloc, clock, finer_ticks, sites.as_slice())?;
    let changed = changed_text(alloc, text, changes.as_slice())?;
    Ok(changed)
}

// Appends the text with these changes.
fn push_changed(
    alloc: Global,
    texts: &mut Vec<u8>,
    text: &[u8],
    changes: &[Change],
) -> Result<(), AllocError> {
    let changed = changed_text(alloc, text, changes)?;
    texts.extend_from_slice(changed.as_slice())
}

// Appends the texts in finer ticks with one place moved by a hair, one after the other.
fn push_moved(
    alloc: Global,
    texts: &mut Vec<u8>,
    clock: Clock,
    text: &[u8],
    scope: Name,
    sites: &[Site],
) -> Result<(), Fail> {
    let finer_ticks = finer_ticks_of(clock, sites)?;
    let shifts = shifts(alloc, sites)?;
    for shift in shifts.as_slice() {
        let changes = shifted_changes(alloc, clock, finer_ticks, scope, shift, sites)?;
        push_changed(alloc, texts, text, changes.as_slice())?;
    }
    Ok(())
}

// The texts in finer ticks with one place moved by a hair, one after the other, as one text.
fn moved_texts(alloc: Global, clock: Clock, text: &[u8]) -> Result<Vec<u8>, Fail> {
    let sites = sites_of(alloc, text)?;
    let scope = scope_of(alloc, text)?;
    let mut texts = Vec::new(alloc);
    push_moved(alloc, &mut texts, clock, text, scope, sites.as_slice())?;
    Ok(texts)
}

// The name of the scope of a hair in a text.
fn scope_of(alloc: Global, text: &[u8]) -> Result<Name, AllocError> {
    let tokens = tokens_of(alloc, text)?;
    hair_scope(alloc, tokens.as_slice())
}

#[test]
fn by_ticks_a_text_in_finer_ticks_is_in_format_2(rt: HostRuntime) -> Result<(), Fail> {
    let text = b"trio-job 1\njob m { checkpoint; pace 4; }\n";
    let finer_ticks = finer_text(rt.alloc(), Clock::ByTicks, text)?;
    same(
        "the text in finer ticks",
        finer_ticks.as_slice(),
        b"trio-job 2\njob m { checkpoint; repeat 1000 { pace 4; } }\n",
    )?;
    let moved = moved_texts(rt.alloc(), Clock::ByTicks, text)?;
    same(
        "the texts moved by a hair",
        moved.as_slice(),
        b"trio-job 2\njob m { sleep 100; repeat 1000 { pace 4; } }
trio-job 2\njob m { checkpoint; repeat 1000 { pace 4; } sleep 100; }\n",
    )
}

#[test]
fn by_rounds_the_first_line_stays_as_it_is(rt: HostRuntime) -> Result<(), Fail> {
    let text = b"trio-job 3\njob m { sleep 2; checkpoint; pace 4; }\n";
    let finer_ticks = finer_text(rt.alloc(), Clock::ByRounds, text)?;
    same(
        "the text in finer ticks",
        finer_ticks.as_slice(),
        b"trio-job 3\njob m { sleep 20; checkpoint; repeat 10 { pace 4; } }\n",
    )?;
    let moved = moved_texts(rt.alloc(), Clock::ByRounds, text)?;
    same(
        "the texts moved by a hair",
        moved.as_slice(),
        b"trio-job 3\njob m { sleep 19; checkpoint; repeat 10 { pace 4; } }
trio-job 3\njob m { sleep 21; checkpoint; repeat 10 { pace 4; } }
trio-job 3\njob m { sleep 20; sleep 1; repeat 10 { pace 4; } }
trio-job 3\njob m { sleep 20; checkpoint; repeat 10 { pace 4; } sleep 1; }\n",
    )
}

#[test]
fn a_set_is_moved_by_a_shielded_sleep(rt: HostRuntime) -> Result<(), Fail> {
    let text = b"trio-job 3\njob m { event e { set e; wait e; } }\n";
    let moved = moved_texts(rt.alloc(), Clock::ByRounds, text)?;
    same(
        "the texts moved by a hair",
        moved.as_slice(),
        b"trio-job 3\njob m { event e { scope hair shield { sleep 1; } set e; wait e; } }
trio-job 3\njob m { event e { set e; wait e; sleep 1; } }\n",
    )
}

#[test]
fn a_token_is_asked_for_and_given_back_a_hair_later(rt: HostRuntime) -> Result<(), Fail> {
    let text = b"trio-job 3\njob m { limiter l 1 { acquire l { try { } finally { } } } }\n";
    let moved = moved_texts(rt.alloc(), Clock::ByRounds, text)?;
    same(
        "the texts moved by a hair",
        moved.as_slice(),
        b"trio-job 3\njob m { limiter l 1 { sleep 1; acquire l { try { } finally { } } } }
trio-job 3\njob m { limiter l 1 { acquire l { try { } finally { } scope hair shield { sleep 1; } } } }\n",
    )
}

#[test]
fn what_is_done_to_a_channel_is_moved_by_a_hair(rt: HostRuntime) -> Result<(), Fail> {
    let text = b"trio-job 3\njob m { channel q 1 { send q; receive q { } close q; } }\n";
    let moved = moved_texts(rt.alloc(), Clock::ByRounds, text)?;
    same(
        "the texts moved by a hair",
        moved.as_slice(),
        b"trio-job 3\njob m { channel q 1 { sleep 1; send q; receive q { } close q; } }
trio-job 3\njob m { channel q 1 { send q; sleep 1; receive q { } close q; } }
trio-job 3\njob m { channel q 1 { send q; receive q { } scope hair shield { sleep 1; } close q; } }\n",
    )
}

#[test]
fn a_name_that_is_spelled_as_a_keyword_is_no_step(rt: HostRuntime) -> Result<(), Fail> {
    let text = b"trio-job 3\njob wait { event set { set set; wait set; raise hair; } }\n";
    let moved = moved_texts(rt.alloc(), Clock::ByRounds, text)?;
    same(
        "the texts moved by a hair",
        moved.as_slice(),
        b"trio-job 3\njob wait { event set { scope hair_1 shield { sleep 1; } set set; wait set; raise hair; } }
trio-job 3\njob wait { event set { set set; wait set; sleep 1; raise hair; } }\n",
    )?;
    let text =
        b"trio-job 3\njob close { limiter acquire 1 { acquire acquire { raise close; } } }\n";
    let moved = moved_texts(rt.alloc(), Clock::ByRounds, text)?;
    same(
        "the texts moved by a hair",
        moved.as_slice(),
        b"trio-job 3\njob close { limiter acquire 1 { sleep 1; acquire acquire { raise close; } } }
trio-job 3\njob close { limiter acquire 1 { acquire acquire { raise close; scope hair shield { sleep 1; } } } }\n",
    )
}

// A job that starts tasks in several ways.
const STARTS: &[u8] = b"trio-job 3
job m{nursery n{repeat 2{start a{}start b over 2{}}start c{}start d over 3{}}}";

// The places and the numbers of the starts of several tasks.
const SEVERAL: &[(usize, Option<u64>)] = &[(36, None), (45, Some(2)), (71, Some(3))];

// Fails at the first start that is another one.
fn starts_are(starts: &[CopiedStart]) -> Result<(), Fail> {
    if starts.len() != SEVERAL.len() {
        return Err("another number of starts")?;
    }
    for i in 0..SEVERAL.len() {
        let (from, count) = SEVERAL[i];
        if starts[i].from != from || starts[i].count != count {
            return Err(wrong(i));
        }
    }
    Ok(())
}

#[test]
fn a_start_in_a_loop_starts_several_tasks(rt: HostRuntime) -> Result<(), Fail> {
    let tokens = tokens_of(rt.alloc(), STARTS)?;
    let starts = copied_starts(rt.alloc(), tokens.as_slice())?;
    starts_are(starts.as_slice())
}
