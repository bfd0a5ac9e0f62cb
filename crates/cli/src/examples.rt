// The examples that help prints. `tests/command` compares those of `explain`, `faults`, `races` and `sweep` with what the
// program writes.

// Returns the text at the end of the help of a command. The texts are not in the table, since the proof of each function that
// names the table has all of it, and with these texts it is too large.
pub(crate) fn example_of(command: &str) -> &'static str {
    match command {
        "run" => RUN_EXAMPLE,
        "explain" => EXPLAIN_EXAMPLE,
        "chart" => CHART_EXAMPLE,
        "page" => PAGE_EXAMPLE,
        "faults" => FAULTS_EXAMPLE,
        "races" => RACES_EXAMPLE,
        "sweep" => SWEEP_EXAMPLE,
        "fmt" => FMT_EXAMPLE,
        "lint" => LINT_EXAMPLE,
        "test" => TEST_EXAMPLE,
        "trio" => TRIO_EXAMPLE,
        "check" => CHECK_EXAMPLE,
        "upgrade" => UPGRADE_EXAMPLE,
        "scale" => SCALE_EXAMPLE,
        "completions" => COMPLETIONS_EXAMPLE,
        "man" => MAN_EXAMPLE,
        _ => "",
    }
}

pub(crate) const EXAMPLE: &str =
    "A job file may hold its input, after a line that is exactly `%input`. With no words at all, nursery runs
the job on standard input.

Example: `first.job` shows each line of its input that holds \"er\".

    $ cat first.job
    trio-job 3
    job main {
      find \"er\";
    }
    $ printf 'error\\nok\\n' > log.txt
    $ nursery run first.job log.txt
    job main 0
    task main 0 0 done
      line 0+5 error

Exit status: 0 the job ended well, or another command did its work; 1 it ended with an exception, or a
line is denied; 2 the job or the command line was refused; 3 it ends later than the limit; 4 a file
could not be read or written, or the input is too long; 5 no memory.";

const RUN_EXAMPLE: &str =
    "Example: the job `watch.job` waits at most 10 ticks, and shows the lines that hold \"ERROR\".

    $ cat watch.job
    trio-job 3
    job watch {
      scope limit after 10 { pace 2; find \"ERROR\"; }
    }
    $ printf 'start\\nERROR disk\\n' | nursery run watch.job - --limit 100
    job watch 1
    task watch 0 1 done
      line 6+10 ERROR disk
      scope limit 1 passed";

const EXPLAIN_EXAMPLE: &str = "Example: who cancelled `slow`, and when?

    $ cat hedge.job
    trio-job 3
    job hedge {
      nursery calls {
        start fast { sleep 2; cancel calls; }
        start slow { sleep 9; }
      }
    }
    $ nursery explain hedge.job --task slow
    tick 0
      fast  starts in nursery calls
      fast  sleeps until 2
      slow  starts in nursery calls
      slow  sleeps until 9
    tick 2
      fast  cancels nursery calls from 2
      fast  ends: done
      slow  is cancelled while sleeping since 0 by nursery calls (cancelled by fast at 2)
      slow  ends: cancelled";

const CHART_EXAMPLE: &str =
    "A task is drawn as `|---|`, a scope or nursery as `(===)`; `x` is where a task is cancelled, or from where a
scope or nursery is, and `!` where an exception is raised. Each tick at which something happens has a column.
If they do not fit, the chart is continued below, and `~` marks what goes on.

Example: one of two calls fails.

    $ cat both.job
    trio-job 3
    job both {
      nursery calls {
        start user { sleep 3; raise Refused; }
        start mail { sleep 9; }
      }
    }
    $ nursery chart both.job
                     0  3
    both             |--| raised calls[Refused(user@3)]
      nursery calls  (==x caught
    user             |--! raised Refused(user@3)
    mail             |--x cancelled

Exit status: that of `run`; 3 if the job ends later than the limit, and is drawn up to it.";

const PAGE_EXAMPLE: &str =
    "The page has no scripts and needs no other file. Sentences of the story and lines of the tables are links to the
lines of the job, and tasks to their rows in the chart.

Example:

    $ nursery page both.job > both.html

Exit status: that of `run`; 3 if the job ends later than the limit, and is shown up to it.";

const FAULTS_EXAMPLE: &str =
    "A fault is a change of one waiting step: an exception is raised in its place (`fails`) or after it
(`fails late`), it never ends (`hangs`), or the whole job is cancelled from outside (`cancelled`); a
`need` finds no line (`misses`). It is made wherever the step runs; with `--each` there are lines for
single copies and passes too, where the copy `shard.1` is called `shard_1.0`, and those after it
`shard_after_1.0` and so on.

Example: what if one of two calls fails or hangs?

    $ cat calls.job
    trio-job 3
    job calls {
      nursery all {
        start user { sleep 2; }
        start mail { scope limit after 5 { sleep 3; } }
      }
    }
    $ nursery faults calls.job
                   as it is    3 done
    4:18  sleep 2  fails       0 raised all[Fault(user@0)]; cancelled: mail
    4:18  sleep 2  fails late  2 raised all[Fault(user@2)]; cancelled: mail
    4:18  sleep 2  hangs       stuck at 1000000; sleeping forever: user
    4:18  sleep 2  cancelled   0 done; cancelled: user, mail
    5:40  sleep 3  fails       0 raised all[Fault(mail@0)]; cancelled: user
    5:40  sleep 3  fails late  3 raised all[Fault(mail@3)]
    5:40  sleep 3  hangs       5 done
    5:40  sleep 3  cancelled   0 done; cancelled: user, mail
    8 faults: 1 stuck, 0 cut a cleanup, 0 lost, 0 not reached

Exit status: 0, or 1 if a line is denied; the others are those of `run`.";

const RACES_EXAMPLE: &str =
    "A hair is a tenth of a tick. Each `sleep`, `after` and `at` takes a hair less (`earlier`) and a hair more
(`later`), each `checkpoint`, `pace` and `start` a hair more. A race is a hair that changes the outcome of
a task, its lines or its scopes.

Example: two tasks act in the same tick, and one of them cancels the other.

    $ cat both.job
    trio-job 3
    job both {
      nursery pair {
        start a { sleep 5; cancel pair; }
        start b { sleep 5; }
      }
    }
    $ nursery races both.job
    4:15  sleep 5  earlier  both: other lines or scopes; b: done -> cancelled
     5:5  start b  later    both: other lines or scopes; b: done -> cancelled
    5:15  sleep 5  later    both: other lines or scopes; b: done -> cancelled
    6 hairs: 3 races

Exit status: 0, or 1 if races are denied and there is one; the others are those of `run`.";

const SWEEP_EXAMPLE: &str =
    "Neighbouring values share a line if the outcome of the job is the same, apart from ticks. A value that the
job text cannot have is shown as `refused`.

Example: how long a deadline do these two calls need?

    $ cat fetch.job
    trio-job 3
    job fetch {
      scope limit after 5 fail { sleep 3; sleep 4; }
    }
    $ nursery sweep fetch.job --of limit --values 1..20
    as it is  raised TooSlow(limit), ends 5
    1..7      raised TooSlow(limit), ends 1..7
    8..20     done, ends 7
    20 values: 0 stuck, 0 cut a cleanup

The same by the place of the number, which begins in column 21 of line 3:

    $ nursery sweep fetch.job --at 3:21 --values 7..8
    as it is  raised TooSlow(limit), ends 5
    7         raised TooSlow(limit), ends 7
    8         done, ends 7
    2 values: 0 stuck, 0 cut a cleanup

Exit status: 0; the others are those of `run`.";

const FMT_EXAMPLE: &str =
    "A block that is empty or holds one step without a block is written on one line, if there is no comment in
it and that ends at column 80 or before. The formatted text spells the same job, with the same comments,
and formatting it again changes nothing. The input that JOB holds is kept as it is.

Example:

    $ cat hedge.job
    trio-job 3
    job hedge { nursery both { start fast { sleep 2; cancel both; } start slow { sleep 9; } } }
    $ nursery fmt hedge.job
    trio-job 3
    job hedge {
      nursery both {
        start fast {
          sleep 2;
          cancel both;
        }
        start slow { sleep 9; }
      }
    }
    $ nursery fmt hedge.job --check
    hedge.job:2:12: not formatted from here on
    job hedge { nursery both { start fast { sleep 2; ca
               ^

Exit status: 0; 1 if `--check` finds a difference; 2 if the job is refused, or its formatted text is
longer than a job text may be; 4 if a file could not be read or written; 5 no memory.";

const LINT_EXAMPLE: &str =
    "A job with warnings runs as it is. There are warnings about a step after a `forever` or a `raise`; in a
`finally`, a wait with no shield around it, or a `raise`; a shield without a deadline around a wait; a
scope that nothing cancels; a handler of an exception that nothing raises; an event that nothing sets, or
that nothing waits for; and, in formats 1 and 2, a `cancel` in a `finally` or handler of what is around
that, since it takes effect a tick later than in Trio.

Example:

    $ cat late.job
    trio-job 3
    job late {
      try { sleep 5; } except Timeout { find \"late\"; }
    }
    $ nursery lint late.job
    late.job:3:20: nothing in this `try` raises Timeout, so its handler never runs
      try { sleep 5; } except Timeout { find \"late\"; }
                       ^

Exit status: 0; 1 if there is a warning; the others are those of `check`.";

const TEST_EXAMPLE: &str =
    "A feed is a job text, a line `%input` and the input, in a file NAME.feed. NAME.report, NAME.story,
NAME.chart, NAME.faults and NAME.races beside it are compared with what `nursery`, `explain`, `chart`,
`faults` and `races` write for it, and NAME.sweep with what `sweep` writes with the options in its first
line. Each line of NAME.expect is a pattern, in which `*` matches anything: some line of the report or the
story must match it, or with `! ` in front none may. `races: none` and `faults: no stuck, no cut, no lost`
demand that of the whole job. A file that demands nothing has failed, and so has a line that no job could
meet: an unknown word and a colon, or a pattern that no line of its report or story can match.

Example:

    $ nursery test --accept close.feed
    close.report: accepted
    0 passed, 1 accepted, 0 failed
    $ printf '! * cancelled *\\nfaults: no stuck\\n' > close.expect
    $ nursery test close.feed
    close.report: passed
    close.expect: passed
    2 passed, 0 failed

Exit status: 0; 1 if something differs or is not as expected; 4 if a file could not be read or written,
or there is nothing to compare with.";

const TRIO_EXAMPLE: &str =
    "The program is plain Trio, to start real code from: its first lines say how it is run. With `--ticks` it
prints the task lines of the report, but for what exceptions say. It prints the version of Trio on standard
error, and warns where that is below 0.23.

Example:

    $ nursery trio hedge.job > hedge.py
    $ python3 hedge.py
    $ python3 hedge.py --ticks
    $ python3 hedge.py --seeds 20

Exit status: 0; the others are those of `check`.";

const CHECK_EXAMPLE: &str =
    "The text is the one that `nursery fmt` writes. If that is longer than a job text may be, the status is 2, and
`--canonical` writes the job on one line.

Example:

    $ cat wait.job
    trio-job 3
    job main { sleep }
    $ nursery check wait.job
    refused J6 Syntax at 28
    wait.job:2:18: expected a number
    job main { sleep }
                     ^";

const UPGRADE_EXAMPLE: &str = "Example:

    $ cat first.job
    trio-job 1
    job main {
      find \"er\";
    }
    $ nursery upgrade first.job
    trio-job 3
    job main { find \"er\"; }

Standard error says whether the job's report over an empty input is another one in the new format. In
format 3 a cancellation is seen in the tick in which it is made, as in Trio; in format 2 a job means what
it meant in format 1. The input that JOB holds is written too.";

const SCALE_EXAMPLE: &str =
    "The numbers of `sleep`, `after` and `at` are multiplied, and a `pace` is repeated N times. Numbers that
count something else, as those of `repeat`, `over` and `head`, stay. The input that JOB holds is written too.

Example: a design in seconds becomes one in milliseconds.

    $ cat call.job
    trio-job 3
    job call {
      repeat 3 {
        scope attempt after 2 { sleep 5; }
      }
    }
    $ nursery scale 1000 call.job
    trio-job 3
    job call {
      repeat 3 {
        scope attempt after 2000 { sleep 5000; }
      }
    }

Exit status: 0; 2 if the job is refused, or would be with its ticks multiplied; the others are those of
`check`.";

const COMPLETIONS_EXAMPLE: &str = "Example: for bash, from now on in each new shell:

    $ nursery completions bash > ~/.local/share/bash-completion/completions/nursery

`make install` in the repository puts the scripts of the three shells in their places.";

const MAN_EXAMPLE: &str = "Example:

    $ nursery man > nursery.1
    $ man ./nursery.1";
