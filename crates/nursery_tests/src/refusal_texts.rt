//! Refused job texts, and the explanations by `refusal_message`.

/// A job text, and what its refusal shows, where the file is named `f`.
pub(crate) type Row = (&'static str, &'static str);

/// Texts that continue wrongly: what the grammar expected.
pub(crate) const EXPECTED: &[Row] = &[
    (
        "trio-job 1\njob main { sleep }\n",
        "f:2:18: expected a number\njob main { sleep }\n                 ^\n",
    ),
    (
        "trio-job 1\njob main { sleep 1 }",
        "f:2:20: expected `;`\njob main { sleep 1 }\n                   ^\na `;` is missing after the step before it\n",
    ),
    (
        "trio-job 1\njob main {\n  sleep 1;\n",
        "f:4:1: expected a step, as `sleep 1;`, or `}` (a `start` only directly inside a nursery or a `repeat` there)\n\n^\nthe innermost block that is not closed begins at f:2:10\n",
    ),
    (
        "trio-job 1\njob main { } }",
        "f:2:14: expected the text's end: nothing may follow the job's `}`\njob main { } }\n             ^\n",
    ),
    (
        "trio-job 1\nsleep 1;",
        "f:2:1: expected `job NAME { .. }`\nsleep 1;\n^\n",
    ),
    (
        "trio-job 1\njob { }",
        "f:2:5: expected a name\njob { }\n    ^\neach job, scope, nursery, event, limiter, channel and start has a name, as in `scope work after 5 { .. }`\n",
    ),
    (
        "trio-job 1\njob a { scope s; }",
        "f:2:16: expected `after N`, `at N`, `shield`, `fail` or `{`\njob a { scope s; }\n               ^\n",
    ),
    (
        "trio-job 1\njob a { try { } }",
        "f:2:17: expected `except NAME { .. }` or `finally { .. }`\njob a { try { } }\n                ^\n",
    ),
    (
        "trio-job 1\njob a { find x; }",
        "f:2:14: expected a string, as `\"error\"`\njob a { find x; }\n             ^\n",
    ),
    (
        "trio-job 1\njob a { raise 1; }",
        "f:2:15: expected the name of an exception\njob a { raise 1; }\n              ^\n",
    ),
    (
        "trio-job 1\njob a { nursery n { start b at 1 { } } }",
        "f:2:29: expected `over N` or `{`\njob a { nursery n { start b at 1 { } } }\n                            ^\na task has no deadline and no shield: put a scope into it, as in `start NAME { scope NAME after 5 { .. } }`\n",
    ),
    (
        "trio-job 1\njob a { nursery n { 5 } }",
        "f:2:21: expected a step, as `sleep 1;`, a `start NAME { .. }` or `}`\njob a { nursery n { 5 } }\n                    ^\n",
    ),
    (
        "trio-job 3\njob a { repeat shield { } }",
        "f:2:16: expected a number or `over N`\njob a { repeat shield { } }\n               ^\n",
    ),
    (
        "trio-job 2\njob a { nursery n; }",
        "f:2:18: expected `after N`, `shield` or `{` (in format 1 only `{`)\njob a { nursery n; }\n                 ^\n",
    ),
];

/// Texts that are refused for another reason: what is wrong.
pub(crate) const WRONG: &[Row] = &[
    (
        "trio-job 1\njob a {\n\tfind \"ä\"; }",
        "f:3:8: this byte is not ASCII\n find \"??\"; }\n       ^\n",
    ),
    (
        "job a { }",
        "f:1:1: a job text begins with the line `trio-job 1`, `trio-job 2` or `trio-job 3`, ended by a newline alone\njob a { }\n^\nthe line with the format is missing: begin a new job text with the line `trio-job 3`\n",
    ),
    (
        "",
        "f:1:1: a job text begins with the line `trio-job 1`, `trio-job 2` or `trio-job 3`, ended by a newline alone\n\n^\nthe line with the format is missing: begin a new job text with the line `trio-job 3`\n",
    ),
    (
        "trio-job 1\njob a { sleep 1s; }",
        "f:2:15: a letter or `_` directly follows this number\njob a { sleep 1s; }\n              ^\na number is digits alone: times are whole ticks without a unit, as in `sleep 500;`\n",
    ),
    (
        "trio-job 1\njob a { sleep 1_; }",
        "f:2:15: a letter or `_` directly follows this number\njob a { sleep 1_; }\n              ^\na number is digits alone: `1000`, and not `1_000`\n",
    ),
    (
        "trio-job 1\njob a { find \"x; }",
        "f:2:14: a string of 1 to 64 bytes was expected: printable, or `\\\"`, `\\\\` or `\\x` and two of 0-9a-f, and closed by a quote\njob a { find \"x; }\n             ^\n",
    ),
    (
        "trio-job 1\njob a { # }",
        "f:2:9: a word, a number, a string or one of `{`, `}` and `;` was expected\njob a { # }\n        ^\nformat 3 has comments: begin the job text with the line `trio-job 3`\n",
    ),
    (
        "trio-job 1\njob a123456789012345678901234567890123 { }",
        "f:2:5: this word has more than 32 bytes\njob a123456789012345678901234567890123 { }\n    ^\n",
    ),
    (
        "trio-job 1\njob a { sleep 01; }\r\n",
        "f:2:15: a number that is out of its range or has a leading zero\njob a { sleep 01; } \n              ^\na number has no leading zero: `5`, and not `05`\n",
    ),
    (
        "trio-job 1\njob a { scope a { } }",
        "f:2:15: this name was given before: jobs, scopes, nurseries, events, limiters, channels and starts need names of their own\njob a { scope a { } }\n              ^\nit was first given at f:2:5\n",
    ),
    (
        "trio-job 1\njob a { cancel b; }",
        "f:2:16: no enclosing scope or nursery has this name\njob a { cancel b; }\n               ^\nno scope or nursery is around this `cancel`\n",
    ),
    (
        "trio-job 3\njob a { set b; }",
        "f:2:13: no enclosing event has this name\njob a { set b; }\n            ^\nno event is around this step\n",
    ),
    (
        "trio-job 3\njob a { acquire b { } }",
        "f:2:17: no enclosing limiter has this name\njob a { acquire b { } }\n                ^\nno limiter is around this step\n",
    ),
    (
        "trio-job 3\njob a { send b; }",
        "f:2:14: no enclosing channel has this name\njob a { send b; }\n             ^\nno channel is around this step\n",
    ),
    (
        "trio-job 3\njob a { limiter b 0 { } }",
        "f:2:19: a number that is out of its range or has a leading zero\njob a { limiter b 0 { } }\n                  ^\nthe number of tokens of a limiter is from 1 to 1000000\n",
    ),
    (
        "trio-job 1\njob a { raise sleep; }",
        "f:2:15: this name is reserved: a name must not be a keyword or `Cancelled`, and `TooSlow` is allowed only after `except`\njob a { raise sleep; }\n              ^\n`sleep` is a keyword: choose another name\n",
    ),
    (
        "trio-job 1\njob a { nursery n { start b over 64 { nursery m { start c over 64 { nursery q { start d over 64 { } } } } } } }",
        "f:1:1: the job has more than 1000000 steps, in format 1 more than 100000, the copies that `over` makes and the passes of `repeat` counted\ntrio-job 1\n^\nthe job has 270465 steps\n",
    ),
];

/// Texts for which there is a hint: the last line of what is shown, and the newline before it.
pub(crate) const HELPED: &[Row] = &[
    ("trio-job 1\njob a { slep 1; }", "\ndid you mean `sleep`?\n"),
    (
        "trio-job 1\njob a { sleeep 1; }",
        "\ndid you mean `sleep`?\n",
    ),
    (
        "trio-job 1\njob a { Sleep 1; }",
        "\ndid you mean `sleep`?\n",
    ),
    ("trio-job 1\njob a { tyr { } }", "\ndid you mean `try`?\n"),
    ("trio-job 1\nob a { }", "\ndid you mean `job`?\n"),
    (
        "trio-job 1\njob a { scope s sheild { } }",
        "\ndid you mean `shield`?\n",
    ),
    (
        "trio-job 1\njob a { nursery n { strat b { } } }",
        "\ndid you mean `start`?\n",
    ),
    (
        "trio-job 1\njob a { try { } finaly { } }",
        "\ndid you mean `finally`?\n",
    ),
    // `start` is allowed only in a nursery, and two bytes are wrong.
    ("trio-job 1\njob a { strat b { } }", "\n        ^\n"),
    ("trio-job 1\njob a { slop 1; }", "\n        ^\n"),
    (
        "trio-job 1\njob a { scope b { sleep 1; }\n scope c {\n { }",
        "\n ^\n",
    ),
    (
        "trio-job 1\r\njob a { }\r\n",
        "\nits line ends are carriage returns and newlines: save it with newlines alone\n",
    ),
    (
        "trio-job 1\njob a { // no\n}",
        "\na comment begins with `#`, in a job text of format 3\n",
    ),
    (
        "trio-job 1\njob a { repeat 2 { } }",
        "\nformat 2 has this: begin the job text with the line `trio-job 2`\n",
    ),
    (
        "trio-job 1\njob a { nursery n shield { } }",
        "\nformat 2 has this: begin the job text with the line `trio-job 2`\n",
    ),
    (
        "trio-job 1\njob a { scope b { nursery c { start d { cancel e; } } } }",
        "\nwhat can be cancelled here: `c`, `b`\n",
    ),
    (
        "trio-job 3\njob a { event b { scope c { } } wait b; }",
        "\nno event is around this step\n",
    ),
    (
        "trio-job 3\njob a { event b { scope s { event c { wait d; } } } }",
        "\nthe events around this step: `c`, `b`\n",
    ),
    (
        "trio-job 3\njob a { event b { scope s { cancel b; } } }",
        "\nwhat can be cancelled here: `s`\n",
    ),
    (
        "trio-job 3\njob a { limiter b 2 { channel c 0 { limiter d 1 { acquire c { } } } } }",
        "\nthe limiters around this step: `d`, `b`\n",
    ),
    (
        "trio-job 3\njob a { limiter b 2 { channel c 0 { receive b { } } } }",
        "\nthe channels around this step: `c`\n",
    ),
    (
        "trio-job 3\njob a { channel c 1000001 { } }",
        "\nthe number of places of a channel is from 0 to 1000000\n",
    ),
    (
        "trio-job 3\njob a { limiter b { } }",
        "\na limiter has the number of its tokens after its name, a channel that of its places: `limiter NAME 2 { .. }`, `channel NAME 0 { .. }`\n",
    ),
    (
        "trio-job 3\njob a { limitr b 2 { } }",
        "\ndid you mean `limiter`?\n",
    ),
    (
        "trio-job 3\njob a { Lock b; }",
        "\na lock is `limiter NAME 1 { .. }` here, a semaphore `limiter NAME N { .. }`, in format 3, with `acquire NAME { .. }`\n",
    ),
    (
        "trio-job 3\njob a { channel b 1 { await b.send(1); } }",
        "\nTrio's `await NAME.send(..)` is `send NAME;` here\n",
    ),
    (
        "trio-job 2\njob a { event b { } }",
        "\nformat 3 has this: begin the job text with the line `trio-job 3`\n",
    ),
    (
        "trio-job 2\njob a { channel b 0 { } }",
        "\nformat 3 has this: begin the job text with the line `trio-job 3`\n",
    ),
    (
        "trio-job 2\njob a { repeat over 2 { } }",
        "\nformat 3 has this: begin the job text with the line `trio-job 3`\n",
    ),
    (
        "trio-job 3\njob a { repeat ovr 2 { } }",
        "\ndid you mean `over`?\n",
    ),
    (
        "trio-job 3\njob a { repeat 2 { start b { } } }",
        "\na `start` is directly inside a nursery, in format 3 also in a `repeat` without `over` there: `nursery NAME { repeat 3 { start NAME { .. } } }`\n",
    ),
    (
        "trio-job 3\njob a { evnt b { } }",
        "\ndid you mean `event`?\n",
    ),
    (
        "trio-job 3\njob a { Event b; }",
        "\nTrio's `Event` is `event NAME { .. }` here, around the tasks that use it\n",
    ),
    (
        "trio-job 3\njob a { event b { b.set(); } }",
        "\nTrio's `NAME.set()` is `set NAME;` here\n",
    ),
    (
        "trio-job 3\njob a { event b { await b.wait(); } }",
        "\nTrio's `await NAME.wait()` is `wait NAME;` here\n",
    ),
    (
        "trio-job 1\njob a { move_on_after(5) { } }",
        "\nTrio's `move_on_after` is `scope NAME after N { .. }` here\n",
    ),
    (
        "trio-job 2\njob a { repaet 2 { } }",
        "\ndid you mean `repeat`?\n",
    ),
    (
        "trio-job 4\njob a { }",
        "\nthe formats are 1, 2 and 3: begin a new job text with the line `trio-job 3`\n",
    ),
    ("trio-job 3", "\n^\n"),
    (
        "trio-job 1\njob a { while b { } }",
        "\na loop is `repeat N { .. }`, in formats 2 and 3; a `raise` in it leaves it, with a `try` around it\n",
    ),
    (
        "trio-job 1\njob a { try { } catch b { } }",
        "\na handler is `try { .. } except NAME { .. }` here\n",
    ),
    (
        "trio-job 1\njob a { withTimeout(5) { } }",
        "\na timeout is `scope NAME after N fail { .. }` here\n",
    ),
    (
        "trio-job 1\njob a { try { } except b { } except c { } }",
        "\na `try` has one handler: for another exception, put a second `try` around this one\n",
    ),
    (
        "trio-job 1\njob a { try { } except { } }",
        "\na handler names its exception: `except NAME { .. }`\n",
    ),
    (
        "trio-job 2\njob a { nursery b shield fail { } }",
        "\na nursery has neither `at` nor `fail`: put a scope around it, as in `scope NAME at 5 fail { nursery NAME { .. } }`\n",
    ),
    (
        "trio-job 1\njob a { scope b fail shield { } }",
        "\nthe head of a scope is `scope NAME after N shield fail`, in this order\n",
    ),
    (
        "trio-job 3\njob a after 5 { }",
        "\nonly scopes and nurseries have deadlines and shields: put a scope into the block, as in `job NAME { scope NAME after 5 { .. } }`\n",
    ),
    // A task that has the name of a `cancel` is no scope or nursery around it; for an event there is no such hint.
    (
        "trio-job 1\njob a { nursery b { start c { } cancel c; } }",
        "\na task cannot be cancelled by its name: put a scope into the task, and the `cancel` into that scope\nwhat can be cancelled here: `b`\n",
    ),
    (
        "trio-job 3\njob a { nursery b { start c { } set c; } }",
        "\n                                    ^\nno event is around this step\n",
    ),
    (
        "trio-job 1\njob a { cancel, b; }",
        "\nthere are no lists: each step ends with `;`, as in `cancel first; cancel second;`\n",
    ),
    (
        "trio-job 1\njob a { nursery b { start c over 0 { } } }",
        "\nthe number after `over` is from 1 to 64\n",
    ),
    (
        "trio-job 2\njob a { repeat 1001 { } }",
        "\nthe number after `repeat` is from 0 to 1000\n",
    ),
    // In format 1 `repeat` begins no step, so the number after it is one like any other.
    (
        "trio-job 1\njob a { repeat 1000000001 { } }",
        "\nthe number here is from 0 to 1000000000\n",
    ),
    // A keyword may be the next word of a head whose name is missing.
    (
        "trio-job 1\njob a { nursery n { start fail { } } }",
        "\n`fail` is a keyword: choose another name\n",
    ),
    (
        "trio-job 1\njob a { scope fail { } }",
        "\neach job, scope, nursery, event, limiter, channel and start has a name, as in `scope work after 5 { .. }`\n",
    ),
    (
        "trio-job 1\njob a { raise Cancelled; }",
        "\njob a { raise Cancelled; }\n              ^\n",
    ),
];
