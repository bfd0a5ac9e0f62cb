// Texts that occur in every program, or in each that needs them.

// The first lines, after the name of the job.
pub(crate) const HEADER: &[u8] =
    b" as a program on plain Trio. A tick is a second of Trio's test clock, under which nothing waits.
# If `nursery races` finds no race in the job, this program should print the outcomes that `nursery run` reports.
#
#     pip install trio                  0.23 or newer: with 0.22 the end of a nursery may raise a Cancelled of its own
#     python3 FILE [INPUT]              runs it on the lines of INPUT, and prints how each task ended
#     python3 FILE [INPUT] --ticks      prints when each task started and ended, too, as the report of `nursery run` does
#     python3 FILE [INPUT] --seeds N    runs it under N seeds of Trio's scheduler, and counts the outcomes

";

pub(crate) const FIRST_IMPORTS: &[u8] = b"import argparse
import collections
";

pub(crate) const IMPORT_CONTEXTLIB: &[u8] = b"import contextlib
";

pub(crate) const LAST_IMPORTS: &[u8] = b"import contextvars
import functools
import pathlib
import queue
import sys
import threading

import trio
import trio.testing

if sys.version_info < (3, 11):
    from exceptiongroup import BaseExceptionGroup
";

pub(crate) const HANDLING: &[u8] = b"

@contextlib.contextmanager
def handling(kind, error):
    \"\"\"As `except*`, which Python has from 3.11 on: handles what is of that kind, in groups too; the rest propagates.\"\"\"
    if isinstance(error, BaseExceptionGroup):
        handled, rest = error.split(kind)
    else:
        handled, rest = (error, None) if isinstance(error, kind) else (None, error)
    if handled is None:
        raise error
    try:
        yield
    except BaseException as raised:
        if rest is None:
            raise
        raise BaseExceptionGroup(\"\", [raised, rest])
    if rest is not None:
        raise rest
";

pub(crate) const TOKEN_OF: &[u8] = b"

@contextlib.asynccontextmanager
async def token_of(limiter):
    \"\"\"A token of the limiter. Its holder is a new object, since one task may hold several.\"\"\"
    holder = object()
    await limiter.acquire_on_behalf_of(holder)
    try:
        yield
    finally:
        limiter.release_on_behalf_of(holder)
";

pub(crate) const CHANNEL: &[u8] = b"

class Channel:
    \"\"\"Both ends of a memory channel.\"\"\"

    def __init__(self, places):
        self.send_channel, self.receive_channel = trio.open_memory_channel(places)
";

pub(crate) const LINES_OF: &[u8] = b"

def lines_of(part):
    \"\"\"The lines of a part of the input, without their newlines.\"\"\"
    lines = part.split(b\"\\n\")
    return lines if lines[-1] else lines[:-1]
";

pub(crate) const PACE: &[u8] = b"

async def pace(part, count):
    \"\"\"Sleeps one tick for every `count` lines.\"\"\"
    await trio.sleep(-(-len(lines_of(part)) // count))
";

pub(crate) const FIND: &[u8] = b"

def find(part, text):
    \"\"\"Shows the lines that contain the text.\"\"\"
    show_lines(line for line in lines_of(part) if text in line)
";

pub(crate) const HEAD: &[u8] = b"

def head(part, count):
    \"\"\"Shows the first `count` lines.\"\"\"
    show_lines(lines_of(part)[:count])
";

pub(crate) const LONGEST: &[u8] = b"

def longest(part):
    \"\"\"Shows the first of the longest lines, if there is a line.\"\"\"
    lines = lines_of(part)
    show_lines([max(lines, key=len)] if lines else [])
";

pub(crate) const NEED: &[u8] = b"

def need(part, text, error):
    \"\"\"Shows the first line that contains the text, or raises the error where there is none.\"\"\"
    found = [line for line in lines_of(part) if text in line]
    if not found:
        raise error
    show_lines(found[:1])
";

pub(crate) const OVER: &[u8] = b"

def over(part, count):
    \"\"\"Splits the part into `count` parts of about the same length, each of whole lines.\"\"\"
    cuts = [i * len(part) // count for i in range(count + 1)]
    cuts = [cut and (part.find(b\"\\n\", cut - 1) + 1 or len(part)) for cut in cuts]
    return [part[begin:end] for begin, end in zip(cuts, cuts[1:])]
";

pub(crate) const SHOW_LINES: &[u8] = b"

def show_lines(lines):
    \"\"\"Shows lines: they are printed with the task's outcome.\"\"\"
    current_note.get().lines.extend(lines)
";

// The lines that run the job and print the outcomes.
pub(crate) const HARNESS: &[u8] = b"

# What follows prints how each task ended. Real code doesn't need it: drop `@reported`, and let `trio.run` run the root task.

LIMIT = 1_000_000  # the last tick at which the root task may end


class Note:
    \"\"\"The record of a task: when it began and ended, and how, the lines that it showed, and the tasks that it started.\"\"\"

    def __init__(self, name, is_copy=False):
        self.name, self.is_copy = name[:-1] if name.endswith(\"_\") else name, is_copy
        self.begin, self.end, self.outcome = None, None, \"running\"
        self.lines, self.started = [], []


current_note = contextvars.ContextVar(\"current_note\")


def reported(task):
    \"\"\"Records each run of a task with the task that starts it. Each pass of a loop defines the task anew.\"\"\"
    runs = []
    current_note.get().started.append((task.__name__, runs))

    @functools.wraps(task)
    def noted(*arguments):
        note = Note(task.__name__, is_copy=len(arguments) > 0)
        runs.append(note)
        return run_noted(note, task, arguments)

    return noted


async def run_noted(note, task, arguments):
    \"\"\"Runs a task, and records when it began and ended, and how.\"\"\"
    current_note.set(note)
    note.begin = int(trio.current_time())
    try:
        await task(*arguments)
        note.outcome = \"done\"
    except BaseException as error:
        text = exception_text(error)
        note.outcome = \"cancelled\" if text == \"Cancelled\" else f\"raised {text}\"
        raise
    finally:
        note.end = int(trio.current_time())


def exception_text(error):
    \"\"\"An exception by its name, and a group by its parts, whose order is the scheduler's, so they are sorted.\"\"\"
    if isinstance(error, trio.Cancelled):
        return \"Cancelled\"
    if isinstance(error, trio.TooSlowError):
        return \"TooSlow\"
    if isinstance(error, trio.ClosedResourceError):
        return \"ClosedResource\"
    if not isinstance(error, BaseExceptionGroup):
        name = type(error).__name__
        return name[1:] if name.startswith(\"_\") else name
    parts = sorted(exception_text(part) for part in error.exceptions)
    # Newer versions of Trio make one `Cancelled` of several.
    return \"Cancelled\" if all(part == \"Cancelled\" for part in parts) else f\"[{', '.join(parts)}]\"


def rows_of(note, ticks, indices=()):
    \"\"\"A line for each task, in the order of their starts: with the ticks, or without them and with the lines that it showed.\"\"\"
    label = \".\".join([note.name, *indices])
    if not ticks:
        yield f\"task {label} {note.outcome}\"
        for line in note.lines:
            yield \"  line \" + line.decode(\"latin-1\").encode(\"unicode_escape\").decode()
    elif note.end is not None:
        yield f\"task {label} {note.begin} {note.end} {note.outcome}\"
    passes = collections.Counter(name for name, _ in note.started)
    numbers = collections.Counter()
    for name, runs in note.started:
        number = [str(numbers[name])] if passes[name] > 1 else []
        numbers[name] += 1
        for copy, child in enumerate(runs):
            yield from rows_of(child, ticks, [*indices, *number, *([str(copy)] if child.is_copy else [])])


async def run_watched(root, part, ticks, results):
    \"\"\"Runs the root task and reports how each task ended, or which tasks are unfinished at the limit.\"\"\"
    note = Note(root.__name__)

    async def watch():
        await trio.sleep(LIMIT)
        results.put([*rows_of(note, ticks), f\"limit {LIMIT}\"])
        watcher.cancel_scope.cancel()

    async with trio.open_nursery() as watcher:
        watcher.start_soon(watch)
        try:
            await run_noted(note, root, [part])
        except BaseException:
            pass  # it is recorded
        watcher.cancel_scope.cancel()
    results.put(list(rows_of(note, ticks)))


def run_once(root, part, seed=None, ticks=False):
    \"\"\"Runs the job under a seed of Trio's scheduler, if there is one, and returns how each task ended, as text.\"\"\"
    if seed is not None:
        trio._core._run._ALLOW_DETERMINISTIC_SCHEDULING = True
        trio._core._run._r.seed(seed)
    results = queue.SimpleQueue()

    def run():
        clock = trio.testing.MockClock(autojump_threshold=0)
        try:
            trio.run(run_watched, root, part, ticks, results, clock=clock, strict_exception_groups=True)
        finally:
            results.put([])

    # Nothing can end a task that waits forever inside a shield, so each run has a thread of its own, which may be left running.
    thread = threading.Thread(target=run, daemon=True)
    thread.start()
    rows = results.get()
    thread.join(0.1)
    return \"\\n\".join(rows)


def show_version():
    \"\"\"Prints to standard error under which Trio the job runs, with a warning if that is older than 0.23.\"\"\"
    print(f\"Trio {trio.__version__}\", file=sys.stderr)
    if [int(number) for number in trio.__version__.split(\".\")[:2]] < [0, 23]:
        warning = \"before Trio 0.23 the end of a nursery may add a `Cancelled` of its own to an exception group\"
        print(f\"warning: {warning}, so outcomes may differ from those of `nursery run`\", file=sys.stderr)


def run_program(root):
    \"\"\"Runs the job as often as the command line says.\"\"\"
    words = argparse.ArgumentParser(description=f\"Runs {root.__name__} under Trio's test clock.\")
    words.add_argument(\"input\", nargs=\"?\", metavar=\"INPUT\", help=\"the file whose lines the tasks work on\")
    words.add_argument(\"--ticks\", action=\"store_true\", help=\"print when each task started and ended, too, and no lines\")
    words.add_argument(\"--seeds\", type=int, metavar=\"N\", help=\"run it under N seeds of Trio's scheduler\")
    given = words.parse_args()
    show_version()
    part = pathlib.Path(given.input).read_bytes() if given.input else b\"\"
    if given.seeds is None:
        print(run_once(root, part, ticks=given.ticks))
        return
    outcomes = collections.Counter(run_once(root, part, seed, given.ticks) for seed in range(given.seeds))
    for outcome, times in outcomes.most_common():
        print(f\"{times} of {given.seeds} seeds:\\n{outcome}\\n\")
    print(f\"{given.seeds} seeds: {len(outcomes)} outcome{'s' if len(outcomes) != 1 else ''}\")


if __name__ == \"__main__\":
    run_program(";
