ghost use Rattle.std.specs.Prelude.{◌≡◌, codes};

use job_tree::Name;

/// Returns `ClosedResource`, the name of the exception that a task raises which sends to a closed channel.
pub fn closed_resource() -> Name
    ensures { result ≡ codes "ClosedResource" }
{
    match Name::new(b"ClosedResource") {
        Some(name) => name,
        None => unreachable!(),
    }
}

/// Returns `EndOfChannel`, the name of the exception that a task raises which receives from a closed channel in which nothing is left.
pub fn end_of_channel() -> Name
    ensures { result ≡ codes "EndOfChannel" }
{
    match Name::new(b"EndOfChannel") {
        Some(name) => name,
        None => unreachable!(),
    }
}

/// Returns `Deadlock`, the name of the exception that a task raises which has waited for a limiter or channel as long as `forever`.
pub fn deadlock() -> Name
    ensures { result ≡ codes "Deadlock" }
{
    match Name::new(b"Deadlock") {
        Some(name) => name,
        None => unreachable!(),
    }
}
