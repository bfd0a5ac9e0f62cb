ghost use Rattle.std.specs.Prelude.{◌≡◌};
ghost use Rattle.job_reader.specs.Targets.{kind_asked, kind_opened, is_same};

use job_tree::{Ask, ObjectKind};

/// What a step uses by a name: each step that uses a name uses one kind of them.
#[derive(Clone, Copy, Debug, PartialEq, Eq)]
pub enum TargetKind {
    /// A scope or a nursery, which a `cancel` uses.
    Scope,
    /// An event, which `set` and `wait` use.
    Event,
    /// A limiter, which an `acquire` uses.
    Limiter,
    /// A channel, which `send`, `receive` and `close` use.
    Channel,
}

impl TargetKind {
    /// Returns what a step uses that asks for this.
    pub fn asked(ask: Ask) -> TargetKind
        ensures { result ≡ kind_asked ask }
    {
        match ask {
            Ask::Acquire => TargetKind::Limiter,
            Ask::Send => TargetKind::Channel,
            Ask::Receive => TargetKind::Channel,
        }
    }

    /// Returns which of these a limiter or a channel is.
    pub fn opened(kind: ObjectKind) -> TargetKind
        ensures { result ≡ kind_opened kind }
    {
        match kind {
            ObjectKind::Limiter(_) => TargetKind::Limiter,
            ObjectKind::Channel(_) => TargetKind::Channel,
        }
    }

    /// Returns whether both are the same.
    pub fn is_same(self, other: TargetKind) -> bool
        ensures { result ≡ is_same self other }
    {
        self == other
    }
}
