ghost use Rattle.std.specs.Prelude.{◌≡◌, Some};
ghost use Rattle.std.specs.Option.{option_map};
ghost use Rattle.job_story.specs.Notes.{queue_note, token_note};
ghost use Rattle.job_story.specs.Notes as notes;
ghost use Rattle.story_waits.specs.Groups.{labels_in};
ghost use Rattle.job_tree.specs.declared.object.Ask.TheVariants.{Acquire};
ghost use Rattle.job_tree.specs.declared.object.ObjectKind.TheVariants as kinds;
ghost use Rattle.std.specs.List.{slice_get};
ghost use Rattle.story_waits.specs.Noted.{note_in};

use exceptions::Label;
use job_tree::{Ask, ObjectKind};

/// What a story says of other tasks in an event of a task that asks something of a limiter or channel.
#[derive(Clone, Copy)]
pub enum Note<'e> {
    /// The task waits for a token, since no token is free.
    AllInUse {
        /// How many tokens the limiter has.
        tokens: u64,
        /// The place of the task in the queue, from 1.
        place: usize,
    },
    /// The task waits to send, since the buffer has no room.
    NoRoom {
        /// The place of the task in the queue of those who send, from 1.
        place: usize,
    },
    /// The task waits to receive, since there is nothing to receive.
    NothingThere {
        /// The place of the task in the queue of those who receive, from 1.
        place: usize,
    },
    /// The task gets the token that this task gave back.
    GivenBackBy(&'e Label),
    /// The task receives what this task sent.
    SentBy(&'e Label),
    /// The task finds the channel closed, which this task closed first.
    ClosedBy(&'e Label),
}

impl<'e> Note<'e> {
    // Returns what is said of a task that joins a queue, in this place, of a limiter or channel of this kind.
    pub(crate) fn of_queue(ask: Ask, kind: Option<ObjectKind>, place: usize) -> Option<Note<'e>>
        ensures { option_map note_in result ≡ queue_note ask kind place }
    {
        match ask {
            Ask::Acquire => Note::of_token_queue(kind, place),
            Ask::Send => Some(Note::NoRoom { place }),
            Ask::Receive => Some(Note::NothingThere { place }),
        }
    }

    // Returns what is said of a task that waits for a token.
    fn of_token_queue(kind: Option<ObjectKind>, place: usize) -> Option<Note<'e>>
        ensures { option_map note_in result ≡ queue_note Acquire kind place }
    {
        match kind {
            Some(ObjectKind::Limiter(tokens)) => Some(Note::AllInUse { tokens, place }),
            _ => None,
        }
    }

    // Returns what is said of a task that waited for a token, and gets it with this number, where these tasks gave tokens back.
    pub(crate) fn of_token(
        kind: Option<ObjectKind>,
        number: usize,
        givers: &[&'e Label],
    ) -> Option<Note<'e>>
        ensures { option_map note_in result ≡ token_note kind number (labels_in givers.now) }
    {
        match kind {
            Some(ObjectKind::Limiter(tokens)) => given_back(tokens, number, givers),
            _ => None,
        }
    }

    // Returns what is said of a task that receives the part with this number, where these tasks sent the parts.
    pub(crate) fn of_part(number: usize, senders: &[&'e Label]) -> Option<Note<'e>>
        ensures { option_map note_in result ≡ option_map notes.sent_by (slice_get (labels_in senders.now) number) }
    {
        let Some(task) = senders.get(number) else {
            return None;
        };
        Some(Note::SentBy(*task))
    }

    // Returns what is said of a task that finds a channel closed, where these tasks closed it.
    pub(crate) fn of_closed(closers: &[&'e Label]) -> Option<Note<'e>>
        ensures { option_map note_in result ≡ option_map notes.closed_by (slice_get (labels_in closers.now) 0) }
    {
        let Some(task) = closers.first() else {
            return None;
        };
        Some(Note::ClosedBy(*task))
    }
}

// Returns what is said of a task that gets the token with this number of a limiter with so many tokens.
fn given_back<'e>(tokens: u64, number: usize, givers: &[&'e Label]) -> Option<Note<'e>>
    ensures { option_map note_in result ≡ token_note (Some (kinds.Limiter tokens)) number (labels_in givers.now) }
{
    let number = number as u64;
    if number < tokens {
        return None;
    }
    let Some(task) = givers.get((number - tokens) as usize) else {
        return None;
    };
    Some(Note::GivenBackBy(*task))
}
