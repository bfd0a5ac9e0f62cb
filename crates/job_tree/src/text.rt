ghost use Rattle.std.specs.Prelude.{◌≡◌, ◌↔◌, IsTrue, IsSome, IfSome};
ghost use Rattle.job_tree.specs.Words.{is_text};

use crate::room::pad;
use std::marker::Model;

/// A string of a job text, without its quotes and escapes: 1 to 64 bytes of any kind. In contracts, it is the list of
/// its bytes.
#[derive(Clone, Copy)]
pub struct Text {
    room: [u8; 64],
    len: u8,
}

impl Model for Text {
    ghost use Rattle.std.specs.Prelude.{List, ℕ, take, length};
    ghost use Rattle.job_tree.specs.Words.{is_text, in_room, IsKept, kept_again};

    ghost Value = { List ℕ };

    ghost view = { λ n. take n.len n.room };

    ghost invariant = { λ n. IsKept 64 is_text n.room n.len };

    ghost inverse = { λ bytes. record { room = in_room 64 bytes; len = length bytes } };

    ghost inverse_ok = { λ a kept. kept_again (λ room len. record { room = room; len = len }) 64 is_text a.room a.len kept };
}

impl Text {
    /// Returns the string with these bytes, or `None` if there are no bytes or more than 64.
    pub fn new(bytes: &[u8]) -> Option<Text>
        ensures fits { IsSome result ↔ IsTrue (is_text bytes.now) }
        ensures value { IfSome result (λ text. text ≡ bytes.now) }
    {
        if bytes.is_empty() || bytes.len() > 64 {
            return None;
        }
        Some(Text {
            room: pad(bytes),
            len: bytes.len() as u8,
        })
    }

    /// Returns the bytes of the string.
    pub fn bytes(&self) -> &[u8]
        ensures { result.now ≡ self.now }
    {
        &self.room[..self.len as usize]
    }
}
