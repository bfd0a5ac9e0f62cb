ghost use Rattle.std.specs.Prelude.{◌≡◌, ◌↔◌, IsTrue, IsSome, IfSome};
ghost use Rattle.std.specs.List.{list_all};
ghost use Rattle.std.specs.Hash as fed;
ghost use Rattle.std.specs.Str.{bytes_eq};
ghost use Rattle.std.specs.Cmp.{partial_equiv_from_equiv};
ghost use Rattle.std.specs.Cmp.Lexicographic.{nat_list_eq_equiv};
ghost use Rattle.std.specs.Cmp.Rules.{hashing};
ghost use Rattle.std.proofs.Common.{rules};
ghost use Rattle.job_tree.specs.Words.{is_word, starts_word, is_word_byte};

use crate::room::pad;
use crate::word::{is_letter, is_word_byte};
use std::hash::{Hash, Hasher};
use std::marker::Model;

/// A word of a job text, used as the name of a job, task, scope, nursery or exception: a letter, then letters,
/// digits and `_`, 1 to 32 bytes in all. In contracts, it is the list of its bytes. A name may be a keyword here.
#[derive(Clone, Copy)]
pub struct Name {
    room: [u8; 32],
    len: u8,
}

impl Model for Name {
    ghost use Rattle.std.specs.Prelude.{List, ℕ, take, length};
    ghost use Rattle.job_tree.specs.Words.{is_word, in_room, IsKept, kept_again};

    ghost Value = { List ℕ };

    ghost view = { λ n. take n.len n.room };

    ghost invariant = { λ n. IsKept 32 is_word n.room n.len };

    ghost inverse = { λ bytes. record { room = in_room 32 bytes; len = length bytes } };

    ghost inverse_ok = { λ a kept. kept_again (λ room len. record { room = room; len = len }) 32 is_word a.room a.len kept };
}

impl Name {
    /// Returns the name with these bytes, or `None` if they are not a word.
    pub fn new(text: &[u8]) -> Option<Name>
        ensures word { IsSome result ↔ IsTrue (is_word text.now) }
        ensures value { IfSome result (λ name. name ≡ text.now) }
    {
        if !is_word_text(text) {
            return None;
        }
        Some(Name {
            room: pad(text),
            len: text.len() as u8,
        })
    }

    /// Returns the bytes of the name.
    pub fn bytes(&self) -> &[u8]
        ensures { result.now ≡ self.now }
    {
        &self.room[..self.len as usize]
    }
}

impl PartialEq for Name {
    ghost eq = { bytes_eq };

    ghost laws = { partial_equiv_from_equiv nat_list_eq_equiv };

    fn eq(&self, other: &Name) -> bool {
        self.bytes() == other.bytes()
    }
}

impl Eq for Name {
    ghost laws = { nat_list_eq_equiv };
}

impl Hash for Name {
    ghost hash_input = { fed.slice fed.u8 };

    ghost respects_eq = { Prim.search (hashing, rules) };

    fn hash<H: Hasher>(&self, state: &mut H) {
        self.bytes().hash(state);
    }
}

// Returns whether these bytes are a word.
fn is_word_text(text: &[u8]) -> bool
    ensures { result ≡ is_word text.now }
{
    starts_word_text(text) && are_word_bytes(text) && text.len() <= 32
}

fn starts_word_text(text: &[u8]) -> bool
    ensures { result ≡ starts_word text.now }
{
    match text.split_first() {
        Some((first, _)) => is_letter(*first),
        None => false,
    }
}

fn are_word_bytes(text: &[u8]) -> bool
    ensures { result ≡ list_all is_word_byte text.now }
{
    text.iter().all(|b| is_word_byte(*b))
}
