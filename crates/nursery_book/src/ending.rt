ghost use Rattle.std.specs.Prelude.{◌≡◌, ◌++◌, ◌+◌, ◌<◌, ◌≤◌, [], is_some, map, vec_len, vec_capacity, option_to_list};
ghost use Rattle.exceptions.specs.Held.{excs_of};
ghost use Rattle.exceptions.specs.Exceptions.{parts_of};
ghost use Rattle.nursery_book.specs.Nursery.{with_exc, excs_in};
ghost use Rattle.nursery_book.specs.Ends.{end_of, exc_held};

use exceptions::Exc;

/// Whether a member of a nursery runs, or how it ended.
#[derive(Drop)]
pub(crate) enum MemberEnd {
    /// The member runs.
    Running,
    /// The member ended, with this exception, or without one.
    Ended(Option<Exc>),
}

impl MemberEnd {
    // Returns whether the member has ended.
    pub(crate) fn is_over(&self) -> bool
        ensures { result ≡ is_some (end_of self.now) }
    {
        matches!(self, MemberEnd::Ended(_))
    }
}

// Returns the exceptions of the members in `room`, which has space for them: that of the body first, and then those of the
// children in order.
pub(crate) fn member_excs(room: Vec<Exc>, body: MemberEnd, children: Vec<MemberEnd>) -> Vec<Exc>
    requires empty { room.items ≡ [] }
    requires fits { vec_len children + 1 ≤ vec_capacity room }
    ensures { excs_of result.items ≡ parts_of (with_exc (end_of body) (excs_in (map end_of children.items))) }
{
    let mut excs = room;
    push_exc(&mut excs, body);
    'children: for child in children {
        push_exc(&mut excs, child);
    }
    excs
}

// Appends the member's exception, if it ended with one.
fn push_exc(excs: &mut Vec<Exc>, member: MemberEnd)
    requires { vec_len excs.old < vec_capacity excs.old }
    ensures items { excs.new.items ≡ excs.old.items ++ option_to_list (exc_held member) }
    ensures len { vec_len excs.new ≤ vec_len excs.old + 1 }
    ensures capacity { vec_capacity excs.new ≡ vec_capacity excs.old }
{
    if let MemberEnd::Ended(Some(exc)) = member {
        excs.push_reserved(exc);
    }
}
