ghost use Rattle.std.specs.Prelude.{◌≡◌};
ghost use Rattle.commands.specs.Formats.{difference};

// Returns the first place at which two texts differ, in bytes from their start, or `None` if they are equal.
pub(crate) fn difference(one: &[u8], other: &[u8]) -> Option<usize>
    ensures { result ≡ difference one.now other.now }
{
    let mut place = 0;
    let mut left = one;
    let mut right = other;
    'bytes: while let Some((first, rest)) = left.split_first() {
        let Some((second, others)) = right.split_first() else {
            return Some(place);
        };
        if *first != *second {
            return Some(place);
        }
        place += 1;
        left = rest;
        right = others;
    }
    match right.split_first() {
        Some(_) => Some(place),
        None => None,
    }
}
