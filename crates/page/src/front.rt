ghost use Rattle.std.specs.Prelude.{◌≡◌, ◌≤◌, length};
ghost use Rattle.page.specs.Fronts.{is_of, front_length, front, after_front};

/// A kind of bytes with which a text can begin.
#[derive(Clone, Copy, Debug, PartialEq, Eq)]
pub enum ByteKind {
    /// A space.
    Blank,
    /// A decimal digit.
    Digit,
    /// Any byte but a space.
    Dark,
    /// A byte that can belong to a name in a sentence: no space, and no mark that can follow a name.
    NameByte,
}

impl ByteKind {
    // Returns whether a byte is of this kind.
    fn has(self, byte: u8) -> bool
        ensures { result ≡ is_of self byte }
    {
        match self {
            ByteKind::Blank => byte == b' ',
            ByteKind::Digit => b'0' <= byte && byte <= b'9',
            ByteKind::Dark => byte != b' ',
            ByteKind::NameByte => {
                !matches!(byte, b' ' | b'.' | b':' | b';' | b',' | b'[' | b'(' | b')')
            }
        }
    }
}

// Returns how many bytes of a kind a text begins with.
fn front_length(kind: ByteKind, bytes: &[u8]) -> usize
    ensures value { result ≡ front_length kind bytes.now }
    ensures bound { result ≤ length bytes.now }
{
    let mut rest = bytes;
    'bytes: while let Some((byte, others)) = rest.split_first() {
        if !kind.has(*byte) {
            break;
        }
        rest = others;
    }
    bytes.len() - rest.len()
}

// Returns the bytes of a kind with which a text begins, and what follows them.
pub(crate) fn split_front(kind: ByteKind, bytes: &[u8]) -> (&[u8], &[u8])
    ensures front { result.0.now ≡ front kind bytes.now }
    ensures after { result.1.now ≡ after_front kind bytes.now }
{
    bytes.split_at(front_length(kind, bytes))
}
