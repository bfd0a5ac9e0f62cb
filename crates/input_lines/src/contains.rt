ghost use Rattle.std.specs.Prelude.{◌≡◌};
ghost use Rattle.input_lines.specs.Kernels.{contains};

use memchr::memmem;

// Returns whether a string occurs in the bytes. The empty string occurs in all bytes.
pub(crate) fn contains(bytes: &[u8], needle: &[u8]) -> bool
    ensures { result ≡ contains needle.now bytes.now }
{
    memmem::find(bytes, needle).is_some()
}
