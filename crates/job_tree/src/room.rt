ghost use Rattle.std.specs.Prelude.{◌≡◌, ◌≤◌, length};
ghost use Rattle.job_tree.specs.Words.{in_room};

/// Returns the text followed by zeros, `N` bytes in all.
pub fn pad<const N: usize>(text: &[u8]) -> [u8; N]
    requires { length text.now ≤ N }
    ensures { result ≡ in_room N text.now }
{
    let mut bytes = [0u8; N];
    bytes[..text.len()].copy_from_slice(text);
    bytes
}
