ghost use Rattle.std.specs.Prelude.{◌≡◌, ◌≤◌, length};
ghost use Rattle.std.specs.List.{prefix_len};
ghost use Rattle.job_tree.specs.Words.{is_digit, is_word_byte};

use job_tree::{is_digit, is_word_byte};

/// Returns the number of word bytes at the start of the bytes.
pub fn count_word_bytes(bytes: &[u8]) -> usize
    ensures within { result ≤ length bytes.now }
    ensures count { result ≡ prefix_len is_word_byte bytes.now }
{
    for (n, b) in bytes.iter().enumerate() {
        if !is_word_byte(*b) {
            return n;
        }
    }
    bytes.len()
}

/// Returns the number of digits at the start of the bytes.
pub fn count_digits(bytes: &[u8]) -> usize
    ensures within { result ≤ length bytes.now }
    ensures count { result ≡ prefix_len is_digit bytes.now }
{
    for (n, b) in bytes.iter().enumerate() {
        if !is_digit(*b) {
            return n;
        }
    }
    bytes.len()
}
