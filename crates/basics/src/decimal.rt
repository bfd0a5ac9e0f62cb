ghost use Rattle.std.specs.Prelude.{◌≡◌, ◌≤◌, ◌++◌, OnOk, length, decimal, string_bytes};

use itoa::Buffer;
use std::alloc::AllocError;

/// Appends a number in decimal digits, without leading zeros. Returns `AllocError` if memory runs out.
pub fn push_number(out: &mut Vec<u8>, n: u64) -> Result<(), AllocError>
    ensures { OnOk result (out.new.items ≡ out.old.items ++ decimal n) }
{
    let mut buffer = Buffer::new();
    out.extend_from_slice(buffer.format(n).as_bytes())
}

/// Appends a number in decimal digits, without leading zeros, to a string. Returns `AllocError` if memory runs out.
pub fn push_str_number(text: &mut String, n: u64) -> Result<(), AllocError>
    ensures { OnOk result (string_bytes text.new ≡ string_bytes text.old ++ decimal n) }
{
    let mut buffer = Buffer::new();
    text.push_str(buffer.format(n))
}

/// Returns how many decimal digits a number has: 1 to 20.
pub fn digit_count(n: u64) -> usize
    ensures value { result ≡ length (decimal n) }
    ensures small { result ≤ 20 }
{
    let mut buffer = Buffer::new();
    buffer.format(n).len()
}
