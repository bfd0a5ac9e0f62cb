ghost use Rattle.std.specs.Prelude.{◌≡◌, ◌+◌, ◌≤◌, ◌<◌, ◌==◌, if◌then◌else◌, length, map, slice_range, count_by};
ghost use Rattle.input_lines.specs.declared.newlines.TheConstants.{RUN};

use std::simd::prelude::*;

// The number of bytes of a run: 255 blocks of 64 bytes, so that a lane of 8 bits counts the newlines of its place in each.
pub(crate) const RUN: usize = 16_320;

// Returns how many newlines there are in the bytes.
pub(crate) fn newline_count(bytes: &[u8]) -> u64
    ensures { result ≡ count_by (λ b. b == 10) bytes.now }
{
    let mut count = 0;
    let mut at = 0;
    'runs: while RUN <= bytes.len() - at {
        count += u64::from(newlines_in_run(bytes, at));
        at += RUN;
    }
    count + newlines_by_block(&bytes[at..])
}

// Returns the number of newlines in the run from a place on. A lane counts to at most 255.
fn newlines_in_run(bytes: &[u8], at: usize) -> u16
    requires { at + RUN ≤ length bytes.now }
    ensures { result ≡ count_by (λ b. b == 10) (slice_range bytes.now at (at + RUN)) }
{
    let mut lanes = u8x64::splat(0);
    let mut seen = 0;
    'blocks: while seen < 255 {
        lanes = lanes.strict_add(newline_lanes(bytes, at + 64 * seen));
        seen += 1;
    }
    lanes.cast::<u16>().strict_reduce_sum()
}

// Returns for each of the 64 bytes from a place on 1 if it is a newline, and 0 otherwise.
#[inline(always)]
fn newline_lanes(bytes: &[u8], at: usize) -> u8x64
    requires { at + 64 ≤ length bytes.now }
    ensures { result ≡ map (λ b. if b == 10 then 1 else 0) (slice_range bytes.now at (at + 64)) }
{
    u8x64::from_slice(&bytes[at..])
        .simd_eq(u8x64::splat(b'\n'))
        .select(u8x64::splat(1), u8x64::splat(0))
}

// Returns the number of newlines in the bytes that are left after the runs.
fn newlines_by_block(bytes: &[u8]) -> u64
    ensures { result ≡ count_by (λ b. b == 10) bytes.now }
{
    let mut count = 0;
    let mut at = 0;
    'blocks: while 64 <= bytes.len() - at {
        count += u64::from(newlines_in_block(bytes, at));
        at += 64;
    }
    count + newlines_one_by_one(&bytes[at..])
}

// Returns the number of newlines in the 64 bytes from a place on.
#[inline(always)]
fn newlines_in_block(bytes: &[u8], at: usize) -> u32
    requires { at + 64 ≤ length bytes.now }
    ensures { result ≡ count_by (λ b. b == 10) (slice_range bytes.now at (at + 64)) }
{
    u8x64::from_slice(&bytes[at..])
        .simd_eq(u8x64::splat(b'\n'))
        .to_bitmask()
        .count_ones()
}

// Returns the number of newlines in fewer than 64 bytes.
fn newlines_one_by_one(bytes: &[u8]) -> u64
    requires { length bytes.now < 64 }
    ensures { result ≡ count_by (λ b. b == 10) bytes.now }
{
    let mut count = 0;
    for byte in bytes {
        if *byte == b'\n' {
            count += 1;
        }
    }
    count
}
