//! `job_tree`: which bytes are names and strings, what names, strings and blocks keep, and what the formats allow.

use crate::fixtures::{word, wrong};
use job_tree::{Body, Format, Name, Step, Text, is_digit, is_letter, is_word_byte};
use std::alloc::{AllocError, Global};
use std::test::Fail;

// Bytes, and whether they are a name.
const WORDS: &[(&'static [u8], bool)] = &[
    (b"a_1", true),
    (b"job", true),
    (b"aaaaaaaaaaaaaaaaaaaaaaaaaaaaaaaa", true),
    (b"aaaaaaaaaaaaaaaaaaaaaaaaaaaaaaaaa", false),
    (b"9a", false),
    (b"_a", false),
    (b"", false),
];

#[test]
fn words_are_names() -> Result<(), Fail> {
    for i in 0..WORDS.len() {
        let (text, is_name) = WORDS[i];
        if Name::new(text).is_some() != is_name {
            return Err(wrong(i));
        }
    }
    Ok(())
}

// A byte, and whether it is a letter, a digit and a byte of words.
const BYTES: &[(u8, bool, bool, bool)] = &[
    (b'a', true, false, true),
    (b'Z', true, false, true),
    (b'0', false, true, true),
    (b'_', false, false, true),
    (b'[', false, false, false),
    (b':', false, false, false),
    (0xe4, false, false, false),
];

#[test]
fn letters_digits_and_underscores_are_word_bytes() -> Result<(), Fail> {
    for i in 0..BYTES.len() {
        let (byte, letter, digit, in_word) = BYTES[i];
        if is_letter(byte) != letter || is_digit(byte) != digit || is_word_byte(byte) != in_word {
            return Err(wrong(i));
        }
    }
    Ok(())
}

// Whether names and strings keep their bytes, and names are equal if their bytes are.
fn keep_bytes() -> Result<bool, Fail> {
    let first = word(b"a_1")?;
    let text = Text::new(b"\x00\\\xff").ok_or("a string")?;
    let is_kept = first.bytes() == b"a_1".as_slice() && text.bytes() == b"\x00\\\xff".as_slice();
    Ok(is_kept && Name::new(b"a_1") == Some(first) && Name::new(b"a_2") != Some(first))
}

#[test]
fn names_and_texts_keep_their_bytes(rt: HostRuntime) -> Result<(), Fail> {
    assert!(rt; keep_bytes()?);
    Ok(())
}

// The number of bytes of a string, and whether it is a text.
const LENGTHS: &[(usize, bool)] = &[(0, false), (1, true), (64, true), (65, false)];

#[test]
fn strings_have_1_to_64_bytes() -> Result<(), Fail> {
    let bytes = [b'a'; 65];
    for i in 0..LENGTHS.len() {
        let (length, is_text) = LENGTHS[i];
        let Some(text) = bytes.get(..length) else {
            return Err(wrong(i));
        };
        if Text::new(text).is_some() != is_text {
            return Err(wrong(i));
        }
    }
    Ok(())
}

// A block of two steps.
fn two_steps(alloc: Global) -> Result<Body, AllocError> {
    let mut steps = Vec::new(alloc);
    steps.push(Step::Sleep(1))?;
    steps.push(Step::Sleep(2))?;
    Ok(Body::new(steps))
}

#[test]
fn blocks_keep_their_steps(rt: HostRuntime) -> Result<(), Fail> {
    let body = two_steps(rt.alloc())?;
    assert!(rt; body.as_slice().len() == 2);
    assert!(rt; body.into_vec().len() == 2);
    Ok(())
}

#[test]
fn each_format_has_its_number_and_maximum_size(rt: HostRuntime) {
    assert!(rt; Format::One.number() == 1 && Format::One.most_steps() == 100_000);
    assert!(rt; Format::Two.number() == 2 && Format::Two.most_steps() == 1_000_000);
    assert!(rt; Format::Three.number() == 3 && Format::Three.most_steps() == 1_000_000);
}

#[test]
fn formats_2_and_3_extend_format_1(rt: HostRuntime) {
    assert!(rt; !Format::One.extends_format_1());
    assert!(rt; Format::Two.extends_format_1() && Format::Three.extends_format_1());
    assert!(rt; Format::One.newer(Format::Two) == Format::Two);
    assert!(rt; Format::Three.newer(Format::Two) == Format::Three);
    assert!(rt; Format::Two.newer(Format::Two) == Format::Two);
}
