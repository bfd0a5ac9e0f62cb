//! `job_tokens`: the places of tokens, where no token can be read, and what a shape is.

use crate::fixtures::{same, wrong};
use job_tokens::{Mark, Shape, Token, lex, push_canon};
use job_tree::Format;
use std::alloc::{AllocError, Global};
use std::test::Fail;

// The places of tokens.
fn places(alloc: Global, tokens: &[Token]) -> Result<Vec<usize>, AllocError> {
    let mut places = Vec::new(alloc);
    for token in tokens {
        places.push(token.at)?;
    }
    Ok(places)
}

// Whether tokens have these places.
fn are_at(alloc: Global, tokens: &[Token], expected: &[usize]) -> Result<bool, AllocError> {
    let found = places(alloc, tokens)?;
    Ok(found.as_slice() == expected)
}

// The canonical text of tokens.
fn canonical_text(alloc: Global, tokens: &[Token]) -> Result<Vec<u8>, AllocError> {
    let mut shapes = Vec::new(alloc);
    for token in tokens {
        shapes.push(token.shape)?;
    }
    let mut text = Vec::new(alloc);
    push_canon(&mut text, shapes.as_slice())?;
    Ok(text)
}

#[test]
fn tokens_have_their_places(rt: HostRuntime) -> Result<(), Fail> {
    let lexed = lex(rt.alloc(), Format::One, b"find  \"er\";\n{ 7", 26)?;
    assert!(rt; lexed.fault == None);
    assert!(rt; are_at(rt.alloc(), lexed.tokens.as_slice(), &[11, 17, 21, 23, 25])?);
    let text = canonical_text(rt.alloc(), lexed.tokens.as_slice())?;
    same(text.as_slice(), b"find\"er\";{7")
}

// Bytes in a format, how many tokens can be read, and the place where no other can.
const ENDS: &[(Format, &'static [u8], usize, Option<usize>)] = &[
    (Format::One, b"find #", 1, Some(5)),
    (Format::Two, b"find # x", 1, Some(5)),
    (Format::Three, b"find # x", 1, None),
    (Format::Three, b"find#a\n \"#\" # { }\n;", 3, None),
    (Format::Three, b"# a\n#", 0, None),
    (Format::One, b"7a", 0, Some(0)),
    (Format::One, b"{ \"a", 1, Some(2)),
    (Format::One, b"", 0, None),
];

// How many tokens can be read, and the place where no other can.
fn end(alloc: Global, format: Format, bytes: &[u8]) -> Result<(usize, Option<usize>), AllocError> {
    let lexed = lex(alloc, format, bytes, bytes.len())?;
    Ok((lexed.tokens.len(), lexed.fault))
}

// Fails at the first row with another end.
fn ends_are_right(alloc: Global) -> Result<(), Fail> {
    for i in 0..ENDS.len() {
        let (format, bytes, tokens, fault) = ENDS[i];
        let (read, place) = end(alloc, format, bytes)?;
        if read != tokens || place != fault {
            return Err(wrong(i));
        }
    }
    Ok(())
}

#[test]
fn tokens_end_where_none_can_be_read(rt: HostRuntime) -> Result<(), Fail> {
    ends_are_right(rt.alloc())
}

#[test]
fn a_shape_returns_what_it_is(rt: HostRuntime) {
    let number = Shape::Number(Some(7));
    assert!(rt; number.number() == Some(7));
    assert!(rt; number.word().is_none() && number.text().is_none());
    assert!(rt; number.mark() == None);
    assert!(rt; Shape::Mark(Mark::Open).mark() == Some(Mark::Open));
}
