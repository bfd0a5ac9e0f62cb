ghost use Rattle.std.specs.Prelude.{◌≡◌, length, drop, ◌≤◌};
ghost use Rattle.basics.specs.Feed.{feed_parts, begins_with_mark, ends_line};

/// Splits a feed at the first line that is exactly `%input`. Returns the bytes before that line, and those after
/// it; if there is no such line, all bytes and none.
pub fn split_feed(feed: &[u8]) -> (&[u8], &[u8])
    ensures { (result.0.now, result.1.now) ≡ feed_parts feed.now }
{
    let mut starts = true;
    'bytes: for (i, b) in feed.iter().enumerate() {
        let (job, rest) = feed.split_at(i);
        if starts && has_mark(rest) {
            return (job, after_mark(rest));
        }
        starts = *b == b'\n';
    }
    (feed, &[])
}

// Returns whether the first line is the `%input` mark.
fn has_mark(bytes: &[u8]) -> bool
    ensures { result ≡ begins_with_mark bytes.now }
{
    bytes.starts_with(b"%input") && is_line_end(bytes)
}

// Returns whether a line of six bytes ends here.
fn is_line_end(bytes: &[u8]) -> bool
    requires { 6 ≤ length bytes.now }
    ensures { result ≡ ends_line (drop 6 bytes.now) }
{
    let (_, rest) = bytes.split_at(6);
    match rest.split_first() {
        Some((b, _)) => *b == b'\n',
        None => true,
    }
}

// Returns the bytes after the mark and its newline.
fn after_mark(bytes: &[u8]) -> &[u8]
    ensures { result.now ≡ drop 7 bytes.now }
{
    if bytes.len() < 7 {
        return &[];
    }
    let (_, rest) = bytes.split_at(7);
    rest
}
