ghost use Rattle.std.specs.Prelude.{◌≡◌, ◌<◌, length};
ghost use Rattle.std.specs.Option.{option_map};
ghost use Rattle.cli.specs.Cuts.{cut_at, halves_of, number_in};

// Returns what is before the first place at which a mark stands in a text, and what is after the mark, or `None` if it stands
// nowhere.
pub(crate) fn cut_at<'a>(text: &'a str, mark: &str) -> Option<(&'a str, &'a str)>
    requires { 0 < length mark.now }
    ensures { option_map halves_of result ≡ cut_at mark.now text.now }
{
    text.split_once(mark)
}

// Returns the number below 2^32 that a word spells.
pub(crate) fn short_number(word: &str) -> Option<u32>
    ensures { result ≡ number_in 32 word.now }
{
    word.parse::<u32>().ok()
}

// Returns the number below 2^64 that a word spells.
pub(crate) fn long_number(word: &str) -> Option<usize>
    ensures { result ≡ number_in 64 word.now }
{
    word.parse::<usize>().ok()
}
