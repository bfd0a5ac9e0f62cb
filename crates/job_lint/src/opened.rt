ghost use Rattle.std.specs.Prelude.{◌≡◌};
ghost use Rattle.job_reader.specs.Given.{is_among};
ghost use Rattle.job_lint.specs.Opened.{names_opened};

use job_tree::Name;

// The scopes and nurseries that enclose a step and are in the innermost cleanup or handler around it, the innermost first: all
// that enclose it, if there is neither.
#[derive(Clone, Copy)]
pub(crate) enum Opened<'a> {
    Nothing,
    Block(&'a Name, &'a Opened<'a>),
}

// Returns whether one of these has the name.
pub(crate) fn is_opened(name: &Name, opened: &Opened) -> bool
    ensures { result ≡ is_among (names_opened opened.now) name.now }
{
    match opened {
        Opened::Nothing => false,
        Opened::Block(inner, outer) => name == *inner || is_opened(name, outer),
    }
}
