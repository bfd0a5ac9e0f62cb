ghost use Rattle.std.specs.Prelude.{◌≡◌, ◌≤◌};
ghost use Rattle.job_tokens.specs.Shapes.{mark_in};
ghost use Rattle.job_syntax.specs.Depth.{depth_fault, depth_after};

use job_tokens::{Mark, Shape, Token};

/// The maximum depth of nested blocks. The block of the job itself has depth 1.
pub const MAX_DEPTH: usize = 32;

/// Returns the place of the first `{` at which more than 32 blocks are open, including its own, or `None` if there
/// is none.
pub fn depth_fault(tokens: &[Token]) -> Option<usize>
    ensures { result ≡ depth_fault 0 tokens.now }
{
    let mut depth = 0;
    for token in tokens {
        depth = depth_after(depth, token.shape);
        if depth > MAX_DEPTH {
            return Some(token.at);
        }
    }
    None
}

// Returns how many blocks are open after a token, if `depth` blocks are open before it.
fn depth_after(depth: usize, shape: Shape) -> usize
    requires { depth ≤ 32 }
    ensures { result ≡ depth_after depth (mark_in shape) }
{
    match shape.mark() {
        Some(Mark::Open) => depth + 1,
        Some(Mark::Close) => depth.saturating_sub(1),
        _ => depth,
    }
}
