//! The grammar of the whole language, over tokens: which tokens a job text may have, the place at which they leave the
//! grammar, the role of each token, the depth of nested blocks, the ranges of the numbers, and the tree of a job.
//!
//! `check_grammar` finds exactly the first token that no text of the grammar continues with. If there is none, the tokens are
//! those of a job, and each has its role. `job_at` reads a job back from its tokens, if its blocks are nested at most
//! 32 deep. The crate uses `job_tokens` and `job_tree`.
#![tactic(auto)]

mod checked;
mod depth;
mod keyword;
mod nonterminal;
mod range;
mod role;
mod tree;

pub use checked::{GrammarCheck, check_grammar};
pub use depth::{MAX_DEPTH, depth_fault};
pub use keyword::{Keyword, is_kept};
pub use nonterminal::Nonterminal;
pub use range::{number_fault, object_named};
pub use role::Role;
pub use tree::job_at;
