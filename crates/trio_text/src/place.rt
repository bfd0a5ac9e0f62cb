ghost use Rattle.std.specs.Prelude.{◌≡◌};
ghost use Rattle.trio_text.specs.Lines.{deeper};

use job_tree::Name;

// The maximum number of blocks that may enclose a block in one function of the program. Python allows 20, and a `try` with all
// its parts takes four of them. Some versions of Python crash near that limit, so a few are left free.
const MAX_BLOCKS: usize = 12;

// The maximum depth of nested `finally` blocks. Python compiles each `finally` twice, so one inside another four times, and so
// on.
const MAX_CLEANUPS: usize = 3;

// Where a block of the program is.
#[derive(Clone, Copy)]
pub(crate) struct Place {
    // The indentation of its lines, in levels.
    pub level: usize,
    // How many blocks of its function enclose it.
    pub blocks: usize,
    // How many `finally` blocks enclose it directly, without a function of their own.
    pub cleanups: usize,
    // The nursery in whose body the block is, for a `start` directly in it or in a `repeat` there.
    pub nursery: Name,
}

impl Place {
    // Returns the place of the root task's block. It is in no nursery, so no `start` is directly in it.
    pub(crate) fn root(job: Name) -> Place
        ensures level { result.level ≡ 1 }
        ensures nursery { result.nursery ≡ job }
    {
        Place {
            level: 1,
            blocks: 0,
            cleanups: 0,
            nursery: job,
        }
    }

    // Returns the place of a block inside this one that has the given number of enclosing blocks more.
    pub(crate) fn inside(&self, blocks: usize) -> Place
        ensures level { result.level ≡ deeper self.now.level }
        ensures nursery { result.nursery ≡ self.now.nursery }
    {
        Place {
            level: deeper(self.level),
            blocks: self.blocks.saturating_add(blocks),
            cleanups: self.cleanups,
            nursery: self.nursery,
        }
    }

    // Returns the place of the block of a nursery inside this one.
    pub(crate) fn in_nursery(&self, nursery: Name) -> Place
        ensures level { result.level ≡ deeper self.now.level }
        ensures nursery { result.nursery ≡ nursery }
    {
        Place {
            level: deeper(self.level),
            blocks: self.blocks.saturating_add(1),
            cleanups: self.cleanups,
            nursery,
        }
    }

    // Returns the place of the block of a function inside this one.
    pub(crate) fn in_function(&self) -> Place
        ensures level { result.level ≡ deeper self.now.level }
        ensures nursery { result.nursery ≡ self.now.nursery }
    {
        Place {
            level: deeper(self.level),
            blocks: 0,
            cleanups: self.cleanups,
            nursery: self.nursery,
        }
    }

    // Returns the place of the block of a cleanup inside this one.
    pub(crate) fn in_cleanup(&self) -> Place
        ensures level { result.level ≡ deeper self.now.level }
        ensures nursery { result.nursery ≡ self.now.nursery }
    {
        Place {
            level: deeper(self.level),
            blocks: self.blocks.saturating_add(1),
            cleanups: self.cleanups.saturating_add(1),
            nursery: self.nursery,
        }
    }

    // Returns whether a block of the job here needs a function of its own.
    pub(crate) fn is_deep(&self) -> bool {
        self.blocks > MAX_BLOCKS
    }

    // Returns whether a cleanup here needs a function that is defined before its `try`.
    pub(crate) fn is_deep_in_cleanups(&self) -> bool {
        self.cleanups >= MAX_CLEANUPS
    }
}

// Returns the level of what is inside a level.
#[tactic(auto, unfolding(crate::specs::Lines::deeper))]
pub(crate) fn deeper(level: usize) -> usize
    ensures { result ≡ deeper level }
{
    level.saturating_add(1)
}
