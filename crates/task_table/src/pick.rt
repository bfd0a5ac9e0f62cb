ghost use Rattle.std.specs.Prelude.{◌≡◌, ℕ, ◌+◌, ◌-◌, ◌%◌, ◌^◌, ◌<◌};

/// Chooses the order in which the ready tasks of a batch have their turns.
pub trait Pick {
    // What a call may pick: the picker before, how many are left, the place, and the picker after. By default a picker
    // may pick any of those left.
    ghost picks: { Self → ℕ → ℕ → Self → Type 0 } = { λ old left place new. place < left };

    /// Returns the place, from 0, of the next task among those left. The caller must ensure that `left` is at least 1.
    fn pick(&mut self, left: usize) -> usize
        requires { 0 < left }
        ensures below { result < left }
        ensures picked { picks self.old left result self.new };
}

/// Picks the first of those left: the order in which they became ready.
#[derive(Clone, Copy, Debug)]
pub struct Forward;

impl Pick for Forward {
    ghost picks = { λ old left place new. place ≡ 0 };

    fn pick(&mut self, left: usize) -> usize
        requires { 0 < left }
        ensures below { result < left }
        ensures first { result ≡ 0 }
    {
        let _left = left;
        0
    }
}

/// Picks the last of those left: the reverse of the order in which they became ready.
#[derive(Clone, Copy, Debug)]
pub struct Reverse;

impl Pick for Reverse {
    ghost picks = { λ old left place new. place ≡ left - 1 };

    fn pick(&mut self, left: usize) -> usize
        requires { 0 < left }
        ensures below { result < left }
        ensures last { result ≡ left - 1 }
    {
        left - 1
    }
}

/// Picks in turn: the number of its calls so far, modulo the number of those left.
#[derive(Clone, Copy, Debug, Default)]
pub struct Turn {
    /// How often it was called, modulo 2^64.
    pub calls: u64,
}

impl Pick for Turn {
    ghost use Rattle.task_table.specs.Picks.{TurnPicks};

    ghost picks = { TurnPicks };

    fn pick(&mut self, left: usize) -> usize
        requires { 0 < left }
        ensures below { result < left }
        ensures in_turn { result ≡ self.old.calls % left }
        ensures counts { self.new.calls ≡ (self.old.calls + 1) % 2 ^ 64 }
    {
        let place = self.calls as usize % left;
        self.calls = self.calls.wrapping_add(1);
        place
    }
}
