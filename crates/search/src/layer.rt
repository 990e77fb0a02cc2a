// A layer of the work table.
ghost use Rattle.std.specs.Prelude.{◌≡◌, ◌+◌, ◌≤◌, MatchOption};
ghost use Rattle.search.specs.Limits.{most_changes};

// The labels after so many changes.
#[derive(Clone, Copy)]
pub struct Layer {
    pub number: usize,
    ghost shallow: { number ≤ most_changes },
}

impl Layer {
    // The layer with a change less. Ahead of the first there is none.
    pub fn before(self) -> Option<Layer>
        ensures { MatchOption result (self.number ≡ 0) (λ b. b.number + 1 ≡ self.number) }
    {
        if self.number == 0 {
            return None;
        }
        Some(Layer {
            number: self.number - 1,
        })
    }
}
