// The marked rows of a set one by one, from the first on.
ghost use Rattle.std.specs.Prelude.{◌≡◌};

// The rows that are still to come.
#[derive(Drop)]
pub struct Walk {
    pub rest: u32,
}

pub fn rows(set: u32) -> Walk
    ensures { result.rest ≡ set }
{
    Walk { rest: set }
}

impl Iterator for Walk {
    ghost use Rattle.std.specs.Iterator.{at_most};
    ghost use Rattle.marks.specs.inside.Walked.{GivesRow};

    type Item = u32;

    ghost next_gives = { GivesRow };

    ghost remaining = { λ walk. at_most walk.rest };

    fn next(&mut self) -> Option<u32> {
        if self.rest == 0 {
            return None;
        }
        let row = crate::next(self.rest);
        self.rest = crate::others(self.rest);
        Some(row)
    }
}
