// Sets of values and labels of 64 bits, one for each value: the members of a set from the least on, a label noted for the members where
// they have no lesser one, and a member that has the least. Labels are only compared here; what one says of a path is for `search`.
#![tactic(auto)]

ghost use Rattle.std.specs.Prelude.{◌≡◌, ℕ, ◌<◌, length, get_or};
ghost use Rattle.std.specs.Iterator.{at_most};
ghost use Rattle.sets.specs.Sets.{in_set};
ghost use Rattle.labels.specs.Labels.{Next, lower, Nearest};

// The members of a set of values that are still to come, from the least on.
#[derive(Clone, Copy)]
struct Members {
    rest: u64,
}

impl Iterator for Members {
    type Item = usize;

    ghost next_gives = { Next };

    ghost remaining = { λ s. at_most s.rest };

    fn next(&mut self) -> Option<usize> {
        if self.rest == 0 {
            return None;
        }
        let c = self.rest.trailing_zeros() as usize;
        self.rest = self.rest & (self.rest - 1);
        Some(c)
    }
}

// The label l is noted for each value of the set, where no lesser one is.
pub fn mark(labels: &mut [u64; 64], set: u64, l: u64)
    requires { length labels.old ≡ 64 }
    ensures labels_len { length labels.new ≡ 64 }
    ensures by_index { (c : ℕ) → c < 64 → get_or labels.new c 0 ≡ lower (in_set set c) l (get_or labels.old c 0) }
{
    for c in (Members { rest: set }) {
        labels[c] = l.min(labels[c]);
    }
}

// A member of the set with the least label.
pub fn nearest(labels: &[u64; 64], front: u64) -> Option<usize>
    ensures { Nearest labels.now front result }
{
    let mut rest = Members { rest: front };
    let mut r = rest.next()?;
    let mut least = labels[r];
    for c in rest {
        let l = labels[c];
        if l < least {
            least = l;
            r = c;
        }
    }
    Some(r)
}
