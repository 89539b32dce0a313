// The set of ready ranks. One set above the others says which of them have a member, so that the lowest rank is found by two looks, however
// many are ready.
#![tactic(auto)]

ghost use Rattle.std.specs.Prelude.{◌<◌, T};
ghost use Rattle.ready.specs.Ready.{member, Ready, LowestIn, Lowest, With, Without};

// The lowest member of a set that has one.
fn lowest_in(m: u64) -> usize
    requires { 0 < m }
    ensures { LowestIn m 64 result }
{
    m.trailing_zeros() as usize
}

// Ready ranks: 16 sets of 64 behind one that says which of them have a member.
pub const SETS: usize = 17;

// The rank to try next: the lowest of the ready ones.
pub fn lowest(ready: &[u64; SETS]) -> Option<usize>
    requires { Ready ready.now }
    ensures { Lowest ready.now result }
{
    let filled = ready[0];
    if filled == 0 {
        return None;
    }
    let w = lowest_in(filled);
    Some(64 * w + lowest_in(ready[w + 1]))
}

pub fn mark(ready: &mut [u64; SETS], i: usize)
    requires { (i < 1024) × Ready ready.old }
    ensures { With ready.old i ready.new }
{
    let w = i / 64;
    ready[w + 1] |= sets::single(i % 64);
    ready[0] |= sets::single(w);
}

pub fn unmark(ready: &mut [u64; SETS], i: usize)
    requires { (i < 1024) × Ready ready.old × T (member ready.old i) }
    ensures { Without ready.old i ready.new }
{
    let w = i / 64;
    let rest = ready[w + 1] - sets::single(i % 64);
    ready[w + 1] = rest;
    if rest == 0 {
        ready[0] -= sets::single(w);
    }
}
