// Lists and areas that the caller lends: a result in the front, and behind it 65,535 in lists, 0 in bytes; entries moved in them.
#![tactic(auto)]

ghost use Rattle.std.specs.Prelude.{◌≡◌, ◌++◌, ◌+◌, ◌-◌, ◌≤◌, length, take, drop, replicate};
ghost use Rattle.planning.specs.Calls.{capacity, room_check};
ghost use Rattle.answers.specs.Answers.{check_of};
ghost use Rattle.lists.specs.Lent.{laid};
ghost use Rattle.lists.specs.Four.{with_four};

use answers::{Reason, Refusal};

// Four entries out of one number, the first one lowest, as they lie in a list: a function of its own, so that the compiler makes one
// store of it.
pub fn put_four(list: &mut [u16], i: usize, four: u64)
    requires { i + 4 ≤ length list.old }
    ensures { list.new ≡ with_four list.old i four }
{
    list[i] = (four % 65536) as u16;
    list[i + 1] = ((four >> 16) % 65536) as u16;
    list[i + 2] = ((four >> 32) % 65536) as u16;
    list[i + 3] = (four >> 48) as u16;
}

// Every entry from k on becomes x, whose copies are x.
fn fill_from<T: Copy>(d: &mut [T], k: usize, x: T)
    requires copies { T.is_infallible x }
    requires same { (y : T) → T.is_clone x y → y ≡ x }
    ensures { d.new ≡ take k d.old ++ replicate (length d.old - k) x }
{
    if k < d.len() {
        d[k..].fill(x);
    }
}

// Every entry from k on becomes 65,535.
pub fn blank_from(d: &mut [u16], k: usize)
    ensures { d.new ≡ take k d.old ++ replicate (length d.old - k) 65535 }
{
    fill_from(d, k, 65535);
}

// Every entry becomes 65,535.
pub fn blank(d: &mut [u16])
    ensures { d.new ≡ replicate (length d.old) 65535 }
{
    d.fill(65535);
}

// Every byte from k on becomes 0.
pub fn clear_from(d: &mut [u8], k: usize)
    ensures { d.new ≡ take k d.old ++ replicate (length d.old - k) 0 }
{
    fill_from(d, k, 0);
}

// Every byte becomes 0.
pub fn clear(d: &mut [u8])
    ensures { d.new ≡ replicate (length d.old) 0 }
{
    d.fill(0);
}

// The capacity of a plan list of n entries.
pub fn capacity(n: usize) -> usize
    ensures { result ≡ capacity n }
{
    n.min(32768)
}

// The first n entries at the very end, where both places may overlap; the answer is where they start.
pub fn to_end(d: &mut [u16], n: usize) -> usize
    requires { n ≤ length d.old }
    ensures { (result ≡ length d.old - n) × (drop result d.new ≡ take n d.old) }
{
    let from = d.len() - n;
    d.copy_within(..n, from);
    from
}

// The result in the front of the plan list and 65,535 behind it; 65,535 throughout where it is longer than the capacity.
pub fn lay(list: &[u16], plan: &mut [u16]) -> Result<(), Refusal>
    ensures { (check_of result ≡ room_check (length list.now) (capacity (length plan.old))) × (plan.new ≡ laid (length plan.old) list.now) }
{
    let n = list.len();
    let room = capacity(plan.len());
    if room < n {
        blank(plan);
        return Err(Refusal {
            reason: Reason::Room,
            place: room as u32,
        });
    }
    plan[..n].copy_from_slice(list);
    blank_from(plan, n);
    Ok(())
}
