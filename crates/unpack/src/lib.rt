// The steps and the marks of a sheet, unpacked into a list and an area that the caller lends. As long as ten entries are left, eight are
// taken a turn, by two loads of eight bytes that do not pass the end; the rest one by one.
#![tactic(auto)]

ghost use Rattle.std.specs.Prelude.{◌≡◌, ◌++◌, ◌+◌, ◌-◌, ◌*◌, ◌/◌, ◌%◌, ◌^◌, ◌<◌, ◌≤◌, length, take};
ghost use Rattle.planning.specs.Basics.{bits_at};
ghost use Rattle.planning.specs.Sheet.{steps_at, marks_at};
ghost use Rattle.lists.specs.Four.{Spread};
ghost use Rattle.unpack.specs.Begun.{Begun, MarksBegun};

// The steps from a place on, one by one.
fn read_each(bytes: &[u8], mark: usize, from: usize, steps: usize, list: &mut [u16])
    requires { (mark ≤ 1) × (from ≤ steps) × (steps ≤ 32768) × (steps ≤ length list.old) × (53 + (mark + 10) * steps ≤ 8 * length bytes.now) }
    ensures { take steps list.new ≡ take from list.old ++ steps_at bytes.now mark (53 + (mark + 10) * from) (steps - from) }
{
    for i in from..steps {
        list[i] = bits::read_bits(bytes, 53 + (mark + 10) * i + mark, 10) as u16;
    }
}

// The first bits of the eight bytes from byte `at` on.
fn front(bytes: &[u8], at: usize, count: usize) -> u64
    requires { (0 < count) × (count ≤ 49) × (at + 8 ≤ length bytes.now) }
    ensures { (result ≡ bits_at bytes.now (at * 8) count) × (result < 562949953421312) }
{
    bits::long_word(bytes, at) >> (64 - count)
}

// The steps of two pairs of entries, the first pair in the lower half: 16 bits each, the first one lowest, as they lie in a list.
fn lanes(pairs: u64, mark: usize) -> u64
    requires { mark ≤ 1 }
    ensures { Spread (pairs / 2 ^ (mark + 10) % 1024) (pairs % 1024) (pairs / 2 ^ (mark + 42) % 1024) (pairs / 4294967296 % 1024) result }
{
    (pairs >> (mark + 10)) % 1024
        + pairs % 1024 * 65536
        + (pairs >> (mark + 42)) % 1024 * 4294967296
        + (pairs >> 32) % 1024 * 281474976710656
}

// The steps of four entries in the same way.
fn spread(word: u64, mark: usize) -> u64
    requires { (mark ≤ 1) × (word < 562949953421312) }
    ensures { Spread (word / 2 ^ (3 * (mark + 10)) % 1024) (word / 2 ^ (2 * (mark + 10)) % 1024) (word / 2 ^ (mark + 10) % 1024) (word % 1024) result }
{
    lanes(
        (word >> (2 * (mark + 10))) + word % 4294967296 * 4294967296,
        mark,
    )
}

// Steps of a sheet of edition 1, eight a turn as long as two more follow, so that whole words can be loaded: how many. Five bits stand
// before the first four; five bits of these stand before the others.
fn read_eights(bytes: &[u8], steps: usize, list: &mut [u16]) -> usize
    requires { (steps ≤ 32768) × (steps ≤ length list.old) × (53 + 10 * steps ≤ 8 * length bytes.now) }
    ensures { Begun bytes.now 0 steps list.new result }
{
    let eights = steps.saturating_sub(2) / 8;
    for k in 0..eights {
        let at = 6 + 10 * k;
        let a = spread(front(bytes, at, 45), 0);
        let b = spread(front(bytes, at + 5, 45), 0);
        lists::put_four(list, 8 * k, a);
        lists::put_four(list, 8 * k + 4, b);
    }
    8 * eights
}

// The steps of a sheet of edition 1: eight a turn, and the rest one by one.
pub fn read_steps(bytes: &[u8], steps: usize, list: &mut [u16])
    requires { (steps ≤ 32768) × (steps ≤ length list.old) × (53 + 10 * steps ≤ 8 * length bytes.now) }
    ensures { take steps list.new ≡ steps_at bytes.now 0 53 steps }
{
    let i = read_eights(bytes, steps, list);
    read_each(bytes, 0, i, steps, list);
}

// The marks of four entries of 11 bits, a byte each, the first one highest: moved by one product, in which no two bits meet.
fn gather(word: u64) -> u64
    ensures { result ≡ word / 8796093022208 % 2 * 16777216 + word / 4294967296 % 2 * 65536 + word / 2097152 % 2 * 256 + word / 1024 % 2 }
{
    let marks = (word >> 43) % 2 * 8589934592
        + (word >> 32) % 2 * 4194304
        + (word >> 21) % 2 * 2048
        + (word >> 10) % 2;
    let moved = marks * 585;
    (moved >> 33) % 2 * 16777216
        + (moved >> 25) % 2 * 65536
        + (moved >> 17) % 2 * 256
        + (moved >> 9) % 2
}

// The marks from a place on, one by one: another type and another place in each entry, so that one function for both would say more.
fn read_each_mark(bytes: &[u8], from: usize, steps: usize, marks: &mut [u8])
    requires { (from ≤ steps) × (steps ≤ 32768) × (steps ≤ length marks.old) × (53 + 11 * steps ≤ 8 * length bytes.now) }
    ensures { take steps marks.new ≡ take from marks.old ++ marks_at bytes.now 1 (53 + 11 * from) (steps - from) }
{
    for i in from..steps {
        marks[i] = bits::read_bits(bytes, 53 + 11 * i, 1) as u8;
    }
}

// Steps and marks of a sheet of edition 2 in the same way, both out of the same words; one bit of the first four stands before the others.
// A loop of its own, as the other has no marks to store.
fn read_both(bytes: &[u8], steps: usize, list: &mut [u16], marks: &mut [u8]) -> usize
    requires { (steps ≤ 32768) × (steps ≤ length list.old) × (steps ≤ length marks.old) × (53 + 11 * steps ≤ 8 * length bytes.now) }
    ensures { Begun bytes.now 1 steps list.new result × MarksBegun bytes.now steps marks.new result }
{
    let eights = steps.saturating_sub(2) / 8;
    for k in 0..eights {
        let at = 6 + 11 * k;
        let a = front(bytes, at, 49);
        let b = front(bytes, at + 6, 45);
        let first = spread(a, 1);
        let second = spread(b, 1);
        let shown = gather(a) * 4294967296 + gather(b);
        lists::put_four(list, 8 * k, first);
        lists::put_four(list, 8 * k + 4, second);
        bits::put_word(marks, 8 * k, shown);
    }
    8 * eights
}

// Steps and marks of a sheet of edition 2: eight a turn, and the rest one by one.
pub fn read_marked(bytes: &[u8], steps: usize, list: &mut [u16], marks: &mut [u8])
    requires { (steps ≤ 32768) × (steps ≤ length list.old) × (steps ≤ length marks.old) × (53 + 11 * steps ≤ 8 * length bytes.now) }
    ensures { (take steps list.new ≡ steps_at bytes.now 1 53 steps) × (take steps marks.new ≡ marks_at bytes.now 1 53 steps) }
{
    let i = read_both(bytes, steps, list, marks);
    read_each(bytes, 1, i, steps, list);
    read_each_mark(bytes, i, steps, marks);
}
