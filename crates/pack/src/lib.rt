// A list of steps and its marks packed into words. A mark and its step are one number, an entry, of 10 bits in edition 1 and of 11 in edition
// 2: four of them are one number again, and with five bits before them one word.
#![tactic(auto)]

ghost use Rattle.std.specs.Prelude.{◌≡◌, List, ◌++◌, ℕ, suc, ◌+◌, ◌-◌, ◌*◌, ◌/◌, ◌%◌, ◌^◌, ◌<◌, ◌≤◌, length, get_or};
ghost use Rattle.planning.specs.Basics.{one_if};
ghost use Rattle.planning.specs.Sheet.{bits_of, mark_of};
ghost use Rattle.pack.specs.Fields.{AllSteps, entries, four_of, FourAt, halves_of, FourTops};

// The 53 bits before the steps as one number.
pub fn front(mark: usize, count: u16, cost: u32, real: bool) -> u64
    requires { mark ≤ 1 }
    ensures { bits_of 53 result ≡ bits_of 4 (suc mark) ++ (bits_of 1 (one_if real) ++ (bits_of 16 count ++ bits_of 32 cost)) }
{
    (((mark as u64 + 1) * 2 + u64::from(real)) * 65536 + u64::from(count)) * 4294967296
        + u64::from(cost)
}

// The mark of step i in a sheet whose marks have that many bits: 1 for each byte but 0, and 0 where there is none.
fn mark_at<const MARK: usize>(marks: &[u8], i: usize) -> u64
    requires { MARK ≤ 1 }
    ensures { (result ≡ mark_of (suc MARK) (get_or marks.now i 0)) × (result ≤ MARK) }
{
    if MARK == 0 || marks.len() <= i {
        return 0;
    }
    u64::from(marks[i] != 0)
}

// Step i behind its mark as one number, 0 behind the list.
fn entry_at<const MARK: usize>(list: &[u16], marks: &[u8], i: usize) -> u64
    requires { (MARK ≤ 1) × AllSteps list.now }
    ensures value { result ≡ get_or (entries (suc MARK) list.now marks.now) i 0 }
    ensures upper_bound { result < 1024 * (MARK + 1) }
{
    if list.len() <= i {
        return 0;
    }
    mark_at::<MARK>(marks, i) * 1024 + u64::from(list[i])
}

// Four numbers of so many bits as one, the first one highest.
fn four(a: u64, b: u64, c: u64, d: u64, width: usize) -> u64
    requires { (width ≤ 11) × (a < 2 ^ width) × (b < 2 ^ width) × (c < 2 ^ width) × (d < 2 ^ width) }
    ensures { (result ≡ ((a * 2 ^ width + b) * 2 ^ width + c) * 2 ^ width + d) × (result < 2 ^ (4 * width)) }
{
    (a << (3 * width)) + (b << (2 * width)) + (c << width) + d
}

// Four entries from i on as one number, wherever list and marks end.
fn any_four<const MARK: usize>(list: &[u16], marks: &[u8], i: usize) -> u64
    requires { (MARK ≤ 1) × (i ≤ 40000) × AllSteps list.now }
    ensures { FourAt MARK list.now marks.now i result }
{
    four(
        entry_at::<MARK>(list, marks, i),
        entry_at::<MARK>(list, marks, i + 1),
        entry_at::<MARK>(list, marks, i + 2),
        entry_at::<MARK>(list, marks, i + 3),
        MARK + 10,
    )
}

// Eight entries, four in a number.
#[derive(Clone, Copy)]
pub struct Eight {
    pub first: u64,
    pub second: u64,
}

// The eight entries from i on, wherever list and marks end.
pub fn any_eight<const MARK: usize>(list: &[u16], marks: &[u8], i: usize) -> Eight
    requires { (MARK ≤ 1) × (i ≤ 32768) × AllSteps list.now }
    ensures { FourAt MARK list.now marks.now i result.first × FourAt MARK list.now marks.now (i + 4) result.second }
{
    Eight {
        first: any_four::<MARK>(list, marks, i),
        second: any_four::<MARK>(list, marks, i + 4),
    }
}

// Four steps from i on as one number, without their marks.
fn steps_at(list: &[u16], i: usize, width: usize) -> u64
    requires { (10 ≤ width) × (width ≤ 11) × (i + 4 ≤ length list.now) × AllSteps list.now }
    ensures { (result ≡ four_of width list.now i) × (result < 2 ^ (4 * width)) }
{
    four(
        u64::from(list[i]),
        u64::from(list[i + 1]),
        u64::from(list[i + 2]),
        u64::from(list[i + 3]),
        width,
    )
}

// Half of each of the low four bytes, rounded down.
fn halves(x: u64) -> u64
    ensures { result ≡ halves_of x }
{
    (x >> 25) % 128 * 16777216 + (x >> 17) % 128 * 65536 + (x >> 9) % 128 * 256 + (x >> 1) % 128
}

// Eight marks, the first one highest: the top bit of each byte says whether its mark is another than 0. Half of a mark, rounded up, and 127
// stay within the byte.
fn tops_at(marks: &[u8], i: usize) -> u64
    requires { i + 8 ≤ length marks.now }
    ensures { FourTops marks.now i (result / 4294967296) × FourTops marks.now (i + 4) result }
{
    let x = bits::long_word(marks, i);
    x - (halves(x >> 32) * 4294967296 + halves(x)) + 9187201950435737471
}

// The top bits of four bytes, each at the first bit of a field of 11: moved by one product, in which no two bits meet.
fn moved(x: u64) -> u64
    ensures { result ≡ x / 2147483648 % 2 * 8796093022208 + x / 8388608 % 2 * 4294967296 + x / 32768 % 2 * 2097152 + x / 128 % 2 * 1024 }
{
    let tops = (x >> 31) % 2 * 2147483648
        + (x >> 23) % 2 * 8388608
        + (x >> 15) % 2 * 32768
        + (x >> 7) % 2 * 128;
    let p = tops * 4680;
    (p >> 43) % 2 * 8796093022208
        + (p >> 32) % 2 * 4294967296
        + (p >> 21) % 2 * 2097152
        + (p >> 10) % 2 * 1024
}

// The eight entries from i on of a list that has them, quickly where no mark is missing.
pub fn eight_at<const MARK: usize>(list: &[u16], marks: &[u8], i: usize) -> Eight
    requires { (MARK ≤ 1) × (i + 8 ≤ length list.now) × (length list.now ≤ 32768) × AllSteps list.now }
    ensures { FourAt MARK list.now marks.now i result.first × FourAt MARK list.now marks.now (i + 4) result.second }
{
    if MARK == 0 {
        return Eight {
            first: steps_at(list, i, 10),
            second: steps_at(list, i + 4, 10),
        };
    }
    if i + 8 <= marks.len() {
        let tops = tops_at(marks, i);
        return Eight {
            first: steps_at(list, i, 11) + moved(tops >> 32),
            second: steps_at(list, i + 4, 11) + moved(tops),
        };
    }
    // A call of any_eight here was slower.
    Eight {
        first: any_four::<MARK>(list, marks, i),
        second: any_four::<MARK>(list, marks, i + 4),
    }
}

// Five bits and four entries behind them, left aligned.
pub fn first_word<const MARK: usize>(five: u64, a: u64) -> u64
    requires { (MARK ≤ 1) × (five < 32) × (a < 2 ^ (4 * (MARK + 10))) }
    ensures { bits_of 64 result ≡ bits_of (5 + 4 * (MARK + 10)) (five * 2 ^ (4 * (MARK + 10)) + a) ++ bits_of (19 - 4 * MARK) 0 }
{
    ((five << (4 * (MARK + 10))) + a) << (19 - 4 * MARK)
}

// The last 21 or 17 bits of four entries and four more, 61 bits in all, left aligned.
pub fn second_word<const MARK: usize>(a: u64, b: u64) -> u64
    requires { (MARK ≤ 1) × (b < 2 ^ (4 * (MARK + 10))) }
    ensures { bits_of 64 result ≡ bits_of 61 (a * 2 ^ (4 * (MARK + 10)) + b) ++ bits_of 3 0 }
{
    (a << (43 + 4 * MARK)) + b * 8
}
