// A bitmap in bytes, eight bits to a byte and the lowest first: whether the bits of a range are set, and setting or clearing them. The ends
// of a range go by masks, the bytes between them whole.
#![tactic(auto)]

ghost use Rattle.std.specs.Prelude.{◌≡◌, true, ◌+◌, ◌*◌, ◌-◌, ◌^◌, ◌≤◌, ◌<◌, length, eqb};
ghost use Rattle.answer.specs.Tests.{pick};
ghost use Rattle.bitmap.specs.Bits.{with_bits, Ones, bit_of, with_run, OnesOf};

// ---- bits of a byte

// A power of two. What is divided by it the compiler shifts, and what is a remainder of it, masks.
fn power(k: usize) -> usize
    requires { k ≤ 8 }
    ensures { result ≡ 2 ^ k }
{
    1 << k
}

// Whether the bits of `x` from `k` up to `e` are set.
fn ones(x: u8, k: usize, e: usize) -> bool
    requires { (k ≤ e) × (e ≤ 8) }
    ensures { result ≡ true → Ones k e x }
{
    let whole = power(e - k);
    x as usize / power(k) % whole + 1 == whole
}

// `x` with its bits from `k` up to `e` set, or cleared.
#[tactic(auto, unfolding(answer::specs::Tests::pick))]
fn with_bits(x: u8, k: usize, e: usize, v: bool) -> u8
    requires { (k ≤ e) × (e ≤ 8) }
    ensures { result ≡ with_bits k e (pick v 1 0) x }
{
    let low = power(k);
    let high = power(e);
    let kept = x as usize / high * high + x as usize % low;
    let run = if v { high - low } else { 0 };
    ((kept + run) % 256) as u8
}

// ---- bits of a list of bytes

// Whether the bits `k` up to `e` of byte `q` are set.
fn ones_in_byte(map: &[u8], q: usize, k: usize, e: usize) -> bool
    requires { (e ≤ 8) × (k < e → q < length map.now) }
    ensures { result ≡ true → OnesOf map.now (8 * q + k) (e - k) }
{
    e <= k || ones(map[q], k, e)
}

// Whether all bits of the `c` bytes from `q` on are set. One pass with no way out and no test, which the compiler vectorises.
fn ones_in_bytes(map: &[u8], q: usize, c: usize) -> bool
    requires { q + c ≤ length map.now }
    ensures { result ≡ true → OnesOf map.now (8 * q) (8 * c) }
{
    map[q..q + c]
        .iter()
        .copied()
        .fold(255, |all, byte| all & byte)
        == 255
}

// Whether the `n` bits from `a` on are set: the bits in the first and the last one, and whole bytes between.
pub fn all_ones(map: &[u8], a: usize, n: usize) -> bool
    requires { (a + n ≤ 8 * length map.now) × (a + n < 2 ^ 64) }
    ensures { result ≡ true → OnesOf map.now a n }
{
    let first = a / 8;
    let last = (a + n) / 8;
    if first == last {
        return ones_in_byte(map, first, a % 8, (a + n) % 8);
    }
    ones_in_byte(map, first, a % 8, 8)
        && ones_in_bytes(map, first + 1, last - (first + 1))
        && ones_in_byte(map, last, 0, (a + n) % 8)
}

// Whether bit `a` is set.
pub fn is_one(map: &[u8], a: usize) -> bool
    requires { a < 8 * length map.now }
    ensures { result ≡ eqb (bit_of map.now a) 1 }
{
    map[a / 8] as usize / power(a % 8) % 2 == 1
}

// A number of bits from `a` on that are set: all before the first byte, behind that of `a`, that has a clear one.
pub fn ones_ahead(map: &[u8], a: usize, n: usize) -> usize
    requires { (a + n ≤ 8 * length map.now) × (a + n < 2 ^ 64) }
    ensures { (result ≤ n) × OnesOf map.now a result }
{
    let first = a / 8;
    let last = (a + n) / 8;
    if first == last {
        return 0;
    }
    if !ones_in_byte(map, first, a % 8, 8) {
        return 0;
    }
    for q in first + 1..last {
        if map[q] != 255 {
            return 8 * q - a;
        }
    }
    8 * last - a
}

// Sets or clears the bits `k` up to `e` of byte `q`.
#[tactic(auto, unfolding(crate::specs::Bits::with_run))]
fn set_in_byte(map: &mut [u8], q: usize, k: usize, e: usize, v: bool)
    requires { (e ≤ 8) × (k < e → q < length map.old) }
    ensures { map.new ≡ with_run map.old (8 * q + k) (e - k) (pick v 1 0) }
{
    if k < e {
        map[q] = with_bits(map[q], k, e, v);
    }
}

// Sets or clears all bits of the `c` bytes from `q` on.
#[tactic(auto, unfolding(answer::specs::Tests::pick))]
fn set_bytes(map: &mut [u8], q: usize, c: usize, v: bool)
    requires { q + c ≤ length map.old }
    ensures { map.new ≡ with_run map.old (8 * q) (8 * c) (pick v 1 0) }
{
    wire::fill(map, q, c, if v { 255 } else { 0 });
}

// Sets or clears the `n` bits from `a` on.
pub fn set_range(map: &mut [u8], a: usize, n: usize, v: bool)
    requires { (a + n ≤ 8 * length map.old) × (a + n < 2 ^ 64) }
    ensures { map.new ≡ with_run map.old a n (pick v 1 0) }
{
    let first = a / 8;
    let last = (a + n) / 8;
    if first == last {
        set_in_byte(map, first, a % 8, (a + n) % 8, v);
        return;
    }
    set_in_byte(map, first, a % 8, 8, v);
    set_bytes(map, first + 1, last - (first + 1), v);
    set_in_byte(map, last, 0, (a + n) % 8, v);
}
