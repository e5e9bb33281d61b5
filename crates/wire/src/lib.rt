// Bytes and little-endian fields of 1, 2, 4 and 8 bytes at a place of a byte slice.
#![tactic(auto)]

ghost use Rattle.std.specs.Prelude.{◌≡◌, ℕ, ◌+◌, ◌≤◌, length, replicate};
ghost use Rattle.std.proofs.lemmas.List.Edits.{sets};
ghost use Rattle.wire.specs.Field.{field, bytes_of, slice};

// Writes a number as `width` bytes from `at` on.
#[tactic(auto, unfolding(crate::specs::Field::bytes_of))]
fn put_bytes(buf: &mut [u8], at: usize, width: usize, x: u64)
    requires { at + width ≤ length buf.old }
    ensures { buf.new ≡ sets buf.old at (bytes_of width x) }
{
    let mut y = x;
    for i in 0..width {
        buf[at + i] = (y % 256) as u8;
        y /= 256;
    }
}

// A number that stands as little-endian bytes at a place of a byte slice.
pub trait Number: Copy {
    // how many bytes it has, and the number that it is
    ghost width: { ℕ };

    ghost value: { Self → ℕ };

    fn get(s: &[u8], at: usize) -> Self
        requires { at + width ≤ length s.now }
        ensures { value result ≡ field s.now at width };

    fn put(self, buf: &mut [u8], at: usize)
        requires { at + width ≤ length buf.old }
        ensures { buf.new ≡ sets buf.old at (bytes_of width (value self)) };
}

// A field is read as its two halves, down to bytes: the compiler makes one load of that, and none of a loop over the bytes.
impl Number for u8 {
    ghost width = { 1 };

    ghost value = { λ x. x };

    #[tactic(auto, unfolding(crate::specs::Field::field))]
    fn get(s: &[u8], at: usize) -> u8 {
        s[at]
    }

    fn put(self, buf: &mut [u8], at: usize) {
        put_bytes(buf, at, 1, self as u64)
    }
}

impl Number for u16 {
    ghost width = { 2 };

    ghost value = { λ x. x };

    fn get(s: &[u8], at: usize) -> u16 {
        let low = u8::get(s, at) as u16;
        let high = u8::get(s, at + 1) as u16;
        low + high * 0x100
    }

    fn put(self, buf: &mut [u8], at: usize) {
        put_bytes(buf, at, 2, self as u64)
    }
}

impl Number for u32 {
    ghost width = { 4 };

    ghost value = { λ x. x };

    fn get(s: &[u8], at: usize) -> u32 {
        let low = u16::get(s, at) as u32;
        let high = u16::get(s, at + 2) as u32;
        low + high * 0x10000
    }

    fn put(self, buf: &mut [u8], at: usize) {
        put_bytes(buf, at, 4, self as u64)
    }
}

impl Number for u64 {
    ghost width = { 8 };

    ghost value = { λ x. x };

    fn get(s: &[u8], at: usize) -> u64 {
        let low = u32::get(s, at) as u64;
        let high = u32::get(s, at + 4) as u64;
        low + high * 0x100000000
    }

    fn put(self, buf: &mut [u8], at: usize) {
        put_bytes(buf, at, 8, self)
    }
}

// Copies `n` bytes of `src` from `from` on to `dst` from `to` on. It is a loop, which the compiler vectorises, and not `copy_from_slice`, which
// calls `memmove`: who links the archive for C need not have that.
pub fn copy(dst: &mut [u8], to: usize, src: &[u8], from: usize, n: usize)
    requires { (to + n ≤ length dst.old) × (from + n ≤ length src.now) }
    ensures { dst.new ≡ sets dst.old to (slice src.now from n) }
{
    for i in 0..n {
        dst[to + i] = src[from + i];
    }
}

// Fills `n` bytes of `buf` from `at` on with `v`.
pub fn fill(buf: &mut [u8], at: usize, n: usize, v: u8)
    requires { at + n ≤ length buf.old }
    ensures { buf.new ≡ sets buf.old at (replicate n v) }
{
    buf[at..at + n].fill(v);
}
