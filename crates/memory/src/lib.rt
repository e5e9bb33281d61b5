// Memory with a shadow: for each byte whether anybody has written it. Marks are packed, eight to a byte, the lowest bit first.
#![tactic(auto, using(answer::proofs::Checks::decides, answer::proofs::Checks::goes_on))]

ghost use Rattle.std.specs.Prelude.{◌≡◌, List, ℕ, ◌+◌, ◌*◌, ◌^◌, ◌≤◌, ◌<◌, length};
ghost use Rattle.answer.specs.Answer.{verdict_of};
ghost use Rattle.wire.specs.Field.{slice};
ghost use Rattle.address.specs.Address.{memory_address};
ghost use Rattle.memory.specs.Shadow.{packed};
ghost use Rattle.memory.specs.Memory.{memory_of, edited, stores, clears};
ghost use Rattle.memory.specs.Transfers.{written_run, unwritten_in, host_write_checks, host_read_checks, invalidate_checks};

use address::MemoryAddress;
use answer::{Reason, Refusal, TRANSFER_LIMIT};

// How many of the `n` bytes from `a` on come before the first that is not initialized, or `n`. Only where there is one does
// the slower search for it run, by mark bytes and then by marks.
pub fn written_run(shadow: &[u8], a: usize, n: usize) -> usize
    requires { (a + n ≤ 8 * length shadow.now) × (a + n < 2 ^ 64) }
    ensures { (size : ℕ) → a + n ≤ size → result ≡ written_run (packed size shadow.now) (memory_address a) n }
{
    if bitmap::all_ones(shadow, a, n) {
        return n;
    }
    for run in bitmap::ones_ahead(shadow, a, n)..n {
        if !bitmap::is_one(shadow, a + run) {
            return run;
        }
    }
    n
}

// The fault of reading the `n` bytes from `a` on.
pub fn check_written(shadow: &[u8], a: usize, n: usize) -> Result<(), Refusal>
    requires { (a + n ≤ 8 * length shadow.now) × (a + n < 2 ^ 64) }
    ensures { (size : ℕ) → a + n ≤ size → verdict_of result ≡ unwritten_in (packed size shadow.now) (memory_address a) n }
{
    let run = written_run(shadow, a, n);
    Reason::Unwritten.at(run as u64).when(run < n)
}

// The check of an invalidation of the `n` bytes from `a` on, in a memory of `size` bytes. `n` is any number, so no sum is made.
#[tactic(auto, unfolding(crate::specs::Transfers::invalidate_checks))]
pub fn check_invalidate(size: u64, a: MemoryAddress, n: u64) -> Result<(), Refusal>
    ensures { verdict_of result ≡ invalidate_checks size a n }
{
    Reason::Range.unless(address::in_memory_range(size, a, n))
}

// The checks of a host write of `n` bytes to `a`.
#[tactic(auto, using(answer::proofs::Checks::decides, answer::proofs::Checks::goes_on), unfolding(crate::specs::Transfers::host_write_checks, crate::specs::Transfers::invalidate_checks, answer::specs::Limits::length_check))]
pub fn check_host_write(size: u64, a: MemoryAddress, n: usize) -> Result<(), Refusal>
    ensures { verdict_of result ≡ host_write_checks size a n }
{
    Reason::TooLong.when(TRANSFER_LIMIT < n)?;
    check_invalidate(size, a, n as u64)
}

// The checks of a host read of `n` bytes from `a` on, in a memory of `size` bytes.
#[tactic(auto, using(answer::proofs::Checks::decides, answer::proofs::Checks::goes_on), unfolding(crate::specs::Transfers::host_read_checks))]
pub fn check_host_read(size: u64, shadow: &[u8], a: MemoryAddress, n: usize) -> Result<(), Refusal>
    requires { size ≤ 8 * length shadow.now }
    ensures { verdict_of result ≡ host_read_checks size (packed size shadow.now) a n }
{
    check_host_write(size, a, n)?;
    check_written(shadow, a.0 as usize, n)
}

// Stores the `n` bytes of `src` from `from` on at `a`, which makes them written.
pub fn store(bytes: &mut [u8], shadow: &mut [u8], a: usize, src: &[u8], from: usize, n: usize)
    requires { (a + n ≤ length bytes.old) × (a + n ≤ 8 * length shadow.old) × (from + n ≤ length src.now) }
    ensures { memory_of bytes.new shadow.new ≡ edited (stores (memory_address a) (slice src.now from n)) (memory_of bytes.old shadow.old) }
{
    wire::copy(bytes, a, src, from, n);
    bitmap::set_range(shadow, a, n, true);
}

// Clears the marks of the `n` bytes from `a` on, whatever the bytes are.
pub fn clear(shadow: &mut [u8], a: usize, n: usize)
    requires { (a + n ≤ 8 * length shadow.old) × (a + n < 2 ^ 64) }
    ensures { (bytes : List ℕ) → memory_of bytes shadow.new ≡ edited (clears (memory_address a) n) (memory_of bytes shadow.old) }
{
    bitmap::set_range(shadow, a, n, false);
}
