// The split virtqueue of a driver: the buffers that it offers between two indices of its ring, found by card reads. A walk goes as its rule
// does: the ring's index, then each head and its chain. What it reads is aligned, and so lies in a single mapping.
#![tactic(auto)]

ghost use Rattle.std.specs.Prelude.{◌≡◌, ◌+◌, ◌-◌, ◌%◌, ◌<◌, ◌≤◌, length, IfOk};
ghost use Rattle.answer.specs.Answer.{done, ◌onward◌, told};
ghost use Rattle.wire.specs.Field.{field, slice};
ghost use Rattle.memory.specs.Memory.{memory_of};
ghost use Rattle.virtqueue.specs.Ring.{card_read, descriptor_of, is_indirect, goes_on, head_at, described, chain, taken};
ghost use Rattle.virtqueue.specs.Progress.{Walkable, Walks};
ghost use Rattle.virtqueue.specs.Passes.{put_at, Offers, Passes};

use address::DeviceAddress;
use answer::{Reason, Refusal};
use iommu::Mapping;
use wire::Number;

// A queue as its register tells of it: how many descriptors it has, where they are, and where the driver's ring is.
#[derive(Clone, Copy)]
pub struct Queue {
    pub size: u16,
    pub table: u64,
    pub driver: u64,
}

#[derive(Clone, Copy)]
pub struct Descriptor {
    pub address: u64,
    pub length: u32,
    pub flags: u16,
    pub next: u16,
}

impl Descriptor {
    fn get(bytes: &[u8], at: usize) -> Descriptor
        requires { at + 16 ≤ length bytes.now }
        ensures { result ≡ descriptor_of (slice bytes.now at 16) }
    {
        Descriptor {
            address: u64::get(bytes, at),
            length: u32::get(bytes, at + 8),
            flags: u16::get(bytes, at + 12),
            next: u16::get(bytes, at + 14),
        }
    }

    // Whether the chain goes on with `next`.
    #[tactic(auto, unfolding(crate::specs::Ring::goes_on))]
    fn goes_on(self) -> bool
        ensures { result ≡ goes_on self }
    {
        self.flags % 2 == 1
    }

    // Whether it tells of a table of others.
    #[tactic(auto, unfolding(crate::specs::Ring::is_indirect))]
    fn is_indirect(self) -> bool
        ensures { result ≡ is_indirect self }
    {
        self.flags / 4 % 2 == 1
    }
}

// What an accepted walk found: how many buffers, and the ring's index.
#[derive(Clone, Copy)]
pub struct Found {
    pub buffers: usize,
    pub index: u16,
}

// How many numbers of the array a buffer takes.
const NUMBERS: usize = 3;

// Puts a buffer's numbers behind those of `buffers` others, where there is room for them.
fn put(numbers: &mut [u64], buffers: usize, x: Descriptor)
    requires { buffers ≤ 131072 }
    ensures { numbers.new ≡ put_at numbers.old buffers x }
{
    let at = NUMBERS * buffers;
    if numbers.len() < at + NUMBERS {
        return;
    }
    numbers[at] = x.address;
    numbers[at + 1] = x.length as u64;
    numbers[at + 2] = x.flags as u64;
}

// A queue, and the memory that the mappings show of it.
#[derive(Clone, Copy)]
struct View<'a> {
    queue: Queue,
    mappings: &'a [Mapping],
    bytes: &'a [u8],
    shadow: &'a [u8],
    ghost walkable: { Walkable mappings.now (length bytes.now) (length shadow.now) queue },
}

impl View<'_> {
    ghost use Rattle.virtqueue.specs.Reads.{reads};

    // A card read of `n` bytes that lie in one page, and so in one mapping, if in any: where memory has them.
    fn fetch(&self, base: u64, offset: u64, n: usize) -> Result<usize, Refusal>
        requires some { 0 < n }
        requires page { (base + offset) % 4096 + n ≤ 4096 }
        ensures reads { (told result onward λ at. done (slice self.now.bytes.now at n)) ≡ reads self.now (base + offset) n }
        ensures inside { IfOk result (λ at. at + n ≤ length self.now.bytes.now) }
    {
        // A start that does not fit into 64 bits stands for the last address, which is refused like it.
        let start = base.saturating_add(offset);
        Reason::Range
            .at(start)
            .when(address::DEVICE_LIMIT - (n as u64) < start)?;
        let d = DeviceAddress(start);
        let found = iommu::find(self.mappings, d);
        Reason::Unmapped.at(start).when(!found.held)?;
        let target = iommu::shown_by(self.mappings[found.lo], d).unwrap();
        let at = target.address.0 as usize;
        match dma::run_fault(self.shadow, at, n, target.rights, false) {
            Ok(()) => Ok(at),
            Err(fault) => Err(fault.reason.at(start + fault.place)),
        }
    }

    // A card read of a number of two bytes.
    fn number(&self, base: u64, offset: u64) -> Result<u16, Refusal>
        requires { (base + offset) % 2 ≡ 0 }
        ensures { told result ≡ (reads self.now (base + offset) 2 onward λ b. done (field b 0 2)) }
    {
        let at = self.fetch(base, offset, 2)?;
        Ok(u16::get(self.bytes, at))
    }

    // The head of an index of the ring; `heads` are finished.
    fn head(&self, heads: u16, index: u16) -> Result<u16, Refusal>
        ensures { told result ≡ head_at (reads self.now) self.now.queue heads index }
    {
        let q = self.queue;
        let head = self.number(q.driver, 4 + 2 * (index % q.size) as u64)?;
        Reason::DescriptorIndex
            .at(heads as u64)
            .when(q.size <= head)?;
        Ok(head)
    }

    // A descriptor, read whole.
    fn descriptor(&self, heads: u16, d: u16) -> Result<Descriptor, Refusal>
        ensures { told result ≡ described (reads self.now) self.now.queue heads d }
    {
        let at = self.fetch(self.queue.table, 16 * d as u64, 16)?;
        let x = Descriptor::get(self.bytes, at);
        Reason::Indirect.at(heads as u64).when(x.is_indirect())?;
        Ok(x)
    }

    // Follows the chain from a head on, behind `before` buffers: how many there are then. Their numbers are put into the array where it has room.
    fn chain(
        &self,
        heads: u16,
        head: u16,
        before: usize,
        numbers: &mut [u64],
    ) -> Result<usize, Refusal>
        requires { before ≤ 65536 }
        ensures { Passes (chain (reads self.now) self.now.queue heads (self.now.queue.size - 1) head) before result numbers.old numbers.new }
    {
        let mut buffers = before;
        let mut d = head;
        // so many descriptors at most may follow in the chain
        for more in (0..self.queue.size).rev() {
            let x = self.descriptor(heads, d)?;
            put(numbers, buffers, x);
            buffers += 1;
            if !x.goes_on() {
                break;
            }
            Reason::ChainLength.at(heads as u64).when(more == 0)?;
            d = x.next;
            Reason::DescriptorIndex
                .at(heads as u64)
                .when(self.queue.size <= d)?;
        }
        Ok(buffers)
    }

    // Takes the chains of `n` heads from an index on, each before the next head: how many buffers they have.
    fn chains(&self, n: u16, index: u16, numbers: &mut [u64]) -> Result<usize, Refusal>
        requires { n ≤ self.now.queue.size }
        ensures { Passes (taken (reads self.now) self.now.queue n 0 index) 0 result numbers.old numbers.new }
    {
        let mut buffers = 0;
        for heads in 0..n {
            let head = self.head(heads, index.wrapping_add(heads))?;
            buffers = self.chain(heads, head, buffers, numbers)?;
        }
        Ok(buffers)
    }

    // The ring's index, then the heads from the caller's last index on. What lies between the two is their difference modulo 2^16.
    fn walk(&self, last: u16, numbers: &mut [u64]) -> Result<Found, Refusal>
        ensures { Offers (reads self.now) self.now.queue last result numbers.old numbers.new }
    {
        let index = self.number(self.queue.driver, 2)?;
        let heads = index.wrapping_sub(last);
        Reason::RingDistance.when(self.queue.size < heads)?;
        let buffers = self.chains(heads, last, numbers)?;
        Ok(Found { buffers, index })
    }
}

// Walks a queue from the caller's last index on, whatever room the array has: it stores the numbers that have room.
pub fn walk(
    mappings: &[Mapping],
    bytes: &[u8],
    shadow: &[u8],
    q: Queue,
    last: u16,
    numbers: &mut [u64],
) -> Result<Found, Refusal>
    requires { Walkable mappings.now (length bytes.now) (length shadow.now) q }
    ensures { Offers (card_read mappings.now (memory_of bytes.now shadow.now)) q last result numbers.old numbers.new }
{
    let view = View {
        queue: q,
        mappings,
        bytes,
        shadow,
    };
    view.walk(last, numbers)
}

// Walks a queue from the caller's last index on, and stores the numbers of its buffers. A first pass judges, with an array that holds
// nothing; the second stores, and cannot be refused, since it reads the same memory.
pub fn walk_queue(
    mappings: &[Mapping],
    bytes: &[u8],
    shadow: &[u8],
    q: Queue,
    last: u16,
    numbers: &mut [u64],
) -> Result<Found, Refusal>
    requires { Walkable mappings.now (length bytes.now) (length shadow.now) q }
    ensures { Walks (card_read mappings.now (memory_of bytes.now shadow.now)) q last result numbers.old numbers.new }
{
    let found = walk(mappings, bytes, shadow, q, last, &mut [])?;
    // No product is made, since it could wrap.
    Reason::NoSpace.when(numbers.len() / NUMBERS < found.buffers)?;
    walk(mappings, bytes, shadow, q, last, numbers)
}
