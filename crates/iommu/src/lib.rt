// The mapping table of an IOMMU: records that the caller lends, of which the first ones are in use, by rising device address. The others are
// stale: they are not looked at, and change only where they are put to use.
#![tactic(auto, using(answer::proofs::Checks::decides, answer::proofs::Checks::goes_on, answer::proofs::Tests::and_first, answer::proofs::Tests::and_second), unfolding(crate::specs::Table::valid_rights, crate::specs::Table::aligned_mapping, crate::specs::Table::sound_mapping, crate::specs::Table::holds, crate::specs::Table::sticks_out, crate::specs::Requests::set_iommu_checks, crate::specs::Requests::map_checks, crate::specs::Requests::unmap_checks))]

ghost use Rattle.std.specs.Prelude.{◌≡◌, true, ◌+◌, ◌-◌, ◌≤◌, ◌<◌, leb, length, get_or};
ghost use Rattle.answer.specs.Tests.{◌and◌};
ghost use Rattle.answer.specs.Answer.{verdict_of};
ghost use Rattle.address.specs.Address.{memory_limit};
ghost use Rattle.iommu.specs.Table.{capacity, translation_of, is_iommu_type, blank, holds as held, valid_rights, aligned_mapping, in_range, sound_mapping, sound_table, shown_by, sticks_out, table_of, in_use, holding, inserted_at, without_run, sizes_between, Sound, Placed};
ghost use Rattle.iommu.specs.Halving.{halved};
ghost use Rattle.iommu.specs.Requests.{end_of, set_iommu_checks, Maps, Unmaps};

use address::{DeviceAddress, MemoryAddress};
use answer::{Reason, Refusal};

// The most records that may be lent.
pub const CAPACITY: usize = 4096;

// The IOMMU types of a container, which differ in what an unmap removes. They stay numbers, as the kept state and requests carry them: any may
// stand there.
pub const TYPE1: u32 = 1;

pub const TYPE1V2: u32 = 3;

// A mapping shows `size` bytes of memory from `memory` on at the device addresses from `device` on. Its rights are READ 1, WRITE 2.
#[repr(C)]
#[derive(Clone, Copy)]
pub struct Mapping {
    pub device: DeviceAddress,
    pub memory: MemoryAddress,
    pub size: u64,
    pub rights: u32,
}

// What a device address stands for: where its byte lies in memory, with which rights, and how many bytes its mapping shows from there on.
#[derive(Clone, Copy)]
pub struct Target {
    pub address: MemoryAddress,
    pub rights: u32,
    pub left: u64,
}

// A search by halving for a device address: the places from `lo` up to but not including `hi` are left to it, and it has looked at
// `probes` of them. At its end both are the place of the first record that ends past the address, and `held` says whether that holds it; the
// place is one where none does as well, so that it is no `Option`.
#[derive(Clone, Copy)]
pub struct Search {
    pub lo: usize,
    pub hi: usize,
    pub probes: u64,
    pub held: bool,
}

// Records that stand side by side: those from place `from` up to but not including `to`.
#[derive(Clone, Copy)]
pub struct Run {
    pub from: usize,
    pub to: usize,
}

// Whether there are containers of that IOMMU type.
pub fn is_iommu_type(kind: u32) -> bool
    ensures { result ≡ is_iommu_type kind }
{
    kind == TYPE1 || kind == TYPE1V2
}

// READ, WRITE or both, and no other bit.
fn valid_rights(rights: u32) -> bool
    ensures { result ≡ valid_rights rights }
{
    1 <= rights && rights <= 3
}

impl Mapping {
    // Whether both addresses and the size are multiples of the page size.
    fn is_aligned(self) -> bool
        ensures { result ≡ aligned_mapping self }
    {
        address::all_aligned(self.memory.0, self.device.0, self.size)
    }

    // Whether it ends at 2^48 or below, and inside a memory of `size` bytes. Memory is asked first: a size that fits it fits the other range
    // by itself, and the compiler leaves that test out.
    fn is_in_range(self, size: u64) -> bool
        ensures { result ≡ in_range size self }
    {
        address::in_memory_range(size, self.memory, self.size)
            && address::in_device_range(self.device, self.size)
    }

    // Whether it passes the checks that the map request makes of it alone.
    fn is_sound(self, size: u64) -> bool
        ensures { result ≡ sound_mapping size self }
    {
        self.is_aligned() && 0 < self.size && valid_rights(self.rights) && self.is_in_range(size)
    }

    // Whether it holds a device address.
    fn holds(self, d: DeviceAddress) -> bool
        ensures { result ≡ held self d }
    {
        self.device.0 <= d.0 && d.0 - self.device.0 < self.size
    }

    // Whether it begins before a device address that it holds.
    fn sticks_out(self, d: DeviceAddress) -> bool
        ensures { result ≡ sticks_out self d }
    {
        self.device.0 < d.0 && self.holds(d)
    }
}

// Whether the records in use may be trusted with a memory of `size` bytes. It is asked of any values at all, so the count is tested before
// a record is read.
pub fn sound(records: &[Mapping], count: usize, size: u64) -> bool
    ensures { result ≡ (leb (length records.now) capacity and leb count (length records.now) and sound_table size (in_use (table_of records.now count))) }
{
    if CAPACITY < records.len() || records.len() < count {
        return false;
    }
    let mut low = 0;
    for m in &records[..count] {
        if m.device.0 < low || !m.is_sound(size) {
            return false;
        }
        low = m.device.0 + m.size;
    }
    true
}

// The place of a device address among the mappings, by halving. Which records it looks at is a rule, and callers are told their number, so
// that it is no `binary_search_by`.
pub fn find(mappings: &[Mapping], d: DeviceAddress) -> Search
    requires { sound_table memory_limit mappings.now ≡ true }
    ensures { (result ≡ halved mappings.now d) × Placed mappings.now d result.lo result.held }
{
    let mut lo = 0;
    let mut hi = mappings.len();
    let mut probes = 0;
    while lo < hi {
        let at = (lo + hi) / 2;
        let m = mappings[at];
        probes += 1;
        if m.holds(d) {
            return Search {
                lo: at,
                hi: at,
                probes,
                held: true,
            };
        }
        if d.0 < m.device.0 {
            hi = at;
        } else {
            lo = at + 1;
        }
    }
    Search {
        lo,
        hi,
        probes,
        held: false,
    }
}

// What a mapping says of a device address.
pub fn shown_by(m: Mapping, d: DeviceAddress) -> Option<Target>
    requires { held m d ≡ true → in_range memory_limit m ≡ true }
    ensures { translation_of result ≡ shown_by m d }
{
    if !m.holds(d) {
        return None;
    }
    let skip = d.0 - m.device.0;
    Some(Target {
        address: MemoryAddress(m.memory.0 + skip),
        rights: m.rights,
        left: m.size - skip,
    })
}

// The checks of the request that sets a container's IOMMU type, with that many records in use.
pub fn check_set_iommu(count: usize, kind: u32) -> Result<(), Refusal>
    ensures { verdict_of result ≡ set_iommu_checks count kind }
{
    Reason::Flags.unless(is_iommu_type(kind) && count == 0)
}

// The checks of the map request, for a memory of `size` bytes and a table of `room` records, and the place of the new mapping.
pub fn plan_map(mappings: &[Mapping], size: u64, room: usize, m: Mapping) -> Result<usize, Refusal>
    requires { sound_table memory_limit mappings.now ≡ true }
    ensures { Maps size room mappings.now m result }
{
    Reason::Flags.unless(valid_rights(m.rights))?;
    Reason::Empty.when(m.size == 0)?;
    Reason::Unaligned.unless(m.is_aligned())?;
    Reason::Range.unless(m.is_in_range(size))?;
    // The first that ends past the new one's start shares an address with it, or none does.
    let at = find(mappings, m.device).lo;
    let end = m.device.0 + m.size;
    Reason::Overlap.when(mappings.get(at).is_some_and(|next| next.device.0 < end))?;
    Reason::NoRoom.unless(mappings.len() < room)?;
    Ok(at)
}

// Whether the mapping at a place, if one stands there, begins before a device address that it holds.
fn sticks_out_at(mappings: &[Mapping], at: usize, d: DeviceAddress) -> bool
    ensures { result ≡ sticks_out (get_or mappings.now at blank) d }
{
    mappings.get(at).is_some_and(|m| m.sticks_out(d))
}

// One past the last of the `n` device addresses from `d` on; of a range past 2^48, which is refused, its start.
pub fn end_of(d: DeviceAddress, n: u64) -> DeviceAddress
    ensures { result ≡ end_of d n }
{
    if address::in_device_range(d, n) {
        DeviceAddress(d.0 + n)
    } else {
        d
    }
}

// The checks of the unmap request in a container of IOMMU type `kind`, and the records that go.
pub fn plan_unmap(
    mappings: &[Mapping],
    kind: u32,
    flags: u32,
    d: DeviceAddress,
    n: u64,
) -> Result<Run, Refusal>
    requires { sound_table memory_limit mappings.now ≡ true }
    ensures { Unmaps kind mappings.now flags d n result }
{
    Reason::Flags.unless(flags == 0)?;
    Reason::Empty.when(n == 0)?;
    Reason::Unaligned.unless(address::aligned(d.0) && address::aligned(n))?;
    Reason::Range.unless(address::in_device_range(d, n))?;
    let end = end_of(d, n);
    let from = find(mappings, d).lo;
    let to = find(mappings, end).lo;
    let at_start = sticks_out_at(mappings, from, d);
    let at_end = sticks_out_at(mappings, to, end);
    if kind == TYPE1 {
        // Those that begin in the range go whole, the last also where it ends past the range; none does where one holds its start.
        if at_start {
            return Ok(Run { from, to: from });
        }
        if at_end {
            return Ok(Run { from, to: to + 1 });
        }
        return Ok(Run { from, to });
    }
    // Under Type1v2 those inside the range go; one that lies in it in part is refused.
    Reason::Cuts.when(at_start || at_end)?;
    Ok(Run { from, to })
}

// Puts a mapping at a place among the records in use: those from there on move up by one.
pub fn insert(records: &mut [Mapping], count: usize, at: usize, m: Mapping)
    requires { (at ≤ count) × (count < length records.old) }
    ensures { records.new ≡ holding (inserted_at at m (in_use (table_of records.old count))) records.old }
{
    records.copy_within(at..count, at + 1);
    records[at] = m;
}

// The sum of the sizes of a run of mappings.
pub fn sizes(mappings: &[Mapping], run: Run) -> u64
    requires { (Sound mappings.now) × (run.from ≤ run.to) × (run.to ≤ length mappings.now) }
    ensures { result ≡ sizes_between run.from run.to mappings.now }
{
    mappings[run.from..run.to].iter().map(|m| m.size).sum()
}

// Removes a run of the records in use: those behind it move down. Records past the new count keep what they held.
pub fn close(records: &mut [Mapping], count: usize, run: Run)
    requires { (run.from ≤ run.to) × (run.to ≤ count) × (count ≤ length records.old) }
    ensures { records.new ≡ holding (without_run run.from run.to (in_use (table_of records.old count))) records.old }
{
    // An empty run moves nothing.
    if run.from < run.to {
        records.copy_within(run.to..count, run.from);
    }
}
