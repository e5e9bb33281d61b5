// Requests on a VFIO container and on its device.
#![tactic(auto)]

mod requests;

ghost use Rattle.std.specs.Prelude.{◌≡◌, true, ℕ, List, ◌≤◌, length};
ghost use Rattle.wire.specs.Field.{field};
ghost use Rattle.memory.specs.Memory.{memory_of};
ghost use Rattle.emulator.specs.Machine.{machine_of, sound as sound_machine};
ghost use Rattle.emulator.specs.Requests.{check_extension, set_iommu, get_iommu_info, map_dma, unmap_dma, get_info, get_region_info, get_irq_info, set_irqs, reset_device, requested_mapping};
ghost use Rattle.emulator.specs.Calls.{request};
ghost use Rattle.emulator.specs.Contract.{Meets, told};
ghost use Rattle.vfio.specs.Handlers.{Answers, Keeps, Replies, Admits};

use address::{DeviceAddress, MemoryAddress};
use answer::{Reason, Refusal};
use emulator::State;
use iommu::Mapping;
use requests::Request;
use wire::Number;

// ---- container

const API_VERSION: u64 = 0;

// The flag that says that page sizes are given, and these: a bitmap, in which a page of 4,096 bytes is that bit.
const PAGE_SIZES_GIVEN: u32 = 1;

const PAGE_SIZES: u64 = 4096;

fn check_extension(buf: &[u8]) -> Result<u64, Refusal>
    requires { 4 ≤ length buf.now }
    ensures { Answers check_extension buf.now (told result) buf.now }
{
    Ok(iommu::is_iommu_type(u32::get(buf, 0)) as u64)
}

fn set_iommu(state: &mut State, buf: &[u8]) -> Result<u64, Refusal>
    requires { 4 ≤ length buf.now }
    ensures { Keeps set_iommu buf.now state.old (told result) buf.now state.new }
{
    let kind = u32::get(buf, 0);
    iommu::check_set_iommu(state.count, kind)?;
    state.iommu_type = kind;
    Ok(0)
}

fn get_iommu_info(buf: &mut [u8]) -> Result<u64, Refusal>
    requires { 16 ≤ length buf.old }
    ensures { Answers get_iommu_info buf.old (told result) buf.new }
{
    PAGE_SIZES_GIVEN.put(buf, 4);
    PAGE_SIZES.put(buf, 8);
    Ok(0)
}

// The mapping that a map asks for: the memory address stands before the device address.
#[tactic(auto, unfolding(emulator::specs::Requests::requested_mapping))]
fn requested_mapping(buf: &[u8]) -> Mapping
    requires { 32 ≤ length buf.now }
    ensures { result ≡ requested_mapping buf.now }
{
    Mapping {
        rights: u32::get(buf, 4),
        memory: MemoryAddress(u64::get(buf, 8)),
        device: DeviceAddress(u64::get(buf, 16)),
        size: u64::get(buf, 24),
    }
}

fn map_dma(state: &mut State, records: &mut [Mapping], buf: &[u8]) -> Result<u64, Refusal>
    requires { (sound_machine (length records.old) (machine_of state.old records.old) ≡ true) × (32 ≤ length buf.now) }
    ensures { Replies map_dma buf.now state.old records.old (told result) buf.now state.new records.new }
{
    let mapping = requested_mapping(buf);
    let held = state.mappings(records);
    let at = iommu::plan_map(held, state.memory_length, records.len(), mapping)?;
    iommu::insert(records, state.count, at, mapping);
    state.count += 1;
    Ok(0)
}

// The size field takes in the size asked, and gives out the sum of the sizes removed.
fn unmap_dma(state: &mut State, records: &mut [Mapping], buf: &mut [u8]) -> Result<u64, Refusal>
    requires { (sound_machine (length records.old) (machine_of state.old records.old) ≡ true) × (24 ≤ length buf.old) }
    ensures { Replies unmap_dma buf.old state.old records.old (told result) buf.new state.new records.new }
{
    let flags = u32::get(buf, 4);
    let start = DeviceAddress(u64::get(buf, 8));
    let size = u64::get(buf, 16);
    let held = state.mappings(records);
    let run = iommu::plan_unmap(held, state.iommu_type, flags, start, size)?;
    let removed = iommu::sizes(held, run);
    iommu::close(records, state.count, run);
    state.count -= run.to - run.from;
    removed.put(buf, 16);
    Ok(0)
}

// ---- device

// A region of the device.
#[derive(Clone, Copy)]
struct Region {
    size: u64,
    flags: u32,
}

const NO_REGION: Region = Region { size: 0, flags: 0 };

const REGIONS: [Region; 9] = [
    Region {
        size: 0x4000,
        flags: 7,
    },
    NO_REGION,
    NO_REGION,
    NO_REGION,
    NO_REGION,
    NO_REGION,
    NO_REGION,
    Region {
        size: 0x100,
        flags: 3,
    },
    NO_REGION,
];

// A region lies at its index times 2^40.
const REGION_STRIDE: u64 = 0x10000000000;

// The device can be reset (1) and is a PCI device (2).
const DEVICE_FLAGS: u32 = 3;

const REGION_COUNT: u32 = 9;

const INTERRUPT_COUNT: u32 = 4;

fn get_info(buf: &mut [u8]) -> Result<u64, Refusal>
    requires { 16 ≤ length buf.old }
    ensures { Answers get_info buf.old (told result) buf.new }
{
    DEVICE_FLAGS.put(buf, 4);
    REGION_COUNT.put(buf, 8);
    INTERRUPT_COUNT.put(buf, 12);
    Ok(0)
}

// Flags, reserved bytes, size and offset are written, and nothing before the index is judged.
#[tactic(auto, using(crate::proofs::Handlers::below))]
fn get_region_info(buf: &mut [u8]) -> Result<u64, Refusal>
    requires { 32 ≤ length buf.old }
    ensures { Answers get_region_info buf.old (told result) buf.new }
{
    let index = u32::get(buf, 8);
    Reason::Index.unless(index < REGION_COUNT)?;
    let region = REGIONS[index as usize];
    region.flags.put(buf, 4);
    0u32.put(buf, 12);
    region.size.put(buf, 16);
    (index as u64 * REGION_STRIDE).put(buf, 24);
    Ok(0)
}

fn get_irq_info(buf: &mut [u8]) -> Result<u64, Refusal>
    requires { 16 ≤ length buf.old }
    ensures { Answers get_irq_info buf.old (told result) buf.new }
{
    let index = u32::get(buf, 8);
    let interrupt = interrupts::index_at(index).ok_or(Reason::Index.at(0))?;
    interrupt.flags.put(buf, 4);
    interrupt.count.put(buf, 12);
    Ok(0)
}

// Sets interrupt lines up or acts on them.
fn set_irqs(state: &mut State, buf: &[u8]) -> Result<u64, Refusal>
    requires { (20 ≤ length buf.now) × (field buf.now 0 4 ≤ length buf.now) }
    ensures { Keeps set_irqs buf.now state.old (told result) buf.now state.new }
{
    interrupts::try_set(&mut state.lines, buf)?;
    Ok(0)
}

fn reset_device(state: &mut State) -> Result<u64, Refusal>
    ensures { (buf : List ℕ) → Keeps reset_device buf state.old (told result) buf state.new }
{
    state.registers = registers::reset();
    state.lines = interrupts::disabled();
    Ok(0)
}

// ---- the call

// Checks 2, 3 and 4, and which request it is.
fn admit(target: u32, number: u32, buf: &[u8]) -> Result<Request, Refusal>
    ensures { Admits target number buf.now result }
{
    let entry = requests::identify(target, number).ok_or(Reason::NoSuchRequest.at(0))?;
    Reason::Short.when(buf.len() < entry.size)?;
    if entry.has_argsz {
        let argsz = u32::get(buf, 0) as usize;
        Reason::ArgSize.unless(entry.size <= argsz && argsz <= buf.len())?;
    }
    Ok(entry.request)
}

// A request, by target (0 the container, 1 the device) and number.
pub fn request(
    state: &mut State,
    records: &mut [Mapping],
    bytes: &[u8],
    shadow: &[u8],
    target: u32,
    number: u32,
    buf: &mut [u8],
) -> Result<u64, Refusal>
    ensures { Meets (request target number) buf.old state.old records.old (memory_of bytes.now shadow.now) (told result) buf.new (memory_of bytes.now shadow.now) state.new records.new }
{
    emulator::check_usable(state, records, bytes, shadow)?;
    match admit(target, number, buf)? {
        Request::GetApiVersion => Ok(API_VERSION),
        Request::CheckExtension => check_extension(buf),
        Request::SetIommu => set_iommu(state, buf),
        Request::GetIommuInfo => get_iommu_info(buf),
        Request::MapDma => map_dma(state, records, buf),
        Request::UnmapDma => unmap_dma(state, records, buf),
        Request::GetInfo => get_info(buf),
        Request::GetRegionInfo => get_region_info(buf),
        Request::GetIrqInfo => get_irq_info(buf),
        Request::SetIrqs => set_irqs(state, buf),
        Request::ResetDevice => reset_device(state),
    }
}
