// The emulator: the kept state and its soundness, and every call but requests, whole. Whatever a call is given, it decides refusal 1 first,
// and then makes its own checks. State, records, memory and marks stay parameters of their own, as C passes them: which of them a call
// borrows to write differs from call to call, so that no one struct of them would serve.
#![tactic(auto, using(answer::proofs::Checks::decides, answer::proofs::Checks::goes_on, answer::proofs::Tests::and_first, answer::proofs::Tests::and_second))]

ghost use Rattle.std.specs.Prelude.{ℕ, ◌≡◌, ◌≤◌, List, [], leb, eqb, ltb, length};
ghost use Rattle.answer.specs.Tests.{◌and◌};
ghost use Rattle.answer.specs.Codes.{BadBench, Range};
ghost use Rattle.answer.specs.Checks.{◌then◌, ◌unless◌};
ghost use Rattle.answer.specs.Answer.{verdict_of};
ghost use Rattle.answer.specs.Answer as answers;
ghost use Rattle.address.specs.Address.{memory_limit, device_limit};
ghost use Rattle.iommu.specs.Table.{is_iommu_type, translation_of, translate, table_of, in_use, Sound, Placed};
ghost use Rattle.memory.specs.Memory.{Memory, memory_of};
ghost use Rattle.virtqueue.specs.Ring.{open_queue};
ghost use Rattle.registers.specs.Cards.{is_card};
ghost use Rattle.registers.specs.File.{sound_file, file_of};
ghost use Rattle.interrupts.specs.Lines.{sound_lines};
ghost use Rattle.emulator.specs.Machine.{machine_of, emulator_of, both, sound as sound_machine, lendable as can_lend, usable as can_use, powered_on};
ghost use Rattle.emulator.specs.Calls.{power_on, device_read, device_write, host_write, host_read, set_register, read_register, show_line, walk_queue, load_parts, save_parts, stop, start, queue_value};
ghost use Rattle.emulator.specs.Calls as calls;
ghost use Rattle.emulator.specs.Contract.{Meets, MeetsAlone, Locates, told, told_done, told_line, told_walk, state_with, everything};
ghost use Rattle.emulator.specs.declared.State.{State as StateRecord};

use address::{DeviceAddress, MemoryAddress};
use answer::{Reason, Refusal};
use interrupts::{Line, Lines};
use iommu::{Mapping, Search, Target};
use registers::{Card, Registers};
use virtqueue::{Found, Queue};
use wire::Number;

// The state that a caller keeps between calls: the length of memory noted at power on, how many of the lent records are in use, the
// device's registers, whether the device runs, which card it is, by its 64-bit words of features: 1 or 2, the number of the container's IOMMU
// type: 1 or 3, and the interrupt lines. The device runs where `running` is 1, and no other value of that byte says so. Any values may stand
// in the state: each call says whether they make a sound one.
#[repr(C)]
#[derive(Clone, Copy)]
pub struct State {
    pub memory_length: u64,
    pub count: usize,
    pub registers: Registers,
    pub running: u8,
    pub words: u8,
    pub iommu_type: u32,
    pub lines: Lines,
}

// What the byte `running` of a state holds where the device runs, and what a call that stops it leaves there.
const RUNNING: u8 = 1;

const STOPPED: u8 = 0;

// The number of the last queue, and where the registers of queues begin among the slots.
const LAST_QUEUE: u32 = 3;

const QUEUES: usize = 6;

// What look-up answers, and how many records it looked at for that.
#[derive(Clone, Copy)]
pub struct LookUp {
    pub found: Result<Target, Refusal>,
    pub probes: u64,
}

impl State {
    // Of the records that are lent, those in use.
    #[tactic(auto, unfolding(iommu::specs::Table::in_use))]
    pub fn mappings<'a>(&self, records: &'a [Mapping]) -> &'a [Mapping]
        requires { self.now.count ≤ length records.now }
        ensures { result.now ≡ in_use (table_of records.now self.now.count) }
    {
        &records[..self.count]
    }

    // Whether the card, the container's IOMMU type, the interrupt lines, the noted length and the registers are sound.
    fn sound_device(&self) -> bool
        ensures { result ≡ (is_card self.now.words and is_iommu_type self.now.iommu_type and sound_lines self.now.lines.lines and leb self.now.memory_length memory_limit and sound_file self.now.words (file_of self.now.words self.now.registers)) }
    {
        registers::is_card(self.words)
            && iommu::is_iommu_type(self.iommu_type)
            && interrupts::sound(self.lines)
            && self.memory_length <= address::MEMORY_LIMIT
            && registers::sound(self.words, self.registers)
    }
}

// ---- refusal 1

// Whether a kept state is sound with the records that are lent.
pub fn sound(state: &State, records: &[Mapping]) -> bool
    ensures { result ≡ sound_machine (length records.now) (machine_of state.now records.now) }
{
    // The device first: where the noted length is known to be in range, the loop over records has one test less.
    state.sound_device() && iommu::sound(records, state.count, state.memory_length)
}

// Whether memory and marks, by their lengths, can be lent: there is one mark byte for each eight bytes begun.
fn lendable(bytes: &[u8], shadow: &[u8]) -> bool
    ensures { result ≡ can_lend (memory_of bytes.now shadow.now) }
{
    shadow.len() == bytes.len().div_ceil(8) && bytes.len() as u64 <= address::MEMORY_LIMIT
}

// Whether a call that is given state, records, memory and marks may use them.
#[tactic(auto, using(answer::proofs::Tests::and_first, answer::proofs::Tests::and_second), unfolding(crate::specs::Machine::usable, crate::specs::Machine::emulator_of, crate::specs::Machine::as_noted, crate::specs::Machine::machine_of))]
pub fn usable(state: &State, records: &[Mapping], bytes: &[u8], shadow: &[u8]) -> bool
    ensures { result ≡ can_use both (emulator_of state.now records.now (memory_of bytes.now shadow.now)) }
{
    lendable(bytes, shadow) && bytes.len() as u64 == state.memory_length && sound(state, records)
}

// Refusal 1 of a call that is given state and records alone.
pub fn check_sound(state: &State, records: &[Mapping]) -> Result<(), Refusal>
    ensures { verdict_of result ≡ (BadBench unless sound_machine (length records.now) (machine_of state.now records.now)) }
{
    Reason::BadBench.unless(sound(state, records))
}

// That of one that is given memory and marks as well.
pub fn check_usable(
    state: &State,
    records: &[Mapping],
    bytes: &[u8],
    shadow: &[u8],
) -> Result<(), Refusal>
    ensures { verdict_of result ≡ (BadBench unless can_use both (emulator_of state.now records.now (memory_of bytes.now shadow.now))) }
{
    Reason::BadBench.unless(usable(state, records, bytes, shadow))
}

// ---- power on

// The state that a fresh start of a card leaves, with a memory of `length` bytes: an empty table, and the device stopped and reset.
pub fn fresh(card: Card, length: usize) -> State
    ensures { (s : StateRecord) → result ≡ state_with everything (powered_on card length) s }
{
    State {
        memory_length: length as u64,
        count: 0,
        registers: registers::reset(),
        running: STOPPED,
        words: registers::words_of(card),
        iommu_type: iommu::TYPE1V2,
        lines: interrupts::disabled(),
    }
}

// Fresh start of a card: every mark is cleared, and nothing of the old state stays. In place in the two names that C links for it, which takes
// less stack.
#[inline(always)]
pub fn power_on(
    card: Card,
    state: &mut State,
    records: &[Mapping],
    bytes: &[u8],
    shadow: &mut [u8],
) -> Result<(), Refusal>
    ensures { Meets (power_on card) [] state.old records.now (memory_of bytes.now shadow.old) (told_done result) [] (memory_of bytes.now shadow.new) state.new records.now }
{
    Reason::BadBench.unless(lendable(bytes, shadow))?;
    Reason::BadBench.unless(records.len() <= iommu::CAPACITY)?;
    memory::clear(shadow, 0, bytes.len());
    *state = fresh(card, bytes.len());
    Ok(())
}

// ---- look-up, and transfers of the card

// The checks of a look-up that look at no mapping.
fn check_look_up(state: &State, records: &[Mapping], d: DeviceAddress) -> Result<(), Refusal>
    ensures { verdict_of result ≡ (BadBench unless sound_machine (length records.now) (machine_of state.now records.now) then Range unless ltb d.0 device_limit) }
{
    check_sound(state, records)?;
    Reason::Range.unless(d.0 < address::DEVICE_LIMIT)
}

// What a device address stands for, by a search that has ended.
fn target_at(mappings: &[Mapping], search: Search, d: DeviceAddress) -> Option<Target>
    requires { (Sound mappings.now) × Placed mappings.now d search.lo search.held }
    ensures { translation_of result ≡ translate mappings.now d }
{
    if search.held {
        iommu::shown_by(mappings[search.lo], d)
    } else {
        None
    }
}

// Look-up: where a device address lies in memory, with which rights, and how much of its mapping is left from there on.
pub fn look_up(state: &State, records: &[Mapping], d: DeviceAddress) -> LookUp
    ensures { (m : Memory) → Locates d state.now records.now m result }
{
    if let Err(refusal) = check_look_up(state, records, d) {
        return LookUp {
            found: Err(refusal),
            probes: 0,
        };
    }
    let mappings = state.mappings(records);
    let search = iommu::find(mappings, d);
    LookUp {
        found: target_at(mappings, search, d).ok_or(Reason::Unmapped.at(0)),
        probes: search.probes,
    }
}

// Card read: the whole of `buf` is filled from device address `d` on.
pub fn device_read(
    state: &State,
    records: &[Mapping],
    bytes: &[u8],
    shadow: &[u8],
    d: DeviceAddress,
    buf: &mut [u8],
) -> Result<(), Refusal>
    ensures { Meets (device_read d) buf.old state.now records.now (memory_of bytes.now shadow.now) (told_done result) buf.new (memory_of bytes.now shadow.now) state.now records.now }
{
    check_usable(state, records, bytes, shadow)?;
    let mappings = state.mappings(records);
    let checked = dma::check_transfer(mappings, bytes.len(), shadow, d, buf.len(), false);
    checked.checks?;
    dma::read(mappings, checked.first, bytes, d, buf);
    Ok(())
}

// Card write: `buf` goes to device address `d` and the ones behind it, and its bytes are written.
pub fn device_write(
    state: &State,
    records: &[Mapping],
    bytes: &mut [u8],
    shadow: &mut [u8],
    d: DeviceAddress,
    buf: &[u8],
) -> Result<(), Refusal>
    ensures { Meets (device_write d) buf.now state.now records.now (memory_of bytes.old shadow.old) (told_done result) buf.now (memory_of bytes.new shadow.new) state.now records.now }
{
    check_usable(state, records, bytes, shadow)?;
    let mappings = state.mappings(records);
    let checked = dma::check_transfer(mappings, bytes.len(), shadow, d, buf.len(), true);
    checked.checks?;
    dma::write(mappings, checked.first, bytes, shadow, d, buf);
    Ok(())
}

// ---- transfers of the host

// Host store: `buf` goes to memory from `a` on, and its bytes are written.
pub fn host_write(
    state: &State,
    records: &[Mapping],
    bytes: &mut [u8],
    shadow: &mut [u8],
    a: MemoryAddress,
    buf: &[u8],
) -> Result<(), Refusal>
    ensures { Meets (host_write a) buf.now state.now records.now (memory_of bytes.old shadow.old) (told_done result) buf.now (memory_of bytes.new shadow.new) state.now records.now }
{
    check_usable(state, records, bytes, shadow)?;
    memory::check_host_write(bytes.len() as u64, a, buf.len())?;
    memory::store(bytes, shadow, a.0 as usize, buf, 0, buf.len());
    Ok(())
}

// Host load: the whole of `buf` is filled from memory at `a`.
pub fn host_read(
    state: &State,
    records: &[Mapping],
    bytes: &[u8],
    shadow: &[u8],
    a: MemoryAddress,
    buf: &mut [u8],
) -> Result<(), Refusal>
    ensures { Meets (host_read a) buf.old state.now records.now (memory_of bytes.now shadow.now) (told_done result) buf.new (memory_of bytes.now shadow.now) state.now records.now }
{
    check_usable(state, records, bytes, shadow)?;
    memory::check_host_read(bytes.len() as u64, shadow, a, buf.len())?;
    let n = buf.len();
    wire::copy(buf, 0, bytes, a.0 as usize, n);
    Ok(())
}

// Forget: the marks of `n` bytes from `a` on are cleared; the bytes stay.
pub fn invalidate(
    state: &State,
    records: &[Mapping],
    bytes: &[u8],
    shadow: &mut [u8],
    a: MemoryAddress,
    n: u64,
) -> Result<(), Refusal>
    ensures { Meets (calls.invalidate a n) [] state.now records.now (memory_of bytes.now shadow.old) (told_done result) [] (memory_of bytes.now shadow.new) state.now records.now }
{
    check_usable(state, records, bytes, shadow)?;
    memory::check_invalidate(bytes.len() as u64, a, n)?;
    memory::clear(shadow, a.0 as usize, n as usize);
    Ok(())
}

// ---- registers and interrupt lines

// Sets the register of a type and a selector number to a value.
pub fn set_register(
    state: &mut State,
    records: &[Mapping],
    kind: u64,
    selector: u64,
    value: &[u8],
) -> Result<(), Refusal>
    ensures { MeetsAlone (set_register kind selector) value.now state.old records.now (told_done result) value.now state.new records.now }
{
    check_sound(state, records)?;
    registers::try_set(state.words, &mut state.registers, kind, selector, value)
}

// Reads the register of a type and a selector number: its value goes to the buffer's start, and its length is the result.
pub fn read_register(
    state: &State,
    records: &[Mapping],
    kind: u64,
    selector: u64,
    buf: &mut [u8],
) -> Result<u64, Refusal>
    ensures { MeetsAlone (read_register kind selector) buf.old state.now records.now (told result) buf.new state.now records.now }
{
    check_sound(state, records)?;
    let n = registers::try_read(state.words, state.registers, kind, selector, buf)?;
    Ok(n as u64)
}

// Shows an interrupt line, by its index and its number there.
pub fn show_line(state: &State, records: &[Mapping], index: u32, line: u32) -> Result<Line, Refusal>
    ensures { MeetsAlone (show_line index line) [] state.now records.now (told_line result) [] state.now records.now }
{
    check_sound(state, records)?;
    interrupts::try_shown(state.lines, index, line)
}

// ---- queues

// The queue of a number, as its register tells of it. Of every card the register of a queue is the same.
fn open_queue(registers: &Registers, queue: u32) -> Result<Queue, Refusal>
    ensures { (w : ℕ) → answers.told result ≡ open_queue queue (queue_value w (file_of w registers.now) queue) }
{
    Reason::Index.when(LAST_QUEUE < queue)?;
    let r = registers.slots[QUEUES + queue as usize];
    Reason::QueueNotReady.unless(r.set == registers::SET)?;
    Reason::QueueNotReady.when(u16::get(&r.bytes, 4) == 0)?;
    Ok(Queue {
        size: u16::get(&r.bytes, 0),
        table: u64::get(&r.bytes, 8),
        driver: u64::get(&r.bytes, 16),
    })
}

// Walks a queue from the caller's last index on: the numbers of what it finds go to the array.
pub fn walk_queue(
    state: &State,
    records: &[Mapping],
    bytes: &[u8],
    shadow: &[u8],
    queue: u32,
    last: u16,
    numbers: &mut [u64],
) -> Result<Found, Refusal>
    ensures { Meets (walk_queue queue last) numbers.old state.now records.now (memory_of bytes.now shadow.now) (told_walk result) numbers.new (memory_of bytes.now shadow.now) state.now records.now }
{
    check_usable(state, records, bytes, shadow)?;
    let q = open_queue(&state.registers, queue)?;
    virtqueue::walk_queue(state.mappings(records), bytes, shadow, q, last, numbers)
}

// ---- parts

// Loads a stream of parts: the registers that it names take their values, and all others become unset.
pub fn load_parts(state: &mut State, records: &[Mapping], stream: &[u8]) -> Result<(), Refusal>
    ensures { MeetsAlone load_parts stream.now state.old records.now (told_done result) stream.now state.new records.now }
{
    check_sound(state, records)?;
    state.registers = parts::load(state.words, state.running == RUNNING, stream)?;
    Ok(())
}

// Saves the registers as a stream of parts at the buffer's start; its length is the result.
pub fn save_parts(state: &State, records: &[Mapping], buf: &mut [u8]) -> Result<u64, Refusal>
    ensures { MeetsAlone save_parts buf.old state.now records.now (told result) buf.new state.now records.now }
{
    check_sound(state, records)?;
    let n = parts::try_save(state.words, state.registers, state.running == RUNNING, buf)?;
    Ok(n as u64)
}

// ---- stop and start, which set the running state whatever it was. Each is three lines; one function for both would be a third beside them.

pub fn stop(state: &mut State, records: &[Mapping]) -> Result<(), Refusal>
    ensures { MeetsAlone stop [] state.old records.now (told_done result) [] state.new records.now }
{
    check_sound(state, records)?;
    state.running = STOPPED;
    Ok(())
}

pub fn start(state: &mut State, records: &[Mapping]) -> Result<(), Refusal>
    ensures { MeetsAlone start [] state.old records.now (told_done result) [] state.new records.now }
{
    check_sound(state, records)?;
    state.running = RUNNING;
    Ok(())
}
