// What C and Rust link: every call with C's calling convention. Each borrows the kept state and is lent the records, and with them memory,
// marks and a buffer where its rule says so; a slice is passed as a pointer and a length. None asks anything of its caller (rule 8.1), and
// each contract determines the answer, every lent byte and record, and the state (rule 8.2). include/glintbasket.h declares these functions.
// The work is done below: here a result becomes the struct that C gets.
#![tactic(auto)]

ghost use Rattle.std.specs.Prelude.{◌≡◌, []};
ghost use Rattle.answer.specs.Answer.{number_of, told as told_of};
ghost use Rattle.address.specs.Address.{device_address, memory_address};
ghost use Rattle.memory.specs.Memory.{memory_of};
ghost use Rattle.registers.specs.Cards.{words_of};
ghost use Rattle.registers.specs.declared.Card.TheVariants.{Features64, Features128};
ghost use Rattle.conformance.specs.Saves.{NumberAnswers};
ghost use Rattle.device_file.specs.Read.{read_file};
ghost use Rattle.device_file.specs.Write.{start_file, append_record};
ghost use Rattle.device_file.specs.Scan.{header_of};
ghost use Rattle.emulator.specs.Calls.{power_on, request, device_read, device_write, host_write, host_read, invalidate, set_register, read_register, load_parts, save_parts, stop, start};
ghost use Rattle.emulator.specs.Contract.{told, told_done, told_line, told_walk, told_location};
ghost use Rattle.capi.specs.Structs.{success as succeeded, refusal as refused, answer_struct, found_struct, line_struct, walked_struct};
ghost use Rattle.capi.specs.Contract.{Tells, TellsAlone, FindsAt, ShowsLine, WalksQueue, Steps};
ghost use Rattle.capi.specs.DeviceFiles.{header_struct, no_record, record_struct, HandsRecord, written_struct, WritesFile};

use address::{DeviceAddress, MemoryAddress};
use answer::Refusal;
use device_file::{Header, Record};
use emulator::{LookUp, State};
use interrupts::Line;
use iommu::Mapping;
use registers::Card;

// An answer: a result, or the number and the place of a refusal.
#[repr(C)]
#[derive(Clone, Copy)]
pub struct Outcome {
    pub refused: bool,
    pub code: u32,
    pub place: u64,
    pub result: u64,
}

// Look-up's answer: its result is a memory address, rights, and the bytes left from the device address to the end of its mapping. Beside it
// and beside refusal 14 stands how many records were looked at.
#[repr(C)]
#[derive(Clone, Copy)]
pub struct Found {
    pub outcome: Outcome,
    pub address: MemoryAddress,
    pub rights: u32,
    pub left: u64,
    pub probes: u64,
}

// What is shown of an interrupt line: its event number, in the bits of a signed number, how often it was triggered, whether it is masked and
// whether it is pending. All are 0 where it is refused.
#[repr(C)]
#[derive(Clone, Copy)]
pub struct ShownLine {
    pub outcome: Outcome,
    pub number: u32,
    pub tally: u32,
    pub masked: bool,
    pub pending: bool,
}

// What a walk of a queue answers: its result is the number of buffers, and beside it stands the ring's index.
#[repr(C)]
#[derive(Clone, Copy)]
pub struct Walked {
    pub outcome: Outcome,
    pub index: u16,
}

// One step over a stream of parts: a refusal; the end; or a part, with the bounds of its value in the stream. `next` is the place of the
// next step. Numbers that a step has no use for are 0.
#[repr(C)]
#[derive(Clone, Copy)]
pub struct PartStep {
    pub refused: bool,
    pub end: bool,
    pub code: u32,
    pub place: u64,
    pub kind: u16,
    pub flags: u8,
    pub selector: u64,
    pub value_start: usize,
    pub value_length: usize,
    pub next: usize,
}

// What is read of a device file: how many records it has, as the result, and its header's fields, which are 0 where it is refused.
#[repr(C)]
#[derive(Clone, Copy)]
pub struct DeviceHeader {
    pub outcome: Outcome,
    pub magic: u32,
    pub version: u32,
    pub flags: u32,
}

// A record of a device file: its type, where it begins, and the bounds of its content in the file; or the end, where the file has no more
// records. What an answer has no use for is 0.
#[repr(C)]
#[derive(Clone, Copy)]
pub struct DeviceRecord {
    pub outcome: Outcome,
    pub end: bool,
    pub kind: u32,
    pub start: usize,
    pub content_start: usize,
    pub content_length: usize,
}

// What writing a device file answers: how many bytes of the buffer are in use stands beside the outcome, 0 where it is refused.
#[repr(C)]
#[derive(Clone, Copy)]
pub struct WrittenFile {
    pub outcome: Outcome,
    pub used: usize,
}

// ---- results as C has them: what an answer has no use for is 0

impl Outcome {
    fn success(value: u64) -> Outcome
        ensures { result ≡ succeeded value }
    {
        Outcome {
            refused: false,
            code: 0,
            place: 0,
            result: value,
        }
    }
}

impl From<Refusal> for Outcome {
    ghost from_gives = { λ e o. o ≡ refused (number_of e.reason) e.place };

    fn from(refusal: Refusal) -> Outcome {
        Outcome {
            refused: true,
            code: refusal.reason.number(),
            place: refusal.place,
            result: 0,
        }
    }
}

impl From<Result<u64, Refusal>> for Outcome {
    ghost from_gives = { λ r o. o ≡ answer_struct (told r) };

    fn from(done: Result<u64, Refusal>) -> Outcome {
        match done {
            Ok(value) => Outcome::success(value),
            Err(refusal) => Outcome::from(refusal),
        }
    }
}

impl From<Result<(), Refusal>> for Outcome {
    ghost from_gives = { λ r o. o ≡ answer_struct (told_done r) };

    fn from(done: Result<(), Refusal>) -> Outcome {
        match done {
            Ok(()) => Outcome::success(0),
            Err(refusal) => Outcome::from(refusal),
        }
    }
}

impl From<LookUp> for Found {
    ghost from_gives = { λ l r. r ≡ found_struct (told_location l.found) l.probes };

    fn from(look_up: LookUp) -> Found {
        match look_up.found {
            Ok(target) => Found {
                outcome: Outcome::success(0),
                address: target.address,
                rights: target.rights,
                left: target.left,
                probes: look_up.probes,
            },
            Err(refusal) => Found {
                outcome: Outcome::from(refusal),
                address: MemoryAddress(0),
                rights: 0,
                left: 0,
                probes: look_up.probes,
            },
        }
    }
}

impl From<Result<Line, Refusal>> for ShownLine {
    ghost from_gives = { λ l r. r ≡ line_struct (told_line l) };

    fn from(shown: Result<Line, Refusal>) -> ShownLine {
        match shown {
            Ok(line) => ShownLine {
                outcome: Outcome::success(0),
                number: line.number,
                tally: line.tally,
                masked: line.masked == interrupts::YES,
                pending: line.pending == interrupts::YES,
            },
            Err(refusal) => ShownLine {
                outcome: Outcome::from(refusal),
                number: 0,
                tally: 0,
                masked: false,
                pending: false,
            },
        }
    }
}

impl From<Result<virtqueue::Found, Refusal>> for Walked {
    ghost from_gives = { λ w r. r ≡ walked_struct (told_walk w) };

    fn from(walked: Result<virtqueue::Found, Refusal>) -> Walked {
        match walked {
            Ok(found) => Walked {
                outcome: Outcome::success(found.buffers as u64),
                index: found.index,
            },
            Err(refusal) => Walked {
                outcome: Outcome::from(refusal),
                index: 0,
            },
        }
    }
}

impl From<Result<Header, Refusal>> for DeviceHeader {
    ghost from_gives = { λ h r. r ≡ header_struct (told_of h) };

    fn from(read: Result<Header, Refusal>) -> DeviceHeader {
        match read {
            Ok(header) => DeviceHeader {
                outcome: Outcome::success(header.records),
                magic: header.magic,
                version: header.version,
                flags: header.flags,
            },
            Err(refusal) => DeviceHeader {
                outcome: Outcome::from(refusal),
                magic: 0,
                version: 0,
                flags: 0,
            },
        }
    }
}

impl DeviceRecord {
    // Where no record is handed out.
    fn none(outcome: Outcome, end: bool) -> DeviceRecord
        ensures { result ≡ no_record outcome end }
    {
        DeviceRecord {
            outcome,
            end,
            kind: 0,
            start: 0,
            content_start: 0,
            content_length: 0,
        }
    }
}

impl From<Result<Option<Record>, Refusal>> for DeviceRecord {
    ghost from_gives = { λ x r. r ≡ record_struct (told_of x) };

    fn from(read: Result<Option<Record>, Refusal>) -> DeviceRecord {
        match read {
            Ok(Some(record)) => DeviceRecord {
                outcome: Outcome::success(0),
                end: false,
                kind: record.kind,
                start: record.start,
                content_start: record.content_start,
                content_length: record.content_length,
            },
            Ok(None) => DeviceRecord::none(Outcome::success(0), true),
            Err(refusal) => DeviceRecord::none(Outcome::from(refusal), false),
        }
    }
}

impl From<Result<usize, Refusal>> for WrittenFile {
    ghost from_gives = { λ w r. r ≡ written_struct (told_of w) };

    fn from(written: Result<usize, Refusal>) -> WrittenFile {
        match written {
            Ok(used) => WrittenFile {
                outcome: Outcome::success(0),
                used,
            },
            Err(refusal) => WrittenFile {
                outcome: Outcome::from(refusal),
                used: 0,
            },
        }
    }
}

// ---- the calls. Each borrows the kept state and the records, and is lent memory and marks where its rule says so.

// Fresh start of the first card.
#[unsafe(no_mangle)]
pub extern "C" fn glint_power_on(
    state: &mut State,
    records: &[Mapping],
    bytes: &[u8],
    shadow: &mut [u8],
) -> Outcome
    ensures { Tells (power_on Features64) [] state.old records.now (memory_of bytes.now shadow.old) result [] (memory_of bytes.now shadow.new) state.new records.now }
{
    Outcome::from(emulator::power_on(Card::Features64, state, records, bytes, shadow))
}

// Fresh start of the second card, which has 128 feature bits.
#[unsafe(no_mangle)]
pub extern "C" fn glint_power_on_128(
    state: &mut State,
    records: &[Mapping],
    bytes: &[u8],
    shadow: &mut [u8],
) -> Outcome
    ensures { Tells (power_on Features128) [] state.old records.now (memory_of bytes.now shadow.old) result [] (memory_of bytes.now shadow.new) state.new records.now }
{
    Outcome::from(emulator::power_on(Card::Features128, state, records, bytes, shadow))
}

// A request, by target (0 the container, 1 the device) and number.
#[unsafe(no_mangle)]
pub extern "C" fn glint_request(
    state: &mut State,
    records: &mut [Mapping],
    bytes: &[u8],
    shadow: &[u8],
    target: u32,
    number: u32,
    buf: &mut [u8],
) -> Outcome
    ensures { Tells (request target number) buf.old state.old records.old (memory_of bytes.now shadow.now) result buf.new (memory_of bytes.now shadow.now) state.new records.new }
{
    Outcome::from(vfio::request(state, records, bytes, shadow, target, number, buf))
}

// Look-up.
#[unsafe(no_mangle)]
pub extern "C" fn glint_look_up(state: &State, records: &[Mapping], device: u64) -> Found
    ensures { FindsAt (device_address device) state.now records.now result }
{
    Found::from(emulator::look_up(state, records, DeviceAddress(device)))
}

// Shows an interrupt line.
#[unsafe(no_mangle)]
pub extern "C" fn glint_show_line(
    state: &State,
    records: &[Mapping],
    index: u32,
    line: u32,
) -> ShownLine
    ensures { ShowsLine index line state.now records.now result }
{
    ShownLine::from(emulator::show_line(state, records, index, line))
}

// Walks a queue.
#[unsafe(no_mangle)]
pub extern "C" fn glint_walk_queue(
    state: &State,
    records: &[Mapping],
    bytes: &[u8],
    shadow: &[u8],
    queue: u32,
    last: u16,
    numbers: &mut [u64],
) -> Walked
    ensures { WalksQueue queue last numbers.old state.now records.now (memory_of bytes.now shadow.now) result numbers.new }
{
    Walked::from(emulator::walk_queue(state, records, bytes, shadow, queue, last, numbers))
}

// Card read.
#[unsafe(no_mangle)]
pub extern "C" fn glint_device_read(
    state: &State,
    records: &[Mapping],
    bytes: &[u8],
    shadow: &[u8],
    device: u64,
    buf: &mut [u8],
) -> Outcome
    ensures { Tells (device_read (device_address device)) buf.old state.now records.now (memory_of bytes.now shadow.now) result buf.new (memory_of bytes.now shadow.now) state.now records.now }
{
    Outcome::from(emulator::device_read(state, records, bytes, shadow, DeviceAddress(device), buf))
}

// Card write.
#[unsafe(no_mangle)]
pub extern "C" fn glint_device_write(
    state: &State,
    records: &[Mapping],
    bytes: &mut [u8],
    shadow: &mut [u8],
    device: u64,
    buf: &[u8],
) -> Outcome
    ensures { Tells (device_write (device_address device)) buf.now state.now records.now (memory_of bytes.old shadow.old) result buf.now (memory_of bytes.new shadow.new) state.now records.now }
{
    Outcome::from(emulator::device_write(state, records, bytes, shadow, DeviceAddress(device), buf))
}

// Host store.
#[unsafe(no_mangle)]
pub extern "C" fn glint_host_write(
    state: &State,
    records: &[Mapping],
    bytes: &mut [u8],
    shadow: &mut [u8],
    address: u64,
    buf: &[u8],
) -> Outcome
    ensures { Tells (host_write (memory_address address)) buf.now state.now records.now (memory_of bytes.old shadow.old) result buf.now (memory_of bytes.new shadow.new) state.now records.now }
{
    Outcome::from(emulator::host_write(state, records, bytes, shadow, MemoryAddress(address), buf))
}

// Host load.
#[unsafe(no_mangle)]
pub extern "C" fn glint_host_read(
    state: &State,
    records: &[Mapping],
    bytes: &[u8],
    shadow: &[u8],
    address: u64,
    buf: &mut [u8],
) -> Outcome
    ensures { Tells (host_read (memory_address address)) buf.old state.now records.now (memory_of bytes.now shadow.now) result buf.new (memory_of bytes.now shadow.now) state.now records.now }
{
    Outcome::from(emulator::host_read(state, records, bytes, shadow, MemoryAddress(address), buf))
}

// Forget.
#[unsafe(no_mangle)]
pub extern "C" fn glint_invalidate(
    state: &State,
    records: &[Mapping],
    bytes: &[u8],
    shadow: &mut [u8],
    address: u64,
    length: u64,
) -> Outcome
    ensures { Tells (invalidate (memory_address address) length) [] state.now records.now (memory_of bytes.now shadow.old) result [] (memory_of bytes.now shadow.new) state.now records.now }
{
    Outcome::from(emulator::invalidate(
        state,
        records,
        bytes,
        shadow,
        MemoryAddress(address),
        length,
    ))
}

// Sets a register.
#[unsafe(no_mangle)]
pub extern "C" fn glint_set_register(
    state: &mut State,
    records: &[Mapping],
    kind: u64,
    selector: u64,
    value: &[u8],
) -> Outcome
    ensures { TellsAlone (set_register kind selector) value.now state.old records.now result value.now state.new records.now }
{
    Outcome::from(emulator::set_register(state, records, kind, selector, value))
}

// Reads a register.
#[unsafe(no_mangle)]
pub extern "C" fn glint_read_register(
    state: &State,
    records: &[Mapping],
    kind: u64,
    selector: u64,
    buf: &mut [u8],
) -> Outcome
    ensures { TellsAlone (read_register kind selector) buf.old state.now records.now result buf.new state.now records.now }
{
    Outcome::from(emulator::read_register(state, records, kind, selector, buf))
}

// Loads a stream of parts.
#[unsafe(no_mangle)]
pub extern "C" fn glint_load_parts(state: &mut State, records: &[Mapping], stream: &[u8]) -> Outcome
    ensures { TellsAlone load_parts stream.now state.old records.now result stream.now state.new records.now }
{
    Outcome::from(emulator::load_parts(state, records, stream))
}

// Saves the registers as a stream of parts.
#[unsafe(no_mangle)]
pub extern "C" fn glint_save_parts(state: &State, records: &[Mapping], buf: &mut [u8]) -> Outcome
    ensures { TellsAlone save_parts buf.old state.now records.now result buf.new state.now records.now }
{
    Outcome::from(emulator::save_parts(state, records, buf))
}

// Stops the device.
#[unsafe(no_mangle)]
pub extern "C" fn glint_stop(state: &mut State, records: &[Mapping]) -> Outcome
    ensures { TellsAlone stop [] state.old records.now result [] state.new records.now }
{
    Outcome::from(emulator::stop(state, records))
}

// Starts the device.
#[unsafe(no_mangle)]
pub extern "C" fn glint_start(state: &mut State, records: &[Mapping]) -> Outcome
    ensures { TellsAlone start [] state.old records.now result [] state.new records.now }
{
    Outcome::from(emulator::start(state, records))
}

// What a step tells that finds nothing.
const NO_PART: PartStep = PartStep {
    refused: false,
    end: false,
    code: 0,
    place: 0,
    kind: 0,
    flags: 0,
    selector: 0,
    value_start: 0,
    value_length: 0,
    next: 0,
};

// A step of the walker over a stream.
#[unsafe(no_mangle)]
pub extern "C" fn glint_step(stream: &[u8], place: usize) -> PartStep
    ensures { Steps stream.now place result }
{
    let here = PartStep {
        next: place,
        ..NO_PART
    };
    match parts::step_at(stream, place) {
        Ok(Some(part)) => {
            let value_start = place + parts::HEADER_SIZE;
            PartStep {
                kind: part.kind,
                flags: part.flags,
                selector: part.selector,
                value_start,
                value_length: part.next - value_start,
                next: part.next,
                ..NO_PART
            }
        }
        Ok(None) => PartStep { end: true, ..here },
        Err(refusal) => PartStep {
            refused: true,
            code: refusal.reason.number(),
            place: refusal.place,
            ..here
        },
    }
}

// Whether a stream is what saving writes on the card with 64 feature bits: 2^64 - 1 says yes; any other number is the length of its longest
// beginning with which some save begins.
#[unsafe(no_mangle)]
pub extern "C" fn glint_check_save(stream: &[u8]) -> u64
    ensures { NumberAnswers (words_of Features64) stream.now result }
{
    conformance::check_number(Card::Features64, stream)
}

// The same on the card with 128.
#[unsafe(no_mangle)]
pub extern "C" fn glint_check_save_128(stream: &[u8]) -> u64
    ensures { NumberAnswers (words_of Features128) stream.now result }
{
    conformance::check_number(Card::Features128, stream)
}

// ---- device files, which need no bench

// Judges a whole device file, and reads its header.
#[unsafe(no_mangle)]
pub extern "C" fn glint_read_device_file(file: &[u8]) -> DeviceHeader
    ensures { result ≡ header_struct (header_of (read_file file.now)) }
{
    DeviceHeader::from(device_file::read(file))
}

// Judges a whole device file, and hands out record `n`, the first being 0.
#[unsafe(no_mangle)]
pub extern "C" fn glint_read_device_record(file: &[u8], n: u64) -> DeviceRecord
    ensures { HandsRecord file.now n result }
{
    DeviceRecord::from(device_file::read_record(file, n))
}

// Starts a device file in a buffer.
#[unsafe(no_mangle)]
pub extern "C" fn glint_start_device_file(
    buf: &mut [u8],
    magic: u32,
    version: u32,
    flags: u32,
) -> WrittenFile
    ensures { WritesFile buf.old (start_file buf.old magic version flags) result buf.new }
{
    WrittenFile::from(device_file::start(buf, magic, version, flags))
}

// Appends a record to the device file in a buffer's first `used` bytes.
#[unsafe(no_mangle)]
pub extern "C" fn glint_append_device_record(
    buf: &mut [u8],
    used: usize,
    kind: u32,
    content: &[u8],
) -> WrittenFile
    ensures { WritesFile buf.old (append_record buf.old used kind content.now) result buf.new }
{
    WrittenFile::from(device_file::append(buf, used, kind, content))
}
