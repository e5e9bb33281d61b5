// The interrupt lines of the device: what each keeps, the request that sets them up and acts on them, and the look at one.
#![tactic(auto, using(answer::proofs::Checks::decides, answer::proofs::Checks::goes_on))]

ghost use Rattle.std.specs.Prelude.{◌≡◌, Result, ◌+◌, ◌*◌, ◌/◌, ◌%◌, ◌<◌, ◌≤◌, length, false, negsuc, ◌==◌, int_lt, nat_eq, nat_lt, is_some, unwrap_or, IfOk, MatchResult};
ghost use Rattle.answer.specs.Tests.{◌and◌};
ghost use Rattle.answer.specs.Codes.{Index};
ghost use Rattle.answer.specs.Checks.{Pass, ◌unless◌};
ghost use Rattle.answer.specs.Answer.{verdict_of};
ghost use Rattle.interrupts.specs.Lines.{line_count, indices, interrupt, index_at, first_line, event_number, lower, assigned, sound_lines, stored, off, with_flags, raised, triggered, with_mask, unmasked, disabled_lines};
ghost use Rattle.interrupts.specs.Requests.{argsz_of, data_start, data_number, action_number, data_none, act_trigger, Read, Asks, AskedBy, flags_of, count_of, disables, width, changed_line, field_checks, data_checks, event_at, any_lower, set_checks, acted, changed_lines, show_checks, line_at};

use answer::{Reason, Refusal};
use wire::Number;

// One line. `number` has the 32 bits of its event number, which is signed: none is assigned where it is −1. It is masked, or has an event
// pending, where that byte is 1, and no other value says so. `tally` counts its events, modulo 2^32.
#[repr(C)]
#[derive(Clone, Copy)]
pub struct Line {
    pub number: u32,
    pub tally: u32,
    pub masked: u8,
    pub pending: u8,
}

// How many lines the indices have in all.
pub const LINES: usize = 25;

// The lines of all indices, one index after the other.
#[repr(C)]
#[derive(Clone, Copy)]
pub struct Lines {
    pub lines: [Line; LINES],
}

// What the byte of a flag that is set holds.
pub const YES: u8 = 1;

// The bits of −1.
const NO_EVENT: u32 = 0xffffffff;

// ---- the indices

// What an index has: how many lines, and the flags that tell what is done to them.
#[derive(Clone, Copy)]
pub struct Interrupt {
    pub count: u32,
    pub flags: u32,
}

// Interrupts 0 to 3, each with the place of its first line: behind those of the indices before it.
struct Entry {
    first: usize,
    interrupt: Interrupt,
}

const INDICES: [Entry; 4] = [
    Entry {
        first: 0,
        interrupt: Interrupt { count: 1, flags: 7 },
    },
    Entry {
        first: 1,
        interrupt: Interrupt { count: 8, flags: 9 },
    },
    Entry {
        first: 9,
        interrupt: Interrupt {
            count: 16,
            flags: 9,
        },
    },
    Entry {
        first: LINES,
        interrupt: Interrupt { count: 0, flags: 0 },
    },
];

impl Interrupt {
    // Flags are bits of the number that C is told, and each has its test.
    fn is_maskable(self) -> bool
        ensures { result ≡ (self.flags / 2 % 2 == 1) }
    {
        self.flags / 2 % 2 == 1
    }

    fn is_automasked(self) -> bool
        ensures { result ≡ (self.flags / 4 % 2 == 1) }
    {
        self.flags / 4 % 2 == 1
    }
}

// What an index has, where there is one.
#[tactic(auto, unfolding(crate::specs::Lines::index_at))]
pub fn index_at(index: u32) -> Option<Interrupt>
    ensures there { is_some result ≡ nat_lt index (length indices) }
    ensures fields { unwrap_or result (interrupt 0 0) ≡ index_at index }
{
    INDICES.get(index as usize).map(|entry| entry.interrupt)
}

// What it has in numbers: no lines and no flags where there is no such index.
pub fn count_of(index: u32) -> u32
    ensures { result ≡ (index_at index).count }
{
    index_at(index).map_or(0, |found| found.count)
}

pub fn flags_of(index: u32) -> u32
    ensures { result ≡ (index_at index).flags }
{
    index_at(index).map_or(0, |found| found.flags)
}

// The same, or the refusal of an index that there is not.
fn interrupt_at(index: u32) -> Result<Interrupt, Refusal>
    ensures checks { verdict_of result ≡ (Index unless nat_lt index (length indices)) }
    ensures fields { IfOk result (λ found. found ≡ index_at index) }
{
    index_at(index).ok_or(Reason::Index.at(0))
}

// Where the lines of an index begin; those of an index that there is not, behind all lines. It stands by cases: of a sum of the counts before an
// index the bound had no proof.
pub fn first_of(index: u32) -> usize
    ensures { result ≡ first_line index }
{
    match INDICES.get(index as usize) {
        Some(entry) => entry.first,
        None => LINES,
    }
}

// ---- event numbers

// The number that 32 bits are, read as signed.
#[tactic(auto, unfolding(crate::specs::Lines::event_number))]
pub fn event_number(bits: u32) -> i32
    ensures { result ≡ event_number bits }
{
    bits.cast_signed()
}

// Whether an event number is below −1, which no line may have.
pub fn is_lower(n: i32) -> bool
    ensures { result ≡ int_lt n (negsuc 0) }
{
    n < -1
}

// Whether the bits are those of such a number.
#[tactic(auto, unfolding(crate::specs::Lines::lower))]
fn lower(bits: u32) -> bool
    ensures { result ≡ lower bits }
{
    is_lower(event_number(bits))
}

// ---- what is done to a line

impl Line {
    // A line whose number was stored just now.
    #[tactic(auto, unfolding(crate::specs::Lines::stored))]
    fn stored(bits: u32) -> Line
        ensures { result ≡ stored bits }
    {
        Line {
            number: bits,
            tally: 0,
            masked: 0,
            pending: 0,
        }
    }

    #[tactic(auto, unfolding(crate::specs::Lines::off))]
    fn off() -> Line
        ensures { result ≡ off }
    {
        Line::stored(NO_EVENT)
    }

    #[tactic(auto, unfolding(crate::specs::Lines::assigned))]
    fn is_assigned(self) -> bool
        ensures { result ≡ assigned self }
    {
        0 <= event_number(self.number)
    }

    // The line with its two flags, all else kept.
    #[tactic(auto, unfolding(crate::specs::Lines::with_flags))]
    fn with_flags(self, masked: u8, pending: u8) -> Line
        ensures { result ≡ with_flags masked pending self }
    {
        Line {
            masked,
            pending,
            ..self
        }
    }

    // An event on a line with a number: a masked line only notes it, another counts it.
    #[tactic(auto, unfolding(crate::specs::Lines::raised, answer::specs::Tests::pick))]
    fn raised(self, auto: bool) -> Line
        ensures { result ≡ raised auto self }
    {
        if self.masked == YES {
            return self.with_flags(self.masked, YES);
        }
        let masked = if auto { YES } else { self.masked };
        Line {
            tally: self.tally.wrapping_add(1),
            masked,
            ..self
        }
    }

    #[tactic(auto, unfolding(crate::specs::Lines::triggered, answer::specs::Tests::pick))]
    fn triggered(self, auto: bool) -> Line
        ensures { result ≡ triggered auto self }
    {
        if self.is_assigned() {
            self.raised(auto)
        } else {
            self
        }
    }

    #[tactic(auto, unfolding(crate::specs::Lines::with_mask, answer::specs::Tests::pick))]
    fn with_mask(self) -> Line
        ensures { result ≡ with_mask self }
    {
        if self.is_assigned() {
            self.with_flags(YES, self.pending)
        } else {
            self
        }
    }

    // The mask goes; an event that was pending comes now, and may mask the line again.
    #[tactic(auto, unfolding(crate::specs::Lines::unmasked, answer::specs::Tests::pick))]
    fn unmasked(self, auto: bool) -> Line
        ensures { result ≡ unmasked auto self }
    {
        if !self.is_assigned() {
            self
        } else if self.pending == YES {
            self.with_flags(0, 0).raised(auto)
        } else {
            self.with_flags(0, self.pending)
        }
    }
}

// ---- all lines

#[tactic(auto, unfolding(crate::specs::Lines::disabled_lines))]
pub fn disabled() -> Lines
    ensures { result.lines ≡ disabled_lines }
{
    Lines {
        lines: [Line::off(); LINES],
    }
}

// Whether no line has a number below −1.
pub fn sound(l: Lines) -> bool
    ensures { result ≡ sound_lines l.lines }
{
    l.lines.iter().all(|line| !lower(line.number))
}

// ---- the request

// What the data of a request are, by its flags below 8.
#[derive(Clone, Copy, PartialEq, Eq)]
enum Data {
    Nothing = 1,
    Bytes = 2,
    Numbers = 4,
}

// What is done, by the flags from 8 on.
#[derive(Clone, Copy, PartialEq, Eq)]
enum Action {
    Mask = 1,
    Unmask = 2,
    Trigger = 4,
}

impl TryFrom<u32> for Data {
    type Error = Refusal;

    ghost try_from_gives = { λ bits result. Read data_number bits result };

    fn try_from(bits: u32) -> Result<Data, Refusal> {
        match bits {
            1 => Ok(Data::Nothing),
            2 => Ok(Data::Bytes),
            4 => Ok(Data::Numbers),
            _ => Err(Reason::Flags.at(0)),
        }
    }
}

impl TryFrom<u32> for Action {
    type Error = Refusal;

    ghost try_from_gives = { λ bits result. Read action_number bits result };

    fn try_from(bits: u32) -> Result<Action, Refusal> {
        match bits {
            1 => Ok(Action::Mask),
            2 => Ok(Action::Unmask),
            4 => Ok(Action::Trigger),
            _ => Err(Reason::Flags.at(0)),
        }
    }
}

impl Data {
    // How many bytes there are for each line.
    #[tactic(auto, unfolding(crate::specs::Requests::width, answer::specs::Tests::pick))]
    fn width(self) -> usize
        ensures { result ≡ width (data_number self) }
    {
        match self {
            Data::Nothing => 0,
            Data::Bytes => 1,
            Data::Numbers => 4,
        }
    }
}

// Where the data begin.
const DATA: usize = 20;

// A request whose fields pass their checks; `interrupt` is what its index has.
#[derive(Clone, Copy)]
struct Request {
    data: Data,
    action: Action,
    index: u32,
    interrupt: Interrupt,
    start: u32,
    count: u32,
}

impl Request {
    // The checks of the fields, before the data. The sum is one of whole numbers: it does not wrap in 32 bits.
    fn new(flags: u32, index: u32, start: u32, count: u32) -> Result<Request, Refusal>
        ensures checks { verdict_of result ≡ field_checks flags index start count }
        ensures fields { IfOk result (λ request. Asks flags index start count request) }
    {
        let data = Data::try_from(flags % 8)?;
        let action = Action::try_from(flags / 8)?;
        Reason::Flags.when(data == Data::Numbers && action != Action::Trigger)?;
        let interrupt = interrupt_at(index)?;
        Reason::Flags.unless(action == Action::Trigger || interrupt.is_maskable())?;
        Reason::Range.when((interrupt.count as u64) < start as u64 + count as u64)?;
        let request = Request {
            data,
            action,
            index,
            interrupt,
            start,
            count,
        };
        Reason::Empty.when(count == 0 && !request.disables())?;
        Ok(request)
    }

    // The request of a buffer, where its fields and data pass their checks.
    #[tactic(auto, using(answer::proofs::Checks::decides, answer::proofs::Checks::goes_on), unfolding(crate::specs::Requests::set_checks))]
    fn read(buf: &[u8]) -> Result<Request, Refusal>
        requires { (data_start ≤ length buf.now) × (argsz_of buf.now ≤ length buf.now) }
        ensures checks { verdict_of result ≡ set_checks buf.now }
        ensures fields { IfOk result (λ request. AskedBy buf.now request) }
    {
        let request = Request::new(
            u32::get(buf, 4),
            u32::get(buf, 8),
            u32::get(buf, 12),
            u32::get(buf, 16),
        )?;
        request.check_data(buf)?;
        Ok(request)
    }

    // The checks of the data: they end within argsz, and no event number is below −1.
    fn check_data(self, buf: &[u8]) -> Result<(), Refusal>
        requires { (data_start ≤ length buf.now) × (argsz_of buf.now ≤ length buf.now) × AskedBy buf.now self }
        ensures { verdict_of result ≡ data_checks buf.now }
    {
        let end = DATA + self.count as usize * self.data.width();
        Reason::ArgSize.when((u32::get(buf, 0) as usize) < end)?;
        Reason::Value.when(self.data == Data::Numbers && any_lower(buf, self.count))
    }

    // Whether it disables its index.
    fn disables(self) -> bool
        ensures { result ≡ (nat_eq (data_number self.data) data_none and nat_eq (action_number self.action) act_trigger and nat_eq self.count 0) }
    {
        self.data == Data::Nothing && self.action == Action::Trigger && self.count == 0
    }

    // What its action does to a line.
    #[tactic(auto, unfolding(crate::specs::Requests::acted, answer::specs::Tests::pick))]
    fn acted(self, line: Line) -> Line
        ensures { result ≡ acted (action_number self.action) (self.interrupt.flags / 4 % 2 == 1) line }
    {
        let auto = self.interrupt.is_automasked();
        match self.action {
            Action::Trigger => line.triggered(auto),
            Action::Mask => line.with_mask(),
            Action::Unmask => line.unmasked(auto),
        }
    }

    // What becomes of the line at offset `j` of the range, where the index is not disabled: its event number is stored; or its byte selects it,
    // by any but 0; or there are no data, and it is selected.
    fn changed(self, line: Line, buf: &[u8], j: usize) -> Line
        requires { AskedBy buf.now self × (disables (flags_of buf.now) (count_of buf.now) ≡ false) × (j < self.count) × (data_start + self.count * width (data_number self.data) ≤ length buf.now) }
        ensures { result ≡ changed_line buf.now j line }
    {
        match self.data {
            Data::Nothing => self.acted(line),
            Data::Bytes => {
                let selected = buf[DATA + j] != 0;
                if selected { self.acted(line) } else { line }
            }
            Data::Numbers => Line::stored(event_at(buf, j)),
        }
    }

    // Changes the lines of its range, or disables those of its index.
    fn change(self, lines: &mut [Line], buf: &[u8])
        requires { (length lines.old ≡ line_count) × (set_checks buf.now ≡ Pass) × (argsz_of buf.now ≤ length buf.now) × AskedBy buf.now self }
        ensures { lines.new ≡ changed_lines buf.now lines.old }
    {
        let first = first_of(self.index);
        if self.disables() {
            lines[first..first + self.interrupt.count as usize].fill(Line::off());
            return;
        }
        let from = first + self.start as usize;
        let range = &mut lines[from..from + self.count as usize];
        for (j, line) in range.iter_mut().enumerate() {
            *line = self.changed(*line, buf, j);
        }
    }
}

// The event number for the line at offset `j` of the range.
#[tactic(auto, unfolding(crate::specs::Requests::event_at))]
fn event_at(buf: &[u8], j: usize) -> u32
    requires { data_start + 4 * j + 4 ≤ length buf.now }
    ensures { result ≡ event_at buf.now j }
{
    u32::get(buf, DATA + 4 * j)
}

// Whether one of the event numbers is below −1. All are judged before any is stored.
fn any_lower(buf: &[u8], count: u32) -> bool
    requires { data_start + 4 * count ≤ length buf.now }
    ensures { result ≡ any_lower buf.now count }
{
    (0..count as usize).any(|j| lower(event_at(buf, j)))
}

// The checks of a request that has its 20 bytes and whose argsz is within the buffer.
pub fn check_set(buf: &[u8]) -> Result<(), Refusal>
    requires { (data_start ≤ length buf.now) × (argsz_of buf.now ≤ length buf.now) }
    ensures { verdict_of result ≡ set_checks buf.now }
{
    Request::read(buf)?;
    Ok(())
}

// The lines after a request for which `check_set` passes.
pub fn set(lines: Lines, buf: &[u8]) -> Lines
    requires { (data_start ≤ length buf.now) × (argsz_of buf.now ≤ length buf.now) × (set_checks buf.now ≡ Pass) }
    ensures { result.lines ≡ changed_lines buf.now lines.lines }
{
    let mut lines = lines;
    try_set(&mut lines, buf).unwrap();
    lines
}

// Changes the lines by a request, where it passes its checks. It is done in place: lines that are handed on as a value take stack for each
// copy.
pub fn try_set(lines: &mut Lines, buf: &[u8]) -> Result<(), Refusal>
    requires { (data_start ≤ length buf.now) × (argsz_of buf.now ≤ length buf.now) }
    ensures checks { verdict_of result ≡ set_checks buf.now }
    ensures effect { MatchResult result (λ _. lines.new.lines ≡ changed_lines buf.now lines.old.lines) (λ _. lines.new ≡ lines.old) }
{
    let request = Request::read(buf)?;
    request.change(&mut lines.lines, buf);
    Ok(())
}

// ---- showing a line

pub fn check_show(index: u32, line: u32) -> Result<(), Refusal>
    ensures { verdict_of result ≡ show_checks index line }
{
    let interrupt = interrupt_at(index)?;
    Reason::Index.unless(line < interrupt.count)
}

// A line for which `check_show` passes.
#[tactic(auto, unfolding(crate::specs::Requests::show_checks, crate::specs::Requests::line_at, crate::specs::Lines::stored))]
pub fn shown(lines: Lines, index: u32, line: u32) -> Line
    requires { show_checks index line ≡ Pass }
    ensures { result ≡ line_at lines.lines index line }
{
    lines.lines[first_of(index) + line as usize]
}

// A line, where the index has it.
pub fn try_shown(lines: Lines, index: u32, line: u32) -> Result<Line, Refusal>
    ensures checks { verdict_of result ≡ show_checks index line }
    ensures gives { IfOk result (λ x. x ≡ line_at lines.lines index line) }
{
    check_show(index, line)?;
    Ok(shown(lines, index, line))
}
