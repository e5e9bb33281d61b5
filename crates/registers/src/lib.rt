// The register file of the device.
#![tactic(auto, using(answer::proofs::Checks::decides, answer::proofs::Checks::goes_on))]

ghost use Rattle.std.specs.Prelude.{◌≡◌, true, ◌+◌, ◌-◌, ◌*◌, ◌<◌, ◌≤◌, length, set as with_element, ltb, eqb, IfOk, IfSome, MatchResult, unwrap_or};
ghost use Rattle.std.proofs.Math.Option.{none, some};
ghost use Rattle.std.proofs.lemmas.List.Edits.{sets};
ghost use Rattle.answer.specs.Tests.{pick};
ghost use Rattle.answer.specs.Checks.{Pass, passes};
ghost use Rattle.answer.specs.Answer.{verdict_of};
ghost use Rattle.wire.specs.Field.{field};
ghost use Rattle.registers.specs.Cards.{words_of, is_card, word_room};
ghost use Rattle.registers.specs.Rows.{row_count, kind_of, selector_of, size_of, row_of, selector_width};
ghost use Rattle.registers.specs.Kinds.{number_of, Decodes, Names};
ghost use Rattle.registers.specs.Values.{offered_word, offered as offered_bytes, each_word, within, power_of_two, valid_size, valid_queue, content_checks};
ghost use Rattle.registers.specs.File.{current as current_in, blank as blank_file, reset as reset_file, sound_value, sound_file, register_value, file_of, register_of, slots_of};
ghost use Rattle.registers.specs.Access.{selector_checks, set_checks, read_checks, read_value};

use answer::{Reason, Refusal};
use wire::Number;

// One register: it is set where `set` is 1, and no other value of that byte says so; its value stands at the start of `bytes`. Bytes
// past the value's size, and all bytes of a register that is not set, mean nothing. C has this struct, so it is no Option.
#[repr(C)]
#[derive(Clone, Copy)]
pub struct Register {
    pub set: u8,
    pub bytes: [u8; 32],
}

// The registers that are kept, by rising type and selector: driver features, four common fields, status, four queues, four notify
// values. Offered features are constant and not kept.
#[repr(C)]
#[derive(Clone, Copy)]
pub struct Registers {
    pub slots: [Register; SLOTS],
}

// What the byte `set` of a register that is set holds.
pub const SET: u8 = 1;

// ---- the cards

// The card that is emulated, by the bits that its features have: one word of 64, or two. Nothing else of it differs.
#[derive(Clone, Copy)]
pub enum Card {
    Features64,
    Features128,
}

// How many words of features a card has, which is how a kept state tells the cards apart. C may have put any byte there, so the functions
// below take that number, and not a card.
#[tactic(auto, unfolding(crate::specs::Cards::words_of))]
pub fn words_of(card: Card) -> u8
    ensures { result ≡ words_of card }
{
    match card {
        Card::Features64 => 1,
        Card::Features128 => 2,
    }
}

pub fn is_card(words: u8) -> bool
    ensures { result ≡ is_card words }
{
    1 <= words && words <= 2
}

// ---- the table of registers

// The type of a register's part.
#[derive(Clone, Copy, PartialEq, Eq)]
pub enum Kind {
    OfferedFeatures = 0x100,
    DriverFeatures = 0x101,
    CommonField = 0x102,
    DeviceStatus = 0x103,
    QueueConfig = 0x104,
    NotifyConfig = 0x105,
}

impl Kind {
    pub fn number(self) -> u64
        ensures { result ≡ number_of self }
    {
        self as u64
    }

    // How many of the selector's 8 bytes it uses.
    pub fn selector_width(self) -> u64
        ensures { result ≡ selector_width (number_of self) }
    {
        selector_width(self.number())
    }

    // The row of a selector number.
    fn row(self, selector: u64) -> Option<usize>
        ensures { Names result (number_of self) selector }
    {
        match self {
            Kind::OfferedFeatures => row_among(0, 1, selector),
            Kind::DriverFeatures => row_among(1, 1, selector),
            Kind::CommonField => match selector {
                0 => Some(2),
                8 => Some(3),
                16 => Some(4),
                22 => Some(5),
                _ => None,
            },
            Kind::DeviceStatus => row_among(STATUS_ROW, 1, selector),
            Kind::QueueConfig => row_among(7, 4, selector),
            Kind::NotifyConfig => row_among(11, 4, selector),
        }
    }
}

impl TryFrom<u64> for Kind {
    type Error = Refusal;

    ghost try_from_gives = { Decodes };

    #[tactic(auto, using(crate::proofs::Listed::listed_kind, crate::proofs::Listed::unlisted_kind))]
    fn try_from(number: u64) -> Result<Self, Refusal> {
        match number {
            0x100 => Ok(Kind::OfferedFeatures),
            0x101 => Ok(Kind::DriverFeatures),
            0x102 => Ok(Kind::CommonField),
            0x103 => Ok(Kind::DeviceStatus),
            0x104 => Ok(Kind::QueueConfig),
            0x105 => Ok(Kind::NotifyConfig),
            _ => Err(Reason::UnknownPart.at(0)),
        }
    }
}

// How many of the selector's 8 bytes a type uses, by its number, which may be any.
#[tactic(auto, unfolding(crate::specs::Rows::selector_width, answer::specs::Tests::pick))]
pub fn selector_width(kind: u64) -> u64
    ensures { result ≡ selector_width kind }
{
    if kind == Kind::CommonField.number() {
        return 4;
    }
    if Kind::QueueConfig.number() <= kind {
        2
    } else {
        0
    }
}

// How many registers are kept.
pub const SLOTS: usize = 14;

// The table has a row for offered features, row 0, and one for each register that is kept: row `i + 1` is that of slot `i`.
pub const ROWS: usize = 15;

pub const STATUS_ROW: usize = 6;

// The one column that is a table: soundness does not ask for it.
const SELECTORS: [u64; ROWS] = [0, 0, 0, 8, 16, 22, 0, 0, 1, 2, 3, 0, 1, 2, 3];

// Types and sizes go by ranges of rows, and not by a table of structs: soundness asks for the size of every register in every call, and a
// constant table that is indexed is built anew on the stack each time.
#[tactic(auto, unfolding(crate::specs::Rows::kind_of))]
pub fn kind_of(row: usize) -> Kind
    requires { row < row_count }
    ensures { number_of result ≡ kind_of row }
{
    match row {
        0 => Kind::OfferedFeatures,
        1 => Kind::DriverFeatures,
        2..=5 => Kind::CommonField,
        6 => Kind::DeviceStatus,
        7..=10 => Kind::QueueConfig,
        _ => Kind::NotifyConfig,
    }
}

#[tactic(auto, unfolding(crate::specs::Rows::selector_of))]
pub fn selector_of(row: usize) -> u64
    requires { row < row_count }
    ensures { result ≡ selector_of row }
{
    SELECTORS[row]
}

// The size of a row's value on a card with so many words of features.
#[tactic(auto, unfolding(crate::specs::Rows::size_of, crate::specs::Rows::size_in, crate::specs::Rows::width_of))]
pub fn size_of(words: u8, row: usize) -> usize
    requires { row < row_count }
    ensures { result ≡ size_of words row }
{
    match row {
        0..=1 => 8 * words as usize,
        2..=3 => 4,
        4..=5 => 2,
        6 => 1,
        7..=10 => 32,
        _ => 8,
    }
}

// The row of a selector number among the `count` rows of a type from `first` on.
#[tactic(auto, unfolding(answer::specs::Tests::pick))]
fn row_among(first: usize, count: u64, selector: u64) -> Option<usize>
    requires { first + count ≤ row_count }
    ensures { (unwrap_or result row_count ≡ pick (ltb selector count) (first + selector) row_count) × IfSome result (λ row. row < row_count) }
{
    if selector < count {
        Some(first + selector as usize)
    } else {
        None
    }
}

// The row of a type's number and a selector number.
#[tactic(auto, using(crate::proofs::Listed::row_unlisted))]
pub fn row_of(kind: u64, selector: u64) -> Option<usize>
    ensures { Names result kind selector }
{
    match Kind::try_from(kind) {
        Ok(kind) => kind.row(selector),
        Err(_) => None,
    }
}

// ---- what a value must satisfy

// What a card offers in each word of features.
#[tactic(auto, unfolding(crate::specs::Values::offered_word))]
fn offered_word(i: usize) -> u64
    ensures { result ≡ offered_word i }
{
    match i {
        0 => 0x130000000,
        1 => 1,
        _ => 0,
    }
}

// Whether word `i` of features is what is offered there, or, where it need not be `exact`, has no bit beyond: the
// definition chooses so too.
#[tactic(auto, unfolding(answer::specs::Tests::pick, crate::specs::Values::within))]
fn is_offered(exact: bool, v: &[u8], i: usize) -> bool
    requires { (i < word_room) × (8 * i + 8 ≤ length v.now) }
    ensures { result ≡ pick exact eqb within (field v.now (8 * i) 8) (offered_word i) }
{
    let x = u64::get(v, 8 * i);
    let word = offered_word(i);
    if exact { x == word } else { x & word == x }
}

// The same of each word that a card has: one, or two. They are written out, since soundness asks this in every call.
fn are_offered(words: u8, exact: bool, v: &[u8]) -> bool
    requires { (is_card words ≡ true) × (8 * words ≤ length v.now) }
    ensures { result ≡ each_word (pick exact eqb within) words v.now }
{
    is_offered(exact, v, 0) && (words < 2 || is_offered(exact, v, 1))
}

// A power of two from 1 to 256: one of its binary digits is 1. Tests that soundness makes of every register in every call are joined by `&`
// and `|`, which make no branches (see `sound`).
pub fn is_power_of_two(n: u16) -> bool
    ensures { result ≡ power_of_two 8 n }
{
    (n <= 256) & (u16::count_ones(n) == 1)
}

// Size 0 says that the queue is unavailable.
fn is_valid_size(size: u16, enabled: u32) -> bool
    ensures { result ≡ valid_size size enabled }
{
    is_power_of_two(size) | (size == 0) & (enabled == 0)
}

// Few tests, since soundness asks them of every queue in every call: enabled and reserved are one number, and the remainders one sum.
fn is_valid_queue(v: &[u8]) -> bool
    requires { length v.now ≡ 32 }
    ensures { result ≡ valid_queue v.now }
{
    let enabled = u32::get(v, 4);
    let sized = is_valid_size(u16::get(v, 0), enabled);
    let rest = u64::get(v, 8) % 16 + u64::get(v, 16) % 2 + u64::get(v, 24) % 4;
    sized & (enabled <= 1) & (rest == 0)
}

// Whether a value of the row's size meets the rule of the row's type. Features are to be exact in row 0.
#[tactic(auto, unfolding(crate::specs::Rows::size_of, crate::specs::Rows::size_in, crate::specs::Rows::width_of))]
fn is_good(words: u8, row: usize, v: &[u8]) -> bool
    requires { (is_card words ≡ true) × (row < row_count) × (length v.now ≡ size_of words row) }
    ensures { result ≡ passes (content_checks words (kind_of row) v.now) }
{
    match row {
        0..=1 => are_offered(words, row == 0, v),
        2..=6 => true,
        7..=10 => is_valid_queue(v),
        _ => u32::get(v, 4) == 0,
    }
}

// The rule of a row's type, for a value of the row's size.
pub fn check_content(words: u8, row: usize, v: &[u8]) -> Result<(), Refusal>
    requires { (is_card words ≡ true) × (row < row_count) × (length v.now ≡ size_of words row) }
    ensures { verdict_of result ≡ content_checks words (kind_of row) v.now }
{
    let reason = if row < 2 {
        Reason::Mismatch
    } else {
        Reason::Value
    };
    reason.unless(is_good(words, row, v))
}

// ---- the register file

// A register that is not set.
#[tactic(auto, unfolding(crate::specs::File::register_of))]
pub fn unset() -> Register
    ensures { result ≡ register_of none }
{
    Register {
        set: 0,
        bytes: [0u8; 32],
    }
}

// A register that holds the `n` bytes of `v`, with zeros behind them.
fn holding_bytes(v: &[u8], n: usize) -> Register
    requires { (n ≡ length v.now) × (n ≤ 32) }
    ensures { result ≡ register_of (some v.now) }
{
    let mut bytes = [0u8; 32];
    wire::copy(&mut bytes, 0, v, 0, n);
    Register { set: SET, bytes }
}

// A register that holds the value `v`, with zeros behind it. A size that is written out is copied by a load and a store.
pub fn holding(v: &[u8]) -> Register
    requires { length v.now ≤ 32 }
    ensures { result ≡ register_of (some v.now) }
{
    let n = v.len();
    match n {
        1 => holding_bytes(v, 1),
        2 => holding_bytes(v, 2),
        4 => holding_bytes(v, 4),
        8 => holding_bytes(v, 8),
        16 => holding_bytes(v, 16),
        32 => holding_bytes(v, 32),
        _ => holding_bytes(v, n),
    }
}

// What the row of offered features shows: the same register for every card, of which each has as many words as its value has.
#[tactic(auto, unfolding(wire::specs::Field::bytes_of, crate::specs::Values::offered_word, crate::specs::Values::offered, crate::specs::File::register_of))]
pub fn offered() -> Register
    ensures { result ≡ register_of (some (offered_bytes word_room)) }
{
    let mut bytes = [0u8; 32];
    offered_word(0).put(&mut bytes, 0);
    offered_word(1).put(&mut bytes, 8);
    Register { set: SET, bytes }
}

// The register that a row shows.
pub fn current(words: u8, registers: Registers, row: usize) -> Register
    requires { (words ≤ word_room) × (row < row_count) }
    ensures { (register_value words row result ≡ current_in words (file_of words registers) row) × (length result.bytes ≡ 32) }
{
    if row == 0 {
        return offered();
    }
    registers.slots[row - 1]
}

// Whether a register that is kept is not set, or holds a value that setting accepts.
fn is_sound(words: u8, row: usize, r: Register) -> bool
    requires { (is_card words ≡ true) × (0 < row) × (row < row_count) × (length r.bytes ≡ 32) }
    ensures { result ≡ sound_value words row (register_value words row r) }
{
    let size = size_of(words, row);
    let bytes = r.bytes;
    let good = is_good(words, row, &bytes[..size]);
    (r.set != SET) | good
}

// Whether status is set, and every set register holds a value that setting accepts. Common fields and status may hold anything. Each row is
// written out, so that its rule is known when it is compiled. Two queues at a time: with a branch between any two, or with none at all, the
// compiler keeps more of the registers on the stack.
pub fn sound(words: u8, registers: Registers) -> bool
    requires { is_card words ≡ true }
    ensures { result ≡ sound_file words (file_of words registers) }
{
    let slots = registers.slots;
    let status = slots[STATUS_ROW - 1];
    let features = slots[0];
    let queue0 = slots[6];
    let queue1 = slots[7];
    let queue2 = slots[8];
    let queue3 = slots[9];
    let notify0 = slots[10];
    let notify1 = slots[11];
    let notify2 = slots[12];
    let notify3 = slots[13];
    if !((status.set == SET) & is_sound(words, 1, features)) {
        return false;
    }
    if !(is_sound(words, 7, queue0) & is_sound(words, 8, queue1)) {
        return false;
    }
    if !(is_sound(words, 9, queue2) & is_sound(words, 10, queue3)) {
        return false;
    }
    is_sound(words, 11, notify0)
        & is_sound(words, 12, notify1)
        & is_sound(words, 13, notify2)
        & is_sound(words, 14, notify3)
}

// No register set.
#[tactic(auto, unfolding(crate::specs::File::slots_of, crate::specs::File::register_of))]
pub fn blank() -> Registers
    ensures { result.slots ≡ slots_of blank_file }
{
    Registers {
        slots: [unset(); SLOTS],
    }
}

// Status 0, and no other register set.
#[tactic(auto, unfolding(crate::specs::File::reset, crate::specs::File::slots_of, crate::specs::File::register_of, crate::specs::File::with_value))]
pub fn reset() -> Registers
    ensures { result.slots ≡ slots_of reset_file }
{
    let mut registers = blank();
    registers.slots[STATUS_ROW - 1] = holding(&[0]);
    registers
}

// ---- setting and reading by type and selector number

// The row of a selector number that a type has.
fn selected(kind: Kind, selector: u64) -> Result<usize, Refusal>
    ensures checks { verdict_of result ≡ selector_checks (number_of kind) selector }
    ensures row { IfOk result (λ row. (row ≡ row_of (number_of kind) selector) × (row < row_count)) }
{
    Reason::Header.when(kind.selector_width() == 0 && 0 < selector)?;
    kind.row(selector).ok_or(Reason::Index.at(0))
}

#[tactic(auto, using(answer::proofs::Checks::decides, answer::proofs::Checks::goes_on, crate::proofs::Listed::read_only, crate::proofs::Listed::sized, crate::proofs::Listed::once), unfolding(crate::specs::Access::set_checks, crate::specs::Values::value_checks))]
pub fn check_set(words: u8, kind: u64, selector: u64, v: &[u8]) -> Result<(), Refusal>
    requires { is_card words ≡ true }
    ensures { verdict_of result ≡ set_checks words kind selector v.now }
{
    let kind = Kind::try_from(kind)?;
    Reason::ReadOnly.when(kind == Kind::OfferedFeatures)?;
    let row = selected(kind, selector)?;
    Reason::Value.unless(v.len() == size_of(words, row))?;
    check_content(words, row, v)
}

// Sets one register to a value, in place. Whatever `check_set` passes names a register that is kept, and fits into it.
#[tactic(auto, using(crate::proofs::Listed::row_there))]
fn put(registers: &mut Registers, kind: u64, selector: u64, v: &[u8])
    requires { (0 < row_of kind selector) × (row_of kind selector < row_count) × (length v.now ≤ 32) }
    ensures { registers.new.slots ≡ with_element registers.old.slots (row_of kind selector - 1) (register_of (some v.now)) }
{
    let row = row_of(kind, selector).unwrap();
    registers.slots[row - 1] = holding(v);
}

// The registers with one set to a value.
pub fn set(registers: Registers, kind: u64, selector: u64, v: &[u8]) -> Registers
    requires { (0 < row_of kind selector) × (row_of kind selector < row_count) × (length v.now ≤ 32) }
    ensures { result.slots ≡ with_element registers.slots (row_of kind selector - 1) (register_of (some v.now)) }
{
    let mut registers = registers;
    put(&mut registers, kind, selector, v);
    registers
}

// Sets one register to a value, where the checks pass. It is done in place: registers that are handed on as a value take stack for each copy.
#[tactic(auto, using(crate::proofs::Access::set_fits))]
pub fn try_set(
    words: u8,
    registers: &mut Registers,
    kind: u64,
    selector: u64,
    v: &[u8],
) -> Result<(), Refusal>
    requires { is_card words ≡ true }
    ensures checks { verdict_of result ≡ set_checks words kind selector v.now }
    ensures registers { MatchResult result (λ _. registers.new.slots ≡ with_element registers.old.slots (row_of kind selector - 1) (register_of (some v.now))) (λ _. registers.new ≡ registers.old) }
{
    check_set(words, kind, selector, v)?;
    put(registers, kind, selector, v);
    Ok(())
}

// Reading into a buffer of `room` bytes.
#[tactic(auto, using(answer::proofs::Checks::decides, answer::proofs::Checks::goes_on, crate::proofs::Access::shown_set), unfolding(crate::specs::Access::read_checks))]
pub fn check_read(
    words: u8,
    registers: Registers,
    kind: u64,
    selector: u64,
    room: usize,
) -> Result<(), Refusal>
    requires { words ≤ word_room }
    ensures { verdict_of result ≡ read_checks words (file_of words registers) kind selector room }
{
    let kind = Kind::try_from(kind)?;
    let row = selected(kind, selector)?;
    let r = current(words, registers, row);
    Reason::Unset.unless(r.set == SET)?;
    Reason::NoSpace.when(room < size_of(words, row))
}

// Puts the value of a register for which `check_read` passes to the start of the buffer, and reports its length.
pub fn read(words: u8, registers: Registers, kind: u64, selector: u64, buf: &mut [u8]) -> usize
    requires { (words ≤ word_room) × (read_checks words (file_of words registers) kind selector (length buf.old) ≡ Pass) }
    ensures { (buf.new ≡ sets buf.old 0 (read_value words (file_of words registers) kind selector)) × (result ≡ length (read_value words (file_of words registers) kind selector)) }
{
    let row = row_of(kind, selector).unwrap();
    let r = current(words, registers, row);
    let size = size_of(words, row);
    wire::copy(buf, 0, &r.bytes, 0, size);
    size
}

// The same, where the checks pass.
pub fn try_read(
    words: u8,
    registers: Registers,
    kind: u64,
    selector: u64,
    buf: &mut [u8],
) -> Result<usize, Refusal>
    requires { words ≤ word_room }
    ensures checks { verdict_of result ≡ read_checks words (file_of words registers) kind selector (length buf.old) }
    ensures value { MatchResult result (λ n. (buf.new ≡ sets buf.old 0 (read_value words (file_of words registers) kind selector)) × (n ≡ length (read_value words (file_of words registers) kind selector))) (λ _. buf.new ≡ buf.old) }
{
    check_read(words, registers, kind, selector, buf.len())?;
    Ok(read(words, registers, kind, selector, buf))
}
