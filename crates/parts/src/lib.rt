// Device parts: the stream that carries the registers.
#![tactic(auto, using(answer::proofs::Checks::decides, answer::proofs::Checks::goes_on))]

ghost use Rattle.std.specs.Prelude.{◌≡◌, true, ◌+◌, ◌*◌, ◌^◌, ◌≤◌, ◌<◌, length, take, IfOk, MatchResult};
ghost use Rattle.std.proofs.lemmas.List.Edits.{sets};
ghost use Rattle.answer.specs.Answer.{told, verdict_of};
ghost use Rattle.registers.specs.Cards.{is_card, word_room};
ghost use Rattle.registers.specs.Rows.{row_count, size_of, selector_width};
ghost use Rattle.registers.specs.Kinds.{number_of, Names};
ghost use Rattle.registers.specs.File.{file_of};
ghost use Rattle.parts.specs.Step.{header_size, checks_at, part_at, shown, step_at, step_of, value_to, value_at};
ghost use Rattle.parts.specs.Load.{flags_of, listed_checks, part_checks, load as loading, loaded_of, from_start};
ghost use Rattle.parts.specs.Save.{encoded, saved, save_checks};

use answer::{Reason, Refusal};
use registers::{Kind, Register, Registers};
use wire::Number;

// A part at a place of a stream; its value reaches from 16 bytes behind that place to `next`.
#[derive(Clone, Copy, PartialEq, Eq)]
pub struct Part {
    pub kind: u16,
    pub flags: u8,
    pub selector: u64,
    pub next: usize,
}

// ---- one step

// The bytes of a part before its value.
pub const HEADER_SIZE: usize = 16;

// The part at place `at`, where `h` is what is left of the stream there.
#[tactic(auto, using(crate::proofs::Steps::decides_at, crate::proofs::Steps::goes_on_at, crate::proofs::Steps::tested_at, crate::proofs::Steps::room_at), unfolding(crate::specs::Step::header_checks, crate::specs::Step::value_size, crate::specs::Step::part_at))]
fn part_at(h: &[u8], at: usize) -> Result<Part, Refusal>
    requires { at + length h.now < 2 ^ 64 }
    ensures checks { verdict_of result ≡ checks_at h.now at }
    ensures part { IfOk result (λ part. shown part ≡ part_at h.now at) }
{
    let place = at as u64;
    Reason::Truncated.at(place).when(h.len() < HEADER_SIZE)?;
    let flags = u8::get(h, 2);
    Reason::Header.at(place).when(1 < flags)?;
    Reason::Header.at(place).when(u8::get(h, 3) != 0)?;
    let size = u32::get(h, 12) as usize;
    Reason::Truncated
        .at(place)
        .when(h.len() - HEADER_SIZE < size)?;
    Ok(Part {
        kind: u16::get(h, 0),
        flags,
        selector: u64::get(h, 4),
        next: at + HEADER_SIZE + size,
    })
}

// One step over a stream of any length: the part that stands there, or nothing at the end.
#[tactic(auto, using(crate::proofs::Steps::room_at, crate::proofs::Steps::step_past, crate::proofs::Steps::step_end, crate::proofs::Steps::part_fault, crate::proofs::Steps::part_found))]
pub fn step_at(s: &[u8], at: usize) -> Result<Option<Part>, Refusal>
    ensures { step_of result ≡ step_at s.now at }
{
    Reason::Truncated.at(at as u64).when(s.len() < at)?;
    if at == s.len() {
        return Ok(None);
    }
    Ok(Some(part_at(&s[at..], at)?))
}

// The value of the part at `at` whose next place is `next`, as that stretch of the lent stream.
#[tactic(auto, unfolding(crate::specs::Step::value_to))]
pub fn value_to(s: &[u8], at: usize, next: usize) -> &[u8]
    requires { (at + header_size ≤ next) × (next ≤ length s.now) }
    ensures { result.now ≡ value_to s.now at next }
{
    &s[at + HEADER_SIZE..next]
}

// The value of the part at `at`; nothing where a step hands back no part.
#[tactic(auto, using(crate::proofs::Steps::step_says, crate::proofs::Steps::value_part, crate::proofs::Steps::value_end, crate::proofs::Steps::value_refused))]
pub fn value_at(s: &[u8], at: usize) -> &[u8]
    ensures { result.now ≡ value_at s.now at }
{
    match step_at(s, at) {
        Ok(Some(part)) => value_to(s, at, part.next),
        Ok(None) => &s[..0],
        Err(_) => &s[..0],
    }
}

// ---- loading

// Types from here on are refused, and never skipped.
const RESERVED_KINDS: u16 = 0x600;

// Offered features are flagged optional, and no other listed type; `kind` is a type's number, which may be any.
#[tactic(auto, unfolding(crate::specs::Load::flags_of, answer::specs::Tests::pick))]
pub fn flags_of(kind: u64) -> u8
    ensures { result ≡ flags_of kind }
{
    (kind == Kind::OfferedFeatures.number()) as u8
}

// Those of a type.
pub fn flags(kind: Kind) -> u8
    ensures { result ≡ flags_of (number_of kind) }
{
    flags_of(kind.number())
}

// The first number that the selector bytes of a type cannot hold.
#[tactic(auto, unfolding(registers::specs::Rows::selector_width, answer::specs::Tests::pick))]
fn selector_limit(kind: Kind) -> u64
    ensures { result ≡ 256 ^ selector_width (number_of kind) }
{
    match kind {
        Kind::CommonField => 0x100000000,
        Kind::QueueConfig | Kind::NotifyConfig => 0x10000,
        _ => 1,
    }
}

// A part of a listed type, with its value. It names a row of the table, which a part named before where `twice` is true, as in the
// definition.
#[tactic(auto, using(answer::proofs::Checks::decides, answer::proofs::Checks::goes_on), unfolding(crate::specs::Load::listed_checks))]
fn check_listed(
    words: u8,
    kind: Kind,
    row: Option<usize>,
    twice: bool,
    part: Part,
    v: &[u8],
) -> Result<(), Refusal>
    requires { (is_card words ≡ true) × (number_of kind ≡ part.kind) × Names row part.kind part.selector }
    ensures { verdict_of result ≡ listed_checks words twice part.kind part.flags part.selector v.now }
{
    Reason::Header.unless(part.flags == flags(kind))?;
    Reason::Header.unless(part.selector < selector_limit(kind))?;
    let row = row.ok_or(Reason::Index.at(0))?;
    Reason::Value.unless(v.len() == registers::size_of(words, row))?;
    Reason::Twice.when(twice)?;
    registers::check_content(words, row, v)
}

#[tactic(auto, using(answer::proofs::Checks::decides, answer::proofs::Checks::goes_on, crate::proofs::Loading::listed_picks, crate::proofs::Loading::unlisted_picks), unfolding(crate::specs::Load::part_checks))]
fn check_part(
    words: u8,
    row: Option<usize>,
    twice: bool,
    part: Part,
    v: &[u8],
) -> Result<(), Refusal>
    requires { (is_card words ≡ true) × Names row part.kind part.selector }
    ensures { verdict_of result ≡ part_checks words twice part.kind part.flags part.selector v.now }
{
    Reason::UnknownPart.when(RESERVED_KINDS <= part.kind)?;
    match Kind::try_from(part.kind as u64) {
        Ok(kind) => check_listed(words, kind, row, twice, part, v),
        Err(_) => Reason::UnknownPart.unless(part.flags == 1),
    }
}

// Each part in order: `slots` has the registers that parts named, and `offered` is whether one named offered features, which are not kept.
// The slots are read and set in place, since a call would copy them all.
fn load_parts(words: u8, s: &[u8]) -> Result<Registers, Refusal>
    requires { is_card words ≡ true }
    ensures { told result ≡ loaded_of (from_start words s.now) }
{
    let mut slots = [registers::unset(); registers::SLOTS];
    let mut offered = false;
    let mut at = 0;
    while let Some(part) = step_at(s, at)? {
        let v = value_to(s, at, part.next);
        let row = registers::row_of(part.kind as u64, part.selector);
        let twice = match row {
            Some(0) => offered,
            Some(row) => slots[row - 1].set == registers::SET,
            None => false,
        };
        if let Err(e) = check_part(words, row, twice, part, v) {
            return Err(e.reason.at(at as u64));
        }
        match row {
            Some(0) => offered = true,
            Some(row) => slots[row - 1] = registers::holding(v),
            None => {}
        }
        at = part.next;
    }
    let named = slots[registers::STATUS_ROW - 1].set == registers::SET;
    Reason::Missing.at(at as u64).when(!named)?;
    Ok(Registers { slots })
}

// Loads a stream on a card with so many words of features; registers that no part named are not set.
#[tactic(auto, using(crate::proofs::Loading::load_refused, crate::proofs::Loading::load_passes, answer::proofs::Checks::decides, answer::proofs::Checks::goes_on), unfolding(answer::specs::Limits::length_check))]
pub fn load(words: u8, running: bool, s: &[u8]) -> Result<Registers, Refusal>
    requires { is_card words ≡ true }
    ensures { told result ≡ loaded_of (loading words running s.now) }
{
    Reason::Running.when(running)?;
    Reason::TooLong.when(answer::TRANSFER_LIMIT < s.len())?;
    load_parts(words, s)
}

// ---- saving

// Writes as many of the words at the start of some bytes as the card has, from `at` on.
fn put_words(words: u8, buf: &mut [u8], at: usize, bytes: &[u8])
    requires { (is_card words ≡ true) × (at + 8 * words ≤ length buf.old) × (8 * words ≤ length bytes.now) }
    ensures { buf.new ≡ sets buf.old at (take (8 * words) bytes.now) }
{
    wire::copy(buf, at, bytes, 0, 8);
    if 1 < words {
        wire::copy(buf, at + 8, bytes, 8, 8);
    }
}

// Writes the part of a row from `at` on; its value stands at the start of the register's bytes. The size of features, which is not known
// when this is compiled, goes by words: a copy whose size is written out is a load and a store.
fn put_part(words: u8, buf: &mut [u8], at: usize, row: usize, r: Register)
    requires { (is_card words ≡ true) × (row < row_count) × (length r.bytes ≡ 32) × (at + header_size + size_of words row ≤ length buf.old) }
    ensures { buf.new ≡ sets buf.old at (encoded words row (take (size_of words row) r.bytes)) }
{
    let kind = registers::kind_of(row);
    let size = registers::size_of(words, row);
    (kind.number() as u16).put(buf, at);
    flags(kind).put(buf, at + 2);
    0u8.put(buf, at + 3);
    registers::selector_of(row).put(buf, at + 4);
    (size as u32).put(buf, at + 12);
    if row < 2 {
        put_words(words, buf, at + HEADER_SIZE, &r.bytes);
    } else {
        wire::copy(buf, at + HEADER_SIZE, &r.bytes, 0, size);
    }
}

// How many bytes saving writes. Offered features are always among them; the slots are read in place, since a call for each row would
// copy them all.
fn saved_length(words: u8, registers: Registers) -> usize
    requires { words ≤ word_room }
    ensures { result ≡ length (saved words (file_of words registers)) }
{
    let mut n = HEADER_SIZE + registers::size_of(words, 0);
    for (i, r) in registers.slots.iter().enumerate() {
        if r.set == registers::SET {
            n += HEADER_SIZE + registers::size_of(words, i + 1);
        }
    }
    n
}

// Saving into a buffer of `room` bytes.
#[tactic(auto, using(answer::proofs::Checks::decides, answer::proofs::Checks::goes_on), unfolding(crate::specs::Save::save_checks))]
pub fn check_save(
    words: u8,
    registers: Registers,
    running: bool,
    room: usize,
) -> Result<(), Refusal>
    requires { words ≤ word_room }
    ensures { verdict_of result ≡ save_checks words running (file_of words registers) room }
{
    Reason::Running.when(running)?;
    Reason::NoSpace.when(room < saved_length(words, registers))
}

// Writes the parts of the registers that are set, and of offered features, to the start of a buffer that has the room, and reports
// their length.
pub fn save(words: u8, registers: Registers, buf: &mut [u8]) -> usize
    requires { (is_card words ≡ true) × (length (saved words (file_of words registers)) ≤ length buf.old) }
    ensures { (buf.new ≡ sets buf.old 0 (saved words (file_of words registers))) × (result ≡ length (saved words (file_of words registers))) }
{
    put_part(words, buf, 0, 0, registers::offered());
    let mut at = HEADER_SIZE + registers::size_of(words, 0);
    for (i, r) in registers.slots.iter().enumerate() {
        if r.set == registers::SET {
            put_part(words, buf, at, i + 1, *r);
            at += HEADER_SIZE + registers::size_of(words, i + 1);
        }
    }
    at
}

// The same, where the checks pass.
pub fn try_save(
    words: u8,
    registers: Registers,
    running: bool,
    buf: &mut [u8],
) -> Result<usize, Refusal>
    requires { is_card words ≡ true }
    ensures checks { verdict_of result ≡ save_checks words running (file_of words registers) (length buf.old) }
    ensures parts { MatchResult result (λ n. (buf.new ≡ sets buf.old 0 (saved words (file_of words registers))) × (n ≡ length (saved words (file_of words registers)))) (λ _. buf.new ≡ buf.old) }
{
    check_save(words, registers, running, buf.len())?;
    Ok(save(words, registers, buf))
}
