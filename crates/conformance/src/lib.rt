// Whether a stream is what saving writes; if not, how far some save agrees with it.
#![tactic(auto)]

ghost use Rattle.std.specs.Prelude.{◌≡◌, true, ◌≤◌, ◌<◌, ◌+◌, length, take, eqb, leb};
ghost use Rattle.answer.specs.Tests.{◌and◌, ◌or◌, pick};
ghost use Rattle.answer.specs.Checks.{passes};
ghost use Rattle.wire.specs.Field.{field};
ghost use Rattle.registers.specs.Cards.{words_of, is_card};
ghost use Rattle.registers.specs.Rows.{row_count, kind_of, size_of};
ghost use Rattle.registers.specs.Values.{within, power_of_two, content_checks};
ghost use Rattle.parts.specs.Step.{header_size};
ghost use Rattle.conformance.specs.Saves.{conformance_of, Answers, NumberAnswers};
ghost use Rattle.conformance.specs.Bytes.{header as header_of, required, offered_byte, queue_byte, good_byte};
ghost use Rattle.conformance.specs.Scan.{Common, MostGood, Finds};

use registers::Card;
use wire::Number;

// What is found of a row at a place: its part, whole; its header and so many bytes in all; or so many bytes of its header.
#[derive(Clone, Copy)]
enum Part {
    Whole(usize),
    Broken(usize),
    Absent(usize),
}

// ---- bytes that are the same

// Whether the first 16 bytes are the same. Two numbers are two loads, where the comparison of two slices is a call.
fn same_header(a: &[u8], b: &[u8]) -> bool
    requires { (header_size ≤ length a.now) × (header_size ≤ length b.now) }
    ensures { result ≡ eqb (field a.now 0 16) (field b.now 0 16) }
{
    u64::get(a, 0) == u64::get(b, 0) && u64::get(a, 8) == u64::get(b, 8)
}

// How many bytes two lists share at their start. Out of line, as few rows come to it: in place, the compiler takes a header's bytes apart for
// every row.
#[inline(never)]
fn common(a: &[u8], b: &[u8]) -> usize
    ensures { Common a.now b.now result }
{
    a.iter().zip(b).take_while(|(x, y)| x == y).count()
}

// ---- values, byte by byte

#[tactic(auto, unfolding(crate::specs::Bytes::offered_byte, registers::specs::Values::offered, registers::specs::Values::offered_word, wire::specs::Field::bytes_of))]
fn offered_byte(i: usize) -> u8
    ensures { result ≡ offered_byte i }
{
    match i {
        3 => 0x30,
        4 => 1,
        8 => 1,
        _ => 0,
    }
}

// Whether byte `i` of features is what is offered there, or, where it need not be `exact`, has no bit beyond: the definition chooses so too.
#[tactic(auto, unfolding(answer::specs::Tests::pick, registers::specs::Values::within))]
fn is_feature_byte(exact: bool, i: usize, b: u8) -> bool
    ensures { result ≡ pick exact eqb within b (offered_byte i) }
{
    let offered = offered_byte(i);
    if exact {
        b == offered
    } else {
        b & offered == b
    }
}

// The low byte of a queue's size.
fn is_size_byte(b: u8) -> bool
    ensures { result ≡ (eqb b 0 or power_of_two 8 b) }
{
    b == 0 || registers::is_power_of_two(b as u16)
}

// The most that the high byte of a queue's size may be behind its low byte.
#[tactic(auto, unfolding(answer::specs::Tests::pick))]
fn size_limit(low: u8) -> u8
    ensures { result ≡ pick (eqb low 0) 1 0 }
{
    if low == 0 { 1 } else { 0 }
}

// The most that a queue's `enabled` may be behind its size.
#[tactic(auto, unfolding(answer::specs::Tests::pick))]
fn enabled_limit(size: u16) -> u8
    ensures { result ≡ pick (eqb size 0) 0 1 }
{
    if size == 0 { 0 } else { 1 }
}

#[tactic(auto, unfolding(crate::specs::Bytes::queue_byte, answer::specs::Tests::pick))]
fn is_queue_byte(v: &[u8], i: usize) -> bool
    requires { i < length v.now }
    ensures { result ≡ queue_byte v.now i }
{
    let b = v[i];
    match i {
        0 => is_size_byte(b),
        1 => b <= size_limit(v[0]),
        4 => b <= enabled_limit(u16::get(v, 0)),
        5..=7 => b == 0,
        8 => b % 16 == 0,
        16 => b % 2 == 0,
        24 => b % 4 == 0,
        _ => true,
    }
}

// ---- rows

// A row of the register table, on a card with so many words of features.
#[derive(Clone, Copy)]
struct Row {
    words: u8,
    index: usize,
    ghost listed: { (is_card words ≡ true) × (index < row_count) },
}

impl Row {
    // The header of its part.
    fn header(self) -> [u8; parts::HEADER_SIZE]
        ensures { result ≡ header_of self.words self.index }
    {
        let kind = registers::kind_of(self.index);
        let flags = parts::flags(kind);
        let selector = registers::selector_of(self.index);
        let size = registers::size_of(self.words, self.index);
        let mut h = [0u8; parts::HEADER_SIZE];
        (kind.number() as u16).put(&mut h, 0);
        flags.put(&mut h, 2);
        0u8.put(&mut h, 3);
        selector.put(&mut h, 4);
        (size as u32).put(&mut h, 12);
        h
    }

    // How many bytes its header shares with what is left of a stream. Most rows that are left out differ in the first byte, the type's low one.
    fn header_at(self, h: &[u8]) -> usize
        ensures { Common (header_of self.words self.index) h.now result }
    {
        if h.is_empty() {
            return 0;
        }
        let first = (registers::kind_of(self.index).number() % 256) as u8;
        if h[0] != first {
            return 0;
        }
        let expected = self.header();
        if parts::HEADER_SIZE <= h.len() && same_header(&expected, h) {
            return parts::HEADER_SIZE;
        }
        common(&expected, h)
    }

    // Whether byte `i` of its value is good behind those before it.
    fn is_good_byte(self, v: &[u8], i: usize) -> bool
        requires { i < length v.now }
        ensures { result ≡ good_byte self.index v.now i }
    {
        match self.index {
            0 => is_feature_byte(true, i, v[i]),
            1 => is_feature_byte(false, i, v[i]),
            2..=6 => true,
            7..=10 => is_queue_byte(v, i),
            _ => i < 4 || v[i] == 0,
        }
    }

    // Whether a good value stands at the start of what is left of a stream.
    fn is_value(self, v: &[u8]) -> bool
        ensures { result ≡ (leb (size_of self.words self.index) (length v.now) and passes (content_checks self.words (kind_of self.index) (take (size_of self.words self.index) v.now))) }
    {
        let size = registers::size_of(self.words, self.index);
        size <= v.len() && registers::check_content(self.words, self.index, &v[..size]).is_ok()
    }

    // How many bytes of what is left of a stream some good value begins with. A value that is good, which most are, is judged at once.
    fn value_at(self, v: &[u8]) -> usize
        ensures { MostGood self.words self.index v.now result }
    {
        let size = registers::size_of(self.words, self.index);
        if self.is_value(v) {
            return size;
        }
        let end = size.min(v.len());
        for n in 0..end {
            if !self.is_good_byte(v, n) {
                return n;
            }
        }
        end
    }

    fn part_at(self, h: &[u8]) -> Part
        ensures { Finds self.words self.index h.now result }
    {
        let n = self.header_at(h);
        if n < parts::HEADER_SIZE {
            return Part::Absent(n);
        }
        let m = self.value_at(&h[parts::HEADER_SIZE..]);
        if m < registers::size_of(self.words, self.index) {
            return Part::Broken(parts::HEADER_SIZE + m);
        }
        Part::Whole(parts::HEADER_SIZE + m)
    }

    // Whether every save has its part.
    fn is_required(self) -> bool
        ensures { result ≡ required self.index }
    {
        self.index == 0 || self.index == registers::STATUS_ROW
    }
}

// ---- the stream

// Row by row, as saving goes: a row's part stands at `at`, or the row is left out if it may be. `best` is how far some save agrees: at a
// row that was left out, it is where its header ceased to agree.
fn scan(words: u8, s: &[u8]) -> Result<(), usize>
    requires { is_card words ≡ true }
    ensures { Answers words s.now (conformance_of result) }
{
    let mut at: usize = 0;
    let mut best: usize = 0;
    for index in 0..registers::ROWS {
        let row = Row { words, index };
        match row.part_at(&s[at..]) {
            Part::Whole(n) => {
                at += n;
                best = at;
            }
            Part::Broken(n) => {
                return Err(at + n);
            }
            Part::Absent(n) => {
                best = best.max(at + n);
                if row.is_required() {
                    return Err(best);
                }
            }
        }
    }
    if at == s.len() {
        return Ok(());
    }
    Err(best)
}

// Whether some register state of the card saves to this stream, which may have any length. If none does, the error is the length of its longest
// beginning with which some save begins, which is the place of the first byte that no save has there.
pub fn check(card: Card, s: &[u8]) -> Result<(), usize>
    ensures { Answers (words_of card) s.now (conformance_of result) }
{
    scan(registers::words_of(card), s)
}

// The number by which C is told yes; any other is the length.
pub const YES: u64 = 0xffff_ffff_ffff_ffff;

// The same as one number.
pub fn check_number(card: Card, s: &[u8]) -> u64
    ensures { NumberAnswers (words_of card) s.now result }
{
    match check(card, s) {
        Ok(()) => YES,
        Err(k) => k as u64,
    }
}
