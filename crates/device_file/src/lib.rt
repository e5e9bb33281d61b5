// Device files of the old layout: a header, and records that describe a device, of which some stand inside a REGION. The reader judges a
// whole file in one pass before it hands anything out; the writer starts a file, and appends records to one that reads well.
#![tactic(auto, using(answer::proofs::Checks::decides, answer::proofs::Checks::goes_on))]

ghost use Rattle.std.specs.Prelude.{◌≡◌, ℕ, ◌+◌, ◌-◌, ◌^◌, ◌≤◌, ◌<◌, length as length_of, IfOk};
ghost use Rattle.std.proofs.lemmas.List.Edits.{sets};
ghost use Rattle.answer.specs.Answer.{verdict_of, told};
ghost use Rattle.wire.specs.Field.{bytes_of};
ghost use Rattle.device_file.specs.Layout.{DtIndex, prefix_size, is_magic, is_sub, least_length, fits as fitting, valid_content};
ghost use Rattle.device_file.specs.Read.{length_at, in_region, room_end, at_level, record_checks, record_fault, at_end, header_checks, read_file};
ghost use Rattle.device_file.specs.Write.{bare_fits, start_checks, append_checks, appended, start_file, append_record};
ghost use Rattle.device_file.specs.Types.{number_of, Names, own_length_of};
ghost use Rattle.device_file.specs.Scan.{IsEntry, found_of, Inside, behind as behind_of, with_entry, scan_of, option_in, HasRoom, header_of, Hands, Writes};

use answer::{Reason, Refusal};
use wire::Number;

// The bytes of a file's header: magic, version, flags.
const HEADER_SIZE: usize = 12;

// The bytes before a record's content: type and length.
const PREFIX_SIZE: usize = 8;

// The bytes of a REGION before its sub-records.
const REGION_SIZE: usize = 28;

fn is_magic(x: u32) -> bool
    ensures { result ≡ is_magic x }
{
    x == 0x70636900 || x == 0x64740000
}

// ---- what a record must satisfy

// The types of record.
#[derive(Clone, Copy, PartialEq, Eq)]
enum Kind {
    Region = 1,
    DtPath = 2,
    DtIndex = 3,
    Interrupt = 4,
    ConfigSpace = 5,
    BarIndex = 6,
    PhysAddr = 7,
}

impl TryFrom<u32> for Kind {
    type Error = Refusal;

    ghost try_from_gives = { Names };

    fn try_from(number: u32) -> Result<Kind, Refusal> {
        match number {
            1 => Ok(Kind::Region),
            2 => Ok(Kind::DtPath),
            3 => Ok(Kind::DtIndex),
            4 => Ok(Kind::Interrupt),
            5 => Ok(Kind::ConfigSpace),
            6 => Ok(Kind::BarIndex),
            7 => Ok(Kind::PhysAddr),
            _ => Err(Reason::UnknownPart.at(0)),
        }
    }
}

impl Kind {
    fn number(self) -> u32
        ensures { result ≡ number_of self }
    {
        self as u32
    }

    // Whether records of the type stand inside a REGION.
    #[tactic(auto, unfolding(crate::specs::Layout::is_sub))]
    fn is_sub(self) -> bool
        ensures { result ≡ is_sub (number_of self) }
    {
        match self {
            Kind::Region | Kind::Interrupt => false,
            _ => true,
        }
    }

    #[tactic(auto, unfolding(crate::specs::Read::at_level, answer::specs::Tests::pick))]
    fn is_at_level(self, inside: bool) -> bool
        ensures { result ≡ at_level (number_of self) inside }
    {
        if inside {
            self.is_sub()
        } else {
            !self.is_sub()
        }
    }

    // The length of a record that has one length alone, and the least length of a REGION and of a path.
    #[tactic(auto, unfolding(crate::specs::Layout::least_length))]
    fn least_length(self) -> usize
        ensures { result ≡ least_length (number_of self) }
    {
        match self {
            Kind::Region => REGION_SIZE,
            Kind::DtPath => PREFIX_SIZE,
            Kind::DtIndex => 16,
            Kind::Interrupt => 16,
            Kind::ConfigSpace => 12,
            Kind::BarIndex => 16,
            Kind::PhysAddr => 20,
        }
    }

    fn fits(self, length: usize) -> bool
        ensures { result ≡ fitting (number_of self) length }
    {
        let least = self.least_length();
        match self {
            Kind::Region | Kind::DtPath => least <= length,
            _ => length == least,
        }
    }

    // Whether a length fits a record that is given without sub-records.
    fn bare_fits(self, length: usize) -> bool
        ensures { result ≡ bare_fits (number_of self) length }
    {
        match self {
            Kind::Region => length == REGION_SIZE,
            _ => self.fits(length),
        }
    }

    // Whether the property of an index is one that there is. Of other types any content is good.
    fn is_valid_content(self, content: &[u8]) -> bool
        requires { number_of self ≡ DtIndex → 4 ≤ length_of content.now }
        ensures { result ≡ valid_content (number_of self) content.now }
    {
        match self {
            Kind::DtIndex => {
                let property = u32::get(content, 0);
                (1 <= property) & (property <= 4)
            }
            _ => true,
        }
    }
}

// ---- the pass over a file

// A record whose checks passed; a REGION's length counts its sub-records.
#[derive(Clone, Copy)]
struct Entry {
    kind: Kind,
    start: usize,
    length: usize,
    ghost sized: { (prefix_size ≤ own_length_of (number_of kind) length) × (own_length_of (number_of kind) length ≤ length) × (start + length < 2 ^ 64) },
}

impl Entry {
    // How long the record is before its sub-records.
    #[tactic(auto, unfolding(crate::specs::Types::own_length_of, answer::specs::Tests::pick))]
    fn own_length(self) -> usize
        ensures { result ≡ own_length_of (number_of self.kind) self.length }
    {
        match self.kind {
            Kind::Region => REGION_SIZE,
            _ => self.length,
        }
    }

    fn record(self) -> Record
        ensures { result ≡ found_of (number_of self.kind) self.start self.length }
    {
        Record {
            kind: self.kind.number(),
            start: self.start,
            content_start: self.start + PREFIX_SIZE,
            content_length: self.own_length() - PREFIX_SIZE,
        }
    }
}

// How far the pass has come: the record at `at` is next, inside a REGION where `region_end` lies ahead.
#[derive(Clone, Copy)]
struct Cursor {
    at: usize,
    region_end: usize,
}

impl Cursor {
    #[tactic(auto, unfolding(crate::specs::Read::in_region))]
    fn is_inside(self) -> bool
        ensures { result ≡ in_region self.at self.region_end }
    {
        self.at < self.region_end
    }

    // A file ends behind a record outside, and nowhere else.
    #[tactic(auto, unfolding(crate::specs::Read::at_end, answer::specs::Tests::pick))]
    fn is_end(self, file: &[u8]) -> bool
        ensures { result ≡ at_end file.now self.at self.region_end }
    {
        !self.is_inside() && self.at == file.len()
    }

    // The end of the room around the record here, which is its REGION or the file.
    #[tactic(auto, unfolding(crate::specs::Read::room_end, answer::specs::Tests::pick))]
    fn room_end(self, file: &[u8]) -> usize
        ensures { result ≡ room_end file.now self.at self.region_end }
    {
        if self.is_inside() {
            return self.region_end;
        }
        file.len()
    }

    // The checks of the record here, in their order.
    #[tactic(auto, using(answer::proofs::Checks::decides, answer::proofs::Checks::goes_on), unfolding(crate::specs::Read::record_checks))]
    fn check(self, file: &[u8]) -> Result<Entry, Refusal>
        requires { Inside file.now self }
        ensures checks { verdict_of result ≡ record_checks file.now self.at self.region_end }
        ensures entry { IfOk result (λ e. IsEntry file.now self.at (number_of e.kind) e.start e.length) }
    {
        let start = self.at;
        let room_end = self.room_end(file);
        Reason::Truncated.unless(start + PREFIX_SIZE <= room_end)?;
        let kind = Kind::try_from(u32::get(file, start))?;
        Reason::Header.unless(kind.is_at_level(self.is_inside()))?;
        let length = u32::get(file, start + 4) as usize;
        Reason::Truncated.when(room_end < start + length)?;
        Reason::Value.unless(kind.fits(length))?;
        Reason::Value.unless(kind.is_valid_content(&file[start + PREFIX_SIZE..start + length]))?;
        Ok(Entry {
            kind,
            start,
            length,
        })
    }

    // The record here; its start is the place of a refusal.
    fn entry(self, file: &[u8]) -> Result<Entry, Refusal>
        requires { Inside file.now self }
        ensures checks { verdict_of result ≡ record_fault file.now self.at self.region_end }
        ensures entry { IfOk result (λ e. IsEntry file.now self.at (number_of e.kind) e.start e.length) }
    {
        self.check(file).map_err(|e| e.reason.at(self.at as u64))
    }

    // Behind the record here.
    #[tactic(auto, unfolding(crate::specs::Scan::behind, answer::specs::Tests::pick))]
    fn behind(self, entry: Entry) -> Cursor
        ensures { result ≡ behind_of (number_of entry.kind) entry.start entry.length self }
    {
        Cursor {
            at: entry.start + entry.own_length(),
            region_end: match entry.kind {
                Kind::Region => entry.start + entry.length,
                _ => self.region_end,
            },
        }
    }
}

// What the pass notes: how many records there are, the one that is asked for, and where the last record outside begins if it is a REGION.
#[derive(Clone, Copy)]
struct Notes {
    records: u64,
    found: Option<Record>,
    region: Option<usize>,
}

impl Notes {
    // With one record more; record `n` is the one that is asked for, the first being 0.
    #[tactic(auto, unfolding(crate::specs::Scan::with_entry, answer::specs::Tests::pick))]
    fn with(self, entry: Entry, n: u64) -> Notes
        requires { self.records + 1 < 2 ^ 64 }
        ensures { result ≡ with_entry n (number_of entry.kind) entry.start entry.length self }
    {
        Notes {
            records: self.records + 1,
            found: if self.records == n {
                Some(entry.record())
            } else {
                self.found
            },
            region: match entry.kind {
                Kind::Region => Some(entry.start),
                Kind::Interrupt => None,
                _ => self.region,
            },
        }
    }
}

#[tactic(auto, using(answer::proofs::Checks::decides, answer::proofs::Checks::goes_on), unfolding(crate::specs::Read::header_checks, answer::specs::Limits::length_check))]
fn check_header(file: &[u8]) -> Result<(), Refusal>
    ensures { verdict_of result ≡ header_checks file.now }
{
    Reason::TooLong.when(answer::TRANSFER_LIMIT < file.len())?;
    Reason::Truncated.unless(HEADER_SIZE <= file.len())?;
    Reason::Magic.unless(is_magic(u32::get(file, 0)))
}

// Judges the whole file, and finds record `n`. In place in its three callers, each of which wants another part of what it notes: out of line,
// all of that goes through memory.
#[inline(always)]
fn scan(file: &[u8], n: u64) -> Result<Notes, Refusal>
    ensures { told result ≡ scan_of n (read_file file.now) }
{
    check_header(file)?;
    let mut cursor = Cursor {
        at: HEADER_SIZE,
        region_end: HEADER_SIZE,
    };
    let mut notes = Notes {
        records: 0,
        found: None,
        region: None,
    };
    // No `for`: only a record says where the next one begins.
    while !cursor.is_end(file) {
        let entry = cursor.entry(file)?;
        notes = notes.with(entry, n);
        cursor = cursor.behind(entry);
    }
    Ok(notes)
}

// ---- reading

// A file's header, and how many records it has.
#[derive(Clone, Copy)]
pub struct Header {
    pub records: u64,
    pub magic: u32,
    pub version: u32,
    pub flags: u32,
}

pub fn read(file: &[u8]) -> Result<Header, Refusal>
    ensures { told result ≡ header_of (read_file file.now) }
{
    let notes = scan(file, 0)?;
    Ok(Header {
        records: notes.records,
        magic: u32::get(file, 0),
        version: u32::get(file, 4),
        flags: u32::get(file, 8),
    })
}

// A record: its type, its start, and the bounds of its content in the file, of a REGION those of its fixed content. The type is the number that
// the file has for it, which callers in C are told.
#[derive(Clone, Copy)]
pub struct Record {
    pub kind: u32,
    pub start: usize,
    pub content_start: usize,
    pub content_length: usize,
}

// Record `n` of a file, the first being 0, if there is one; sub-records count, in file order.
pub fn read_record(file: &[u8], n: u64) -> Result<Option<Record>, Refusal>
    ensures { Hands file.now n result }
{
    Ok(scan(file, n)?.found)
}

// ---- writing

#[tactic(auto, using(answer::proofs::Checks::decides, answer::proofs::Checks::goes_on), unfolding(crate::specs::Write::start_checks, answer::specs::Limits::length_check))]
fn check_start(room: usize, magic: u32) -> Result<(), Refusal>
    ensures { verdict_of result ≡ start_checks room magic }
{
    Reason::TooLong.when(answer::TRANSFER_LIMIT < room)?;
    Reason::Magic.unless(is_magic(magic))?;
    Reason::NoSpace.when(room < HEADER_SIZE)
}

// Starts a file, which then is its header and no record. The result of both writers is how many bytes of the buffer are in use.
pub fn start(buf: &mut [u8], magic: u32, version: u32, flags: u32) -> Result<usize, Refusal>
    ensures { Writes buf.old (start_file buf.old magic version flags) (told result) buf.new }
{
    check_start(buf.len(), magic)?;
    magic.put(buf, 0);
    version.put(buf, 4);
    flags.put(buf, 8);
    Ok(HEADER_SIZE)
}

// The checks of a record to append behind the bytes in use, whose last record outside begins at `region` if it is a REGION. Its type is known
// where they pass.
fn check_append(
    room: usize,
    used: usize,
    region: Option<usize>,
    number: u32,
    content: &[u8],
) -> Result<Kind, Refusal>
    requires { used ≤ room }
    ensures checks { verdict_of result ≡ append_checks room used (option_in region) number content.now }
    ensures kind { IfOk result (λ kind. number_of kind ≡ number) }
{
    let length = PREFIX_SIZE + content.len();
    let kind = Kind::try_from(number)?;
    Reason::Header.when(kind.is_sub() && region.is_none())?;
    Reason::Value.unless(kind.bare_fits(length))?;
    Reason::Value.unless(kind.is_valid_content(content))?;
    Reason::NoSpace.when(room - used < length)?;
    Ok(kind)
}

// Makes the REGION at a place longer.
fn grow(buf: &mut [u8], region: usize, length: u32)
    requires { (region + prefix_size ≤ length_of buf.old) × (length_at buf.old region + length < 2 ^ 32) }
    ensures { buf.new ≡ sets buf.old (region + 4) (bytes_of 4 (length_at buf.old region + length)) }
{
    let grown = u32::get(buf, region + 4) + length;
    grown.put(buf, region + 4);
}

// Writes a record behind the bytes in use; a sub-record makes its REGION longer.
#[tactic(auto, unfolding(crate::specs::Write::record_length))]
fn put_record(buf: &mut [u8], used: usize, region: Option<usize>, kind: Kind, content: &[u8])
    requires { HasRoom buf.old used region (number_of kind) content.now }
    ensures { buf.new ≡ (appended buf.old used (option_in region) (number_of kind) content.now).buffer }
{
    let n = content.len();
    let length = (PREFIX_SIZE + n) as u32;
    if kind.is_sub() {
        if let Some(region) = region {
            grow(buf, region, length);
        }
    }
    kind.number().put(buf, used);
    length.put(buf, used + 4);
    wire::copy(buf, used + PREFIX_SIZE, content, 0, n);
}

// Appends a record to the file in the buffer's first `used` bytes, whose memory is the caller's; `kind` may be any number. Nothing is written
// before the last check has passed.
pub fn append(buf: &mut [u8], used: usize, kind: u32, content: &[u8]) -> Result<usize, Refusal>
    ensures { Writes buf.old (append_record buf.old used kind content.now) (told result) buf.new }
{
    Reason::TooLong.when(answer::TRANSFER_LIMIT < buf.len())?;
    Reason::Truncated.when(buf.len() < used)?;
    let region = scan(&buf[..used], 0)?.region;
    let kind = check_append(buf.len(), used, region, kind, content)?;
    put_record(buf, used, region, kind, content);
    Ok(used + (PREFIX_SIZE + content.len()))
}
