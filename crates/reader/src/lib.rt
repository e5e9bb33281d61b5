// A reader of a stream of parts: it keeps hold of the stream and its place. Its methods are thin: each takes the struct
// apart and leaves the work to a function on a slice and a number. Callers that have those need no reader.
#![tactic(auto)]

ghost use Rattle.std.specs.Prelude.{◌≡◌};
ghost use Rattle.parts.specs.Step.{step_at, step_of, value_at};
ghost use Rattle.reader.specs.Read.{place_after, reader_at, onward, second_step};

use answer::Refusal;
use parts::Part;

#[derive(Clone, Copy)]
pub struct PartReader<'a> {
    pub stream: &'a [u8],
    pub place: usize,
}

impl<'a> PartReader<'a> {
    pub fn new(stream: &'a [u8]) -> PartReader<'a>
        ensures { result ≡ reader_at stream.entry 0 }
    {
        PartReader { stream, place: 0 }
    }

    // What stands at the reader's place.
    pub fn step(self) -> Result<Option<Part>, Refusal>
        ensures { step_of result ≡ step_at self.entry.stream.now self.entry.place }
    {
        parts::step_at(self.stream, self.place)
    }

    // The value of the part at the reader's place, as that stretch of the stream; nothing where no part stands.
    pub fn value(self) -> &'a [u8]
        ensures { result.now ≡ value_at self.entry.stream.now self.entry.place }
    {
        parts::value_at(self.stream, self.place)
    }

    // The same stream at the place after the step.
    pub fn next(self) -> PartReader<'a>
        ensures { result ≡ onward self.entry }
    {
        PartReader {
            stream: self.stream,
            place: place_after(self.stream, self.place),
        }
    }
}

// Where a reader of `stream` at `place` goes on: behind the part there; after a refusal or at the end it stays.
#[tactic(auto, unfolding(crate::specs::Read::place_after, crate::specs::Read::next_place))]
pub fn place_after(stream: &[u8], place: usize) -> usize
    ensures { result ≡ place_after stream.now place }
{
    match parts::step_at(stream, place) {
        Ok(Some(part)) => part.next,
        Ok(None) => place,
        Err(_) => place,
    }
}

// The step after the first, for callers that hold no reader: behind a part, or the same again where none stands.
#[tactic(auto, unfolding(crate::specs::Read::second_step))]
pub fn second(stream: &[u8]) -> Result<Option<Part>, Refusal>
    ensures { step_of result ≡ second_step stream.now }
{
    PartReader::new(stream).next().step()
}
