// The table of requests: how each is told from the others, and what its buffer has to hold.
#![tactic(auto)]

ghost use Rattle.std.specs.Prelude.{◌≡◌, MatchOption};
ghost use Rattle.std.proofs.Math.Option.{none};
ghost use Rattle.emulator.specs.Requests.{identify as listed};
ghost use Rattle.vfio.specs.Entries.{Knows};

// A request that there is.
#[derive(Clone, Copy)]
pub enum Request {
    GetApiVersion,
    CheckExtension,
    SetIommu,
    GetIommuInfo,
    MapDma,
    UnmapDma,
    GetInfo,
    GetRegionInfo,
    GetIrqInfo,
    SetIrqs,
    ResetDevice,
}

// A row of the table: a request is told by its target and its number, since VFIO gives one number to several. Its buffer has so many bytes
// at least, and the first of them may be argsz.
#[derive(Clone, Copy)]
pub struct Entry {
    pub target: u32,
    pub number: u32,
    pub request: Request,
    pub size: usize,
    pub has_argsz: bool,
}

// The targets, by their numbers, as callers pass them: any may come, so that they are no enum.
const CONTAINER: u32 = 0;

const DEVICE: u32 = 1;

const REQUESTS: [Entry; 11] = [
    Entry {
        target: CONTAINER,
        number: 100,
        request: Request::GetApiVersion,
        size: 0,
        has_argsz: false,
    },
    Entry {
        target: CONTAINER,
        number: 101,
        request: Request::CheckExtension,
        size: 4,
        has_argsz: false,
    },
    Entry {
        target: CONTAINER,
        number: 102,
        request: Request::SetIommu,
        size: 4,
        has_argsz: false,
    },
    Entry {
        target: CONTAINER,
        number: 112,
        request: Request::GetIommuInfo,
        size: 16,
        has_argsz: true,
    },
    Entry {
        target: CONTAINER,
        number: 113,
        request: Request::MapDma,
        size: 32,
        has_argsz: true,
    },
    Entry {
        target: CONTAINER,
        number: 114,
        request: Request::UnmapDma,
        size: 24,
        has_argsz: true,
    },
    Entry {
        target: DEVICE,
        number: 107,
        request: Request::GetInfo,
        size: 16,
        has_argsz: true,
    },
    Entry {
        target: DEVICE,
        number: 108,
        request: Request::GetRegionInfo,
        size: 32,
        has_argsz: true,
    },
    Entry {
        target: DEVICE,
        number: 109,
        request: Request::GetIrqInfo,
        size: 16,
        has_argsz: true,
    },
    Entry {
        target: DEVICE,
        number: 110,
        request: Request::SetIrqs,
        size: 20,
        has_argsz: true,
    },
    Entry {
        target: DEVICE,
        number: 111,
        request: Request::ResetDevice,
        size: 0,
        has_argsz: false,
    },
];

// The row of a target's request by its number, if there is one.
pub fn identify(target: u32, number: u32) -> Option<Entry>
    ensures { MatchOption result (listed target number ≡ none) (Knows (listed target number)) }
{
    REQUESTS
        .iter()
        .find(|e| e.target == target && e.number == number)
        .copied()
}
