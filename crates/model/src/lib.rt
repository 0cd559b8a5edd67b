// The types of the answers, shared by the definitions and the code. What each case means to the outside is in specs/Answer.antt.
#![tactic(auto)]

ghost use Rattle.std.specs.Prelude.{◌≡◌};
ghost use Rattle.model.specs.Answer.{number, at_start};
ghost use Rattle.model.specs.Mark.{mark_number, MarkOf};

// Why a call refuses. The numbers of documents 01 and 02 are in specs/Answer.antt.
#[derive(Clone, Copy, Debug, PartialEq, Eq)]
pub enum Refusal {
    Eos,
    ExpectOpen,
    ExpectClose,
    ExpectDeclaration,
    ExpectKeyword,
    ExpectIdentifier,
    ExpectEnd,
    TooLong,
    NotUtf8,
    TooDeep,
    InvalidBitWidth,
    InvalidByteLength,
    Unknown,
    NotWellFormed,
    WrongSort,
    NoRoom,
    SheetTooLong,
    TooManyDeclarations,
    Repeated,
    CallTooLong,
    NotAnEncoding,
    NoSuchFunction,
    SheetChanged,
    NotTight,
    NoSuchSample,
}

impl From<Refusal> for u32 {
    ghost from_gives = { λ w n. n ≡ number w };

    fn from(refusal: Refusal) -> u32 {
        match refusal {
            Refusal::Eos => 1,
            Refusal::ExpectOpen => 2,
            Refusal::ExpectClose => 3,
            Refusal::ExpectDeclaration => 4,
            Refusal::ExpectKeyword => 5,
            Refusal::ExpectIdentifier => 6,
            Refusal::ExpectEnd => 7,
            Refusal::TooLong => 8,
            Refusal::NotUtf8 => 9,
            Refusal::TooDeep => 10,
            Refusal::InvalidBitWidth => 11,
            Refusal::InvalidByteLength => 12,
            Refusal::Unknown => 13,
            Refusal::NotWellFormed => 15,
            Refusal::WrongSort => 16,
            Refusal::NoRoom => 20,
            Refusal::SheetTooLong => 21,
            Refusal::TooManyDeclarations => 22,
            Refusal::Repeated => 23,
            Refusal::CallTooLong => 24,
            Refusal::NotAnEncoding => 25,
            Refusal::NoSuchFunction => 26,
            Refusal::SheetChanged => 27,
            Refusal::NotTight => 28,
            Refusal::NoSuchSample => 29,
        }
    }
}

// A refusal and where it stands.
#[derive(Clone, Copy, Debug, PartialEq, Eq)]
pub struct Refused {
    pub refusal: Refusal,
    pub position: usize,
}

// Most refusals stand at the start.
impl From<Refusal> for Refused {
    ghost from_gives = { λ w r. r ≡ at_start w };

    fn from(refusal: Refusal) -> Refused {
        Refused {
            refusal,
            position: 0,
        }
    }
}

// What a call answers: the length of what it wrote, or why it refuses and where.
pub type Answer = Result<usize, Refused>;

// A function that was found in a sheet: its place, and how many were compared. specs/Find.antt has the numbers.
#[derive(Clone, Copy, Debug, PartialEq, Eq)]
pub struct Found {
    pub place: usize,
    pub compared: usize,
}

// Why none was found, and how many were compared.
#[derive(Clone, Copy, Debug, PartialEq, Eq)]
pub struct Missing {
    pub refusal: Refusal,
    pub compared: usize,
}

// What the search in a sheet answers.
pub type Search = Result<Found, Missing>;

// The words that a declaration begins with.
#[derive(Clone, Copy, Debug, PartialEq, Eq)]
pub enum Keyword {
    Function,
    Constructor,
    Event,
    Error,
}

// The five reading calls.
#[derive(Clone, Copy, Debug, PartialEq, Eq)]
pub enum Call {
    General,
    Function,
    Constructor,
    Event,
    Error,
}

// The sorts of list, by the marks that their fields may have.
#[derive(Clone, Copy, Debug, PartialEq, Eq)]
pub enum Sort {
    Plain,
    Parameter,
    Event,
}

// The modifiers of a field. specs/Mark.antt has the numbers that stand in records.
#[derive(Clone, Copy, Debug, PartialEq, Eq)]
pub enum Mark {
    Unmarked,
    Indexed,
    Calldata,
    Memory,
}

impl From<Mark> for usize {
    ghost from_gives = { λ m n. n ≡ mark_number m };

    fn from(mark: Mark) -> usize {
        match mark {
            Mark::Unmarked => 0,
            Mark::Indexed => 1,
            Mark::Calldata => 2,
            Mark::Memory => 3,
        }
    }
}

// A number that is no mark's.
#[derive(Clone, Copy, Debug, PartialEq, Eq)]
pub struct UnknownMark(pub usize);

impl TryFrom<usize> for Mark {
    type Error = UnknownMark;

    ghost try_from_gives = { MarkOf };

    fn try_from(number: usize) -> Result<Mark, UnknownMark> {
        match number {
            0 => Ok(Mark::Unmarked),
            1 => Ok(Mark::Indexed),
            2 => Ok(Mark::Calldata),
            3 => Ok(Mark::Memory),
            _ => Err(UnknownMark(number)),
        }
    }
}
