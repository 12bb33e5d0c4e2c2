// Why an act, a start or a run is refused, and the number that stands for each.
ghost use Rattle.std.specs.Prelude.{◌≡◌};
ghost use Rattle.model.specs.Refusals.{NumberOfHalt, HaltOfNumber, NumberOfStart, NumberOfRun};
ghost use Rattle.model.specs.declared.refusal.Halt.TheVariants as halt;
ghost use Rattle.model.specs.declared.refusal.StartError.TheVariants as start;
ghost use Rattle.model.specs.declared.refusal.RunError.TheVariants as run;

// Why an act is refused. A start or a run halts there.
#[derive(Clone, Copy, Debug, PartialEq, Eq)]
pub enum Halt {
    // A number to be stored is not finite, a time is not below f64::MAX, or a root is refused.
    NotFinite,
    // The cell holds its full number of events.
    QueueFull,
    // The cell holds its full number of grains, or the grain of cells.
    ListFull,
    // The cell lists the grain already.
    AlreadyListed,
    // The cell is the grain's only one.
    OnlyCell,
}

impl From<Halt> for u64 {
    ghost from_gives = { NumberOfHalt };

    fn from(halt: Halt) -> u64 {
        match halt {
            Halt::NotFinite => 5,
            Halt::QueueFull => 6,
            Halt::ListFull => 7,
            Halt::AlreadyListed => 8,
            Halt::OnlyCell => 9,
        }
    }
}

// A number that stands for no halt.
#[derive(Clone, Copy, Debug, PartialEq, Eq)]
pub struct NoHalt(pub u64);

impl TryFrom<u64> for Halt {
    type Error = NoHalt;

    ghost try_from_gives = { HaltOfNumber };

    fn try_from(number: u64) -> Result<Self, NoHalt> {
        match number {
            5 => Ok(Halt::NotFinite),
            6 => Ok(Halt::QueueFull),
            7 => Ok(Halt::ListFull),
            8 => Ok(Halt::AlreadyListed),
            9 => Ok(Halt::OnlyCell),
            _ => Err(NoHalt(number)),
        }
    }
}

// The root of a contact is refused: the number is NaN or below 0.
#[derive(Clone, Copy, Debug, PartialEq, Eq)]
pub struct RootRefused;

impl From<RootRefused> for Halt {
    ghost from_gives = { λ r h. h ≡ halt.NotFinite };

    fn from(_refused: RootRefused) -> Halt {
        Halt::NotFinite
    }
}

// Why a start does not stand ready to run: it is refused and nothing is changed, or it is accepted and halted.
#[derive(Clone, Copy, Debug, PartialEq, Eq)]
pub enum StartError {
    BoxOutOfRange,
    TooShort,
    // The lowest grain whose numbers are out of range.
    BadGrain(u64),
    Halted(Halt),
}

impl From<Halt> for StartError {
    ghost from_gives = { λ h e. e ≡ start.Halted h };

    fn from(halt: Halt) -> StartError {
        StartError::Halted(halt)
    }
}

impl From<StartError> for u64 {
    ghost from_gives = { NumberOfStart };

    fn from(error: StartError) -> u64 {
        match error {
            StartError::BoxOutOfRange => 1,
            StartError::TooShort => 2,
            StartError::BadGrain(_) => 4,
            StartError::Halted(halt) => u64::from(halt),
        }
    }
}

// Why a run did not end as it should: its tables or its rate do not allow it and nothing is changed, or it halts, now or before.
#[derive(Clone, Copy, Debug, PartialEq, Eq)]
pub enum RunError {
    TooShort,
    Halted(Halt),
    RateOutOfRange,
    // The tables break a standing fact.
    Broken,
}

impl From<Halt> for RunError {
    ghost from_gives = { λ h e. e ≡ run.Halted h };

    fn from(halt: Halt) -> RunError {
        RunError::Halted(halt)
    }
}

impl From<RunError> for u64 {
    ghost from_gives = { NumberOfRun };

    fn from(error: RunError) -> u64 {
        match error {
            RunError::TooShort => 2,
            RunError::Halted(halt) => u64::from(halt),
            RunError::RateOutOfRange => 3,
            RunError::Broken => 10,
        }
    }
}
