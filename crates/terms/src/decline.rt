// Declines: which layer says no, why, and where.
ghost use Rattle.std.specs.Prelude.{◌≡◌};
ghost use Rattle.terms.specs.Declines.{number_of, layer_of};

// Who declines: the reader of the file, the opener of a fleet, or the clerk of the docket.
#[derive(Clone, Copy, PartialEq, Eq, Debug)]
pub enum Layer {
    Reader,
    Fleet,
    Docket,
}

// Why something is declined, with the pool's number; docs/DECLINES.md has the exact condition of each.
#[derive(Clone, Copy, PartialEq, Eq, Debug)]
pub enum Cause {
    FileTooLong = 1,
    LineTooLong = 2,
    ForeignByte = 3,
    UnknownForm = 4,
    UnexpectedWord = 5,
    NotANumeral = 6,
    NumeralOutOfRange = 7,
    OfferDisagrees = 8,
    FormOutOfPlace = 9,
    TooManyOffers = 10,
    NoUnits = 11,
    PeriodsOrWeight = 12,
    TooManyOutages = 13,
    BadOutage = 14,
    WrongStage = 21,
    RowLength = 22,
    RowValue = 23,
    NoSuchUnit = 24,
    RunStands = 25,
    ScheduleLength = 26,
    ScheduleNotAllowed = 27,
    MixBeforeRun = 28,
    MixWeight = 29,
    TooLittleRoom = 30,
    BeyondRange = 31,
    NoSchedule = 32,
    UnitWithoutRun = 41,
    RunsMissNeed = 42,
    MixesTooLight = 43,
    MixesMissNeed = 44,
}

impl Cause {
    // The pool's number of the cause: its discriminant, which only a cast reads.
    pub fn number(self) -> u32
        ensures { result ≡ number_of self }
    {
        self as u32
    }

    // A decline for this cause.
    pub fn at(self, place: usize) -> Decline
        ensures { result ≡ record { cause = self; place = place } }
    {
        Decline { cause: self, place }
    }

    // The layer that declines for this cause, by the pool's own ranges of numbers, since by cases it would be the list
    // again: 1 to 10 the reader, 11 to 14 the fleet, the rest the docket.
    pub fn layer(self) -> Layer
        ensures { result ≡ layer_of self }
    {
        match self.number() {
            0..=10 => Layer::Reader,
            11..=14 => Layer::Fleet,
            _ => Layer::Docket,
        }
    }
}

// A decline. Its layer and number are those of its cause, so they cannot disagree.
#[derive(Clone, Copy, PartialEq, Eq, Debug)]
pub struct Decline {
    pub cause: Cause,
    pub place: usize,
}
