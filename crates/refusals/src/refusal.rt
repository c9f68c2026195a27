// The refusals, in the order of their numbers.
ghost use Rattle.std.specs.Prelude.{◌≡◌};
ghost use Rattle.refusals.specs.Refusals.{number_of, number_given};

// Why a call is refused. Its number is that of document 01 and of the requests; 0 is done, and no refusal.
#[derive(Clone, Copy, Debug, PartialEq, Eq)]
pub enum Refusal {
    // A message not of 7 or 14 bytes, or a buffer not as long as the message.
    Length = 1,
    // A number outside its range.
    Range = 2,
    // A guarantee above its ceiling, or shares that do not fit the period.
    Shares = 3,
    // The address is not in the target list.
    NoTarget = 4,
    // The address is there already.
    Present = 5,
    // Full: 64 targets, 16 requests of the unit, 8 messages in the model.
    Full = 6,
    // No such entry in the plan.
    NoEntry = 7,
    // The entry is answered or withdrawn.
    Closed = 8,
    // The reply has not the entry's length.
    OtherLength = 9,
    // The reply starts outside the entry's limits.
    Outside = 10,
    // More marked bits than the station's limit.
    Marks = 11,
    // No subset of the marked bits matches.
    NoMatch = 12,
    // More than one subset matches.
    Doubt = 13,
    // The format is not the expected one, or not listed.
    Format = 14,
    // A model time before its last time.
    Earlier = 15,
    // An unknown kind of record.
    Unknown = 16,
    // A record cut by the end of the stream.
    Cut = 17,
    // An altitude pattern that the 100 ft code does not have.
    Illegal = 18,
    // An altitude that has no code.
    NoCode = 19,
}

impl From<Refusal> for u8 {
    ghost from_gives = { λ r n. n ≡ number_of r };

    fn from(r: Refusal) -> u8 {
        r as u8
    }
}

// The number that a call is given: 0 where it is done.
pub fn number_given<T>(r: &Result<T, Refusal>) -> u8
    ensures { result ≡ number_given r.now }
{
    match r {
        Ok(_) => 0,
        Err(refusal) => u8::from(*refusal),
    }
}
