// Why replay stops, and so forecast. The numbers are in specs/Clauses.
ghost use Rattle.std.specs.Prelude.{◌≡◌};
ghost use Rattle.journal.specs.declared.causes.Cause.TheVariants.{File};
ghost use Rattle.journal.specs.Clauses.{cause_number};

#[derive(Clone, Copy)]
pub enum Cause {
    // The journal passes 2^40 bytes, or fewer bytes remain than a record needs.
    JournalLength,
    // A record's kind is none of the five.
    UnknownKind,
    // A place in a record that is no change.
    PlaceOutsideChange,
    // The file keeper refuses the edit, or the state.
    File(file::Cause),
}

// The number of a cause. It serves the layers above.
impl From<Cause> for u64 {
    ghost from_gives = { λ cause n. n ≡ cause_number cause };

    fn from(cause: Cause) -> u64 {
        match cause {
            Cause::JournalLength => 10,
            Cause::UnknownKind => 11,
            Cause::PlaceOutsideChange => 12,
            Cause::File(cause) => u64::from(cause),
        }
    }
}

impl From<file::Cause> for Cause {
    ghost from_gives = { λ given made. made ≡ File given };

    fn from(given: file::Cause) -> Cause {
        Cause::File(given)
    }
}
