// Why a call is refused. Document 01's numbers for the causes are in specs/Clauses.
ghost use Rattle.std.specs.Prelude.{◌≡◌};
ghost use Rattle.file.specs.Clauses.{cause_number};

#[derive(Clone, Copy)]
pub enum Cause {
    // The key is not 16 bytes.
    KeyLength,
    // The file passes 2^61 - 1 bytes, or would.
    TooLong,
    // The bytes named don't all lie in the file.
    OutOfFile,
    // Old and new differ in length.
    UnequalPair,
    // Prepend or drop-front of a length that is no multiple of 16.
    BrokenBlock,
    // The last used seal number is the last there is.
    NumbersUsed,
    // The slip is not 36 bytes.
    SlipLength,
    // The slip's version is not 1.
    SlipVersion,
}

// Document 01's number of a cause. It serves the layers above.
impl From<Cause> for u64 {
    ghost from_gives = { λ cause n. n ≡ cause_number cause };

    fn from(cause: Cause) -> u64 {
        match cause {
            Cause::KeyLength => 1,
            Cause::TooLong => 2,
            Cause::OutOfFile => 3,
            Cause::UnequalPair => 4,
            Cause::BrokenBlock => 5,
            Cause::NumbersUsed => 6,
            Cause::SlipLength => 7,
            Cause::SlipVersion => 8,
        }
    }
}
