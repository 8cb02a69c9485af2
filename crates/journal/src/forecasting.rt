// Forecast: what replay of a journal will do, told before it is run. It goes record by record as replay does, with lengths alone: of the journal it
// reads the heads.
ghost use Rattle.std.specs.Prelude.{◌≡◌, ◌≤◌, ◌^◌, Ok};
ghost use Rattle.file.specs.Clauses.{geometry_of};
ghost use Rattle.journal.specs.Forecasts;
ghost use Rattle.journal.specs.Forecasts.{forecasted};
ghost use Rattle.journal.specs.Walks.{lengths_taken};
ghost use Rattle.journal.specs.Clauses.{span_geometry, forecast_answer};

use super::causes::Cause;
use super::records::Edit;
use super::walking::{TakesEdits, Walk};
use field::summing::blocks;
use file::{Kind, Shape, measure};

// What forecast answers: the most products that replay counts, the greatest length that the file reaches, and where replay stops.
#[derive(Clone, Copy)]
pub struct Forecasted {
    pub bound: u64,
    pub greatest: u64,
    pub offset: u64,
    pub answer: Result<(), Cause>,
}

// The length of a file, and the greatest that it had.
#[derive(Clone, Copy)]
pub struct Lengths {
    pub n: u64,
    pub greatest: u64,
}

// Forecasts replay of a journal to a state of n bytes: it stops with replay's refusal at replay's offset. The bound is the sum of q + 2b over the
// edits of at least one byte that replay accepts before it stops, and the greatest length the largest of n and the lengths after each of them.
// Refused as a whole, the bound is 0 and the greatest length n. The time goes by the number of records, and not by their bytes.
pub fn forecast(n: u64, journal: &[u8]) -> Forecasted
    ensures { forecast_answer result ≡ forecasted n journal.now }
{
    let mut lengths = Lengths { n, greatest: n };
    let mut walk = Walk::new(journal);
    let answer = walk.run(&mut lengths);
    Forecasted {
        bound: walk.total,
        greatest: lengths.greatest,
        offset: walk.reader.place as u64,
        answer,
    }
}

impl TakesEdits for Lengths {
    ghost taken = { lengths_taken };

    ghost length_of = { λ lengths. lengths.n };

    fn length(&self) -> u64 {
        self.n
    }

    // The edit's measuring, by the sizes of its spans: no byte of the journal is read. It adds its part of the bound.
    fn take(&mut self, _journal: &[u8], edit: Edit) -> Result<u64, file::Cause> {
        let n = self.n;
        let shape = measure_edit(edit, n)?;
        self.n = shape.n;
        self.greatest = self.greatest.max(shape.n);
        Ok(charge(n, shape))
    }
}

// What a record's edit does to the lengths of a file of n bytes.
fn measure_edit(edit: Edit, n: u64) -> Result<Shape, file::Cause>
    ensures { geometry_of n result ≡ span_geometry n edit }
{
    match edit {
        Edit::Change { p, old, new } => {
            measure(Kind::Change, p, old.size as u64, new.size as u64, n)
        }
        Edit::Append(given) => measure(Kind::Append, 0, given.size as u64, 0, n),
        Edit::Prepend(given) => measure(Kind::Prepend, 0, given.size as u64, 0, n),
        Edit::DropFront(given) => measure(Kind::DropFront, 0, given.size as u64, 0, n),
        Edit::CutTail(given) => measure(Kind::CutTail, 0, given.size as u64, 0, n),
    }
}

// What an accepted edit of a file of n bytes adds to the bound: q + 2b, b the width of the larger of the block counts before and after it; nothing
// where it touches no block, which is where it has no bytes. The requires: q + 2b has room in a word.
fn charge(n: u64, shape: Shape) -> u64
    requires { shape.q ≤ 2 ^ 60 }
    ensures { result ≡ Forecasts.charge n (geometry_of n (Ok shape)) }
{
    if shape.q == 0 {
        return 0;
    }
    let most = blocks(n).max(blocks(shape.n));
    let width = 64 - most.leading_zeros();
    shape.q + 2 * (width as u64)
}
