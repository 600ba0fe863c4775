// The two bounds of a range of ranks, and the columns that hold them.
ghost use Rattle.std.specs.Prelude.{◌≡◌};
ghost use Rattle.retracing.specs.Notes.{column_of};

use layout::Sweeps;

// Which bound of a range is noted: its least rank, or one more than its greatest.
#[derive(Clone, Copy)]
pub enum Bound {
    Least,
    Above,
}

impl Bound {
    // The column of the first path; the second path's is the next.
    pub fn column(self) -> usize
        ensures { result ≡ column_of self }
    {
        match self {
            Bound::Least => Sweeps::LEAST,
            Bound::Above => Sweeps::ABOVE,
        }
    }
}
