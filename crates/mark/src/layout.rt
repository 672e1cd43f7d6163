// Where the words of the marks' region stand.
ghost use Rattle.std.specs.Prelude.{◌≡◌, ◌<◌};
ghost use Rattle.mark.specs.Layout.{MOST, MARKS, mark_start, standing, count_at, aliases_at};

use graph::layout::{LIMIT, NODES};

// The most marks.
pub const MOST: u64 = 16;
// Words of a mark: its node count, and an alias word for each node that there can be.
pub const SPAN: u64 = 1 + LIMIT;
// The word of the first mark.
pub const FIRST: u64 = 1;
// Words of the region.
pub const MARKS: usize = (FIRST + MOST * SPAN) as usize;

// The words of the marks: how many stand, and each of the sixteen.
pub type Marks = [u64; MARKS];

// How many marks stand.
pub(crate) fn standing(m: &Marks) -> u64
    ensures { result ≡ standing m.now }
{
    m[0]
}

// Where the words of a mark start.
pub(crate) fn start_of(mark: u64) -> usize
    requires { mark < MOST }
    ensures { result ≡ mark_start mark }
{
    (FIRST + SPAN * mark) as usize
}

// How many nodes a mark has.
pub(crate) fn nodes_of(m: &Marks, mark: u64) -> u64
    requires { mark < MOST }
    ensures { result ≡ count_at m.now mark }
{
    m[start_of(mark)]
}

// The alias words of a mark, one for each node that there can be.
pub(crate) fn aliases_of(m: &Marks, mark: u64) -> &[u64; NODES]
    requires { mark < MOST }
    ensures { result.now ≡ aliases_at m.now mark }
{
    let from = start_of(mark) + 1;
    m[from..from + NODES].as_array().unwrap()
}
