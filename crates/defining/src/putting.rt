// Rows put from the last down, each at its place: what stands behind it moves up first, once.
ghost use Rattle.std.specs.Prelude.{◌≤◌, ◌≡◌, ◌+◌, length};
ghost use Rattle.rules.specs.Refusals.{max_pairs};
ghost use Rattle.order.specs.Walks.{moved};
ghost use Rattle.store.specs.Places.{index_of, behind_of};
ghost use Rattle.defining.specs.Putting.{Opens, Puts};

// The place itself, whether it is taken or free.
fn index(place: Result<usize, usize>) -> usize
    ensures { result ≡ index_of place }
{
    match place {
        Ok(i) | Err(i) => i,
    }
}

// Where the rows behind a place begin: behind the row that stands there, or at the place.
fn behind(place: Result<usize, usize>) -> usize
    requires { behind_of place ≤ max_pairs }
    ensures { result ≡ behind_of place }
{
    match place {
        Ok(i) => i + 1,
        Err(i) => i,
    }
}

// The rows from `from` on and before `to` move up by so many places. Where nothing new comes none is copied onto itself.
fn move_up<R: Copy>(rows: &mut [R], from: usize, to: usize, by: usize)
    requires { (from ≤ to) × (to + by ≤ length rows.old) }
    ensures { rows.new ≡ moved by from to rows.old }
{
    if 0 < by {
        rows.copy_within(from..to, from + by);
    }
}

// How far rows are put, from the last down: so many stand as they were before the last that was put, and so many new ones come among them.
// Stays: two counts, and no twin of store's Stretch, which has two places.
#[derive(Clone, Copy)]
pub struct Step {
    pub left: usize,
    pub by: usize,
}

impl Step {
    // A row is put at its place among those that stand as they were; what stands behind the place moves up first, once.
    pub fn put<R: Copy>(self, rows: &mut [R], place: Result<usize, usize>, row: R) -> Step
        requires { Opens place self.left self.by rows.old }
        ensures { Puts place self.left self.by row rows.old rows.new result }
    {
        let left = index(place);
        let from = behind(place);
        move_up(rows, from, self.left, self.by);
        let at = from + self.by - 1;
        rows[at] = row;
        Step {
            left,
            by: at - left,
        }
    }
}
