// The branches that are still to be walked.
ghost use Rattle.std.specs.Prelude.{◌≡◌, ◌<◌, ◌++◌, length};
ghost use Rattle.discrimination.specs.Frames.{frames, laid};

use crate::pending::Pending;
use row::Row;

// A branch, with the cells that the rows below it are to be matched with.
#[derive(Clone, Copy)]
pub struct Frame {
    pub place: u16,
    pub pending: Pending,
}

// Each frame is deeper in the tree than those before it, so that there are at most 33.
pub type Agenda = Row<Frame, 33>;

// A frame at the end, if there is a branch.
pub fn lay(agenda: &mut Agenda, place: Option<u16>, pending: Pending)
    requires { length (frames agenda.old) < 33 }
    ensures { frames agenda.new ≡ laid place pending ++ frames agenda.old }
{
    if let Some(place) = place {
        let _ = agenda.push(Frame { place, pending });
    }
}
