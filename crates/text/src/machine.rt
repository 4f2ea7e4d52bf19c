// The order of a job's lines. A rule of the project gives the machine a stage of its own, which it matches with the head: so a stage is no
// `Option` of a head.
ghost use Rattle.std.specs.Prelude.{◌≡◌, Some, MatchOption};
ghost use Rattle.text.specs.Order.{MayFollow, last_head};

use crate::head::Head;

// What was read last.
#[derive(Clone, Copy)]
pub enum Stage {
    Start,
    Planned,
    Grounded,
    Framed,
    Corners,
    Faces,
    Lays,
    Casts,
}

impl Stage {
    // The stage after a line with this head, or none where the head may not stand there.
    pub fn follow(self, head: Head) -> Option<Stage>
        ensures { MatchOption result (MayFollow (last_head self) head → ⊥) (λ s. MayFollow (last_head self) head × (last_head s ≡ Some head)) }
    {
        match (self, head) {
            (Stage::Start, Head::Plan) => Some(Stage::Planned),
            (Stage::Planned, Head::Ground) => Some(Stage::Grounded),
            (Stage::Grounded, Head::Frame) => Some(Stage::Framed),
            (Stage::Grounded | Stage::Framed | Stage::Corners, Head::Corner) => {
                Some(Stage::Corners)
            }
            (Stage::Grounded | Stage::Framed | Stage::Corners | Stage::Faces, Head::Face) => {
                Some(Stage::Faces)
            }
            (
                Stage::Grounded | Stage::Framed | Stage::Corners | Stage::Faces | Stage::Lays,
                Head::Lay,
            ) => Some(Stage::Lays),
            (
                Stage::Grounded
                | Stage::Framed
                | Stage::Corners
                | Stage::Faces
                | Stage::Lays
                | Stage::Casts,
                Head::Cast,
            ) => Some(Stage::Casts),
            _ => None,
        }
    }
}
