use crate::{Lane, Line};

/// What runs the lanes of a round.
pub trait Crew<L: Line> {
    ghost use Rattle.std.specs.Prelude.{◌≡◌, [], All};
    ghost use Rattle.line_base.specs.Lanes.{EachRan};

    /// What has to hold of the crew.
    ghost ready: { Self → Type 0 };

    /// Runs each lane. Afterwards each is as its own `run` leaves it.
    fn round(&self, lanes: &mut [Lane<L>])
        requires ready { ready self.now }
        requires fresh { All (λ l. l.answers ≡ []) lanes.old }
        ensures { EachRan L.line lanes.old lanes.new };
}

/// A crew that runs the lanes one after the other.
#[derive(Clone, Copy)]
pub struct Solo;

impl<L: Line> Crew<L> for Solo {
    ghost ready = { λ _. Unit {0} };

    fn round(&self, lanes: &mut [Lane<L>]) {
        'running: for lane in lanes.iter_mut() {
            lane.run();
        }
    }
}
