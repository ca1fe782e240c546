ghost use Rattle.std.specs.Prelude.{◌≡◌};
ghost use Rattle.workload.specs.Running.{status_after};

/// How the workload finished.
#[derive(Clone, Copy)]
pub enum Finish {
    Done,
    Refused,
    SinkFailed,
    NoMemory,
}

/// The status of a finish.
pub fn status(finish: Finish) -> u8
    ensures { result ≡ status_after finish }
{
    match finish {
        Finish::Done => 0,
        Finish::Refused => 5,
        Finish::SinkFailed => 7,
        Finish::NoMemory => 9,
    }
}
