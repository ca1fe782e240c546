ghost use Rattle.std.specs.Prelude.{◌≡◌};
ghost use Rattle.case_run.specs.Asking.{status_of};

/// How a case ended.
#[derive(Clone, Copy)]
pub enum Ending {
    Finished,
    Refused,
    SourceFailed,
    SinkFailed,
    NoMemory,
}

/// The status of an ending.
pub fn status(ending: Ending) -> u8
    ensures { result ≡ status_of ending }
{
    match ending {
        Ending::Finished => 0,
        Ending::Refused => 5,
        Ending::SourceFailed => 6,
        Ending::SinkFailed => 7,
        Ending::NoMemory => 9,
    }
}
