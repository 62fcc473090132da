// Why a reading or a replay ended before its input did.
use fault::Fault;
use std::alloc::AllocError;
use std::io;

#[derive(Drop)]
pub(crate) enum Stop {
    // The library refused.
    Refused(Fault),
    // The symbols of the input could not be read.
    Unreadable(anyhow::Error),
    // Any other error.
    Other(anyhow::Error),
}

impl From<Fault> for Stop {
    fn from(fault: Fault) -> Stop {
        Stop::Refused(fault)
    }
}

impl From<anyhow::Error> for Stop {
    fn from(error: anyhow::Error) -> Stop {
        Stop::Other(error)
    }
}

impl From<io::Error> for Stop {
    fn from(error: io::Error) -> Stop {
        Stop::Other(error.into())
    }
}

impl From<AllocError> for Stop {
    fn from(error: AllocError) -> Stop {
        Stop::Other(error.into())
    }
}
