//! How a run of the program ended.
ghost use Rattle.std.specs.Prelude.{◌≡◌};
ghost use Rattle.rooms_program.specs.Statuses.{code_of};

use image_core::{ImageFault, ReadImage};
use room_core::Refused;
use std::alloc::AllocError;

/// How a run ended. Each but `Good` is a refusal, which leaves a note.
#[derive(Clone, Copy, Debug, PartialEq, Eq)]
pub enum Status {
    /// The whole output was written.
    Good,
    /// The words name no command.
    Words,
    /// The bytes read are no image, and this is the first test that they fail.
    Image(ImageFault),
    /// A read failed.
    ReadFault,
    /// A write failed; the sink holds a prefix of the output.
    WriteFault,
    /// The text is no script, and the line with this number, counted from 1, is the first that
    /// breaks its rules.
    Script(u64),
    /// The act with this number, counted from 1, is the first that the core refuses.
    Act(u64, Refused),
    /// The text has more bytes than a text may have.
    TooLong,
    /// Memory was wanting.
    Memory,
}

impl Status {
    /// The number that the program ends with.
    pub fn code(&self) -> u8
        ensures { result ≡ code_of self.now }
    {
        match self {
            Status::Good => 0,
            Status::Words => 2,
            Status::Image(_) => 3,
            Status::ReadFault => 4,
            Status::WriteFault => 5,
            Status::Script(_) => 6,
            Status::Act(_, _) => 7,
            Status::TooLong => 8,
            Status::Memory => 9,
        }
    }
}

impl From<AllocError> for Status {
    ghost use Rattle.std.specs.Prelude.{◌≡◌};
    ghost use Rattle.rooms_program.specs.declared.status.Status.TheVariants.{Memory};

    ghost from_gives = { λ _ status. status ≡ Memory };

    fn from(_error: AllocError) -> Self {
        Status::Memory
    }
}

impl From<ReadImage> for Status {
    ghost use Rattle.std.specs.Prelude.{◌≡◌};
    ghost use Rattle.rooms_program.specs.Statuses.{of_read};

    ghost from_gives = { λ fault status. status ≡ of_read fault };

    fn from(fault: ReadImage) -> Self {
        match fault {
            ReadImage::Fault(fault) => Status::Image(fault),
            ReadImage::Memory => Status::Memory,
        }
    }
}
