// Why a line is not read.
ghost use Rattle.std.specs.Prelude.{◌≡◌};
ghost use Rattle.notation.specs.declared.unread.Unread.TheVariants.{NoMemory};

use std::alloc::AllocError;

#[derive(Clone, Copy, Debug, PartialEq, Eq)]
pub enum Unread {
    // It says nothing that is read here.
    IllFormed,
    NoMemory(AllocError),
}

impl From<AllocError> for Unread {
    ghost from_gives = { λ e u. u ≡ NoMemory e };

    fn from(error: AllocError) -> Unread {
        Unread::NoMemory(error)
    }
}
