//! Words of code whose addresses are not known yet.

/// A word of code, or what its word is once all addresses are known. Programs, places and areas are positions from 0.
#[derive(Clone, Copy, Debug, PartialEq, Eq)]
pub enum Piece {
    /// An instruction word of the processor.
    Code(u32),
    /// A number.
    Number(u32),
    /// The address of the code of an instruction.
    Place { program: u32, place: u32 },
    /// The address of a program's code, which begins with its prelude.
    Entry { program: u32 },
    /// The address of a word of an area.
    Area { area: u32, offset: u32 },
    /// The address that lies so many words below the end of the temporary stack.
    TempEnd { minus: u32 },
    /// The lowest address of the temporary stack.
    TempStart,
    /// The lowest address of the control stack.
    CtrlStart,
    /// The address two words after its own.
    Table,
}
