//! The laws. The functions do nothing: their clauses hold of all texts, images, values and boards.

ghost use Rattle.board_images.specs.OnBoard.{SpelledOnBoard, BuiltRunsOnBoard};

/// On any values that fit main's formals, and any board that stands for the machine which is loaded with the image and them: an image
/// that implements a source does on the board what the source means, in the cycles of the counted instructions; one that keeps to a
/// source at every moment does so on the board; where the source never ends, the board never comes to the end; and an image that
/// implements a source which means what an infix program does carries the program's runs to the board's memory.
pub fn spelled_on_board()
    ensures { SpelledOnBoard }
{}

/// The image that is built of a text does on a board what the source means, at every moment and at the end, and never ends where the
/// source doesn't.
pub fn built_on_board()
    ensures { BuiltRunsOnBoard }
{
    stack_build::builds_implement();
}
