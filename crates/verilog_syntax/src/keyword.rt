// The reserved words, and the tokens that a part has in one place.
ghost use Rattle.std.specs.Prelude.{◌≡◌};
ghost use Rattle.verilog_syntax.specs.Pieces.{keyword_bytes};

use crate::mark::Mark;

/// A word that is no name.
#[derive(Clone, Copy)]
pub enum Keyword {
    Module,
    Endmodule,
    Input,
    Output,
    Wire,
    Reg,
    Assign,
    Always,
    Posedge,
    Begin,
    End,
    If,
}

impl Keyword {
    pub fn bytes(self) -> &'static [u8]
        ensures { result.now ≡ keyword_bytes self }
    {
        match self {
            Keyword::Module => b"module",
            Keyword::Endmodule => b"endmodule",
            Keyword::Input => b"input",
            Keyword::Output => b"output",
            Keyword::Wire => b"wire",
            Keyword::Reg => b"reg",
            Keyword::Assign => b"assign",
            Keyword::Always => b"always",
            Keyword::Posedge => b"posedge",
            Keyword::Begin => b"begin",
            Keyword::End => b"end",
            Keyword::If => b"if",
        }
    }
}

/// A token that is known beforehand.
#[derive(Clone, Copy)]
pub enum Piece {
    Word(Keyword),
    Sign(Mark),
    /// The name `clk`.
    Clock,
    /// The number 0.
    Zero,
}
