ghost use Rattle.std.specs.Prelude.{◌≡◌, ◌+◌, ◌<◌, ◌^◌, length, count_by, ◌==◌};
ghost use Rattle.lmn_lexer.specs.Cutting.{column_behind};

use lmn_base::Pos;

/// The first place of a text.
pub(crate) const START: Pos = Pos { line: 1, column: 1 };

/// The place behind bytes that begin at a place.
pub(crate) fn behind(pos: Pos, bytes: &[u8]) -> Pos
    requires line { pos.line + length bytes.now < 2 ^ 64 }
    requires column { pos.column + length bytes.now < 2 ^ 64 }
    ensures line { result.line ≡ pos.line + count_by (λ b. b == 10) bytes.now }
    ensures column { result.column ≡ column_behind pos.column bytes.now }
{
    let Pos {
        mut line,
        mut column,
    } = pos;
    for byte in bytes {
        if *byte == b'\n' {
            line += 1;
            column = 1;
        } else {
            column += 1;
        }
    }
    Pos { line, column }
}
