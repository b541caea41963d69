// Rule 21: each part has some line without literals.
ghost use Rattle.std.specs.Prelude.{◌+◌, ◌*◌, ◌≤◌, ◌≡◌, not, length};
ghost use Rattle.answers.specs.Checks.{every};
ghost use Rattle.rules.specs.Lines.{has_literals};
ghost use Rattle.lines.specs.Frame.{lines_at};

use constraints::{block_at, line_head};

// Whether one of the n lines from `from` on has no literal, where line 0 stands at an offset. The last is looked at first, since
// that is where most refutations end.
pub fn has_empty(file: &[u8], lines: usize, from: usize, n: usize) -> bool
    requires { lines + 80 * (from + n) ≤ length file.now }
    ensures { result ≡ not (every (has_literals (lines_at file.now lines) from) n) }
{
    for i in (0..n).rev() {
        let head = line_head(file, block_at(lines, from + i));
        if head.count == 0 {
            return true;
        }
    }
    false
}
