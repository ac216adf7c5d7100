// The widths of blanks.
ghost use Rattle.std.specs.Prelude.{◌≡◌, ◌<◌, ◌≤◌, ◌+◌, ◌*◌, ◌^◌, length};
ghost use Rattle.py_layout.specs.Blanks.{widths_of, widths_behind};

use crate::item::Widths;

fn widths_behind(widths: Widths, c: char) -> Widths
    requires wide { widths.wide + 8 < 2 ^ 64 }
    requires narrow { widths.narrow + 1 < 2 ^ 64 }
    ensures value { result ≡ widths_behind widths c }
    ensures wide { result.wide ≤ widths.wide + 8 }
    ensures narrow { result.narrow ≤ widths.narrow + 1 }
{
    match c {
        '\t' => Widths {
            wide: (widths.wide / 8 + 1) * 8,
            narrow: widths.narrow + 1,
        },
        '\x0c' => Widths { wide: 0, narrow: 0 },
        _ => Widths {
            wide: widths.wide + 1,
            narrow: widths.narrow + 1,
        },
    }
}

/// The widths of spaces, tabs and form feeds. Another character counts as a space.
pub fn widths_of(blanks: &[char]) -> Widths
    requires { length blanks.now < 2 ^ 32 }
    ensures { result ≡ widths_of blanks.now }
{
    let mut widths = Widths { wide: 0, narrow: 0 };
    for c in blanks {
        widths = widths_behind(widths, *c);
    }
    widths
}
