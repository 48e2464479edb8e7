//! Writes words with values between them. A match with an arm for each of many texts calls these
//! in place of `write!`, since the proof of such a function is then a third smaller.
ghost use Rattle.std.specs.Prelude.{Some};
ghost use Rattle.std.specs.Fmt.{DisplaysOnOk, ◌++?◌};

use std::fmt;

/// Writes the words and then the value.
pub fn write_before<A: fmt::Display, W: fmt::Write>(
    f: &mut fmt::Formatter<W>,
    words: &str,
    value: &A,
) -> fmt::Result
    ensures { DisplaysOnOk W.write_str_gives f.old result
        (Some words.now ++? A.output value.now) f.new }
{
    write!(f, "{words}{value}")
}

/// Writes the value between the two words.
pub fn write_around<A: fmt::Display, W: fmt::Write>(
    f: &mut fmt::Formatter<W>,
    words: &str,
    value: &A,
    last: &str,
) -> fmt::Result
    ensures { DisplaysOnOk W.write_str_gives f.old result
        (Some words.now ++? A.output value.now ++? Some last.now) f.new }
{
    write!(f, "{words}{value}{last}")
}

/// Writes words before each of two values.
pub fn write_two<A: fmt::Display, B: fmt::Display, W: fmt::Write>(
    f: &mut fmt::Formatter<W>,
    words: &str,
    first: &A,
    between: &str,
    second: &B,
) -> fmt::Result
    ensures { DisplaysOnOk W.write_str_gives f.old result
        (Some words.now ++? A.output first.now ++? Some between.now ++? B.output second.now) f.new }
{
    write!(f, "{words}{first}{between}{second}")
}

/// Writes words before each of two values, and behind them.
pub fn write_around_two<A: fmt::Display, B: fmt::Display, W: fmt::Write>(
    f: &mut fmt::Formatter<W>,
    words: &str,
    first: &A,
    between: &str,
    second: &B,
    last: &str,
) -> fmt::Result
    ensures { DisplaysOnOk W.write_str_gives f.old result (Some words.now ++? A.output first.now
        ++? Some between.now ++? B.output second.now ++? Some last.now) f.new }
{
    write!(f, "{words}{first}{between}{second}{last}")
}

/// Writes words before each of three values.
pub fn write_three<A: fmt::Display, B: fmt::Display, C: fmt::Display, W: fmt::Write>(
    f: &mut fmt::Formatter<W>,
    words: &str,
    first: &A,
    between: &str,
    second: &B,
    before: &str,
    third: &C,
) -> fmt::Result
    ensures { DisplaysOnOk W.write_str_gives f.old result
        (Some words.now ++? A.output first.now ++? Some between.now ++? B.output second.now
        ++? Some before.now ++? C.output third.now) f.new }
{
    write!(f, "{words}{first}{between}{second}{before}{third}")
}

/// Writes the name of a variant, and what it holds in parentheses.
pub fn write_variant<A: fmt::Debug, W: fmt::Write>(
    f: &mut fmt::Formatter<W>,
    name: &str,
    value: &A,
) -> fmt::Result {
    write!(f, "{name}({value:?})")
}
