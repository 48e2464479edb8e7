//! Reads numbers of two and of four digits from the front of a text, and adds them to its end.
//! Readers work on bytes, since every character of a time is ASCII.
ghost use Rattle.std.specs.Prelude.{◌≡◌, ◌+◌, ◌*◌, ◌<◌, ◌++◌, ◌∷◌, [], IfSome, IfErr, OnOk};
ghost use Rattle.std.specs.Option.{option_map};
ghost use Rattle.std.specs.String.{string_bytes};
ghost use Rattle.asn_times.specs.declared.faults.TimeFault.TheVariants.{OutOfMemory};
ghost use Rattle.asn_times.specs.Digits.{two_digits, four_digits};
ghost use Rattle.asn_times.specs.Reading.{two, four};

use crate::faults::TimeFault;

/// Reads two digits, and returns their number and what follows them, or `None` where two digits
/// are not in front.
pub(crate) fn read_two(bytes: &[u8]) -> Option<(u8, &[u8])>
    ensures is { option_map (λ p. (p.0, p.1.now)) result ≡ two bytes.now }
    ensures small { IfSome result (λ p. p.0 < 100) }
{
    match bytes {
        // No overflow: the number is at most 99.
        [tens @ b'0'..=b'9', ones @ b'0'..=b'9', rest @ ..] => Some((
            (*tens - b'0') * 10 + (*ones - b'0'),
            rest,
        )),
        _ => None,
    }
}

/// Reads four digits, and returns their number and what follows them, or `None` where four digits
/// are not in front.
pub(crate) fn read_four(bytes: &[u8]) -> Option<(u16, &[u8])>
    ensures is { option_map (λ p. (p.0, p.1.now)) result ≡ four bytes.now }
    ensures small { IfSome result (λ p. p.0 < 10_000) }
{
    // Four digits are two numbers of two digits, and at most 9,999.
    let (hundreds, rest) = read_two(bytes)?;
    let (ones, rest) = read_two(rest)?;
    Some((hundreds as u16 * 100 + ones as u16, rest))
}

/// Adds an ASCII character to the text. It turns the allocator's error into this crate's.
///
/// # Errors
///
/// `OutOfMemory` alone.
pub(crate) fn push_char(text: &mut String, character: char) -> Result<(), TimeFault>
    requires { character < 128 }
    ensures written { OnOk result
        (string_bytes text.new ≡ string_bytes text.old ++ character ∷ []) }
    ensures refused { IfErr result (λ e. e ≡ OutOfMemory) }
{
    match text.push(character) {
        Ok(()) => Ok(()),
        Err(_) => Err(TimeFault::OutOfMemory),
    }
}

/// Adds the number, which is below 100, to the text in two digits.
///
/// # Errors
///
/// `OutOfMemory` alone, and then a part of the digits may be there.
pub(crate) fn push_two(text: &mut String, number: u8) -> Result<(), TimeFault>
    requires { number < 100 }
    ensures written { OnOk result
        (string_bytes text.new ≡ string_bytes text.old ++ two_digits number) }
    ensures refused { IfErr result (λ e. e ≡ OutOfMemory) }
{
    push_char(text, (b'0' + number / 10) as char)?;
    push_char(text, (b'0' + number % 10) as char)
}

/// Adds the number, which is below 10,000, to the text in four digits.
///
/// # Errors
///
/// `OutOfMemory` alone, and then a part of the digits may be there.
pub(crate) fn push_four(text: &mut String, number: u16) -> Result<(), TimeFault>
    requires { number < 10_000 }
    ensures written { OnOk result
        (string_bytes text.new ≡ string_bytes text.old ++ four_digits number) }
    ensures refused { IfErr result (λ e. e ≡ OutOfMemory) }
{
    push_two(text, (number / 100) as u8)?;
    push_two(text, (number % 100) as u8)
}
