// Numbers in a line: 1 to 19 decimal digits each.
ghost use Rattle.console.specs.Parts.{ReadsNumber, ReadsTwo};
ghost use Rattle.std.specs.Prelude.{◌<◌, ◌^◌};

/// So many digits always fit 64 bits.
pub(crate) const MOST_DIGITS: usize = 19;

/// The number that the bytes write, if they write one.
pub(crate) fn number(bytes: &[u8]) -> Option<u64>
    ensures { ReadsNumber bytes.now result }
{
    if bytes.is_empty() || bytes.len() > MOST_DIGITS {
        return None;
    }
    // At most 18 digits stand before each, so there is room for it.
    bytes.iter().try_fold(
        0u64,
        |value, byte|
            requires { value < 10 ^ 18 }
        {
            if byte.is_ascii_digit() {
                Some(value * 10 + u64::from(*byte - b'0'))
            } else {
                None
            }
        },
    )
}

/// The two numbers that the bytes write with one space between them.
pub(crate) fn two_numbers(bytes: &[u8]) -> Option<(u64, u64)>
    ensures { ReadsTwo bytes.now result }
{
    let space = bytes.iter().position(|byte| *byte == b' ')?;
    Some((number(&bytes[..space])?, number(&bytes[space + 1..])?))
}
