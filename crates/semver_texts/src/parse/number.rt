ghost use Rattle.std.specs.Prelude.{◌≡◌, length};
ghost use Rattle.semver_texts.specs.Characters as Characters;
ghost use Rattle.semver_texts.specs.Reading as Reading;
ghost use Rattle.semver_texts.specs.Reading.{seen};
ghost use Rattle.semver_texts.specs.declared.parse.fault.Fault.TheVariants.{Missing};

use crate::MAX_SAFE_INTEGER;
use crate::parse::Fault;
use crate::parse::skip::split;

// `0` to `9`. `inline(always)` in this file: a number is read by one loop, which is part of the reader around it.
#[inline(always)]
pub fn is_digit(byte: u8) -> bool
    ensures { result ≡ Characters.is_digit byte }
{
    byte.is_ascii_digit()
}

// 12 and `.3` of `12.3`: all leading digits, and the rest
#[inline(always)]
#[tactic(auto, unfolding(crate::specs::Reading::prefix_of, crate::specs::Reading::rest_of, crate::specs::Reading::read_number))]
pub fn read_number(text: &[u8]) -> Result<(u64, &[u8]), Fault>
    ensures { seen result ≡ Reading.read_number text.now }
{
    let Some((first, others)) = text.split_first() else {
        return Err(missing(text));
    };
    if !is_digit(*first) {
        return Err(missing(text));
    }
    let mut value = u64::from(*first - b'0');
    let mut rest = others;
    'digits: while let Some((byte, others)) = rest.split_first()
        && is_digit(*byte)
    {
        value = value * 10 + u64::from(*byte - b'0');
        if value > MAX_SAFE_INTEGER {
            return Err(Fault::TooLarge(text.len()));
        }
        rest = others;
    }
    Ok((value, rest))
}

// The fault that a number or a dot is missing here.
#[inline(always)]
pub fn missing(text: &[u8]) -> Fault
    ensures { result ≡ Missing (length text.now) }
{
    Fault::Missing(text.len())
}

/// Returns all leading digits: `12` for `12.3`.
pub fn leading_digits(text: &[u8]) -> &[u8]
    ensures { result.now ≡ Reading.prefix_of Characters.is_digit text.now }
{
    split(text, is_digit).0
}
