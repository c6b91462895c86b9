// Numbers (C99 6.4.4.1).
ghost use Rattle.std.specs.Prelude.{◌≡◌, ◌<◌, ◌≤◌, length};
ghost use Rattle.std.specs.List.{prefix_len, list_all};
ghost use Rattle.c_lexer.specs.Bytes.{is_digit, is_number_byte};
ghost use Rattle.c_lexer.specs.Opening.{Fits};
ghost use Rattle.c_lexer.specs.Elements.{is_decimal, decimal_value, int_of, number_by, number_element};

use crate::Kind;
use crate::bytes::{is_digit, number_len};
use crate::element::{Element, Fault};

const GREATEST: u64 = 2_147_483_647;

/// The row of a number of another form than a decimal one.
const NUMBER_FORM: u16 = 58;

fn all_digits(run: &[u8]) -> bool
    ensures { result ≡ list_all is_digit run.now }
{
    run.iter().all(|b| is_digit(*b))
}

fn is_decimal(run: &[u8]) -> bool
    ensures { result ≡ is_decimal run.now }
{
    all_digits(run) && (run.len() == 1 || !run.starts_with(b"0"))
}

/// The value of decimal digits, and None where it doesn't fit.
fn int_of(digits: &[u8]) -> Option<i32>
    ensures { result ≡ int_of (decimal_value digits.now) }
{
    let mut value = 0u64;
    for digit in digits {
        value = value * 10 + u64::from(digit.saturating_sub(b'0'));
        if value > GREATEST {
            return None;
        }
    }
    Some(value as i32)
}

fn number_by(run: &[u8]) -> Element
    ensures { result ≡ number_by run.now (length run.now) }
{
    let n = run.len();
    if !is_decimal(run) {
        return Element::Lexeme(Kind::Refused(NUMBER_FORM), n);
    }
    match int_of(run) {
        None => Element::Bad(Fault::WideNumber, 0),
        Some(value) => Element::Lexeme(Kind::Number(value), n),
    }
}

/// A number of any form.
pub fn number(rest: &[u8]) -> Element
    requires { 0 < prefix_len is_number_byte rest.now }
    ensures element { result ≡ number_element rest.now }
    ensures fits { Fits result rest.now }
{
    number_by(&rest[..number_len(rest)])
}
