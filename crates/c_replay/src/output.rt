// What `printf` writes (C99 7.19.6.1).
ghost use Rattle.std.specs.Prelude.{◌≡◌, ℕ, ◌≤◌, List, ◌∷◌, length, drop, IfOk, IfSome, IfNone};
ghost use Rattle.std.specs.Fmt.{signed_decimal};
ghost use Rattle.c_meaning.specs.Effects.{converted, ints_of, low_byte as low_byte_of, printed};
ghost use Rattle.c_replay.specs.Lists.{behind};

use crate::numbers::number_of;
use c_meaning::{Stop, Value};
use mf_list::{Memory, Seq};
use std::alloc::Global;

pub fn low_byte(number: i32) -> u8
    ensures { result ≡ low_byte_of number }
{
    number.rem_euclid(256) as u8
}

/// The arguments as numbers; the types exclude others.
pub fn numbers_of(alloc: Global, values: &[Value]) -> Result<Result<Seq<i32>, Stop>, Memory>
    ensures { IfOk result (λ numbers. numbers ≡ ints_of values.now) }
{
    let mut numbers = Seq::new(alloc);
    for value in values {
        match number_of(*value) {
            Ok(number) => numbers.push(number)?,
            Err(stop) => return Ok(Err(stop)),
        }
    }
    Ok(Ok(numbers))
}

fn decimal(alloc: Global, number: i32) -> Result<Seq<u8>, Memory>
    ensures { IfOk result (λ digits. digits ≡ signed_decimal number) }
{
    let digits = format!(in alloc; "{number}")?;
    Seq::from_slice(alloc, digits.as_bytes())
}

/// Writes what a conversion by that character gives, and says how many numbers are used then; none
/// where the types exclude the conversion.
fn convert(
    alloc: Global,
    bytes: &mut Seq<u8>,
    byte: u8,
    numbers: &[i32],
    used: usize,
) -> Result<Option<usize>, Memory>
    ensures given { (text : List ℕ) → IfOk result (λ now. IfSome now (λ n. behind bytes.new (printed text (drop n numbers.now)) ≡ behind bytes.old (converted (byte ∷ text) (drop used numbers.now)))) }
    ensures few { used ≤ length numbers.now → IfOk result (λ now. IfSome now (λ n. n ≤ length numbers.now)) }
    ensures excluded { (text : List ℕ) → IfOk result (λ now. IfNone now (converted (byte ∷ text) (drop used numbers.now) ≡ Err Stop.Excluded)) }
{
    if byte == b'%' {
        bytes.push(b'%')?;
        return Ok(Some(used));
    }
    if byte != b'd' || used >= numbers.len() {
        return Ok(None);
    }
    bytes.append(decimal(alloc, numbers[used])?)?;
    Ok(Some(used + 1))
}

/// The text with its conversions done; the types exclude other conversions than `%d` and `%%`, and
/// another number of arguments.
pub fn print(alloc: Global, text: &[u8], numbers: &[i32]) -> Result<Result<Seq<u8>, Stop>, Memory>
    ensures { IfOk result (λ bytes. bytes ≡ printed text.now numbers.now) }
{
    let mut bytes = Seq::new(alloc);
    let mut percent = false;
    let mut used = 0;
    for byte in text {
        if percent {
            match convert(alloc, &mut bytes, *byte, numbers, used)? {
                Some(now) => used = now,
                None => return Ok(Err(Stop::Excluded)),
            }
            percent = false;
        } else if *byte == b'%' {
            percent = true;
        } else {
            bytes.push(*byte)?;
        }
    }
    if percent || used < numbers.len() {
        return Ok(Err(Stop::Excluded));
    }
    Ok(Ok(bytes))
}
