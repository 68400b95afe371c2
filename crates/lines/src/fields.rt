// What the words of a line say. A word that says nothing makes the line malformed.
ghost use Rattle.std.specs.Prelude.{◌≤◌, ◌<◌, length, IfSome, IfOk};

use crate::fault::Fault;

// What a digit stands for, in decimal or lower hexadecimal.
fn digit(b: u8) -> Option<u8>
    ensures { IfSome result (λ d. d < 16) }
{
    match b {
        b'0'..=b'9' => Some(b - b'0'),
        b'a'..=b'f' => Some(b - b'a' + 10),
        _ => None,
    }
}

fn decimal_digit(b: u8) -> Option<u64> {
    digit(b).filter(|d| *d < 10).map(u64::from)
}

// The number that decimal digits say, if it is below 2^64.
fn decimal(w: &[u8]) -> Option<u64> {
    w.iter().try_fold(0u64, |n, b| {
        n.checked_mul(10)?.checked_add(decimal_digit(*b)?)
    })
}

// The NUMBER that one to twenty decimal digits say.
pub fn number(w: &[u8]) -> Result<u64, Fault>
    ensures { IfOk result (λ _. (1 ≤ length w.now) × (length w.now ≤ 20)) }
{
    if !(1..=20).contains(&w.len()) {
        return Err(Fault::Malformed);
    }
    decimal(w).ok_or(Fault::Malformed)
}

// The byte that two hexadecimal digits say.
fn pair(digits: &[u8; 2]) -> Option<u8> {
    let [high, low] = *digits;
    Some(16 * digit(high)? + digit(low)?)
}

// The hexadecimal digits by twos, if they say at least one byte.
fn pairs(digits: &[u8]) -> Result<&[[u8; 2]], Fault>
    ensures { IfOk result (λ p. 1 ≤ length p.now) }
{
    let (pairs, odd) = digits.as_chunks::<2>();
    if pairs.is_empty() || !odd.is_empty() || pairs.iter().any(|p| pair(p).is_none()) {
        return Err(Fault::Malformed);
    }
    Ok(pairs)
}

// What stands before a star, and how often it is to stand: once, if there is no star.
fn starred(w: &[u8]) -> Result<(&[u8], u64), Fault> {
    match w.iter().position(|b| *b == b'*') {
        Some(star) => Ok((&w[..star], number(&w[star + 1..])?)),
        None => Ok((w, 1)),
    }
}

// The front of the room that so many bytes fill, if they fit.
fn front(room: &mut [u8], n: u64) -> Result<&mut [u8], Fault>
    ensures { IfOk result (λ s. length s.now ≤ length room.old) }
{
    if n > room.len() as u64 {
        return Err(Fault::Malformed);
    }
    Ok(&mut room[..n as usize])
}

// The buffer of the LENGTH that a word says, at the front of the room.
pub fn buffer<'a>(w: &[u8], room: &'a mut [u8]) -> Result<&'a mut [u8], Fault>
    ensures { IfOk result (λ s. length s.now ≤ length room.old) }
{
    front(room, number(w)?)
}

// The BYTES that a word says, at the front of the room.
pub fn bytes<'a>(w: &[u8], room: &'a mut [u8]) -> Result<&'a [u8], Fault>
    ensures { IfOk result (λ s. length s.now ≤ length room.old) }
{
    if w == b"-".as_slice() {
        return Ok(&[]);
    }
    let (digits, times) = starred(w)?;
    let pairs = pairs(digits)?;
    let n = times
        .checked_mul(pairs.len() as u64)
        .ok_or(Fault::Malformed)?;
    let said = front(room, n)?;
    for once in said.chunks_exact_mut(pairs.len()) {
        // No pair is left out here: pairs has refused each that says no byte.
        for (to, b) in once.iter_mut().zip(pairs.iter().filter_map(pair)) {
            *to = b;
        }
    }
    Ok(said)
}
