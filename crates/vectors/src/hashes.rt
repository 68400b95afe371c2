// SHA-256, HMAC and PBKDF2.
use crate::rooms::{OUTPUT, Rooms};
use lines::fault::Fault;
use lines::fields::{buffer, bytes};
use lines::say::{BEFORE, Hex};

pub fn hash(rt: &impl Print, rooms: &mut Rooms, m: &[u8]) -> Result<(), Fault> {
    let m = bytes(m, &mut rooms.first)?;
    println!(rt; "sha256 {}", Hex(&sha256::hash(m)))?;
    Ok(())
}

pub fn mac(rt: &impl Print, rooms: &mut Rooms, key: &[u8], text: &[u8]) -> Result<(), Fault> {
    let key = bytes(key, &mut rooms.first)?;
    let text = bytes(text, &mut rooms.second)?;
    println!(rt; "hmac {}", Hex(&pbkdf2::hmac(key, text)))?;
    Ok(())
}

pub fn derive(
    rt: &impl Print,
    rooms: &mut Rooms,
    pass: &[u8],
    salt: &[u8],
    out: &[u8],
) -> Result<(), Fault> {
    let pass = bytes(pass, &mut rooms.first)?;
    let salt = bytes(salt, &mut rooms.second)?;
    let mut room = [BEFORE; OUTPUT];
    let out = buffer(out, &mut room)?;
    pbkdf2::pbkdf2(pass, salt, out);
    println!(rt; "pbkdf2 {}", Hex(out))?;
    Ok(())
}
