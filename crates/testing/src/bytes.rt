//! Bytes as text.
use std::alloc::{AllocError, Global};

/// Writes bytes at a place past the end, with zeros up to it.
fn put_at(image: &mut Vec<u8>, place: usize, bytes: &[u8]) -> Result<(), AllocError> {
    image.resize(place, 0)?;
    image.extend_from_slice(bytes)
}

/// The headers of an EFI application for x86-64 with one section of 512 bytes, up to their last
/// byte that isn't zero.
fn put_headers(image: &mut Vec<u8>) -> Result<(), AllocError> {
    put_at(image, 0, b"MZ")?;
    put_at(image, 60, b"\x40")?;
    put_at(image, 64, b"PE")?;
    put_at(image, 68, b"\x64\x86\x01")?;
    put_at(image, 84, b"\xf0")?;
    put_at(image, 88, b"\x0b\x02")?;
    put_at(image, 149, b"\x02")?;
    put_at(image, 156, b"\x0a")?;
    put_at(image, 196, b"\x10")?;
    put_at(image, 328, b".text")?;
    put_at(image, 345, b"\x02")?;
    put_at(image, 349, b"\x02")
}

/// Writes an image of 1,024 bytes; its section takes 512 of them.
fn put_image(bytes: &mut Vec<u8>, alloc: Global) -> Result<(), AllocError> {
    let mut image = Vec::new(alloc);
    put_headers(&mut image)?;
    image.resize(1024, 0)?;
    bytes.extend_from_slice(&image)
}

/// The bytes of a line of a table: `|` means CR LF, `~` only LF, `^` the certificate
/// 30053003020101, `@` an image of 1,024 bytes.
pub fn bytes_of(alloc: Global, line: &str) -> Result<Vec<u8>, AllocError> {
    let mut bytes = Vec::new(alloc);
    for byte in line.as_bytes() {
        match *byte {
            b'|' => bytes.extend_from_slice(b"\r\n")?,
            b'~' => bytes.push(b'\n')?,
            b'^' => bytes.extend_from_slice(b"\x30\x05\x30\x03\x02\x01\x01")?,
            b'@' => put_image(&mut bytes, alloc)?,
            other => bytes.push(other)?,
        }
    }
    Ok(bytes)
}
