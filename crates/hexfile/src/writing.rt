// An image as text.
use crate::telling;
use console::{Outputs, Told, input};
use intelhex::{Fault, IMAGE_SIZE, TEXT_SIZE};
use std::io::{Read, Stderr};

// The most that is read: one byte more than an image has, so that an image is told from what only begins with one.
const BYTES_MOST: usize = IMAGE_SIZE + 1;

// Tells why so many bytes are not written as text.
fn tell_refused(errors: Stderr, fault: Fault, bytes: usize) {
    if bytes < BYTES_MOST {
        telling::tell(errors, format_args!("hexfile: {fault}, this has {bytes}\n"));
    } else {
        telling::tell(errors, format_args!("hexfile: {fault}, this has more\n"));
    }
}

// Reads an image, and writes it as text, or why not.
pub fn write<R: Read>(input: &mut R, name: &[u8], to: Outputs) -> Result<(), Told> {
    let mut bytes = [0u8; BYTES_MOST];
    let n = input::fill(input, to.errors, name, &mut bytes)?;
    let mut text = [0u8; TEXT_SIZE];
    match intelhex::write_text(&bytes[..n], &mut text) {
        Ok(()) => to.write(&text),
        Err(fault) => {
            console::say_refused(to, intelhex::number_of(fault));
            tell_refused(to.errors, fault, n);
            Ok(())
        }
    }
}
