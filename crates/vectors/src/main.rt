// Prints the checksum of each test vector, a line each: the vector's name, and the checksum as eight hexadecimal digits. The program
// host/vectors computes the same lines by itself, from the document's words.
#![tactic(auto)]

ghost use Rattle.std.specs.Prelude.{◌≤◌, length};

use std::io;

// Ends a line with the checksum of the bytes.
fn show(rt: &impl Print, bytes: &[u8]) -> io::Result<()>
    requires { length bytes.now ≤ 16777216 }
{
    let sums = checksum::fletcher32(bytes);
    println!(rt; " 0x{sums:08x}")
}

fn line(rt: &impl Print, name: &str, bytes: &[u8]) -> io::Result<()>
    requires { length bytes.now ≤ 16777216 }
{
    print!(rt; "{name}")?;
    show(rt, bytes)
}

// The bytes start, start + step, start + 2 * step and so on, modulo 256.
fn fill(bytes: &mut [u8], start: u8, step: u8) {
    let mut value = start;
    for byte in bytes.iter_mut() {
        *byte = value;
        value = value.wrapping_add(step);
    }
}

// Ends a line with the checksum of n such bytes.
fn show_filled(rt: &impl Print, start: u8, step: u8, n: usize) -> io::Result<()>
    requires { n ≤ 65536 }
{
    let mut bytes = [0u8; 65536];
    fill(&mut bytes, start, step);
    show(rt, &bytes[0..n])
}

// Vectors that the document names.
fn of_the_document(rt: &impl Print) -> io::Result<()> {
    line(rt, "no bytes", b"")?;
    line(rt, "document 01", &[1])?;
    line(rt, "document 00 01", &[0, 1])?;
    line(rt, "document FF FF", &[255, 255])?;
    line(rt, "document FF FF 00 01", &[255, 255, 0, 1])
}

// The vectors of HDF5's own test of its checksum.
fn of_hdf5(rt: &impl Print) -> io::Result<()> {
    line(rt, "HDF5 17", &[23])?;
    line(rt, "HDF5 17 BB", &[23, 187])?;
    line(rt, "HDF5 17 BB 62", &[23, 187, 98])?;
    line(rt, "HDF5 17 BB 62 D9", &[23, 187, 98, 217])?;
    print!(rt; "HDF5 3093 bytes 3 * i")?;
    show_filled(rt, 0, 3, 3093)
}

fn of_text(rt: &impl Print) -> io::Result<()> {
    line(rt, "text abcde", b"abcde")?;
    line(rt, "text abcdef", b"abcdef")?;
    line(rt, "text abcdefgh", b"abcdefgh")
}

fn of_length(rt: &impl Print, n: usize) -> io::Result<()>
    requires { n ≤ 65536 }
{
    print!(rt; "pattern {n}")?;
    show_filled(rt, 11, 37, n)
}

// Every length from 0 to 64, so that each way through the lanes, the last words and an odd last byte is taken.
fn of_each_length(rt: &impl Print) -> io::Result<()> {
    for n in 0..=64 {
        of_length(rt, n)?;
    }
    Ok(())
}

fn of_one_byte(rt: &impl Print) -> io::Result<()> {
    print!(rt; "4096 bytes FF")?;
    show_filled(rt, 255, 0, 4096)?;
    print!(rt; "4096 bytes 00")?;
    show_filled(rt, 0, 0, 4096)?;
    print!(rt; "65536 bytes FF")?;
    show_filled(rt, 255, 0, 65536)?;
    print!(rt; "65536 bytes 00")?;
    show_filled(rt, 0, 0, 65536)
}

fn main(rt: HostRuntime) -> io::Result<()> {
    of_the_document(&rt)?;
    of_hdf5(&rt)?;
    of_text(&rt)?;
    of_each_length(&rt)?;
    of_one_byte(&rt)
}
