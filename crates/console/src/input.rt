// What is at hand of an input: the bytes that were read and not taken yet, at the start of a buffer.
ghost use Rattle.std.specs.Prelude.{◌≡◌, ◌-◌, ◌≤◌, min, length, take, drop, IfOk, MatchResult};
ghost use Rattle.std.specs.Io.KnownBytes.{Consumes, Keeps};
ghost use Rattle.console.specs.Input.{IsPrefixLen, nothing_yet, moved_down, holding, taken_of, HasFetched};

use crate::Told;
use std::io::{Read, Stderr};

// So many bytes, the offset of the first of them in the input, and whether more may come.
// Stays beside its buffer: `taken` answers for any hand and any buffer, and a struct of both would ask that the bytes lie in it.
#[derive(Clone, Copy, PartialEq, Eq)]
pub struct Hand {
    pub bytes: usize,
    pub offset: u64,
    pub more: bool,
}

// Nothing yet.
pub fn nothing() -> Hand
    ensures { result ≡ nothing_yet }
{
    Hand {
        bytes: 0,
        offset: 0,
        more: true,
    }
}

// So many bytes, or all that the buffer has.
// Stays a number: theorem console_input_within of crate coincide gives one answer, and no contract gives the address that a slice carries.
pub fn within(n: usize, bytes: &[u8]) -> usize
    ensures value { result ≡ min n (length bytes.now) }
    ensures prefix_len { IsPrefixLen result bytes.now }
{
    n.min(bytes.len())
}

// What is at hand after one read more of an input. It waits for input where there is none yet; a full buffer takes nothing, as at the end of
// the input. A read that fails is told by the input's name and the system's words.
pub fn fetch<R: Read>(
    h: Hand,
    input: &mut R,
    errors: Stderr,
    name: &[u8],
    bytes: &mut [u8],
) -> Result<Hand, Told>
    ensures fetched { IfOk result (HasFetched h bytes.new) }
    ensures kept { take (min h.bytes (length bytes.old)) bytes.new ≡ take (min h.bytes (length bytes.old)) bytes.old }
    ensures known { MatchResult result (λ n. Consumes (R.remaining input.old) (R.remaining input.new) (drop (min h.bytes (length bytes.old)) (take n.bytes bytes.new))) (λ _. Keeps (R.remaining input.old) (R.remaining input.new)) }
{
    let held = within(h.bytes, bytes);
    match input.read(&mut bytes[held..]) {
        Ok(got) => Ok(Hand {
            bytes: held + got,
            offset: h.offset,
            more: 0 < got,
        }),
        Err(why) => Err(Told::failure(errors, name, why)),
    }
}

// Reads until the buffer is full or the input ends; how many bytes of it were read. A read that fails is told likewise.
pub fn fill<R: Read>(
    input: &mut R,
    errors: Stderr,
    name: &[u8],
    bytes: &mut [u8],
) -> Result<usize, Told>
    ensures prefix_len { IfOk result (λ n. IsPrefixLen n bytes.new) }
    ensures known { IfOk result (λ n. Consumes (R.remaining input.old) (R.remaining input.new) (take n bytes.new)) }
{
    let mut h = nothing();
    for _ in 0..u64::MAX {
        h = fetch(h, input, errors, name, bytes)?;
        if !h.more || h.bytes == bytes.len() {
            break;
        }
    }
    Ok(h.bytes)
}

// One read into a buffer; how many bytes of it were read, none where the input has ended or the read failed.
pub fn read_some<R: Read>(input: &mut R, bytes: &mut [u8]) -> usize
    ensures prefix_len { IsPrefixLen result bytes.new }
    ensures known { Consumes (R.remaining input.old) (R.remaining input.new) (take result bytes.new) }
{
    input.read(bytes).unwrap_or(0)
}

// Reads until a buffer is full, the input ends or a read fails; how many bytes of it were read.
pub fn read_full<R: Read>(input: &mut R, bytes: &mut [u8]) -> usize
    ensures prefix_len { IsPrefixLen result bytes.new }
    ensures known { Consumes (R.remaining input.old) (R.remaining input.new) (take result bytes.new) }
{
    // Stays: each read says where the next one begins, so no range counts here.
    let mut done: usize = 0;
    while done < bytes.len() {
        match read_some(input, &mut bytes[done..]) {
            0 => break,
            n => done += n,
        }
    }
    done
}

// The bytes from an offset up to the last of so many, moved to the start of their buffer; how many they are.
fn move_down(at: usize, held: usize, bytes: &mut [u8]) -> usize
    requires { held ≤ length bytes.old }
    ensures value { result ≡ held - at }
    ensures bytes_after { bytes.new ≡ moved_down at (held - at) bytes.old }
{
    // nothing was taken, and nothing moves: a record that comes in pieces is not copied onto itself at each
    if at == 0 {
        return held;
    }
    let from = at.min(held);
    bytes.copy_within(from..held, 0);
    held - from
}

// What is at hand after so many bytes were taken: the rest, moved to the start of the buffer.
#[tactic(auto, unfolding(crate::specs::Input::taken_of))]
pub fn taken(h: Hand, at: usize, bytes: &mut [u8]) -> Hand
    ensures { holding result bytes.new ≡ taken_of h at bytes.old }
{
    let held = within(h.bytes, bytes);
    Hand {
        bytes: move_down(at, held, bytes),
        offset: crate::count_on(h.offset, at),
        ..h
    }
}
