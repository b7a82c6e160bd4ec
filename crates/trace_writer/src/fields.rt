//! Fields of lines, appended to a text that has room for them.
ghost use Rattle.std.specs.Prelude.{◌≡◌, ◌≤◌, ◌+◌, ◌++◌, ◌∷◌, [], length, vec_len};
ghost use Rattle.std.specs.Vec.{vec_capacity};
ghost use Rattle.trace_writer.specs.Fields.{address_text, peer_text};
ghost use Rattle.trace_writer.specs.Report.{total_line};

use crate::total::Total;
use itoa::{Buffer, Integer};

/// The greatest length of an address.
const DOTTED_ROOM: usize = 15;

/// The greatest length of a space and an address.
pub(crate) const ADDRESS_ROOM: usize = 16;

/// The greatest length of a space, an address and a port.
pub(crate) const PEER_ROOM: usize = 22;

/// The greatest length of the line of a total without its word.
pub(crate) const TOTAL_ROOM: usize = 81;

/// Appends bytes.
pub(crate) fn put(out: &mut Vec<u8>, bytes: &[u8])
    requires room { vec_len out.old + length bytes.now ≤ vec_capacity out.old }
    ensures items { out.new.items ≡ out.old.items ++ bytes.now }
    ensures len { vec_len out.new ≡ vec_len out.old + length bytes.now }
    ensures capacity { vec_capacity out.old ≤ vec_capacity out.new }
{
    match out.extend_from_slice(bytes) {
        Ok(()) => (),
        Err(_) => unreachable!(),
    }
}

/// Appends a space and a word.
pub(crate) fn put_word(out: &mut Vec<u8>, word: &[u8])
    requires room { vec_len out.old + (1 + length word.now) ≤ vec_capacity out.old }
    ensures items { out.new.items ≡ out.old.items ++ 32 ∷ word.now }
    ensures len { vec_len out.new ≡ vec_len out.old + (1 + length word.now) }
    ensures capacity { vec_capacity out.old ≤ vec_capacity out.new }
{
    put(out, b" ");
    put(out, word);
}

/// Appends a space and a number in decimal.
pub(crate) fn put_number<I: Integer>(out: &mut Vec<u8>, number: I)
    requires room { vec_len out.old + (1 + I.MAX_STR_LEN) ≤ vec_capacity out.old }
    ensures items { out.new.items ≡ out.old.items ++ 32 ∷ I.text number }
    ensures len { vec_len out.new ≤ vec_len out.old + (1 + I.MAX_STR_LEN) }
    ensures capacity { vec_capacity out.old ≤ vec_capacity out.new }
{
    put(out, b" ");
    put_digits(out, number);
}

/// Appends a space and an IPv4 address.
pub(crate) fn put_address(out: &mut Vec<u8>, address: u32)
    requires room { vec_len out.old + ADDRESS_ROOM ≤ vec_capacity out.old }
    ensures items { out.new.items ≡ out.old.items ++ 32 ∷ address_text address }
    ensures len { vec_len out.new ≤ vec_len out.old + ADDRESS_ROOM }
    ensures capacity { vec_capacity out.old ≤ vec_capacity out.new }
{
    put(out, b" ");
    put_dotted(out, address);
}

/// Appends a space, an IPv4 address and a port.
pub(crate) fn put_peer(out: &mut Vec<u8>, address: u32, port: u16)
    requires room { vec_len out.old + PEER_ROOM ≤ vec_capacity out.old }
    ensures items { out.new.items ≡ out.old.items ++ 32 ∷ peer_text address port }
    ensures len { vec_len out.new ≤ vec_len out.old + PEER_ROOM }
    ensures capacity { vec_capacity out.old ≤ vec_capacity out.new }
{
    put_address(out, address);
    put(out, b":");
    put_digits(out, port);
}

/// Appends a number in decimal, without a space.
fn put_digits<I: Integer>(out: &mut Vec<u8>, number: I)
    requires room { vec_len out.old + I.MAX_STR_LEN ≤ vec_capacity out.old }
    ensures items { out.new.items ≡ out.old.items ++ I.text number }
    ensures len { vec_len out.new ≤ vec_len out.old + I.MAX_STR_LEN }
    ensures capacity { vec_capacity out.old ≤ vec_capacity out.new }
{
    let mut buffer = Buffer::new();
    put(out, buffer.format(number).as_bytes());
}

/// Appends an IPv4 address, without a space.
fn put_dotted(out: &mut Vec<u8>, address: u32)
    requires room { vec_len out.old + DOTTED_ROOM ≤ vec_capacity out.old }
    ensures items { out.new.items ≡ out.old.items ++ address_text address }
    ensures len { vec_len out.new ≤ vec_len out.old + DOTTED_ROOM }
    ensures capacity { vec_capacity out.old ≤ vec_capacity out.new }
{
    put_digits(out, (address >> 24) as u8);
    put(out, b".");
    put_digits(out, (address >> 16 & 0xff) as u8);
    put(out, b".");
    put_digits(out, (address >> 8 & 0xff) as u8);
    put(out, b".");
    put_digits(out, (address & 0xff) as u8);
}

/// Appends the line of a total.
pub(crate) fn put_total_line(out: &mut Vec<u8>, word: &[u8], total: &Total)
    requires room { vec_len out.old + (length word.now + TOTAL_ROOM) ≤ vec_capacity out.old }
    ensures items { out.new.items ≡ out.old.items ++ total_line word.now total.now }
    ensures len { vec_len out.new ≤ vec_len out.old + (length word.now + TOTAL_ROOM) }
    ensures capacity { vec_capacity out.old ≤ vec_capacity out.new }
{
    put(out, word);
    put_number(out, total.count);
    put_number(out, total.bytes);
    put(out, b"\n");
}

/// Appends a line with one number.
pub(crate) fn put_number_line<I: Integer>(out: &mut Vec<u8>, word: &[u8], number: I)
    requires room { vec_len out.old + (length word.now + (2 + I.MAX_STR_LEN)) ≤ vec_capacity out.old }
    ensures items { out.new.items ≡ out.old.items ++ (word.now ++ 32 ∷ (I.text number ++ 10 ∷ [])) }
    ensures len { vec_len out.new ≤ vec_len out.old + (length word.now + (2 + I.MAX_STR_LEN)) }
    ensures capacity { vec_capacity out.old ≤ vec_capacity out.new }
{
    put(out, word);
    put_number(out, number);
    put(out, b"\n");
}
