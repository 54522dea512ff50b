//! The report's text: bytes, numbers and lines, put into a lent buffer from a place on.
#![tactic(auto)]

ghost use Rattle.std.specs.Prelude.{◌≡◌, ◌+◌, ◌<◌, ◌^◌, [], ◌∷◌, length};
ghost use Rattle.text.specs.Text.{hex_digit, decimal, condition_row, first_letter, byte_row, row_line, event_line, numbered};
ghost use Rattle.text.specs.Page.{penned};
ghost use Rattle.text.specs.Pen.{page_of, HasRoom};

use address::Hit;
use reader::Heard;

/// What an event's line says between its two numbers.
#[derive(Clone, Copy)]
pub struct Row {
    pub event: u8,
    pub high: u8,
    pub low: u8,
    pub ack: u8,
}

/// A lent buffer and the place where the next byte goes. Past the end nothing is kept, but the place goes on: it has to stay
/// below 2 ^ 64.
// Stays: what may not change (`lines::write_report` cannot fail; `write!` tells what was written only where it is `Ok`).
#[derive(Drop)]
pub struct Pen<'a> {
    pub output: &'a mut [u8],
    pub at: usize,
}

impl Pen<'_> {
    // One byte.
    fn put(&mut self, byte: u8)
        requires { HasRoom (byte ∷ []) self.old }
        ensures buffer { self.new.output.ghost_name ≡ self.old.output.ghost_name }
        ensures text { page_of self.new ≡ penned (byte ∷ []) (page_of self.old) }
    {
        if self.at < self.output.len() {
            self.output[self.at] = byte;
        }
        self.at += 1;
    }

    /// A text.
    pub fn put_all(&mut self, text: &[u8])
        requires { HasRoom text.now self.old }
        ensures buffer { self.new.output.ghost_name ≡ self.old.output.ghost_name }
        ensures text { page_of self.new ≡ penned text.now (page_of self.old) }
    {
        for &byte in text {
            self.put(byte);
        }
    }

    // A number in decimal.
    fn put_decimal(&mut self, n: usize)
        requires { HasRoom (decimal n) self.old }
        ensures buffer { self.new.output.ghost_name ≡ self.old.output.ghost_name }
        ensures text { page_of self.new ≡ penned (decimal n) (page_of self.old) }
    {
        if 10 <= n {
            self.put_decimal(n / 10);
        }
        self.put(b'0' + (n % 10) as u8);
    }

    /// A line that ends in a number.
    pub fn put_numbered(&mut self, words: &[u8], n: usize)
        requires { HasRoom (numbered words.now n) self.old }
        ensures buffer { self.new.output.ghost_name ≡ self.old.output.ghost_name }
        ensures text { page_of self.new ≡ penned (numbered words.now n) (page_of self.old) }
    {
        self.put_all(words);
        self.put_decimal(n);
        self.put(b'\n');
    }

    // The line of an event.
    fn put_row(&mut self, item: usize, row: Row, pointer: u16)
        requires { HasRoom (row_line item row pointer) self.old }
        ensures buffer { self.new.output.ghost_name ≡ self.old.output.ghost_name }
        ensures text { page_of self.new ≡ penned (row_line item row pointer) (page_of self.old) }
    {
        self.put_decimal(item);
        let middle = [
            b' ', row.event, b' ', row.high, row.low, b' ', row.ack, b' ',
        ];
        self.put_numbered(&middle, pointer as usize);
    }

    /// A line where something was heard.
    pub fn put_event(&mut self, item: usize, heard: Heard, hit: Hit, pointer: u16)
        requires { HasRoom (event_line item heard hit pointer) self.old }
        ensures buffer { self.new.output.ghost_name ≡ self.old.output.ghost_name }
        ensures text { page_of self.new ≡ penned (event_line item heard hit pointer) (page_of self.old) }
    {
        match heard {
            Heard::Silence => {}
            Heard::Started => self.put_row(item, condition_row(b'S'), pointer),
            Heard::Stopped => self.put_row(item, condition_row(b'P'), pointer),
            Heard::Byte(first, byte, level) => {
                self.put_row(item, byte_row(first, hit, byte, level), pointer)
            }
        }
    }
}

// In capitals.
fn hex_digit(n: u8) -> u8
    requires { n < 16 }
    ensures { result ≡ hex_digit n }
{
    if n < 10 { b'0' + n } else { b'A' + (n - 10) }
}

// The row of a Start or a Stop.
fn condition_row(event: u8) -> Row
    ensures { result ≡ condition_row event }
{
    Row {
        event,
        high: b'-',
        low: b'-',
        ack: b'-',
    }
}

// The letter of a first byte after a Start.
fn first_letter(hit: Hit) -> u8
    ensures { result ≡ first_letter hit }
{
    match hit {
        Hit::GeneralCall => b'G',
        _ => b'A',
    }
}

// The row of a byte, the first after a Start or a later one, with the level of its ninth clock.
fn byte_row(first: bool, hit: Hit, byte: u8, level: bool) -> Row
    ensures { result ≡ byte_row first hit byte level }
{
    Row {
        event: if first { first_letter(hit) } else { b'D' },
        high: hex_digit(byte / 16),
        low: hex_digit(byte % 16),
        ack: b'0' + u8::from(level),
    }
}
