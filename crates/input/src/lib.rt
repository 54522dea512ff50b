//! The report's input: what each byte of it is, and how many items it has.
#![tactic(auto)]

ghost use Rattle.std.specs.Prelude.{◌≡◌, Ok};
ghost use Rattle.input.specs.Input.{asks_general, meaning_of, item_count, checked_of};

use steps::Item;
use wire::Level;

/// A byte that is neither an item nor passed over.
#[derive(Clone, Copy, Debug)]
pub struct Foreign;

/// So many items come before the first foreign byte.
#[derive(Clone, Copy, Debug)]
pub struct Cut {
    pub items: usize,
}

/// What a byte of the input is: an item, none where it is passed over, or foreign.
pub fn meaning_of(byte: u8) -> Result<Option<Item>, Foreign>
    ensures { result ≡ meaning_of byte }
{
    match byte {
        b' ' | b'\n' => Ok(None),
        b'h' => Ok(Some(Item::Call)),
        b'0'..=b'3' => {
            let level = Level::from(byte - b'0');
            Ok(Some(Item::Sample(level.scl, level.sda)))
        }
        _ => Err(Foreign),
    }
}

/// A `g` stands before all else.
pub fn asks_general(input: &[u8]) -> bool
    ensures { result ≡ asks_general input.now }
{
    input.first() == Some(&b'g')
}

// 1 for an item, 0 for what is passed over.
fn item_count(meaning: Option<Item>) -> usize
    ensures { result ≡ item_count (Ok meaning) }
{
    usize::from(meaning.is_some())
}

/// How many items the input has: all of it, or up to its first foreign byte.
pub fn check(input: &[u8]) -> Result<usize, Cut>
    ensures { result ≡ checked_of input.now }
{
    let mut items = 0;
    for &byte in input {
        let Ok(meaning) = meaning_of(byte) else {
            return Err(Cut { items });
        };
        items += item_count(meaning);
    }
    Ok(items)
}
