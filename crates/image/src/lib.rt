//! A state as its image of 48 bytes, and back: what C holds of a state is its image, and each state has one.
#![tactic(auto)]

mod handler_part;

ghost use Rattle.std.specs.Prelude.{◌≡◌, length};
ghost use Rattle.image.specs.Image.{image_length, encode_of, parse_of, is_state, decode_of, all_alike};

use firmware::State;
use handler_part::HANDLER_LENGTH;
use module_image::MODULE_LENGTH;

pub const IMAGE_LENGTH: usize = 48;

// How many bytes the two parts take, and how many zeros follow.
const USED: usize = MODULE_LENGTH + HANDLER_LENGTH;

const ZEROS: usize = IMAGE_LENGTH - USED;

// Stays: functions on a state, no methods. The type is of another crate, and an `impl` for it is refused here.

/// The module's part, the handler's, and zeros.
pub fn encode(s: State) -> [u8; IMAGE_LENGTH]
    ensures { result ≡ encode_of s }
{
    let mut image = [0u8; IMAGE_LENGTH];
    module_image::save(s.mssp, &mut image);
    image[MODULE_LENGTH..USED].copy_from_slice(&handler_part::handler_part(s.handler));
    image
}

// The state that bytes name, whether they are its image or not.
fn parse(bytes: &[u8]) -> State
    requires { length bytes.now ≡ image_length }
    ensures { result ≡ parse_of bytes.now }
{
    State {
        mssp: module_image::module_from(bytes),
        handler: handler_part::handler_from(&bytes[MODULE_LENGTH..]),
    }
}

// Whether rows of one length are the same. No byte is passed over, so that a processor may take many together.
// Stays: an end at the first byte that differs costs a sample a fifth of its instructions (docs/DECISIONS.md).
fn same(a: &[u8], b: &[u8]) -> bool
    requires { length a.now ≡ length b.now }
    ensures { result ≡ all_alike a.now b.now }
{
    a.iter()
        .zip(b)
        .fold(true, |alike, (x, y)| alike & (*x == *y))
}

/// Whether the bytes are a state's image, of whatever length they are: judged part by part, and no state is built.
pub fn is_image(bytes: &[u8]) -> bool
    ensures { result ≡ is_state bytes.now }
{
    if bytes.len() != IMAGE_LENGTH {
        return false;
    }
    module_image::is_module(bytes)
        & handler_part::is_handler(&bytes[MODULE_LENGTH..])
        & same(&[0; ZEROS], &bytes[USED..])
}

/// The state whose image the bytes are.
pub fn decode(bytes: &[u8]) -> Option<State>
    ensures { result ≡ decode_of bytes.now }
{
    if is_image(bytes) {
        Some(parse(bytes))
    } else {
        None
    }
}
