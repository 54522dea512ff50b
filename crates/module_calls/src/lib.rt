// The calls on the bytes of a state that see its module alone, whatever its handler does: a read, a write, a sample, a look,
// a question which address hits.
// Refusals are looked at in the paper's order, and a refused call changes no byte.
#![tactic(auto)]

ghost use Rattle.std.specs.Prelude.{◌≡◌, ◌≤◌, true};
ghost use Rattle.registers.specs.Values.{access_of};
ghost use Rattle.writes.specs.Writes.{write_of};
ghost use Rattle.trace.specs.Run.{sampled_by};
ghost use Rattle.image.specs.Image.{encode_of, parse_of, is_state};
ghost use Rattle.settling.specs.Outcome.{outcome, done, settled_access};
ghost use Rattle.module_calls.specs.Calls.{image_with, door_read, door_write, door_sample, door_look, door_hit};

use mssp::Module;
use refusals::Refusal;
use settling::Answer;
use view::View;
use wire::Level;

// A register access reaches the module alone: nothing else of the image is written.
fn settle_access(state: &mut [u8], left: Module, access: Result<u8, Refusal>) -> Answer
    requires { is_state state.old ≡ true }
    ensures { outcome result state.new ≡ settled_access (image_with (parse_of state.old)) (access_of access left) state.old }
{
    match access {
        Ok(value) => {
            module_image::save(left, state);
            Answer::done(value)
        }
        Err(why) => Answer::from(why),
    }
}

/// Reads a register. Refuses with 6, 1.
pub fn read(state: &mut [u8], number: u32) -> Answer
    ensures { outcome result state.new ≡ door_read state.old number }
{
    if !image::is_image(state) {
        return Answer::from(Refusal::NoState);
    }
    let mut left = module_image::module_from(state);
    let access = registers::read(&mut left, number);
    settle_access(state, left, access)
}

// A write that is done answers 0.
fn written(left: &mut Module, number: u32, value: u8) -> Result<u8, Refusal>
    ensures { access_of result left.new ≡ write_of left.old number value }
{
    writes::write(left, number, value)?;
    Ok(0)
}

/// Writes a register. Refuses with 6, 1, 2, 3, 8, 9.
pub fn write(state: &mut [u8], number: u32, value: u8) -> Answer
    ensures { outcome result state.new ≡ door_write state.old number value }
{
    if !image::is_image(state) {
        return Answer::from(Refusal::NoState);
    }
    let mut left = module_image::module_from(state);
    let access = written(&mut left, number, value);
    settle_access(state, left, access)
}

// A sample that moves something. Where the level is a stretch of its own, the registers' bytes stay; else the module is built,
// and its part written. Called from two places, this stays a function by itself, and the short way does without its frame.
fn move_on(state: &mut [u8], level: u8) -> Answer
    requires state_value { is_state state.old ≡ true }
    requires level_bound { level ≤ 3 }
    ensures { outcome result state.new ≡ outcome (done 0) (encode_of (sampled_by (parse_of state.old) level)) }
{
    let s = module_image::stand_in(state);
    let ahead = stretch::over(s, level);
    if ahead.length > 0 {
        let line = stretch::line_of(ahead.wire);
        module_image::save_stand(ahead.phase, line, state);
        return Answer::done(0);
    }
    let mut m = module_image::module_from(state);
    sampling::sample(&mut m, Level::from(level));
    module_image::save(m, state);
    Answer::done(0)
}

// Feeds one sample. Refuses with 6, 4 (a level above 3). The short way: a level that is on the wire what is remembered of it
// leaves every byte as it is.
pub fn sample(state: &mut [u8], level: u32) -> Answer
    ensures { outcome result state.new ≡ door_sample state.old level }
{
    if !image::is_image(state) {
        return Answer::from(Refusal::NoState);
    }
    let too_high = level > 3;
    if too_high {
        return Answer::from(Refusal::NoItem);
    }
    let phase = module_image::phase_in(state);
    let line = module_image::line_in(state);
    // Stays: called from two places, `move_on` stays a function by itself (docs/DECISIONS.md; tools/stack.sh asks for it).
    match line.remembered {
        None => move_on(state, level as u8),
        Some(before) => {
            if sampling::is_still(phase, before, level as u8) {
                Answer::done(0)
            } else {
                move_on(state, level as u8)
            }
        }
    }
}

// Looks at a state and changes nothing. Refuses with 6.
pub fn look(state: &[u8]) -> View
    ensures { result ≡ door_look state.now }
{
    match image::decode(state) {
        None => View::no_view(),
        Some(s) => View::from(s),
    }
}

// Which address a first byte hits by the state's registers; changes nothing. Refuses with 6.
pub fn hit(state: &[u8], byte: u8) -> Answer
    ensures { result ≡ door_hit state.now byte }
{
    match image::decode(state) {
        None => Answer::from(Refusal::NoState),
        Some(s) => {
            let hit = address::compare(s.mssp.config, byte);
            Answer::done(hit.number())
        }
    }
}
