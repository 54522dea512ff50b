//! Samples one after the other, over the module alone: a stretch, then the sample that a rule has to see. A handler adds to it
//! what it does between samples.
#![tactic(auto)]

ghost use Rattle.std.specs.Prelude.{◌≡◌};
ghost use Rattle.samples.specs.Samples.{moved_on, passed_over, sample_at, fed_by, fed_of};

use mssp::Module;
use stretch::Stretch;
use wire::Level;

// On to where a stretch leaves the module.
fn move_on(m: &mut Module, ahead: Stretch)
    ensures { m.new ≡ moved_on m.old ahead }
{
    m.phase = ahead.phase;
    m.line = stretch::line_of(ahead.wire);
}

/// Past a stretch, where there is one.
pub fn pass_over(m: &mut Module, ahead: Stretch)
    ensures { m.new ≡ passed_over m.old ahead }
{
    if ahead.length > 0 {
        move_on(m, ahead);
    }
}

// Whether an item stands at a place, and is a sample.
fn is_sample_at(items: &[u8], i: usize) -> bool
    ensures { result ≡ sample_at items.now i }
{
    i < items.len() && items[i] <= 3
}

/// Feeds all the samples up to the first item that is none, and tells how many they are.
pub fn feed(m: &mut Module, items: &[u8]) -> usize
    ensures { fed_by m.new result ≡ fed_of m.old items.now }
{
    let mut i = 0;
    // Stays: no plainer, since the number of samples is the answer, and the law of the loop (stretch_walked) goes by it.
    while is_sample_at(items, i) {
        let ahead = stretch::ahead(stretch::stand_of(*m), &items[i..]);
        pass_over(m, ahead);
        i += ahead.length;
        if is_sample_at(items, i) {
            sampling::sample(m, Level::from(items[i]));
            i += 1;
        }
    }
    i
}
