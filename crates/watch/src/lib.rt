//! The wire watched while items are played: what an item leaves of the world, and what the plain reader hears at it.
#![tactic(auto)]

ghost use Rattle.std.specs.Prelude.{◌≡◌};
ghost use Rattle.watch.specs.Watch.{scene, world_of, watched_of, listened_of, level_seen, item_seen, hit_heard, scene_after, with_general_call};

use address::Hit;
use firmware::State;
use mssp::Config;
use reader::{Heard, Reader};
use steps::Item;
use wire::Level;

/// Module and handler, and the plain reader of their wire.
#[derive(Clone, Copy)]
pub struct World {
    pub state: State,
    pub reader: Reader,
}

impl World {
    // A sample: the reader is fed with the wire, which is low where the sample is low or the module pulls.
    fn see_level(&mut self, driven: Level) -> Heard
        ensures seen { listened_of self.new.reader result ≡ level_seen self.old driven.scl driven.sda }
        ensures state { self.new.state ≡ self.old.state }
    {
        let phase = self.state.mssp.phase;
        let level = driven.on_wire(phase.pulls_scl(), phase.pulls_sda());
        self.reader.read_on(level)
    }

    // Only a sample is on the wire.
    fn see_item(&mut self, item: Item) -> Heard
        ensures seen { listened_of self.new.reader result ≡ item_seen self.old item }
        ensures state { self.new.state ≡ self.old.state }
    {
        match item {
            Item::Sample(scl, sda) => self.see_level(Level { scl, sda }),
            _ => Heard::Silence,
        }
    }

    /// Plays an item: its step on state and memory, and the reader beside it. The answer is what the reader heard at it, and
    /// which address a byte that was heard hits.
    pub fn watch(&mut self, memory: &mut [u8], item: Item) -> (Heard, Hit)
        ensures { scene (watched_of self.new result.0 result.1) memory.new ≡ scene_after self.old memory.old item }
    {
        let heard = self.see_item(item);
        let hit = hit_heard(self.state.mssp.config, heard);
        let _ = steps::step(&mut self.state, memory, item);
        (heard, hit)
    }
}

// Only a byte hits an address.
fn hit_heard(config: Config, heard: Heard) -> Hit
    ensures { result ≡ hit_heard config heard }
{
    match heard {
        Heard::Byte(_, byte, _) => address::compare(config, byte),
        _ => Hit::None,
    }
}

/// Where the general call is asked for, GCEN is set, by a write to CON2 that leaves SEN.
pub fn set_general_call(state: &mut State, general: bool)
    ensures { state.new ≡ with_general_call general state.old }
{
    if general {
        let _ = writes::write(&mut state.mssp, 3, 0x81);
    }
}
