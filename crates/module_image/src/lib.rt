//! The module's part of an image: the registers as they read but for UA, the phase with its parts, the line, and the full match;
//! whether bytes begin with one, the module that they name, and what is written over it.
#![tactic(auto)]

ghost use Rattle.std.specs.Prelude.{◌≡◌, ◌≤◌, length, take};
ghost use Rattle.codec.specs.Codec.{same_bytes};
ghost use Rattle.mssp.specs.Module.{stand_of};
ghost use Rattle.mssp.specs.Valid.{valid};
ghost use Rattle.phase_image.specs.PhasePart.{phase_from, line_from};
ghost use Rattle.module_image.specs.ModulePart.{module_length, module_part, config_from, live_from, module_from, is_module, with_module, with_stand, part_of, bytes_of, module_in};

use mssp::{Config, Live, Module, Phase, Stand};
use register_bytes::RegisterBytes;
use validity::Outline;
use wire::Line;

pub const MODULE_LENGTH: usize = 16;

// Where phase and line begin.
const STAND: usize = 8;

// The part's bytes in their order, by what they are.
#[derive(Clone, Copy)]
struct Part {
    buf: u8,
    stat: u8,
    con1: u8,
    con2: u8,
    con3: u8,
    add: u8,
    msk: u8,
    flag: u8,
    number: u8,
    count: u8,
    value: u8,
    mark: u8,
    wire: u8,
    marked: u8,
    which: u8,
    full: u8,
}

impl Part {
    // What bytes begin with.
    fn of(b: &[u8]) -> Self
        requires { module_length ≤ length b.now }
        ensures fields { result ≡ part_of b.now }
        ensures bytes { bytes_of result ≡ take module_length b.now }
    {
        let &[
            buf,
            stat,
            con1,
            con2,
            con3,
            add,
            msk,
            flag,
            number,
            count,
            value,
            mark,
            wire,
            marked,
            which,
            full,
        ] = b.first_chunk::<MODULE_LENGTH>().unwrap();
        Part {
            buf,
            stat,
            con1,
            con2,
            con3,
            add,
            msk,
            flag,
            number,
            count,
            value,
            mark,
            wire,
            marked,
            which,
            full,
        }
    }

    fn config_from(self) -> Config
        ensures { result ≡ config_from self.stat self.con1 self.con2 self.con3 self.add self.msk }
    {
        Config {
            smp: wire::bit(self.stat, 7),
            cke: wire::bit(self.stat, 6),
            wcol: wire::bit(self.con1, 7),
            sspen: wire::bit(self.con1, 5),
            sspm3: wire::bit(self.con1, 3),
            sspm2: wire::bit(self.con1, 2),
            sspm1: wire::bit(self.con1, 1),
            sspm0: wire::bit(self.con1, 0),
            gcen: wire::bit(self.con2, 7),
            ackdt: wire::bit(self.con2, 5),
            sen: wire::bit(self.con2, 0),
            pcie: wire::bit(self.con3, 6),
            scie: wire::bit(self.con3, 5),
            sdaht: wire::bit(self.con3, 3),
            sbcde: wire::bit(self.con3, 2),
            ahen: wire::bit(self.con3, 1),
            dhen: wire::bit(self.con3, 0),
            add: self.add,
            msk: self.msk,
        }
    }

    fn live_from(self) -> Live
        ensures { result ≡ live_from self.buf self.stat self.con1 self.con2 self.con3 self.flag self.full }
    {
        Live {
            s: wire::bit(self.stat, 3),
            p: wire::bit(self.stat, 4),
            da: wire::bit(self.stat, 5),
            rw: wire::bit(self.stat, 2),
            bf: wire::bit(self.stat, 0),
            sspov: wire::bit(self.con1, 6),
            ckp: wire::bit(self.con1, 4),
            ackstat: wire::bit(self.con2, 6),
            acktim: wire::bit(self.con3, 7),
            sspif: wire::bit(self.flag, 0),
            full: wire::bit(self.full, 0),
            buf: self.buf,
        }
    }

    fn phase_in(self) -> Phase
        ensures { result ≡ phase_from self.number self.count self.value self.mark self.which }
    {
        phase_image::phase_from(self.number, self.count, self.value, self.mark, self.which)
    }

    fn line_in(self) -> Line
        ensures { result ≡ line_from self.wire self.marked }
    {
        phase_image::line_from(self.wire, self.marked)
    }

    // Byte by byte: what each place can hold, and nothing else.
    fn is_part(self) -> bool
        ensures { result ≡ same_bytes (module_part (module_in self)) (bytes_of self) }
    {
        let lower = u8::from(wire::bit(self.flag, 0));
        let matched = u8::from(wire::bit(self.full, 0));
        let read = RegisterBytes {
            stat: self.stat,
            con1: self.con1,
            con2: self.con2,
            con3: self.con3,
        };
        read.are_held()
            & (lower == self.flag)
            & phase_image::is_stand(
                self.number,
                self.count,
                self.value,
                self.mark,
                self.wire,
                self.marked,
                self.which,
            )
            & (matched == self.full)
    }

    // The clauses of a valid module, asked of its bytes.
    fn is_valid(self) -> bool
        ensures { result ≡ valid (module_in self) }
    {
        let s = wire::bit(self.stat, 3);
        let p = wire::bit(self.stat, 4);
        let sspm2 = wire::bit(self.con1, 2);
        let sspm1 = wire::bit(self.con1, 1);
        let sspm0 = wire::bit(self.con1, 0);
        let outline = Outline {
            s,
            p,
            sspen: wire::bit(self.con1, 5),
            modelled: mssp::is_modelled(sspm2, sspm1),
            ten: mssp::has_ten_bits(sspm2, sspm1, sspm0),
            msk: self.msk,
            ckp: wire::bit(self.con1, 4),
            full: wire::bit(self.full, 0),
            phase: self.phase_in(),
            line: self.line_in(),
        };
        outline.is_valid()
    }
}

fn module_part(m: Module) -> [u8; MODULE_LENGTH]
    ensures { result ≡ module_part m }
{
    let read = RegisterBytes::of(m.config, m.live, false);
    let [number, count, value, mark, wire, marked, which] = phase_image::stand_part(
        m.phase, m.line,
    );
    [
        m.live.buf,
        read.stat,
        read.con1,
        read.con2,
        read.con3,
        m.config.add,
        m.config.msk,
        u8::from(m.live.sspif),
        number,
        count,
        value,
        mark,
        wire,
        marked,
        which,
        u8::from(m.live.full),
    ]
}

// Stays: these seven take a slice and ask for its length. docs/ name them, their callers hold slices that they may not narrow, and
// an array would ask more of them.

/// The phase alone.
pub fn phase_in(b: &[u8]) -> Phase
    requires { module_length ≤ length b.now }
    ensures { result ≡ (module_from b.now).phase }
{
    Part::of(b).phase_in()
}

/// The line alone.
pub fn line_in(b: &[u8]) -> Line
    requires { module_length ≤ length b.now }
    ensures { result ≡ (module_from b.now).line }
{
    Part::of(b).line_in()
}

/// The module that bytes name, whether they begin with its part or not.
pub fn module_from(b: &[u8]) -> Module
    requires { module_length ≤ length b.now }
    ensures { result ≡ module_from b.now }
{
    let part = Part::of(b);
    Module {
        config: part.config_from(),
        live: part.live_from(),
        phase: part.phase_in(),
        line: part.line_in(),
    }
}

/// What of it a level meets first, read off without the rest.
pub fn stand_in(b: &[u8]) -> Stand
    requires { module_length ≤ length b.now }
    ensures { result ≡ stand_of (module_from b.now) }
{
    let part = Part::of(b);
    Stand {
        enabled: wire::bit(part.con1, 5),
        acktim: wire::bit(part.con3, 7),
        phase: part.phase_in(),
        line: part.line_in(),
    }
}

/// Whether bytes begin with the part of a valid module.
pub fn is_module(b: &[u8]) -> bool
    requires { module_length ≤ length b.now }
    ensures { result ≡ is_module b.now }
{
    let part = Part::of(b);
    part.is_part() & part.is_valid()
}

/// A module's part is written over what bytes begin with.
pub fn save(m: Module, b: &mut [u8])
    requires { module_length ≤ length b.old }
    ensures { b.new ≡ with_module m b.old }
{
    b[..MODULE_LENGTH].copy_from_slice(&module_part(m));
}

/// Phase and line alone are written; the bytes of the registers stay.
pub fn save_stand(phase: Phase, line: Line, b: &mut [u8])
    requires { module_length ≤ length b.old }
    ensures { b.new ≡ with_stand phase line b.old }
{
    b[STAND..STAND + 7].copy_from_slice(&phase_image::stand_part(phase, line));
}
