//! The report: what the input's items make on the wire, as lines in a lent buffer.
#![tactic(auto)]

ghost use Rattle.std.specs.Prelude.{◌≡◌, ◌+◌, ◌<◌, ◌≤◌, ◌^◌, true, length};
ghost use Rattle.reader.specs.Reader.{reader_afresh};
ghost use Rattle.input.specs.Input.{parse, clean, items_in, checked_of};
ghost use Rattle.watch.specs.Watch.{world_of, world_afresh, memory_afresh};
ghost use Rattle.text.specs.Page.{page, penned};
ghost use Rattle.text.specs.Pen.{page_of, HasRoom};
ghost use Rattle.lines.specs.Report.{line_of, lines_from, item_passed, parsed_report, report_of};
ghost use Rattle.lines.specs.Played.{run_of, progress_of};

use firmware::State;
use reader::{Place, Reader};
use steps::Item;
use text::Pen;
use watch::World;
use wire::Line;

// How far the items are played: the world and its memory, and the next item's number.
#[derive(Drop)]
struct Played {
    world: World,
    memory: [u8; 32],
    item: usize,
}

impl Played {
    // An item: it is played, and its event gets a line with the pointer after it.
    fn pass_item(&mut self, item: Item, pen: &mut Pen<'_>)
        requires next { self.old.item + 1 < 2 ^ 64 }
        requires room { HasRoom (line_of self.old.world self.old.memory self.old.item item) pen.old }
        ensures buffer { pen.new.output.ghost_name ≡ pen.old.output.ghost_name }
        ensures passed { progress_of self.new pen.new
            ≡ item_passed (run_of self.old pen.old) self.old.memory pen.old.output.now item }
    {
        let (heard, hit) = self.world.watch(&mut self.memory, item);
        pen.put_event(self.item, heard, hit, self.world.state.handler.pointer);
        self.item += 1;
    }
}

// The lines of an input without foreign bytes, over 32 zero bytes of memory.
fn put_lines(first: State, input: &[u8], pen: &mut Pen<'_>)
    requires clean { clean (parse input.now) ≡ true }
    requires room { HasRoom (lines_from (world_of first reader_afresh) memory_afresh 0 (items_in (parse input.now))) pen.old }
    ensures buffer { pen.new.output.ghost_name ≡ pen.old.output.ghost_name }
    ensures lines { page_of pen.new
        ≡ penned (lines_from (world_of first reader_afresh) memory_afresh 0 (items_in (parse input.now))) (page_of pen.old) }
{
    let reader = Reader {
        line: Line::unseen(),
        place: Place::Idle,
    };
    let mut played = Played {
        world: World {
            state: first,
            reader,
        },
        memory: [0; 32],
        item: 0,
    };
    for &byte in input {
        if let Some(item) = input::meaning_of(byte).unwrap_or(None) {
            played.pass_item(item, pen);
        }
    }
}

// ADD is 30 (hex), the memory has 32 bytes; the general call is answered where it is asked for.
fn put_events(general: bool, input: &[u8], pen: &mut Pen<'_>)
    requires clean { clean (parse input.now) ≡ true }
    requires room { HasRoom (lines_from (world_afresh general) memory_afresh 0 (items_in (parse input.now))) pen.old }
    ensures buffer { pen.new.output.ghost_name ≡ pen.old.output.ghost_name }
    ensures lines { page_of pen.new
        ≡ penned (lines_from (world_afresh general) memory_afresh 0 (items_in (parse input.now))) (page_of pen.old) }
{
    if let Ok(mut state) = State::set_up(0x30, 32) {
        watch::set_general_call(&mut state, general);
        put_lines(state, input, pen);
    }
}

// The header, the items' lines and how many items there are.
fn put_report(general: bool, input: &[u8], pen: &mut Pen<'_>, items: usize)
    requires whole { checked_of input.now ≡ Ok items }
    requires room { HasRoom (parsed_report general (parse input.now)) pen.old }
    ensures buffer { pen.new.output.ghost_name ≡ pen.old.output.ghost_name }
    ensures report { page_of pen.new ≡ penned (parsed_report general (parse input.now)) (page_of pen.old) }
{
    pen.put_all(b"item event byte ack pointer\n");
    put_events(general, input, pen);
    pen.put_numbered(b"end ", items);
}

// The items' lines, or the refusal of the first byte that is none.
fn put_parsed(general: bool, input: &[u8], pen: &mut Pen<'_>)
    requires { HasRoom (parsed_report general (parse input.now)) pen.old }
    ensures buffer { pen.new.output.ghost_name ≡ pen.old.output.ghost_name }
    ensures report { page_of pen.new ≡ penned (parsed_report general (parse input.now)) (page_of pen.old) }
{
    match input::check(input) {
        Ok(items) => put_report(general, input, pen, items),
        Err(cut) => pen.put_numbered(b"refused 4 at ", cut.items),
    }
}

/// The whole report is written from the start of the output on; what does not fit is left out. The number is the report's
/// length, written whole or not.
pub fn write_report(input: &[u8], output: &mut [u8]) -> usize
    ensures { page result output.new ≡ penned (report_of input.now) (page 0 output.old) }
{
    let mut pen = Pen { output, at: 0 };
    let too_long = 60000 < input.len();
    if too_long {
        pen.put_all(b"too long\n");
        return pen.at;
    }
    let general = input::asks_general(input);
    let first = usize::from(general);
    put_parsed(general, &input[first..], &mut pen);
    pen.at
}
