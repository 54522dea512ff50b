//! The firmware: the handler that serves the module over a lent window, and its set-up.
#![tactic(auto)]

ghost use Rattle.std.specs.Prelude.{◌≡◌, ◌+◌, ◌≤◌, length};
ghost use Rattle.refusals.specs.Numbers.{answered};
ghost use Rattle.firmware.specs.Handler.{is_window_length, setup_of, served, acknowledged, addressed, sent, taken, called};
ghost use Rattle.firmware.specs.Window.{window_fits, window_outcome, call_of};

use mssp::Module;
use refusals::Refusal;

/// The largest n.
pub const LONGEST_WINDOW: u64 = 256;

/// The handler's own variables: the window's length, the pointer, and whether a pointer byte is due.
#[derive(Clone, Copy, Debug, PartialEq, Eq)]
pub struct Handler {
    pub n: u16,
    pub pointer: u16,
    pub due: bool,
}

#[derive(Clone, Copy)]
pub struct State {
    pub mssp: Module,
    pub handler: Handler,
}

/// Whether a window can be n bytes long: from 1 up to the largest n.
pub fn is_window_length(n: u64) -> bool
    ensures { result ≡ is_window_length n }
{
    (1 <= n) & (n <= LONGEST_WINDOW)
}

/// Whether a window of n bytes from start lies inside `long` bytes, n being what the setup said. No sum can wrap.
pub fn window_fits(long: usize, start: u64, n: u64, wanted: u16) -> bool
    ensures { result ≡ window_fits long start n wanted }
{
    let all = long as u64;
    if all < start {
        return false;
    }
    (n <= all - start) & (n == u64::from(wanted))
}

impl State {
    /// A state set up afresh over n bytes. Refuses with 5.
    pub fn set_up(add: u8, n: u64) -> Result<State, Refusal>
        ensures { result ≡ setup_of add n }
    {
        if is_window_length(n) {
            Ok(State {
                mssp: Module::set_up(add),
                handler: Handler {
                    n: n as u16,
                    pointer: 0,
                    due: false,
                },
            })
        } else {
            Err(Refusal::NoWindow)
        }
    }

    // SSPIF is cleared.
    fn acknowledge(&mut self)
        ensures { self.new ≡ acknowledged self.old }
    {
        self.mssp.live.sspif = false;
    }

    // A write address: BUF is read, a pointer is due, the hold ends.
    fn address(&mut self)
        ensures { self.new ≡ addressed self.old }
    {
        effects::empty(&mut self.mssp);
        self.handler.due = true;
        effects::release(&mut self.mssp);
    }

    // Sending: after a read address BUF is read first; the byte at the pointer is loaded, and the hold ends.
    fn send(&mut self, window: &[u8])
        ensures { self.new ≡ sent self.old window.now }
    {
        if !self.mssp.live.da {
            effects::empty(&mut self.mssp);
        }
        effects::load(&mut self.mssp, memory::peek(window, self.handler.pointer));
        self.handler.pointer = memory::pointer_on(self.handler.n, self.handler.pointer);
        effects::release(&mut self.mssp);
    }

    // A data byte: the pointer where one is due, else stored; BUF is read, the hold ends.
    fn take(&mut self, window: &mut [u8])
        ensures { served self.new window.new ≡ taken self.old window.old }
    {
        let byte = self.mssp.live.buf;
        effects::empty(&mut self.mssp);
        if self.handler.due {
            self.handler.pointer = memory::aim(self.handler.n, byte);
        } else {
            memory::store(window, self.handler.pointer, byte);
            self.handler.pointer = memory::pointer_on(self.handler.n, self.handler.pointer);
        }
        self.handler.due = false;
        effects::release(&mut self.mssp);
    }

    /// A call over the window's own bytes.
    pub fn handle(&mut self, window: &mut [u8])
        ensures { served self.new window.new ≡ called self.old window.old }
    {
        if !self.mssp.live.sspif {
            return;
        }
        self.acknowledge();
        if self.mssp.live.ckp {
            return;
        }
        if self.mssp.live.rw {
            self.send(window);
        } else if self.mssp.live.da {
            self.take(window);
        } else {
            self.address();
        }
    }

    // Stays: the window comes as C gives it, start and length; a struct of both would ask a conversion of every caller.
    /// A handler call over a window of the caller's buffer. Refuses with 5, and then nothing changes.
    pub fn call(&mut self, buffer: &mut [u8], start: u64, n: u64) -> Result<(), Refusal>
        ensures { window_outcome (answered result) 0 self.new buffer.new ≡ call_of self.old buffer.old start n }
    {
        if !window_fits(buffer.len(), start, n, self.handler.n) {
            return Err(Refusal::NoWindow);
        }
        let end = start + n;
        self.handle(&mut buffer[start as usize..end as usize]);
        Ok(())
    }
}
