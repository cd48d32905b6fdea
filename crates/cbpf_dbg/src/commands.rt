//! The commands of a session that ask or move its place.

ghost use Rattle.std.specs.Prelude.{◌≡◌, ◌≤◌, ◌<◌, ◌+◌, length, ◌*◌, ◌^◌, ◌<ℤ◌, pos, IfErr, IfOk, IfSome, OnErr, OnOk};
ghost use Rattle.cbpf_dbg.specs.Here.{CanReturn, RunStopsHere, StepStopsHere, stop_here};
ghost use Rattle.cbpf_dbg.specs.Shown.{CanShow, Shows};
ghost use Rattle.std.specs.List.{All};
ghost use Rattle.cbpf_code.specs.Writing.{Wrote};
ghost use Rattle.cbpf_reply.specs.declared.reply.Stop.{Stop as AStop};
ghost use Rattle.cbpf_dbg.specs.Commands as spec;
ghost use Rattle.cbpf_dbg.specs.Shown as shown;
ghost use Rattle.cbpf_machine.specs.declared.trail.TheConstants.{MOST_TURNS_BACK};

use crate::cursor::{Cursor, Walk, stop_at};
use crate::loaded::Loaded;
use crate::resume::resume_at;
use crate::run::run_to_limit;
use crate::session::Session;
use crate::step::{step_back, step_on};
use crate::stops::Stops;
use cbpf_code::WriteFault;
use cbpf_machine::{Meter, Trail};
use cbpf_reply::{Place, RunReply, SessionFault, Stop, Why};
use std::alloc::Allocator;
use std::io::Write;

/// What a command of a session works on. Without a program or a capture it refuses the command.
// A macro, as a call would borrow all of the session.
macro_rules! loaded_in {
    ($session:expr) => {{
        let Some(program) = &$session.program else {
            return Err(SessionFault::NoProgram);
        };
        let Some(capture) = &$session.capture else {
            return Err(SessionFault::NoCapture);
        };
        let _few = capture.count();
        Loaded {
            program,
            values: &$session.values,
            capture,
            breakpoints: &$session.breakpoints,
            watched: &$session.watched,
            needs_no_value: $session.needs_no_value,
        }
    }};
}

impl<T: Trail, A: Allocator> Session<T, A> {
    /// The place, for a later [`Session::resume`] with the same program, capture and values.
    ///
    /// # Errors
    ///
    /// `NoProgram`, `NoCapture`.
    pub fn mark(&self) -> Result<Place, SessionFault>
        ensures place { result ≡ spec.mark self.now }
        ensures resumable { IfOk result (spec.IsResumable self.now) }
    {
        if self.program.is_none() {
            return Err(SessionFault::NoProgram);
        }
        if self.capture.is_none() {
            return Err(SessionFault::NoCapture);
        }
        Ok(self.cursor.place)
    }

    /// The stop at the place: where it is, with the registers there. `None` before a packet's first instruction, and
    /// where no program or no capture is loaded.
    ///
    /// Its reason is that of [`Session::run`] where a run stops there, and else that of [`Session::step`].
    pub fn here(&self) -> Option<Stop>
        ensures stop { result ≡ stop_here self.now }
        ensures shown { IfSome result (CanShow self.now) }
    {
        let (Some(program), Some(_)) = (&self.program, &self.capture) else {
            return None;
        };
        if self.cursor.place.step == 0 {
            return None;
        }
        let _few = program.len();
        let reason = if self.watched.pauses_at(&self.cursor.state) {
            Why::Break
        } else {
            Why::Step
        };
        Some(stop_at(program, &self.values, &self.cursor, reason))
    }

    /// Goes on to the next hit, where fewer than `limit` packets are finished before it, else to the
    /// limit or the end.
    ///
    /// The meter has spent at most 2 to the 127 before; it rises by one for each entry that is passed, from the
    /// place's own on.
    ///
    /// # Errors
    ///
    /// `NoProgram`, `NoCapture`, `ZeroCount` where the limit is 0.
    #[inline(never)]
    pub fn run(&mut self, meter: &mut Meter, limit: Option<u64>) -> Result<RunReply, SessionFault>
        requires { meter.old ≤ 2 ^ 127 }
        ensures reply { result ≡ spec.reply_of (spec.run self.old limit) }
        ensures after { self.new ≡ spec.view_after self.old (spec.run self.old limit) }
        ensures turns { meter.new ≡ meter.old + spec.turns_forward self.old (spec.run self.old limit) }

        // A stop is the first of those ahead; the rest stay ahead.
        ensures ahead { IfOk result (λ reply. spec.Continues self.old self.new reply) }

        // A stop is one that `write_stop` takes.
        ensures shown { IfOk result (λ reply. Shows self.new reply) }

        // The session is at its stop, and can come back to it.
        ensures returns { IfOk result (λ reply. RunStopsHere self.new reply) }
    {
        let loaded = loaded_in!(self);
        if let Some(0) = limit {
            return Err(SessionFault::ZeroCount);
        }
        let reply = run_to_limit(meter, &loaded, &mut self.cursor, &mut self.trail, limit);
        Ok(reply)
    }

    /// Goes to a place that [`Session::mark`] gave with the same program, capture and values, and
    /// counts from its packet.
    ///
    /// The meter has spent at most 2 to the 127 before. It rises by twice the turns from the packet's start to the
    /// step, which is at most twice the step. Where the packet has no such step, it rises by the packet's turns.
    ///
    /// # Errors
    ///
    /// `NoProgram`, `NoCapture`, `NoPackets`; `NoPacket` where the capture has no such packet;
    /// `NoStep` with the number of the packet's steps where it has no such step.
    pub fn resume(&mut self, meter: &mut Meter, place: Place) -> Result<(), SessionFault>
        requires { meter.old ≤ 2 ^ 127 }
        ensures reply { result ≡ spec.reply_of (spec.resume self.old place) }
        ensures after { self.new ≡ spec.view_after self.old (spec.resume self.old place) }
        ensures turns { meter.new ≡ meter.old + spec.turns_to_resume place.step result }
        ensures few { meter.new ≤ meter.old + 2 * place.step }

        // A stop to which it could go back before, it can go back to afterwards, also where it refuses the place.
        ensures others { (stop : AStop) → CanReturn self.old stop → CanReturn self.new stop }
    {
        let loaded = loaded_in!(self);
        let count = loaded.capture.count();
        if count == 0 {
            return Err(SessionFault::NoPackets);
        }
        if place.packet == 0 || place.packet > count {
            return Err(SessionFault::NoPacket);
        }
        // A match, as a variant passed as a function has a proof of its own.
        match resume_at(meter, &loaded, &mut self.cursor, &mut self.trail, place) {
            Ok(()) => Ok(()),
            Err(steps) => Err(SessionFault::NoStep(steps)),
        }
    }

    /// Goes on by `n` entries, past the ends of packets, or back by `-n` entries of the same packet, whatever hits lie
    /// between. Where fewer than `n` entries are ahead, it finishes, as [`Session::run`] does.
    ///
    /// The meter has spent at most 2 to the 127 before; on the way forward it rises by one for each entry that is
    /// passed, from the place's own on, and on the way back by what the trail takes to go back to the entry, which is
    /// at most `MOST_TURNS_BACK`, which is 63. A refusal makes no turn.
    ///
    /// # Errors
    ///
    /// `NoProgram`, `NoCapture`, `NoPackets`; `ZeroCount` where `n` is 0; `TooFarBack` with the most
    /// that fits.
    pub fn step(&mut self, meter: &mut Meter, n: i64) -> Result<RunReply, SessionFault>
        requires { meter.old ≤ 2 ^ 127 }
        ensures reply { result ≡ spec.reply_of (spec.step self.old n) }
        ensures after { self.new ≡ spec.view_after self.old (spec.step self.old n) }
        ensures turns { pos 0 <ℤ n → meter.new ≡ meter.old + spec.turns_forward self.old (spec.step self.old n) }
        ensures counts { meter.old ≤ meter.new }
        ensures back { n <ℤ pos 0 → meter.new ≤ meter.old + MOST_TURNS_BACK }
        ensures back_turns { n <ℤ pos 0 → OnOk result (meter.new ≡ meter.old + T.turns_back self.new.place.step) }
        ensures refused { OnErr result (meter.new ≡ meter.old) }
        ensures shown { IfOk result (λ reply. Shows self.new reply) }
        ensures here { IfOk result (λ reply. StepStopsHere self.new reply) }
    {
        let loaded = loaded_in!(self);
        let packets = loaded.capture.count();
        if packets == 0 {
            return Err(SessionFault::NoPackets);
        }
        if n == 0 {
            return Err(SessionFault::ZeroCount);
        }
        let entries = n.unsigned_abs();
        if n > 0 {
            return Ok(step_on(meter, &loaded, &mut self.cursor, &mut self.trail, entries));
        }
        match step_back(meter, &loaded, &mut self.cursor, &mut self.trail, entries) {
            Ok(stop) => Ok(RunReply::Stopped(stop)),
            Err(most) => Err(SessionFault::TooFarBack(most)),
        }
    }

    /// Goes before packet `n`, counted from 1, and counts from there.
    ///
    /// # Errors
    ///
    /// `NoProgram`, `NoCapture`, `NoPackets`; `NoPacket` where the capture has no such packet.
    pub fn select(&mut self, n: u64) -> Result<(), SessionFault>
        ensures reply { result ≡ spec.reply_of (spec.select self.old n) }
        ensures after { self.new ≡ spec.view_after self.old (spec.select self.old n) }
    {
        let loaded = loaded_in!(self);
        let count = loaded.capture.count();
        if count == 0 {
            return Err(SessionFault::NoPackets);
        }
        if n == 0 || n > count {
            return Err(SessionFault::NoPacket);
        }
        self.cursor = Cursor::before(n, loaded.capture.start_of(n));
        self.trail.clear();
        Ok(())
    }

    /// The stops after the place, in order. The session stays as it is.
    ///
    /// # Errors
    ///
    /// `NoProgram`, `NoCapture`.
    pub fn stops(&self) -> Result<Stops<'_, A>, SessionFault>
        ensures hits { result ≡ spec.stops self.now }
        ensures shown { IfOk result (λ hits. All (CanShow self.now) hits) }
        ensures returns { IfOk result (λ hits. All (CanReturn self.now) hits) }
        ensures few { IfOk result (λ hits. length hits < 2 ^ 128) }
    {
        let loaded = loaded_in!(self);
        let end = loaded.capture.count() + 1;
        let Cursor { place, start, .. } = self.cursor;
        let left = loaded.capture.records_at(place.packet, start, end);
        Ok(Stops {
            loaded,
            walk: Walk {
                cursor: self.cursor,
                left,
                end,
            },
            meter: Meter::new(),
        })
    }
}

impl<T: Trail, A: Allocator> Session<T, A> {
    /// Writes the dump of a stop: its place and instruction, the registers and the scratch memory before
    /// it, the packet, and why it stopped.
    ///
    /// A program and a capture are loaded, the stop's packet is one of the capture's, and its pc is
    /// less than the program's length. So it is with each stop that this session gave since they were
    /// loaded.
    #[tactic(auto, unfolding(crate::specs::Shown::CanShow, crate::specs::Shown::stop_text))]
    pub fn write_stop<W: Write>(&self, w: &mut W, stop: &Stop) -> Result<(), WriteFault>
        requires { shown.CanShow self.now stop.now }
        ensures { Wrote (W.contents w.old) (W.contents w.new) result (shown.stop_text self.now stop.now) }
    {
        let (Some(program), Some(capture)) = (&self.program, &self.capture) else {
            unreachable!()
        };
        let n = stop.place.packet;
        let start = if n == self.cursor.place.packet {
            self.cursor.start
        } else {
            capture.start_of(n)
        };
        let packet = capture.item_at(n, start);
        cbpf_reply::write_stop(w, program, stop, packet.bytes, packet.wire)
    }
}
