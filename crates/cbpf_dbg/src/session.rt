//! A session: what is loaded, and the breakpoints.

ghost use Rattle.std.specs.Prelude.{◌≡◌, ◌≤◌, ◌⊎◌, length, slice_get, nat_eq, None, Err, IfErr, IsOk, OnErr, OnOk};
ghost use Rattle.std.specs.Prelude.{Option};
ghost use Rattle.std.specs.Map.{lookup};
ghost use Rattle.std.specs.Option.{option_map};
ghost use Rattle.cbpf_machine.specs.Values.{value_of};
ghost use Rattle.cbpf_dbg.specs.Commands as spec;
ghost use Rattle.cbpf_dbg.specs.Here.{KeepsEntries};
ghost use Rattle.cbpf_dbg.specs.View.{empty_view};
ghost use Rattle.cbpf_reply.specs.declared.reply.SessionFault.TheVariants as fault;

use crate::cursor::Cursor;
use crate::loaded::Breakpoints;
use crate::watching::{make_room, needs_no_value, watch, watch_at};
use cbpf_code::{Ext, Program};
use cbpf_machine::{Trail, Values, Watched};
use cbpf_reply::{Place, SessionFault, When};
use indexmap::IndexMap;
use pcap_classic::Capture;
use std::alloc::{Allocator, Global};
use std::marker::Model;

/// A debugging session over one program and one capture.
///
/// Of a packet's history it holds the state of its place and a trail, and nothing else.
#[derive(Drop)]
pub struct Session<T: Trail, A: Allocator = Global> {
    pub(crate) program: Option<Program<A>>,
    pub(crate) values: Values,
    /// Whether no instruction of the program asks for an extension that has no value.
    pub(crate) needs_no_value: bool,
    /// The entries of the program that are hits.
    pub(crate) watched: Watched<A>,
    pub(crate) capture: Option<Capture<A>>,
    pub(crate) breakpoints: Breakpoints<A>,
    pub(crate) cursor: Cursor,
    /// The entries of the place's packet up to its step.
    pub(crate) trail: T,
}

impl<T: Trail, A: Allocator> Model for Session<T, A> {
    ghost use Rattle.cbpf_dbg.specs.Session.{Fits, IsKnown};
    ghost use Rattle.cbpf_dbg.specs.View.{View};

    ghost Value = { View };

    ghost view = { λ s. record {
      program = s.program;
      values = s.values;
      capture = s.capture;
      breakpoints = s.breakpoints.entries;
      origin = s.cursor.origin;
      place = s.cursor.place;
    } };

    ghost invariant = { λ s. Fits (λ xs. T.stands_for s.trail xs) s.program s.values s.capture s.cursor
        × IsKnown s.needs_no_value s.watched s.program s.values s.breakpoints.entries };
}

impl<T: Trail, A: Allocator + Copy> Session<T, A> {
    /// A session with nothing loaded and nothing set. Its breakpoints will take their memory from this
    /// allocator.
    pub fn new(alloc: A, trail: T) -> Self
        ensures { result ≡ empty_view }
    {
        let mut trail = trail;
        trail.clear();
        Session {
            program: None,
            values: Values::new(),
            needs_no_value: false,
            watched: Watched::none(alloc),
            capture: None,
            breakpoints: IndexMap::new(alloc),
            cursor: Cursor::before(1, 0),
            trail,
        }
    }

    /// Sets a breakpoint at instruction `n` that stops each time: [`Session::breakpoint_when`] with
    /// [`When::Always`].
    ///
    /// # Errors
    ///
    /// `NoProgram`; `NoInstruction` where the program has no such instruction; `Memory`.
    pub fn breakpoint(&mut self, n: u64) -> Result<(), SessionFault>
        ensures reply { (result ≡ spec.reply_of (spec.breakpoint self.old n)) ⊎
            (result ≡ Err fault.Memory × IsOk (spec.breakpoint self.old n)) }
        ensures after { OnOk result (self.new ≡ spec.view_after self.old (spec.breakpoint self.old n)) }
        ensures refused { OnErr result (self.new ≡ self.old) }

        // A breakpoint that is set already takes no memory.
        ensures memory { result ≡ Err fault.Memory → lookup (nat_eq n) self.old.breakpoints ≡ None }
    {
        self.breakpoint_when(n, When::Always)
    }

    /// Sets a breakpoint at instruction `n` with a condition, last in the list; one that is set keeps
    /// its place and takes the condition.
    ///
    /// # Errors
    ///
    /// `NoProgram`; `NoInstruction` where the program has no such instruction; `Memory`.
    pub fn breakpoint_when(&mut self, n: u64, when: When) -> Result<(), SessionFault>
        ensures reply { (result ≡ spec.reply_of (spec.breakpoint_when self.old n when)) ⊎
            (result ≡ Err fault.Memory × IsOk (spec.breakpoint_when self.old n when)) }
        ensures after { OnOk result (self.new ≡ spec.view_after self.old (spec.breakpoint_when self.old n when)) }
        ensures refused { OnErr result (self.new ≡ self.old) }

        // A breakpoint that is set already takes no memory.
        ensures memory { result ≡ Err fault.Memory → lookup (nat_eq n) self.old.breakpoints ≡ None }
    {
        let Some(program) = &self.program else {
            return Err(SessionFault::NoProgram);
        };
        if n >= u64::from(program.len()) {
            return Err(SessionFault::NoInstruction);
        }
        let Ok(()) = make_room(&mut self.watched, program, &mut self.breakpoints, n as u32) else {
            return Err(SessionFault::Memory);
        };
        match self.breakpoints.insert(n as u32, when) {
            Ok(_) => {
                watch_at(
                    &mut self.watched,
                    program,
                    &self.values,
                    &self.breakpoints,
                    n as u32,
                );
                Ok(())
            }
            Err(_) => unreachable!(),
        }
    }
}

impl<T: Trail, A: Allocator> Session<T, A> {
    /// Takes a program, and goes to the start with no breakpoints. The values stay.
    pub fn load_program(&mut self, p: Program<A>)
        ensures { self.new ≡ spec.with_program_loaded self.old p }
    {
        let _sound = p.len();
        self.breakpoints.clear();
        self.needs_no_value = needs_no_value(&p, &self.values);
        watch(&mut self.watched, &p, &self.values, &self.breakpoints);
        self.program = Some(p);
        let start = match &self.capture {
            Some(capture) => capture.start_of(1),
            None => 0,
        };
        self.cursor = Cursor::before(1, start);
        self.trail.clear();
    }

    /// Takes a capture, and goes to the start. The breakpoints and the values stay.
    pub fn load_capture(&mut self, c: Capture<A>)
        ensures { self.new ≡ spec.with_capture_loaded self.old c }
    {
        self.cursor = Cursor::before(1, c.start_of(1));
        self.capture = Some(c);
        self.trail.clear();
    }

    /// The program, where one is loaded.
    pub fn program(&self) -> Option<&Program<A>>
        ensures { option_map (λ p. p.now) result ≡ self.now.program }
    {
        self.program.as_ref()
    }

    /// The capture, where one is loaded.
    pub fn capture(&self) -> Option<&Capture<A>>
        ensures { option_map (λ c. c.now) result ≡ self.now.capture }
    {
        self.capture.as_ref()
    }

    /// Takes the breakpoint at instruction `n` out, and reports whether it was set. The others
    /// keep their order.
    ///
    /// # Errors
    ///
    /// `NoProgram`; `NoInstruction` where the program has no such instruction.
    pub fn delete(&mut self, n: u64) -> Result<bool, SessionFault>
        ensures reply { result ≡ spec.reply_of (spec.delete self.old n) }
        ensures after { self.new ≡ spec.view_after self.old (spec.delete self.old n) }
    {
        let Some(program) = &self.program else {
            return Err(SessionFault::NoProgram);
        };
        if u64::from(program.len()) <= n {
            return Err(SessionFault::NoInstruction);
        }
        let was_set = self.breakpoints.shift_remove(&(n as u32)).is_some();
        watch_at(
            &mut self.watched,
            program,
            &self.values,
            &self.breakpoints,
            n as u32,
        );
        Ok(was_set)
    }

    /// Takes all breakpoints out.
    pub fn reset_breakpoints(&mut self)
        ensures { self.new ≡ spec.without_breakpoints self.old }
    {
        let breakpoints = &mut self.breakpoints;
        breakpoints.clear();
        if let Some(program) = &self.program {
            watch(&mut self.watched, program, &self.values, breakpoints);
        }
    }

    /// The value of an extension, where it has one.
    pub fn value_of(&self, e: Ext) -> Option<u32>
        ensures { result ≡ value_of self.now.values e }
    {
        self.values.value_of(e)
    }

    /// Gives an extension a value, with which loads of it go on, and goes before the place's packet,
    /// from which it then counts.
    ///
    /// # Errors
    ///
    /// `TakesNoValue` for an extension that takes none, as [`Values::set`] names them.
    pub fn set_value(&mut self, e: Ext, n: u32) -> Result<(), SessionFault>
        ensures reply { result ≡ spec.reply_of (spec.set_value self.old e n) }
        ensures after { self.new ≡ spec.view_after self.old (spec.set_value self.old e n) }
    {
        if !self.values.set(e, n) {
            return Err(SessionFault::TakesNoValue);
        }
        if let Some(program) = &self.program {
            self.needs_no_value = needs_no_value(program, &self.values);
            watch(&mut self.watched, program, &self.values, &self.breakpoints);
        }
        self.cursor = Cursor::before(self.cursor.place.packet, self.cursor.start);
        self.trail.clear();
        Ok(())
    }

    /// The place; where no program or no capture is loaded, it is before the first packet.
    pub fn place(&self) -> Place
        ensures { result ≡ self.now.place }
    {
        self.cursor.place
    }

    /// The trail, which stands for the entries of the place's packet up to the place.
    pub fn trail(&self) -> &T
        ensures { KeepsEntries (λ xs. T.stands_for result.now xs) self.now }
    {
        &self.trail
    }

    /// How many breakpoints are set.
    pub fn breakpoint_count(&self) -> usize
        ensures { result ≡ length self.now.breakpoints }
    {
        self.breakpoints.len()
    }

    /// The instruction of the breakpoint at index `i` of the list, from 0, in order of setting.
    pub fn breakpoint_at(&self, i: usize) -> Option<u32>
        ensures { result ≡ option_map (λ b. b.0) (slice_get self.now.breakpoints i) }
    {
        let (n, _) = self.breakpoints.get_index(i)?;
        Some(*n)
    }

    /// The condition of the breakpoint at index `i` of the list.
    pub fn breakpoint_when_at(&self, i: usize) -> Option<When>
        ensures { result ≡ option_map (λ b. b.1) (slice_get self.now.breakpoints i) }
    {
        let (_, when) = self.breakpoints.get_index(i)?;
        Some(*when)
    }
}
