//! A debugger's session over the bare machine.
ghost use Rattle.std.specs.Prelude.{◌≡◌, ◌++◌, IfErr, IfOk, Ok, OnOk, length, true};
ghost use Rattle.ds_packets.specs.Framing.{frame};
ghost use Rattle.ds_bare.specs.Faults.{is_cut, may_start};
ghost use Rattle.ds_gdb.specs.Outputs.{outputs_text};
ghost use Rattle.ds_gdb.specs.Stops.{stop_text};
ghost use Rattle.ds_bare_debug.specs.Looks.{sent_after};
ghost use Rattle.ds_bare_debug.specs.Sessions.{after_data, after_packet, with_setting, came_back, session_begun, arrival_text, course_asked, data_text, forward_of, look_text, moved, packet_text, bare_answer_text, bare_setting_text, still_to_stop, watch_at};
ghost use Rattle.ds_bare_debug.specs.Runs.{run_seen};

use crate::back::{place_before, runner_at};
use crate::forward::go;
use crate::goals::{Goal, is_asked};
use crate::looks::{here_text, push_current, push_info};
use crate::memory::push_memory;
use crate::registers::{push_register, push_registers};
use crate::reports::{push_report, push_sent_after, push_unknown};
use crate::runner::{BareRun, Runner};
use ds_bare::BareFault;
use ds_gdb::{
    Breakpoints, Reason, Target, Watchpoint, Watchpoints, push_description, push_features,
    push_outputs, push_refusal, push_stop, push_threads,
};
use ds_packets::{Action, Packet, Refusal, action_for, push_frame};
use std::alloc::{AllocError, Global};
use std::marker::Model;

/// A session of a debugger over a run of the bare machine, which stands between two instructions.
#[derive(Drop)]
pub(crate) struct Session<'a> {
    run: BareRun<'a>,
    runner: Runner<'a>,
    breakpoints: Breakpoints,
    watchpoints: Watchpoints,
    /// After how many instructions the run is to stop once.
    stop_at: Option<u64>,
}

impl<'a> Model for Session<'a> {
    ghost use Rattle.ds_bare_debug.specs.Runs.{run_seen};
    ghost use Rattle.ds_bare_debug.specs.Sessions.{BareSession};

    ghost Value = { BareSession };

    ghost view = { λ s. record {
      run = run_seen s.run;
      position = s.runner;
      breakpoints = s.breakpoints;
      watchpoints = s.watchpoints;
      stop_at = s.stop_at;
    } };
}

/// Where a packet lets a session go.
#[derive(Clone, Copy, Debug, PartialEq, Eq)]
pub(crate) enum Course {
    /// Nowhere.
    Nowhere,
    /// Forward.
    Forward(Action),
    /// Back.
    Back(Action),
}

/// Where a packet, whose data has these words, lets a session go. A `vCont` that names another process
/// lets it go as far as something stops.
fn course_asked(packet: Packet, words: &[u8]) -> Course
    ensures { result ≡ course_asked packet words.now }
{
    match packet {
        Packet::Resume => Course::Forward(action_for(words, 1).unwrap_or(Action::Continue)),
        Packet::Forward(action) => Course::Forward(action),
        Packet::Backward(action) => Course::Back(action),
        _ => Course::Nowhere,
    }
}

/// So many bytes from an address on.
fn watch_at(address: u32, length: u32) -> Watchpoint
    ensures { result ≡ watch_at address length }
{
    Watchpoint {
        process: 1,
        address,
        length,
    }
}

/// What is still asked for, where a run has come to so many instructions.
fn still_to_stop(stop_at: Option<u64>, done: u64) -> Option<u64>
    ensures { result ≡ still_to_stop stop_at done }
{
    if is_asked(stop_at, done) {
        None
    } else {
        stop_at
    }
}

impl<'a> Session<'a> {
    /// A session at the beginning of a run.
    pub(crate) fn new(alloc: Global, run: BareRun<'a>) -> Result<Session<'a>, BareFault>
        ensures begun { IfOk result (λ s. s ≡ session_begun (run_seen run.entry)) }
        ensures started { OnOk result (may_start run.entry.random ≡ true) }
        ensures refused { IfErr result (λ f. is_cut f ≡ may_start run.entry.random) }
    {
        let runner = Runner::new(alloc, run)?;
        Ok(Session {
            run,
            runner,
            breakpoints: Breakpoints::new(),
            watchpoints: Watchpoints::new(),
            stop_at: None,
        })
    }

    /// Changes what stops, as a packet asks for, and answers what gdb is told.
    fn set(&mut self, packet: Packet) -> &'static [u8]
        ensures changed { self.new ≡ with_setting packet self.old }
        ensures text { result.now ≡ bare_setting_text packet self.old }
    {
        match packet {
            Packet::Break(address) => self.breakpoints.set(1, address),
            Packet::Unbreak(address) => {
                self.breakpoints.remove(1, address);
                b"OK"
            }
            Packet::Watch { address, length } => self.watchpoints.set(watch_at(address, length)),
            Packet::Unwatch { address, length } => {
                self.watchpoints.remove(watch_at(address, length));
                b"OK"
            }
            Packet::StopAt(time) => {
                self.stop_at = Some(time);
                b"OK"
            }
            _ => b"OK",
        }
    }

    /// Adds what is answered to a packet that only looks.
    fn push_look(&self, alloc: Global, text: &mut Vec<u8>, packet: Packet) -> Result<(), AllocError>
        ensures { OnOk result (text.new.items ≡ text.old.items ++ look_text packet self.now) }
    {
        let machine = self.runner.machine();
        match packet {
            Packet::Supported { multiprocess } => push_features(text, multiprocess),
            Packet::Description { offset, length } => {
                push_description(alloc, text, offset, length)
            }
            Packet::Why => push_stop(text, 1, Reason::Rest),
            Packet::FirstThreads => push_threads(text, 1),
            Packet::MoreThreads => text.extend_from_slice(b"l"),
            Packet::ThreadInfo(who) => push_info(text, machine, who),
            Packet::Attached => text.extend_from_slice(b"1"),
            Packet::Current => push_current(text),
            Packet::Alive(who) | Packet::Look(who) | Packet::Go(who) => {
                text.extend_from_slice(here_text(who))
            }
            Packet::Registers => push_registers(text, machine),
            Packet::Register(number) => push_register(text, machine, number),
            Packet::Memory { address, length } => {
                push_memory(alloc, text, machine, address, length)
            }
            Packet::Write => text.extend_from_slice(b"E01"),
            Packet::Actions => text.extend_from_slice(b"vCont;c;C;s;S;r"),
            _ => Ok(()),
        }
    }

    /// Answers a packet that only looks.
    fn answer_look(
        &self,
        alloc: Global,
        packet: Packet,
        out: &mut Vec<u8>,
    ) -> Result<(), AllocError>
        ensures { OnOk result
            (out.new.items ≡ out.old.items ++ frame (look_text packet self.now)) }
    {
        let mut text = Vec::new(alloc);
        self.push_look(alloc, &mut text, packet)?;
        push_frame(out, text.as_slice())
    }

    /// Answers a packet that lets the session go nowhere.
    fn answer_plain(
        &mut self,
        alloc: Global,
        packet: Packet,
        out: &mut Vec<u8>,
    ) -> Result<(), AllocError>
        ensures changed { OnOk result (self.new ≡ with_setting packet self.old) }
        ensures told { OnOk result
            (out.new.items ≡ out.old.items ++ bare_answer_text packet self.old) }
    {
        match packet {
            Packet::Monitor(report) => {
                push_report(alloc, out, &self.runner, self.run.limit, report)
            }
            Packet::End => Ok(()),
            Packet::NoAcknowledgements
            | Packet::Leave
            | Packet::StopAt(_)
            | Packet::Break(_)
            | Packet::Unbreak(_)
            | Packet::Watch { .. }
            | Packet::Unwatch { .. } => push_frame(out, self.set(packet)),
            _ => self.answer_look(alloc, packet, out),
        }
    }

    /// Shows what was sent after so many characters, and tells why the run stands.
    fn push_came(
        &self,
        alloc: Global,
        out: &mut Vec<u8>,
        sent: usize,
        reason: Reason,
    ) -> Result<(), AllocError>
        ensures { OnOk result (out.new.items ≡ out.old.items
            ++ (outputs_text (sent_after sent self.now.position.machine)
            ++ frame (stop_text 1 reason))) }
    {
        let mut text = Vec::new(alloc);
        push_sent_after(&mut text, self.runner.machine(), sent)?;
        push_outputs(alloc, out, text.as_slice())?;
        text.clear();
        push_stop(&mut text, 1, reason)?;
        push_frame(out, text.as_slice())
    }

    /// Asks no more to stop after so many instructions, where the run has come there.
    fn drop_asked(&mut self)
        ensures { self.new ≡ record self.old {
          stop_at = still_to_stop self.old.stop_at self.old.position.done;
        } }
    {
        self.stop_at = still_to_stop(self.stop_at, self.runner.done());
    }

    /// Goes forward, and answers why the run stands where it came.
    fn move_forward(&mut self, alloc: Global, action: Action) -> Result<Reason, AllocError>
        ensures { IfOk result (λ reason. (self.new ≡ record self.old {
          position = (forward_of action self.old).position;
        }) × (reason ≡ (forward_of action self.old).reason)) }
    {
        let goal = Goal {
            action,
            breakpoints: self.breakpoints.as_slice(),
            watchpoints: self.watchpoints.as_slice(),
            stop_at: self.stop_at,
        };
        go(alloc, &mut self.runner, self.run.limit, goal)
    }

    /// Goes back, and answers why the run stands where it came.
    fn move_back(&mut self, alloc: Global, action: Action) -> Result<Reason, AllocError>
        ensures { IfOk result (λ reason. (self.new ≡ record self.old {
          position = (came_back action self.old).position;
        }) × (reason ≡ (came_back action self.old).reason)) }
    {
        let goal = Goal {
            action: Action::Continue,
            breakpoints: self.breakpoints.as_slice(),
            watchpoints: self.watchpoints.as_slice(),
            stop_at: self.stop_at,
        };
        let place = place_before(alloc, self.run, action, self.runner.done(), goal)?;
        let runner = runner_at(alloc, self.run, place.done)?;
        self.runner = runner;
        Ok(place.reason)
    }

    /// Goes forward, and tells where the run came.
    fn go_forward(
        &mut self,
        alloc: Global,
        action: Action,
        out: &mut Vec<u8>,
    ) -> Result<(), AllocError>
        ensures changed { OnOk result
            (self.new ≡ moved self.old (forward_of action self.old).position) }
        ensures told { OnOk result (out.new.items ≡ out.old.items
            ++ arrival_text self.old.position (forward_of action self.old)) }
    {
        let sent = self.runner.machine().sent().len();
        let reason = self.move_forward(alloc, action)?;
        self.drop_asked();
        self.push_came(alloc, out, sent, reason)
    }

    /// Goes back, and tells where the run came.
    fn go_back(
        &mut self,
        alloc: Global,
        action: Action,
        out: &mut Vec<u8>,
    ) -> Result<(), AllocError>
        ensures changed { OnOk result
            (self.new ≡ moved self.old (came_back action self.old).position) }
        ensures told { OnOk result (out.new.items ≡ out.old.items
            ++ arrival_text self.old.position (came_back action self.old)) }
    {
        let sent = self.runner.machine().sent().len();
        let reason = self.move_back(alloc, action)?;
        self.drop_asked();
        self.push_came(alloc, out, sent, reason)
    }

    /// Answers a packet, whose data has these words.
    fn answer_packet(
        &mut self,
        alloc: Global,
        packet: Packet,
        words: &[u8],
        out: &mut Vec<u8>,
    ) -> Result<(), AllocError>
        ensures changed { OnOk result (self.new ≡ after_packet (Ok packet) words.now self.old) }
        ensures told { OnOk result (out.new.items
            ≡ out.old.items ++ packet_text (Ok packet) words.now self.old) }
    {
        match course_asked(packet, words) {
            Course::Forward(action) => self.go_forward(alloc, action, out),
            Course::Back(action) => self.go_back(alloc, action, out),
            Course::Nowhere => self.answer_plain(alloc, packet, out),
        }
    }

    /// Answers the data of a packet.
    pub(crate) fn answer(
        &mut self,
        alloc: Global,
        words: &[u8],
        out: &mut Vec<u8>,
    ) -> Result<(), AllocError>
        ensures changed { OnOk result (self.new ≡ after_data words.now self.old) }
        ensures told { OnOk result
            (out.new.items ≡ out.old.items ++ data_text words.now self.old) }
    {
        match Packet::of(words) {
            Ok(packet) => self.answer_packet(alloc, packet, words, out),
            Err(Refusal::Unknown) => push_unknown(alloc, out, self.runner.machine(), words),
            Err(Refusal::Malformed) => push_refusal(out, Refusal::Malformed),
        }
    }
}

impl<'a> Target for Session<'a> {
    ghost use Rattle.ds_bare_debug.specs.Inner.Serving.{BareReplies};

    ghost answers = { BareReplies };

    fn reply(&mut self, alloc: Global, words: &[u8], out: &mut Vec<u8>) -> Result<(), AllocError> {
        self.answer(alloc, words, out)
    }
}
