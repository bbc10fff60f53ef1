//! A debugger's session over a station.
ghost use Rattle.std.specs.Prelude.{◌≡◌, ◌<◌, ◌≤◌, ◌&&◌, ◌++◌, [], IfErr, IfOk, IfSome, None, Ok, OnErr, OnOk, Some, codes, false, length, not, true};
ghost use Rattle.ds_packets.specs.Framing.{frame};
ghost use Rattle.ds_refinement.specs.Real.{RealPath};
ghost use Rattle.ds_refinement.specs.Inner.Runs.{RunsWithin};
ghost use Rattle.ds_station.specs.Inner.Faults.{IsNewFault};
ghost use Rattle.ds_station.specs.Headline.{Refuses};
ghost use Rattle.ds_pagemap.specs.Machine.{State};
ghost use Rattle.ds_refinement.specs.Stands.{Stands};
ghost use Rattle.ds_debug.specs.Answering.{Answers, AnswersPacket, after_plain, course_by, plain_text};
ghost use Rattle.ds_debug.specs.Inner.Answering.{TellsOf, goes_back, is_back};
ghost use Rattle.ds_debug.specs.Answers.{answer_text, run_report_text};
ghost use Rattle.ds_debug.specs.Backward.{ComesBack, FindsIn, Returns, ReturnsBy, process_going_back, looked_until};
ghost use Rattle.ds_debug.specs.Forward.{GoesForward};
ghost use Rattle.ds_debug.specs.Inner.Forward.{IsShort};
ghost use Rattle.ds_debug.specs.Goals.{goal_with};
ghost use Rattle.ds_debug.specs.Inputs.{IsBeginning, first_state_of};
ghost use Rattle.ds_debug.specs.Inner.Inputs.{IsReached, inputs_seen};
ghost use Rattle.ds_gdb.specs.Outputs.{outputs_text};
ghost use Rattle.ds_debug.specs.Resumes.{Resumes, bound_of, came_process, came_reason, goal_of, may_go};
ghost use Rattle.ds_debug.specs.Sessions.{after_setting, begun, named_or, setting_text, sight_of, told_first, watch_of};
ghost use Rattle.ds_debug.specs.Inner.Sessions.{IsStill};
ghost use Rattle.ds_gdb.specs.Stops.{stop_text};
ghost use Rattle.ds_debug.specs.Times.{still_asked};

use crate::actions::actions_by;
use crate::backward::{back_process, back_reason, back_time};
use crate::exits::exits_next;
use crate::forward::go;
use crate::goals::Stop;
use crate::grown::{lengths_of, push_grown};
use crate::inputs::Inputs;
use crate::look::{are_there, push_answer, push_report};
use crate::past::Past;
use crate::places::{Place, Sought, sought_by};
use crate::reports::is_going;
use crate::times::{asked_place, bound_by, earlier, still_asked};
use ds_gdb::{Breakpoints, Reason, Target, Watchpoint, Watchpoints, push_refusal, push_stop};
use ds_packets::{Action, Packet, Report, Who, push_frame};
use ds_station::{Fault, Station};
use ds_tlb::Indexed;
use std::alloc::{AllocError, Global};
use std::marker::Model;

/// A session of a debugger over a station, which stands between two turns of a run.
#[derive(Drop)]
pub struct Session<'a> {
    /// What the run begins with, up to which time it goes, and stations of it.
    past: Past<'a>,
    station: Station<Indexed<64, 8>>,
    /// The process whose registers and memory are looked at.
    process: u32,
    /// Who goes where nobody is named.
    going: Who,
    breakpoints: Breakpoints,
    watchpoints: Watchpoints,
    /// A time at which the run is to stop once, in ticks.
    stop_at: Option<u64>,
    /// Whether the run was cut short.
    cut: bool,
}

impl<'a> Model for Session<'a> {
    ghost use Rattle.ds_debug.specs.Sessions.{SessionState};
    ghost use Rattle.ds_debug.specs.Inner.Sessions.{IsSession};

    ghost Value = { SessionState };

    ghost view = { λ s. record {
      inputs = s.past.inputs;
      held = s.station.held;
      limit = s.past.limit;
      process = s.process;
      going = s.going;
      breakpoints = s.breakpoints;
      watchpoints = s.watchpoints;
      stop_at = s.stop_at;
      cut = s.cut;
    } };

    ghost invariant = { λ s. IsSession (record {
      inputs = s.past.inputs;
      held = s.station.held;
      limit = s.past.limit;
      process = s.process;
      going = s.going;
      breakpoints = s.breakpoints;
      watchpoints = s.watchpoints;
      stop_at = s.stop_at;
      cut = s.cut;
    }) };
}

/// The process that is named, or else this one.
fn named_or(who: Who, process: u32) -> u32
    ensures { result ≡ named_or who process }
{
    match who {
        Who::Any | Who::All => process,
        Who::Process(named) => named,
    }
}

/// Where a packet lets a session go.
#[derive(Clone, Copy, Debug, PartialEq, Eq)]
pub(crate) enum Course {
    /// Nowhere.
    Nowhere,
    /// Forward, by one action, or by the words of the packet's data.
    Forward(Option<Action>),
    /// Backward, by an action.
    Backward(Action),
}

/// Where a packet lets a session go.
fn course_by(packet: Packet) -> Course
    ensures { result ≡ course_by packet }
{
    match packet {
        Packet::Resume => Course::Forward(None),
        Packet::Forward(action) => Course::Forward(Some(action)),
        Packet::Backward(action) => Course::Backward(action),
        _ => Course::Nowhere,
    }
}

impl<'a> Session<'a> {
    /// A session at the beginning of a run of these inputs for `limit` ticks. It looks at process 1, and
    /// all processes go. What is refused is refused as by `prepare` of `ds_station`.
    pub fn new(alloc: Global, inputs: Inputs<'a>, limit: u64) -> Result<Session<'a>, Fault>
        ensures begun { IfOk result (λ s. s ≡ begun (inputs_seen inputs.entry) limit s.held) }
        ensures begins { IfOk result
            (λ s. IsBeginning (inputs_seen inputs.entry) limit s.held) }
        ensures err { IfErr result (λ f. Refuses f (first_state_of (inputs_seen inputs.entry) limit)) }
    {
        let past = match Past::new(alloc, inputs, limit) {
            Ok(past) => past,
            Err(refused) => return Err(refused),
        };
        let station = match past.beginning() {
            Ok(station) => station,
            Err(fault) => return Err(fault),
        };
        Ok(Session {
            past,
            station,
            process: 1,
            going: Who::All,
            breakpoints: Breakpoints::new(),
            watchpoints: Watchpoints::new(),
            stop_at: None,
            cut: false,
        })
    }

    /// Whether the session can go on: its run was not cut short. Then it stands where a run of its inputs
    /// comes to, whatever it was asked before.
    pub fn can_go_on(&self) -> bool
        ensures value { result ≡ not self.now.cut }
        ensures reached { result ≡ true
            → IsReached self.now.inputs self.now.limit self.now.held }
    {
        !self.cut
    }

    /// Whose registers and memory are looked at from now on.
    fn look_at(&mut self, who: Who) -> &'static [u8]
        ensures changed { self.new ≡ after_setting self.old (Packet.Look who) }
        ensures text { result.now ≡ setting_text (sight_of self.old) self.old (Packet.Look who) }
        ensures still { IsStill self.old self.new }
    {
        let _few = self.station.processes();
        if are_there(&self.station, who) {
            self.process = named_or(who, self.process);
            b"OK"
        } else {
            b"E03"
        }
    }

    /// Who goes from now on.
    fn let_go(&mut self, who: Who) -> &'static [u8]
        ensures changed { self.new ≡ after_setting self.old (Packet.Go who) }
        ensures text { result.now ≡ setting_text (sight_of self.old) self.old (Packet.Go who) }
        ensures still { IsStill self.old self.new }
    {
        let _few = self.station.processes();
        if are_there(&self.station, who) {
            self.going = who;
            b"OK"
        } else {
            b"E03"
        }
    }

    /// The watch of so many bytes of the process that is looked at.
    fn watch_of(&self, address: u32, length: u32) -> Watchpoint
        ensures { result ≡ watch_of self.now address length }
    {
        Watchpoint {
            process: self.process,
            address,
            length,
        }
    }

    /// Changes what is looked at, or what stops, as a packet asks for.
    fn set(&mut self, packet: Packet) -> &'static [u8]
        ensures changed { self.new ≡ after_setting self.old packet }
        ensures text { result.now ≡ setting_text (sight_of self.old) self.old packet }
        ensures still { IsStill self.old self.new }
    {
        match packet {
            Packet::Look(who) => self.look_at(who),
            Packet::Go(who) => self.let_go(who),
            Packet::Break(address) => self.breakpoints.set(self.process, address),
            Packet::Unbreak(address) => {
                self.breakpoints.remove(self.process, address);
                b"OK"
            }
            Packet::Watch { address, length } => {
                let watchpoint = self.watch_of(address, length);
                self.watchpoints.set(watchpoint)
            }
            Packet::Unwatch { address, length } => {
                let watchpoint = self.watch_of(address, length);
                self.watchpoints.remove(watchpoint);
                b"OK"
            }
            Packet::StopAt(time) => {
                self.stop_at = Some(time);
                b"OK"
            }
            _ => b"OK",
        }
    }

    /// The process that is told of first: the one that runs, or the first that has not ended, or else
    /// the one that is looked at.
    fn told_first(&self) -> u32
        ensures value { result ≡ told_first (sight_of self.now) self.now.process }
        ensures small { result < 256 }
    {
        let _few = self.station.processes();
        match self.station.runner() {
            Some(runner) => runner,
            None => match self.station.first_unended() {
                Some(unended) => unended.process,
                None => self.process,
            },
        }
    }

    /// Tells of the process that is told of first, which is looked at from now on.
    fn answer_why(&mut self, alloc: Global, out: &mut Vec<u8>) -> Result<(), AllocError>
        ensures changed { self.new ≡ record self.old {
          process = told_first (sight_of self.old) self.old.process;
        } }
        ensures told { OnOk result (out.new.items ≡ out.old.items
            ++ frame (stop_text (told_first (sight_of self.old) self.old.process) Reason.Rest)) }
        ensures still { IsStill self.old self.new }
    {
        self.process = self.told_first();
        self.push_stands(alloc, out, Reason::Rest)
    }

    /// Answers a packet that only looks, or is none that is known.
    fn answer_look(
        &self,
        alloc: Global,
        packet: Packet,
        out: &mut Vec<u8>,
    ) -> Result<(), AllocError>
        ensures { OnOk result (out.new.items ≡ out.old.items
            ++ frame (answer_text (sight_of self.now) self.now.process packet)) }
    {
        let mut text = Vec::new(alloc);
        push_answer(alloc, &mut text, &self.station, self.process, packet)?;
        push_frame(out, text.as_slice())
    }

    /// Shows what `monitor` asks for.
    fn answer_monitor(
        &self,
        alloc: Global,
        report: Report,
        out: &mut Vec<u8>,
    ) -> Result<(), AllocError>
        ensures { OnOk result (out.new.items ≡ out.old.items
            ++ (outputs_text (run_report_text self.now.limit (sight_of self.now) report)
            ++ frame (codes "OK"))) }
    {
        push_report(alloc, out, &self.station, self.past.limit(), report)?;
        push_frame(out, b"OK")
    }

    /// Goes on with the run, where it was not cut short, by how far each process is to go.
    fn run_on(&mut self, alloc: Global, actions: &[Option<Action>]) -> Result<Option<Stop>, Fault>
        requires { self.old.cut ≡ false }
        ensures goes { IfOk result (λ stop. GoesForward
            (goal_with actions.now self.old.breakpoints self.old.watchpoints)
            (bound_of self.old) stop self.old.held self.new.held) }
        ensures small { IfOk result (λ stop. IfSome stop (λ s. s.process ≤ 100)) }
        ensures rest { OnOk result (self.new ≡ record self.old { held = self.new.held }) }
        ensures err { OnErr result
            (self.new ≡ record self.old { held = self.new.held; cut = true }) }
        ensures within { RunsWithin self.old.limit self.old.held self.new.held }
        ensures real { OnOk result (RealPath self.old.held self.new.held) }
        ensures faults { IfErr result IsNewFault }
        ensures short { IfErr result (λ f. IsShort f self.old.held self.new.held) }
    {
        let limit = self.past.limit();
        let until = bound_by(self.stop_at, self.station.time(), limit);
        match go(
            alloc,
            &mut self.past,
            &mut self.station,
            until,
            actions,
            self.breakpoints.as_slice(),
            self.watchpoints.as_slice(),
        ) {
            Ok(came) => Ok(came),
            Err(fault) => {
                self.cut = true;
                Err(fault)
            }
        }
    }

    /// Looks at the process of which it is told where it came, and answers why it stands.
    fn come_to(&mut self, came: Option<Stop>) -> Reason
        requires { IfSome came (λ s. s.process ≤ 100) }
        ensures new { self.new ≡ record self.old { process = came_process came self.old.process } }
        ensures reason { result
            ≡ came_reason (may_go self.old.limit self.old.held) came }
    {
        let going = is_going(&self.station, self.past.limit()) && !exits_next(&self.station);
        match came {
            Some(stop) => {
                self.process = stop.process;
                stop.reason
            }
            None if going => Reason::Rest,
            None => Reason::End,
        }
    }

    /// Asks no more for a time that was passed on the way from another time.
    fn drop_time(&mut self, began: u64)
        ensures { self.new ≡ record self.old {
          stop_at = still_asked self.old.stop_at began self.old.held.kept.state.time;
        } }
    {
        self.stop_at = still_asked(self.stop_at, began, self.station.time());
    }

    /// Tells that the process that is looked at stands, and why.
    fn push_stands(
        &self,
        alloc: Global,
        out: &mut Vec<u8>,
        reason: Reason,
    ) -> Result<(), AllocError>
        ensures { OnOk result (out.new.items ≡ out.old.items
            ++ frame (stop_text self.now.process reason)) }
    {
        let mut text = Vec::new(alloc);
        push_stop(&mut text, self.process, reason)?;
        push_frame(out, text.as_slice())
    }

    /// Goes on with the run, by one action for those that go, or by the words of a `vCont`.
    fn resume(
        &mut self,
        alloc: Global,
        action: Option<Action>,
        words: &[u8],
        out: &mut Vec<u8>,
    ) -> Result<(), Fault>
        ensures resumes { OnOk result (Resumes action words.now self.old self.new
            out.old.items out.new.items) }
        ensures faults { self.old.cut ≡ false → IfErr result IsNewFault }
        ensures uncut { OnOk result (self.new.cut ≡ self.old.cut) }
        ensures within { RunsWithin self.old.limit self.old.held self.new.held }
        ensures real { OnOk result (RealPath self.old.held self.new.held) }
        ensures limit { self.new.limit ≡ self.old.limit }
        ensures inputs { self.new.inputs ≡ self.old.inputs }
    {
        if self.cut {
            return Err(Fault::Failed);
        }
        let before = lengths_of(&self.station);
        let began = self.station.time();
        let actions = actions_by(alloc, action, self.going, words)?;
        let came = match self.run_on(alloc, actions.as_slice()) {
            Ok(came) => came,
            Err(fault) => return Err(fault),
        };
        let reason = self.come_to(came);
        self.drop_time(began);
        push_grown(alloc, out, &self.station, before)?;
        self.push_stands(alloc, out, reason)?;
        Ok(())
    }

    /// Looks through the run, up to now, for the last place of what is sought.
    fn seek(&self, alloc: Global, sought: Sought) -> Result<Option<Place>, Fault>
        ensures finds { IfOk result (λ place. FindsIn self.now.inputs self.now.limit sought
            (goal_of (Some Action.Continue) [] self.now) (looked_until self.now) place) }
        ensures small { IfOk result (λ place. IfSome place (λ p. p.stop.process ≤ 100)) }
        ensures early { IfOk result
            (λ place. IfSome place (λ p. p.time ≤ looked_until self.now)) }
        ensures faults { IfErr result IsNewFault }
    {
        let until = earlier(self.station.time(), self.past.limit());
        let actions = actions_by(alloc, Some(Action::Continue), self.going, &[])?;
        self.past.seek(
            alloc,
            until,
            sought,
            actions.as_slice(),
            self.breakpoints.as_slice(),
            self.watchpoints.as_slice(),
        )
    }

    /// Comes to a time of the run; without one, the session stays where it is.
    fn go_back_to(&mut self, time: Option<u64>) -> Result<(), Fault>
        requires going { self.old.cut ≡ false }
        requires early { IfSome time (λ t. t ≤ self.old.limit) }
        ensures comes { OnOk result (ComesBack self.old.inputs self.old.limit self.old.held time
            self.new.held) }
        ensures rest { OnOk result (self.new ≡ record self.old { held = self.new.held }) }
        ensures err { OnErr result (self.new ≡ self.old) }
        ensures faults { IfErr result IsNewFault }
    {
        let _limit = self.past.limit();
        match time {
            Some(time) => match self.past.at(time) {
                Ok(station) => {
                    self.station = station;
                    Ok(())
                }
                Err(fault) => Err(fault),
            },
            None => Ok(()),
        }
    }

    /// Keeps stations of the run on the way to now.
    fn approach(&mut self)
        ensures { self.new ≡ self.old }
    {
        let until = earlier(self.station.time(), self.past.limit());
        self.past.approach(until);
    }

    /// Looks at a process from now on.
    fn stand_at(&mut self, process: u32)
        requires { process < 256 }
        ensures { self.new ≡ record self.old { process = process } }
    {
        self.process = process;
    }

    /// The process that goes back: the one that is named to go, or else the one that is looked at.
    fn process_going_back(&self) -> u32
        ensures value { result ≡ process_going_back self.now }
        ensures small { result < 256 }
    {
        named_or(self.going, self.process)
    }

    /// Goes back to the last place of what is sought, and tells of it; without a place, of the process.
    fn return_by(
        &mut self,
        alloc: Global,
        sought: Sought,
        process: u32,
        out: &mut Vec<u8>,
    ) -> Result<(), Fault>
        requires going { self.old.cut ≡ false }
        requires small { process < 256 }
        ensures returns { OnOk result (ReturnsBy sought process self.old self.new
            out.old.items out.new.items) }
        ensures faults { IfErr result IsNewFault }
        ensures uncut { OnOk result (self.new.cut ≡ self.old.cut) }
        ensures limit { self.new.limit ≡ self.old.limit }
        ensures inputs { self.new.inputs ≡ self.old.inputs }
    {
        let time = self.station.time();
        let until = earlier(time, self.past.limit());
        let found = match self.seek(alloc, sought) {
            Ok(found) => found,
            Err(fault) => return Err(fault),
        };
        let place = asked_place(sought, self.stop_at, until, process, found);
        match self.go_back_to(back_time(sought, place)) {
            Ok(()) => {}
            Err(fault) => return Err(fault),
        }
        self.stand_at(back_process(process, place));
        self.drop_time(time);
        self.push_stands(alloc, out, back_reason(sought, time, place))?;
        Ok(())
    }

    /// Goes back, for the processes that go: a step to the last turn of one, and else to the last place
    /// at which something stops.
    fn go_back(&mut self, alloc: Global, action: Action, out: &mut Vec<u8>) -> Result<(), Fault>
        ensures returns { OnOk result (Returns action self.old self.new
            out.old.items out.new.items) }
        ensures faults { self.old.cut ≡ false → IfErr result IsNewFault }
        ensures uncut { OnOk result (self.new.cut ≡ self.old.cut) }
        ensures limit { self.new.limit ≡ self.old.limit }
        ensures inputs { self.new.inputs ≡ self.old.inputs }
    {
        if self.cut {
            return Err(Fault::Failed);
        }
        self.approach();
        let process = self.process_going_back();
        self.return_by(alloc, sought_by(action, process), process, out)
    }

    /// Answers a packet that lets the session go nowhere.
    fn answer_plain(
        &mut self,
        alloc: Global,
        packet: Packet,
        out: &mut Vec<u8>,
    ) -> Result<(), AllocError>
        ensures changed { OnOk result (self.new ≡ after_plain self.old packet) }
        ensures told { OnOk result (out.new.items ≡ out.old.items
            ++ plain_text (sight_of self.old) self.old packet) }
        ensures still { IsStill self.old self.new }
    {
        match packet {
            Packet::Why => self.answer_why(alloc, out),
            Packet::Monitor(report) => self.answer_monitor(alloc, report, out),
            Packet::NoAcknowledgements => push_frame(out, b"OK"),
            Packet::Look(_)
            | Packet::Go(_)
            | Packet::Break(_)
            | Packet::Unbreak(_)
            | Packet::Watch { .. }
            | Packet::Unwatch { .. }
            | Packet::StopAt(_) => push_frame(out, self.set(packet)),
            Packet::End => Ok(()),
            _ => self.answer_look(alloc, packet, out),
        }
    }

    /// Answers a packet, whose data has these words, and whether the session goes on.
    fn answer_packet(
        &mut self,
        alloc: Global,
        packet: Packet,
        words: &[u8],
        out: &mut Vec<u8>,
    ) -> Result<(), Fault>
        ensures answers { OnOk result (AnswersPacket words.now packet self.old self.new
            out.old.items out.new.items) }
        ensures faults { self.old.cut ≡ false → IfErr result IsNewFault }
        ensures uncut { OnOk result (self.new.cut ≡ self.old.cut) }
        ensures within { is_back (course_by packet) ≡ false
            → RunsWithin self.old.limit self.old.held self.new.held }
        ensures real { is_back (course_by packet) ≡ false
            → OnOk result (RealPath self.old.held self.new.held) }
        ensures limit { self.new.limit ≡ self.old.limit }
        ensures inputs { self.new.inputs ≡ self.old.inputs }
    {
        match course_by(packet) {
            Course::Forward(action) => self.resume(alloc, action, words, out),
            Course::Backward(action) => self.go_back(alloc, action, out),
            Course::Nowhere => {
                self.answer_plain(alloc, packet, out)?;
                Ok(())
            }
        }
    }

    /// Answers the data of a packet. It goes on with the run where the packet asks for that, or back by a
    /// run anew, and what is answered is always of a state to which a run of its inputs comes. Where
    /// memory runs out the answer is not whole; a run that was cut short answers `Failed` from then on.
    pub fn answer(&mut self, alloc: Global, words: &[u8], out: &mut Vec<u8>) -> Result<(), Fault>
        ensures answers { OnOk result (Answers words.now self.old self.new
            out.old.items out.new.items) }
        ensures faults { self.old.cut ≡ false → IfErr result IsNewFault }
        ensures uncut { OnOk result (self.new.cut ≡ self.old.cut) }
        ensures looks { self.old.cut ≡ false → (m : State) → Stands self.old.held m
            → OnOk result (TellsOf words.now m self.old out.old.items out.new.items) }
        ensures within { goes_back words.now ≡ false
            → RunsWithin self.old.limit self.old.held self.new.held }
        ensures real { goes_back words.now ≡ false
            → OnOk result (RealPath self.old.held self.new.held) }
        ensures limit { self.new.limit ≡ self.old.limit }
        ensures inputs { self.new.inputs ≡ self.old.inputs }
    {
        let _cut = self.cut;
        match Packet::of(words) {
            Ok(packet) => self.answer_packet(alloc, packet, words, out),
            Err(refusal) => {
                push_refusal(out, refusal)?;
                Ok(())
            }
        }
    }
}

impl<'a> Target for Session<'a> {
    ghost use Rattle.ds_debug.specs.Serving.{Replies};

    ghost answers = { Replies };

    fn reply(&mut self, alloc: Global, words: &[u8], out: &mut Vec<u8>) -> Result<(), AllocError> {
        match self.answer(alloc, words, out) {
            Ok(()) => Ok(()),
            Err(_) => Err(AllocError),
        }
    }
}
