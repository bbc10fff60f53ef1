//! What the lines of a file go on with.
ghost use Rattle.std.specs.Prelude.{◌≡◌};

use crate::parts::grants::answers::{answer, begun, called};
use crate::parts::grants::replay::Replay;
use crate::parts::machine::{
    arithmetic, buffer, bus, memory, programs, spaces, state, system, words,
};
use crate::parts::numbers::Numbers;
use crate::parts::programs::machine::Machine;
use crate::parts::told::Answer;
use crate::parts::verbs::{Asked, Verb};
use ds_asid::Asids;
use ds_tables::Tables;
use ds_tlb::Lookaside;
use std::alloc::Global;

/// A machine with page tables and the numbers of address spaces.
#[derive(Drop)]
struct WithTables<L: Lookaside> {
    machine: Machine<L>,
    tables: Tables,
    spaces: Asids,
}

/// A machine, and grants with a buffer.
#[derive(Drop)]
pub struct Stage<L: Lookaside> {
    parts: WithTables<L>,
    replay: Replay<L>,
}

impl<L: Lookaside> WithTables<L> {
    /// One with a machine, page tables of two processes, and no number handed out; none where there is no machine.
    fn of(machine: Option<Machine<L>>) -> Option<WithTables<L>> {
        Some(WithTables {
            machine: machine?,
            tables: Tables::new(2),
            spaces: Asids::new(),
        })
    }

    /// Begins with a new one.
    fn restart(&mut self, begun: Option<WithTables<L>>) -> Option<Answer> {
        *self = begun?;
        Some(Answer::said("ok"))
    }

    /// What the memory or its page tables answer to a step.
    fn of_memory(&mut self, step: memory::Step, numbers: &Numbers) -> Option<Answer> {
        let memory = self.machine.bus.memory();
        let number = memory::answer(memory, &mut self.tables, step, numbers)?;
        Some(Answer::hex(number))
    }
}

impl<L: Lookaside> Stage<L> {
    /// One with nothing on it; none where there is no memory for it.
    pub fn new(alloc: Global) -> Option<Stage<L>>
        requires slots { L.SLOTS ≡ 64 }
        requires wired { L.WIRED ≡ 8 }
    {
        let parts = WithTables::of(Machine::pageless(alloc))?;
        let replay = Replay::new(alloc, 0, 0, 0)?;
        Some(Stage { parts, replay })
    }

    /// What comes of what is asked; none where nothing is, where it can't be done, or where there is no memory
    /// for it.
    pub fn answer(&mut self, alloc: Global, asked: Option<&Asked<'_>>) -> Option<Answer>
        requires slots { L.SLOTS ≡ 64 }
        requires wired { L.WIRED ≡ 8 }
    {
        let asked = asked?;
        let (parts, replay) = (&mut self.parts, &mut self.replay);
        let numbers = &asked.numbers;
        match asked.verb {
            Verb::New => parts.restart(WithTables::of(Machine::pageless(alloc))),
            Verb::Paged => parts.restart(WithTables::of(Machine::blank(alloc))),
            Verb::Memory(step) => parts.of_memory(step, numbers),
            Verb::Space(step) => {
                let buffer = &mut parts.machine.core.tlb;
                spaces::answer(&mut parts.spaces, buffer, step, numbers)
            }
            Verb::Arithmetic(function) => arithmetic::answer(function, numbers),
            Verb::Words(question) => words::answer(alloc, question, numbers),
            Verb::Program(_) | Verb::System(_) | Verb::Bus(_) | Verb::Buffer(_) | Verb::State(_) =>
                { of_machine(&mut parts.machine, asked) }
            _ => of_grants(alloc, replay, asked),
        }
    }
}

/// The same, where it is asked of the machine.
fn of_machine<L: Lookaside>(machine: &mut Machine<L>, asked: &Asked<'_>) -> Option<Answer>
    requires slots { L.SLOTS ≡ 64 }
    requires wired { L.WIRED ≡ 8 }
{
    let (core, bus) = (&mut machine.core, &mut machine.bus);
    let numbers = &asked.numbers;
    match asked.verb {
        Verb::Program(question) => programs::answer::<L>(question, bus, numbers),
        Verb::System(step) => system::answer(&mut core.cp0, step, numbers),
        Verb::Bus(step) => bus::answer(bus, step, numbers),
        Verb::Buffer(step) => buffer::answer(&mut core.tlb, step, numbers),
        Verb::State(step) => state::answer(core, bus, step, numbers),
        _ => None,
    }
}

/// The same, where it is asked of the grants.
fn of_grants<L: Lookaside>(
    alloc: Global,
    replay: &mut Replay<L>,
    asked: &Asked<'_>,
) -> Option<Answer>
    requires slots { L.SLOTS ≡ 64 }
    requires wired { L.WIRED ≡ 8 }
{
    let numbers = &asked.numbers;
    let [processes, frames, named, ..] = numbers.all;
    match asked.verb {
        Verb::Start => begun(replay, Replay::new(alloc, processes, frames, named)),
        Verb::Begin => begun(replay, Replay::of_text(alloc, asked.operands)),
        Verb::Step(step) => answer(replay, step, numbers),
        Verb::Call(call) => called(alloc, replay, call, numbers),
        _ => None,
    }
}
