//! What a whole trace asks for.
ghost use Rattle.std.specs.Prelude.{◌≡◌, IsSome, OnOk};
ghost use Rattle.trace_lines.specs.Places.{IsAllowed};
ghost use Rattle.trace_race.specs.Courses.{Comes, IsSound, Takes, allowed, course_in, in_order_of, nothing_asked, said_of, step_of};

use call_table::Step;
use std::alloc::Global;
use trace_lines::{Allows, Line, LineFault, Settings, said};
use trace_text::{Fault, Stop};

/// A step line of a trace.
#[derive(Clone, Copy)]
pub struct Asked {
    /// The number of the trace's line.
    pub line: u64,
    pub cpu: u64,
    pub step: Step,
}

/// What the lines of a trace ask for: a machine, steps in order, and steps at once.
#[derive(Drop)]
pub struct Course {
    pub settings: Settings,
    /// The number of the boot's line.
    pub boot: Option<u64>,
    pub steps: Vec<Asked>,
    /// How many of the steps come before `start`, if there is such a line.
    pub start: Option<usize>,
}

impl Course {
    /// Of no line.
    pub fn new(global: Global) -> Course
        ensures { course_in result ≡ nothing_asked }
    {
        Course {
            settings: Settings::new(global),
            boot: None,
            steps: Vec::new(global),
            start: None,
        }
    }

    /// What `race` allows at this point of the trace.
    fn allows(&self) -> Allows
        ensures { result ≡ allowed (course_in self.now) }
    {
        if self.boot.is_none() {
            return Allows::before_boot();
        }
        Allows::of_race(self.start.is_some())
    }

    /// Takes up the line of a number. Of a line of over 256 bytes any 257 serve.
    pub fn read(&mut self, number: u64, line: &[u8]) -> Result<(), Stop>
        requires sound { IsSound (course_in self.old) }
        ensures takes { Takes number line.now (course_in self.old) result (course_in self.new) }
        ensures sound { OnOk result (IsSound (course_in self.new)) }
    {
        match said(self.allows(), &self.settings, line) {
            Ok(Some(said)) => self.take_up(number, said),
            Ok(None) => Ok(()),
            Err(fault) => Err(Stop::Fault(Fault::Line(fault))),
        }
    }

    fn take_up(&mut self, number: u64, said: Line) -> Result<(), Stop>
        requires allowed { IsAllowed (allowed (course_in self.old)) said }
        requires sound { IsSound (course_in self.old) }
        ensures takes { Comes (said_of number said (course_in self.old)) result (course_in self.new) }
        ensures sound { OnOk result (IsSound (course_in self.new)) }
    {
        match said {
            Line::Setting(setting) => match self.settings.say(setting) {
                Ok(()) => Ok(()),
                Err(_) => Err(Stop::NoMemory),
            },
            Line::Boot => {
                self.boot = Some(number);
                Ok(())
            }
            Line::Step { cpu, step } => self.ask(number, cpu, step),
            Line::Start => {
                self.start = Some(self.steps.len());
                Ok(())
            }
            Line::Query(_) | Line::Poke(_) => Err(Stop::Fault(Fault::Line(LineFault::Place))),
        }
    }

    fn ask(&mut self, line: u64, cpu: u64, step: Step) -> Result<(), Stop>
        requires sound { IsSound (course_in self.old) }
        requires booted { IsSome self.old.boot }
        ensures takes { Comes (step_of line cpu step (course_in self.old)) result (course_in self.new) }
        ensures sound { OnOk result (IsSound (course_in self.new)) }
    {
        if cpu >= self.settings.config().cpus {
            return Err(Stop::Fault(Fault::Cpu));
        }
        match self.steps.push(Asked { line, cpu, step }) {
            Ok(()) => Ok(()),
            Err(_) => Err(Stop::NoMemory),
        }
    }

    /// The number of the steps before `start`.
    pub fn in_order(&self) -> usize
        ensures { result ≡ in_order_of (course_in self.now) }
    {
        match self.start {
            Some(count) => count,
            None => self.steps.len(),
        }
    }
}
