//! How the lines of a trace are written.
ghost use Rattle.std.specs.Prelude.{◌≡◌, ◌++◌, codes, Some};
ghost use Rattle.trace_generate.specs.Lines.{text_of_argument, text_of_call, text_of_line, text_of_numbers, text_of_range, text_of_settings};

use call_table::{Arguments, Form, Step, values_of, vm_kind_word};
use page_state::{PageRange, rights_word};
use std::fmt;

/// A step line of a trace, without its end: the step of a CPU.
#[derive(Clone, Copy, PartialEq)]
pub struct StepLine {
    pub cpu: u64,
    pub step: Step,
}

impl fmt::Display for StepLine {
    ghost output = { λ line. Some (text_of_line line) };

    fn fmt<W: fmt::Write>(&self, f: &mut fmt::Formatter<W>) -> fmt::Result {
        write!(f, "{} {}", self.cpu, CallWords(self.step))
    }
}

/// A call and its arguments.
#[derive(Clone, Copy)]
struct CallWords(Step);

impl fmt::Display for CallWords {
    ghost output = { λ words. Some (text_of_call words.0) };

    #[tactic(auto, unfolding(crate::specs::Lines::text_of_call))]
    fn fmt<W: fmt::Write>(&self, f: &mut fmt::Formatter<W>) -> fmt::Result {
        let named = values_of(self.0);
        let row = named.call.row();
        f.write_str(row.word)?;
        for form in row.forms {
            let argument = ArgumentWord {
                form: *form,
                arguments: named.arguments,
            };
            write!(f, " {argument}")?;
        }
        Ok(())
    }
}

/// The argument of a form.
#[derive(Clone, Copy)]
struct ArgumentWord {
    form: Form,
    arguments: Arguments,
}

impl fmt::Display for ArgumentWord {
    ghost output = { λ word. Some (text_of_argument word.form word.arguments) };

    fn fmt<W: fmt::Write>(&self, f: &mut fmt::Formatter<W>) -> fmt::Result {
        let a = self.arguments;
        match self.form {
            Form::Frame => write!(f, "0x{:x}", a.frame),
            Form::Page => write!(f, "0x{:x}", a.page),
            Form::Count | Form::LastCount => write!(f, "{}", a.count),
            Form::Vcpus => write!(f, "{}", a.vcpus),
            Form::Vcpu => write!(f, "{}", a.vcpu),
            Form::Vm => write!(f, "{}", a.vm),
            Form::Kind => f.write_str(vm_kind_word(a.kind)),
            Form::Rights => f.write_str(rights_word(a.rights)),
        }
    }
}

/// The lines before the steps: the settings of a machine with one region of memory, and its boot.
#[derive(Clone, Copy)]
pub(crate) struct SettingLines {
    pub(crate) geometry: u64,
    pub(crate) cpus: u64,
    pub(crate) log: u64,
    pub(crate) memory: PageRange,
    pub(crate) carve: PageRange,
}

/// A range: its first page, and the number of pages.
#[derive(Clone, Copy)]
struct RangeWords(PageRange);

impl fmt::Display for RangeWords {
    ghost output = { λ range. Some (text_of_range range.0) };

    fn fmt<W: fmt::Write>(&self, f: &mut fmt::Formatter<W>) -> fmt::Result {
        write!(f, "0x{:x} {}", self.0.first.0, self.0.count)
    }
}

/// The lines of settings that are numbers, without the end of the last.
#[derive(Clone, Copy)]
struct NumberLines {
    geometry: u64,
    cpus: u64,
    log: u64,
}

impl fmt::Display for NumberLines {
    ghost output = { λ numbers. Some (text_of_numbers numbers.geometry numbers.cpus numbers.log) };

    fn fmt<W: fmt::Write>(&self, f: &mut fmt::Formatter<W>) -> fmt::Result {
        let NumberLines {
            geometry,
            cpus,
            log,
        } = *self;
        write!(f, "geometry {geometry}\ncpus {cpus}\nlog {log}")
    }
}

impl fmt::Display for SettingLines {
    ghost output = { λ settings. Some (text_of_settings settings) };

    fn fmt<W: fmt::Write>(&self, f: &mut fmt::Formatter<W>) -> fmt::Result {
        let numbers = NumberLines {
            geometry: self.geometry,
            cpus: self.cpus,
            log: self.log,
        };
        let memory = RangeWords(self.memory);
        let carve = RangeWords(self.carve);
        write!(f, "{numbers}\nmemory {memory}\ncarve {carve}\nboot")
    }
}
