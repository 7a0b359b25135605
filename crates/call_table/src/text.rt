//! How VMs, values, refusals and replies are written.
ghost use Rattle.std.specs.Prelude.{Some};
ghost use Rattle.call_table.specs.Texts.{text_of_vm, text_of_value, text_of_refusal, text_of_reply};

use crate::{Refusal, Reply, Value, VmId};
use std::fmt;

impl fmt::Display for VmId {
    ghost output = { λ vm. Some (text_of_vm vm) };

    fn fmt<W: fmt::Write>(&self, f: &mut fmt::Formatter<W>) -> fmt::Result {
        write!(f, "{}.{}", self.slot, self.generation)
    }
}

impl fmt::Display for Value {
    ghost output = { λ value. Some (text_of_value value) };

    fn fmt<W: fmt::Write>(&self, f: &mut fmt::Formatter<W>) -> fmt::Result {
        match self {
            Value::Nothing => Ok(()),
            Value::Vm(vm) => write!(f, "vm {vm}"),
            Value::Frame(frame) => write!(f, "frame 0x{:x}", frame.0),
            Value::Entry(entry) => write!(f, "entry {entry}"),
            Value::Row(row) => fmt::Display::fmt(row, f),
        }
    }
}

impl fmt::Display for Refusal {
    ghost output = { λ refusal. Some (text_of_refusal refusal) };

    fn fmt<W: fmt::Write>(&self, f: &mut fmt::Formatter<W>) -> fmt::Result {
        let word = match self {
            Refusal::Perm => "perm",
            Refusal::NoVm => "novm",
            Refusal::NoMemory => "nomemory",
            Refusal::Busy => "busy",
            Refusal::Invalid => "invalid",
            Refusal::NoPool => "nopool",
            Refusal::LogFull => "logfull",
            Refusal::Contended => "contended",
        };
        f.write_str(word)
    }
}

impl fmt::Debug for Refusal {
    fn fmt<W: fmt::Write>(&self, f: &mut fmt::Formatter<W>) -> fmt::Result {
        fmt::Display::fmt(self, f)
    }
}

impl fmt::Display for Reply {
    ghost output = { λ reply. Some (text_of_reply reply) };

    fn fmt<W: fmt::Write>(&self, f: &mut fmt::Formatter<W>) -> fmt::Result {
        match self {
            Reply::Done(Value::Nothing) => f.write_str("ok"),
            Reply::Done(value) => write!(f, "ok {value}"),
            Reply::Refused(refusal) => fmt::Display::fmt(refusal, f),
        }
    }
}

impl fmt::Debug for Reply {
    fn fmt<W: fmt::Write>(&self, f: &mut fmt::Formatter<W>) -> fmt::Result {
        fmt::Display::fmt(self, f)
    }
}
