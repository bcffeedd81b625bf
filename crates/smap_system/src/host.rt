//! The machine of a run: its file system, and standard error.
ghost use Rattle.std.specs.Prelude.{◌≡◌, OnErr, OnOk};
ghost use Rattle.std.specs.Io.KnownBytes.{Appends};
ghost use Rattle.smap_system.specs.Watched.{inner_of};
ghost use Rattle.smap_system.specs.Status.{status_after, status_of};

use crate::stop::Stop;
use crate::{Disk, WalkFault, Watched, printable, reason};
use std::alloc::{AllocError, Global};
use std::io::{self, Write};

/// The file system and standard error, on which a tool speaks under its name.
#[derive(Drop)]
pub struct Host<'a, E, D> {
    pub rt: &'a E,
    pub disk: &'a D,
    /// The tool's name.
    pub name: &'a str,
}

impl<E: Eprint + AllocGlobal, D: Disk> Host<'_, E, D> {
    pub fn alloc(&self) -> Global {
        self.rt.alloc()
    }

    /// Says something on standard error, behind the tool's name.
    pub fn say(&self, text: &str) {
        self.say_of(self.name, text);
    }

    /// Says something on standard error of a file, or of what else has this name.
    pub fn say_of(&self, name: &str, text: &str) {
        let rt = self.rt;
        match self.sentence(name, text) {
            Ok(text) => {
                let text = text.as_str();
                let _ = eprintln!(rt; "{text}");
            }
            Err(_) => {
                let name = self.name;
                let _ = eprintln!(rt; "{name}: out of memory");
            }
        }
    }

    fn sentence(&self, name: &str, text: &str) -> Result<String, AllocError> {
        let alloc = self.alloc();
        let text = format!(in alloc; "{name}: {text}")?;
        printable(alloc, text.as_bytes())
    }

    /// Says why the run ends, with this status.
    pub fn fail(&self, status: u8, text: &str) -> Stop {
        self.say(text);
        Stop::Reported(status)
    }

    /// Says what can't be done and why, with this status.
    pub fn fail_with(&self, status: u8, what: &str, why: &str) -> Stop {
        match format!(in self.alloc(); "{what}: {why}") {
            Ok(text) => self.fail(status, text.as_str()),
            Err(_) => Stop::Memory,
        }
    }

    /// Says what can't be read or written, and why, with status 3.
    pub fn fail_for(&self, what: &str, error: &io::Error) -> Stop {
        match reason(self.alloc(), error) {
            Ok(why) => self.fail_with(3, what, why.as_str()),
            Err(_) => Stop::Memory,
        }
    }

    /// Prints the help of a command line that asks for nothing, with status 2.
    pub fn fail_with_help(&self, help: &str) -> Stop
        ensures { result ≡ Stop.Reported 2 }
    {
        let rt = self.rt;
        let _ = eprint!(rt; "{help}");
        Stop::Reported(2)
    }

    /// Says what is wrong with a command line, with status 2; what helps then, if that is given, is on the
    /// next line.
    pub fn fail_words(&self, message: Result<String, AllocError>, advice: Option<&str>) -> Stop
        ensures said { OnOk message (result ≡ Stop.Reported 2) }
        ensures memory { OnErr message (result ≡ Stop.Memory) }
    {
        let Ok(message) = message else {
            return Stop::Memory;
        };
        self.say(message.as_str());
        if let Some(advice) = advice {
            let rt = self.rt;
            let _ = eprintln!(rt; "{advice}");
        }
        Stop::Reported(2)
    }

    /// The exit status of a run that ends so. That memory ran out is reported.
    pub fn end(&self, stop: Stop) -> u8
        ensures { result ≡ status_of stop }
    {
        if stop == Stop::Memory {
            self.say("out of memory");
        }
        stop.status()
    }

    /// The exit status of a run that gave this answer: never 0 where it stopped. That memory ran out is
    /// reported.
    pub fn status(&self, answer: Result<(), Stop>) -> u8
        ensures { result ≡ status_after answer }
    {
        match answer {
            Ok(()) => 0,
            Err(stop) => match self.end(stop) {
                0 => 1,
                status => status,
            },
        }
    }

    /// Says which folder can't be read, below one that was given, and why.
    pub fn fail_walking(&self, given: &str, fault: WalkFault) -> Stop {
        let (path, error) = match fault {
            WalkFault::Memory => return Stop::Memory,
            WalkFault::Folder { path, error } => (path, error),
        };
        let path = path.as_str();
        match format!(in self.alloc(); "cannot read all of {given}: {path}") {
            Ok(what) => self.fail_for(what.as_str(), &error),
            Err(_) => Stop::Memory,
        }
    }

    /// Says how many names in a folder are left out, if some are.
    pub fn say_unnamed(&self, given: &str, count: u64) -> Result<(), AllocError> {
        let alloc = self.alloc();
        let text = match count {
            0 => return Ok(()),
            1 => format!(in alloc; "left out a name in {given} that is not in UTF-8")?,
            _ => format!(in alloc; "left out {count} names in {given} that are not in UTF-8")?,
        };
        self.say(text.as_str());
        Ok(())
    }

    /// Writes to the output, and flushes it.
    pub fn write<W: Write>(&self, text: &[u8], writer: &mut Watched<W>) -> Result<(), Stop>
        ensures { OnOk result
            (Appends (W.contents (inner_of writer.old)) (W.contents (inner_of writer.new)) text.now) }
    {
        let written = match writer.write_all(text) {
            Ok(()) => writer.flush(),
            Err(error) => Err(error),
        };
        match written {
            Ok(()) => Ok(()),
            Err(error) => Err(self.fail_writing(&error)),
        }
    }

    /// Says why the output can't be written, unless nobody reads it.
    pub fn fail_writing(&self, error: &io::Error) -> Stop {
        if error.kind() == io::ErrorKind::BrokenPipe {
            return Stop::Unread;
        }
        self.fail_for("cannot write", error)
    }
}
