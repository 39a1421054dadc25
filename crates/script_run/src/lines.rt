// The lines of a script, and what is written for each.
use script_authenticator::ScriptState;
use std::io;
use std::io::Write;

// How a line is read.
#[derive(Clone, Copy)]
enum Section {
    Cases,
    Md4,
    Rc4,
    Des,
    Keys,
}

// What goes on from line to line, and from script to script.
#[derive(Clone, Copy)]
pub struct Session {
    section: Section,
    state: ScriptState,
}

impl Session {
    // At the start.
    pub fn new() -> Session {
        Session {
            section: Section::Cases,
            state: ScriptState::new(),
        }
    }

    // The lines after a section's marker are of its section.
    fn enter(&mut self, marker: &[u8]) {
        match marker {
            b":cases" => self.section = Section::Cases,
            b":md4" => self.section = Section::Md4,
            b":rc4" => self.section = Section::Rc4,
            b":des" => self.section = Section::Des,
            b":keys" => self.section = Section::Keys,
            _ => {}
        }
    }

    // Writes a command's line and its result. Each crate writes the result of its own commands
    // only.
    fn run_command(&mut self, output: &mut impl Write, line: &[u8]) -> io::Result<()> {
        output.write_all(line)?;
        script_ciphers::run(output, line)?;
        script_peer::run(output, line)?;
        self.state.run(output, line)
    }

    // Runs a line, and writes all of its output but for the line feed. An empty one, a comment and
    // a section's marker are copied as they are.
    fn run_line(&mut self, output: &mut impl Write, line: &[u8]) -> io::Result<()> {
        if let [] | [b'#' | b':', ..] = line {
            self.enter(line);
            return output.write_all(line);
        }
        match self.section {
            Section::Cases => self.run_command(output, line),
            Section::Md4 => script_ciphers::md4_line(output, line),
            Section::Rc4 => script_ciphers::rc4_line(output, line),
            Section::Des => script_ciphers::des_line(output, line),
            Section::Keys => script_ciphers::keys_line(output, line),
        }
    }

    // Runs each line of a script.
    pub(crate) fn run_lines(&mut self, output: &mut impl Write, script: &[u8]) -> io::Result<()> {
        for line in script.split_inclusive(|c| *c == b'\n') {
            self.run_line(output, octets::up_to(line, b'\n'))?;
            writeln!(output)?;
        }
        Ok(())
    }
}
