#![tactic(auto)]
// The bench program: each line of the input is answered by a line of the output, as soon as it has come.
use line::bench::{ANSWER, Bench};
use line::buffer::LineBuffer;
use std::io;
use std::io::{BufWriter, ErrorKind, Write};
use std::process::ExitCode;
use writer::write::Text;

// What answers the lines: their bytes are written to it, and it writes the answers to the output.
#[derive(Drop)]
struct Responder<W: Write + Drop> {
    bench: Bench,
    line: LineBuffer,
    text: Text<ANSWER>,
    output: W,
}

impl<W: Write + Drop> Responder<W> {
    fn new(output: W) -> Responder<W> {
        Responder {
            bench: Bench::new(),
            line: LineBuffer::new(),
            text: Text::new(),
            output,
        }
    }

    // Answers the line that was taken, and begins the next.
    fn respond(&mut self) -> io::Result<()> {
        self.bench.answer_text(self.line.line(), &mut self.text);
        self.line.clear();
        self.output.write_all(self.text.as_bytes())?;
        self.output.write_all(b"\n")
    }

    // Answers a last line that has no line feed behind it.
    fn finish(&mut self) -> io::Result<()> {
        if !self.line.is_empty() {
            self.respond()?;
        }
        self.output.flush()
    }
}

impl<W: Write + Drop> Write for Responder<W> {
    fn write(&mut self, bytes: &[u8]) -> io::Result<usize> {
        for b in bytes {
            if *b == b'\n' {
                self.respond()?;
            } else {
                self.line.push(*b);
            }
        }
        self.output.flush()?;
        Ok(bytes.len())
    }

    fn flush(&mut self) -> io::Result<()> {
        self.output.flush()
    }
}

fn run(rt: &HostRuntime) -> io::Result<()> {
    let mut responder = Responder::new(BufWriter::new(rt.alloc(), rt.stdout())?);
    io::copy(&mut rt.stdin(), &mut responder)?;
    responder.finish()
}

// A reader who closes the pipe has seen enough. Another failure ends the program with status 1, and with no word.
fn main(rt: HostRuntime) -> ExitCode {
    match run(&rt) {
        Ok(()) => ExitCode::SUCCESS,
        Err(e) if e.kind() == ErrorKind::BrokenPipe => ExitCode::SUCCESS,
        Err(_) => ExitCode::FAILURE,
    }
}
