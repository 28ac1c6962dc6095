//! A reader that keeps what it gives, and a writer that explains the refusals that it takes.
ghost use Rattle.std.specs.Prelude.{◌≡◌};

use crate::explanations::write_explanation;
use crate::refusals::refusal_of;
use crate::scripts::Script;
use script_streams::{Sink, Source, Stop, write_all};
use std::alloc::{AllocError, Allocator, Global};
use std::cell::RefCell;

/// A line of output that is longer reports no refusal.
const MOST_KEPT: usize = 100;

/// A reader, and the script in which what it gives is kept.
#[derive(Drop)]
pub struct Watched<'a, R, A: Allocator = Global> {
    reader: R,
    script: &'a RefCell<Script<A>>,
}

impl<'a, R: Source, A: Allocator> Watched<'a, R, A> {
    /// The reader, which gives what it would give without this.
    pub fn new(reader: R, script: &'a RefCell<Script<A>>) -> Self
        ensures bytes { ⟦<Watched<'a, R, A> as Source>⟧.remaining result ≡ R.remaining reader }
        ensures told { ⟦<Watched<'a, R, A> as Source>⟧.calls result ≡ R.calls reader }
    {
        Watched { reader, script }
    }
}

impl<R: Source, A: Allocator> Source for Watched<'_, R, A> {
    ghost remaining = { λ w. R.remaining w.reader };

    ghost calls = { λ w. R.calls w.reader };

    fn read(&mut self, buffer: &mut [u8]) -> Result<usize, Stop> {
        let count = self.reader.read(buffer)?;
        if let Ok(mut script) = self.script.try_borrow_mut() {
            script.keep(&buffer[..count]);
        }
        Ok(count)
    }
}

/// A writer, and another one, to which the lines `error LINE KIND` that the first takes are explained, with the refused
/// lines of a script.
#[derive(Drop)]
pub struct Explaining<'a, W, E, A: Allocator = Global> {
    writer: W,
    /// None where nothing is explained.
    explainer: Option<Explainer<'a, E, A>>,
}

/// What explains refusals.
#[derive(Drop)]
struct Explainer<'a, E, A: Allocator> {
    errors: E,
    script: &'a RefCell<Script<A>>,
    file: &'a str,
    /// The output's line so far, as far as it is kept.
    line: Vec<u8, A>,
    text: Vec<u8, A>,
}

impl<'a, W: Sink, E: Sink, A: Allocator + Copy> Explaining<'a, W, E, A> {
    /// The writer, which takes what it would take without this. The file is named in what the errors get.
    ///
    /// Where the errors can't be written, or memory for them is refused, they are left out.
    pub fn new(
        alloc: A,
        writer: W,
        errors: E,
        script: &'a RefCell<Script<A>>,
        file: &'a str,
    ) -> Self
        ensures bytes { ⟦<Explaining<'a, W, E, A> as Sink>⟧.contents result ≡ W.contents writer }
        ensures told { ⟦<Explaining<'a, W, E, A> as Sink>⟧.calls result ≡ W.calls writer }
    {
        let explainer = Explainer {
            errors,
            script,
            file,
            line: Vec::new(alloc),
            text: Vec::new(alloc),
        };
        Explaining {
            writer,
            explainer: Some(explainer),
        }
    }

    /// The writer, which takes what it would take without this, and nothing is explained.
    pub fn nothing(writer: W) -> Self
        ensures bytes { ⟦<Explaining<'a, W, E, A> as Sink>⟧.contents result ≡ W.contents writer }
        ensures told { ⟦<Explaining<'a, W, E, A> as Sink>⟧.calls result ≡ W.calls writer }
    {
        Explaining {
            writer,
            explainer: None,
        }
    }
}

impl<W: Sink, E: Sink, A: Allocator> Sink for Explaining<'_, W, E, A> {
    ghost contents = { λ e. W.contents e.writer };

    ghost calls = { λ e. W.calls e.writer };

    fn write(&mut self, bytes: &[u8]) -> Result<usize, Stop> {
        let count = self.writer.write(bytes)?;
        if let Some(explainer) = &mut self.explainer {
            explainer.watch(&bytes[..count]);
        }
        Ok(count)
    }
}

impl<E: Sink, A: Allocator> Explainer<'_, E, A> {
    /// Looks at the bytes that were written.
    fn watch(&mut self, bytes: &[u8]) {
        for byte in bytes {
            if *byte == b'\n' {
                // (an explanation that can't be had is left out)
                let _ = self.explain();
                self.line.clear();
            } else if self.line.len() < MOST_KEPT && self.line.push(*byte).is_err() {
                self.line.clear();
            }
        }
    }

    /// Explains the output's line, if it reports a refusal.
    fn explain(&mut self) -> Result<(), AllocError> {
        let Some(refusal) = refusal_of(self.line.as_slice()) else {
            return Ok(());
        };
        let Ok(mut script) = self.script.try_borrow_mut() else {
            return Ok(());
        };
        script.go_to(refusal.line);
        self.text.clear();
        write_explanation(self.file, &refusal, &script, &mut self.text)?;
        let _ = write_all(&mut self.errors, self.text.as_slice());
        Ok(())
    }
}
