//! A sink of bytes.

ghost use Rattle.std.specs.Prelude.{MatchResult};
ghost use Rattle.outside_io.specs.Sinks.{SinkView, IsWritten, IsNotWritten, IsWholeWritten, IsCutOff};

/// A call on files or on a sink failed: a device's error, or a file that isn't there.
#[derive(Clone, Copy, Debug, PartialEq, Eq)]
pub struct Failed;

/// What takes bytes, some at a time.
pub trait Sink: Drop {
    /// What is known of the object: what was written, where it tells that, and the count of faults.
    ghost state: { Self → SinkView };

    /// Takes a prefix of the bytes, at least one where there is one, and answers how many. `Failed` takes nothing and comes
    /// only where the count of faults rose.
    fn write(&mut self, bytes: &[u8]) -> Result<usize, Failed>
        ensures { MatchResult result
            (λ count. IsWritten (state self.old) bytes.now count (state self.new))
            (λ _. IsNotWritten (state self.old) (state self.new)) };
}

/// Writes all of the bytes. After `Failed` a prefix of them is out, and the count of faults rose.
pub fn write_whole<S: Sink>(out: &mut S, bytes: &[u8]) -> Result<(), Failed>
    ensures { MatchResult result
        (λ _. IsWholeWritten (S.state out.old) bytes.now (S.state out.new))
        (λ _. IsCutOff (S.state out.old) bytes.now (S.state out.new)) }
{
    let mut done = 0;
    while done < bytes.len() {
        let rest = &bytes[done..];
        let count = out.write(rest)?;
        done += count;
    }
    Ok(())
}
