//! Input and output for programs that go through a file part by part. A program pulls the next record or line of text (`input`)
//! and puts what it prints (`output`). It keeps the buffers and lends them, so that its own loop is a few lines. The same two with their
//! buffers are a reader and a writer of std (`stream`).
#![tactic(auto)]

pub mod input;
pub mod output;
pub mod stream;

ghost use Rattle.std.specs.Prelude.{◌≡◌, min};

pub(crate) fn least(a: usize, b: usize) -> usize
    ensures { result ≡ min a b }
{
    if a < b { a } else { b }
}
