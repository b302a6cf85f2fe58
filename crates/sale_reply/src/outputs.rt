//! The results of the outputs of a Display: a small type over a vector, which contracts see as a list.
ghost use Rattle.std.specs.Prelude.{◌≡◌, ◌<◌, ◌≤◌, length};
ghost use Rattle.sale_reply.specs.Outputs.{with_verdict_at};

use crate::reply::{Shown, Verdict};
use std::marker::Model;

/// The results of the outputs of a Display, in order, of which there are at most 16.
///
/// They lie on the heap, so that a message is small and is handed on without a long copy.
#[derive(Drop)]
pub struct OutputResults {
    inner: Vec<Shown>,
}

impl Model for OutputResults {
    ghost use Rattle.std.specs.Prelude.{◌≤◌, List, length};
    ghost use Rattle.sale_reply.specs.declared.reply.Shown.{Shown};

    ghost Value = { List Shown };

    ghost view = { λ results. results.inner.items };

    ghost invariant = { λ results. length results.inner.items ≤ 16 };
}

impl OutputResults {
    /// The results of this vector.
    pub fn new(inner: Vec<Shown>) -> OutputResults
        requires { length inner.items ≤ 16 }
        ensures { result ≡ inner.items }
    {
        OutputResults { inner }
    }

    /// The results as a slice.
    pub fn as_slice(&self) -> &[Shown]
        ensures value { result.now ≡ self.now }
        ensures few { length self.now ≤ 16 }
    {
        &self.inner
    }

    /// Gives the result at this index this verdict.
    pub fn set_verdict(&mut self, index: usize, verdict: Verdict)
        requires { index < length self.old }
        ensures { self.new ≡ with_verdict_at self.old index verdict }
    {
        self.inner[index].verdict = verdict;
    }
}
