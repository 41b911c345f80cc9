//! Going back to an earlier state of an encoder.

ghost use Rattle.std.specs.Prelude.{◌≡◌, ◌<◌, length, take, All};
ghost use Rattle.base.specs.writing.State.{cut};
ghost use Rattle.base.specs.writing.Wire.{state_of};

use crate::wire::encoder::BinEncoder;

/// How many bytes stand, and how many suffixes are stored.
#[derive(Drop)]
pub(crate) struct Mark {
    len: usize,
    count: usize,
}

impl<'a> BinEncoder<'a> {
    /// Where the encoder stands.
    pub(crate) fn mark(&self) -> Mark
        ensures len { result.len ≡ length (state_of self.now).bytes }
        ensures count { result.count ≡ length (state_of self.now).suffixes }
    {
        Mark {
            len: self.buffer.len(),
            count: self.suffixes.len(),
        }
    }

    /// Cuts back to the marked number of bytes and suffixes. Those suffixes begin before the cut.
    pub(crate) fn roll_back(&mut self, mark: Mark)
        requires { All (λ t. t.offset < mark.len) (take mark.count (state_of self.old).suffixes) }
        ensures { state_of self.new ≡ cut mark.len mark.count (state_of self.old) }
    {
        self.suffixes.truncate(mark.count);
        self.buffer.truncate(mark.len);
    }
}
