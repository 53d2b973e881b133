ghost use Rattle.std.specs.Prelude.{◌≡◌, ◌+◌, ◌≤◌, ◌↔◌, ◌++◌, length, IsOk, OnOk, OnErr};
ghost use Rattle.octets.specs.Octets.{fitted};

use crate::{Full, Octets, Row};

impl<const N: usize> Row<u8, N> {
    /// The first `count` octets of `more`, filled up with 00, at the end. Where there is no room
    /// for them the row stays as it is.
    pub fn append(&mut self, more: &[u8], count: usize) -> Result<(), Full>
        ensures room { IsOk result ↔ (length self.old + count ≤ N) }
        ensures after { OnOk result (self.new ≡ self.old ++ fitted count more.now) }
        ensures len { OnOk result (length self.new ≡ length self.old + count) }
        ensures full { OnErr result (self.new ≡ self.old) }
    {
        if count > N - self.len() {
            return Err(Full);
        }
        let cut = &more[..count.min(more.len())];
        self.extend_from_slice(cut)?;
        for _ in cut.len()..count {
            self.push(0)?;
        }
        Ok(())
    }
}
