//! The three lengths of a line, fixed when it is opened.
ghost use Rattle.std.specs.Prelude.{◌≡◌, ◌≤◌, true, false, MatchResult};
ghost use Rattle.frame.specs.Lengths.{lengths_fit};
ghost use Rattle.characters.specs.Numbers.{refusal_number};

use characters::refusal::Refusal;

/// How many octets a message carries: on-request data, process data in, process data out.
#[derive(Clone, Copy, PartialEq, Eq, Debug)]
pub struct Lengths {
    od: usize,
    pd_in: usize,
    pd_out: usize,
    ghost fit: { lengths_fit od pd_in pd_out ≡ true },
}

impl Lengths {
    /// The lengths of a line: 1, 2, 8 or 32 on-request octets, and up to 32 octets of process
    /// data each way, with at least one octet in one of them.
    pub fn new(od: usize, pd_in: usize, pd_out: usize) -> Result<Lengths, Refusal>
        ensures { MatchResult result (λ l. (lengths_fit od pd_in pd_out ≡ true) × (l.od ≡ od) × (l.pd_in ≡ pd_in) × (l.pd_out ≡ pd_out)) (λ e. (lengths_fit od pd_in pd_out ≡ false) × (refusal_number e ≡ 3)) }
    {
        if !matches!(od, 1 | 2 | 8 | 32) || pd_in > 32 || pd_out > 32 || pd_in + pd_out == 0 {
            return Err(Refusal::WrongLengths);
        }
        Ok(Lengths { od, pd_in, pd_out })
    }

    // Each bound follows from `fit`, here and in `sent` and `answered` of the codec. Without the clause
    // each caller's proof would repeat it, which reads no plainer.

    /// On-request octets of a message that carries any.
    pub fn od(&self) -> usize
        ensures value { result ≡ self.now.od }
        ensures bound { result ≤ 32 }
    {
        self.od
    }

    /// Octets of process data in, from the Device to the Master.
    pub fn pd_in(&self) -> usize
        ensures value { result ≡ self.now.pd_in }
        ensures bound { result ≤ 32 }
    {
        self.pd_in
    }

    /// Octets of process data out, from the Master to the Device.
    pub fn pd_out(&self) -> usize
        ensures value { result ≡ self.now.pd_out }
        ensures bound { result ≤ 32 }
    {
        self.pd_out
    }
}
