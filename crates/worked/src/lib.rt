//! The worked cases as theorems.
#![tactic(auto)]

ghost use Rattle.std.specs.Prelude.{◌≡◌, length};
ghost use Rattle.worked.specs.Isdus.{WorkedIsdus, isdu_cases};
ghost use Rattle.worked.specs.Worked.{Worked, cases};

/// How many worked cases there are. That each of them holds is the contract's theorem.
pub fn worked_cases() -> usize
    ensures count { result ≡ length cases }
    ensures hold { Worked }
{
    5
}

// One function for both tables would have to take a theorem as a parameter.
/// How many worked cases of ISDUs there are. That each of them holds is the contract's theorem.
pub fn worked_isdus() -> usize
    ensures count { result ≡ length isdu_cases }
    ensures hold { WorkedIsdus }
{
    8
}

#[cfg(test)]
mod tests {
    use super::*;

    #[test]
    fn tables_are_counted(rt: HostRuntime) {
        assert_eq!(rt; worked_cases(), 5);
        assert_eq!(rt; worked_isdus(), 8);
    }
}
