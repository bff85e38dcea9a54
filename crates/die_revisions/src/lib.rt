//! A die at a revision: which of its logs it has.
#![tactic(auto)]

ghost use Rattle.std.specs.Prelude.{◌≡◌, ◌≤◌, length, take};

/// The logs of a die at a revision, which are its first ones, as many as the revision says.
pub fn logs_at<L>(logs: &[L], revision: u64) -> &[L]
    requires { revision ≤ length logs.now }
    ensures { result.now ≡ take revision logs.now }
{
    &logs[..revision as usize]
}
